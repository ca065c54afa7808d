//! The axis of a rotation, and its parts over its length.

ghost use Rattle.std.specs.Prelude.{◌≡◌, ◌≤◌, ◌<◌, ◌*◌, ◌^◌, unsigned_abs};
ghost use Rattle.fixed_transform.specs.Fixed.{IsWithin};
ghost use Rattle.fixed_transform.specs.Axis.{length_of, unit_part};

use crate::arithmetic::floor_of;

/// The square of a part of an axis.
fn square(part: i32) -> u64
    ensures value { result ≡ unsigned_abs part * unsigned_abs part }
    ensures near { result ≤ 2 ^ 62 }
{
    let size = part.unsigned_abs() as u64;
    size * size
}

/// The length of an axis, rounded down.
pub fn length(x: i32, y: i32, z: i32) -> u64
    ensures value { result ≡ length_of x y z }
    ensures x { IsWithin result x }
    ensures y { IsWithin result y }
    ensures z { IsWithin result z }
    ensures near { result < 2 ^ 32 }
{
    let sum = square(x) + square(y) + square(z);
    sum.isqrt()
}

/// A part of an axis over its length, from -65536 to 65536.
pub fn unit_part(part: i32, length: u64) -> i32
    requires some { 0 < length }
    requires near { length < 2 ^ 32 }
    requires part { IsWithin length part }
    ensures value { result ≡ unit_part part length }
    ensures near { IsWithin (2 ^ 16) result }
{
    floor_of(65536 * part as i64, length as i64) as i32
}
