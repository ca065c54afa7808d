//! The matrix of Rotatex, from the parts of an axis of length 1, a sine and a cosine.

ghost use Rattle.std.specs.Prelude.{◌≡◌, ◌^◌, ◌-ℤ◌, pos};
ghost use Rattle.fixed_transform.specs.Fixed.{IsWithin};
ghost use Rattle.fixed_transform.specs.Rotation.{diagonal_entry, difference_entry, rotation_of, scaled, sum_entry, turn_about};

use crate::angle::{angle_in_turn, cosine, sine};
use crate::arithmetic::floor_of;
use crate::axis::{length, unit_part};
use crate::matrix::Matrix;

/// The product of two numbers, rounded down.
fn scaled(u: i32, v: i32) -> i32
    requires u { IsWithin (2 ^ 16) u }
    requires v { IsWithin (2 ^ 17) v }
    ensures value { result ≡ scaled u v }
    ensures near { IsWithin (2 ^ 17) result }
    ensures unit { IsWithin (2 ^ 16) v → IsWithin (2 ^ 16) result }
{
    floor_of(u as i64 * v as i64, 65536) as i32
}

/// The product of three numbers, the last of them 1 less the cosine, each product rounded down.
fn crossed(u: i32, v: i32, cosine: i32) -> i32
    requires u { IsWithin (2 ^ 16) u }
    requires v { IsWithin (2 ^ 16) v }
    requires cosine { IsWithin (2 ^ 16) cosine }
    ensures value { result ≡ scaled (scaled u v) (pos 65536 -ℤ cosine) }
    ensures near { IsWithin (2 ^ 17) result }
{
    scaled(scaled(u, v), 65536 - cosine)
}

/// The entry in the row and the column of one part.
fn diagonal_entry(u: i32, cosine: i32) -> i32
    requires u { IsWithin (2 ^ 16) u }
    requires cosine { IsWithin (2 ^ 16) cosine }
    ensures { result ≡ diagonal_entry u cosine }
{
    crossed(u, u, cosine) + cosine
}

/// An entry in the rows and columns of two parts; the third part is added by the sine.
fn sum_entry(u: i32, v: i32, w: i32, sine: i32, cosine: i32) -> i32
    requires u { IsWithin (2 ^ 16) u }
    requires v { IsWithin (2 ^ 16) v }
    requires w { IsWithin (2 ^ 16) w }
    requires sine { IsWithin (2 ^ 16) sine }
    requires cosine { IsWithin (2 ^ 16) cosine }
    ensures { result ≡ sum_entry u v w sine cosine }
{
    crossed(u, v, cosine) + scaled(w, sine)
}

/// The entry across from it; the third part is taken off.
fn difference_entry(u: i32, v: i32, w: i32, sine: i32, cosine: i32) -> i32
    requires u { IsWithin (2 ^ 16) u }
    requires v { IsWithin (2 ^ 16) v }
    requires w { IsWithin (2 ^ 16) w }
    requires sine { IsWithin (2 ^ 16) sine }
    requires cosine { IsWithin (2 ^ 16) cosine }
    ensures { result ≡ difference_entry u v w sine cosine }
{
    crossed(u, v, cosine) - scaled(w, sine)
}

/// The turn about an axis of length 1.
fn turn_about(a: i32, b: i32, e: i32, sine: i32, cosine: i32) -> Matrix
    requires a { IsWithin (2 ^ 16) a }
    requires b { IsWithin (2 ^ 16) b }
    requires e { IsWithin (2 ^ 16) e }
    requires sine { IsWithin (2 ^ 16) sine }
    requires cosine { IsWithin (2 ^ 16) cosine }
    ensures { result ≡ turn_about a b e sine cosine }
{
    Matrix::from_values([
        diagonal_entry(a, cosine),
        sum_entry(b, a, e, sine, cosine),
        difference_entry(a, e, b, sine, cosine),
        0,
        difference_entry(a, b, e, sine, cosine),
        diagonal_entry(b, cosine),
        sum_entry(b, e, a, sine, cosine),
        0,
        sum_entry(a, e, b, sine, cosine),
        difference_entry(b, e, a, sine, cosine),
        diagonal_entry(e, cosine),
        0,
        0,
        0,
        0,
        65536,
    ])
}

/// The matrix of Rotatex by an angle in degrees about the axis x, y, z (all 16.16 fixed); the identity where x, y and z
/// are zero. Section 2.10.2 of OpenGL ES 1.1.12, the rounding own.
pub fn rotation(angle: i32, x: i32, y: i32, z: i32) -> Matrix
    ensures { result ≡ rotation_of angle x y z }
{
    let length = length(x, y, z);
    if length == 0 {
        return Matrix::identity();
    }
    let angle = angle_in_turn(angle);
    turn_about(
        unit_part(x, length),
        unit_part(y, length),
        unit_part(z, length),
        sine(angle),
        cosine(angle),
    )
}
