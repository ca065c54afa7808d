//! Coordinates: s and t over q, and how far they come along a side.

ghost use Rattle.std.specs.Prelude.{◌≡◌, ◌^◌, ◌≤◌, pos, unsigned_abs, ◌*ℤ◌, ◌<ℤ◌};
ghost use Rattle.std.specs.Int.{int_div_euclid};
ghost use Rattle.texture_units.specs.Texture.{IsSide};
ghost use Rattle.texture_units.specs.Place.{along, clamp_i32, coordinate_of, past_centre};

/// 1 in 16.16 fixed.
const ONE: i32 = 65536;

/// s or t over q, 16.16 fixed, rounded down and clamped to 32 bits, and 0 where q isn't above 0 (section 3.5.1, the rounding
/// and the 0 own). Where q is 1, as it is unless a program sets it, nothing is divided.
#[inline(always)]
pub(crate) fn over(number: i32, q: i32) -> i32
    ensures { result ≡ coordinate_of number q }
{
    if q == ONE {
        return number;
    }
    divided(number, q)
}

/// The same, whatever q is.
#[inline(never)]
fn divided(number: i32, q: i32) -> i32
    ensures { result ≡ coordinate_of number q }
{
    if q <= 0 {
        return 0;
    }
    clamped(quotient(scaled(number), q as i64))
}

/// A number of 32 bits, 65,536 times.
fn scaled(number: i32) -> i64
    ensures { result ≡ number *ℤ pos 65536 }
{
    number as i64 * 65536
}

/// A number over another one, rounded down.
fn quotient(a: i64, b: i64) -> i64
    requires { pos 0 <ℤ b }
    ensures { result ≡ int_div_euclid a b }
{
    a.div_euclid(b)
}

/// The number of 32 bits that is nearest.
fn clamped(number: i64) -> i32
    ensures { result ≡ clamp_i32 number }
{
    number.clamp(i32::MIN as i64, i32::MAX as i64) as i32
}

/// How far a coordinate comes along a side, in 65,536ths of a texel (section 3.7.7).
#[inline(always)]
pub(crate) fn along(coordinate: i32, side: u32) -> i64
    requires { IsSide side }
    ensures value { result ≡ along coordinate side }
    ensures near { unsigned_abs result ≤ 2 ^ 39 }
{
    coordinate as i64 * i64::from(side)
}

/// How far a coordinate comes past the centre of the first texel, in 65,536ths of a texel (section 3.7.7).
pub(crate) fn past_centre(coordinate: i32, side: u32) -> i64
    requires { IsSide side }
    ensures value { result ≡ past_centre coordinate side }
    ensures near { unsigned_abs result ≤ 2 ^ 40 }
{
    along(coordinate, side) - 32768
}

/// The texel, counted past the ends, in which a number of 65,536ths of a texel lies (section 3.7.7).
#[inline(always)]
pub(crate) fn whole(far: i64) -> i32
    requires { unsigned_abs far ≤ 2 ^ 40 }
    ensures value { result ≡ int_div_euclid far (pos 65536) }
    ensures near { unsigned_abs result ≤ 2 ^ 24 }
{
    (far >> 16) as i32
}
