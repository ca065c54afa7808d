//! Places of texels along a side.

ghost use Rattle.std.specs.Prelude.{◌≡◌, ◌^◌, ◌%◌, ◌/◌, ◌<◌, ◌≤◌, pos, ◌+ℤ◌, unsigned_abs};
ghost use Rattle.std.specs.Int.{int_rem_euclid};
ghost use Rattle.texture_units.specs.Texture.{IsSide};
ghost use Rattle.texture_units.specs.Place.{clamped_to_edge, first_of, nearest_of, place_of, repeated, second_of, share_of};

use crate::coordinate::{along, past_centre, whole};

/// A multiple of every side, by which a texel that is counted past the ends comes to be above 0.
const TURNS: i32 = 0x2000000;

/// The place on a side of a texel that is counted past the ends, by CLAMP_TO_EDGE or else by REPEAT (section 3.7.6).
#[inline(always)]
#[tactic(auto, unfolding(crate::specs::Place::place_of))]
fn place(clamp: bool, side: u32, texel: i32) -> u32
    requires side { IsSide side }
    requires near { unsigned_abs texel ≤ 2 ^ 25 }
    ensures value { result ≡ place_of clamp side texel }
    ensures inside { result < side }
{
    if clamp {
        clamped_to_edge(side, texel)
    } else {
        repeated(side, texel)
    }
}

/// The place on a side of a texel that is counted past the ends, by CLAMP_TO_EDGE (section 3.7.6).
#[inline(always)]
fn clamped_to_edge(side: u32, texel: i32) -> u32
    requires { IsSide side }
    ensures value { result ≡ clamped_to_edge side texel }
    ensures inside { result < side }
{
    if texel < 0 {
        return 0;
    }
    (texel as u32).min(side - 1)
}

/// The place on a side of a texel that is counted past the ends, by REPEAT (section 3.7.6).
#[inline(always)]
fn repeated(side: u32, texel: i32) -> u32
    requires side { IsSide side }
    requires near { unsigned_abs texel ≤ 2 ^ 25 }
    ensures value { result ≡ repeated side texel }
    ensures inside { result < side }
{
    lower_bits(above(texel), side)
}

/// A texel that is counted past the ends, some turns further on.
#[inline(always)]
fn above(texel: i32) -> u32
    requires { unsigned_abs texel ≤ 2 ^ 25 }
    ensures { pos result ≡ texel +ℤ pos (2 ^ 25) }
{
    (TURNS + texel) as u32
}

/// What is left of a number over a side: its lower bits, since a side is a power of two.
#[inline(always)]
fn lower_bits(number: u32, side: u32) -> u32
    requires { IsSide side }
    ensures value { result ≡ number % side }
    ensures inside { result < side }
{
    number & (side - 1)
}

/// NEAREST: the place on a side of the texel in which a coordinate lies (sections 3.7.7 and 3.7.8).
#[inline(always)]
pub(crate) fn nearest(clamp: bool, side: u32, coordinate: i32) -> u32
    requires { IsSide side }
    ensures value { result ≡ nearest_of clamp side coordinate }
    ensures inside { result < side }
{
    place(clamp, side, whole(along(coordinate, side)))
}

/// LINEAR: the places on a side of two texels, one after the other, and how far between their centres a coordinate lies, in
/// 256ths (section 3.7.7).
#[derive(Clone, Copy)]
pub(crate) struct Pair {
    pub(crate) first: u32,
    pub(crate) second: u32,
    pub(crate) share: u32,
}

impl Pair {
    /// The pair that a coordinate lies between.
    pub(crate) fn new(clamp: bool, side: u32, coordinate: i32) -> Pair
        requires { IsSide side }
        ensures first { result.first ≡ first_of clamp side coordinate }
        ensures second { result.second ≡ second_of clamp side coordinate }
        ensures share { result.share ≡ share_of side coordinate }
        ensures first_inside { result.first < side }
        ensures second_inside { result.second < side }
        ensures within { result.share < 256 }
    {
        let far = past_centre(coordinate, side);
        let texel = whole(far);
        let next = after(texel);
        let first = place(clamp, side, texel);
        let second = place(clamp, side, next);
        let share = rest(far) / 256;
        Pair {
            first,
            second,
            share,
        }
    }
}

/// The texel after another one, counted past the ends.
fn after(texel: i32) -> i32
    requires { unsigned_abs texel ≤ 2 ^ 24 }
    ensures value { result ≡ texel +ℤ pos 1 }
    ensures near { unsigned_abs result ≤ 2 ^ 25 }
{
    texel + 1
}

/// How far a number of 65,536ths of a texel comes past the beginning of the texel in which it lies.
fn rest(far: i64) -> u32
    ensures value { pos result ≡ int_rem_euclid far (pos 65536) }
    ensures few { result < 65536 }
{
    far.rem_euclid(65536) as u32
}
