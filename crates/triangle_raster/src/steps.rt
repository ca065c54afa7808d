//! By how much depth and values rise from column to column, where they are carried.

ghost use Rattle.std.specs.Prelude.{◌≡◌, ◌≤◌, ◌^◌, ◌*ℤ◌, ◌<ℤ◌, ◌≤ℤ◌, pos, IfSome, IsTrue};
ghost use Rattle.triangle_raster.specs.Vertex.{AreCorners, IsWithin};
ghost use Rattle.triangle_raster.specs.Held.{rises_of, sums_seen, AreBetween, AreNearSums, AreSteps, IsShape, IsWhole};

use crate::arithmetic::{product, total};
use crate::carry::{Carries, LongCarry};
use crate::shape::Shape;
use crate::sums::{Sums, are_same};
use crate::vertex::Vertex;

/// All weights together, which are the same everywhere, and twice the sum of w by weight; and the steps of values and
/// depth, each over one of them.
#[derive(Clone, Copy)]
pub struct Steps {
    pub whole: i64,
    pub divisor: i128,
    pub values: Carries,
    pub depth: LongCarry,
}

/// Whether the corners have one w above zero, and stand between the near plane and the far one.
fn are_between(corners: &[Vertex; 3]) -> bool
    requires { AreCorners corners.now }
    ensures { IsTrue result → AreBetween corners.now }
{
    let w = corners[0].w;
    if w <= 0 || !are_same(w, corners[1].w, corners[2].w) {
        return false;
    }
    if corners[0].z < -w || corners[1].z < -w || corners[2].z < -w {
        return false;
    }
    if corners[0].z > w || corners[1].z > w || corners[2].z > w {
        return false;
    }
    true
}

/// Twice the sum of w by weight.
fn divisor_of(whole: i64, w: i32) -> i128
    requires some { pos 0 <ℤ whole }
    requires few { whole ≤ℤ pos (2 ^ 62) }
    requires positive { pos 0 <ℤ w }
    requires near { IsWithin (2 ^ 27) w }
    ensures value { result ≡ pos 2 *ℤ (whole *ℤ w) }
    ensures some { pos 0 <ℤ result }
    ensures few { result ≤ℤ pos (2 ^ 120) }
{
    2 * product(whole, w as i64)
}

/// By how much the weights grow from column to column.
fn rises(shape: &Shape) -> Sums
    requires { IsShape shape.now }
    ensures value { sums_seen result ≡ rises_of shape.now }
    ensures near { AreNearSums result }
{
    Sums {
        one: 2 * shape.one.x,
        two: 2 * shape.two.x,
        three: 2 * shape.three.x,
    }
}

/// All weights together, where they are the same everywhere and few enough.
fn whole_of(shape: &Shape) -> Option<i64>
    requires { IsShape shape.now }
    ensures { IfSome result (IsWhole shape.now) }
{
    let across = total(shape.one.x, shape.two.x, shape.three.x);
    let upward = total(shape.one.y, shape.two.y, shape.three.y);
    let half = total(shape.one.d, shape.two.d, shape.three.d);
    if across != 0 || upward != 0 || half <= 0 || half > 2305843009213693952 {
        return None;
    }
    Some(half as i64 * 2)
}

impl Steps {
    /// No steps.
    pub fn none() -> Steps {
        Steps {
            whole: 0,
            divisor: 0,
            values: Carries::none(),
            depth: LongCarry {
                quotient: 0,
                remainder: 0,
            },
        }
    }

    /// The steps of a triangle, of so many values. None where nothing is carried.
    pub fn of_shape(shape: &Shape, moving: usize) -> Option<Steps>
        requires shape { IsShape shape.now }
        requires moving { moving ≤ 10 }
        ensures { IfSome result (AreSteps shape.now moving) }
    {
        let corners = &shape.corners;
        if !are_between(corners) {
            return None;
        }
        let whole = whole_of(shape)?;
        let divisor = divisor_of(whole, corners[0].w);
        let rises = rises(shape);
        let values = Carries::of_sums(corners, &rises, moving, whole)?;
        let z = rises.weighted(corners[0].z, corners[1].z, corners[2].z);
        let depth = LongCarry::of_depth(z, 0, divisor)?;
        Some(Steps {
            whole,
            divisor,
            values,
            depth,
        })
    }
}
