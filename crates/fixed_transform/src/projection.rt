//! The matrices of Frustumx and Orthox.

ghost use Rattle.std.specs.Prelude.{◌≡◌, ◌≢◌, ◌<ℤ◌, ◌+ℤ◌, ◌-ℤ◌, ◌*ℤ◌, neg_ℤ, pos};
ghost use Rattle.fixed_transform.specs.Fixed.{quotient_of};
ghost use Rattle.fixed_transform.specs.Projection.{depth_of, frustum_of, ortho_of};

use crate::arithmetic::{clamped, difference, floor_of, quotient, sum};
use crate::matrix::Matrix;

/// Twice a distance, over what lies between two sides.
fn scale(distance: i32, low: i32, high: i32) -> i32
    requires { low ≢ high }
    ensures { result ≡ quotient_of (pos 2 *ℤ distance) (high -ℤ low) }
{
    quotient(2 * distance as i64, difference(high, low))
}

/// The sum of two sides, over what lies between them.
fn middle(low: i32, high: i32) -> i32
    requires { low ≢ high }
    ensures { result ≡ quotient_of (high +ℤ low) (high -ℤ low) }
{
    quotient(sum(high, low), difference(high, low))
}

/// The same below zero.
fn opposite_middle(low: i32, high: i32) -> i32
    requires { low ≢ high }
    ensures { result ≡ quotient_of (neg_ℤ (high +ℤ low)) (high -ℤ low) }
{
    quotient(-sum(high, low), difference(high, low))
}

/// -2 times the far distance times the near one, over what lies between them.
fn depth(near: i32, far: i32) -> i32
    requires near { pos 0 <ℤ near }
    requires far { pos 0 <ℤ far }
    requires apart { near ≢ far }
    ensures { result ≡ depth_of near far }
{
    let product = far as i64 * near as i64;
    clamped(floor_of(-2 * product, difference(far, near)))
}

/// The matrix of Frustumx (all 16.16 fixed; the entries rounded down and clamped). The conditions are its error tests.
/// Section 2.10.2 of OpenGL ES 1.1.12, the rounding own.
pub fn frustum(left: i32, right: i32, bottom: i32, top: i32, near: i32, far: i32) -> Matrix
    requires near { pos 0 <ℤ near }
    requires far { pos 0 <ℤ far }
    requires across { left ≢ right }
    requires upward { bottom ≢ top }
    requires deep { near ≢ far }
    ensures { result ≡ frustum_of left right bottom top near far }
{
    let across = scale(near, left, right);
    let upward = scale(near, bottom, top);
    let centre_across = middle(left, right);
    let centre_upward = middle(bottom, top);
    let centre_deep = opposite_middle(near, far);
    let deep = depth(near, far);
    Matrix::from_values([
        across,
        0,
        0,
        0,
        0,
        upward,
        0,
        0,
        centre_across,
        centre_upward,
        centre_deep,
        -65536,
        0,
        0,
        deep,
        0,
    ])
}

/// The matrix of Orthox (all 16.16 fixed; the entries rounded down and clamped). The conditions are its error tests.
/// Section 2.10.2 of OpenGL ES 1.1.12, the rounding own.
pub fn ortho(left: i32, right: i32, bottom: i32, top: i32, near: i32, far: i32) -> Matrix
    requires across { left ≢ right }
    requires upward { bottom ≢ top }
    requires deep { near ≢ far }
    ensures { result ≡ ortho_of left right bottom top near far }
{
    let across = scale(65536, left, right);
    let upward = scale(65536, bottom, top);
    let deep = scale(-65536, near, far);
    let centre_across = opposite_middle(left, right);
    let centre_upward = opposite_middle(bottom, top);
    let centre_deep = opposite_middle(near, far);
    Matrix::from_values([
        across,
        0,
        0,
        0,
        0,
        upward,
        0,
        0,
        0,
        0,
        deep,
        0,
        centre_across,
        centre_upward,
        centre_deep,
        65536,
    ])
}
