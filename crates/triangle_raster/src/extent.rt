//! The rows in which a triangle may have fragments.

ghost use Rattle.std.specs.Prelude.{◌≤ℤ◌, ◌<ℤ◌, pos, IsTrue};
ghost use Rattle.triangle_raster.specs.Vertex.{IsFromTo};
ghost use Rattle.triangle_raster.specs.Held.{AreOver, AreUnder, IsNearPoint, IsOver, IsUnder};

use crate::arithmetic::{all_of, product};
use crate::edge::Point;

/// Rows from `bottom` to before `top`, in pixels from the lower left corner. Own.
#[derive(Clone, Copy, Debug, PartialEq, Eq)]
pub struct Extent {
    pub bottom: i32,
    pub top: i32,
}

/// The row in which a corner before the eye stands, or of 0 to 255 the one nearest to it.
fn row_of(point: &Point) -> i32
    ensures { IsFromTo (pos 0) (pos 255) result }
{
    if point.d <= 0 {
        return 0;
    }
    let row = point.y.div_euclid(point.d);
    if row <= 0 {
        0
    } else if row < 255 {
        row as i32
    } else {
        255
    }
}

/// Whether a corner stands over the lower side of a row, or on it.
fn is_over(point: &Point, row: i32) -> bool
    ensures { IsTrue result → IsOver point.now row }
{
    product(i64::from(row), point.d) <= i128::from(point.y)
}

/// Whether a corner stands under the lower side of a row, or on it.
fn is_under(point: &Point, row: i32) -> bool
    ensures { IsTrue result → IsUnder point.now row }
{
    i128::from(point.y) <= product(i64::from(row), point.d)
}

/// The lesser of two numbers.
fn lesser(a: i32, b: i32) -> i32
    requires a { IsFromTo (pos 0) (pos 255) a }
    requires b { IsFromTo (pos 0) (pos 255) b }
    ensures { IsFromTo (pos 0) (pos 255) result }
{
    if a < b { a } else { b }
}

/// The greater of two numbers.
fn greater(a: i32, b: i32) -> i32
    requires a { IsFromTo (pos 0) (pos 255) a }
    requires b { IsFromTo (pos 0) (pos 255) b }
    ensures { IsFromTo (pos 0) (pos 255) result }
{
    if a < b { b } else { a }
}

/// A first row, or the greater one under which no corner stands.
pub fn bottom_of(one: &Point, two: &Point, three: &Point, first: i32) -> i32
    requires first { IsFromTo (pos 0) (pos 256) first }
    ensures bounds { IsFromTo (pos 0) (pos 256) result }
    ensures within { first ≤ℤ result }
    ensures over { first <ℤ result → AreOver one.now two.now three.now result }
{
    let row = lesser(row_of(one), lesser(row_of(two), row_of(three)));
    if row <= first {
        return first;
    }
    if all_of(is_over(one, row), is_over(two, row), is_over(three, row)) {
        row
    } else {
        first
    }
}

/// The end of rows, or the lesser one over which no corner stands.
pub fn top_of(one: &Point, two: &Point, three: &Point, end: i32) -> i32
    requires end { IsFromTo (pos 0) (pos 256) end }
    ensures bounds { IsFromTo (pos 0) (pos 256) result }
    ensures within { result ≤ℤ end }
    ensures under { result <ℤ end → AreUnder one.now two.now three.now result }
{
    let row = greater(row_of(one), greater(row_of(two), row_of(three))) + 1;
    if end <= row {
        return end;
    }
    if all_of(is_under(one, row), is_under(two, row), is_under(three, row)) {
        row
    } else {
        end
    }
}
