//! The columns of a row in which a triangle covers the centre.

ghost use Rattle.std.specs.Prelude.{◌≡◌, ◌<◌, ◌+ℤ◌, ◌≤ℤ◌, ℕ, pos, true};
ghost use Rattle.triangle_raster.specs.Vertex.{IsFromTo};
ghost use Rattle.triangle_raster.specs.Held.{IsShape};
ghost use Rattle.triangle_raster.specs.Pixel.{is_covered};
ghost use Rattle.triangle_raster.specs.Row.{numbers_from, pixels_at};

use crate::shape::Shape;

/// So many columns from one on.
#[derive(Clone, Copy)]
pub struct Columns {
    pub x: i32,
    pub left: u32,
}

impl Columns {
    /// The covered ones out of so many from column x on. The first, and the one after the last, are found by floor
    /// division.
    pub fn covered(shape: &Shape, y: i32, x: i32, count: u32) -> Columns
        requires shape { IsShape shape.now }
        requires y { IsFromTo (pos 0) (pos 256) y }
        requires x { pos 0 ≤ℤ x }
        requires count { (x +ℤ pos count) ≤ℤ pos 256 }
        ensures from_zero { pos 0 ≤ℤ result.x }
        ensures in_width { (result.x +ℤ pos result.left) ≤ℤ pos 256 }
        ensures covered { (k : ℕ) → k < result.left
            → is_covered shape.now.corners shape.now.view (result.x +ℤ pos k) y ≡ true }
        ensures seen { pixels_at shape.now.corners shape.now.view y
            (numbers_from result.x result.left)
            ≡ pixels_at shape.now.corners shape.now.view y (numbers_from x count) }
    {
        let span = shape.span_at(x, y, count);
        let start = x + span.from;
        let width = span.to - span.from;
        Columns {
            x: start,
            left: width as u32,
        }
    }
}
