//! The area in which a draw may leave fragments.

ghost use Rattle.std.specs.Prelude.{◌≡◌, ℕ, ◌<◌, ◌≤◌, pos, ◌+ℤ◌, ◌&&◌, int_le, int_lt};
ghost use Rattle.triangle_raster.specs.Vertex.{IsFromTo};
ghost use Rattle.triangle_draw.specs.Area.{IsAreaOf};
ghost use Rattle.triangle_draw.specs.Drawing.{IsDrawing};

use crate::drawing::Drawing;
use triangle_raster::Area;

/// The numbers from `first` to before `until`, which are 0 to 256.
#[derive(Clone, Copy)]
struct Span {
    first: i32,
    until: i32,
}

/// A first number of 0 to 256 that is raised to another one, though not above 256.
fn raised(first: i32, number: i32) -> i32
    requires first { IsFromTo (pos 0) (pos 256) first }
    ensures bounds { IsFromTo (pos 0) (pos 256) result }
    ensures from { (at : ℕ) → at < 256
        → int_le result (pos at) ≡ (int_le first (pos at) && int_le number (pos at)) }
{
    if number <= first {
        first
    } else if number < 256 {
        number
    } else {
        256
    }
}

/// An end of 0 to 256 that is lowered to another one, though not below 0.
fn lowered(until: i32, number: i64) -> i32
    requires until { IsFromTo (pos 0) (pos 256) until }
    ensures bounds { IsFromTo (pos 0) (pos 256) result }
    ensures before { (at : ℕ)
        → int_lt (pos at) result ≡ (int_lt (pos at) until && int_lt (pos at) number) }
{
    if i64::from(until) <= number {
        until
    } else if 0 < number {
        number as i32
    } else {
        0
    }
}

impl Span {
    /// The numbers of a side of a frame.
    fn of_side(side: u32) -> Span
        requires side { side ≤ 256 }
        ensures first { result.first ≡ pos 0 }
        ensures until { result.until ≡ pos side }
    {
        Span {
            first: 0,
            until: side as i32,
        }
    }

    /// Those of its numbers that are among so many from one on.
    fn cut_by(self, number: i32, count: i32) -> Span
        requires first { IsFromTo (pos 0) (pos 256) self.first }
        requires until { IsFromTo (pos 0) (pos 256) self.until }
        ensures first { IsFromTo (pos 0) (pos 256) result.first }
        ensures until { IsFromTo (pos 0) (pos 256) result.until }
        ensures from { (at : ℕ) → at < 256
            → int_le result.first (pos at) ≡ (int_le self.first (pos at) && int_le number (pos at)) }
        ensures before { (at : ℕ) → int_lt (pos at) result.until
            ≡ (int_lt (pos at) self.until && int_lt (pos at) (number +ℤ count)) }
    {
        Span {
            first: raised(self.first, number),
            until: lowered(self.until, i64::from(number) + i64::from(count)),
        }
    }
}

/// The places of a frame of these sides that lie in the viewport, and where the scissor test is enabled in its rectangle.
pub(crate) fn area_of(drawing: &Drawing, width: u32, height: u32) -> Area
    requires drawing { IsDrawing drawing.now }
    requires width { width ≤ 256 }
    requires height { height ≤ 256 }
    ensures { IsAreaOf drawing.now width height result }
{
    let view = drawing.view;
    let columns = Span::of_side(width).cut_by(view.x, view.width);
    let rows = Span::of_side(height).cut_by(view.y, view.height);
    if drawing.fragments.scissor_on {
        let [x, y, across, upwards] = drawing.fragments.scissor;
        let columns_left = columns.cut_by(x, across);
        let rows_left = rows.cut_by(y, upwards);
        Area {
            left: columns_left.first,
            bottom: rows_left.first,
            right: columns_left.until,
            top: rows_left.until,
        }
    } else {
        Area {
            left: columns.first,
            bottom: rows.first,
            right: columns.until,
            top: rows.until,
        }
    }
}
