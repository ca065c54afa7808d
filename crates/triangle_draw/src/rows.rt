//! A triangle, row by row.

ghost use Rattle.std.specs.Prelude.{◌≡◌};
ghost use Rattle.triangle_raster.specs.Row.{triangle_of};
ghost use Rattle.triangle_raster.specs.Vertex.{AreCorners};
ghost use Rattle.fragment_ops.specs.Frame.{frame_changed, IsFrame};
ghost use Rattle.triangle_draw.specs.Area.{IsAreaOf};
ghost use Rattle.triangle_draw.specs.Drawing.{IsDrawing};
ghost use Rattle.triangle_draw.specs.Fragments.{HaveShades, IsKept};
ghost use Rattle.triangle_draw.specs.Triangle.{cell_after_triangle};

use crate::drawing::Drawing;
use fragment_ops::Frame;
use triangle_raster::{Area, Setup, Vertex};

impl<'a> Drawing<'a> {
    /// Puts the fragments of a triangle that isn't culled.
    fn put_rows(&self, corners: &[Vertex; 3], area: Area, setup: &Setup, frame: &mut Frame)
        requires drawing { IsDrawing self.now }
        requires setup { setup.now ≡ triangle_of corners.now self.now.view area }
        requires kept { IsKept self.now corners.now }
        requires shades { HaveShades corners.now }
        requires area { IsAreaOf self.now frame.old.width frame.old.height area }
        requires whole { IsFrame frame.old }
        ensures { frame.new ≡ frame_changed (cell_after_triangle self.now corners.now) frame.old }
    {
        let extent = setup.rows();
        for y in extent.bottom..extent.top {
            self.put_row(setup, y, frame);
        }
    }

    /// Draws the triangle of these corners into the area of a frame.
    pub(crate) fn draw_triangle(&self, corners: &[Vertex; 3], area: Area, frame: &mut Frame)
        requires drawing { IsDrawing self.now }
        requires corners { AreCorners corners.now }
        requires shades { HaveShades corners.now }
        requires area { IsAreaOf self.now frame.old.width frame.old.height area }
        ensures { frame.new ≡ frame_changed (cell_after_triangle self.now corners.now) frame.old }
    {
        let _cells = frame.cells();
        let Some(setup) = Setup::new(corners, self.view, area) else {
            return;
        };
        if self.is_culled(setup.counter_clockwise()) {
            return;
        }
        self.put_rows(corners, area, &setup, frame);
    }
}
