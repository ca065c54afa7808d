//! A draw: one triangle after the other.

ghost use Rattle.std.specs.Prelude.{◌≡◌, ◌≤◌};
ghost use Rattle.fragment_ops.specs.Frame.{frame_changed};
ghost use Rattle.triangle_draw.specs.Draw.{cell_after_draw};
ghost use Rattle.triangle_draw.specs.Drawing.{IsDrawing};
ghost use Rattle.triangle_draw.specs.Elements.{AreElements, place_in};

use crate::area::area_of;
use crate::drawing::Drawing;
use crate::elements::Elements;
use fragment_ops::Frame;
use vertex_stage::{Memories, triangle, triangle_count};

/// Draws the triangles of so many vertices, which take these elements of the arrays, into a frame: each cell becomes what the
/// triangles make of it, in the order of their numbers. Modes of points and lines draw nothing, and where the array of vertices
/// is disabled nothing is drawn. It takes no memory. Sections 2.6.1, 2.8, 2.9 and chapters 3 and 4.
pub fn draw<S: Memories>(
    frame: &mut Frame,
    drawing: &Drawing,
    memories: &S,
    mode: u32,
    elements: Elements,
    count: u32,
)
    requires drawing { IsDrawing drawing.now }
    requires elements { AreElements elements }
    requires count { count ≤ 65536 }
    ensures { frame.new ≡ frame_changed (cell_after_draw drawing.now (S.each memories.now) mode
        (place_in elements (S.each memories.now)) count) frame.old }
{
    let _cells = frame.cells();
    if !drawing.stage.vertex.enabled {
        return;
    }
    let area = area_of(drawing, frame.width(), frame.height());
    let triangles = triangle_count(mode, count);
    for number in 0..triangles {
        let places = triangle(mode, count, number);
        let corners = drawing.stage.corners(
            memories,
            elements.place(memories, places.first),
            elements.place(memories, places.second),
            elements.place(memories, places.third),
        );
        drawing.draw_triangle(&corners, area, frame);
    }
}
