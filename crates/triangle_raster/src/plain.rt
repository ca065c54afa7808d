//! The plain program: the pixel of one point by itself, for tests and for readers.
//! It is slow: it finds the edges of the triangle anew for each point.

ghost use Rattle.std.specs.Prelude.{◌≡◌, pos};
ghost use Rattle.triangle_raster.specs.Vertex.{AreCorners, IsFromTo, IsView};
ghost use Rattle.triangle_raster.specs.Pixel.{pixel_of};

use crate::fragment::Fragment;
use crate::shape::Shape;
use crate::vertex::{Vertex, View};

/// What a triangle leaves at the pixel in column x and row y (0 to 256): None where its corners stand on a line of the
/// window, where it doesn't cover the pixel's centre, and where the point isn't between the near and the far plane.
/// Section 3.5.1 of OpenGL ES 1.1.12, the arithmetic own.
pub fn pixel(corners: &[Vertex; 3], view: View, x: i32, y: i32) -> Option<Fragment>
    requires corners { AreCorners corners.now }
    requires view { IsView view }
    requires x { IsFromTo (pos 0) (pos 256) x }
    requires y { IsFromTo (pos 0) (pos 256) y }
    ensures { result ≡ pixel_of corners.now view x y }
{
    match Shape::new(corners, view) {
        Some(shape) => {
            let sums = shape.sums_at(x, y);
            shape.pixel(&sums, x, y)
        }
        None => None,
    }
}
