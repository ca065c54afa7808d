//! Laws over the definitions: functions that do nothing, whose contracts are the laws.

ghost use Rattle.triangle_raster.specs.SharedEdge.{SharedEdge};
ghost use Rattle.triangle_raster.specs.Ranges.{FragmentsLieInArea, ValuesLieAmongCorners};

use crate::setup::Setup;
use crate::vertex::{Vertex, View};

/// Two triangles of one viewport that share an edge and stand on opposite sides of it cover no centre twice, and a centre
/// on that edge once, where it passes the tests of the other edges. Section 3.5.1 of OpenGL ES 1.1.12.
pub fn shared_edge_law(one: &[Vertex; 3], other: &[Vertex; 3], view: View, x: i32, y: i32)
    ensures { SharedEdge one.now other.now view x y }
{}

/// Every fragment of a row lies in the area. Own.
pub fn area_law(setup: &Setup, y: i32)
    ensures { FragmentsLieInArea setup.now y }
{}

/// A fragment's value lies in every range that has that value of the three corners. Own.
pub fn range_law(setup: &Setup, y: i32)
    ensures { ValuesLieAmongCorners setup.now y }
{}

/// Threads may share a triangle that is ready to be drawn, and it may move to another thread. Own.
pub fn sharing_law() {
    may_be_shared::<Setup>();
    may_move::<Setup>();
}

fn may_be_shared<X: Sync>() {}

fn may_move<X: Send>() {}
