//! Laws of vertices: functions with an empty body, whose contract is the law.

ghost use Rattle.std.specs.Prelude.{ℕ};
ghost use Rattle.vertex_stage.specs.Vertex.{CornersAgree};

use crate::memories::Memories;
use crate::stage::Stage;

/// The corners of a triangle are the same on memories that have the same bytes where the elements of its vertices lie
/// (section 2.8 of OpenGL ES 1.1.12). Own.
pub fn agreement_law<M: Memories, N: Memories>(stage: &Stage, one: &M, other: &N)
    ensures { (first second third : ℕ)
        → CornersAgree stage.now (M.each one.now) (N.each other.now) first second third }
{}
