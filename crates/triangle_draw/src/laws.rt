//! Laws of draws: functions with an empty body, whose contract is the law.

ghost use Rattle.std.specs.Prelude.{ℕ};
ghost use Rattle.triangle_draw.specs.Law.{DrawsAlike};

use crate::drawing::Drawing;
use vertex_stage::Memories;

/// Two draws that take elements at the same places make the same of each cell, where memories have the same bytes there
/// (section 2.8).
pub fn agreement_law<M: Memories, N: Memories>(drawing: &Drawing, one: &M, other: &N)
    ensures { (mode : ℕ) (at also : ℕ → ℕ) (count : ℕ)
        → DrawsAlike drawing.now (M.each one.now) (N.each other.now) mode at also count }
{}
