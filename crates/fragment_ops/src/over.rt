//! Fragments that are laid over cells by their alpha, where they aren't deeper, as most draws that blend do. No other fragment
//! comes here.

ghost use Rattle.std.specs.Prelude.{◌≡◌, true};
ghost use Rattle.fragment_ops.specs.Over.{cell_laid_over, LaysOver};

use crate::blend::{ONE_MINUS_SRC_ALPHA, SRC_ALPHA, all_on, blended_by_alpha};
use crate::cell::Cell;
use crate::comparison::LEQUAL;
use crate::state::FragmentState;

impl FragmentState {
    /// Whether a fragment is laid over a cell, whatever it is.
    #[inline(always)]
    pub(crate) fn lays_over(&self) -> bool
        ensures { result ≡ true → LaysOver self.now }
    {
        let untested = !self.scissor_on && !self.alpha_on;
        let not_deeper = self.depth_on && self.depth_func == LEQUAL;
        let by_alpha = self.source_factor == SRC_ALPHA && self.dest_factor == ONE_MINUS_SRC_ALPHA;
        let unmasked = self.depth_mask && all_on(self.colour_mask);
        untested && not_deeper && self.blend_on && by_alpha && unmasked
    }
}

/// Lays a fragment of this depth and colour over a cell. The cell is written byte by byte, so that its parts are blended side by
/// side.
#[inline(always)]
#[tactic(auto, unfolding(crate::specs::Over::cell_laid_over))]
pub(crate) fn lay_over(depth: u16, colour: [u8; 4], cell: &mut Cell)
    ensures { cell.new ≡ cell_laid_over (record { depth = depth; colour = colour }) cell.old }
{
    if depth <= cell.depth {
        let blended = blended_by_alpha(colour, &cell.colour);
        cell.write(blended, depth);
    }
}

impl Cell {
    /// Gives it another colour and depth.
    #[inline(always)]
    fn write(&mut self, colour: [u8; 4], depth: u16)
        ensures { self.new ≡ record { colour = colour; depth = depth } }
    {
        self.colour[0] = colour[0];
        self.colour[1] = colour[1];
        self.colour[2] = colour[2];
        self.colour[3] = colour[3];
        self.depth = depth;
    }
}
