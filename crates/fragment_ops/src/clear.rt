//! Clear: the rows of cells inside the scissor.

ghost use Rattle.std.specs.Prelude.{◌≡◌, ◌*◌, ◌≤◌, length, true, ◌&&◌};
ghost use Rattle.fragment_ops.specs.Cell.{cell_cleared, clear_values};
ghost use Rattle.fragment_ops.specs.Frame.{changed_from, AreSides};
ghost use Rattle.fragment_ops.specs.Rows.{in_area, in_run, IsArea, Overwrites};
ghost use Rattle.fragment_ops.specs.State.{IsFragmentState};

use crate::area::Area;
use crate::blend::all_on;
use crate::cell::Cell;
use crate::state::FragmentState;

/// What Clear does to the cells of an area: the colour or the depth, or both.
#[derive(Clone, Copy)]
pub(crate) struct Clearing {
    pub(crate) colour: bool,
    pub(crate) depth: bool,
}

impl Clearing {
    /// Whether a cleared cell has nothing of what it was.
    fn overwrites(self, state: &FragmentState) -> bool
        ensures { result ≡ true → Overwrites state.now self.colour self.depth }
    {
        let asked = both(self.colour, self.depth);
        let unmasked = both(state.depth_mask, all_on(state.colour_mask));
        asked && unmasked
    }

    /// Clears the cells of an area, in a frame of this width.
    pub(crate) fn rows(
        self,
        state: &FragmentState,
        area: Area,
        width: u32,
        height: u32,
        cells: &mut [Cell],
    )
        requires state { IsFragmentState state.now }
        requires sides { AreSides width height }
        requires area { IsArea area width height }
        requires cells { length cells.old ≡ width * height }
        ensures { cells.new ≡ changed_from
            (in_area area (cell_cleared state.now self.colour self.depth) width) 0 cells.old }
    {
        let values = state.clear_values();
        let overwrites = self.overwrites(state);
        for row in area.bottom..area.top {
            let start = row as usize * width as usize;
            let first = start + area.left as usize;
            let until = start + area.right as usize;
            self.run(state, values, overwrites, first, until, cells);
        }
    }

    /// Clears the cells that follow one another, those from `first` to before `until`.
    fn run(
        self,
        state: &FragmentState,
        values: Cell,
        overwrites: bool,
        first: usize,
        until: usize,
        cells: &mut [Cell],
    )
        requires values { values ≡ clear_values state.now }
        requires overwrites { overwrites ≡ true → Overwrites state.now self.colour self.depth }
        requires ordered { first ≤ until }
        requires within { until ≤ length cells.old }
        ensures { cells.new ≡ changed_from
            (in_run first until (cell_cleared state.now self.colour self.depth)) 0 cells.old }
    {
        if overwrites {
            fill(values, first, until, cells)
        } else {
            self.each(state, values, first, until, cells)
        }
    }

    /// Clears the cells that follow one another, those from `first` to before `until`, each by itself.
    fn each(
        self,
        state: &FragmentState,
        values: Cell,
        first: usize,
        until: usize,
        cells: &mut [Cell],
    )
        requires values { values ≡ clear_values state.now }
        requires ordered { first ≤ until }
        requires within { until ≤ length cells.old }
        ensures { cells.new ≡ changed_from
            (in_run first until (cell_cleared state.now self.colour self.depth)) 0 cells.old }
    {
        for at in first..until {
            cells[at] = state.cleared(values, self.colour, self.depth, cells[at]);
        }
    }
}

/// Whether two tests pass.
fn both(one: bool, other: bool) -> bool
    ensures { result ≡ (one && other) }
{
    one && other
}

/// Gives the cells that follow one another, those from `first` to before `until`, the same value.
fn fill(value: Cell, first: usize, until: usize, cells: &mut [Cell])
    requires ordered { first ≤ until }
    requires within { until ≤ length cells.old }
    ensures { cells.new ≡ changed_from (in_run first until (λ old. value)) 0 cells.old }
{
    for at in first..until {
        cells[at] = value;
    }
}
