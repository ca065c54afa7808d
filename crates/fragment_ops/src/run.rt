//! Runs of fragments that are alike: what they make of the cells of an area.

ghost use Rattle.std.specs.Prelude.{◌≡◌, ◌*◌, ◌≤◌, length, true};
ghost use Rattle.fragment_ops.specs.Frame.{changed_from, AreSides};
ghost use Rattle.fragment_ops.specs.Rows.{cell_painted, cell_tested, in_area, in_run, IsArea, Paints};
ghost use Rattle.fragment_ops.specs.State.{IsFragmentState};

use crate::area::Area;
use crate::blend::all_on;
use crate::cell::Cell;
use crate::state::FragmentState;

impl FragmentState {
    /// Whether a fragment that passed the scissor test gives a cell its colour alone, whatever it is.
    fn paints(&self) -> bool
        ensures { result ≡ true → Paints self.now }
    {
        let tested = self.alpha_on || self.depth_on;
        let painted = !tested && !self.blend_on;
        painted && all_on(self.colour_mask)
    }

    /// A fragment of this depth and colour comes to each cell of an area whose places pass the scissor test, in a frame of
    /// this width.
    pub(crate) fn put_rows(
        &self,
        depth: u16,
        colour: [u8; 4],
        area: Area,
        width: u32,
        height: u32,
        cells: &mut [Cell],
    )
        requires state { IsFragmentState self.now }
        requires sides { AreSides width height }
        requires area { IsArea area width height }
        requires cells { length cells.old ≡ width * height }
        ensures { cells.new ≡ changed_from (in_area area (cell_tested self.now
            (record { depth = depth; colour = colour })) width) 0 cells.old }
    {
        for row in area.bottom..area.top {
            let start = row as usize * width as usize;
            let first = start + area.left as usize;
            let until = start + area.right as usize;
            self.put_cells(depth, colour, first, until, cells);
        }
    }

    /// A fragment of this depth and colour comes to each of the cells that follow one another, those from `first` to before
    /// `until`, whose places pass the scissor test.
    fn put_cells(&self, depth: u16, colour: [u8; 4], first: usize, until: usize, cells: &mut [Cell])
        requires state { IsFragmentState self.now }
        requires ordered { first ≤ until }
        requires within { until ≤ length cells.old }
        ensures { cells.new ≡ changed_from (in_run first until (cell_tested self.now
            (record { depth = depth; colour = colour }))) 0 cells.old }
    {
        if self.paints() {
            paint(colour, first, until, cells)
        } else {
            self.put_each(depth, colour, first, until, cells)
        }
    }

    /// The same, each cell by itself.
    fn put_each(&self, depth: u16, colour: [u8; 4], first: usize, until: usize, cells: &mut [Cell])
        requires state { IsFragmentState self.now }
        requires ordered { first ≤ until }
        requires within { until ≤ length cells.old }
        ensures { cells.new ≡ changed_from (in_run first until (cell_tested self.now
            (record { depth = depth; colour = colour }))) 0 cells.old }
    {
        for at in first..until {
            cells[at] = self.put_inside(depth, colour, cells[at]);
        }
    }
}

/// Gives the cells that follow one another, those from `first` to before `until`, the same colour. Their depths stay.
fn paint(colour: [u8; 4], first: usize, until: usize, cells: &mut [Cell])
    requires ordered { first ≤ until }
    requires within { until ≤ length cells.old }
    ensures { cells.new ≡ changed_from (in_run first until (cell_painted colour)) 0 cells.old }
{
    for at in first..until {
        cells[at].colour = colour;
    }
}
