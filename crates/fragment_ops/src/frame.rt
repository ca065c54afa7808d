//! The frame.

ghost use Rattle.std.specs.Prelude.{◌≡◌, ◌+◌, ◌*◌, ◌<◌, length, IfOk, IfSome};
ghost use Rattle.fragment_ops.specs.Cell.{cell_after_clear, cell_after_put};
ghost use Rattle.fragment_ops.specs.Frame.{cell_at, first_frame, frame_changed, only_among, only_at, pixel_at, place_in, AreSides, IsFrame};
ghost use Rattle.fragment_ops.specs.Hidden.{is_hidden};
ghost use Rattle.fragment_ops.specs.State.{IsFragmentState};

use crate::area::Area;
use crate::cell::Cell;
use crate::clear::Clearing;
use crate::over::lay_over;
use crate::place::Place;
use crate::state::FragmentState;
use std::alloc::{AllocError as NoMemory, Global};
use std::marker::Model;

/// A rectangle of cells; own. Contracts see its sides, and its cells row by row from the lower left corner on.
#[derive(Drop)]
pub struct Frame {
    /// In pixels, 1 to 256.
    width: u32,
    height: u32,
    /// Row by row from the lower left corner on.
    cells: Vec<Cell>,
}

impl Model for Frame {
    ghost use Rattle.fragment_ops.specs.Frame.{FrameView, IsFrame};

    ghost Value = { FrameView };

    ghost view = { λ f. record { width = f.width; height = f.height; cells = f.cells.items } };

    ghost invariant = { λ f. IsFrame
        (record { width = f.width; height = f.height; cells = f.cells.items }) };
}

impl Frame {
    /// A frame of these sides in pixels, in which every byte of a colour is 0, and each depth is the greatest; own.
    #[tactic(auto, unfolding(crate::specs::Frame::first_frame))]
    pub fn new(alloc: Global, width: u32, height: u32) -> Result<Frame, NoMemory>
        requires sides { AreSides width height }
        ensures { IfOk result (λ frame. frame ≡ first_frame width height) }
    {
        let cell = Cell {
            colour: [0; 4],
            depth: 65535,
        };
        let cells = vec![in alloc; cell; width as usize * height as usize]?;
        Ok(Frame {
            width,
            height,
            cells,
        })
    }

    /// In pixels, 1 to 256; own.
    pub fn width(&self) -> u32
        ensures { result ≡ self.now.width }
    {
        self.width
    }

    /// In pixels, 1 to 256; own.
    pub fn height(&self) -> u32
        ensures { result ≡ self.now.height }
    {
        self.height
    }

    /// The cells row by row from the lower left corner on; own.
    pub fn cells(&self) -> &[Cell]
        ensures cells { result.now ≡ self.now.cells }
        ensures whole { IsFrame self.now }
    {
        self.cells.as_slice()
    }

    /// The colour in column x and row y, in pixels from the lower left corner: red, green, blue and alpha, a byte each,
    /// and zeros outside the frame (section 4.3.1, the zeros own).
    pub fn pixel(&self, x: i32, y: i32) -> [u8; 4]
        ensures { result ≡ pixel_at self.now x y }
    {
        match self.place(x, y) {
            Some(place) => self.cell(place).colour,
            None => [0; 4],
        }
    }

    /// A fragment comes to the place in column x and row y, in pixels from the lower left corner, with a depth of 16 bits
    /// and a colour of four bytes: scissor, alpha test, depth test, blending and masks (chapter 4). Every other cell stays,
    /// and outside the frame nothing changes. It takes no memory.
    #[inline(always)]
    pub fn put(&mut self, state: &FragmentState, x: i32, y: i32, depth: u16, colour: [u8; 4])
        requires state { IsFragmentState state.now }
        ensures { self.new ≡ frame_changed (only_at x y (λ place.
            cell_after_put place state.now (record { depth = depth; colour = colour }))) self.old }
    {
        let Some(place) = self.place(x, y) else {
            return;
        };
        let at = self.before(place);
        if state.lays_over() {
            lay_over(depth, colour, &mut self.cells[at]);
        } else {
            let old = self.cell(place);
            self.cells[at] = state.put(place, depth, colour, old);
        }
    }

    /// Fragments of the same depth and colour come to so many places of row y, from column x on, in pixels from the lower
    /// left corner, as `put` tells of each. A depth has 16 bits, a colour four bytes (chapter 4). Every other cell stays,
    /// and outside the frame nothing changes. It takes no memory.
    pub fn put_run(
        &mut self,
        state: &FragmentState,
        x: i32,
        y: i32,
        count: u32,
        depth: u16,
        colour: [u8; 4],
    )
        requires state { IsFragmentState state.now }
        ensures { self.new ≡ frame_changed (only_among x y count (λ place.
            cell_after_put place state.now (record { depth = depth; colour = colour }))) self.old }
    {
        let (width, height) = (self.width, self.height);
        let area = Area::of_run(state, x, y, count, width, height);
        state.put_rows(depth, colour, area, width, height, &mut self.cells);
    }

    /// Whether the depth test fails a fragment of this depth in column x and row y, in pixels from the lower left corner,
    /// whatever its colour (section 4.1.6). Then `put` would change nothing.
    #[tactic(auto, unfolding(crate::specs::Hidden::is_hidden))]
    pub fn hides(&self, state: &FragmentState, x: i32, y: i32, depth: u16) -> bool
        requires state { IsFragmentState state.now }
        ensures hidden { result ≡ is_hidden state.now self.now x y depth }
        ensures whole { IsFrame self.now }
    {
        match self.place(x, y) {
            Some(place) => !state.passes_depth(depth, [0; 4], self.cell(place)),
            None => false,
        }
    }

    /// Clears the colour or the depth, or both: inside the scissor, under the masks (section 4.2.3). It takes no memory.
    pub fn clear(&mut self, state: &FragmentState, colour: bool, depth: bool)
        requires state { IsFragmentState state.now }
        ensures { self.new ≡ frame_changed (λ place.
            cell_after_clear place state.now colour depth) self.old }
    {
        let area = Area::scissored(state, self.width, self.height);
        let clearing = Clearing { colour, depth };
        clearing.rows(state, area, self.width, self.height, &mut self.cells);
    }

    /// The place in column x and row y, if the frame has it.
    #[inline(always)]
    fn place(&self, x: i32, y: i32) -> Option<Place>
        ensures place { result ≡ place_in self.now x y }
        ensures inside { IfSome result (λ place.
            (place.column < self.now.width) × (place.row < self.now.height)) }
        ensures whole { IsFrame self.now }
    {
        let (width, height) = (self.width, self.height);
        if x < 0 {
            return None;
        }
        if y < 0 {
            return None;
        }
        let (column, row) = (x as u32, y as u32);
        if width <= column {
            return None;
        }
        if height <= row {
            return None;
        }
        Some(Place { column, row })
    }

    /// The cell at a place of the frame.
    #[inline(always)]
    #[tactic(auto, unfolding(crate::specs::Frame::cell_at))]
    fn cell(&self, place: Place) -> Cell
        requires column { place.column < self.now.width }
        requires row { place.row < self.now.height }
        ensures { result ≡ cell_at self.now place }
    {
        self.cells[self.before(place)]
    }

    /// How many cells come before that of a place of the frame.
    #[inline(always)]
    fn before(&self, place: Place) -> usize
        requires column { place.column < self.now.width }
        requires row { place.row < self.now.height }
        ensures before { result ≡ place.row * self.now.width + place.column }
        ensures inside { result < length self.now.cells }
    {
        place.row as usize * self.width as usize + place.column as usize
    }
}
