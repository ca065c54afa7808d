//! The state of fragment operations, and what they make of one cell.

ghost use Rattle.std.specs.Prelude.{◌≡◌, ◌+ℤ◌, int_le, int_lt, pos, ◌&&◌, if◌then◌else◌};
ghost use Rattle.fragment_ops.specs.Blend.{masked};
ghost use Rattle.fragment_ops.specs.Cell.{cell_after_put, cell_cleared, cell_written, clear_values, colour_over, is_within, passes_alpha, passes_depth, passes_scissor};
ghost use Rattle.fragment_ops.specs.Rows.{cell_tested};
ghost use Rattle.fragment_ops.specs.State.{byte_of, depth_of, AreWithinOne, IsFragmentState, IsWithinOne};

use crate::blend::{blended, masked};
use crate::cell::Cell;
use crate::comparison::compares;
use crate::place::Place;

/// What decides what a fragment, and Clear, make of a cell (chapter 4). The calls that take one have as their condition
/// that its comparisons and factors are ones, that fixed numbers are 0 to 1, and that no side of the scissor is below 0.
#[derive(Clone, Copy)]
pub struct FragmentState {
    /// Whether the scissor test is enabled (section 4.1.2).
    pub scissor_on: bool,
    /// x, y, width and height, in pixels from the lower left corner; width and height are 0 or more (section 4.1.2).
    pub scissor: [i32; 4],
    /// Whether the alpha test is enabled (section 4.1.4).
    pub alpha_on: bool,
    /// A comparison by its number, NEVER to ALWAYS, 0x200 to 0x207 (section 4.1.4).
    pub alpha_func: u32,
    /// The reference, 0 to 65536, 16.16 fixed (section 4.1.4).
    pub alpha_reference: i32,
    /// Whether the depth test is enabled (section 4.1.6).
    pub depth_on: bool,
    /// A comparison by its number, NEVER to ALWAYS, 0x200 to 0x207 (section 4.1.6).
    pub depth_func: u32,
    /// Whether depths may be written (section 4.2.2).
    pub depth_mask: bool,
    /// Whether blending is enabled (section 4.1.7).
    pub blend_on: bool,
    /// A factor of the source by its number, ZERO to SRC_ALPHA_SATURATE (section 4.1.7).
    pub source_factor: u32,
    /// A factor of the destination by its number, ZERO to ONE_MINUS_DST_ALPHA (section 4.1.7).
    pub dest_factor: u32,
    /// Whether red, green, blue and alpha may be written (section 4.2.2).
    pub colour_mask: [bool; 4],
    /// Red, green, blue and alpha, 0 to 65536, 16.16 fixed (section 4.2.3).
    pub clear_colour: [i32; 4],
    /// 0 to 65536, 16.16 fixed (section 4.2.3).
    pub clear_depth: i32,
}

impl FragmentState {
    /// The scissor test of a place (section 4.1.2).
    #[inline(always)]
    pub(crate) fn passes_scissor(&self, place: Place) -> bool
        ensures { result ≡ passes_scissor self.now place }
    {
        if self.scissor_on {
            is_within(self.scissor, place)
        } else {
            true
        }
    }

    /// The alpha test of a colour (section 4.1.4).
    #[inline(always)]
    fn passes_alpha(&self, depth: u16, colour: [u8; 4]) -> bool
        requires state { IsFragmentState self.now }
        ensures { result ≡ passes_alpha self.now (record { depth = depth; colour = colour }) }
    {
        if self.alpha_on {
            let reference = byte(self.alpha_reference);
            compares(self.alpha_func, u16::from(colour[3]), u16::from(reference))
        } else {
            true
        }
    }

    /// The depth test of a depth against that of a cell (section 4.1.6).
    #[inline(always)]
    pub(crate) fn passes_depth(&self, depth: u16, colour: [u8; 4], old: Cell) -> bool
        ensures { result ≡ passes_depth self.now (record { depth = depth; colour = colour }) old }
    {
        if self.depth_on {
            compares(self.depth_func, depth, old.depth)
        } else {
            true
        }
    }

    /// A colour over that of a cell (section 4.1.7).
    #[inline(always)]
    fn colour_over(&self, depth: u16, colour: [u8; 4], old: Cell) -> [u8; 4]
        ensures { result ≡ colour_over self.now (record { depth = depth; colour = colour }) old }
    {
        if self.blend_on {
            blended(self.source_factor, self.dest_factor, colour, old.colour)
        } else {
            colour
        }
    }

    /// Whether the depth of a fragment that passed its tests is written (sections 4.1.6 and 4.2.2).
    #[inline(always)]
    fn writes_depth(&self) -> bool
        ensures { result ≡ (self.now.depth_on && self.now.depth_mask) }
    {
        self.depth_on && self.depth_mask
    }

    /// The cell over which a fragment that passed its tests is written (sections 4.1.6 and 4.2.2).
    #[inline(always)]
    #[tactic(auto, unfolding(crate::specs::Cell::cell_written))]
    fn written(&self, depth: u16, colour: [u8; 4], old: Cell) -> Cell
        ensures { result ≡ cell_written self.now (record { depth = depth; colour = colour }) old }
    {
        Cell {
            colour: masked(
                self.colour_mask,
                self.colour_over(depth, colour, old),
                old.colour,
            ),
            depth: chosen(self.writes_depth(), depth, old.depth),
        }
    }

    /// The cell at a place after a fragment came there: scissor, alpha test, depth test, and then blending and masks.
    #[inline(always)]
    #[tactic(auto, unfolding(crate::specs::Cell::cell_after_put, crate::specs::Rows::cell_tested))]
    pub(crate) fn put(&self, place: Place, depth: u16, colour: [u8; 4], old: Cell) -> Cell
        requires state { IsFragmentState self.now }
        ensures { result
            ≡ cell_after_put place self.now (record { depth = depth; colour = colour }) old }
    {
        if self.passes_scissor(place) {
            self.put_inside(depth, colour, old)
        } else {
            old
        }
    }

    /// A cell after a fragment came to its place, which passes the scissor test: alpha test, depth test, and then blending
    /// and masks.
    #[inline(always)]
    #[tactic(auto, unfolding(crate::specs::Rows::cell_tested))]
    pub(crate) fn put_inside(&self, depth: u16, colour: [u8; 4], old: Cell) -> Cell
        requires state { IsFragmentState self.now }
        ensures { result
            ≡ cell_tested self.now (record { depth = depth; colour = colour }) old }
    {
        if !self.passes_alpha(depth, colour) {
            return old;
        }
        if !self.passes_depth(depth, colour, old) {
            return old;
        }
        self.written(depth, colour, old)
    }

    /// The cell that the clear colour and the clear depth are (section 4.2.3).
    pub(crate) fn clear_values(&self) -> Cell
        requires state { IsFragmentState self.now }
        ensures { result ≡ clear_values self.now }
    {
        let [red, green, blue, alpha] = self.clear_colour;
        Cell {
            colour: [byte(red), byte(green), byte(blue), byte(alpha)],
            depth: depth(self.clear_depth),
        }
    }

    /// The colour of a cell of which the colour is cleared, where it is asked for (section 4.2.3).
    fn colour_cleared(&self, values: Cell, colour: bool, old: Cell) -> [u8; 4]
        ensures { result ≡ if colour then masked self.now.colour_mask values.colour old.colour
            else old.colour }
    {
        if colour {
            masked(self.colour_mask, values.colour, old.colour)
        } else {
            old.colour
        }
    }

    /// Whether the depth is cleared, where it is asked for (section 4.2.2).
    fn clears_depth(&self, depth: bool) -> bool
        ensures { result ≡ (depth && self.now.depth_mask) }
    {
        depth && self.depth_mask
    }

    /// A cell of which the colour or the depth, or both, are cleared to these values (section 4.2.3).
    #[tactic(auto, unfolding(crate::specs::Cell::cell_cleared))]
    pub(crate) fn cleared(&self, values: Cell, colour: bool, depth: bool, old: Cell) -> Cell
        requires values { values ≡ clear_values self.now }
        ensures { result ≡ cell_cleared self.now colour depth old }
    {
        Cell {
            colour: self.colour_cleared(values, colour, old),
            depth: chosen(self.clears_depth(depth), values.depth, old.depth),
        }
    }
}

/// Whether a place lies in a rectangle of x, y, width and height.
#[inline(always)]
#[tactic(auto, unfolding(crate::specs::Cell::is_within))]
fn is_within(rectangle: [i32; 4], place: Place) -> bool
    ensures { result ≡ is_within rectangle place }
{
    let [x, y, width, height] = rectangle;
    let across = is_between(x, width, place.column);
    let upwards = is_between(y, height, place.row);
    across && upwards
}

/// Whether a number is one of so many from a first one on.
#[inline(always)]
fn is_between(first: i32, count: i32, number: u32) -> bool
    ensures { result ≡ (int_le first (pos number) && int_lt (pos number) (first +ℤ count)) }
{
    let number = i64::from(number);
    let from = i64::from(first) <= number;
    let before = number < i64::from(first) + i64::from(count);
    from && before
}

/// The new depth where a test passes, else the old one.
#[inline(always)]
fn chosen(test: bool, new: u16, old: u16) -> u16
    ensures { result ≡ if test then new else old }
{
    if test { new } else { old }
}

/// A 16.16 fixed number of 0 to 1 as a byte, rounded; own.
#[inline(always)]
pub fn byte(number: i32) -> u8
    requires within { IsWithinOne number }
    ensures { result ≡ byte_of number }
{
    ((number as u32 * 255 + 32768) / 65536) as u8
}

/// A 16.16 fixed number of 0 to 1 as a depth of 16 bits, rounded down; own.
fn depth(number: i32) -> u16
    requires within { IsWithinOne number }
    ensures { result ≡ depth_of number }
{
    (u64::from(number as u32) * 65535 / 65536) as u16
}
