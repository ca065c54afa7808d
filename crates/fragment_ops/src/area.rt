//! Areas of a frame: the places that pass the scissor test, and those of a run among them.

ghost use Rattle.std.specs.Prelude.{◌≡◌, ℕ, ◌<◌, ◌≤◌, ◌≤ℤ◌, pos, ◌+ℤ◌, nat_le, nat_lt, int_le, int_lt, ◌&&◌};
ghost use Rattle.fragment_ops.specs.Cell.{is_within, passes_scissor};
ghost use Rattle.fragment_ops.specs.Frame.{is_among, AreSides};
ghost use Rattle.fragment_ops.specs.Rows.{is_in_area, IsArea};
ghost use Rattle.fragment_ops.specs.State.{IsFragmentState, IsRectangle};

use crate::state::FragmentState;

/// The columns from `left` to before `right`, and the rows from `bottom` to before `top`, in pixels.
#[derive(Clone, Copy)]
pub(crate) struct Area {
    pub(crate) left: u32,
    pub(crate) right: u32,
    pub(crate) bottom: u32,
    pub(crate) top: u32,
}

impl Area {
    /// The places of a rectangle of x, y, width and height that lie in a frame of these sides.
    fn cut_from(rectangle: [i32; 4], width: u32, height: u32) -> Area
        requires rectangle { IsRectangle rectangle }
        ensures area { IsArea result width height }
        ensures places { (column row : ℕ) → column < width → row < height
            → is_in_area result (record { column = column; row = row })
            ≡ is_within rectangle (record { column = column; row = row }) }
    {
        let [x, y, across, upwards] = rectangle;
        let columns = Span::cut_from(x, across, width);
        let rows = Span::cut_from(y, upwards, height);
        Area {
            left: columns.first,
            right: columns.until,
            bottom: rows.first,
            top: rows.until,
        }
    }

    /// The places of a frame of these sides that pass the scissor test (section 4.1.2).
    pub(crate) fn scissored(state: &FragmentState, width: u32, height: u32) -> Area
        requires state { IsFragmentState state.now }
        requires sides { AreSides width height }
        ensures area { IsArea result width height }
        ensures places { (column row : ℕ) → column < width → row < height
            → is_in_area result (record { column = column; row = row })
            ≡ passes_scissor state.now (record { column = column; row = row }) }
    {
        if state.scissor_on {
            Area::cut_from(state.scissor, width, height)
        } else {
            Area {
                left: 0,
                right: width,
                bottom: 0,
                top: height,
            }
        }
    }

    /// The places of a frame of these sides that pass the scissor test and are among so many of row y, from column x on.
    pub(crate) fn of_run(
        state: &FragmentState,
        x: i32,
        y: i32,
        count: u32,
        width: u32,
        height: u32,
    ) -> Area
        requires state { IsFragmentState state.now }
        requires sides { AreSides width height }
        ensures area { IsArea result width height }
        ensures places { (column row : ℕ) → column < width → row < height
            → is_in_area result (record { column = column; row = row })
            ≡ (passes_scissor state.now (record { column = column; row = row })
            && is_among x y count (record { column = column; row = row })) }
    {
        let passing = Area::scissored(state, width, height);
        let columns = Span::of_run(x, count, width).cut_to(passing.left, passing.right);
        let rows = Span::cut_from(y, 1, height).cut_to(passing.bottom, passing.top);
        Area {
            left: columns.first,
            right: columns.until,
            bottom: rows.first,
            top: rows.until,
        }
    }
}

/// The numbers from `first` to before `until`.
#[derive(Clone, Copy)]
struct Span {
    first: u32,
    until: u32,
}

impl Span {
    /// Those of so many numbers from one on that are zero or more and less than `most`.
    fn cut_from(number: i32, count: i32, most: u32) -> Span
        requires count { pos 0 ≤ℤ count }
        ensures ordered { result.first ≤ result.until }
        ensures within { result.until ≤ most }
        ensures from { (at : ℕ) → at < most → nat_le result.first at ≡ int_le number (pos at) }
        ensures before { (at : ℕ) → at < most
            → nat_lt at result.until ≡ int_lt (pos at) (number +ℤ count) }
    {
        Span {
            first: cut(i64::from(number), most),
            until: cut(i64::from(number) + i64::from(count), most),
        }
    }

    /// Those of so many numbers from one on that are zero or more and less than `most`.
    fn of_run(number: i32, count: u32, most: u32) -> Span
        ensures ordered { result.first ≤ result.until }
        ensures within { result.until ≤ most }
        ensures from { (at : ℕ) → at < most → nat_le result.first at ≡ int_le number (pos at) }
        ensures before { (at : ℕ) → at < most
            → nat_lt at result.until ≡ int_lt (pos at) (number +ℤ pos count) }
    {
        Span {
            first: cut(i64::from(number), most),
            until: cut(i64::from(number) + i64::from(count), most),
        }
    }

    /// Those of its numbers that are among those from another one to before an end.
    fn cut_to(self, first: u32, until: u32) -> Span
        requires ordered { self.first ≤ self.until }
        requires other_ordered { first ≤ until }
        ensures ordered { result.first ≤ result.until }
        ensures within { (most : ℕ) → self.until ≤ most → until ≤ most → result.until ≤ most }
        ensures numbers { (at : ℕ) → (nat_le result.first at && nat_lt at result.until)
            ≡ ((nat_le first at && nat_lt at until)
            && (nat_le self.first at && nat_lt at self.until)) }
    {
        let first = first.max(self.first);
        Span {
            first,
            until: until.min(self.until).max(first),
        }
    }
}

/// A number cut to lie between zero and a bound.
fn cut(number: i64, most: u32) -> u32
    ensures few { result ≤ most }
    ensures before { (at : ℕ) → at < most → nat_lt at result ≡ int_lt (pos at) number }
    ensures from { (at : ℕ) → at < most → nat_le result at ≡ int_le number (pos at) }
{
    if number <= 0 {
        0
    } else if i64::from(most) <= number {
        most
    } else {
        number as u32
    }
}
