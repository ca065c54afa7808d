//! The smallest value that a turn takes: a list of pairs of a seat's number and some number.
//! It is there to try a turn on, and to show a whole turn as a caller makes it.
ghost use Rattle.std.specs.Prelude.{◌≡◌, [], ◌∷◌, ◌++◌, OnOk, OnErr};
ghost use Rattle.share_turn.specs.Turn.{IsSeatOf, IsSameSeat, IsIdle, number_of, mine};

use crate::annals::Annals;
use crate::seat::TurnSeat;
use crate::turn::{NoMemory, Turn};
use std::alloc::Global;
use std::marker::Model;
use std::sync::Wait;

/// A list of pairs, to try a turn on.
#[derive(Drop)]
pub struct Pairs {
    pairs: Vec<(u32, u32)>,
}

impl Model for Pairs {
    ghost use Rattle.std.specs.Prelude.{ℕ, List};

    ghost Value = { List (ℕ × ℕ) };

    ghost view = { λ p. p.pairs.items };
}

impl Annals for Pairs {
    type Entry = (u32, u32);

    ghost entries = { λ pairs. pairs };

    ghost number = { λ pair. pair.0 };
}

impl Pairs {
    /// An empty list. No memory is taken before the first pair.
    pub fn new(alloc: Global) -> Pairs
        ensures { result ≡ [] }
    {
        Pairs {
            pairs: Vec::new(alloc),
        }
    }

    /// Adds a pair at the end: the seat's number, from 0, and the caller's number. Both may be any `u32`.
    pub fn append(&mut self, seat: u32, number: u32) -> Result<(), NoMemory>
        ensures ok { OnOk result (self.new ≡ self.old ++ (seat, number) ∷ []) }
        ensures err { OnErr result (self.new ≡ self.old) }
    {
        self.pairs.push((seat, number))?;
        Ok(())
    }

    /// The pairs, the oldest first.
    pub fn as_slice(&self) -> &[(u32, u32)]
        ensures { result.now ≡ self.now }
    {
        self.pairs.as_slice()
    }
}

/// One whole turn: takes the value, appends a pair of the seat's number, and gives the value back.
/// Where memory is refused the value goes back as it was taken.
pub fn append_in_turn<R: Wait>(
    rt: &R,
    turn: &Turn<Pairs>,
    seat: &mut TurnSeat<Pairs>,
    by: u32,
    number: u32,
) -> Result<(), NoMemory>
    requires seat { IsSeatOf seat.old turn.now }
    requires idle { IsIdle seat.old }
    requires by { by ≡ number_of seat.old }
    ensures seat { IsSameSeat seat.old seat.new × IsIdle seat.new }
    ensures ok { OnOk result (mine seat.new ≡ mine seat.old ++ (by, number) ∷ []) }
    ensures err { OnErr result (mine seat.new ≡ mine seat.old) }
{
    let mut value = seat.take(rt, turn);
    let appended = value.append(by, number);
    seat.give(turn, value);
    appended
}
