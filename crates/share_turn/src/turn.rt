//! A turn: how it is opened over a value, and closed.
//! How a seat has the value in between stands in `seat`.
ghost use Rattle.std.specs.Prelude.{◌≡◌, ◌≤◌};

use crate::annals::Annals;
use crate::rule::OneHistory;
use crate::seat::TurnSeat;
use crate::view::{Opening, View};
use atomic_table::{Refused, Table};
use std::alloc::{AllocError, Global};
use std::snapshot::Snapshot;
use std::sync::Wait;
use std::thread;

/// A refused request for memory.
pub type NoMemory = AllocError;

/// The table that a turn stands on: one word, one slot, and the rule `OneHistory`.
pub type TurnTable<T> = Table<
    Option<T>,
    View<<T as Annals>::Entry>,
    Opening<T>,
    OneHistory<T>,
    Global,
>;

/// A value that seats take turns at. The turn owns it while no seat holds it.
#[derive(Drop)]
pub struct Turn<T: Annals> {
    pub(crate) table: TurnTable<T>,
    ghost sized: { (table.shared.table_id.words ≡ 1) × (table.shared.table_id.slots ≡ 1) },
    ghost counted: { (1 ≤ table.shared.key.seats) × (table.shared.key.seats ≤ 4) },
}

impl<T: Annals> Turn<T> {
    ghost use Rattle.std.specs.Prelude.{◌≡◌, ◌≤◌, vec_len, IfOk, IfErr, All};
    ghost use Rattle.share_turn.specs.Annals.{IsNumberedBelow};
    ghost use Rattle.share_turn.specs.Turn.{IsIdle, IsDealt, IsInOrderFrom, IsAllOf};
    ghost use Rattle.share_turn.specs.Turn.{IsIn, IsOfSeats, seat_count};

    /// A turn at the value, and its seats. The value may have entries already.
    pub fn new(
        alloc: Global,
        value: T,
        seats: u32,
    ) -> Result<(Turn<T>, Vec<TurnSeat<T>>), (T, NoMemory)>
        requires seats { (1 ≤ seats) × (seats ≤ 4) }
        requires numbers { IsNumberedBelow T.number seats (T.entries value) }
        ensures turn { IfOk result (λ made. seat_count made.0 ≡ seats) }
        ensures count { IfOk result (λ made. vec_len made.1 ≡ seats) }
        ensures order { IfOk result (λ made. IsInOrderFrom 0 made.1.items) }
        ensures dealt { IfOk result (λ made. All (IsDealt made.0 value) made.1.items) }
        ensures err { IfErr result (λ refused. refused.0 ≡ value) }
    {
        let Ok(room) = Vec::with_capacity(alloc, seats as usize) else {
            return Err((value, AllocError));
        };
        let Ok(mut slots) = Vec::with_capacity(alloc, 1) else {
            return Err((value, AllocError));
        };
        let opening = Opening {
            seats,
            value: Snapshot::of(&value),
        };
        slots.push_reserved(Some(value));
        match Table::new(alloc, &[0], slots, &opening) {
            Ok((table, first)) => {
                let turn = Turn { table };
                let dealt = turn.deal(first, seats, room);
                Ok((turn, dealt))
            }
            Err(Refused { mut slots }) => {
                let Some(Some(value)) = slots.pop() else {
                    unreachable!()
                };
                Err((value, AllocError))
            }
        }
    }

    /// Ends the turn: it has no seat and no value afterwards. All seats are idle, so that the value is
    /// at home and the first try has it. It stands under `Wait` since no clause of a try says so.
    pub fn close<R: Wait>(&self, rt: &R, seats: Vec<TurnSeat<T>>) -> T
        requires all { IsAllOf self.now seats.items }
        requires idle { All IsIdle seats.items }
        ensures entries { All (IsIn result) seats.items }
        ensures numbers { IsOfSeats seats.items (T.entries result) }
        ensures below { IsNumberedBelow T.number (seat_count self.now) (T.entries result) }
    {
        let mut last = self.gather(seats);
        for _ in rt.forever() {
            if let Some(value) = self.seize(&mut last) {
                return value;
            }
            thread::yield_now();
        }
        unreachable!()
    }
}
