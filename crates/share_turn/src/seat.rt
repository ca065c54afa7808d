//! A seat of a turn: it takes the value, and gives it back with entries of its own.
//! Nothing here says when a seat is served.
ghost use Rattle.std.specs.Prelude.{◌≡◌, true, []};
ghost use Rattle.share_turn.specs.Annals.{entries_of};
ghost use Rattle.share_turn.specs.View.{hand_of};

use crate::annals::Annals;
use crate::turn::Turn;
use crate::view::View;
use atomic_table::Seat;
use std::sync::Wait;
use std::thread;

/// A seat of a turn, with a number of its own. It belongs to one thread at a time.
#[derive(Drop)]
pub struct TurnSeat<T: Annals> {
    pub(crate) seat: Seat<Option<T>, View<T::Entry>>,
    ghost active: { seat.me.0.active ≡ true },
    ghost alone: { seat.me.0.kept ≡ [] },
    ghost hand: { seat.me.1 ≡ hand_of seat.me.0.holding },
    ghost own_entries: { let own = seat.me.0.own in
        own.mine ≡ entries_of T.number own.number own.seen },
}

impl<T: Annals> TurnSeat<T> {
    ghost use Rattle.std.specs.Prelude.{◌≡◌, ◌≤◌, IfSome, IfNone};
    ghost use Rattle.share_turn.specs.Turn.{IsSeatOf, IsIdle, IsHolding, AddsOwn, looks};
    ghost use Rattle.share_turn.specs.Turn.{Receives, LooksOnly, Returns, SameLooks, KnowsOwn};

    /// Has the value, unless it is out with another seat at that moment.
    pub fn try_take(&mut self, turn: &Turn<T>) -> Option<T>
        requires seat { IsSeatOf self.old turn.now }
        requires idle { IsIdle self.old }
        ensures some { IfSome result (λ value. Receives self.old self.new value) }
        ensures looks { IfSome result (λ _. SameLooks self.old self.new) }
        ensures none { IfNone result (LooksOnly self.old self.new) }
    {
        turn.seize(&mut self.seat)
    }

    /// Tries until it has the value.
    pub fn take<R: Wait>(&mut self, rt: &R, turn: &Turn<T>) -> T
        requires seat { IsSeatOf self.old turn.now }
        requires idle { IsIdle self.old }
        ensures value { Receives self.old self.new result }
        ensures looks { looks self.old ≤ looks self.new }
    {
        for _ in rt.forever() {
            if let Some(value) = self.try_take(turn) {
                return value;
            }
            thread::yield_now();
        }
        unreachable!()
    }

    /// Gives the value back with the entries that this seat added. It can't be refused.
    pub fn give(&mut self, turn: &Turn<T>, value: T)
        requires seat { IsSeatOf self.old turn.now }
        requires holding { IsHolding self.old }
        requires added { AddsOwn self.old value }
        ensures { Returns self.old self.new value }
    {
        turn.put_home(&mut self.seat, value);
    }

    /// A law: at any time, at rest or not, the entries that the seat made are those of its number in
    /// the history that it has seen. It does nothing when it is run.
    pub fn knows_own(&self)
        ensures { KnowsOwn self.now }
    {}
}
