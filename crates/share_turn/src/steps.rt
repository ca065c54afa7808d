//! The five kinds of step at a turn's table.
//! Nothing here waits: a try that meets the value out says so.
ghost use Rattle.std.specs.Prelude.{◌≡◌, ◌≤◌, ◌<◌, true, [], ◌∷◌, ◌++◌, map, vec_len, vec_capacity};
ghost use Rattle.std.specs.Prelude.{IfSome, IfNone, All, Some, None};
ghost use Rattle.share_turn.specs.Annals.{IsNumberedBelow, GoesOnBy};
ghost use Rattle.share_turn.specs.View.{parts_of, first_view, gave, Fits};
ghost use Rattle.share_turn.specs.Steps.{IsFree, HasEmptySlot, HasInSlot, IsLaid, GrowsBy};
ghost use Rattle.share_turn.specs.Steps.{HasTaken, MeetsTake};
ghost use Rattle.share_turn.specs.Turn.{IsSeatOf, IsIdle, IsDealt, IsInOrderFrom};
ghost use Rattle.share_turn.specs.Turn.{turn_id, seat_count, opened_value, own_part};

use crate::annals::Annals;
use crate::rule::{Deal, GiveBack, TakeIn, Try};
use crate::seat::TurnSeat;
use crate::turn::Turn;
use crate::view::View;
use atomic_table::Seat;

type Place<T> = Seat<Option<T>, View<<T as Annals>::Entry>>;

impl<T: Annals> Turn<T> {
    // One try to have the value.
    pub(crate) fn seize(&self, place: &mut Place<T>) -> Option<T>
        requires turn { place.old.table_id ≡ turn_id self.now }
        requires free { IsFree place.old.me }
        ensures turn { place.new.table_id ≡ place.old.table_id }
        ensures some { IfSome result (λ value.
            HasTaken place.old.me (T.entries value) place.new.me) }
        ensures fitting { IfSome result (λ value.
            All (Fits T.number (T.entries value)) (parts_of place.old.me.0)) }
        ensures numbered { IfSome result (λ value.
            IsNumberedBelow T.number place.old.me.0.seats (T.entries value)) }
        ensures none { IfNone result (MeetsTake place.old.me place.new.me) }
    {
        let shared = &self.table.shared;
        if shared.compare_exchange::<Try>(place, 0, 0, 1) == 0 {
            shared.exchange(place, 0, None)
        } else {
            None
        }
    }

    // The value lies in the slot again, which is still out.
    fn lay(&self, place: &mut Place<T>, value: T)
        requires turn { place.old.table_id ≡ turn_id self.now }
        requires slot { place.old.me.1 ≡ (0, None) ∷ [] }
        ensures turn { place.new.table_id ≡ place.old.table_id }
        ensures laid { place.new.me ≡ (place.old.me.0, (0, Some value) ∷ []) }
    {
        drop(self.table.shared.exchange(place, 0, Some(value)));
    }

    // The slot goes home with the value in it, and the word says so.
    fn release(&self, place: &mut Place<T>)
        requires turn { place.old.table_id ≡ turn_id self.now }
        requires holds { (place.old.me.0.active ≡ true) × (place.old.me.0.holding ≡ true) }
        requires laid { IsLaid T.entries T.number place.old.me }
        ensures turn { place.new.table_id ≡ place.old.table_id }
        ensures given { (value : T) → HasInSlot place.old.me value →
            place.new.me ≡ (gave T.number place.old.me.0 (T.entries value), []) }
        ensures grown { (value : T) → HasInSlot place.old.me value →
            GrowsBy place.old.me.0 place.new.me.0 (T.entries value) }
    {
        self.table.shared.store::<GiveBack>(place, 0, 0);
    }

    // The value has to be home before the word says so, or another seat could find the slot empty.
    pub(crate) fn put_home(&self, place: &mut Place<T>, value: T)
        requires turn { place.old.table_id ≡ turn_id self.now }
        requires holds { HasEmptySlot place.old.me }
        requires added { let own = place.old.me.0.own in
            GoesOnBy T.number own.number own.seen (T.entries value) }
        ensures turn { place.new.table_id ≡ place.old.table_id }
        ensures given { place.new.me ≡ (gave T.number place.old.me.0 (T.entries value), []) }
        ensures grown { GrowsBy place.old.me.0 place.new.me.0 (T.entries value) }
    {
        self.lay(place, value);
        self.release(place);
    }

    // A seat for each number, in order. The first keeps the numbers that are not dealt yet.
    pub(crate) fn deal(
        &self,
        first: Place<T>,
        seats: u32,
        room: Vec<TurnSeat<T>>,
    ) -> Vec<TurnSeat<T>>
        requires turn { first.table_id ≡ turn_id self.now }
        requires whole { let history = T.entries (opened_value self.now) in
            first.me ≡ (first_view T.number seats history, []) }
        requires seats { (1 ≤ seats) × (seats ≡ seat_count self.now) }
        requires room { (room.items ≡ []) × (seats ≤ vec_capacity room) }
        ensures count { vec_len result ≡ seats }
        ensures order { IsInOrderFrom 0 result.items }
        ensures dealt { All (IsDealt self.now (opened_value self.now)) result.items }
    {
        let mut first = first;
        let mut dealt = room;
        for _number in 1..seats {
            let seat = self.table.shared.split_seat::<Deal>(&mut first);
            dealt.push_reserved(TurnSeat { seat });
        }
        let Ok(()) = dealt.insert(0, TurnSeat { seat: first }) else {
            unreachable!()
        };
        dealt
    }

    // One seat takes all others in.
    pub(crate) fn gather(&self, seats: Vec<TurnSeat<T>>) -> Place<T>
        requires turn { All (λ s. IsSeatOf s self.now) seats.items }
        requires idle { All IsIdle seats.items }
        requires some { 0 < vec_len seats }
        ensures turn { result.table_id ≡ turn_id self.now }
        ensures counted { result.me.0.seats ≡ seat_count self.now }
        ensures free { IsFree result.me }
        ensures parts { map own_part seats.items ≡ result.me.0.kept ++ result.me.0.own ∷ [] }
    {
        let mut left = seats;
        let Some(TurnSeat { seat: mut last }) = left.pop() else {
            unreachable!()
        };
        while let Some(TurnSeat { seat }) = left.pop() {
            self.table.shared.join_seat::<TakeIn>(&mut last, seat);
        }
        last
    }
}
