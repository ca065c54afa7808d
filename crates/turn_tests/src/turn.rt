ghost use Rattle.std.specs.Prelude.{◌≡◌};
ghost use Rattle.share_turn.specs.Turn.{IsSeatOf, IsIdle, number_of};

use crate::seats::{both, two_seats};
use share_turn::laws::{
    crossing_law, entries_are_kept_law, met_takes_were_made_law, rule_law, seats_differ_law,
    table_law, word_tells_holder_law,
};
use share_turn::{NoMemory, Pairs, Turn, TurnSeat, append_in_turn};
use std::alloc::Global;
use std::sync::Wait;
use std::test::Fail;
use std::thread::join;

// Appends the numbers below `count` in a turn each.
fn append_numbers<R: Wait>(
    rt: &R,
    turn: &Turn<Pairs>,
    mut seat: TurnSeat<Pairs>,
    by: u32,
    count: u32,
) -> (TurnSeat<Pairs>, Result<(), NoMemory>)
    requires seat { IsSeatOf seat turn.now × IsIdle seat × (by ≡ number_of seat) }
    ensures seat { IsSeatOf result.0 turn.now × IsIdle result.0 × (number_of result.0 ≡ by) }
{
    for number in 0..count {
        if let Err(refused) = append_in_turn(rt, turn, &mut seat, by, number) {
            return (seat, Err(refused));
        }
    }
    (seat, Ok(()))
}

// The numbers of a seat's pairs, in order.
fn numbers_of(alloc: Global, pairs: &Pairs, by: u32) -> Result<Vec<u32>, NoMemory> {
    let mut numbers = Vec::new(alloc);
    for (seat, number) in pairs.as_slice() {
        if *seat == by {
            numbers.push(*number)?;
        }
    }
    Ok(numbers)
}

#[test]
fn entries_stand_in_the_order_of_the_turns(rt: HostRuntime) -> Result<(), Fail> {
    let alloc = rt.alloc();
    let (turn, mut first, mut second) = two_seats(alloc, Pairs::new(alloc))?;
    let mut value = first.take(&rt, &turn);
    assert!(rt; second.try_take(&turn).is_none());
    value.append(0, 5)?;
    first.give(&turn, value);
    let mut value = second.take(&rt, &turn);
    value.append(1, 7)?;
    value.append(1, 8)?;
    second.give(&turn, value);
    let closed = turn.close(&rt, both(alloc, &turn, first, second)?);
    assert_eq!(rt; closed.as_slice(), [(0, 5), (1, 7), (1, 8)].as_slice());
    Ok(())
}

#[test]
fn two_threads_append_a_thousand_numbers_each(rt: HostRuntime) -> Result<(), Fail> {
    let alloc = rt.alloc();
    let (turn, first, second) = two_seats(alloc, Pairs::new(alloc))?;
    let ((first, one), (second, other)) = join(
        &rt,
        || append_numbers(&rt, &turn, first, 0, 1000),
        || append_numbers(&rt, &turn, second, 1, 1000),
    );
    one?;
    other?;
    let closed = turn.close(&rt, both(alloc, &turn, first, second)?);
    assert_eq!(rt; closed.as_slice().len(), 2000);
    for by in 0..2 {
        let numbers = numbers_of(alloc, &closed, by)?;
        assert_eq!(rt; numbers.len(), 1000);
        for (place, number) in numbers.iter().enumerate() {
            assert_eq!(rt; *number as usize, place);
        }
    }
    Ok(())
}

#[test]
fn a_turn_opens_over_entries(rt: HostRuntime) -> Result<(), Fail> {
    let alloc = rt.alloc();
    let mut pairs = Pairs::new(alloc);
    pairs.append(1, 3)?;
    pairs.append(0, 4)?;
    let (turn, first, mut second) = two_seats(alloc, pairs)?;
    append_in_turn(&rt, &turn, &mut second, 1, 9)?;
    let closed = turn.close(&rt, both(alloc, &turn, first, second)?);
    assert_eq!(rt; closed.as_slice(), [(1, 3), (0, 4), (1, 9)].as_slice());
    // The seat that closed it has the value.
    assert_eq!(rt; table_law(turn).shared.peek(0), 1);
    Ok(())
}

// A clause rules the refusal out.
#[test]
fn the_only_seat_is_never_refused(rt: HostRuntime) -> Result<(), Fail> {
    let alloc = rt.alloc();
    match Turn::new(alloc, Pairs::new(alloc), 1) {
        Ok((turn, mut seats)) => {
            let Some(mut seat) = seats.pop() else {
                unreachable!()
            };
            let Some(value) = seat.try_take(&turn) else {
                unreachable!()
            };
            seat.give(&turn, value);
            Ok(())
        }
        Err((_pairs, refused)) => Err(refused.into()),
    }
}

#[test]
fn the_laws_hold_of_pairs() {
    rule_law::<Pairs>();
    word_tells_holder_law::<Pairs>();
    seats_differ_law::<Pairs>();
    met_takes_were_made_law::<Pairs>();
    entries_are_kept_law::<Pairs>();
    crossing_law::<Pairs>();
}
