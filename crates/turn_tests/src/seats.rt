//! The two seats of a turn, as tests deal them and gather them again.
ghost use Rattle.std.specs.Prelude.{◌≡◌, [], ◌∷◌, IfOk};
ghost use Rattle.share_turn.specs.Annals.{IsNumberedBelow};
ghost use Rattle.share_turn.specs.Turn.{IsSeatOf, IsIdle, IsAllOf, number_of, seat_count};

use share_turn::{Annals, NoMemory, Turn, TurnSeat};
use std::alloc::{AllocError, Global};

/// A turn at this value, with two seats.
pub fn two_seats<T: Annals>(
    alloc: Global,
    value: T,
) -> Result<(Turn<T>, TurnSeat<T>, TurnSeat<T>), NoMemory>
    requires { IsNumberedBelow T.number 2 (T.entries value) }
    ensures turn { IfOk result (λ made. seat_count made.0 ≡ 2) }
    ensures first { IfOk result
        (λ made. IsSeatOf made.1 made.0 × IsIdle made.1 × (number_of made.1 ≡ 0)) }
    ensures second { IfOk result
        (λ made. IsSeatOf made.2 made.0 × IsIdle made.2 × (number_of made.2 ≡ 1)) }
{
    match Turn::new(alloc, value, 2) {
        Ok((turn, mut seats)) => {
            let Some(second) = seats.pop() else {
                return Err(AllocError);
            };
            let Some(first) = seats.pop() else {
                return Err(AllocError);
            };
            Ok((turn, first, second))
        }
        Err((_value, refused)) => Err(refused),
    }
}

/// The two seats of a turn, in order.
pub fn both<T: Annals>(
    alloc: Global,
    turn: &Turn<T>,
    first: TurnSeat<T>,
    second: TurnSeat<T>,
) -> Result<Vec<TurnSeat<T>>, NoMemory>
    requires turn { seat_count turn.now ≡ 2 }
    requires first { IsSeatOf first turn.now × (number_of first ≡ 0) }
    requires second { IsSeatOf second turn.now × (number_of second ≡ 1) }
    ensures seats { IfOk result (λ seats. seats.items ≡ first ∷ second ∷ []) }
    ensures all { IfOk result (λ seats. IsAllOf turn.now seats.items) }
{
    let _ = turn;
    let mut seats = Vec::with_capacity(alloc, 2)?;
    seats.push_reserved(first);
    seats.push_reserved(second);
    Ok(seats)
}
