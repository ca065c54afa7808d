//! The arguments of a call, in order. Integers are made a call again in `making.rt`.

ghost use Rattle.std.specs.Prelude.{◌≡◌, ◌<◌, ◌≤◌, length, slice_get, Some};
ghost use Rattle.gl_words.specs.Call.{arguments, IsInRange};

use crate::call::Call;
use crate::table::rows;
use std::marker::Model;

/// The arguments of a call as integers, at most 9. Contracts see them in order.
#[derive(Drop)]
pub struct Arguments {
    numbers: [i64; 9],
    count: usize,
}

impl Model for Arguments {
    ghost use Rattle.std.specs.Prelude.{◌≤◌, List, ℤ, take};

    ghost Value = { List ℤ };

    ghost view = { λ a. take a.count a.numbers };

    ghost invariant = { λ a. a.count ≤ 9 };
}

impl Arguments {
    /// The integers, in order.
    pub fn as_slice(&self) -> &[i64]
        ensures numbers { result.now ≡ self.now }
        ensures few { length result.now ≤ 9 }
    {
        &self.numbers[..self.count]
    }
}

/// The integers of fields, and zeros at the places behind them.
macro_rules! filled {
    ([$($number:expr,)*] {} ($count:literal $($place:literal)*)) => {
        Arguments { numbers: [$($number,)* $(filled!($place)),*], count: $count }
    };
    ([$($number:expr,)*] { $field:ident $($more:ident)* } ($place:literal $($places:literal)*)) => {
        filled!([$($number,)* i64::from(*$field),] { $($more)* } ($($places)*))
    };
    ($place:literal) => { 0 };
}

macro_rules! listed {
    (($call:ident) $($part:ident $id:literal $name:ident { $($field:ident: $kind:ident),* };)*) => {
        match &$call {
            $(Call::$name { $($field),* } => filled!([] { $($field)* } (0 1 2 3 4 5 6 7 8 9)),)*
        }
    };
}

#[tactic(auto, unfolding(crate::specs::Call::IsInRange, crate::specs::Call::kinds_of, crate::specs::Call::arguments))]
fn arguments_held(call: Call) -> Arguments
    ensures gives { result ≡ arguments call }
    ensures in_range { IsInRange call }
{
    rows!(listed(call))
}

/// The arguments of a call, in order, each in the range of its kind.
pub fn arguments_of(call: &Call) -> Arguments
    ensures gives { result ≡ arguments call.now }
    ensures in_range { IsInRange call.now }
{
    arguments_held(*call)
}

/// One argument of a call as an integer, counted from 0.
pub fn arg_at(call: &Call, at: usize) -> i64
    requires { at < length (arguments call.now) }
    ensures { slice_get (arguments call.now) at ≡ Some result }
{
    arguments_of(call).as_slice()[at]
}
