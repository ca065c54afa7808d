//! Calls of numbers and integers. The integers stand by themselves or in slots of eight bytes; they are judged before a
//! call is made, and not again when it is.

ghost use Rattle.std.specs.Prelude.{◌≡◌, ◌++◌, ℕ, ℤ, List, Some, drop, map, unwrap_or, IfSome, IsSomeAnd};
ghost use Rattle.std.specs.Option.{option_map};
ghost use Rattle.std.specs.Int.{cast_signed, w64};
ghost use Rattle.gl_words.specs.Call.{id_of, kinds_of, arguments, again_of, IsInRange};
ghost use Rattle.gl_words.specs.CallOf.{argument_count, made_of, call_of};
ghost use Rattle.gl_words.specs.Making.{unsigned_of, signed_of, truth_of, is_of_kind, fits, low_bits, signed_at, truth_at, unsigned_at};
ghost use Rattle.gl_words.specs.Slots.{slot_of, call_begun};
ghost use Rattle.gl_words.specs.declared.call.Call.{Call};

use crate::call::Call;
use crate::shape::ArgKind;
use crate::table::{row_numbered, rows};

/// The call with this number whose arguments slots begin with, each in two's complement of 64 bits, and the slots behind
/// them. None exactly where they begin with those of none.
pub fn call_in<'a>(id: u16, slots: &'a [u64]) -> Option<(Call, &'a [u64])>
    ensures found { IfSome result (λ read. IsInRange read.0 × (id_of read.0 ≡ id)
        × (slots.now ≡ map slot_of (arguments read.0) ++ read.1.now)) }
    ensures only { (call : Call) (more : List ℕ) → IsInRange call → id_of call ≡ id
        → slots.now ≡ map slot_of (arguments call) ++ more
        → IsSomeAnd result (λ read. read.0 ≡ call) }
{
    begun(id, slots)
}

/// The call with this number whose arguments slots begin with, and the slots behind them.
fn begun<'a>(id: u16, slots: &'a [u64]) -> Option<(Call, &'a [u64])>
    ensures call { option_map (λ read. read.0) result ≡ call_begun id slots.now }
    ensures behind { IfSome result
        (λ read. read.1.now ≡ drop (unwrap_or (argument_count id) 0) slots.now) }
{
    let Some(row) = row_numbered(id) else {
        return None;
    };
    let count = row.kinds.len();
    if count > slots.len() {
        return None;
    }
    let (first, behind) = slots.split_at(count);
    match made(row.call, row.kinds, first) {
        Some(call) => Some((call, behind)),
        None => None,
    }
}

/// The call with this number and these arguments. None exactly where no call has the number, the
/// number of arguments differs, or one is outside the range of its kind.
#[tactic(auto, using(crate::proofs::Rows::rows))]
pub fn call_from(id: u16, args: &[i64]) -> Option<Call>
    ensures gives { result ≡ call_of id args.now }
    ensures found { IfSome result
        (λ call. (id_of call ≡ id) × (arguments call ≡ args.now) × IsInRange call) }
    ensures only { (call : Call) → IsInRange call → id_of call ≡ id → arguments call ≡ args.now
        → result ≡ Some call }
{
    found(id, args)
}

fn found(id: u16, args: &[i64]) -> Option<Call>
    ensures { result ≡ call_of id args.now }
{
    match row_numbered(id) {
        Some(row) => made(row.call, row.kinds, args),
        None => None,
    }
}

/// An integer of 64 bits, as it is or in a slot.
pub(crate) trait Integer {
    ghost integer: { Self → ℤ };

    fn integer(&self) -> i64
        ensures { result ≡ integer self.now };
}

impl Integer for i64 {
    ghost integer = { λ z. z };

    fn integer(&self) -> i64 {
        *self
    }
}

impl Integer for u64 {
    ghost integer = { cast_signed w64 };

    fn integer(&self) -> i64 {
        self.cast_signed()
    }
}

/// The call of a call's row that has these arguments, where there are as many as kinds and each is of its kind.
#[tactic(auto, unfolding(crate::specs::CallOf::made_of))]
pub(crate) fn made<I: Integer>(call: Call, kinds: &[ArgKind], args: &[I]) -> Option<Call>
    requires { kinds.now ≡ kinds_of call }
    ensures { result ≡ made_of call (map I.integer args.now) }
{
    if fit(kinds, args) {
        Some(made_again(call, args))
    } else {
        None
    }
}

macro_rules! value {
    (Bool $args:ident $place:literal) => { truth($args, $place) };
    (Int $args:ident $place:literal) => { signed($args, $place) };
    (Fixed $args:ident $place:literal) => { signed($args, $place) };
    ($kind:ident $args:ident $place:literal) => { unsigned($args, $place) };
}

macro_rules! made_call {
    ($args:ident $name:ident [$($done:tt)*] {} $places:tt) => { Call::$name { $($done)* } };
    ($args:ident $name:ident [$($done:tt)*] { $field:ident: $kind:ident $(, $more:ident: $more_kind:ident)* } ($place:literal $($places:literal)*)) => {
        made_call!($args $name [$($done)* $field: value!($kind $args $place),] { $($more: $more_kind),* } ($($places)*))
    };
}

macro_rules! remade {
    (($call:ident $args:ident) $($part:ident $id:literal $name:ident { $($field:ident: $kind:ident),* };)*) => {
        match $call {
            $(Call::$name { .. } => made_call!($args $name [] { $($field: $kind),* } (0 1 2 3 4 5 6 7 8)),)*
        }
    };
}

/// The call of a call's row that holds these integers.
#[tactic(auto, using(crate::proofs::Makings::made), unfolding(crate::specs::Call::again_of))]
fn made_again<I: Integer>(call: Call, args: &[I]) -> Call
    ensures { result ≡ again_of call (map I.integer args.now) }
{
    rows!(remade(call args))
}

/// Whether there are as many integers as kinds, each of its kind.
#[tactic(auto, unfolding(crate::specs::Making::fits))]
fn fit<I: Integer>(kinds: &[ArgKind], args: &[I]) -> bool
    ensures { result ≡ fits kinds.now (map I.integer args.now) }
{
    match kinds {
        [] => args.is_empty(),
        [kind, kinds @ ..] => match args {
            [] => false,
            [arg, args @ ..] => {
                if is_of(*kind, arg.integer()) {
                    fit(kinds, args)
                } else {
                    false
                }
            }
        },
    }
}

fn is_of(kind: ArgKind, arg: i64) -> bool
    ensures { result ≡ is_of_kind kind arg }
{
    match kind {
        ArgKind::Enum | ArgKind::Unsigned | ArgKind::Pointer => unsigned_from(arg).is_some(),
        ArgKind::Int | ArgKind::Fixed => signed_from(arg).is_some(),
        ArgKind::Bool => truth_from(arg).is_some(),
    }
}

/// The integer at a place, counted from 0, as a signed number of 32 bits.
#[tactic(auto, unfolding(crate::specs::Making::signed_at, crate::specs::Making::unsigned_at))]
fn signed<I: Integer>(args: &[I], at: usize) -> i32
    ensures { result ≡ signed_at (map I.integer args.now) at }
{
    unsigned(args, at).cast_signed()
}

/// The integer at a place, counted from 0, as a number without sign of 32 bits.
#[tactic(auto, unfolding(crate::specs::Making::unsigned_at))]
fn unsigned<I: Integer>(args: &[I], at: usize) -> u32
    ensures { result ≡ unsigned_at (map I.integer args.now) at }
{
    match args.get(at) {
        Some(arg) => low_bits(arg.integer()),
        None => 0,
    }
}

/// The integer at a place, counted from 0, as a truth value; false where it is none.
#[tactic(auto, unfolding(crate::specs::Making::truth_at))]
fn truth<I: Integer>(args: &[I], at: usize) -> bool
    ensures { result ≡ truth_at (map I.integer args.now) at }
{
    match args.get(at) {
        Some(arg) => truth_from(arg.integer()).unwrap_or(false),
        None => false,
    }
}

/// The low 32 bits of an integer, those of an integer below zero in two's complement; own.
pub fn low_bits(value: i64) -> u32
    ensures { result ≡ low_bits value }
{
    (value.cast_unsigned() % 0x1_0000_0000) as u32
}

fn unsigned_from(value: i64) -> Option<u32>
    ensures { result ≡ unsigned_of value }
{
    u32::try_from(value).ok()
}

fn signed_from(value: i64) -> Option<i32>
    ensures { result ≡ signed_of value }
{
    i32::try_from(value).ok()
}

fn truth_from(value: i64) -> Option<bool>
    ensures { result ≡ truth_of value }
{
    match value {
        0 => Some(false),
        1 => Some(true),
        _ => None,
    }
}
