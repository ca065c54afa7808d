//! The rule of a turn's table, and what each kind of its steps tells.
//! These types are for the proofs alone, and no value of them is made.
use crate::annals::Annals;
use crate::view::{Opening, View};
use atomic_table::{Join, Play, Split, TableRule};
use std::marker::PhantomData;

/// The rule of a turn's table: between any two steps there is one history, which `IsKept` states.
pub struct OneHistory<T> {
    value: PhantomData<T>,
}

impl<T: Annals> TableRule<Option<T>, View<T::Entry>, Opening<T>> for OneHistory<T> {
    ghost use Rattle.share_turn.specs.Rule.{IsKept};
    ghost use Rattle.share_turn.specs.View.{first_view};

    ghost holds = { λ key. IsKept T.entries T.number key.seats };

    ghost first = { λ key. first_view T.number key.seats (T.entries key.value.value) };
}

/// A try to have the value, by a compare and exchange of 0 for 1.
pub struct Try;

impl<T: Annals> Play<Option<T>, View<T::Entry>> for Try {
    ghost use Rattle.share_turn.specs.Steps.{tries};

    ghost then = { tries T.entries T.number };
}

/// The value goes home, by a store of 0.
pub struct GiveBack;

impl<T: Annals> Play<Option<T>, View<T::Entry>> for GiveBack {
    ghost use Rattle.share_turn.specs.Steps.{gives_back};

    ghost then = { gives_back T.entries T.number };
}

/// The next number is dealt to a seat of its own.
pub struct Deal;

impl<E> Split<View<E>> for Deal {
    ghost use Rattle.share_turn.specs.View.{dealer, dealt};

    ghost left = { dealer };

    ghost right = { dealt };
}

/// A seat takes another in.
pub struct TakeIn;

impl<E> Join<View<E>> for TakeIn {
    ghost use Rattle.share_turn.specs.View.{joined, spent};

    ghost both = { joined };

    ghost spent = { spent };
}
