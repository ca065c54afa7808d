//! Laws over the rule of a turn's own table.
//! Nothing here is run, but for `table_law`, which gives the table that a turn stood on.
ghost use Rattle.std.specs.Prelude.{◌≡◌};
ghost use Rattle.share_turn.specs.Laws.{RuleIsKept, WordTellsHolder, SeatsDiffer};
ghost use Rattle.share_turn.specs.Laws.{MetTakesWereMade, EntriesAreKept};

use crate::annals::Annals;
use crate::rule::OneHistory;
use crate::seat::TurnSeat;
use crate::turn::{Turn, TurnTable};
use crate::view::{Opening, View};
use atomic_table::TableRule;

/// The table that a turn stood on. Its type names its rule, which every step at it keeps, so that
/// the states of the other laws are those of every moment of a turn.
pub fn table_law<T: Annals>(turn: Turn<T>) -> TurnTable<T>
    ensures table { result ≡ turn.table }
{
    let Turn { table } = turn;
    table
}

/// The rule of a turn's table is `IsKept`, neither more nor less.
pub fn rule_law<T: Annals>()
    ensures { RuleIsKept T.entries T.number
        ⟦<OneHistory<T> as TableRule<Option<T>, View<T::Entry>, Opening<T>>>⟧.holds }
{}

/// The word is 1 exactly while a seat holds the value, and no two seats hold it.
pub fn word_tells_holder_law<T: Annals>()
    ensures { WordTellsHolder
        ⟦<OneHistory<T> as TableRule<Option<T>, View<T::Entry>, Opening<T>>>⟧.holds }
{}

/// Two seats of a turn keep different numbers.
pub fn seats_differ_law<T: Annals>()
    ensures { SeatsDiffer
        ⟦<OneHistory<T> as TableRule<Option<T>, View<T::Entry>, Opening<T>>>⟧.holds }
{}

/// A take that a seat met was made by some seat. So a try that met a take newer than its seat's own
/// last met another seat's.
pub fn met_takes_were_made_law<T: Annals>()
    ensures { MetTakesWereMade
        ⟦<OneHistory<T> as TableRule<Option<T>, View<T::Entry>, Opening<T>>>⟧.holds }
{}

/// Each entry of the history is of a number that some seat keeps.
pub fn entries_are_kept_law<T: Annals>()
    ensures { EntriesAreKept T.entries T.number
        ⟦<OneHistory<T> as TableRule<Option<T>, View<T::Entry>, Opening<T>>>⟧.holds }
{}

/// Threads may share a turn, and a seat may move to another thread, where the value may move there.
pub fn crossing_law<T: Annals + Send>() {
    may_be_shared::<Turn<T>>();
    may_move::<TurnSeat<T>>();
    may_move::<Turn<T>>();
}

fn may_be_shared<X: Sync>() {}

fn may_move<X: Send>() {}
