//! A turn at a value whose entries own memory: notes, each with a text of its own.
//! A note can only be moved, and nothing here copies one.
ghost use Rattle.std.specs.Prelude.{◌≡◌, [], ◌∷◌, ◌++◌, OnOk, OnErr, IfOk};
ghost use Rattle.share_turn.specs.Annals.{entries_of};
ghost use Rattle.share_turn.specs.Turn.{IsSeatOf, IsSameSeat, IsIdle, number_of, seen};

use crate::seats::{both, two_seats};
use share_turn::laws::{crossing_law, rule_law};
use share_turn::{Annals, NoMemory, Turn, TurnSeat};
use std::alloc::{AllocError, Global};
use std::sync::Wait;
use std::test::Fail;

/// A seat's number, and a text that the note owns.
#[derive(Drop)]
struct Note {
    seat: u32,
    text: String,
}

/// Notes, the oldest first.
#[derive(Drop)]
struct Notes {
    notes: Vec<Note>,
}

impl Annals for Notes {
    type Entry = Note;

    ghost entries = { λ value. value.notes.items };

    ghost number = { λ note. note.seat };
}

impl Notes {
    fn new(alloc: Global) -> Notes
        ensures { result.notes.items ≡ [] }
    {
        Notes {
            notes: Vec::new(alloc),
        }
    }

    fn write(&mut self, note: Note) -> Result<(), NoMemory>
        ensures ok { OnOk result (self.new.notes.items ≡ self.old.notes.items ++ note ∷ []) }
        ensures err { OnErr result (self.new.notes.items ≡ self.old.notes.items) }
    {
        self.notes.push(note)?;
        Ok(())
    }
}

// Takes the value, adds the note, and gives the value back. What the seat then sees of its own is
// what it saw of its own before, and the note.
fn write_in_turn<R: Wait>(
    rt: &R,
    turn: &Turn<Notes>,
    seat: &mut TurnSeat<Notes>,
    note: Note,
) -> Result<(), NoMemory>
    requires seat { IsSeatOf seat.old turn.now }
    requires idle { IsIdle seat.old }
    requires by { note.seat ≡ number_of seat.old }
    ensures seat { IsSameSeat seat.old seat.new × IsIdle seat.new }
    ensures ok { let own = entries_of (λ e. e.seat) note.seat in
        OnOk result (own (seen seat.new) ≡ own (seen seat.old) ++ note ∷ []) }
    ensures err { let own = entries_of (λ e. e.seat) note.seat in
        OnErr result (own (seen seat.new) ≡ own (seen seat.old)) }
{
    seat.knows_own();
    let mut value = seat.take(rt, turn);
    let written = value.write(note);
    seat.give(turn, value);
    seat.knows_own();
    written
}

fn note_of(alloc: Global, seat: u32, text: &str) -> Result<Note, NoMemory>
    ensures { IfOk result (λ note. note.seat ≡ seat) }
{
    Ok(Note {
        seat,
        text: text.to_string(alloc)?,
    })
}

#[test]
fn notes_that_own_memory_stand_in_the_order_of_the_turns(rt: HostRuntime) -> Result<(), Fail> {
    let alloc = rt.alloc();
    let (turn, mut first, mut second) = two_seats(alloc, Notes::new(alloc))?;
    write_in_turn(&rt, &turn, &mut first, note_of(alloc, 0, "red")?)?;
    write_in_turn(&rt, &turn, &mut second, note_of(alloc, 1, "green")?)?;
    write_in_turn(&rt, &turn, &mut first, note_of(alloc, 0, "blue")?)?;
    let mut closed = turn.close(&rt, both(alloc, &turn, first, second)?);
    assert_eq!(rt; closed.notes.len(), 3);
    for (seat, text) in [(0, "blue"), (1, "green"), (0, "red")] {
        let Some(note) = closed.notes.pop() else {
            return Err(AllocError.into());
        };
        assert_eq!(rt; note.seat, seat);
        assert_eq!(rt; note.text.as_str(), text);
    }
    Ok(())
}

#[test]
fn the_laws_hold_of_notes() {
    rule_law::<Notes>();
    crossing_law::<Notes>();
}
