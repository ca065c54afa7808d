//! A book of objects: the objects, and the history that led to them. Nothing here is shared between threads.

ghost use Rattle.std.specs.Prelude.{◌≡◌, ◌<◌, [], length, slice_get, Some, IfErr, IfOk, OnErr, OnOk};
ghost use Rattle.std.specs.Option.{option_map};
ghost use Rattle.gl_objects.specs.Event.{IsEvent};
ghost use Rattle.gl_objects.specs.History.{Legal, replay};
ghost use Rattle.gl_objects.specs.Step.{reply_of};
ghost use Rattle.soft_driver.specs.Book.{entered};

use gl_objects::{Event, EventReply, Objects};
use std::alloc::{AllocError as NoMemory, Global};
use std::marker::Model;

/// An event, and the seat that it came from; own. Its reply isn't kept: it follows from the events before it.
#[derive(Drop)]
pub struct Kept {
    pub seat: u32,
    pub event: Event,
}

/// Objects, and the history that led to them; own. Contracts see the history, whose replies are right, and of which the
/// objects are the replay.
#[derive(Drop)]
pub struct Book {
    kept: Vec<Kept>,
    objects: Objects,
}

impl Model for Book {
    ghost use Rattle.std.specs.Prelude.{◌≡◌, List};
    ghost use Rattle.gl_objects.specs.History.{Entry, replay};
    ghost use Rattle.soft_driver.specs.Book.{entries_kept};

    ghost Value = { List Entry };

    ghost view = { λ b. entries_kept b.kept.items };

    ghost invariant = { λ b. b.objects ≡ replay (entries_kept b.kept.items) };
}

impl Book {
    /// A book without a history, beside the default textures alone. It takes no memory.
    #[tactic(auto, unfolding(crate::specs::Book::entries_from))]
    pub fn new(alloc: Global) -> Book
        ensures { result ≡ [] }
    {
        Book {
            kept: Vec::new(alloc),
            objects: Objects::new(alloc),
        }
    }

    /// Applies an event that comes from a seat, and enters it with its reply. Room for the entry is asked for before the event is
    /// applied. After NoMemory the book is as it was, and the event comes back.
    pub fn apply(&mut self, seat: u32, event: Event) -> Result<EventReply, (Event, NoMemory)>
        requires event { IsEvent event }
        ensures reply { IfOk result (λ reply. reply ≡ reply_of (replay self.old) event) }
        ensures ok { OnOk result (self.new ≡ entered self.old seat event) }
        ensures err { OnErr result (self.new ≡ self.old) }
        ensures back { IfErr result (λ back. back.0 ≡ event) }
    {
        if let Err(refused) = self.kept.reserve(1) {
            return Err((event, refused));
        }
        match self.objects.apply(&event) {
            Ok(reply) => {
                self.kept.push_reserved(Kept { seat, event });
                Ok(reply)
            }
            Err(refused) => Err((event, refused)),
        }
    }

    /// How many entries its history has.
    pub fn len(&self) -> usize
        ensures { result ≡ length self.now }
    {
        self.kept.as_slice().len()
    }

    /// The seat that the entry at a place came from, from 0.
    pub fn seat_at(&self, at: usize) -> u32
        requires place { at < length self.now }
        ensures { Some result ≡ option_map (λ entry. entry.seat) (slice_get self.now at) }
    {
        self.kept.as_slice()[at].seat
    }

    /// The objects.
    pub fn objects(&self) -> &Objects
        ensures objects { result.now ≡ replay self.now }
        ensures legal { Legal self.now }
    {
        &self.objects
    }
}
