//! A batch: slots of eight bytes that hold the spellings of calls. It takes no memory after it was made.

ghost use Rattle.std.specs.Prelude.{◌≡◌, ◌<◌, ◌≤◌, ◌↔◌, [], ◌∷◌, ◌++◌, IfOk, IsErr, OnOk, OnErr};
ghost use Rattle.batch_pack.specs.Batch.{IsBatchSize, captured, empty_batch, slots_used, slots_left};
ghost use Rattle.batch_pack.specs.Heading.{IsHeadingOf};
ghost use Rattle.batch_pack.specs.Spelling.{slots_of, spellings_of, HaveSpellings};

use crate::fault::Full;
use crate::reader::{Reader, reader_of};
use crate::spelling::{Heading, heading_of};
use crate::writer::spell;
use gl_memory::{ClientMemory, Pieces};
use gl_words::{Call, row_of};
use std::alloc::{AllocError as NoMemory, Global};
use std::marker::Model;

/// A list of at most `size` slots that are spellings of calls; own. Contracts see its size in slots and its calls.
#[derive(Drop)]
pub struct Batch {
    slots: Vec<u64>,
    size: u32,
}

impl Model for Batch {
    ghost use Rattle.std.specs.Prelude.{vec_capacity};
    ghost use Rattle.batch_pack.specs.Batch.{BatchView};
    ghost use Rattle.batch_pack.specs.Decoding.{calls_in};
    ghost use Rattle.batch_pack.specs.Holding.{IsHolding};

    ghost Value = { BatchView };

    ghost view = { λ b. record { size = b.size; calls = calls_in b.slots.items } };

    ghost invariant = { λ b. IsHolding b.slots.items (vec_capacity b.slots) b.size };
}

impl Batch {
    /// An empty batch of so many slots.
    pub fn new(alloc: Global, slots: u32) -> Result<Batch, NoMemory>
        requires size { IsBatchSize slots }
        ensures ok { IfOk result (λ batch. batch ≡ empty_batch slots) }
    {
        Ok(Batch {
            slots: Vec::with_capacity(alloc, slots as usize)?,
            size: slots,
        })
    }

    /// Puts a call behind the others, with a segment of client memory's bytes for each piece, and zeros past its end.
    /// Full exactly where the spelling has more slots than are left; the batch is then as before.
    pub fn try_pack(
        &mut self,
        call: &Call,
        pieces: &Pieces,
        memory: &ClientMemory,
    ) -> Result<(), Full>
        ensures ok { OnOk result (self.new ≡ record self.old
            { calls = self.old.calls ++ captured call.now pieces.now memory.now ∷ [] }) }
        ensures full { IsErr result
            ↔ (slots_left self.old < slots_of (captured call.now pieces.now memory.now)) }
        ensures err { OnErr result (self.new ≡ self.old) }
    {
        let heading = heading_of(row_of(call), pieces);
        if u64::from(self.left()) < heading.slots {
            return Err(Full);
        }
        self.pack(call, pieces, memory, heading);
        Ok(())
    }

    /// Puts a call behind the others, as `try_pack` does, whose spelling has this heading: its slots are left.
    pub fn pack(&mut self, call: &Call, pieces: &Pieces, memory: &ClientMemory, heading: Heading)
        requires heading { IsHeadingOf heading (captured call.now pieces.now memory.now) }
        requires fits { heading.slots ≤ slots_left self.old }
        ensures { self.new ≡ record self.old
            { calls = self.old.calls ++ captured call.now pieces.now memory.now ∷ [] } }
    {
        spell(&mut self.slots, call, pieces, memory.bytes(), heading);
    }

    /// How many slots are left.
    pub fn left(&self) -> u32
        ensures { result ≡ slots_left self.now }
    {
        self.size - self.slots.len() as u32
    }

    /// How many slots the batch has.
    pub fn size(&self) -> u32
        ensures size { result ≡ self.now.size }
        ensures bounds { IsBatchSize self.now.size × (slots_used self.now.calls ≤ self.now.size) }
    {
        self.size
    }

    /// How many slots are in use.
    pub fn used(&self) -> u32
        ensures used { result ≡ slots_used self.now.calls }
        ensures within { result ≤ self.now.size }
    {
        self.slots.len() as u32
    }

    /// Takes all calls out.
    pub fn clear(&mut self)
        ensures { self.new ≡ empty_batch self.old.size }
    {
        self.slots.clear();
    }

    /// The slots that the calls are spelled in, which `parse` reads back.
    pub fn slots(&self) -> &[u64]
        ensures slots { result.now ≡ spellings_of self.now.calls }
        ensures spellings { HaveSpellings self.now.calls }
    {
        self.slots.as_slice()
    }

    /// A reader of the calls, in order.
    pub fn reader(&self) -> Reader<'_>
        ensures calls { result ≡ self.now.calls }
        ensures spellings { HaveSpellings self.now.calls }
    {
        reader_of(self.slots.as_slice())
    }
}
