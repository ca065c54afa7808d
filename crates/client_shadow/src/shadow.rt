//! The tracked state of a context, as the layer knows it. It never sees a driver, and takes no memory.

ghost use Rattle.std.specs.Prelude.{◌≡◌, ◌≢◌, ◌≤◌, ◌↔◌, ◌||◌, ℕ, List, [], None, IsNone, length};
ghost use Rattle.gl_words.specs.Call.{is_answering, IsInRange};
ghost use Rattle.gl_words.specs.Table.{IsRowOf};
ghost use Rattle.gl_memory.specs.Segment.{Segment};
ghost use Rattle.gl_memory.specs.ClientMemory.{memory_of};
ghost use Rattle.gl_tracked.specs.Fault.{fault_of};
ghost use Rattle.gl_tracked.specs.Step.{number_asked, tracked_after};
ghost use Rattle.gl_tracked.specs.Tracked.{first_tracked, IsSound};
ghost use Rattle.batch_pack.specs.Spelling.{slots_of};
ghost use Rattle.client_shadow.specs.declared.class.Class.TheVariants.{Answer};
ghost use Rattle.client_shadow.specs.Class.{captured_for, class_of, class_unasked, is_finish, pieces_of, pieces_without_fault, waits};
ghost use Rattle.client_shadow.specs.Look.{Captures, HasHeading, asks_in, class_in, number_in};

use crate::class::Class;
use crate::look::{Becomes, Look};
use array_capture::{
    pieces_of_bytes, pieces_of_colour, pieces_of_data, pieces_of_draw, pieces_of_elements,
    pieces_of_image, pieces_of_matrix, pieces_of_names, pieces_of_subimage,
};
use batch_pack::heading_of;
use gl_memory::{ClientMemory, Pieces};
use gl_tracked::{Finding, Tracked};
use gl_words::{Call, GlError, TableRow, row_of};
use std::marker::Model;

/// Tracked state; own. Contracts see it.
#[derive(Drop)]
pub struct Shadow {
    tracked: Tracked,
}

impl Model for Shadow {
    ghost use Rattle.gl_tracked.specs.declared.tracked.Tracked.{Tracked};
    ghost use Rattle.gl_tracked.specs.Tracked.{IsSound};

    ghost Value = { Tracked };

    ghost view = { λ s. s.tracked };

    ghost invariant = { λ s. IsSound s.tracked };
}

impl Shadow {
    /// The shadow of a context at the start (sections 2.7 to 2.10 and 3.6.1).
    pub fn new() -> Shadow
        ensures { result ≡ first_tracked }
    {
        Shadow {
            tracked: Tracked::first(),
        }
    }

    /// What it knows; own.
    pub fn tracked(&self) -> &Tracked
        ensures tracked { result.now ≡ self.now }
        ensures sound { IsSound self.now }
    {
        &self.tracked
    }

    /// Takes the step of a call on client memory. A call with an error changes nothing (section 2.5).
    pub fn note(&mut self, call: &Call, memory: &ClientMemory, fault: Option<GlError>)
        requires fault { fault ≡ fault_of self.old call.now }
        ensures { self.new ≡ tracked_after self.old call.now (memory_of memory.now) }
    {
        self.tracked.note(call, memory, fault);
    }

    /// Looks at a call on client memory, with batches of so many slots: all that the layer needs to know of it. The pieces
    /// that are captured for a call that is put off are put into the list, which no call touches that reads no memory; own.
    #[tactic(auto, unfolding(crate::specs::Class::class_of, crate::specs::Class::captured_for))]
    pub fn look(&self, call: &Call, memory: &ClientMemory, slots: u32, pieces: &mut Pieces) -> Look
        requires empty { pieces.old ≡ [] }
        ensures class { class_in result.becomes
            ≡ class_of self.now call.now (memory_of memory.now) slots }
        ensures number { number_in result.becomes ≡ number_asked self.now call.now }
        ensures pieces { Captures result.becomes pieces.new
            (pieces_of self.now call.now (memory_of memory.now)) }
        ensures heading { HasHeading result.becomes call.now pieces.new memory.now }
        ensures asks { asks_in result.becomes ≡ is_answering call.now }
        ensures fault { result.fault ≡ fault_of self.now call.now }
        ensures in_range { IsInRange call.now }
    {
        let row = row_of(call);
        match self.tracked.finding(call) {
            Finding::Number(number) => Look {
                becomes: Becomes::Answer(number),
                fault: None,
            },
            Finding::Fault(fault) => Look {
                becomes: self.wait_or_defer(call, row, memory, slots, fault, pieces),
                fault,
            },
        }
    }

    /// Whether a call waits for all before it though it asks for nothing, given its error (sections 2.9 and 5.1, what can't be
    /// captured own).
    #[tactic(auto, unfolding(crate::specs::Class::waits))]
    fn waits(&self, call: &Call, fault: Option<GlError>) -> bool
        requires fault { fault ≡ fault_of self.now call.now }
        ensures { result ≡ waits self.now call.now }
    {
        match fault {
            Some(_) => is_finish(call),
            None => is_finish(call) || self.tracked.reads_all(call),
        }
    }

    /// What becomes of a call that asks for no number of tracked state, given its error. For one that waits in any case no pieces
    /// are looked for and no slots are counted.
    #[tactic(auto, unfolding(crate::specs::Class::captured_for))]
    fn wait_or_defer(
        &self,
        call: &Call,
        row: &TableRow,
        memory: &ClientMemory,
        slots: u32,
        fault: Option<GlError>,
        pieces: &mut Pieces,
    ) -> Becomes
        requires row { IsRowOf row.now call.now }
        requires fault { fault ≡ fault_of self.now call.now }
        requires few { length row.now.kinds.now ≤ 9 }
        requires empty { pieces.old ≡ [] }
        ensures class { class_in result ≡ class_unasked call.now (waits self.now call.now)
            (slots_of (captured_for self.now call.now (memory_of memory.now))) slots }
        ensures number { number_in result ≡ None }
        ensures pieces { Captures result pieces.new
            (pieces_of self.now call.now (memory_of memory.now)) }
        ensures heading { HasHeading result call.now pieces.new memory.now }
        ensures asks { asks_in result ≡ is_answering call.now }
    {
        if row.answering || self.waits(call, fault) {
            return Becomes::Sync {
                asks: row.answering,
            };
        }
        find_pieces(&self.tracked, call, memory, fault, pieces);
        let heading = heading_of(row, pieces);
        if u64::from(slots) < heading.slots {
            return Becomes::Sync { asks: false };
        }
        Becomes::Defer { heading }
    }

    /// The number that a call asks for (section 6.1). None exactly where its class isn't Answer.
    pub fn answer(&self, call: &Call) -> Option<i64>
        ensures answer { result ≡ number_asked self.now call.now }
        ensures none { (memory : List Segment) (slots : ℕ)
            → IsNone result ↔ (class_of self.now call.now memory slots ≢ Answer) }
    {
        self.tracked.asked(call)
    }

    /// The class of a call, with batches of so many slots; own, after Mesa.
    pub fn class(&self, call: &Call, memory: &ClientMemory, slots: u32) -> Class
        ensures { result ≡ class_of self.now call.now (memory_of memory.now) slots }
    {
        let mut pieces = Pieces::new();
        self.look(call, memory, slots, &mut pieces).becomes.class()
    }
}

/// Puts the pieces of client memory that are captured for a call, given its error, into an empty list: none where it has one
/// (section 2.5).
#[tactic(auto, unfolding(crate::specs::Class::pieces_of))]
fn find_pieces(
    tracked: &Tracked,
    call: &Call,
    memory: &ClientMemory,
    fault: Option<GlError>,
    pieces: &mut Pieces,
)
    requires sound { IsSound tracked.now }
    requires fault { fault ≡ fault_of tracked.now call.now }
    requires empty { pieces.old ≡ [] }
    ensures { pieces.new ≡ pieces_of tracked.now call.now (memory_of memory.now) }
{
    match fault {
        Some(_) => {}
        None => find_pieces_without_fault(tracked, call, memory, pieces),
    }
}

/// Puts the pieces of client memory for a call without an error into an empty list (sections 2.8, 2.9, 2.10.2, 3.7.1, 3.7.2,
/// 3.7.11 and 3.7.12). Only draws, matrices, uploads, images, colours and deletions touch it.
#[tactic(auto, unfolding(crate::specs::Class::pieces_without_fault))]
fn find_pieces_without_fault(
    tracked: &Tracked,
    call: &Call,
    memory: &ClientMemory,
    pieces: &mut Pieces,
)
    requires sound { IsSound tracked.now }
    requires empty { pieces.old ≡ [] }
    ensures { pieces.new ≡ pieces_without_fault tracked.now call.now (memory_of memory.now) }
{
    match call {
        Call::BufferData { size, source, .. } => {
            *pieces = pieces_of_data(*source, *size, memory);
        }
        Call::BufferSubData { size, source, .. } => {
            *pieces = pieces_of_bytes(*source, *size, memory);
        }
        Call::DeleteBuffers { n, names } | Call::DeleteTextures { n, names } => {
            *pieces = pieces_of_names(*names, *n, memory);
        }
        Call::DrawArrays { first, count, .. } => {
            *pieces = pieces_of_draw(tracked, *first, *count, memory);
        }
        Call::DrawElements {
            count,
            kind,
            indices,
            ..
        } => {
            *pieces = pieces_of_elements(tracked, *count, *kind, *indices, memory);
        }
        Call::LoadMatrixx { matrix } | Call::MultMatrixx { matrix } => {
            *pieces = pieces_of_matrix(*matrix, memory);
        }
        Call::TexEnvxv { params, .. } => {
            *pieces = pieces_of_colour(*params, memory);
        }
        Call::TexImage2D {
            width,
            height,
            format,
            pixels,
            ..
        } => {
            *pieces = pieces_of_image(tracked, *format, *width, *height, *pixels, memory);
        }
        Call::TexSubImage2D {
            width,
            height,
            format,
            pixels,
            ..
        } => {
            *pieces = pieces_of_subimage(tracked, *format, *width, *height, *pixels, memory);
        }
        _ => {}
    }
}

/// Whether a call is Finish (section 5.1).
fn is_finish(call: &Call) -> bool
    ensures { result ≡ is_finish call.now }
{
    matches!(call, Call::Finish)
}
