//! Why a call waits, and what becomes of it. Which class it has is asked of the shadow.

ghost use Rattle.std.specs.Prelude.{◌≡◌, is_some};
ghost use Rattle.gl_words.specs.Call.{is_answering};
ghost use Rattle.gl_memory.specs.ClientMemory.{memory_of};
ghost use Rattle.gl_tracked.specs.Fault.{fault_of};
ghost use Rattle.gl_tracked.specs.Step.{reads_all};
ghost use Rattle.client_shadow.specs.Class.{captured_for, class_of, is_finish, reads_anywhere};
ghost use Rattle.client_shadow.specs.Look.{asks_in, class_in, number_in};
ghost use Rattle.batch_pack.specs.Spelling.{slots_of};
ghost use Rattle.script_trace.specs.Cause.{cause_beside, cause_of, fate_by};

use crate::fate::{Cause, Fate};
use crate::length::slots_of;
use crate::open_batch::OpenBatch;
use client_shadow::{Becomes, Look, Shadow};
use gl_memory::ClientMemory;
use gl_tracked::Tracked;
use gl_words::{Call, GlError};

/// Why a call waits, if it does, given a look at it with batches of so many slots.
pub(crate) fn cause(
    shadow: &Shadow,
    call: &Call,
    memory: &ClientMemory,
    size: u32,
    look: &Look,
) -> Option<Cause>
    requires class { class_in look.now.becomes
        ≡ class_of shadow.now call.now (memory_of memory.now) size }
    requires asks { asks_in look.now.becomes ≡ is_answering call.now }
    requires fault { look.now.fault ≡ fault_of shadow.now call.now }
    ensures { result ≡ cause_of shadow.now call.now (memory_of memory.now) size }
{
    match look.becomes {
        Becomes::Answer(_) => None,
        Becomes::Sync { asks } => Some(cause_beside(shadow, call, memory, look.fault, asks)),
        Becomes::Defer { .. } => None,
    }
}

/// Why a call waits, given its error, and whether it asks for something: for its length where it is for nothing else.
fn cause_beside(
    shadow: &Shadow,
    call: &Call,
    memory: &ClientMemory,
    fault: Option<GlError>,
    asks: bool,
) -> Cause
    requires fault { fault ≡ fault_of shadow.now call.now }
    ensures { result ≡ cause_beside asks call.now
        (reads_anywhere (fault_of shadow.now call.now) (reads_all shadow.now call.now))
        (slots_of (captured_for shadow.now call.now (memory_of memory.now))) }
{
    let tracked = shadow.tracked();
    if asks {
        Cause::Asks
    } else if is_finish(call) {
        Cause::Finishes
    } else if reads_anywhere(tracked, call, fault) {
        Cause::ReadsAll
    } else {
        Cause::TooLong {
            slots: slots_of(tracked, call, memory, fault),
        }
    }
}

/// Whether a call may read any place of client memory, given its error: with one it reads nothing (section 2.5).
fn reads_anywhere(tracked: &Tracked, call: &Call, fault: Option<GlError>) -> bool
    ensures { result ≡ reads_anywhere fault (reads_all tracked.now call.now) }
{
    match fault {
        Some(_) => false,
        None => tracked.reads_all(call),
    }
}

/// Whether a call is Finish (section 5.1).
fn is_finish(call: &Call) -> bool
    ensures { result ≡ is_finish call.now }
{
    matches!(call, Call::Finish)
}

/// What becomes of a call, given why it waits, if it does, and the open batch with it.
pub(crate) fn fate(becomes: &Becomes, cause: Option<Cause>, batch: &OpenBatch) -> Fate
    ensures { result
        ≡ fate_by cause (is_some (number_in becomes.now)) batch.now.number batch.now.slots }
{
    match cause {
        Some(cause) => Fate::Waits(cause),
        None => match becomes {
            Becomes::Answer(_) => Fate::Answered,
            _ => Fate::PutOff {
                batch: batch.number,
                slots: batch.slots,
            },
        },
    }
}
