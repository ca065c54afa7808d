//! Where the direct machine has come to in a context, beside the open batch: it passes lines, and tells their calls. Nothing is
//! packed, and no rail stands here: class, cause and batch are those of the layer's definitions.

ghost use Rattle.std.specs.Prelude.{◌≡◌, ◌+◌, ◌^◌, ◌<◌, ◌≤◌, Some, option_map, IfOk, OnOk, OnErr};
ghost use Rattle.gl_memory.specs.ClientMemory.{memory_of};
ghost use Rattle.gl_tracked.specs.Fault.{fault_of};
ghost use Rattle.gl_tracked.specs.Step.{tracked_after};
ghost use Rattle.batch_pack.specs.Batch.{IsBatchSize};
ghost use Rattle.driver_trait.specs.Output.{memory_after};
ghost use Rattle.driver_trait.specs.Reply.{replied};
ghost use Rattle.script_reader.specs.Limits.{IsContext, IsLine};
ghost use Rattle.replay_lines.specs.Results.{printed, printed_by};
ghost use Rattle.script_trace.specs.Entries.{entries_by, entry_here, first_here, here_past, reached, seen};
ghost use Rattle.script_trace.specs.Errors.{recorded_beside};
ghost use Rattle.script_trace.specs.Tallies.{listed};

use crate::direct::Direct;
use crate::entry::{Entry, Recorded};
use crate::open_batch::OpenBatch;
use crate::waiting::{cause, fate};
use client_shadow::Shadow;
use driver_trait::{Reply, write_reply};
use gl_memory::{ClientMemory, Pieces};
use gl_words::{Call, GlError};
use replay_lines::{Printed, What, answer_of};
use script_reader::{Act, ContextSpec, Line};
use std::alloc::{AllocError as NoMemory, Global};
use std::marker::Model;
use std::thread::Threads;

/// A context of a number, with batches of so many slots, where the direct machine has come to, beside the open batch.
#[derive(Drop)]
pub(crate) struct Here {
    size: u32,
    context: u32,
    direct: Direct,
    memory: ClientMemory,
    shadow: Shadow,
    batch: OpenBatch,
}

impl Model for Here {
    ghost use Rattle.script_trace.specs.Entries.{HereView};
    ghost use Rattle.script_trace.specs.Keeping.{IsKept};

    ghost Value = { HereView };

    ghost view = { λ h. record {
      size = h.size;
      context = h.context;
      own = h.direct.own;
      objects = h.direct.objects;
      memory = h.memory;
      batch = h.batch;
    } };

    ghost invariant = { λ h. IsKept h.size h.direct h.shadow h.batch };
}

impl Here {
    /// The start of a context.
    pub(crate) fn new(
        alloc: Global,
        size: u32,
        context: u32,
        spec: ContextSpec,
    ) -> Result<Here, NoMemory>
        requires size { IsBatchSize size }
        requires context { context < 4 }
        requires spec { IsContext spec }
        ensures { IfOk result (λ here. here ≡ first_here size context spec) }
    {
        let memory = ClientMemory::new(alloc, spec.memory)?;
        let direct = Direct::new(alloc, context, spec.width, spec.height)?;
        Ok(Here {
            size,
            context,
            direct,
            memory,
            shadow: Shadow::new(),
            batch: OpenBatch::first(),
        })
    }

    /// Its number.
    pub(crate) fn context(&self) -> u32
        ensures { result ≡ self.now.context }
    {
        self.context
    }

    /// The open batch.
    pub(crate) fn batch(&self) -> OpenBatch
        ensures { result ≡ self.now.batch }
    {
        self.batch
    }

    /// Passes a line, and gives its call, if it makes one. NoMemory passes none.
    pub(crate) fn pass<T: Threads + Sync>(
        &mut self,
        rt: &T,
        line: &Line,
    ) -> Result<Option<Entry>, NoMemory>
        requires line { IsLine line.now }
        requires number { self.old.batch.number < 2 ^ 32 }
        requires context { line.now.context ≡ self.old.context }
        ensures entry { IfOk result (λ entry. listed (option_map seen entry)
            ≡ entries_by self.old.size (reached self.old) self.old.batch
            line.now.number line.now.context line.now.act) }
        ensures past { OnOk result (self.new
            ≡ here_past self.old line.now.number line.now.context line.now.act) }
        ensures number { self.new.batch.number ≤ self.old.batch.number + 2 }
        ensures err { OnErr result (self.new ≡ self.old) }
    {
        match &line.act {
            Act::Mem { at, bytes } => {
                self.memory.write(u64::from(*at), bytes.as_slice());
                Ok(None)
            }
            Act::Image { .. } => Ok(None),
            Act::Gl(call) => {
                let entry = self.meet(rt, line.number, call)?;
                Ok(Some(entry))
            }
        }
    }

    /// Meets the call of a line: it is looked at as it stands, and then carried out, before all else that is changed here, since
    /// that may be refused memory.
    fn meet<T: Threads + Sync>(&mut self, rt: &T, line: u32, call: &Call) -> Result<Entry, NoMemory>
        requires number { self.old.batch.number < 2 ^ 32 }
        ensures entry { IfOk result (λ entry. seen entry
            ≡ entry_here self.old.size (reached self.old) self.old.batch
            line self.old.context call.now) }
        ensures past { OnOk result (self.new
            ≡ here_past self.old line self.old.context (Act.Gl call.now)) }
        ensures number { self.new.batch.number ≤ self.old.batch.number + 2 }
        ensures err { OnErr result (self.new ≡ self.old) }
    {
        let mut pieces = Pieces::new();
        let look = self.shadow.look(call, &self.memory, self.size, &mut pieces);
        let cause = cause(&self.shadow, call, &self.memory, self.size, &look);
        let before = self.direct.recorded();
        let met = self.direct.call(rt, call, &self.memory)?;
        note(
            &mut self.shadow,
            &mut self.memory,
            call,
            look.fault,
            &met.reply,
        );
        let ended = self.batch.take(self.size, &look.becomes);
        let fate = fate(&look.becomes, cause, &self.batch);
        let sent = self.batch.send(call, &look.becomes);
        Ok(Entry {
            line,
            context: self.context,
            call: *call,
            reply: printed_of(call, met.reply),
            error: recorded_beside(before, met.error),
            ended,
            fate,
            sent,
        })
    }
}

/// Takes the step of a call with this error, or none, on client memory, and writes its reply there.
fn note(
    shadow: &mut Shadow,
    memory: &mut ClientMemory,
    call: &Call,
    fault: Option<GlError>,
    reply: &Reply,
)
    requires fault { fault ≡ fault_of shadow.old call.now }
    ensures tracked { shadow.new ≡ tracked_after shadow.old call.now (memory_of memory.old) }
    ensures memory { memory.new
        ≡ memory_after shadow.old call.now (replied reply.now) memory.old }
{
    shadow.note(call, memory, fault);
    write_reply(memory, shadow.tracked(), call, reply);
}

/// The error of a call, if it has one, beside the one that is recorded already (section 2.5).
fn recorded_beside(before: Option<GlError>, error: Option<GlError>) -> Option<Recorded>
    ensures { result ≡ recorded_beside before error }
{
    match error {
        Some(error) => Some(Recorded { error, before }),
        None => None,
    }
}

/// The numbers that a report prints of a call's reply.
fn printed_of(call: &Call, reply: Reply) -> Printed
    ensures { printed_by result ≡ printed call.now (replied reply) }
{
    match answer_of(call, reply) {
        What::Answer { numbers, .. } => numbers,
        What::Image { .. } => unreachable!(),
    }
}
