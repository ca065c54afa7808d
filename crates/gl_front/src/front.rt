//! The core of a front: the part of the layer that a program calls, written once for rails whose calls return and for rails
//! whose calls may wait. It has no driver, and reaches one through its rail.

ghost use Rattle.std.specs.Prelude.{◌≡◌, ◌^◌, ◌<◌, [], Some, true, false, is_some, IsErr, IfOk, IfErr, OnOk, OnErr};
ghost use Rattle.gl_words.specs.Call.{is_answering, IsInRange};
ghost use Rattle.batch_pack.specs.Batch.{IsBatchSize, captured};
ghost use Rattle.batch_pack.specs.Heading.{IsHeadingOf};
ghost use Rattle.client_shadow.specs.declared.class.Class.TheVariants.{Answer, Sync, Defer};
ghost use Rattle.client_shadow.specs.Class.{pieces_of};
ghost use Rattle.client_shadow.specs.Look.{Captures, HasHeading, asks_in, class_in, number_in};
ghost use Rattle.gl_tracked.specs.Fault.{fault_of};
ghost use Rattle.gl_tracked.specs.Step.{number_asked, tracked_after};
ghost use Rattle.gl_tracked.specs.Tracked.{first_tracked};
ghost use Rattle.driver_trait.specs.Output.{memory_after};
ghost use Rattle.driver_trait.specs.Reply.{Nothing, replied};
ghost use Rattle.gl_memory.specs.ClientMemory.{memory_of, written};
ghost use Rattle.batch_rail.specs.Maker.{IsLaunched};
ghost use Rattle.gl_front.specs.Front.{FrontView, new_front, KnowsTracked, class_at, AllHaveRoom, CanRise};
ghost use Rattle.gl_front.specs.Given.{given_by};
ghost use Rattle.gl_front.specs.Taking.{TakesCall, IsIssued, IsAnswered, HasWaited, Flushes, RefusesCall, KeepsCount};

use crate::counts::Counts;
use crate::reach::Reach;
use crate::steps::{put_off, submit_open};
use batch_pack::{Batch, Heading};
use batch_rail::RailState;
use client_shadow::{Becomes, Class, Look, Shadow};
use driver_trait::{Machine, Reply, write_reply};
use gl_memory::{ClientMemory, Pieces};
use gl_words::{Call, GlError};
use std::alloc::{AllocError, AllocError as NoMemory, Global};
use std::marker::{Model, PhantomData};
use std::thread::Threads;

/// A front over a rail that is reached as `H` reaches it; own. Contracts see its rail, the size of its batches in slots, the
/// calls of its open batch with what was captured for them, the bytes of client memory, the tracked state, whether an issue
/// was refused, and its counts.
#[derive(Drop)]
pub struct Core<D: Machine, R: RailState<D>, H> {
    rail: R,
    batch: Option<Batch>,
    memory: ClientMemory,
    shadow: Shadow,
    refused: bool,
    counts: Counts,
    driver: PhantomData<D>,
    reach: PhantomData<H>,
}

impl<D: Machine, R: RailState<D>, H> Model for Core<D, R, H> {
    ghost use Rattle.gl_front.specs.Front.{FrontView, KnowsTracked};
    ghost use Rattle.gl_front.specs.FrontState.{open_calls, IsReady};

    ghost Value = { FrontView R };

    ghost view = { λ f. record {
      rail = f.rail;
      size = R.size f.rail;
      calls = open_calls f.batch;
      memory = f.memory;
      tracked = f.shadow;
      refused = f.refused;
      counts = f.counts;
    } };

    ghost invariant = { λ f. IsReady (R.home f.rail) (R.size f.rail) f.batch
        × KnowsTracked D.tracked R.stands D.steps (record {
          rail = f.rail;
          size = R.size f.rail;
          calls = open_calls f.batch;
          memory = f.memory;
          tracked = f.shadow;
          refused = f.refused;
          counts = f.counts;
        }) };
}

impl<D: Machine, R: RailState<D>, H> Core<D, R, H> {
    /// A front over a rail with batches of so many slots, as it is launched, and over client memory. Want of memory gives
    /// both back.
    pub(crate) fn over(
        alloc: Global,
        rail: R,
        slots: u32,
        memory: ClientMemory,
    ) -> Result<Self, (R, ClientMemory, NoMemory)>
        requires size { slots ≡ R.size rail }
        requires launched { IsLaunched D.tracked (R.stands rail) (R.failed rail) (R.home rail)
            (R.size rail) first_tracked }
        ensures ok { IfOk result (λ front. front ≡ new_front rail (R.size rail) memory) }
        ensures err { IfErr result (λ refusal. (refusal.0 ≡ rail) × (refusal.1 ≡ memory)) }
    {
        match Batch::new(alloc, slots) {
            Ok(batch) => Ok(Core {
                rail,
                batch: Some(batch),
                memory,
                shadow: Shadow::new(),
                refused: false,
                counts: Counts {
                    deferred: 0,
                    synchronised: 0,
                    answered: 0,
                    batches: 0,
                },
                driver: PhantomData,
                reach: PhantomData,
            }),
            Err(refusal) => Err((rail, memory, refusal)),
        }
    }

    /// The class of a call, by the tracked state, client memory and the size of batches. It takes no memory; own.
    pub fn class(&self, call: &Call) -> Class
        ensures { result ≡ class_at self.now call.now }
    {
        self.shadow.class(call, &self.memory, self.slots())
    }

    /// The size of its batches, in slots: that of its rail; own.
    pub fn slots(&self) -> u32
        ensures size { result ≡ self.now.size }
        ensures rail { R.size self.now.rail ≡ self.now.size }
        ensures bounds { IsBatchSize self.now.size }
    {
        let Some(batch) = &self.batch else {
            unreachable!()
        };
        batch.size()
    }

    /// Does nothing. Its contract is that the front keeps the tracked part of each state for which it may stand; own.
    pub fn knows_tracked(&self)
        ensures { KnowsTracked D.tracked R.stands D.steps self.now }
    {
        let _rail = &self.rail;
    }

    /// Issues a call as `Front::issue` and `WaitFront::issue` do, and is refused where they are, for code that is written
    /// once for both. It waits by `wait`, where `H` waits; own.
    pub fn issue_by<T: Threads + Sync, W>(
        &mut self,
        rt: &T,
        wait: &W,
        call: &Call,
    ) -> Result<Option<Reply>, NoMemory>
    where
        H: Reach<W, D, R>,
        requires counts { AllHaveRoom self.old.counts }
        requires sent { CanRise (R.sent self.old.rail) }
        ensures ok { IfOk result (λ given. TakesCall R.stands R.failed R.journal R.sent D.steps
            self.old self.new call.now (given_by given)) }
        ensures issued { IfOk result (λ given. IsIssued R.stands R.failed D.steps
            self.old self.new call.now (given_by given)) }
        ensures asked { IfOk result (λ given. is_some given ≡ is_answering call.now) }
        ensures err { OnErr result (RefusesCall R.stands R.failed R.journal R.sent D.steps
            self.old self.new call.now) }
        ensures idle { self.old.refused ≡ true → IsErr result × (self.new ≡ self.old) }
        ensures rises { KeepsCount R.sent self.old self.new }
    {
        if self.refused {
            return Err(AllocError);
        }
        let mut pieces = Pieces::new();
        let look = self.look(call, &mut pieces);
        match look.becomes {
            Becomes::Defer { heading } => {
                self.put_off(rt, wait, call, &pieces, heading, look.fault);
                Ok(None)
            }
            Becomes::Answer(number) => Ok(Some(self.answer(call, number))),
            Becomes::Sync { asks } => self.synchronise(rt, wait, call, asks, look.fault),
        }
    }

    /// Looks at a call, once for all that is done with it, and puts what it finds of client memory into an empty list.
    fn look(&self, call: &Call, pieces: &mut Pieces) -> Look
        requires empty { pieces.old ≡ [] }
        ensures class { class_in result.becomes ≡ class_at self.now call.now }
        ensures number { number_in result.becomes ≡ number_asked self.now.tracked call.now }
        ensures pieces { Captures result.becomes pieces.new
            (pieces_of self.now.tracked call.now (memory_of self.now.memory)) }
        ensures heading { HasHeading result.becomes call.now pieces.new self.now.memory }
        ensures asks { asks_in result.becomes ≡ is_answering call.now }
        ensures fault { result.fault ≡ fault_of self.now.tracked call.now }
        ensures in_range { IsInRange call.now }
    {
        self.shadow.look(call, &self.memory, self.slots(), pieces)
    }

    /// Answers a call with the number that is known, and writes it. Such a call leaves the tracked state.
    fn answer(&mut self, call: &Call, number: i64) -> Reply
        requires in_range { IsInRange call.now }
        requires asked { number_asked self.old.tracked call.now ≡ Some number }
        requires counts { CanRise self.old.counts.answered }
        ensures taken { TakesCall R.stands R.failed R.journal R.sent D.steps
            self.old self.new call.now (replied result) }
        ensures answered { IsAnswered self.old self.new call.now (replied result) }
        ensures rises { KeepsCount R.sent self.old self.new }
    {
        self.memory.bytes();
        self.counts.answered += 1;
        let reply = Reply::One(number);
        write_reply(&mut self.memory, self.shadow.tracked(), call, &reply);
        reply
    }

    /// Puts a call that doesn't wait into a batch.
    pub(crate) fn defer_by<T: Threads + Sync, W>(&mut self, rt: &T, wait: &W, call: &Call)
    where
        H: Reach<W, D, R>,
        requires class { class_at self.old call.now ≡ Defer }
        requires deferred { CanRise self.old.counts.deferred }
        requires batches { CanRise self.old.counts.batches }
        requires sent { CanRise (R.sent self.old.rail) }
        ensures taken { TakesCall R.stands R.failed R.journal R.sent D.steps
            self.old self.new call.now Nothing }
        ensures rises { KeepsCount R.sent self.old self.new }
    {
        let mut pieces = Pieces::new();
        let look = self.look(call, &mut pieces);
        match look.becomes {
            Becomes::Defer { heading } => {
                self.put_off(rt, wait, call, &pieces, heading, look.fault);
            }
            Becomes::Answer(_) | Becomes::Sync { .. } => unreachable!(),
        }
    }

    /// Puts a call into a batch with the pieces that are captured for it, its spelling having this heading, and notes it.
    fn put_off<T: Threads + Sync, W>(
        &mut self,
        rt: &T,
        wait: &W,
        call: &Call,
        pieces: &Pieces,
        heading: Heading,
        fault: Option<GlError>,
    )
    where
        H: Reach<W, D, R>,
        requires in_range { IsInRange call.now }
        requires class { class_at self.old call.now ≡ Defer }
        requires pieces { pieces.now
            ≡ pieces_of self.old.tracked call.now (memory_of self.old.memory) }
        requires heading { IsHeadingOf heading (captured call.now pieces.now self.old.memory) }
        requires fault { fault ≡ fault_of self.old.tracked call.now }
        requires deferred { CanRise self.old.counts.deferred }
        requires batches { CanRise self.old.counts.batches }
        requires sent { CanRise (R.sent self.old.rail) }
        ensures taken { TakesCall R.stands R.failed R.journal R.sent D.steps
            self.old self.new call.now Nothing }
        ensures rises { KeepsCount R.sent self.old self.new }
    {
        self.memory.bytes();
        let sent = put_off::<H, W, T, D, R>(
            rt,
            wait,
            &mut self.rail,
            &mut self.batch,
            call,
            pieces,
            &self.memory,
            heading,
        );
        self.counts.deferred += 1;
        self.counts.batches += sent;
        self.shadow.note(call, &self.memory, fault);
    }

    /// Has all calls before a call carried out, and then it. Gives its reply where it asks for something.
    fn synchronise<T: Threads + Sync, W>(
        &mut self,
        rt: &T,
        wait: &W,
        call: &Call,
        asks: bool,
        fault: Option<GlError>,
    ) -> Result<Option<Reply>, NoMemory>
    where
        H: Reach<W, D, R>,
        requires in_range { IsInRange call.now }
        requires class { class_at self.old call.now ≡ Sync }
        requires asks { asks ≡ is_answering call.now }
        requires fault { fault ≡ fault_of self.old.tracked call.now }
        requires synchronised { CanRise self.old.counts.synchronised }
        requires batches { CanRise self.old.counts.batches }
        requires sent { CanRise (R.sent self.old.rail) }
        ensures ok { IfOk result (λ given. TakesCall R.stands R.failed R.journal R.sent D.steps
            self.old self.new call.now (given_by given)) }
        ensures waited { IfOk result (λ given. HasWaited R.stands R.failed D.steps
            self.old self.new call.now (given_by given)) }
        ensures asked { IfOk result (λ given. is_some given ≡ asks) }
        ensures err { OnErr result (RefusesCall R.stands R.failed R.journal R.sent D.steps
            self.old self.new call.now) }
        ensures rises { KeepsCount R.sent self.old self.new }
    {
        self.memory.bytes();
        self.flush_by(rt, wait);
        let carried = H::carry_out(&mut self.rail, rt, wait, call, &self.memory);
        match carried {
            Ok(reply) => {
                self.counts.synchronised += 1;
                Ok(take_reply(&mut self.shadow, &mut self.memory, call, asks, reply, fault))
            }
            Err(refusal) => {
                self.refused = true;
                Err(refusal)
            }
        }
    }

    /// Submits the open batch, unless it is empty.
    pub(crate) fn flush_by<T: Threads + Sync, W>(&mut self, rt: &T, wait: &W)
    where
        H: Reach<W, D, R>,
        requires batches { CanRise self.old.counts.batches }
        requires sent { CanRise (R.sent self.old.rail) }
        ensures flushed { Flushes R.stands R.failed R.journal R.sent D.steps self.old self.new }
        ensures kept { self.old.calls ≡ [] → self.new.rail ≡ self.old.rail }
        ensures rises { KeepsCount R.sent self.old self.new }
    {
        let sent = submit_open::<H, W, T, D, R>(rt, wait, &mut self.rail, &mut self.batch);
        self.counts.batches += sent;
    }

    /// Submits the open batch and waits until all are carried out. Refused only where one failed.
    pub(crate) fn finish_by<T: Threads + Sync, W>(
        &mut self,
        rt: &T,
        wait: &W,
    ) -> Result<(), NoMemory>
    where
        H: Reach<W, D, R>,
        requires batches { CanRise self.old.counts.batches }
        requires sent { CanRise (R.sent self.old.rail) }
        ensures flushed { Flushes R.stands R.failed R.journal R.sent D.steps self.old self.new }
        ensures sound { OnOk result (¬ R.failed self.new.rail) }
        ensures err { OnErr result (R.failed self.new.rail) }
        ensures rises { KeepsCount R.sent self.old self.new }
    {
        self.flush_by(rt, wait);
        H::await_all(&mut self.rail, rt, wait)
    }

    /// Writes bytes into client memory from the place `at` on. Those that fall outside are dropped; own.
    pub fn write_memory(&mut self, at: u64, bytes: &[u8])
        requires place { at < 2 ^ 62 }
        ensures { self.new ≡ record self.old { memory = written self.old.memory at bytes.now } }
    {
        self.memory.write(at, bytes);
    }

    /// Client memory; own.
    pub fn memory(&self) -> &ClientMemory
        ensures { result.now ≡ self.now.memory }
    {
        &self.memory
    }

    /// How many calls and batches there were; own.
    pub fn counts(&self) -> Counts
        ensures { result ≡ self.now.counts }
    {
        self.counts
    }

    /// The rail, whose driver isn't taken, and client memory; own.
    pub fn into_parts(self) -> (R, ClientMemory)
        requires open_batch { self.calls ≡ [] }
        ensures rail { result.0 ≡ self.rail }
        ensures memory { result.1 ≡ self.memory }
        ensures home { R.home result.0 }
    {
        let Core { rail, memory, .. } = self;
        (rail, memory)
    }
}

/// Takes what a call replied that waited. The reply of one that asks for something is written into client memory, and given:
/// the tracked state stays there. One that asks for nothing is noted, with its error.
#[tactic(auto, unfolding(driver_trait::specs::Output::memory_after))]
fn take_reply(
    shadow: &mut Shadow,
    memory: &mut ClientMemory,
    call: &Call,
    asks: bool,
    reply: Reply,
    fault: Option<GlError>,
) -> Option<Reply>
    requires asks { asks ≡ is_answering call.now }
    requires fault { fault ≡ fault_of shadow.old call.now }
    requires silent { is_answering call.now ≡ false → replied reply ≡ Nothing }
    ensures given { given_by result ≡ replied reply }
    ensures asked { is_some result ≡ asks }
    ensures tracked { shadow.new ≡ tracked_after shadow.old call.now (memory_of memory.old) }
    ensures memory { memory.new ≡ memory_after shadow.old call.now (replied reply) memory.old }
{
    if asks {
        write_reply(memory, shadow.tracked(), call, &reply);
        Some(reply)
    } else {
        shadow.note(call, memory, fault);
        None
    }
}
