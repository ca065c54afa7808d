//! A driver that counts clears. No pixel stands here, and most gets beside tracked state are answered with nothing.

ghost use Rattle.std.specs.Prelude.{◌≡◌, None, IfOk, IsOk, OnErr};
ghost use Rattle.std.specs.Thread.{IsSync};
ghost use Rattle.driver_trait.specs.Reply.{replied};
ghost use Rattle.example_driver.specs.Counter.{CounterSteps, answer_of, clears_after, code_of_error, counter_reply, first_counter, recorded_after};
ghost use Rattle.example_driver.specs.Laws.{counter_is_driver};

use driver_trait::{Driver, Machine, Reply};
use gl_memory::Memory;
use gl_tracked::{Finding, Tracked};
use gl_words::{Call, GlError};
use std::alloc::AllocError as NoMemory;
use std::thread::Threads;

/// How far clears are counted: the largest number that GetIntegerv writes into four bytes with a sign.
const MOST_CLEARS: u32 = 0x7FFF_FFFF;

/// The name under which the count is asked for, MAX_TEXTURE_SIZE: an untracked name, so that the driver is asked.
const COUNT_NAME: u32 = 0x0D33;

/// Tracked state, which each driver keeps, and two parts of its own; own.
#[derive(Drop)]
pub struct Counter {
    pub tracked: Tracked,
    /// The recorded error (section 2.5).
    pub recorded: Option<GlError>,
    /// How many Clear calls without an error there were, at most 2,147,483,647.
    pub clears: u32,
}

impl Counter {
    /// The driver of a new context. It takes no memory; own.
    pub fn new() -> Counter
        ensures { result ≡ first_counter }
    {
        Counter {
            tracked: Tracked::first(),
            recorded: None,
            clears: 0,
        }
    }

    /// What a call that asks for no tracked state replies, with this error or none.
    fn reply(&self, call: &Call, fault: Option<GlError>) -> Reply
        ensures { replied result ≡ counter_reply fault self.now call.now }
    {
        match fault {
            Some(_) => Reply::Nothing,
            None => self.answer(call),
        }
    }

    /// What such a call replies where it has no error.
    fn answer(&self, call: &Call) -> Reply
        ensures { replied result ≡ answer_of self.now call.now }
    {
        match call {
            Call::GetError => Reply::One(code_of_error(self.recorded)),
            Call::GetIntegerv { pname, .. } if *pname == COUNT_NAME => {
                Reply::One(i64::from(self.clears))
            }
            _ => Reply::Nothing,
        }
    }
}

impl Machine for Counter {
    ghost tracked = { λ st. st.tracked };

    ghost steps = { CounterSteps };

    ghost laws = { counter_is_driver };
}

impl Driver for Counter {
    /// Carries a call out. It takes no memory, and so is never refused.
    fn call<T: Threads + Sync, M: Memory>(
        &mut self,
        _rt: &T,
        call: &Call,
        memory: &M,
    ) -> Result<Reply, NoMemory>
        ensures ok { IfOk result
            (λ reply. CounterSteps self.old call.now (M.segments memory.now) self.new (replied reply)) }
        ensures err { OnErr result (self.new ≡ self.old) }
        ensures granted { IsOk result }
    {
        // Gets of tracked state first: they change nothing, and nothing below has to think of them.
        let fault = match self.tracked.finding(call) {
            Finding::Number(number) => return Ok(Reply::One(number)),
            Finding::Fault(fault) => fault,
        };
        // The reply before the state: GetError gives the error that it forgets.
        let reply = self.reply(call, fault);
        self.recorded = recorded_after(self.recorded, call, fault);
        self.clears = clears_after(self.clears, call, fault);
        self.tracked.note(call, memory, fault);
        Ok(reply)
    }
}

/// The recorded error after a call: the first stays until GetError asks for it (section 2.5).
fn recorded_after(recorded: Option<GlError>, call: &Call, fault: Option<GlError>) -> Option<GlError>
    ensures { result ≡ recorded_after fault recorded call.now }
{
    match (fault, recorded) {
        (Some(error), None) => Some(error),
        (Some(_), Some(first)) => Some(first),
        (None, recorded) => match call {
            Call::GetError => None,
            _ => recorded,
        },
    }
}

/// The count after a call. A call with an error does nothing.
fn clears_after(clears: u32, call: &Call, fault: Option<GlError>) -> u32
    ensures { result ≡ clears_after fault clears call.now }
{
    match (fault, call) {
        (None, Call::Clear { .. }) if clears < MOST_CLEARS => clears + 1,
        _ => clears,
    }
}

/// The number of a recorded error, 0 where there is none (section 2.5).
fn code_of_error(recorded: Option<GlError>) -> i64
    ensures { result ≡ code_of_error recorded }
{
    match recorded {
        Some(error) => i64::from(error.code()),
        None => 0,
    }
}
