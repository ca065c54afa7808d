//! A driver for tests: it keeps the calls that it met, and answers those that ask for tracked state.

ghost use Rattle.std.specs.Prelude.{◌≡◌, [], IfOk, OnErr};
ghost use Rattle.std.specs.Thread.{IsSync};
ghost use Rattle.driver_trait.specs.Recorder.{RecorderSteps, recorded_after, recorder_reply};
ghost use Rattle.driver_trait.specs.Reply.{replied};
ghost use Rattle.gl_tracked.specs.Tracked.{first_tracked};
ghost use Rattle.driver_trait.specs.Recording.{recorder_is_driver};

use crate::driver::{Driver, Machine, WaitDriver};
use crate::reply::Reply;
use gl_memory::Memory;
use gl_tracked::{Finding, Tracked};
use gl_words::Call;
use std::alloc::{AllocError as NoMemory, Global};
use std::marker::Model;
use std::sync::Wait;
use std::thread::Threads;

/// Tracked state, and the calls that were met, those that ask for tracked state aside; own.
#[derive(Drop)]
pub struct Recorder {
    tracked: Tracked,
    calls: Vec<Call>,
}

impl Model for Recorder {
    ghost use Rattle.driver_trait.specs.Recorder.{RecorderView};

    ghost Value = { RecorderView };

    ghost view = { λ r. record { tracked = r.tracked; calls = r.calls.items } };
}

impl Recorder {
    /// A recorder that met no call. It takes no memory. Own.
    pub fn new(alloc: Global) -> Recorder
        ensures { result ≡ record { tracked = first_tracked; calls = [] } }
    {
        Recorder {
            tracked: Tracked::first(),
            calls: Vec::new(alloc),
        }
    }

    /// The calls that it met, in order. Own.
    pub fn calls(&self) -> &[Call]
        ensures { result.now ≡ self.now.calls }
    {
        self.calls.as_slice()
    }

    /// Keeps a call, or answers it.
    fn meet<M: Memory>(&mut self, call: &Call, memory: &M) -> Result<Reply, NoMemory>
        ensures ok { IfOk result (λ reply. RecorderSteps self.old call.now
            (M.segments memory.now) self.new (replied reply)) }
        ensures err { OnErr result (self.new ≡ self.old) }
    {
        match self.tracked.finding(call) {
            Finding::Number(number) => Ok(Reply::One(number)),
            Finding::Fault(fault) => {
                self.calls.push(*call)?;
                self.tracked.note(call, memory, fault);
                Ok(Reply::Nothing)
            }
        }
    }
}

impl Machine for Recorder {
    ghost tracked = { λ st. st.tracked };

    ghost steps = { RecorderSteps };

    ghost laws = { recorder_is_driver };
}

impl Driver for Recorder {
    fn call<T: Threads + Sync, M: Memory>(
        &mut self,
        _rt: &T,
        call: &Call,
        memory: &M,
    ) -> Result<Reply, NoMemory> {
        self.meet(call, memory)
    }
}

impl WaitDriver for Recorder {
    fn call<T: Threads + Sync, W: Wait, M: Memory>(
        &mut self,
        _rt: &T,
        _wait: &W,
        call: &Call,
        memory: &M,
    ) -> Result<Reply, NoMemory> {
        self.meet(call, memory)
    }
}
