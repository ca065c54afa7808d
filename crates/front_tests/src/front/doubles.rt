//! A driver and a rail for tests.

ghost use Rattle.driver_trait.specs.Recorder.{RecorderSteps};
ghost use Rattle.driver_trait.specs.Recording.{recorder_is_driver};

use batch_pack::Batch;
use batch_rail::{Rail, RailState};
use driver_trait::{Driver, Machine, Recorder, Reply, WaitDriver};
use gl_memory::Memory;
use gl_words::Call;
use std::alloc::{AllocError, AllocError as NoMemory};
use std::marker::Model;
use std::sync::Wait;
use std::thread::Threads;

/// A recorder that is refused memory where it met as many calls as it has room for. It counts what it
/// was asked: the gets of tracked state too, which a recorder doesn't keep. It keeps what it saw of the memory of the last
/// call that it met: the bytes of the first 16 places.
#[derive(Drop)]
pub(super) struct Limited {
    pub(super) recorder: Recorder,
    pub(super) room: usize,
    pub(super) asked: u64,
    pub(super) seen: [u8; 16],
}

/// The bytes of a memory at its first 16 places.
fn first_bytes<M: Memory>(memory: &M) -> [u8; 16] {
    let mut bytes = [0; 16];
    for at in 0..16 {
        bytes[at] = memory.byte(at as u64);
    }
    bytes
}

impl Model for Limited {
    ghost use Rattle.driver_trait.specs.Recorder.{RecorderView};

    ghost Value = { RecorderView };

    ghost view = { λ l. l.recorder };
}

impl Machine for Limited {
    ghost tracked = { λ st. st.tracked };

    ghost steps = { RecorderSteps };

    ghost laws = { recorder_is_driver };
}

impl Driver for Limited {
    fn call<T: Threads + Sync, M: Memory>(
        &mut self,
        rt: &T,
        call: &Call,
        memory: &M,
    ) -> Result<Reply, NoMemory> {
        self.asked = self.asked.saturating_add(1);
        if self.recorder.calls().len() >= self.room {
            return Err(AllocError);
        }
        self.seen = first_bytes(memory);
        Driver::call(&mut self.recorder, rt, call, memory)
    }
}

impl WaitDriver for Limited {
    fn call<T: Threads + Sync, W: Wait, M: Memory>(
        &mut self,
        rt: &T,
        _wait: &W,
        call: &Call,
        memory: &M,
    ) -> Result<Reply, NoMemory> {
        Driver::call(self, rt, call, memory)
    }
}

/// A rail that counts how often `take` was called, and is else the rail inside.
#[derive(Drop)]
pub(super) struct Counting<R> {
    pub(super) inside: R,
    pub(super) takes: u64,
}

impl<D: Machine, R: RailState<D>> RailState<D> for Counting<R> {
    ghost stands = { λ rail. R.stands rail.inside };

    ghost failed = { λ rail. R.failed rail.inside };

    ghost home = { λ rail. R.home rail.inside };

    ghost taken = { λ rail. R.taken rail.inside };

    ghost size = { λ rail. R.size rail.inside };

    ghost sent = { λ rail. R.sent rail.inside };

    ghost journal = { λ rail. R.journal rail.inside };
}

impl<D: Driver, R: Rail<D>> Rail<D> for Counting<R> {
    fn submit<T: Threads + Sync>(&mut self, rt: &T, full: Batch) -> Batch {
        self.inside.submit(rt, full)
    }

    fn take(&mut self) -> Result<D, NoMemory> {
        self.takes = self.takes.saturating_add(1);
        self.inside.take()
    }

    fn put(&mut self, driver: D) {
        self.inside.put(driver);
    }

    fn slots(&self) -> u32 {
        self.inside.slots()
    }

    fn sent(&self) -> u64 {
        self.inside.sent()
    }
}
