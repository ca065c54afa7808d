//! A driver for tests, with a gate at which its calls wait.

ghost use Rattle.driver_trait.specs.Recorder.{RecorderSteps};
ghost use Rattle.driver_trait.specs.Recording.{recorder_is_driver};

use driver_trait::{Machine, Recorder, Reply, WaitDriver};
use gl_memory::Memory;
use gl_words::Call;
use std::alloc::{AllocError, AllocError as NoMemory, Global};
use std::marker::Model;
use std::sync::atomic::{AtomicBool, AtomicU64, Ordering};
use std::sync::{Arc, Wait};
use std::thread::{Threads, yield_now};

/// How many turns a call waits at the gate. A caller that opens it gets on long before, so a call that has waited so long
/// was carried out by the caller itself.
const TURNS: u32 = 50_000_000;

/// What a test and its driver both see.
#[derive(Drop)]
pub(super) struct Gate {
    open: AtomicBool,
    late: AtomicBool,
    met: AtomicU64,
}

impl Gate {
    /// A gate that is open, and that no call met.
    pub(super) fn new() -> Gate {
        Gate {
            open: AtomicBool::new(true),
            late: AtomicBool::new(false),
            met: AtomicU64::new(0),
        }
    }

    /// Opens or shuts the gate.
    pub(super) fn set(&self, open: bool) {
        self.open.store(open, Ordering::SeqCst);
    }

    /// Whether a call waited as long as it may.
    pub(super) fn is_late(&self) -> bool {
        self.late.load(Ordering::SeqCst)
    }

    /// How many calls came, also those that were refused.
    pub(super) fn met(&self) -> u64 {
        self.met.load(Ordering::SeqCst)
    }

    /// A call comes, and goes on once the gate is open.
    fn pass(&self) {
        self.met.fetch_add(1, Ordering::SeqCst);
        for _ in 0..TURNS {
            if self.open.load(Ordering::SeqCst) || self.is_late() {
                return;
            }
            yield_now();
        }
        self.late.store(true, Ordering::SeqCst);
    }
}

/// A recorder that is refused memory where it met as many calls as it has room for, and whose calls wait at a gate.
#[derive(Drop)]
pub(super) struct Limited {
    pub(super) recorder: Recorder,
    pub(super) room: usize,
    pub(super) gate: Arc<Gate, Global>,
}

impl Limited {
    /// One that met no call.
    pub(super) fn new(
        alloc: Global,
        room: usize,
        gate: &Arc<Gate, Global>,
    ) -> Result<Limited, NoMemory> {
        let gate = Arc::try_clone(gate)?;
        Ok(Limited {
            recorder: Recorder::new(alloc),
            room,
            gate,
        })
    }
}

impl Model for Limited {
    ghost use Rattle.driver_trait.specs.Recorder.{RecorderView};

    ghost Value = { RecorderView };

    ghost view = { λ l. l.recorder };
}

impl Machine for Limited {
    ghost tracked = { λ st. st.tracked };

    ghost steps = { RecorderSteps };

    ghost laws = { recorder_is_driver };
}

impl WaitDriver for Limited {
    fn call<T: Threads + Sync, W: Wait, M: Memory>(
        &mut self,
        rt: &T,
        wait: &W,
        call: &Call,
        memory: &M,
    ) -> Result<Reply, NoMemory> {
        self.gate.pass();
        if self.recorder.calls().len() >= self.room {
            return Err(AllocError);
        }
        WaitDriver::call(&mut self.recorder, rt, wait, call, memory)
    }
}
