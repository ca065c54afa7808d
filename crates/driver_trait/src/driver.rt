//! What carries calls out. What a driver *means* is a trait without functions, how it is called is one over it.

ghost use Rattle.std.specs.Prelude.{◌≡◌, List, IfOk, OnErr};
ghost use Rattle.std.specs.Thread.{IsSync};
ghost use Rattle.gl_words.specs.declared.call.Call.{Call};
ghost use Rattle.gl_memory.specs.Segment.{Segment};
ghost use Rattle.gl_tracked.specs.declared.tracked.Tracked.{Tracked};
ghost use Rattle.driver_trait.specs.Reply.{Replied, replied};
ghost use Rattle.driver_trait.specs.Driver.{IsDriver};

use crate::reply::Reply;
use gl_memory::Memory;
use gl_words::Call;
use std::alloc::AllocError as NoMemory;
use std::sync::Wait;
use std::thread::Threads;

/// A driver as its states, and what a call may do to them; own.
pub trait Machine: Drop {
    /// The tracked part of a state.
    ghost tracked: { Self → Tracked };

    /// A call on a memory may lead from a state to a state, with a reply.
    ghost steps: { Self → Call → List Segment → Self → Replied → Type 0 };

    /// What every driver keeps.
    ghost laws: { IsDriver tracked steps };
}

/// A driver whose calls return. Own.
pub trait Driver: Machine {
    /// Carries a call out on a memory. Want of memory leaves the driver as it was.
    fn call<T: Threads + Sync, M: Memory>(
        &mut self,
        rt: &T,
        call: &Call,
        memory: &M,
    ) -> Result<Reply, NoMemory>
        requires shared { IsSync T.row }
        ensures ok { IfOk result (λ reply.
            Self.steps self.old call.now (M.segments memory.now) self.new (replied reply)) }
        ensures err { OnErr result (self.new ≡ self.old) };
}

/// A driver whose calls may wait, with the states and the relation of [`Machine`]. Own.
pub trait WaitDriver: Machine {
    /// Carries a call out on a memory. Want of memory leaves the driver as it was.
    fn call<T: Threads + Sync, W: Wait, M: Memory>(
        &mut self,
        rt: &T,
        wait: &W,
        call: &Call,
        memory: &M,
    ) -> Result<Reply, NoMemory>
        requires shared { IsSync T.row }
        ensures ok { IfOk result (λ reply.
            Self.steps self.old call.now (M.segments memory.now) self.new (replied reply)) }
        ensures err { OnErr result (self.new ≡ self.old) };
}
