//! Calling a driver in either form, for code that is written once for both. What a call does is told by the driver.

ghost use Rattle.std.specs.Prelude.{◌≡◌, IfOk, OnErr};
ghost use Rattle.std.specs.Thread.{IsSync};
ghost use Rattle.driver_trait.specs.Reply.{replied};

use crate::driver::{Driver, Machine, WaitDriver};
use crate::reply::Reply;
use gl_memory::Memory;
use gl_words::Call;
use std::alloc::AllocError as NoMemory;
use std::sync::Wait;
use std::thread::Threads;

/// A way to call a driver, with what it may wait by; own.
pub trait Calls<W, D: Machine> {
    /// Carries a call out on a memory. Want of memory leaves the driver as it was.
    fn call<T: Threads + Sync, M: Memory>(
        driver: &mut D,
        rt: &T,
        wait: &W,
        call: &Call,
        memory: &M,
    ) -> Result<Reply, NoMemory>
        requires shared { IsSync T.row }
        ensures ok { IfOk result (λ reply.
            D.steps driver.old call.now (M.segments memory.now) driver.new (replied reply)) }
        ensures err { OnErr result (driver.new ≡ driver.old) };
}

/// Calls a driver that doesn't wait; own.
pub struct Plainly;

/// Calls a driver that may wait; own.
pub struct Waiting;

impl<W, D: Driver> Calls<W, D> for Plainly {
    fn call<T: Threads + Sync, M: Memory>(
        driver: &mut D,
        rt: &T,
        _wait: &W,
        call: &Call,
        memory: &M,
    ) -> Result<Reply, NoMemory> {
        driver.call(rt, call, memory)
    }
}

impl<W: Wait, D: WaitDriver> Calls<W, D> for Waiting {
    fn call<T: Threads + Sync, M: Memory>(
        driver: &mut D,
        rt: &T,
        wait: &W,
        call: &Call,
        memory: &M,
    ) -> Result<Reply, NoMemory> {
        driver.call(rt, wait, call, memory)
    }
}
