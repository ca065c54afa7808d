//! What stays in the process of runs whose batches workers carried out. No clause speaks of threads that ended, nor of
//! memory that was given back.

use crate::ways::{Outside, Ready, over_workers};
use replay_text::Status;
use std::alloc::{AllocError, Global};
use std::process::Abort;
use std::rt::Files;
use std::sync::Wait;
use std::test::Fail;
use std::thread::{Threads, yield_now};
use std::{fs, io};

/// One call, which a worker carries out. No rail is named.
const SHORT: &str = "glscript 1\ncontext 0 1 1 0\n0 Clear 0x4000\nend\n";

/// The number behind a name in the status of the process.
fn own_status<R: Files + AllocGlobal>(rt: &R, name: &str) -> io::Result<u64> {
    let text = fs::read_to_string(rt, "/proc/self/status")?;
    for line in text.as_str().lines() {
        if let Some(value) = line.strip_prefix(name) {
            let number = value.trim().split(' ').next().unwrap_or("");
            return Ok(number.parse::<u64>().unwrap_or(u64::MAX));
        }
    }
    Ok(u64::MAX)
}

/// How many threads the process has. One that was joined is counted for a moment yet, so this looks until there is one
/// alone, but not for ever.
fn threads_left<R: Files + AllocGlobal>(rt: &R) -> io::Result<u64> {
    for _ in 0..10_000 {
        if own_status(rt, "Threads:")? == 1 {
            return Ok(1);
        }
        yield_now();
    }
    own_status(rt, "Threads:")
}

/// Makes so many runs, one after another.
fn run_often<T: Threads + Wait + Copy + Send + Sync + Abort + 'static>(
    rt: T,
    alloc: Global,
    count: u32,
) -> Result<(), AllocError> {
    for run in 0..count {
        let sure = Outside::sure(alloc, 4096);
        let ready = Ready::new(alloc, "run", SHORT.as_bytes(), sure)?;
        let left = over_workers(rt, alloc, ready);
        assert_eq!(rt; left.status, Status::Ok, "run {run}");
        assert_eq!(rt;
            left.sink.bytes(),
            b"glreport 1\ncounts 0 1 0 0 1\nimages 1\nend\n".as_slice(),
            "run {run}"
        );
    }
    Ok(())
}

// A batch has 8,192 bytes, and a thread that stayed would keep some of its stack: of 10,000 runs either is far more than
// 4,096 kB. `rt try` keeps memory that was given back for a while, so this passes by `rt test` alone.
#[test]
fn ten_thousand_runs_leave_no_thread_and_no_growth_of_memory(rt: HostRuntime) -> Result<(), Fail> {
    run_often(rt, rt.alloc(), 200)?;
    assert_eq!(rt; threads_left(&rt)?, 1);
    let before = own_status(&rt, "VmRSS:")?;
    run_often(rt, rt.alloc(), 10_000)?;
    assert_eq!(rt; threads_left(&rt)?, 1);
    let after = own_status(&rt, "VmRSS:")?;
    assert!(rt;
        before > 0 && after < before.saturating_add(4096),
        "from {before} to {after} kB"
    );
    Ok(())
}
