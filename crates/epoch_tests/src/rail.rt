//! Rails with a worker, without one, and without threads at all.

ghost use Rattle.std.specs.Prelude.{◌≡◌};

use crate::batches::{Outcome, Plan, by_no_worker, by_part, by_workers};
use crate::doubles::Gate;
use crate::lent::lent_by_workers;
use batch_rail::InlineMaker;
use std::alloc::Global;
use std::process::Abort;
use std::sync::Arc;
use std::test::Fail;

/// A ring of this length before a driver with memory for each call.
fn ring_of(ring: u32) -> Plan
    ensures { result.ring ≡ ring }
{
    Plan {
        ring,
        room: 9,
        gated: false,
    }
}

/// Seven batches were carried out, as there.
fn alike(rt: &impl Abort, here: &Outcome, there: &Outcome) {
    assert!(rt; here.empty);
    assert!(rt; !here.refused);
    assert_eq!(rt; here.sent, 7);
    assert_eq!(rt; there.sent, 7);
    match (&here.driver, &there.driver) {
        (Some(one), Some(other)) => {
            assert_eq!(rt; one.recorder.calls(), other.recorder.calls());
            assert_eq!(rt; one.recorder.calls().len(), 7);
        }
        _ => panic!(rt; "closed without its driver"),
    }
}

/// Memory was refused in the second of seven batches, and no later one was carried out.
fn refused(rt: &impl Abort, done: &Outcome, gate: &Gate) {
    assert!(rt; done.empty);
    assert!(rt; done.refused);
    assert!(rt; done.driver.is_none());
    assert_eq!(rt; done.sent, 7);
    assert_eq!(rt; gate.met(), 2);
}

/// A rail that was lent for one batch: the batch was carried out, and nothing but this test has the gate any more, so neither
/// a driver nor a thread is left.
fn closed(rt: &impl Abort, gate: &Arc<Gate, Global>) {
    assert_eq!(rt; gate.met(), 1);
    assert_eq!(rt; Arc::strong_count(gate), 1);
}

#[test]
fn a_worker_carries_out_what_the_caller_would(rt: HostRuntime) -> Result<(), Fail> {
    let alloc = rt.alloc();
    let gate = Arc::new(alloc, Gate::new())?;
    let there = by_part(&rt, alloc, &mut InlineMaker::new(), ring_of(1), &gate)?;
    alike(&rt, &by_workers(rt, alloc, ring_of(1), &gate)?, &there);
    alike(&rt, &by_workers(rt, alloc, ring_of(2), &gate)?, &there);
    alike(&rt, &by_workers(rt, alloc, ring_of(64), &gate)?, &there);
    alike(&rt, &by_no_worker(&rt, alloc, ring_of(2), &gate)?, &there);
    Ok(())
}

#[test]
fn no_batch_is_carried_out_before_submit_returns(rt: HostRuntime) -> Result<(), Fail> {
    for ring in 1..4 {
        let plan = Plan {
            ring,
            room: 9,
            gated: true,
        };
        let gate = Arc::new(rt.alloc(), Gate::new())?;
        let done = by_workers(rt, rt.alloc(), plan, &gate)?;
        assert!(rt; done.driver.is_some());
        assert!(rt; !gate.is_late());
        assert_eq!(rt; gate.met(), 7);
    }
    Ok(())
}

#[test]
fn no_batch_is_carried_out_after_a_refusal(rt: HostRuntime) -> Result<(), Fail> {
    let alloc = rt.alloc();
    for ring in 1..4 {
        let plan = Plan {
            ring,
            room: 1,
            gated: false,
        };
        let gate = Arc::new(alloc, Gate::new())?;
        refused(&rt, &by_workers(rt, alloc, plan, &gate)?, &gate);
        let gate = Arc::new(alloc, Gate::new())?;
        refused(&rt, &by_no_worker(&rt, alloc, plan, &gate)?, &gate);
    }
    Ok(())
}

#[test]
fn a_lent_rail_is_closed_on_each_way_out(rt: HostRuntime) -> Result<(), Fail> {
    let alloc = rt.alloc();
    let gate = Arc::new(alloc, Gate::new())?;
    let (driver, sent) = lent_by_workers(rt, alloc, false, 9, &gate)?;
    assert_eq!(rt; sent, 1);
    assert_eq!(rt; driver.recorder.calls().len(), 1);
    drop(driver);
    closed(&rt, &gate);
    // its user gives up
    let gate = Arc::new(alloc, Gate::new())?;
    assert!(rt; lent_by_workers(rt, alloc, true, 9, &gate).is_err());
    closed(&rt, &gate);
    // its driver is refused memory
    let gate = Arc::new(alloc, Gate::new())?;
    assert!(rt; lent_by_workers(rt, alloc, false, 0, &gate).is_err());
    closed(&rt, &gate);
    Ok(())
}
