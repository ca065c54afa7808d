//! Each public call once, over the driver that keeps the calls it met. Those of the form that may wait are in
//! `rail/waits.rt`.

ghost use Rattle.std.specs.Prelude.{◌≡◌, ◌<◌, IfOk};
ghost use Rattle.gl_tracked.specs.Tracked.{first_tracked};
ghost use Rattle.batch_rail.specs.Maker.{IsLaunched};

mod waits;

use batch_pack::Batch;
use batch_rail::{InlineMaker, JournalMaker, Rail, RailKind, RailMaker};
use driver_trait::{Driver, Recorder};
use gl_memory::{ClientMemory, Pieces};
use gl_words::Call;
use std::alloc::{AllocError, AllocError as NoMemory, Global};
use std::process::Abort;
use std::test::Fail;
use std::thread::Threads;

/// A rail with batches of 16 slots over a new recorder, by whichever maker.
fn rail_of_sixteen<M: RailMaker<Recorder>>(
    alloc: Global,
    maker: &mut M,
) -> Result<M::Made, NoMemory>
    ensures new { IfOk result
        (λ rail. (M.Made.home rail) × (M.Made.size rail ≡ 16) × (M.Made.sent rail ≡ 0)) }
{
    rail_over(alloc, maker, Recorder::new(alloc))
}

/// Takes a rail as a front does: no author of a driver or a maker proves more than that the driver is one of a new context.
fn taken<D: Driver, R: Rail<D>>(rail: R) -> R
    requires launched { IsLaunched D.tracked (R.stands rail) (R.failed rail) (R.home rail)
        (R.size rail) first_tracked }
    ensures { result ≡ rail }
{
    rail
}

/// A rail over any driver of a new context, as a front takes it.
fn rail_over<D: Driver, M: RailMaker<D>>(
    alloc: Global,
    maker: &mut M,
    driver: D,
) -> Result<M::Made, NoMemory>
    requires first { D.tracked driver ≡ first_tracked }
    ensures new { IfOk result
        (λ rail. (M.Made.home rail) × (M.Made.size rail ≡ 16) × (M.Made.sent rail ≡ 0)) }
{
    let Ok(rail) = maker.launch(alloc, 3, driver, 16, 4) else {
        return Err(AllocError);
    };
    Ok(taken(rail))
}

/// Submits each call in a batch of its own and an empty one between, and gives the recorder and how many there were.
fn carried_out<T: Threads + Sync, M: RailMaker<Recorder>>(
    rt: &T,
    alloc: Global,
    maker: &mut M,
    first: &Call,
    second: &Call,
) -> Result<(Recorder, u64), NoMemory> {
    let memory = ClientMemory::new(alloc, 0)?;
    let mut rail = rail_of_sixteen(alloc, maker)?;
    let mut batch = Batch::new(alloc, 16)?;
    if batch.try_pack(first, &Pieces::new(), &memory).is_err() {
        return Err(AllocError);
    }
    let empty = rail.submit(rt, batch);
    let mut batch = rail.submit(rt, empty);
    let driver = rail.take()?;
    rail.put(driver);
    if batch.try_pack(second, &Pieces::new(), &memory).is_err() {
        return Err(AllocError);
    }
    let _empty = rail.submit(rt, batch);
    let sent = rail.sent();
    Ok((maker.close(3, rail)?, sent))
}

#[test]
fn a_rail_carries_out_what_was_submitted_before_and_after_its_driver_was_taken(
    rt: HostRuntime,
) -> Result<(), Fail> {
    let mut maker = InlineMaker::new();
    let kind = RailMaker::<Recorder>::kind(&maker);
    assert_eq!(rt; kind, RailKind::Inline);
    let calls = [Call::Clear { mask: 1 }, Call::Flush];
    let (driver, sent) = carried_out(&rt, rt.alloc(), &mut maker, &calls[0], &calls[1])?;
    assert_eq!(rt; driver.calls(), calls.as_slice());
    assert_eq!(rt; sent, 3);
    let rail = rail_of_sixteen(rt.alloc(), &mut maker)?;
    assert_eq!(rt; rail.slots(), 16);
    Ok(())
}

// The slots are those of the tests of `batch_pack`.
#[test]
fn what_was_submitted_is_told_within_the_room(rt: HostRuntime) -> Result<(), Fail> {
    let mut maker = JournalMaker::new(rt.alloc(), RailKind::Inline, 3)?;
    let kind = RailMaker::<Recorder>::kind(&maker);
    assert_eq!(rt; kind, RailKind::Inline);
    let calls = [Call::Clear { mask: 1 }, Call::Flush];
    let (driver, sent) = carried_out(&rt, rt.alloc(), &mut maker, &calls[0], &calls[1])?;
    assert_eq!(rt; driver.calls(), calls.as_slice());
    assert_eq!(rt; sent, 3);
    tells(&rt, &maker, 3, &[&[0x2_0008, 1], &[], &[0x1_001c]]);
    let mut rail = rail_of_sixteen(rt.alloc(), &mut maker)?;
    assert!(rt; maker.journal(3).is_none(), "the rail has the list");
    let empty = rail.submit(&rt, Batch::new(rt.alloc(), 16)?);
    assert_eq!(rt; empty.used(), 0);
    let _driver = maker.close(3, rail)?;
    tells(&rt, &maker, 3, &[&[0x2_0008, 1], &[], &[0x1_001c], &[]]);
    let _more = carried_out(&rt, rt.alloc(), &mut maker, &calls[1], &calls[1])?;
    assert!(rt; maker.journal(3).is_none(), "5 slots are more than 3");
    tells(&rt, &maker, 2, &[]);
    Ok(())
}

/// A context has these batches, and no other.
fn tells(rt: &impl Abort, maker: &JournalMaker, context: u32, batches: &[&[u64]])
    requires { context < 4 }
{
    match maker.journal(context) {
        Some(mut told) => {
            for slots in batches {
                assert_eq!(rt; told.next(), Some(*slots));
            }
            assert!(rt; told.next().is_none());
        }
        None => panic!(rt; "not told"),
    }
}
