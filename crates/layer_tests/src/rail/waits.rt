//! The rails without threads in the form that may wait, by the parts of their makers.

ghost use Rattle.std.specs.Prelude.{◌≡◌, [], ◌∷◌, IfOk};
ghost use Rattle.driver_trait.specs.Recorder.{RecorderSteps};
ghost use Rattle.batch_rail.specs.Run.{Run};

use super::tells;
use batch_pack::Batch;
use batch_rail::{
    InlineMaker, JournalMaker, RailKind, RailLender, RailUser, WaitMaker, WaitPart, WaitRail,
};
use driver_trait::Recorder;
use gl_memory::{ClientMemory, Pieces};
use gl_words::Call;
use std::alloc::{AllocError, AllocError as NoMemory, Global};
use std::sync::Wait;
use std::test::Fail;
use std::thread::{Threads, join};

/// Submits each call in a batch of its own and an empty one between, over a rail of this part, and gives the recorder
/// and how many there were.
fn carried_out<T: Threads + Sync, W: Wait, P: WaitPart<Recorder>>(
    rt: &T,
    wait: &W,
    alloc: Global,
    part: &mut P,
    first: &Call,
    second: &Call,
) -> Result<(Recorder, u64), NoMemory> {
    let memory = ClientMemory::new(alloc, 0)?;
    let mut batch = Batch::new(alloc, 16)?;
    if batch.try_pack(first, &Pieces::new(), &memory).is_err() {
        return Err(AllocError);
    }
    let Ok(mut rail) = part.launch(rt, wait, alloc, Recorder::new(alloc), 16, 4) else {
        return Err(AllocError);
    };
    let empty = rail.submit(rt, wait, batch);
    let mut batch = rail.submit(rt, wait, empty);
    let driver = rail.take(rt, wait)?;
    rail.put(rt, wait, driver);
    if batch.try_pack(second, &Pieces::new(), &memory).is_err() {
        return Err(AllocError);
    }
    let _empty = rail.submit(rt, wait, batch);
    let sent = rail.sent();
    Ok((part.close(rt, wait, rail)?, sent))
}

/// The same over a part that is split from its maker, and joined again.
fn carried_out_by_a_part<T: Threads + Sync, W: Wait, M: WaitMaker<Recorder>>(
    rt: &T,
    wait: &W,
    alloc: Global,
    maker: &mut M,
    first: &Call,
    second: &Call,
) -> Result<(Recorder, u64), NoMemory> {
    let mut part = maker.split(3);
    let done = carried_out(rt, wait, alloc, &mut part, first, second);
    maker.join(3, part);
    done
}

/// Submits one batch.
#[derive(Drop)]
struct Submitting {
    batch: Batch,
}

impl RailUser<Recorder> for Submitting {
    type Out = u64;

    ghost ready = { λ user slots driver. user.batch.size ≡ slots };

    ghost leads = { λ user slots sent before batches after. (sent ≡ 1)
        × (batches ≡ user.batch.calls ∷ []) × Run RecorderSteps before user.batch.calls after };

    fn use_rail<T: Threads + Sync, W: Wait, R: WaitRail<Recorder>>(
        self,
        rt: &T,
        wait: &W,
        _alloc: Global,
        rail: R,
        _slots: u32,
    ) -> (R, Result<u64, NoMemory>) {
        let mut rail = rail;
        let _empty = rail.submit(rt, wait, self.batch);
        let sent = rail.sent();
        (rail, Ok(sent))
    }
}

/// What a part gives back, with the recorder that it was lent a rail for, and how many batches were sent.
type Lent<P> = (P, Result<(Recorder, u64), NoMemory>);

/// A batch of one call, for a user of a rail.
fn user_of(alloc: Global, call: &Call) -> Result<Submitting, NoMemory>
    ensures { IfOk result (λ user. user.batch.size ≡ 16) }
{
    let memory = ClientMemory::new(alloc, 0)?;
    let mut batch = Batch::new(alloc, 16)?;
    if batch.try_pack(call, &Pieces::new(), &memory).is_err() {
        return Err(AllocError);
    }
    Ok(Submitting { batch })
}

/// Has a call submitted in a batch of its own, by a part in whichever thread this is.
fn submitted<T: Threads + Wait + Sync, P: RailLender<Recorder>>(
    rt: &T,
    alloc: Global,
    part: P,
    call: Call,
) -> Lent<P> {
    let user = match user_of(alloc, &call) {
        Ok(user) => user,
        Err(refusal) => return (part, Err(refusal)),
    };
    let mut part = part;
    let lent = part.with_rail(rt, rt, alloc, Recorder::new(alloc), 16, 4, user);
    (part, lent)
}

/// Two contexts at once, each by its part in a thread of its own.
fn in_two_threads<T: Threads + Wait + Sync, P: RailLender<Recorder> + Send>(
    rt: &T,
    alloc: Global,
    one: P,
    two: P,
    first: Call,
    second: Call,
) -> (Lent<P>, Lent<P>) {
    join(
        rt,
        || submitted(rt, alloc, one, first),
        || submitted(rt, alloc, two, second),
    )
}

/// The contexts 0 and 1 of this maker at once, and their recorders.
fn submitted_by_two<T: Threads + Wait + Sync, M: WaitMaker<Recorder>>(
    rt: &T,
    alloc: Global,
    maker: &mut M,
    first: Call,
    second: Call,
) -> Result<(Recorder, Recorder), NoMemory> {
    let one = maker.split(0);
    let two = maker.split(1);
    let (one, two) = in_two_threads(rt, alloc, one, two, first, second);
    maker.join(0, one.0);
    maker.join(1, two.0);
    Ok((one.1?.0, two.1?.0))
}

const CALLS: [Call; 2] = [Call::Clear { mask: 1 }, Call::Flush];

#[test]
fn a_part_makes_a_rail_that_carries_out_what_was_submitted(rt: HostRuntime) -> Result<(), Fail> {
    let mut maker = InlineMaker::new();
    let kind = WaitMaker::<Recorder>::kind(&maker);
    assert_eq!(rt; kind, RailKind::Inline);
    let alloc = rt.alloc();
    let (driver, sent) = carried_out_by_a_part(&rt, &rt, alloc, &mut maker, &CALLS[0], &CALLS[1])?;
    assert_eq!(rt; driver.calls(), CALLS.as_slice());
    assert_eq!(rt; sent, 3);
    Ok(())
}

// The slots are those of the tests of `batch_pack`.
#[test]
fn a_part_has_what_is_told_of_its_context_until_it_is_back(rt: HostRuntime) -> Result<(), Fail> {
    let alloc = rt.alloc();
    let mut maker = JournalMaker::new(alloc, RailKind::Epoch, 5)?;
    let kind = WaitMaker::<Recorder>::kind(&maker);
    assert_eq!(rt; kind, RailKind::Epoch);
    let (driver, sent) = carried_out_by_a_part(&rt, &rt, alloc, &mut maker, &CALLS[0], &CALLS[1])?;
    assert_eq!(rt; driver.calls(), CALLS.as_slice());
    assert_eq!(rt; sent, 3);
    tells(&rt, &maker, 3, &[&[0x2_0008, 1], &[], &[0x1_001c]]);
    let part = WaitMaker::<Recorder>::split(&mut maker, 3);
    assert!(rt; maker.journal(3).is_none(), "the part has the list");
    tells(&rt, &maker, 2, &[]);
    let (part, lent) = submitted(&rt, alloc, part, CALLS[0]);
    let (driver, sent) = lent?;
    assert_eq!(rt; driver.calls(), &CALLS[..1]);
    assert_eq!(rt; sent, 1);
    assert!(rt; maker.journal(3).is_none(), "the part has the list still");
    WaitMaker::<Recorder>::join(&mut maker, 3, part);
    tells(
        &rt,
        &maker,
        3,
        &[&[0x2_0008, 1], &[], &[0x1_001c], &[0x2_0008, 1]],
    );
    Ok(())
}

#[test]
fn two_contexts_have_their_parts_in_threads_of_their_own(rt: HostRuntime) -> Result<(), Fail> {
    let alloc = rt.alloc();
    let mut maker = JournalMaker::new(alloc, RailKind::Epoch, 2)?;
    let (one, two) = submitted_by_two(&rt, alloc, &mut maker, CALLS[0], CALLS[1])?;
    assert_eq!(rt; one.calls(), &CALLS[..1]);
    assert_eq!(rt; two.calls(), &CALLS[1..]);
    tells(&rt, &maker, 0, &[&[0x2_0008, 1]]);
    tells(&rt, &maker, 1, &[&[0x1_001c]]);
    Ok(())
}
