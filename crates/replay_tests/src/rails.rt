//! What a run does with its maker and its rail. No clause says how often a rail is launched and with which ring, nor how
//! often its driver is taken.

ghost use Rattle.std.specs.Prelude.{None};
ghost use Rattle.batch_rail.specs.declared.maker.RailKind.TheVariants.{Inline};

use crate::runs::ended;
use crate::ways::{Left, Outside, Ready, replay_over, wait_over};
use batch_pack::Batch;
use batch_rail::{
    InlineMaker, InlinePart, InlineRail, Rail, RailKind, RailLender, RailMaker, RailState,
    RailUser, WaitMaker, WaitPart, WaitRail,
};
use driver_trait::{Driver, Machine, WaitDriver};
use std::alloc::{AllocError, AllocError as NoMemory, Global};
use std::process::Abort;
use std::sync::Wait;
use std::test::Fail;
use std::thread::Threads;

/// What became of the rails of a maker: how many were asked for, with which size of batches in slots and which ring the
/// last one, and how often drivers were taken and batches submitted over those that were closed.
#[derive(Clone, Copy, Debug, PartialEq, Eq)]
struct Seen {
    launches: u64,
    slots: u32,
    ring: u32,
    takes: u64,
    batches: u64,
}

/// A rail that counts how often `take` and `submit` were called, and is else the rail inside.
#[derive(Drop)]
struct Counting<R> {
    inside: R,
    takes: u64,
    batches: u64,
}

impl<D: Machine, R: RailState<D>> RailState<D> for Counting<R> {
    ghost stands = { λ rail. R.stands rail.inside };

    ghost failed = { λ rail. R.failed rail.inside };

    ghost home = { λ rail. R.home rail.inside };

    ghost taken = { λ rail. R.taken rail.inside };

    ghost size = { λ rail. R.size rail.inside };

    ghost sent = { λ rail. R.sent rail.inside };

    ghost journal = { λ rail. R.journal rail.inside };
}

impl<D: Driver, R: Rail<D>> Rail<D> for Counting<R> {
    fn submit<T: Threads + Sync>(&mut self, rt: &T, full: Batch) -> Batch {
        self.batches = self.batches.saturating_add(1);
        self.inside.submit(rt, full)
    }

    fn take(&mut self) -> Result<D, NoMemory> {
        self.takes = self.takes.saturating_add(1);
        self.inside.take()
    }

    fn put(&mut self, driver: D) {
        self.inside.put(driver);
    }

    fn slots(&self) -> u32 {
        self.inside.slots()
    }

    fn sent(&self) -> u64 {
        self.inside.sent()
    }
}

impl<D: WaitDriver, R: WaitRail<D>> WaitRail<D> for Counting<R> {
    fn submit<T: Threads + Sync, W: Wait>(&mut self, rt: &T, wait: &W, full: Batch) -> Batch {
        self.batches = self.batches.saturating_add(1);
        self.inside.submit(rt, wait, full)
    }

    fn take<T: Threads + Sync, W: Wait>(&mut self, rt: &T, wait: &W) -> Result<D, NoMemory> {
        self.takes = self.takes.saturating_add(1);
        self.inside.take(rt, wait)
    }

    fn put<T: Threads + Sync, W: Wait>(&mut self, rt: &T, wait: &W, driver: D) {
        self.inside.put(rt, wait, driver);
    }

    fn slots(&self) -> u32 {
        self.inside.slots()
    }

    fn sent(&self) -> u64 {
        self.inside.sent()
    }
}

/// A maker of rails without threads that keeps what became of them, and its part. It may refuse each.
#[derive(Drop)]
struct Watching {
    refuses: bool,
    seen: Seen,
}

impl Watching {
    /// A maker that made none.
    fn new(refuses: bool) -> Watching {
        let seen = Seen {
            launches: 0,
            slots: 0,
            ring: 0,
            takes: 0,
            batches: 0,
        };
        Watching { refuses, seen }
    }

    /// A rail was asked for.
    fn note_launch(&mut self, slots: u32, ring: u32) {
        self.seen.launches = self.seen.launches.saturating_add(1);
        self.seen.slots = slots;
        self.seen.ring = ring;
    }

    /// A rail was closed.
    fn note_close(&mut self, takes: u64, batches: u64) {
        self.seen.takes = self.seen.takes.saturating_add(takes);
        self.seen.batches = self.seen.batches.saturating_add(batches);
    }
}

impl<D: Driver> RailMaker<D> for Watching {
    type Made = Counting<InlineRail<D>>;

    ghost kind_of = { λ maker. Inline };

    ghost journal = { λ maker context. None };

    fn kind(&self) -> RailKind {
        RailKind::Inline
    }

    fn launch(
        &mut self,
        alloc: Global,
        context: u32,
        driver: D,
        slots: u32,
        ring: u32,
    ) -> Result<Counting<InlineRail<D>>, (D, NoMemory)> {
        self.note_launch(slots, ring);
        if self.refuses {
            return Err((driver, AllocError));
        }
        let mut plain = InlineMaker::new();
        let inside = plain.launch(alloc, context, driver, slots, ring)?;
        Ok(Counting {
            inside,
            takes: 0,
            batches: 0,
        })
    }

    fn close(&mut self, context: u32, rail: Counting<InlineRail<D>>) -> Result<D, NoMemory> {
        let Counting {
            inside,
            takes,
            batches,
        } = rail;
        self.note_close(takes, batches);
        let mut plain = InlineMaker::new();
        plain.close(context, inside)
    }
}

impl<D: WaitDriver> WaitMaker<D> for Watching {
    type Part = Watching;

    ghost kind_of = { λ maker. Inline };

    ghost journal = { λ maker context. None };

    fn kind(&self) -> RailKind {
        RailKind::Inline
    }

    fn split(&mut self, context: u32) -> Watching {
        Watching {
            refuses: self.refuses,
            seen: self.seen,
        }
    }

    fn join(&mut self, context: u32, part: Watching) {
        self.seen = part.seen;
    }
}

impl<D: WaitDriver> RailLender<D> for Watching {
    ghost journal = { λ part. None };

    fn with_rail<T: Threads + Sync, W: Wait, U: RailUser<D>>(
        &mut self,
        rt: &T,
        wait: &W,
        alloc: Global,
        driver: D,
        slots: u32,
        ring: u32,
        user: U,
    ) -> Result<(D, U::Out), NoMemory> {
        let rail = match WaitPart::launch(self, rt, wait, alloc, driver, slots, ring) {
            Ok(rail) => rail,
            Err((_driver, refusal)) => return Err(refusal),
        };
        let (rail, used) = user.use_rail(rt, wait, alloc, rail, slots);
        let closed = WaitPart::close(self, rt, wait, rail);
        let out = used?;
        let driver = closed?;
        Ok((driver, out))
    }
}

impl<D: WaitDriver> WaitPart<D> for Watching {
    type Made = Counting<InlineRail<D>>;

    fn launch<T: Threads + Sync, W: Wait>(
        &mut self,
        rt: &T,
        wait: &W,
        alloc: Global,
        driver: D,
        slots: u32,
        ring: u32,
    ) -> Result<Counting<InlineRail<D>>, (D, NoMemory)> {
        self.note_launch(slots, ring);
        if self.refuses {
            return Err((driver, AllocError));
        }
        let mut plain = InlinePart;
        let inside = plain.launch(rt, wait, alloc, driver, slots, ring)?;
        Ok(Counting {
            inside,
            takes: 0,
            batches: 0,
        })
    }

    fn close<T: Threads + Sync, W: Wait>(
        &mut self,
        rt: &T,
        wait: &W,
        rail: Counting<InlineRail<D>>,
    ) -> Result<D, NoMemory> {
        let Counting {
            inside,
            takes,
            batches,
        } = rail;
        self.note_close(takes, batches);
        let mut plain = InlinePart;
        plain.close(rt, wait, inside)
    }
}

/// Two calls that wait, a get of tracked state, and four that are put off, of which a Flush ends its batch.
const WAITING: &str =
    "glscript 1\ncontext 0 1 1 4\n0 Clear 0x4000\n0 GetError\n0 GetIntegerv MATRIX_MODE 0\n0 Clear 0x4000\n0 Flush\n0 Finish\n0 Clear 0x4000\nend\n";

/// Seven calls of five slots each, of which three have room in a batch of 16.
const COLOURS: &str =
    "glscript 1\ncontext 0 1 1 0\n0 ClearColorx 0 0 0 0\n0 ClearColorx 0 0 0 0\n0 ClearColorx 0 0 0 0\n0 ClearColorx 0 0 0 0\n0 ClearColorx 0 0 0 0\n0 ClearColorx 0 0 0 0\n0 ClearColorx 0 0 0 0\nend\n";

/// Replays a script over a maker that keeps what became of its rails.
fn watched<T: Threads + Sync + Abort>(
    rt: &T,
    alloc: Global,
    words: &str,
    script: &str,
    refuses: bool,
) -> Result<(Left, Seen), AllocError> {
    let mut rails = Watching::new(refuses);
    let sure = Outside::sure(alloc, 4096);
    let ready = Ready::new(alloc, words, script.as_bytes(), sure)?;
    let left = replay_over(rt, alloc, ready, &mut rails);
    Ok((left, rails.seen))
}

#[test]
fn a_run_has_one_rail_with_the_batches_and_the_ring_of_its_words(
    rt: HostRuntime,
) -> Result<(), Fail> {
    let rows = [
        ("run --rail inline", WAITING, (1, 1024, 8, 2, 3)),
        (
            "run --rail inline --ring 64 --batch 16",
            WAITING,
            (1, 16, 64, 2, 3),
        ),
        (
            "run --batch 8192 --rail inline --ring 1",
            COLOURS,
            (1, 8192, 1, 0, 1),
        ),
        ("run --rail inline --ring 9", COLOURS, (1, 1024, 9, 0, 1)),
        ("run --batch 16 --rail inline", COLOURS, (1, 16, 8, 0, 3)),
        ("direct", WAITING, (0, 0, 0, 0, 0)),
        ("direct", COLOURS, (0, 0, 0, 0, 0)),
    ];
    for (words, script, (launches, slots, ring, takes, batches)) in rows {
        let (left, seen) = watched(&rt, rt.alloc(), words, script, false)?;
        assert!(rt;
            ended(rt.alloc(), &left.status, "done")?,
            "the words {words}"
        );
        let wanted = Seen {
            launches,
            slots,
            ring,
            takes,
            batches,
        };
        assert_eq!(rt; seen, wanted, "the words {words}");
    }
    Ok(())
}

#[test]
fn a_launch_that_is_refused_memory_ends_a_run_and_nothing_else(
    rt: HostRuntime,
) -> Result<(), Fail> {
    let rows = [
        ("run --rail inline", "no memory", 1, 0, 0),
        ("direct", "done", 0, 1, 60),
        ("run --ring 65", "bad words", 0, 0, 0),
    ];
    for (words, status, launches, images, written) in rows {
        let (left, seen) = watched(&rt, rt.alloc(), words, WAITING, true)?;
        assert!(rt;
            ended(rt.alloc(), &left.status, status)?,
            "the words {words}"
        );
        assert_eq!(rt; seen.launches, launches, "the words {words}");
        assert_eq!(rt; left.shelf.len(), images, "the words {words}");
        assert_eq!(rt; left.sink.bytes().len(), written, "the words {words}");
    }
    Ok(())
}

/// Replays a script by the call that may wait, over a maker that keeps what became of its rails.
fn watched_waiting<T: Threads + Sync + Abort, W: Wait>(
    rt: &T,
    wait: &W,
    alloc: Global,
    words: &str,
    refuses: bool,
) -> Result<(Left, Seen), AllocError> {
    let mut rails = Watching::new(refuses);
    let sure = Outside::sure(alloc, 4096);
    let ready = Ready::new(alloc, words, WAITING.as_bytes(), sure)?;
    let left = wait_over(rt, wait, alloc, ready, &mut rails);
    Ok((left, rails.seen))
}

// What became of the rails comes back with the part, so that it has to be joined.
#[test]
fn a_run_that_may_wait_has_one_rail_and_joins_its_part(rt: HostRuntime) -> Result<(), Fail> {
    let rows = [
        ("run --rail inline", false, "done", (1, 1024, 8, 2, 3)),
        (
            "run --rail inline --ring 64 --batch 16",
            false,
            "done",
            (1, 16, 64, 2, 3),
        ),
        ("direct", false, "done", (0, 0, 0, 0, 0)),
        ("run --rail inline", true, "no memory", (1, 1024, 8, 0, 0)),
        ("direct", true, "done", (0, 0, 0, 0, 0)),
    ];
    for (words, refuses, status, (launches, slots, ring, takes, batches)) in rows {
        let (left, seen) = watched_waiting(&rt, &rt, rt.alloc(), words, refuses)?;
        assert!(rt;
            ended(rt.alloc(), &left.status, status)?,
            "the words {words}"
        );
        let wanted = Seen {
            launches,
            slots,
            ring,
            takes,
            batches,
        };
        assert_eq!(rt; seen, wanted, "the words {words}");
    }
    Ok(())
}
