//! What reaches the driver where calls wait: how often it is taken, and what it is asked.

use super::{CLEAR, COLOUR, DEPTH, MODE, counting_front, issue_each, play};
use batch_rail::InlineMaker;
use gl_words::Call;
use std::alloc::{AllocError as NoMemory, Global};
use std::test::Fail;
use std::thread::Threads;

/// Issues calls to a front over a rail that counts, and finishes. Gives whether it finished, and how
/// often the driver was taken.
fn takes_to_finish<T: Threads + Sync>(
    rt: &T,
    alloc: Global,
    calls: &[Call],
) -> Result<(bool, u64), NoMemory> {
    let few = &calls[..calls.len().min(100)];
    let mut maker = InlineMaker::new();
    let mut front = counting_front(alloc, &mut maker)?;
    issue_each(rt, &mut front, few);
    let finished = front.finish(rt).is_ok();
    let (rail, _memory) = front.into_parts();
    Ok((finished, rail.takes))
}

#[test]
fn finish_takes_the_driver_once(rt: HostRuntime) -> Result<(), Fail> {
    let rows: [(&[Call], u64); 6] = [
        (&[], 1),
        (&[CLEAR], 1),
        (&[MODE, COLOUR, COLOUR, COLOUR, COLOUR, DEPTH], 1),
        (&[CLEAR, Call::Flush], 1),
        (&[Call::Finish], 2),
        (&[CLEAR, Call::GetError, CLEAR, Call::Finish, CLEAR], 3),
    ];
    for (calls, taken) in rows {
        let given = takes_to_finish(&rt, rt.alloc(), calls)?;
        assert_eq!(rt; given, (true, taken));
    }
    Ok(())
}

// Four pixels of four bytes are as many as client memory holds.
const PIXELS: Call = Call::ReadPixels {
    x: 0,
    y: 0,
    width: 2,
    height: 2,
    format: 0x1908,
    kind: 0x1401,
    pixels: 0,
};

const ARRAY: Call = Call::IsEnabled { cap: 0x8074 };

#[test]
fn the_driver_is_asked_each_call_once_but_those_that_are_answered(
    rt: HostRuntime,
) -> Result<(), Fail> {
    let rows: [(&[Call], u64); 8] = [
        (&[], 0),
        (&[MODE, DEPTH, ARRAY], 0),
        (&[PIXELS], 1),
        (&[CLEAR, ARRAY, PIXELS, ARRAY, PIXELS], 3),
        (&[Call::Flush, PIXELS, Call::GetError, Call::Finish], 4),
        (&[COLOUR, COLOUR, COLOUR, COLOUR, CLEAR, PIXELS, CLEAR], 7),
        (
            &[
                CLEAR,
                Call::IsEnabled { cap: 0x0B44 },
                Call::GetFixedv {
                    pname: 0x0B00,
                    params: 0,
                },
            ],
            3,
        ),
        (
            &[
                Call::GetPointerv {
                    pname: 0x9999,
                    params: 0,
                },
                MODE,
                Call::GetIntegerv {
                    pname: 0x0BA2,
                    params: 0,
                },
            ],
            2,
        ),
    ];
    for (calls, asked) in rows {
        let mut maker = InlineMaker::new();
        let played = play(&rt, rt.alloc(), &mut maker, 100, calls)?;
        let closed = played.closed.expect(&rt, "the rail failed");
        assert_eq!(rt; closed.asked, asked);
    }
    Ok(())
}

/// Calls that wait, behind others: gets of a name, and those without one.
fn calls_that_wait(name: u32) -> [Call; 18] {
    let params = 0;
    let fixed = Call::GetFixedv {
        pname: name,
        params,
    };
    let integer = Call::GetIntegerv {
        pname: name,
        params,
    };
    let pointer = Call::GetPointerv {
        pname: name,
        params,
    };
    let enabled = Call::IsEnabled { cap: name };
    [
        Call::Flush,
        fixed,
        CLEAR,
        integer,
        fixed,
        Call::Flush,
        pointer,
        CLEAR,
        enabled,
        Call::Flush,
        integer,
        enabled,
        pointer,
        Call::Flush,
        PIXELS,
        Call::GetError,
        Call::Flush,
        Call::Finish,
    ]
}

// Each name that a get may know, and those between them: no clause says that a call isn't refused
// where the driver has memory.
#[test]
fn no_call_that_waits_is_refused_over_a_driver_that_has_memory(
    rt: HostRuntime,
) -> Result<(), Fail> {
    let ranges = [
        (0x0B00, 0x0E00),
        (0x8060, 0x80A0),
        (0x84E0, 0x84E3),
        (0x8890, 0x88A0),
    ];
    for (first, end) in ranges {
        for name in first..end {
            let calls = calls_that_wait(name);
            let mut maker = InlineMaker::new();
            let played = play(&rt, rt.alloc(), &mut maker, 100, &calls)?;
            assert_eq!(rt; played.answered, calls.len(), "at {name}");
            assert!(rt; played.finished);
        }
    }
    Ok(())
}
