//! Gets of tracked state beside calls that were put off, and after a driver that was refused memory.

use super::{CLEAR, DEPTH, MODE, Outcome, front_of_sixteen, issue_alike};
use batch_rail::InlineMaker;
use client_shadow::Class;
use gl_front::Counts;
use gl_words::Call;
use std::test::Fail;

// Another program gives these numbers, counts and bytes, but where the driver for tests replies nothing. It writes
// the replies to those calls past the end of client memory, as does the last get.
#[test]
fn a_get_of_tracked_state_is_answered_beside_calls_that_were_put_off(
    rt: HostRuntime,
) -> Result<(), Fail> {
    let rows = [
        (
            Call::MatrixMode { mode: 0x9999 },
            Class::Defer,
            Outcome::NoReply,
            0,
        ),
        (MODE, Class::Answer, Outcome::Number(5888), 0),
        (Call::PushMatrix, Class::Defer, Outcome::NoReply, 0),
        (DEPTH, Class::Answer, Outcome::Number(2), 0),
        (
            Call::VertexPointer {
                size: 3,
                kind: 0x140C,
                stride: 8,
                pointer: 100,
            },
            Class::Defer,
            Outcome::NoReply,
            0,
        ),
        (
            Call::GetPointerv {
                pname: 0x808E,
                params: 0,
            },
            Class::Answer,
            Outcome::Number(100),
            0,
        ),
        (
            Call::EnableClientState { array: 0x8074 },
            Class::Defer,
            Outcome::NoReply,
            0,
        ),
        (
            Call::IsEnabled { cap: 0x8074 },
            Class::Answer,
            Outcome::Number(1),
            0,
        ),
        (
            Call::PixelStorei {
                pname: 0x0D05,
                param: 1,
            },
            Class::Defer,
            Outcome::NoReply,
            0,
        ),
        (
            Call::GetIntegerv {
                pname: 0x0D05,
                params: 14,
            },
            Class::Answer,
            Outcome::Number(1),
            0,
        ),
        (Call::GetError, Class::Sync, Outcome::Nothing, 1),
        (
            Call::GetIntegerv {
                pname: 0x0D33,
                params: 16,
            },
            Class::Sync,
            Outcome::Nothing,
            1,
        ),
        (
            Call::GetFixedv {
                pname: 0x0B00,
                params: 16,
            },
            Class::Sync,
            Outcome::Nothing,
            1,
        ),
        (
            Call::GetPointerv {
                pname: 0x9999,
                params: 16,
            },
            Class::Sync,
            Outcome::Nothing,
            1,
        ),
        (
            Call::IsEnabled { cap: 0x0B44 },
            Class::Sync,
            Outcome::Nothing,
            1,
        ),
        (
            Call::ReadPixels {
                x: 0,
                y: 0,
                width: 1,
                height: 1,
                format: 0x1908,
                kind: 0x1401,
                pixels: 16,
            },
            Class::Sync,
            Outcome::Nothing,
            1,
        ),
        (CLEAR, Class::Defer, Outcome::NoReply, 1),
        (Call::Finish, Class::Sync, Outcome::NoReply, 2),
        (Call::PopMatrix, Class::Defer, Outcome::NoReply, 2),
        (
            Call::GetIntegerv {
                pname: 0x0BA3,
                params: 16,
            },
            Class::Answer,
            Outcome::Number(1),
            2,
        ),
        (Call::Flush, Class::Defer, Outcome::NoReply, 3),
    ];
    let mut maker = InlineMaker::new();
    let mut front = front_of_sixteen(rt.alloc(), &mut maker, 100)?;
    front.write_memory(
        0,
        &[
            0x00, 0x11, 0x22, 0x33, 0x44, 0x55, 0x66, 0x77, 0x88, 0x99, 0xAA, 0xBB, 0xCC, 0xDD,
            0xEE, 0xFF,
        ],
    );
    let alike = issue_alike(&rt, &mut front, &rows);
    assert_eq!(rt; alike, rows.len());
    assert_eq!(rt;
        front.counts(),
        Counts {
            deferred: 8,
            synchronised: 7,
            answered: 6,
            batches: 3,
        }
    );
    let written = [100, 0, 0, 0, 0, 0x17, 0, 0, 2, 0, 0, 0, 0xCC, 0xDD, 1, 0];
    assert_eq!(rt; front.memory().bytes(), written.as_slice());
    Ok(())
}

// 5889 is PROJECTION: another program gives it, and its bytes.
#[test]
fn a_front_whose_driver_was_refused_memory_answers_until_a_call_waits(
    rt: HostRuntime,
) -> Result<(), Fail> {
    let projection = Call::MatrixMode { mode: 0x1701 };
    let rows = [
        (projection, Class::Defer, Outcome::NoReply, 0),
        (Call::Flush, Class::Defer, Outcome::NoReply, 1),
        (MODE, Class::Answer, Outcome::Number(5889), 1),
        (Call::GetError, Class::Sync, Outcome::Refused, 1),
        (DEPTH, Class::Answer, Outcome::Refused, 1),
        (CLEAR, Class::Defer, Outcome::Refused, 1),
    ];
    let mut maker = InlineMaker::new();
    let mut front = front_of_sixteen(rt.alloc(), &mut maker, 0)?;
    front.knows_tracked();
    let alike = issue_alike(&rt, &mut front, &rows);
    assert_eq!(rt; alike, rows.len());
    assert_eq!(rt;
        front.counts(),
        Counts {
            deferred: 2,
            synchronised: 0,
            answered: 1,
            batches: 1,
        }
    );
    let written = [0, 0, 0, 0, 1, 0x17, 0, 0, 0, 0, 0, 0, 0, 0, 0, 0];
    assert_eq!(rt; front.memory().bytes(), written.as_slice());
    Ok(())
}
