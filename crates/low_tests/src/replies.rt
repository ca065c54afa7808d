//! Each public call once, and each law at the test driver through its bound.

use driver_trait::laws::{answers_law, follows_law, reads_alone_law, replies_law};
use driver_trait::*;
use gl_memory::{ClientMemory, Numbers, Octets};
use gl_tracked::Tracked;
use gl_words::{Call, call_from, shape_of_name};
use std::alloc::{AllocError as NoMemory, Global};
use std::test::Fail;
use std::thread::Threads;

/// Carries a call out on client memory, by whichever driver.
fn carried_out<T: Threads + Sync, D: Driver>(
    rt: &T,
    alloc: Global,
    driver: &mut D,
    call: &Call,
) -> Result<Reply, NoMemory> {
    let memory = ClientMemory::new(alloc, 16)?;
    reads_alone_law(driver);
    follows_law(driver);
    answers_law(driver);
    replies_law(driver);
    driver.call(rt, call, &memory)
}

#[test]
fn a_recorder_keeps_the_calls_that_it_met(rt: HostRuntime) -> Result<(), Fail> {
    let mut recorder = Recorder::new(rt.alloc());
    let calls = [Call::Clear { mask: 1 }, Call::GetError, Call::Flush];
    for call in &calls {
        let reply = carried_out(&rt, rt.alloc(), &mut recorder, call)?;
        assert!(rt; matches!(reply, Reply::Nothing));
    }
    assert_eq!(rt; recorder.calls(), calls.as_slice());
    Ok(())
}

// The number of TEXTURE0 is 0x84C0.
#[test]
fn a_recorder_answers_what_is_asked_of_tracked_state(rt: HostRuntime) -> Result<(), Fail> {
    let mut recorder = Recorder::new(rt.alloc());
    let asking = Call::GetIntegerv {
        pname: 0x84E0,
        params: 0,
    };
    let reply = carried_out(&rt, rt.alloc(), &mut recorder, &asking)?;
    assert!(rt; matches!(reply, Reply::One(0x84C0)));
    assert!(rt; recorder.calls().is_empty());
    Ok(())
}

/// A reply of these numbers.
fn numbers_reply(alloc: Global, numbers: &[i64]) -> Result<Reply, NoMemory> {
    let mut list = Numbers::new(alloc, numbers.len() as u64)?;
    for number in numbers {
        list.push(*number);
    }
    Ok(Reply::Numbers(list))
}

/// A reply of these bytes.
fn bytes_reply(alloc: Global, bytes: &[u8]) -> Result<Reply, NoMemory> {
    let mut list = Octets::new(alloc, bytes.len() as u64)?;
    for byte in bytes {
        list.push(*byte);
    }
    Ok(Reply::Bytes(list))
}

/// The call with this name and these arguments, if there is one.
fn call_named(name: &str, numbers: &[i64]) -> Option<Call> {
    call_from(shape_of_name(name)?.id, numbers)
}

/// Fourteen bytes, all 9, after a reply to the call with this name and these arguments was written over them, with rows
/// of pixels aligned to 8 bytes.
fn memory_with(
    alloc: Global,
    name: &str,
    numbers: &[i64],
    reply: &Reply,
) -> Result<ClientMemory, NoMemory> {
    let mut memory = ClientMemory::new(alloc, 14)?;
    memory.write(0, &[9; 14]);
    let mut tracked = Tracked::first();
    tracked.pack_alignment = 8;
    if let Some(call) = call_named(name, numbers) {
        write_reply(&mut memory, &tracked, &call, reply);
    }
    Ok(memory)
}

// VIEWPORT is 0x0BA2, CURRENT_COLOR 0x0B00, VERTEX_ARRAY_POINTER 0x808E. In two's complement -2 is FE FF FF FF.
#[test]
fn numbers_are_written_where_the_call_wants_them(rt: HostRuntime) -> Result<(), Fail> {
    let viewport = numbers_reply(rt.alloc(), &[1, -2, 300])?;
    let memory = memory_with(rt.alloc(), "GetIntegerv", &[0x0BA2, 1], &viewport)?;
    assert_eq!(rt;
        memory.bytes(),
        [9, 1, 0, 0, 0, 254, 255, 255, 255, 44, 1, 0, 0, 9].as_slice()
    );
    let memory = memory_with(rt.alloc(), "GetFixedv", &[0x0B00, 4], &viewport)?;
    assert_eq!(rt;
        memory.bytes(),
        [9, 9, 9, 9, 1, 0, 0, 0, 254, 255, 255, 255, 44, 1].as_slice()
    );
    let pointer = Reply::One(0x0403_0201);
    let memory = memory_with(rt.alloc(), "GetPointerv", &[0x808E, 12], &pointer)?;
    assert_eq!(rt;
        memory.bytes(),
        [9, 9, 9, 9, 9, 9, 9, 9, 9, 9, 9, 9, 1, 2].as_slice()
    );
    let given = numbers_reply(rt.alloc(), &[1, 4294967295])?;
    for name in ["GenBuffers", "GenTextures"] {
        let memory = memory_with(rt.alloc(), name, &[2, 5], &given)?;
        assert_eq!(rt;
            memory.bytes(),
            [9, 9, 9, 9, 9, 1, 0, 0, 0, 255, 255, 255, 255, 9].as_slice()
        );
    }
    let pixels = bytes_reply(rt.alloc(), &[1, 2, 3, 4])?;
    let nothing = [
        ("GetIntegerv", [0x0BA2, 14].as_slice(), &viewport),
        ("GetIntegerv", [0x0BA2, 4294967295].as_slice(), &viewport),
        ("GetIntegerv", [0x0BA2, 0].as_slice(), &pixels),
        ("GetError", [].as_slice(), &pointer),
        ("IsEnabled", [0x0B44].as_slice(), &pointer),
        ("IsBuffer", [7].as_slice(), &pointer),
        ("GenBuffers", [2, 14].as_slice(), &given),
        ("GetIntegerv", [0x0BA2, 0].as_slice(), &Reply::Nothing),
    ];
    for (name, numbers, reply) in nothing {
        let memory = memory_with(rt.alloc(), name, numbers, reply)?;
        assert_eq!(rt; memory.bytes(), [9; 14].as_slice());
    }
    Ok(())
}

// RGBA is 0x1908 and UNSIGNED_BYTE 0x1401. A row of one pixel is 4 bytes, and 4 more up to the next.
#[test]
fn bytes_are_written_row_by_row_and_those_between_rows_stay(rt: HostRuntime) -> Result<(), Fail> {
    let pixels = bytes_reply(rt.alloc(), &[1, 2, 3, 4, 5, 6, 7, 8])?;
    let short = bytes_reply(rt.alloc(), &[1, 2, 3, 4, 5])?;
    let pointer = Reply::One(7);
    let none = [9; 14];
    let rows = [
        (1, 2, 1, &pixels, [9, 1, 2, 3, 4, 9, 9, 9, 9, 5, 6, 7, 8, 9]),
        (1, 1, 1, &pixels, [9, 1, 2, 3, 4, 9, 9, 9, 9, 9, 9, 9, 9, 9]),
        (2, 9, 0, &pixels, [1, 2, 3, 4, 5, 6, 7, 8, 9, 9, 9, 9, 9, 9]),
        (1, 9, 4, &pixels, [9, 9, 9, 9, 1, 2, 3, 4, 9, 9, 9, 9, 5, 6]),
        (1, 9, 1, &short, [9, 1, 2, 3, 4, 9, 9, 9, 9, 5, 9, 9, 9, 9]),
        (
            2147483647,
            2147483647,
            13,
            &pixels,
            [9, 9, 9, 9, 9, 9, 9, 9, 9, 9, 9, 9, 9, 1],
        ),
        (1, 2147483647, 14, &pixels, none),
        (1, 2, 4294967295, &pixels, none),
        (0, 2, 0, &pixels, none),
        (2, 0, 0, &pixels, none),
        (-1, 2, 0, &pixels, none),
        (1, -1, 0, &pixels, none),
        (1, 1, 0, &pointer, none),
    ];
    for (width, height, place, reply, bytes) in rows {
        let numbers = [0, 0, width, height, 0x1908, 0x1401, place];
        let memory = memory_with(rt.alloc(), "ReadPixels", &numbers, reply)?;
        assert_eq!(rt; memory.bytes(), bytes.as_slice());
    }
    Ok(())
}
