//! Each public call once, and the law at the test driver through its bound.

use client_shadow::laws::{capture_law, shadow_law};
use client_shadow::*;
use driver_trait::{Driver, Recorder, Reply};
use gl_memory::{ClientMemory, Pieces};
use gl_words::{Call, GlError, call_from, shape_of_name};
use std::alloc::AllocError as NoMemory;
use std::test::Fail;
use std::thread::Threads;

/// The call with this name and these arguments, if there is one.
fn call_named(name: &str, numbers: &[i64]) -> Option<Call> {
    call_from(shape_of_name(name)?.id, numbers)
}

/// Carries a call out on client memory, by whichever driver.
fn carried_out<T: Threads + Sync, D: Driver>(
    rt: &T,
    driver: &mut D,
    call: &Call,
    memory: &ClientMemory,
) -> Result<Reply, NoMemory> {
    shadow_law(driver);
    driver.call(rt, call, memory)
}

/// The number that a call is answered with, if it is.
fn number_of(becomes: &Becomes) -> Option<i64> {
    match becomes {
        Becomes::Answer(number) => Some(*number),
        Becomes::Sync { .. } | Becomes::Defer { .. } => None,
    }
}

/// The number of a reply, where it is one.
fn number_in(reply: &Reply) -> Option<i64> {
    match reply {
        Reply::One(number) => Some(*number),
        _ => None,
    }
}

// Another program answers so to these gets, in this order. The second, the sixth and the seventeenth call have an error. The
// names that are deleted are 5 and 7.
#[test]
fn a_shadow_answers_as_the_driver_does(rt: HostRuntime) -> Result<(), Fail> {
    let mut memory = ClientMemory::new(rt.alloc(), 12)?;
    memory.write(4, &[5, 0, 0, 0, 7, 0, 0, 0]);
    let mut recorder = Recorder::new(rt.alloc());
    let mut shadow = Shadow::new();
    let value = Some(GlError::InvalidValue);
    let name = Some(GlError::InvalidEnum);
    let deep = Some(GlError::StackOverflow);
    let rows = [
        ("VertexPointer", [3, 0x1402, 12, 100].as_slice(), None, None),
        ("VertexPointer", [5, 0x1400, 0, 8].as_slice(), None, value),
        ("GetPointerv", [0x808E, 0].as_slice(), Some(100), None),
        ("GetIntegerv", [0x807A, 0].as_slice(), Some(3), None),
        ("MatrixMode", [0x1701].as_slice(), None, None),
        ("MatrixMode", [0x1703].as_slice(), None, name),
        ("GetIntegerv", [0x0BA0, 0].as_slice(), Some(0x1701), None),
        ("ClientActiveTexture", [0x84C1].as_slice(), None, None),
        ("TexCoordPointer", [2, 0x1400, 6, 10].as_slice(), None, None),
        ("EnableClientState", [0x8078].as_slice(), None, None),
        ("GetPointerv", [0x8092, 0].as_slice(), Some(10), None),
        ("IsEnabled", [0x8078].as_slice(), Some(1), None),
        ("ClientActiveTexture", [0x84C0].as_slice(), None, None),
        ("GetPointerv", [0x8092, 0].as_slice(), Some(0), None),
        ("IsEnabled", [0x8078].as_slice(), Some(0), None),
        ("PushMatrix", [].as_slice(), None, None),
        ("PushMatrix", [].as_slice(), None, deep),
        ("GetIntegerv", [0x0BA4, 0].as_slice(), Some(2), None),
        ("PixelStorei", [0x0D05, 8].as_slice(), None, None),
        ("GetIntegerv", [0x0D05, 0].as_slice(), Some(8), None),
        ("GetIntegerv", [0x0CF5, 0].as_slice(), Some(4), None),
        ("BindBuffer", [0x8892, 5].as_slice(), None, None),
        ("BindBuffer", [0x8893, 7].as_slice(), None, None),
        ("ColorPointer", [4, 0x1401, 0, 9].as_slice(), None, None),
        ("GetIntegerv", [0x8898, 0].as_slice(), Some(5), None),
        ("DeleteTextures", [2, 4].as_slice(), None, None),
        ("DeleteBuffers", [257, 4].as_slice(), None, value),
        ("GetIntegerv", [0x8894, 0].as_slice(), Some(5), None),
        ("DeleteBuffers", [1, 4].as_slice(), None, None),
        ("GetIntegerv", [0x8894, 0].as_slice(), Some(0), None),
        ("GetIntegerv", [0x8898, 0].as_slice(), Some(0), None),
        ("GetIntegerv", [0x8895, 0].as_slice(), Some(7), None),
    ];
    for (name, numbers, number, fault) in rows {
        let Some(call) = call_named(name, numbers) else {
            return Err(Fail::new("no such call"));
        };
        assert_eq!(rt; shadow.answer(&call), number);
        let look = shadow.look(&call, &memory, 16, &mut Pieces::new());
        assert_eq!(rt; number_of(&look.becomes), number);
        assert_eq!(rt; look.fault, fault);
        let reply = carried_out(&rt, &mut recorder, &call, &memory)?;
        assert_eq!(rt; number_in(&reply), number);
        shadow.note(&call, &memory, look.fault);
    }
    assert_eq!(rt; shadow.tracked().matrix_mode, 0x1701);
    Ok(())
}

// Another program counts 17 of these calls as put off, 12 that waited and 4 that were answered at once.
#[test]
fn each_kind_of_call_has_its_class(rt: HostRuntime) -> Result<(), Fail> {
    let memory = ClientMemory::new(rt.alloc(), 64)?;
    let shadow = Shadow::new();
    let pixels = [0, 0, 1, 1, 0x1908, 0x1401, 0];
    let image = [0x0DE1, 0, 0x1907, 2, 2, 0, 0x1907, 0x1401, 8];
    let part = [0x0DE1, 0, 0, 0, 2, 2, 0x1907, 0x1401, 0];
    let rows = [
        ("MatrixMode", [0x1703].as_slice(), Class::Defer),
        ("GetIntegerv", [0x0BA0, 0].as_slice(), Class::Answer),
        ("GetIntegerv", [0x0BA2, 8].as_slice(), Class::Sync),
        ("GetError", [].as_slice(), Class::Sync),
        ("GetIntegerv", [1, 0].as_slice(), Class::Sync),
        ("GetError", [].as_slice(), Class::Sync),
        ("Finish", [].as_slice(), Class::Sync),
        ("MatrixMode", [1].as_slice(), Class::Defer),
        ("GetIntegerv", [0x0BA0, 0].as_slice(), Class::Answer),
        ("GetPointerv", [0x808E, 0].as_slice(), Class::Answer),
        ("IsEnabled", [0x8074].as_slice(), Class::Answer),
        ("IsEnabled", [0x0B44].as_slice(), Class::Sync),
        ("GetFixedv", [0x0BA6, 0].as_slice(), Class::Sync),
        ("ReadPixels", pixels.as_slice(), Class::Sync),
        ("Flush", [].as_slice(), Class::Defer),
        ("VertexPointer", [3, 0x1400, 0, 0].as_slice(), Class::Defer),
        ("Clear", [0x4000].as_slice(), Class::Defer),
        ("GenBuffers", [2, 0].as_slice(), Class::Sync),
        ("GenTextures", [2, 0].as_slice(), Class::Sync),
        ("IsBuffer", [1].as_slice(), Class::Sync),
        ("IsTexture", [0].as_slice(), Class::Sync),
        ("BindBuffer", [0x8892, 0].as_slice(), Class::Defer),
        ("BindTexture", [0x0DE1, 1].as_slice(), Class::Defer),
        (
            "BufferData",
            [0x8892, 4, 0, 0x88E4].as_slice(),
            Class::Defer,
        ),
        ("BufferSubData", [0x8892, 0, 4, 0].as_slice(), Class::Defer),
        ("DeleteBuffers", [1, 0].as_slice(), Class::Defer),
        ("DeleteTextures", [1, 0].as_slice(), Class::Defer),
        ("DrawElements", [4, 3, 0x1401, 0].as_slice(), Class::Defer),
        ("TexEnvi", [0x2300, 0x2200, 0x1E01].as_slice(), Class::Defer),
        ("TexEnvxv", [0x2300, 0x2201, 0].as_slice(), Class::Defer),
        ("TexImage2D", image.as_slice(), Class::Defer),
        (
            "TexParameteri",
            [0x0DE1, 0x2802, 0x2901].as_slice(),
            Class::Defer,
        ),
        ("TexSubImage2D", part.as_slice(), Class::Defer),
    ];
    for (name, numbers, class) in rows {
        let Some(call) = call_named(name, numbers) else {
            return Err(Fail::new("no such call"));
        };
        assert_eq!(rt; shadow.class(&call, &memory, 16), class);
        assert_eq!(rt; shadow.answer(&call).is_some(), class == Class::Answer);
        let look = shadow.look(&call, &memory, 16, &mut Pieces::new());
        assert_eq!(rt; look.becomes.class(), class);
    }
    Ok(())
}

// A spelling has a header and a slot for each argument, and two slots and one for each eight bytes of a piece. Each vertex
// here has 16 bytes, and memory ends within the fifth. Indices are 0. The images have 14 and 64 bytes.
#[test]
fn a_call_longer_than_a_batch_waits(rt: HostRuntime) -> Result<(), Fail> {
    let memory = ClientMemory::new(rt.alloc(), 68)?;
    let mut shadow = Shadow::new();
    let image = [0x0DE1, 0, 0x1907, 2, 2, 0, 0x1907, 0x1401, 4];
    let zeros = [0x0DE1, 0, 0x1907, 2, 2, 0, 0x1907, 0x1401, 0];
    let part = [0x0DE1, 0, 0, 0, 4, 4, 0x1908, 0x1401, 4];
    let rows = [
        ("Viewport", [0, 0, 1, 1].as_slice(), 5),
        ("DrawArrays", [4, 0, 3].as_slice(), 4),
        ("EnableClientState", [0x8074].as_slice(), 2),
        ("DrawArrays", [4, 0, 3].as_slice(), 12),
        ("DrawArrays", [4, 0, 4].as_slice(), 14),
        ("DrawArrays", [4, 0, 5].as_slice(), 15),
        ("DrawArrays", [4, 0, 65536].as_slice(), 15),
        ("DrawArrays", [4, 0, 65537].as_slice(), 4),
        ("LoadMatrixx", [4].as_slice(), 12),
        ("MultMatrixx", [20].as_slice(), 10),
        ("MultMatrixx", [68].as_slice(), 2),
        ("DrawElements", [4, 2, 0x1401, 60].as_slice(), 12),
        ("DrawElements", [4, 9, 0x1403, 48].as_slice(), 14),
        ("DeleteTextures", [3, 4].as_slice(), 7),
        ("BufferData", [0x8892, 16, 4, 0x88E4].as_slice(), 5),
        ("BindBuffer", [0x8892, 5].as_slice(), 3),
        ("BufferData", [0x8892, 16, 4, 0x88E4].as_slice(), 9),
        ("BufferData", [0x8892, 16, 0, 0x88E4].as_slice(), 5),
        ("BufferSubData", [0x8892, 0, 16, 60].as_slice(), 8),
        ("TexEnvxv", [0x2300, 0x2201, 60].as_slice(), 7),
        ("TexImage2D", image.as_slice(), 14),
        ("TexImage2D", zeros.as_slice(), 10),
        ("TexSubImage2D", part.as_slice(), 20),
    ];
    for (name, numbers, slots) in rows {
        let Some(call) = call_named(name, numbers) else {
            return Err(Fail::new("no such call"));
        };
        let look = shadow.look(&call, &memory, slots, &mut Pieces::new());
        assert_eq!(rt; look.becomes.class(), Class::Defer);
        assert_eq!(rt;
            shadow.class(&call, &memory, slots.saturating_sub(1)),
            Class::Sync
        );
        shadow.note(&call, &memory, look.fault);
    }
    Ok(())
}

/// The starts and lengths of pieces.
fn places_of(pieces: &Pieces) -> [Option<(u64, u64)>; 5] {
    let mut places = [None; 5];
    for at in 0..pieces.len().min(5) {
        let piece = pieces.at(at);
        places[at] = Some((piece.start, piece.len));
    }
    places
}

// Another program spells each of these calls, in this order, with these pieces. Memory ends at 200; the draws without a piece
// after the first of colours are past it, of no elements, or have an error. The indices at 150 are 4, 2 and 3.
#[test]
fn what_reads_memory_is_put_off_with_its_pieces(rt: HostRuntime) -> Result<(), Fail> {
    let mut memory = ClientMemory::new(rt.alloc(), 200)?;
    memory.write(150, &[4, 2, 3]);
    let mut shadow = Shadow::new();
    let rows = [
        ("DrawArrays", [4, 0, 3].as_slice(), [].as_slice()),
        (
            "VertexPointer",
            [2, 0x1400, 0, 16].as_slice(),
            [].as_slice(),
        ),
        ("EnableClientState", [0x8074].as_slice(), [].as_slice()),
        ("DrawArrays", [4, 0, 3].as_slice(), [(16, 6)].as_slice()),
        (
            "ColorPointer",
            [4, 0x1401, 0, 190].as_slice(),
            [].as_slice(),
        ),
        ("EnableClientState", [0x8076].as_slice(), [].as_slice()),
        (
            "DrawArrays",
            [4, 1, 3].as_slice(),
            [(18, 6), (194, 6)].as_slice(),
        ),
        (
            "DrawArrays",
            [0, 1, 3].as_slice(),
            [(18, 6), (194, 6)].as_slice(),
        ),
        ("DrawArrays", [4, 91, 3].as_slice(), [(198, 2)].as_slice()),
        ("DrawArrays", [4, 92, 3].as_slice(), [].as_slice()),
        ("DrawArrays", [4, 0, 0].as_slice(), [].as_slice()),
        ("DrawArrays", [4, 0, -1].as_slice(), [].as_slice()),
        ("DrawArrays", [4, -1, 3].as_slice(), [].as_slice()),
        (
            "DrawArrays",
            [4, 0, 65536].as_slice(),
            [(16, 184), (190, 10)].as_slice(),
        ),
        ("DrawArrays", [4, 0, 65537].as_slice(), [].as_slice()),
        ("DrawArrays", [7, 0, 3].as_slice(), [].as_slice()),
        ("LoadMatrixx", [100].as_slice(), [(100, 64)].as_slice()),
        ("MultMatrixx", [150].as_slice(), [(150, 50)].as_slice()),
        ("LoadMatrixx", [199].as_slice(), [(199, 1)].as_slice()),
        ("MultMatrixx", [200].as_slice(), [].as_slice()),
        ("LoadMatrixx", [4294967295].as_slice(), [].as_slice()),
        ("DisableClientState", [0x8074].as_slice(), [].as_slice()),
        ("DrawArrays", [4, 0, 3].as_slice(), [].as_slice()),
        ("EnableClientState", [0x8074].as_slice(), [].as_slice()),
        ("DisableClientState", [0x8076].as_slice(), [].as_slice()),
        ("DrawArrays", [6, 2, 1].as_slice(), [(20, 2)].as_slice()),
        (
            "DrawElements",
            [4, 3, 0x1401, 150].as_slice(),
            [(20, 6), (150, 3)].as_slice(),
        ),
        (
            "DrawElements",
            [4, 1, 0x1403, 151].as_slice(),
            [(151, 2)].as_slice(),
        ),
        (
            "DrawElements",
            [4, 3, 0x1402, 150].as_slice(),
            [].as_slice(),
        ),
        ("DeleteTextures", [2, 96].as_slice(), [(96, 8)].as_slice()),
        (
            "BufferData",
            [0x8892, 8, 100, 0x88E4].as_slice(),
            [].as_slice(),
        ),
        ("BindBuffer", [0x8892, 5].as_slice(), [].as_slice()),
        (
            "BufferData",
            [0x8892, 8, 196, 0x88E4].as_slice(),
            [(196, 4)].as_slice(),
        ),
        (
            "BufferSubData",
            [0x8892, 3, 2, 0].as_slice(),
            [(0, 2)].as_slice(),
        ),
        (
            "DrawElements",
            [4, 3, 0x1401, 150].as_slice(),
            [(20, 6), (150, 3)].as_slice(),
        ),
        ("BindBuffer", [0x8893, 7].as_slice(), [].as_slice()),
        (
            "DrawElements",
            [4, 0, 0x1401, 150].as_slice(),
            [].as_slice(),
        ),
        (
            "DrawElements",
            [4, -1, 0x1401, 150].as_slice(),
            [].as_slice(),
        ),
        (
            "VertexPointer",
            [2, 0x1400, 0, 16].as_slice(),
            [].as_slice(),
        ),
        (
            "DrawElements",
            [4, 3, 0x1401, 150].as_slice(),
            [].as_slice(),
        ),
        (
            "TexEnvxv",
            [0x2300, 0x2201, 190].as_slice(),
            [(190, 10)].as_slice(),
        ),
        ("TexEnvxv", [0x2300, 0x2200, 100].as_slice(), [].as_slice()),
        (
            "TexImage2D",
            [0x0DE1, 0, 0x1907, 2, 2, 0, 0x1907, 0x1401, 32].as_slice(),
            [(32, 14)].as_slice(),
        ),
        (
            "TexImage2D",
            [0x0DE1, 0, 0x1907, 2, 2, 0, 0x1907, 0x1401, 0].as_slice(),
            [].as_slice(),
        ),
        (
            "TexImage2D",
            [0x0DE1, 0, 0x1909, 3, 4, 0, 0x1909, 0x1401, 20].as_slice(),
            [].as_slice(),
        ),
        ("PixelStorei", [0x0CF5, 1].as_slice(), [].as_slice()),
        (
            "TexImage2D",
            [0x0DE1, 0, 0x1907, 2, 2, 0, 0x1907, 0x1401, 32].as_slice(),
            [(32, 12)].as_slice(),
        ),
        (
            "TexSubImage2D",
            [0x0DE1, 0, 0, 0, 3, 3, 0x1907, 0x1401, 0].as_slice(),
            [(0, 27)].as_slice(),
        ),
        (
            "TexSubImage2D",
            [0x0DE1, 0, 0, 0, 0, 9, 0x1908, 0x1401, 10].as_slice(),
            [].as_slice(),
        ),
        (
            "TexParameteri",
            [0x0DE1, 0x2802, 0x2901].as_slice(),
            [].as_slice(),
        ),
    ];
    for (name, numbers, pieces) in rows {
        let Some(call) = call_named(name, numbers) else {
            return Err(Fail::new("no such call"));
        };
        let mut found = Pieces::new();
        let look = shadow.look(&call, &memory, 1024, &mut found);
        assert_eq!(rt; look.becomes.class(), Class::Defer);
        let places = places_of(&found);
        for at in 0..5 {
            assert_eq!(rt; places[at], pieces.get(at).copied());
        }
        shadow.note(&call, &memory, look.fault);
    }
    capture_law();
    Ok(())
}

// By another program.
#[test]
fn a_draw_by_indices_in_a_buffer_waits_beside_an_array_in_client_memory(
    rt: HostRuntime,
) -> Result<(), Fail> {
    let memory = ClientMemory::new(rt.alloc(), 200)?;
    let mut shadow = Shadow::new();
    let draw = [4, 3, 0x1401, 0].as_slice();
    let rows = [
        ("BindBuffer", [0x8893, 7].as_slice(), Class::Defer),
        ("DrawElements", draw, Class::Defer),
        ("EnableClientState", [0x8074].as_slice(), Class::Defer),
        ("DrawElements", draw, Class::Sync),
        ("DrawElements", [4, 0, 0x1401, 0].as_slice(), Class::Defer),
        ("DrawElements", [7, 3, 0x1401, 0].as_slice(), Class::Defer),
        ("DrawArrays", [4, 0, 3].as_slice(), Class::Defer),
        ("BindBuffer", [0x8892, 5].as_slice(), Class::Defer),
        ("VertexPointer", [2, 0x1400, 0, 0].as_slice(), Class::Defer),
        ("DrawElements", draw, Class::Defer),
        ("EnableClientState", [0x8075].as_slice(), Class::Defer),
        ("DrawElements", draw, Class::Sync),
        ("BindBuffer", [0x8893, 0].as_slice(), Class::Defer),
        ("DrawElements", draw, Class::Defer),
    ];
    for (name, numbers, class) in rows {
        let Some(call) = call_named(name, numbers) else {
            return Err(Fail::new("no such call"));
        };
        let look = shadow.look(&call, &memory, 1024, &mut Pieces::new());
        assert_eq!(rt; look.becomes.class(), class);
        shadow.note(&call, &memory, look.fault);
    }
    Ok(())
}

#[test]
fn a_flush_alone_sends_the_batch(rt: HostRuntime) {
    let rows = [
        (Call::Clear { mask: 0 }, false),
        (Call::Flush, true),
        (Call::Finish, false),
        (Call::GetError, false),
        (Call::PushMatrix, false),
    ];
    for (call, sends) in rows {
        assert_eq!(rt; sends_batch(&call), sends);
    }
}
