//! Pieces for draws, matrices, uploads, images, colours and deletions, at values of another program, and each law once.

ghost use Rattle.gl_tracked.specs.Tracked.{IsSound};

use array_capture::laws::{
    bytes_law, colour_law, draw_law, elements_law, images_law, matrix_law, names_law,
};
use array_capture::*;
use gl_memory::{ClientMemory, Pieces};
use gl_tracked::Tracked;
use gl_words::Call;
use std::alloc::{AllocError as NoMemory, Global};
use std::process::Abort;
use std::test::Fail;

const VERTICES: u32 = 0x8074;

const NORMALS: u32 = 0x8075;

const COLOURS: u32 = 0x8076;

const COORDINATES: u32 = 0x8078;

const BYTE: u32 = 0x1400;

const UNSIGNED_BYTE: u32 = 0x1401;

const SHORT: u32 = 0x1402;

const UNSIGNED_SHORT: u32 = 0x1403;

const FIXED: u32 = 0x140C;

/// Takes the steps of calls.
fn take(tracked: &mut Tracked, calls: &[Call], memory: &ClientMemory)
    requires sound { IsSound tracked.old }
    ensures sound { IsSound tracked.new }
{
    for call in calls {
        let fault = tracked.fault(call);
        tracked.note(call, memory, fault);
    }
}

/// Binds a buffer to ARRAY_BUFFER.
fn bind(tracked: &mut Tracked, buffer: u32)
    requires sound { IsSound tracked.old }
    ensures sound { IsSound tracked.new }
{
    tracked.array_buffer = buffer;
}

/// All arrays enabled in client memory, of elements of 12, 6, 4, 3 and 4 bytes.
fn with_all_arrays(memory: &ClientMemory) -> Tracked
    ensures sound { IsSound result }
{
    let mut tracked = Tracked::first();
    let calls = [
        Call::EnableClientState { array: VERTICES },
        Call::EnableClientState { array: NORMALS },
        Call::EnableClientState { array: COLOURS },
        Call::EnableClientState { array: COORDINATES },
        Call::TexCoordPointer {
            size: 3,
            kind: BYTE,
            stride: 5,
            pointer: 20,
        },
        Call::ClientActiveTexture { texture: 0x84C1 },
        Call::EnableClientState { array: COORDINATES },
        Call::TexCoordPointer {
            size: 2,
            kind: SHORT,
            stride: 0,
            pointer: 10,
        },
        Call::ColorPointer {
            size: 4,
            kind: UNSIGNED_BYTE,
            stride: 0,
            pointer: 190,
        },
        Call::NormalPointer {
            kind: SHORT,
            stride: 7,
            pointer: 100,
        },
        Call::VertexPointer {
            size: 3,
            kind: FIXED,
            stride: 0,
            pointer: 0,
        },
    ];
    take(&mut tracked, calls.as_slice(), memory);
    tracked
}

/// Pieces have these starts and lengths.
fn same(rt: &impl Abort, pieces: &Pieces, expected: &[(u64, u64)]) {
    assert_eq!(rt; pieces.len(), expected.len());
    for at in 0..pieces.len() {
        let piece = pieces.at(at);
        assert_eq!(rt;
            expected.get(at),
            Some(&(piece.start, piece.len)),
            "piece {at}"
        );
    }
}

/// Draws of `count` elements from `first` on have the pieces of these starts and lengths.
fn draws(
    rt: &impl Abort,
    tracked: &Tracked,
    memory: &ClientMemory,
    rows: &[(i32, i32, &[(u64, u64)])],
)
    requires sound { IsSound tracked.now }
{
    draw_law(tracked, memory);
    for (first, count, expected) in rows {
        same(
            rt,
            &pieces_of_draw(tracked, *first, *count, memory),
            expected,
        );
    }
}

// By another program. Colours end past memory, where they aren't past it altogether.
#[test]
fn a_draw_has_a_piece_for_each_array(rt: HostRuntime) -> Result<(), Fail> {
    let memory = ClientMemory::new(rt.alloc(), 200)?;
    let tracked = with_all_arrays(&memory);
    let rows: [(i32, i32, &[(u64, u64)]); 8] = [
        (2, 3, &[(24, 36), (114, 20), (198, 2), (30, 13), (18, 12)]),
        (16, 1, &[(192, 8), (100, 3), (74, 4)]),
        (
            0,
            65536,
            &[(0, 200), (100, 100), (190, 10), (20, 180), (10, 190)],
        ),
        (2, 0, &[]),
        (2147483647, 65536, &[]),
        (0, 65537, &[]),
        (-1, 3, &[]),
        (0, -1, &[]),
    ];
    draws(&rt, &tracked, &memory, rows.as_slice());
    Ok(())
}

// By another program: colours disabled, then normals in a buffer, then vertices disabled.
#[test]
fn an_array_that_is_not_read_from_client_memory_has_no_piece(rt: HostRuntime) -> Result<(), Fail> {
    let memory = ClientMemory::new(rt.alloc(), 200)?;
    let mut tracked = with_all_arrays(&memory);
    take(
        &mut tracked,
        [Call::DisableClientState { array: COLOURS }].as_slice(),
        &memory,
    );
    draws(
        &rt,
        &tracked,
        &memory,
        [(2, 3, [(24, 36), (114, 20), (30, 13), (18, 12)].as_slice())].as_slice(),
    );
    bind(&mut tracked, 7);
    take(
        &mut tracked,
        [Call::NormalPointer {
            kind: SHORT,
            stride: 7,
            pointer: 100,
        }]
        .as_slice(),
        &memory,
    );
    draws(
        &rt,
        &tracked,
        &memory,
        [(2, 3, [(24, 36), (30, 13), (18, 12)].as_slice())].as_slice(),
    );
    take(
        &mut tracked,
        [Call::DisableClientState { array: VERTICES }].as_slice(),
        &memory,
    );
    draws(&rt, &tracked, &memory, [(2, 3, [].as_slice())].as_slice());
    Ok(())
}

// By another program.
#[test]
fn a_matrix_has_a_piece_that_ends_with_memory(rt: HostRuntime) -> Result<(), Fail> {
    let memory = ClientMemory::new(rt.alloc(), 200)?;
    matrix_law(&memory);
    let rows: [(u32, &[(u64, u64)]); 6] = [
        (100, &[(100, 64)]),
        (136, &[(136, 64)]),
        (137, &[(137, 63)]),
        (199, &[(199, 1)]),
        (200, &[]),
        (4294967295, &[]),
    ];
    for (pointer, expected) in rows {
        same(&rt, &pieces_of_matrix(pointer, &memory), expected);
    }
    Ok(())
}

/// Draws of `count` elements by indices of a type at a place have the pieces of these starts and lengths.
fn draws_elements(
    rt: &impl Abort,
    tracked: &Tracked,
    memory: &ClientMemory,
    rows: &[(i32, u32, u32, &[(u64, u64)])],
)
    requires sound { IsSound tracked.now }
{
    elements_law(tracked, memory);
    for (count, kind, indices, expected) in rows {
        same(
            rt,
            &pieces_of_elements(tracked, *count, *kind, *indices, memory),
            expected,
        );
    }
}

/// The same memory for all draws by indices: 200 bytes, of which those from 150 on are 4, 2, 3, 2 and 4.
fn with_indices(alloc: Global) -> Result<ClientMemory, NoMemory> {
    let mut memory = ClientMemory::new(alloc, 200)?;
    memory.write(150, &[4, 2, 3, 2, 4]);
    Ok(memory)
}

// By another program. The first four indices are 4, 2, 3 and 2, so that the elements from 2 to 4 are captured; as two numbers of
// UNSIGNED_SHORT they name elements past memory. Indices past the end of memory are 0.
#[test]
fn a_draw_by_indices_has_pieces_from_the_least_to_the_greatest(
    rt: HostRuntime,
) -> Result<(), Fail> {
    let memory = with_indices(rt.alloc())?;
    let tracked = with_all_arrays(&memory);
    let rows: [(i32, u32, u32, &[(u64, u64)]); 10] = [
        (
            4,
            UNSIGNED_BYTE,
            150,
            &[(24, 36), (114, 20), (198, 2), (30, 13), (18, 12), (150, 4)],
        ),
        (
            1,
            UNSIGNED_BYTE,
            151,
            &[(24, 12), (114, 6), (198, 2), (30, 3), (18, 4), (151, 1)],
        ),
        (
            2,
            UNSIGNED_BYTE,
            153,
            &[(24, 36), (114, 20), (198, 2), (30, 13), (18, 12), (153, 2)],
        ),
        (2, UNSIGNED_SHORT, 150, &[(150, 4)]),
        (
            2,
            UNSIGNED_SHORT,
            199,
            &[(0, 12), (100, 6), (190, 4), (20, 3), (10, 4), (199, 1)],
        ),
        (
            3,
            UNSIGNED_BYTE,
            4294967295,
            &[(0, 12), (100, 6), (190, 4), (20, 3), (10, 4)],
        ),
        (
            65536,
            UNSIGNED_SHORT,
            0,
            &[
                (0, 200),
                (100, 100),
                (190, 10),
                (20, 180),
                (10, 190),
                (0, 200),
            ],
        ),
        (0, UNSIGNED_BYTE, 150, &[]),
        (-1, UNSIGNED_BYTE, 150, &[]),
        (65537, UNSIGNED_BYTE, 150, &[]),
    ];
    draws_elements(&rt, &tracked, &memory, rows.as_slice());
    Ok(())
}

// By another program, where the array of vertices is disabled. Where the indices lie in a buffer the draw waits, and nothing is
// captured for it.
#[test]
fn a_draw_by_indices_that_takes_none_has_no_piece(rt: HostRuntime) -> Result<(), Fail> {
    let memory = with_indices(rt.alloc())?;
    let mut tracked = with_all_arrays(&memory);
    let disabled = [Call::DisableClientState { array: VERTICES }];
    let bound = [
        Call::EnableClientState { array: VERTICES },
        Call::BindBuffer {
            target: 0x8893,
            buffer: 7,
        },
    ];
    let none = [(4, UNSIGNED_BYTE, 150, [].as_slice())];
    take(&mut tracked, disabled.as_slice(), &memory);
    draws_elements(&rt, &tracked, &memory, none.as_slice());
    take(&mut tracked, bound.as_slice(), &memory);
    draws_elements(&rt, &tracked, &memory, none.as_slice());
    Ok(())
}

// By another program. BufferData of bytes at 0 stands for zeros, and BufferSubData has no such place.
#[test]
fn bytes_have_a_piece_that_ends_with_memory(rt: HostRuntime) -> Result<(), Fail> {
    let memory = ClientMemory::new(rt.alloc(), 200)?;
    bytes_law(&memory);
    let rows: [(u32, i32, &[(u64, u64)]); 7] = [
        (100, 50, &[(100, 50)]),
        (137, 64, &[(137, 63)]),
        (199, 7, &[(199, 1)]),
        (100, 0, &[]),
        (200, 5, &[]),
        (4294967295, 5, &[]),
        (10, -1, &[]),
    ];
    for (place, size, expected) in rows {
        same(&rt, &pieces_of_data(place, size, &memory), expected);
        same(&rt, &pieces_of_bytes(place, size, &memory), expected);
    }
    same(&rt, &pieces_of_data(0, 50, &memory), &[]);
    same(&rt, &pieces_of_bytes(0, 50, &memory), &[(0, 50)]);
    Ok(())
}

// By another program.
#[test]
fn names_have_a_piece_of_four_bytes_each(rt: HostRuntime) -> Result<(), Fail> {
    let memory = ClientMemory::new(rt.alloc(), 200)?;
    names_law(&memory);
    let rows: [(u32, i32, &[(u64, u64)]); 6] = [
        (100, 2, &[(100, 8)]),
        (190, 3, &[(190, 10)]),
        (0, 256, &[(0, 200)]),
        (10, 0, &[]),
        (200, 1, &[]),
        (10, -1, &[]),
    ];
    for (names, count, expected) in rows {
        same(&rt, &pieces_of_names(names, count, &memory), expected);
    }
    Ok(())
}

/// Images of a format at a place, with sides and an alignment of rows, have the pieces of these starts and lengths.
fn images_have(
    rt: &impl Abort,
    memory: &ClientMemory,
    rows: &[(i32, u32, i32, i32, u32, &[(u64, u64)])],
) {
    for (alignment, format, width, height, pixels, expected) in rows {
        let mut tracked = Tracked::first();
        let aligned = [Call::PixelStorei {
            pname: 0x0CF5,
            param: *alignment,
        }];
        take(&mut tracked, aligned.as_slice(), memory);
        images_law(&tracked, memory);
        same(
            rt,
            &pieces_of_subimage(&tracked, *format, *width, *height, *pixels, memory),
            expected,
        );
        if *pixels != 0 {
            same(
                rt,
                &pieces_of_image(&tracked, *format, *width, *height, *pixels, memory),
                expected,
            );
        }
    }
}

// By another program, for sides that TexSubImage2D takes. The last row isn't padded; memory ends at 200.
#[test]
fn an_image_has_a_piece_without_the_padding_of_its_last_row(rt: HostRuntime) -> Result<(), Fail> {
    let memory = ClientMemory::new(rt.alloc(), 200)?;
    let rows: [(i32, u32, i32, i32, u32, &[(u64, u64)]); 15] = [
        (4, 0x1907, 2, 2, 32, &[(32, 14)]),
        (1, 0x1907, 2, 2, 32, &[(32, 12)]),
        (8, 0x1907, 2, 2, 32, &[(32, 14)]),
        (4, 0x1907, 3, 3, 0, &[(0, 33)]),
        (1, 0x1907, 3, 3, 0, &[(0, 27)]),
        (8, 0x1906, 1, 5, 10, &[(10, 33)]),
        (8, 0x190A, 3, 2, 190, &[(190, 10)]),
        (8, 0x1908, 5, 1, 10, &[(10, 20)]),
        (8, 0x1908, 256, 256, 10, &[(10, 190)]),
        (2, 0x1907, 1, 4, 100, &[(100, 15)]),
        (8, 0x1908, 0, 9, 10, &[]),
        (8, 0x1908, 9, 0, 10, &[]),
        (8, 0x1909, 4, 4, 200, &[]),
        (4, 0x1907, -1, 4, 100, &[]),
        (4, 0x1907, 4, 257, 100, &[]),
    ];
    images_have(&rt, &memory, rows.as_slice());
    let tracked = Tracked::first();
    let zeros = pieces_of_image(&tracked, 0x1907, 2, 2, 0, &memory);
    same(&rt, &zeros, &[]);
    Ok(())
}

// By another program.
#[test]
fn a_colour_has_a_piece_of_sixteen_bytes(rt: HostRuntime) -> Result<(), Fail> {
    let memory = ClientMemory::new(rt.alloc(), 200)?;
    colour_law(&memory);
    let rows: [(u32, &[(u64, u64)]); 3] = [(100, &[(100, 16)]), (190, &[(190, 10)]), (200, &[])];
    for (pointer, expected) in rows {
        same(&rt, &pieces_of_colour(pointer, &memory), expected);
    }
    Ok(())
}
