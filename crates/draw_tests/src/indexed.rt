//! Indices at the edges of their types and of memories, and arrays at the ends of theirs. The pictures are those of another program.

ghost use Rattle.triangle_draw.specs.Drawing.{IsDrawing};

use crate::cases::{Case, PLAIN};
use crate::drawings::{Indices, array_of, colour_at, drawing_of, elements_of, stage_of};
use crate::stores::{BUFFER, Stores, bytes_at};
use fragment_ops::Frame;
use gl_tracked::ArrayState;
use std::alloc::Global;
use std::process::Abort;
use std::test::Fail;
use triangle_draw::{Drawing, draw};

/// The corners of a square, of a byte for x and one for y: -1 and -1, 1 and -1, -1 and 1, 1 and 1.
const SQUARE: [u8; 8] = [255, 255, 1, 255, 255, 1, 1, 1];

/// The square and behind it the indices 2, 1 and 3.
const SQUARE_INDEXED: [u8; 11] = [255, 255, 1, 255, 255, 1, 1, 1, 2, 1, 3];

/// The triangle of its corners 0, 1 and 2.
const LOWER: &[u8; 16] = b"0000F000FF00FFF0";

/// The triangle of its corners 1, 2 and 3.
const UPPER: &[u8; 16] = b"FFFF0FFF00FF000F";

/// The triangle of its corners 0 and 1, and of its middle.
const BOTTOM: &[u8; 16] = b"000000000F00FFF0";

/// Nothing.
const NONE: &[u8; 16] = b"0000000000000000";

/// One triangle: where its array lies, where its indices, what the buffer holds, and the picture.
#[derive(Clone, Copy)]
struct Row {
    array: (u32, u32),
    indices: Option<(u32, u32, u32)>,
    buffer: &'static [u8],
    picture: &'static [u8; 16],
}

/// In client memory lie the square from 16 on, as bytes the indices 2, 1, 3 from 32 on, and as shorts 2, 1, 3 from 40 on and 2,
/// 1, 65535 from 48 on. The element 65535 is the corner 3 once more, and ends the memory.
const ROWS: [Row; 15] = [
    // indices of both sizes, and the greatest
    Row {
        array: (0, 16),
        indices: Some((0, 0x1401, 32)),
        buffer: &[],
        picture: UPPER,
    },
    Row {
        array: (0, 16),
        indices: Some((0, 0x1403, 40)),
        buffer: &[],
        picture: UPPER,
    },
    Row {
        array: (0, 16),
        indices: Some((0, 0x1403, 48)),
        buffer: &[],
        picture: UPPER,
    },
    // indices in the buffer, whose last ones end it, lie past its end, and lie across it
    Row {
        array: (0, 16),
        indices: Some((BUFFER, 0x1401, 0)),
        buffer: &[2, 1, 3],
        picture: UPPER,
    },
    Row {
        array: (0, 16),
        indices: Some((BUFFER, 0x1401, 1)),
        buffer: &[3, 1, 2],
        picture: LOWER,
    },
    Row {
        array: (0, 16),
        indices: Some((BUFFER, 0x1403, 0)),
        buffer: &[1, 0, 2, 0, 3],
        picture: UPPER,
    },
    // all of them at its end, and far past it
    Row {
        array: (0, 16),
        indices: Some((BUFFER, 0x1401, 3)),
        buffer: &[2, 1, 3],
        picture: NONE,
    },
    Row {
        array: (0, 16),
        indices: Some((BUFFER, 0x1403, 4_294_967_295)),
        buffer: &[2, 1, 3],
        picture: NONE,
    },
    // a buffer that there isn't
    Row {
        array: (0, 16),
        indices: Some((8, 0x1401, 32)),
        buffer: &[2, 1, 3],
        picture: NONE,
    },
    // an array in the buffer
    Row {
        array: (BUFFER, 0),
        indices: Some((0, 0x1401, 32)),
        buffer: &SQUARE,
        picture: UPPER,
    },
    Row {
        array: (BUFFER, 0),
        indices: Some((BUFFER, 0x1401, 8)),
        buffer: &SQUARE_INDEXED,
        picture: UPPER,
    },
    // its third element past the end, and all of them
    Row {
        array: (BUFFER, 0),
        indices: None,
        buffer: &[255, 255, 1, 255],
        picture: BOTTOM,
    },
    Row {
        array: (BUFFER, 8),
        indices: None,
        buffer: &SQUARE,
        picture: NONE,
    },
    Row {
        array: (BUFFER, 4_294_967_295),
        indices: None,
        buffer: &SQUARE,
        picture: NONE,
    },
    // a buffer that there isn't
    Row {
        array: (8, 16),
        indices: None,
        buffer: &SQUARE,
        picture: NONE,
    },
];

/// The indices of a row.
fn indices_of(row: Row) -> Option<Indices> {
    match row.indices {
        Some((buffer, kind, place)) => Some(Indices {
            buffer,
            kind,
            place,
        }),
        None => None,
    }
}

/// What draws the triangle of a row in white into four columns and rows.
fn drawing_by<'a>(row: Row) -> Drawing<'a>
    ensures { IsDrawing result }
{
    let (buffer, pointer) = row.array;
    let vertices = ArrayState {
        buffer,
        ..array_of(2, 0x1400, 0, pointer)
    };
    let colours = ArrayState {
        enabled: false,
        ..array_of(4, 0x1401, 0, 0)
    };
    let case = Case {
        view: ([0, 0], [4, 4]),
        ..PLAIN
    };
    drawing_of(stage_of(vertices, colours, true, 65536), None, None, case)
}

/// A row's triangle is its picture: F for each pixel that is white, the rows from the top; the others are black.
fn is_drawn(rt: &impl Abort, alloc: Global, stores: &Stores, row: Row) -> Result<(), Fail> {
    let mut frame = Frame::new(alloc, 4, 4)?;
    let elements = elements_of(indices_of(row), 0);
    draw(&mut frame, &drawing_by(row), stores, 4, elements, 3);
    for y in 0..4_u8 {
        for x in 0..4_u8 {
            let drawn = row.picture[4 * usize::from(y) + usize::from(x)] == b'F';
            let wanted = if drawn { 0xFF_FFFF } else { 0 };
            assert_eq!(rt; colour_at(&frame, x, 3 - y), wanted, "column {x} row {y}");
        }
    }
    Ok(())
}

#[test]
fn indices_and_arrays_are_zeros_past_the_end_of_their_memory(rt: HostRuntime) -> Result<(), Fail> {
    let mut client = bytes_at(rt.alloc(), 131_088, 16, SQUARE.as_slice())?;
    client.write(32, [2, 1, 3].as_slice());
    client.write(40, [2, 0, 1, 0, 3, 0].as_slice());
    client.write(48, [2, 0, 1, 0, 255, 255].as_slice());
    client.write(131_086, [1, 1].as_slice());
    let buffer = bytes_at(rt.alloc(), 0, 0, [].as_slice())?;
    let mut stores = Stores { client, buffer };
    for row in ROWS {
        stores.buffer = bytes_at(rt.alloc(), row.buffer.len().min(64) as u32, 0, row.buffer)?;
        is_drawn(&rt, rt.alloc(), &stores, row)?;
    }
    Ok(())
}
