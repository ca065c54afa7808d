//! Draws into a small frame, of consecutive elements and by indices, in client memory and in a buffer. What a contract says
//! of every cell isn't tried here.

ghost use Rattle.gl_tracked.specs.Tracked.{IsArray};
ghost use Rattle.vertex_stage.specs.Vertex.{HasArrays};

use crate::cases::{CASES, Case, VERTICES};
use crate::drawings::{Indices, array_of, drawing_of, elements_of, is_shown, stage_of};
use crate::stores::{BUFFER, Stores, bytes_at};
use fragment_ops::{FragmentState, Frame};
use gl_tracked::ArrayState;
use std::alloc::{AllocError, Global};
use std::process::Abort;
use std::test::Fail;
use triangle_draw::draw;
use triangle_draw::laws::agreement_law;
use vertex_stage::Stage;

/// Where the arrays of vertices and of colours lie, by the number of their memory, and the indices of the elements from 0 to 5,
/// if there are any.
#[derive(Clone, Copy)]
struct Way {
    vertices: u32,
    colours: u32,
    indices: Option<Indices>,
}

const WAYS: [Way; 6] = [
    Way {
        vertices: 0,
        colours: 0,
        indices: None,
    },
    Way {
        vertices: 0,
        colours: 0,
        indices: Some(Indices {
            buffer: 0,
            kind: 0x1401,
            place: 96,
        }),
    },
    Way {
        vertices: 0,
        colours: 0,
        indices: Some(Indices {
            buffer: BUFFER,
            kind: 0x1403,
            place: 8,
        }),
    },
    Way {
        vertices: BUFFER,
        colours: BUFFER,
        indices: Some(Indices {
            buffer: BUFFER,
            kind: 0x1401,
            place: 0,
        }),
    },
    Way {
        vertices: BUFFER,
        colours: BUFFER,
        indices: None,
    },
    Way {
        vertices: BUFFER,
        colours: 0,
        indices: Some(Indices {
            buffer: 0,
            kind: 0x1403,
            place: 102,
        }),
    },
];

/// The indices from 0 to 5 in one byte each, and in two.
const BYTES: [u8; 6] = [0, 1, 2, 3, 4, 5];

const SHORTS: [u8; 12] = [0, 0, 1, 0, 2, 0, 3, 0, 4, 0, 5, 0];

/// The vertices lie from 0 on in client memory, and from 32 on in the buffer; the indices as the table of ways says.
fn stores(alloc: Global) -> Result<Stores, AllocError> {
    let mut client = bytes_at(alloc, 128, 0, VERTICES.as_slice())?;
    client.write(96, BYTES.as_slice());
    client.write(102, SHORTS.as_slice());
    let mut buffer = bytes_at(alloc, 128, 32, VERTICES.as_slice())?;
    buffer.write(0, BYTES.as_slice());
    buffer.write(8, SHORTS.as_slice());
    Ok(Stores { client, buffer })
}

/// An array of the six vertices, or of their colours, in a memory.
fn lying(array: ArrayState, memory: u32) -> ArrayState
    requires array { IsArray array }
    ensures { IsArray result }
{
    let start = if memory == 0 { 0 } else { 32 };
    ArrayState {
        pointer: array.pointer.saturating_add(start),
        buffer: memory,
        ..array
    }
}

/// The vertices and colours of a case.
fn stage(case: Case, way: Way) -> Stage
    ensures { HasArrays result }
{
    let vertices = ArrayState {
        enabled: case.enabled,
        ..lying(array_of(3, 0x140C, 16, 0), way.vertices)
    };
    let colours = lying(array_of(4, 0x1401, 16, 12), way.colours);
    stage_of(vertices, colours, case.is_smooth, 0)
}

/// The indices of the elements from one on.
fn indices_from(way: Way, first: u16) -> Option<Indices> {
    match way.indices {
        Some(indices) => {
            let bytes = if indices.kind == 0x1401 { 1 } else { 2 };
            Some(Indices {
                place: indices.place.saturating_add(bytes * u32::from(first)),
                ..indices
            })
        }
        None => None,
    }
}

/// The frame after a case is drawn in a way, row by row from the top.
fn is_drawn(
    rt: &impl Abort,
    alloc: Global,
    stores: &Stores,
    case: Case,
    way: Way,
) -> Result<(), Fail> {
    let drawing = drawing_of(stage(case, way), None, None, case);
    agreement_law(&drawing, stores, stores);
    let mut frame = Frame::new(alloc, 5, 4)?;
    let clearing = FragmentState {
        scissor_on: false,
        ..drawing.fragments
    };
    frame.clear(&clearing, true, true);
    let elements = elements_of(indices_from(way, case.first), case.first);
    draw(
        &mut frame,
        &drawing,
        stores,
        case.mode,
        elements,
        u32::from(case.count),
    );
    is_shown(rt, &frame, &case.picture)
}

#[test]
fn draws_are_those_of_the_reference(rt: HostRuntime) -> Result<(), Fail> {
    let stores = stores(rt.alloc())?;
    for case in CASES {
        for way in WAYS {
            is_drawn(&rt, rt.alloc(), &stores, case, way)?;
        }
    }
    Ok(())
}
