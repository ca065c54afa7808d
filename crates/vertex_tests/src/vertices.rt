//! Vertices of elements of each type.

ghost use Rattle.std.specs.Prelude.{pos, ◌≤ℤ◌, Contains};
ghost use Rattle.gl_tracked.specs.Tracked.{array_types, IsArray};
ghost use Rattle.vertex_stage.specs.Vertex.{HasArrays};

use crate::stores::{BUFFER, Stores};
use fixed_transform::Matrix;
use gl_memory::ClientMemory;
use gl_tracked::ArrayState;
use std::alloc::{AllocError, Global};
use std::process::Abort;
use std::test::Fail;
use vertex_stage::{Stage, Texturing};

/// An array that is on, of elements of so many numbers of a type, from a place on.
fn array_of(size: i32, kind: u32, stride: u16, pointer: u32) -> ArrayState
    requires some { pos 1 ≤ℤ size }
    requires few { size ≤ℤ pos 4 }
    requires typed { Contains array_types kind }
    ensures { IsArray result }
{
    ArrayState {
        enabled: true,
        size,
        kind,
        stride: i32::from(stride),
        pointer,
        buffer: 0,
    }
}

/// A stage of these arrays of vertices and colours, over identities, whose other values are the current ones.
fn stage_of(vertex: ArrayState, colour: ArrayState, is_smooth: bool) -> Stage
    requires vertex { IsArray vertex }
    requires colour { IsArray colour }
    ensures { HasArrays result }
{
    let unit = Texturing {
        coordinates: ArrayState {
            enabled: false,
            ..array_of(4, 0x140C, 0, 0)
        },
        current: [1, 2, 3, 4],
        matrix: Matrix::identity(),
    };
    Stage {
        vertex,
        colour,
        current_colour: [70_000, 5, -1, 65_536],
        first_unit: unit,
        second_unit: unit,
        model_view: Matrix::identity(),
        projection: Matrix::identity(),
        is_smooth,
    }
}

/// Client memory of 64 bytes, which begins with these, and a buffer of five: 3, 254, 5, 0 and 128.
fn memories_of(alloc: Global, bytes: &[u8]) -> Result<Stores, AllocError> {
    let mut client = ClientMemory::new(alloc, 64)?;
    client.write(0, bytes);
    let mut buffer = ClientMemory::new(alloc, 5)?;
    buffer.write(0, [3, 254, 5, 0, 128].as_slice());
    Ok(Stores { client, buffer })
}

/// The clip position of the element at a place.
fn stands(rt: &impl Abort, memories: &Stores, vertex: ArrayState, place: u16, at: [i32; 4])
    requires vertex { IsArray vertex }
{
    let colour = ArrayState {
        enabled: false,
        ..vertex
    };
    let found = stage_of(vertex, colour, true).vertex(memories, u32::from(place));
    assert_eq!(rt; [found.x, found.y, found.z, found.w], at);
    assert_eq!(rt; found.values, [65_536, 5, 0, 65_536, 1, 2, 4, 1, 2, 4]);
}

#[test]
fn elements_of_each_type_are_read(rt: HostRuntime) -> Result<(), Fail> {
    let bytes = [
        1, 255, 2, 128, 255, 255, 255, 127, 0, 0, 255, 255, 1, 0, 0, 0,
    ];
    let memories = memories_of(rt.alloc(), bytes.as_slice())?;
    stands(
        &rt,
        &memories,
        array_of(2, 0x1400, 0, 0),
        0,
        [65_536, -65_536, 0, 65_536],
    );
    stands(
        &rt,
        &memories,
        array_of(3, 0x1400, 1, 0),
        1,
        [-65_536, 131_072, -8_388_608, 65_536],
    );
    stands(
        &rt,
        &memories,
        array_of(2, 0x1402, 0, 2),
        0,
        [-134_217_728, -65_536, 0, 65_536],
    );
    stands(
        &rt,
        &memories,
        array_of(2, 0x140C, 0, 4),
        0,
        [134_217_728, -65_536, 0, 65_536],
    );
    stands(
        &rt,
        &memories,
        array_of(4, 0x1402, 0, 8),
        0,
        [0, -65_536, 65_536, 0],
    );
    // past the end there are zeros
    stands(&rt, &memories, array_of(4, 0x140C, 0, 60), 1, [0, 0, 0, 0]);
    stands(
        &rt,
        &memories,
        array_of(2, 0x1400, 65_535, 4_294_967_295),
        65_535,
        [0, 0, 0, 65_536],
    );
    Ok(())
}

#[test]
fn colours_are_shares_and_flat_ones_the_last(rt: HostRuntime) -> Result<(), Fail> {
    let bytes = [0, 255, 128, 1, 255, 0, 0, 255, 1, 2, 3, 4];
    let memories = memories_of(rt.alloc(), bytes.as_slice())?;
    let vertex = array_of(2, 0x1400, 0, 0);
    let colour = array_of(4, 0x1401, 0, 0);
    let [one, two, three] = stage_of(vertex, colour, true).corners(&memories, 0, 1, 2);
    assert_eq!(rt; one.values, [0, 65_536, 32_896, 257, 1, 2, 4, 1, 2, 4]);
    assert_eq!(rt; two.values, [65_536, 0, 0, 65_536, 1, 2, 4, 1, 2, 4]);
    assert_eq!(rt; three.values, [257, 514, 771, 1028, 1, 2, 4, 1, 2, 4]);
    let flat = stage_of(vertex, colour, false).corners(&memories, 0, 1, 2);
    for corner in flat {
        assert_eq!(rt; corner.values, three.values);
    }
    assert_eq!(rt; [flat[0].x, flat[1].x, flat[2].x], [one.x, two.x, three.x]);
    Ok(())
}

/// The clip positions of the first element of an array that lies in a memory from a place on.
fn lies(rt: &impl Abort, memories: &Stores, array: ArrayState, rows: &[(u32, u32, [i32; 4])])
    requires array { IsArray array }
{
    for (buffer, pointer, at) in rows {
        let lying = ArrayState {
            buffer: *buffer,
            pointer: *pointer,
            ..array
        };
        stands(rt, memories, lying, 0, *at);
    }
}

#[test]
fn arrays_lie_in_the_memory_of_their_buffer(rt: HostRuntime) -> Result<(), Fail> {
    let memories = memories_of(rt.alloc(), [1, 255, 2, 128].as_slice())?;
    // in the buffer, across its end, at its end and far past it, in one that there isn't, and in client memory
    let bytes = [
        (BUFFER, 0, [196_608, -131_072, 327_680, 65_536]),
        (BUFFER, 3, [0, -8_388_608, 0, 65_536]),
        (BUFFER, 4, [-8_388_608, 0, 0, 65_536]),
        (BUFFER, 5, [0, 0, 0, 65_536]),
        (BUFFER, 4_294_967_295, [0, 0, 0, 65_536]),
        (8, 0, [0, 0, 0, 65_536]),
        (0, 0, [65_536, -65_536, 131_072, 65_536]),
    ];
    lies(&rt, &memories, array_of(3, 0x1400, 0, 0), bytes.as_slice());
    let shorts = [
        (BUFFER, 0, [-33_357_824, 327_680, 0, 65_536]),
        (BUFFER, 3, [-134_217_728, 0, 0, 65_536]),
        (BUFFER, 4, [8_388_608, 0, 0, 65_536]),
    ];
    lies(&rt, &memories, array_of(2, 0x1402, 0, 0), shorts.as_slice());
    let fixed = [
        (BUFFER, 0, [392_707, 128, 0, 65_536]),
        (BUFFER, 2, [8_388_613, 0, 0, 65_536]),
    ];
    lies(&rt, &memories, array_of(2, 0x140C, 0, 0), fixed.as_slice());
    Ok(())
}

/// A unit whose array of coordinates lies in a memory from a place on.
fn unit_of(buffer: u32, pointer: u32) -> Texturing
    ensures { IsArray result.coordinates }
{
    Texturing {
        coordinates: ArrayState {
            buffer,
            ..array_of(2, 0x1400, 0, pointer)
        },
        current: [1, 2, 3, 4],
        matrix: Matrix::identity(),
    }
}

#[test]
fn each_array_lies_in_a_memory_of_its_own(rt: HostRuntime) -> Result<(), Fail> {
    let memories = memories_of(rt.alloc(), [1, 255, 2, 128].as_slice())?;
    let colour = ArrayState {
        buffer: BUFFER,
        ..array_of(4, 0x1401, 0, 0)
    };
    let stage = Stage {
        first_unit: unit_of(BUFFER, 3),
        second_unit: unit_of(0, 0),
        ..stage_of(array_of(2, 0x1400, 0, 2), colour, true)
    };
    let found = stage.vertex(&memories, 0);
    assert_eq!(rt;
        [found.x, found.y, found.z, found.w],
        [131_072, -8_388_608, 0, 65_536]
    );
    assert_eq!(rt;
        found.values,
        [
            771, 65_278, 1_285, 0, 0, -8_388_608, 65_536, 65_536, -65_536, 65_536
        ]
    );
    Ok(())
}
