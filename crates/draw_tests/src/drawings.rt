//! What the draws of tests go by.

ghost use Rattle.std.specs.Prelude.{pos, ◌≤ℤ◌, Contains};
ghost use Rattle.gl_tracked.specs.Tracked.{array_types, IsArray};
ghost use Rattle.fragment_ops.specs.State.{IsFragmentState, IsWithinOne};
ghost use Rattle.triangle_draw.specs.Drawing.{IsDrawing};
ghost use Rattle.triangle_draw.specs.Elements.{AreElements};
ghost use Rattle.vertex_stage.specs.Vertex.{HasArrays};

use crate::cases::Case;
use fixed_transform::Matrix;
use fragment_ops::{FragmentState, Frame};
use gl_tracked::ArrayState;
use std::process::Abort;
use std::test::Fail;
use triangle_draw::{Drawing, Elements, Unit};
use triangle_raster::View;
use vertex_stage::{Stage, Texturing};

/// A fixed number of so many quarters, up to four.
fn quarters(part: u8) -> i32
    ensures { IsWithinOne result }
{
    16384 * i32::from(part % 5)
}

/// An array that is on, of elements of so many numbers of a type, from a place on.
pub(crate) fn array_of(size: i32, kind: u32, stride: u32, pointer: u32) -> ArrayState
    requires some { pos 1 ≤ℤ size }
    requires few { size ≤ℤ pos 4 }
    requires typed { Contains array_types kind }
    ensures { IsArray result }
{
    ArrayState {
        enabled: true,
        size,
        kind,
        stride: (stride % 0x8000_0000) as i32,
        pointer,
        buffer: 0,
    }
}

/// What the vertices of these arrays are made from, over identities; the current colour has this number in each part.
pub(crate) fn stage_of(
    vertex: ArrayState,
    colour: ArrayState,
    is_smooth: bool,
    current: i32,
) -> Stage
    requires vertex { IsArray vertex }
    requires colour { IsArray colour }
    ensures { HasArrays result }
{
    let unit = Texturing {
        coordinates: ArrayState {
            enabled: false,
            ..array_of(4, 0x140C, 0, 0)
        },
        current: [0, 0, 0, 65536],
        matrix: Matrix::identity(),
    };
    Stage {
        vertex,
        colour,
        current_colour: [current; 4],
        first_unit: unit,
        second_unit: unit,
        model_view: Matrix::identity(),
        projection: Matrix::identity(),
        is_smooth,
    }
}

/// What becomes of the fragments of a case.
fn fragments_of(case: Case) -> FragmentState
    ensures { IsFragmentState result }
{
    let ([x, y], [width, height]) = case.scissor;
    FragmentState {
        scissor_on: case.scissor_on,
        scissor: [
            i32::from(x),
            i32::from(y),
            i32::from(width),
            i32::from(height),
        ],
        alpha_on: false,
        alpha_func: 0x207,
        alpha_reference: 0,
        depth_on: case.depth_on,
        depth_func: 0x201,
        depth_mask: true,
        blend_on: case.blend_on,
        source_factor: 1,
        dest_factor: 1,
        colour_mask: [true; 4],
        clear_colour: [0; 4],
        clear_depth: quarters(case.clear_depth),
    }
}

/// What a case draws by, with these vertices and these units.
pub(crate) fn drawing_of<'a>(
    stage: Stage,
    first_unit: Option<Unit<'a>>,
    second_unit: Option<Unit<'a>>,
    case: Case,
) -> Drawing<'a>
    requires arrays { HasArrays stage }
    ensures { IsDrawing result }
{
    let ([x, y], [width, height]) = case.view;
    Drawing {
        stage,
        view: View {
            x: i32::from(x),
            y: i32::from(y),
            width: i32::from(width),
            height: i32::from(height),
        },
        depth_range: [quarters(case.range[0]), quarters(case.range[1])],
        culls: case.culls,
        cull_face: case.cull_face,
        front_face: case.front_face,
        first_unit,
        second_unit,
        fragments: fragments_of(case),
    }
}

/// The colour in a column and a row, from the lower left corner.
pub(crate) fn colour_at(frame: &Frame, column: u8, row: u8) -> u32 {
    let [red, green, blue, _] = frame.pixel(i32::from(column), i32::from(row));
    u32::from(red) * 65536 + u32::from(green) * 256 + u32::from(blue)
}

/// The frame has these colours, the rows from the top.
pub(crate) fn is_shown(rt: &impl Abort, frame: &Frame, picture: &[u32; 20]) -> Result<(), Fail> {
    for row in 0..4_u8 {
        for column in 0..5_u8 {
            assert_eq!(rt;
                colour_at(frame, column, 3 - row),
                picture[5 * usize::from(row) + usize::from(column)],
                "column {column} row {row}"
            );
        }
    }
    Ok(())
}

/// Indices of a type, which lie from a place on in the memory with the number `buffer`.
#[derive(Clone, Copy)]
pub(crate) struct Indices {
    pub buffer: u32,
    pub kind: u32,
    pub place: u32,
}

/// The elements that indices name, or where there are none consecutive ones.
pub(crate) fn elements_of(indices: Option<Indices>, first: u16) -> Elements
    ensures { AreElements result }
{
    match indices {
        Some(indices) => Elements::Indexed {
            buffer: indices.buffer,
            kind: indices.kind,
            place: indices.place,
        },
        None => Elements::From(u32::from(first)),
    }
}
