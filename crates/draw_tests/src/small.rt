//! Small draws of one colour. Their pictures are those of another program.

ghost use Rattle.gl_tracked.specs.Tracked.{IsArray};

use crate::cases::{Case, PLAIN};
use crate::drawings::{array_of, colour_at, drawing_of, stage_of};
use crate::stores::{Stores, client_alone};
use fragment_ops::Frame;
use gl_tracked::ArrayState;
use std::alloc::Global;
use std::process::Abort;
use std::test::Fail;
use triangle_draw::{Elements, draw};

/// Four columns and four rows: F for each pixel that has this colour, the rows from the top; the others are black.
fn shows(
    rt: &impl Abort,
    alloc: Global,
    stores: &Stores,
    vertex: ArrayState,
    grey: u16,
    case: Case,
    colour: u32,
    picture: &[u8; 16],
) -> Result<(), Fail>
    requires vertex { IsArray vertex }
{
    let others = ArrayState {
        enabled: false,
        ..array_of(4, 0x1401, 0, 0)
    };
    let whole = Case {
        view: ([0, 0], [4, 4]),
        ..case
    };
    let stage = stage_of(vertex, others, true, i32::from(grey) + 1);
    let drawing = drawing_of(stage, None, None, whole);
    let mut frame = Frame::new(alloc, 4, 4)?;
    draw(
        &mut frame,
        &drawing,
        stores,
        case.mode,
        Elements::From(u32::from(case.first)),
        u32::from(case.count),
    );
    for row in 0..4_u8 {
        for column in 0..4_u8 {
            let drawn = picture[4 * usize::from(row) + usize::from(column)] == b'F';
            let wanted = if drawn { colour } else { 0 };
            assert_eq!(rt; colour_at(&frame, column, 3 - row), wanted);
        }
    }
    Ok(())
}

/// White.
const WHITE: u32 = 0xFF_FFFF;

#[test]
fn small_draws_are_those_of_the_reference(rt: HostRuntime) -> Result<(), Fail> {
    let three = Case { count: 3, ..PLAIN };
    let half = [255, 255, 1, 255, 255, 1, 1, 1];
    let memory = client_alone(rt.alloc(), 32, 16, half.as_slice())?;
    let bytes = array_of(2, 0x1400, 0, 16);
    let halves = b"0000F000FF00FFF0";
    shows(&rt, rt.alloc(), &memory, bytes, 65535, three, WHITE, halves)?;
    // two triangles share an edge that runs through centres: each pixel is drawn once
    let strip = Case {
        mode: 5,
        count: 4,
        blend_on: true,
        ..PLAIN
    };
    shows(
        &rt,
        rt.alloc(),
        &memory,
        bytes,
        16383,
        strip,
        0x40_4040,
        b"FFFFFFFFFFFFFFFF",
    )?;
    // memory ends inside the third vertex, and far before all three
    let memory = client_alone(rt.alloc(), 32, 28, half.as_slice())?;
    let at_the_end = array_of(2, 0x1400, 0, 28);
    shows(
        &rt,
        rt.alloc(),
        &memory,
        at_the_end,
        65535,
        three,
        WHITE,
        b"000000000F00FFF0",
    )?;
    let far = Case {
        first: 65533,
        ..three
    };
    let past_the_end = array_of(2, 0x1400, 2_147_483_647, 28);
    shows(
        &rt,
        rt.alloc(),
        &memory,
        past_the_end,
        65535,
        far,
        WHITE,
        b"0000000000000000",
    )?;
    // a vertex behind the eye
    let behind = [
        0, 0, 255, 255, 0, 0, 255, 255, 0, 0, 0, 0, 0, 0, 1, 0, 0, 0, 0, 0, 0, 0, 255, 255, 0, 0,
        0, 0, 0, 0, 1, 0, 0, 0, 0, 0, 0, 0, 3, 0, 0, 0, 0, 0, 0, 0, 255, 255,
    ];
    let memory = client_alone(rt.alloc(), 48, 0, behind.as_slice())?;
    let fixed = array_of(4, 0x140C, 0, 0);
    shows(
        &rt,
        rt.alloc(),
        &memory,
        fixed,
        65535,
        three,
        WHITE,
        b"FF00FF00FF00FF00",
    )?;
    Ok(())
}
