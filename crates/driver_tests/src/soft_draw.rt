//! Frames that Clear and draws leave. The pictures are those of another program, and names stand as their numbers.

use crate::soft::{call_spelled, new_soft};
use driver_trait::Driver;
use fragment_ops::Frame;
use gl_memory::ClientMemory;
use std::alloc::Global;
use std::test::Fail;
use std::thread::Threads;

/// Red, green and blue of 16 pixels, the rows from the top.
pub(crate) type Picture = [u32; 16];

/// Carries out calls, a line each, on a new context of 4 by 4 pixels, and gives its frame.
pub(crate) fn frame_after<T: Threads + Sync>(
    rt: &T,
    alloc: Global,
    calls: &str,
    memory: &ClientMemory,
) -> Result<Frame, Fail> {
    let mut soft = new_soft(alloc, 0, 4, 4)?;
    for spelling in calls.lines() {
        let Some(call) = call_spelled(spelling) else {
            return Err(Fail::new("no such call"));
        };
        soft.call(rt, &call, memory)?;
    }
    Ok(soft.into_parts().0)
}

/// Whether a frame has a picture.
pub(crate) fn shows(frame: &Frame, picture: &Picture) -> bool {
    for row in 0..4_usize {
        for column in 0..4_usize {
            let [red, green, blue, _] = frame.pixel(column as i32, 3 - row as i32);
            let colour = u32::from(red) * 65536 + u32::from(green) * 256 + u32::from(blue);
            if picture[row * 4 + column] != colour {
                return false;
            }
        }
    }
    true
}

/// A scissor inside the frame, one that isn't enabled, one that lies partly outside, and one without a column.
const SCISSORS: [(&str, Picture); 4] = [
    (
        "ClearColorx 65536 0 32768 65536\nEnable 3089\nScissor 1 1 2 3\nClear 16384",
        [
            0, 0xff0080, 0xff0080, 0, 0, 0xff0080, 0xff0080, 0, 0, 0xff0080, 0xff0080, 0, 0, 0, 0,
            0,
        ],
    ),
    (
        "ClearColorx 65536 0 32768 65536\nScissor 1 1 2 3\nClear 16384",
        [0xff0080; 16],
    ),
    (
        "ClearColorx 65536 0 32768 65536\nEnable 3089\nScissor -1 2 3 2147483647\nClear 16384",
        [
            0xff0080, 0xff0080, 0, 0, 0xff0080, 0xff0080, 0, 0, 0, 0, 0, 0, 0, 0, 0, 0,
        ],
    ),
    (
        "ClearColorx 65536 0 32768 65536\nEnable 3089\nScissor 1 1 0 3\nClear 16384",
        [0; 16],
    ),
];

#[test]
fn a_clear_stays_inside_the_scissor(rt: HostRuntime) -> Result<(), Fail> {
    let memory = ClientMemory::new(rt.alloc(), 0)?;
    for (calls, picture) in &SCISSORS {
        let frame = frame_after(&rt, rt.alloc(), calls, &memory)?;
        assert!(rt; shows(&frame, picture));
    }
    Ok(())
}

// The frame is 64, 32, 16 and 0 before; that alpha is kept or not is worked by hand.
#[test]
fn a_clear_writes_the_parts_whose_mask_is_on(rt: HostRuntime) -> Result<(), Fail> {
    let memory = ClientMemory::new(rt.alloc(), 0)?;
    let first = "ClearColorx 16384 8192 4096 0\nClear 16384\nClearColorx 65536 65536 65536 65536";
    let rows: [(&str, [u8; 4]); 6] = [
        ("ColorMask 1 0 0 0", [255, 32, 16, 0]),
        ("ColorMask 0 1 0 0", [64, 255, 16, 0]),
        ("ColorMask 0 0 1 0", [64, 32, 255, 0]),
        ("ColorMask 0 0 0 1", [64, 32, 16, 255]),
        ("ColorMask 0 0 0 0", [64, 32, 16, 0]),
        ("ColorMask 1 1 1 1", [255, 255, 255, 255]),
    ];
    for (mask, pixel) in rows {
        let calls = format!(in rt.alloc(); "{first}\n{mask}\nClear 16384")?;
        let frame = frame_after(&rt, rt.alloc(), &calls, &memory)?;
        for cell in frame.cells() {
            assert_eq!(rt; cell.colour, pixel);
        }
    }
    Ok(())
}

/// The lower left half of the frame, which two corners and the origin make.
const HALF: Picture = [
    0, 0, 0, 0, 0xffffff, 0, 0, 0, 0xffffff, 0xffffff, 0, 0, 0xffffff, 0xffffff, 0xffffff, 0,
];

/// Where the depth is cleared to 0 no fragment passes: everywhere, nowhere under the mask, nowhere where its bit isn't set,
/// and in the left half alone, also where the colour is cleared with it.
const DEPTHS: [(&str, Picture); 5] = [
    ("Clear 256", [0; 16]),
    ("DepthMask 0\nClear 256", HALF),
    ("Clear 16384", HALF),
    (
        "Enable 3089\nScissor 0 0 2 4\nClear 256\nDisable 3089",
        [0, 0, 0, 0, 0, 0, 0, 0, 0, 0, 0, 0, 0, 0, 0xffffff, 0],
    ),
    (
        "ClearColorx 0 0 65536 0\nEnable 3089\nScissor 0 0 2 4\nClear 16640\nDisable 3089",
        [
            255, 255, 0, 0, 255, 255, 0, 0, 255, 255, 0, 0, 255, 255, 0xffffff, 0,
        ],
    ),
];

#[test]
fn a_cleared_depth_hides_what_is_drawn(rt: HostRuntime) -> Result<(), Fail> {
    let mut memory = ClientMemory::new(rt.alloc(), 32)?;
    memory.write(16, [255, 255, 1, 255, 255, 1].as_slice());
    let draw = "Enable 2929\nEnableClientState 32884\nVertexPointer 2 5120 0 16\nDrawArrays 4 0 3";
    for (cleared, picture) in &DEPTHS {
        let calls = format!(in rt.alloc(); "ClearDepthx 0\n{cleared}\n{draw}")?;
        let frame = frame_after(&rt, rt.alloc(), &calls, &memory)?;
        assert!(rt; shows(&frame, picture));
    }
    Ok(())
}

/// Corners of whole numbers, as bytes, of which 255 is -1.
const CORNERS: [u8; 8] = [255, 255, 1, 255, 255, 1, 1, 1];

/// Three corners of four FIXED numbers, of which the third lies behind the eye.
const BEHIND: [u8; 48] = [
    0, 0, 255, 255, 0, 0, 255, 255, 0, 0, 0, 0, 0, 0, 1, 0, 0, 0, 0, 0, 0, 0, 255, 255, 0, 0, 0, 0,
    0, 0, 1, 0, 0, 0, 0, 0, 0, 0, 3, 0, 0, 0, 0, 0, 0, 0, 255, 255,
];

/// Three corners in client memory; all of them zeros; a third one past the end of memory, which reads as zeros; a square of
/// two triangles that are added, so that a pixel drawn twice or not at all would show; and a corner behind the eye.
const DRAWS: [(u32, &[u8], &str, Picture); 5] = [
    (
        16,
        &CORNERS,
        "VertexPointer 2 5120 0 16\nDrawArrays 4 0 3",
        HALF,
    ),
    (
        0,
        &[],
        "VertexPointer 4 5132 32 0\nDrawArrays 4 0 3",
        [0; 16],
    ),
    (
        44,
        &CORNERS,
        "VertexPointer 2 5120 0 44\nDrawArrays 4 0 3",
        [
            0, 0, 0, 0, 0, 0, 0, 0, 0, 0xffffff, 0, 0, 0xffffff, 0xffffff, 0xffffff, 0,
        ],
    ),
    (
        16,
        &CORNERS,
        "VertexPointer 2 5120 0 16\nEnable 3042\nBlendFunc 1 1\nColor4x 16384 16384 16384 16384\nDrawArrays 5 0 4",
        [0x404040; 16],
    ),
    (
        0,
        &BEHIND,
        "VertexPointer 4 5132 0 0\nDrawArrays 4 0 3",
        [
            0xffffff, 0xffffff, 0, 0, 0xffffff, 0xffffff, 0, 0, 0xffffff, 0xffffff, 0, 0, 0xffffff,
            0xffffff, 0, 0,
        ],
    ),
];

#[test]
fn a_draw_leaves_its_picture(rt: HostRuntime) -> Result<(), Fail> {
    for (at, bytes, draw, picture) in &DRAWS {
        let mut memory = ClientMemory::new(rt.alloc(), 48)?;
        memory.write(u64::from(*at), *bytes);
        let calls = format!(in rt.alloc(); "EnableClientState 32884\n{draw}")?;
        let frame = frame_after(&rt, rt.alloc(), &calls, &memory)?;
        assert!(rt; shows(&frame, picture));
    }
    Ok(())
}
