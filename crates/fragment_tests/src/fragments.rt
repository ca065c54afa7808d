//! Fragments and Clear on small frames. Colours and pictures are those of another program, and names stand as their
//! numbers. What a contract says of every cell isn't tried here.

ghost use Rattle.std.specs.Prelude.{◌<◌};
ghost use Rattle.fragment_ops.specs.State.{comparisons, destinations, sources, IsFragmentState, IsOneOf};

use fragment_ops::laws::{blend_law, frame_law, keeping_law};
use fragment_ops::{Cell, FragmentState, Frame};
use std::alloc::{AllocError as NoMemory, Global};
use std::test::Fail;

/// The state of a context at the start, with a clear colour of ones.
fn first_state() -> FragmentState
    ensures { IsFragmentState result }
{
    FragmentState {
        scissor_on: false,
        scissor: [0, 0, 4, 3],
        alpha_on: false,
        alpha_func: 0x207,
        alpha_reference: 0,
        depth_on: false,
        depth_func: 0x201,
        depth_mask: true,
        blend_on: false,
        source_factor: 1,
        dest_factor: 0,
        colour_mask: [true, true, true, true],
        clear_colour: [65536, 65536, 65536, 65536],
        clear_depth: 65536,
    }
}

fn comparison(number: u32) -> u32
    ensures { IsOneOf comparisons result }
{
    match number {
        0x200 => 0x200,
        0x201 => 0x201,
        0x202 => 0x202,
        0x203 => 0x203,
        0x204 => 0x204,
        0x205 => 0x205,
        0x206 => 0x206,
        _ => 0x207,
    }
}

fn source(number: u32) -> u32
    ensures { IsOneOf sources result }
{
    match number {
        0 => 0,
        0x302 => 0x302,
        0x303 => 0x303,
        0x304 => 0x304,
        0x305 => 0x305,
        0x306 => 0x306,
        0x307 => 0x307,
        0x308 => 0x308,
        _ => 1,
    }
}

fn destination(number: u32) -> u32
    ensures { IsOneOf destinations result }
{
    match number {
        1 => 1,
        0x300 => 0x300,
        0x301 => 0x301,
        0x302 => 0x302,
        0x303 => 0x303,
        0x304 => 0x304,
        0x305 => 0x305,
        _ => 0,
    }
}

/// The first state with an alpha test and a depth test by the same comparison, the former against a byte of 100.
fn tested(alpha_on: bool, depth_on: bool, number: u32) -> FragmentState
    ensures { IsFragmentState result }
{
    FragmentState {
        alpha_on,
        alpha_func: comparison(number),
        alpha_reference: 25572,
        depth_on,
        depth_func: comparison(number),
        ..first_state()
    }
}

/// The first state with blending by these factors.
fn blending(source_factor: u32, dest_factor: u32) -> FragmentState
    ensures { IsFragmentState result }
{
    FragmentState {
        blend_on: true,
        source_factor: source(source_factor),
        dest_factor: destination(dest_factor),
        ..first_state()
    }
}

/// Comparisons, each with whether it passes a number that is less than the other, the same, and greater.
const COMPARISONS: [(u32, [bool; 3]); 8] = [
    (0x200, [false, false, false]),
    (0x201, [true, false, false]),
    (0x202, [false, true, false]),
    (0x203, [true, true, false]),
    (0x204, [false, false, true]),
    (0x205, [true, false, true]),
    (0x206, [false, true, true]),
    (0x207, [true, true, true]),
];

#[test]
fn each_comparison_passes_what_it_names(rt: HostRuntime) -> Result<(), Fail> {
    for (number, passes) in COMPARISONS {
        for (passed, near) in [(passes[0], 99), (passes[1], 100), (passes[2], 101)] {
            let wanted = if passed { 255 } else { 0 };
            let mut frame = Frame::new(rt.alloc(), 1, 1)?;
            frame.put(&tested(false, true, 0x207), 0, 0, 100, [0; 4]);
            frame.put(
                &tested(false, true, number),
                0,
                0,
                u16::from(near),
                [255; 4],
            );
            assert_eq!(rt; frame.pixel(0, 0)[0], wanted, "depth {number} {near}");
            let mut frame = Frame::new(rt.alloc(), 1, 1)?;
            frame.put(&tested(true, false, number), 0, 0, 0, [255, 0, 0, near]);
            assert_eq!(rt; frame.pixel(0, 0)[0], wanted, "alpha {number} {near}");
        }
    }
    Ok(())
}

/// Factors of the source and of the destination, the two colours, and what they are blended to.
const BLENDED: [(u32, u32, [u8; 4], [u8; 4], [u8; 4]); 11] = [
    (0, 1, [0, 0, 80, 126], [52, 127, 6, 110], [52, 127, 6, 110]),
    (
        1,
        0x302,
        [255, 0, 255, 0],
        [107, 110, 84, 85],
        [255, 0, 255, 0],
    ),
    (
        0x302,
        0x305,
        [255, 255, 0, 255],
        [74, 135, 33, 169],
        [255, 255, 11, 255],
    ),
    (
        0x303,
        0x300,
        [154, 33, 156, 246],
        [90, 29, 131, 11],
        [59, 5, 86, 20],
    ),
    (
        0x304,
        0x303,
        [0, 187, 0, 0],
        [125, 236, 176, 181],
        [125, 255, 176, 181],
    ),
    (
        0x305,
        0,
        [0, 0, 255, 255],
        [174, 141, 47, 159],
        [0, 0, 96, 96],
    ),
    (
        0x306,
        0x301,
        [255, 40, 0, 0],
        [121, 176, 128, 233],
        [121, 176, 128, 233],
    ),
    (
        0x307,
        0x304,
        [0, 16, 255, 255],
        [222, 190, 76, 30],
        [26, 26, 188, 229],
    ),
    (
        0x308,
        1,
        [255, 5, 140, 147],
        [140, 176, 209, 179],
        [216, 177, 251, 255],
    ),
    (
        0x306,
        0x300,
        [91, 45, 0, 182],
        [186, 143, 248, 135],
        [132, 50, 0, 192],
    ),
    (
        1,
        1,
        [88, 255, 185, 40],
        [87, 215, 154, 138],
        [175, 255, 255, 178],
    ),
];

#[test]
fn each_factor_blends_as_another_program_does(rt: HostRuntime) -> Result<(), Fail> {
    for (source_factor, dest_factor, source, dest, wanted) in BLENDED {
        blend_law(source, dest);
        let mut frame = Frame::new(rt.alloc(), 1, 1)?;
        frame.put(&first_state(), 0, 0, 0, dest);
        frame.put(&blending(source_factor, dest_factor), 0, 0, 0, source);
        assert_eq!(rt; frame.pixel(0, 0), wanted, "{source_factor} {dest_factor}");
    }
    Ok(())
}

/// Whether a place is drawn in a picture of rows from the top, `#` for a pixel that is.
fn drawn(picture: &[u8], x: u32, y: u32) -> bool
    requires { y < 3 }
{
    picture.get((2 - y) as usize * 5 + x as usize) == Some(&b'#')
}

/// Scissor rectangles, each with what Clear leaves in a frame of 4 by 3.
const SCISSORED: [([i32; 4], &[u8]); 8] = [
    ([0, 0, 4, 3], b"####/####/####"),
    ([1, 1, 2, 1], b"..../.##./...."),
    ([-1, -1, 3, 2], b"..../..../##.."),
    ([3, 2, 2147483647, 2147483647], b"...#/..../...."),
    ([-2147483648, 0, 2147483647, 3], b"..../..../...."),
    ([0, 0, 0, 3], b"..../..../...."),
    ([2147483647, 0, 2147483647, 3], b"..../..../...."),
    ([-5, -5, 6, 6], b"..../..../#..."),
];

/// The first state with the scissor test on, no side of the rectangle being below zero.
fn scissored(rectangle: [i32; 4]) -> FragmentState
    ensures { IsFragmentState result }
{
    let [x, y, width, height] = rectangle;
    FragmentState {
        scissor_on: true,
        scissor: [x, y, width.max(0), height.max(0)],
        ..first_state()
    }
}

#[test]
fn fragments_and_clear_stay_inside_the_scissor(rt: HostRuntime) -> Result<(), Fail> {
    for (rectangle, picture) in SCISSORED {
        let state = scissored(rectangle);
        keeping_law(&state);
        let mut cleared = Frame::new(rt.alloc(), 4, 3)?;
        cleared.clear(&state, true, true);
        let mut covered = Frame::new(rt.alloc(), 4, 3)?;
        for y in -1..4 {
            for x in -1..5 {
                covered.put(&state, x, y, 0, [255; 4]);
            }
        }
        for y in 0..3u32 {
            for x in 0..4u32 {
                let wanted = if drawn(picture, x, y) {
                    [255; 4]
                } else {
                    [0; 4]
                };
                assert_eq!(rt;
                    cleared.pixel(x as i32, y as i32),
                    wanted,
                    "cleared {x} {y}"
                );
                assert_eq!(rt;
                    covered.pixel(x as i32, y as i32),
                    wanted,
                    "covered {x} {y}"
                );
            }
        }
    }
    Ok(())
}

/// The first state with masks, a clear depth of a half, and a depth test that passes all where it is on.
fn masked(colour_mask: [bool; 4], depth_on: bool, depth_mask: bool) -> FragmentState
    ensures { IsFragmentState result }
{
    FragmentState {
        colour_mask,
        depth_on,
        depth_func: 0x207,
        depth_mask,
        clear_depth: 32768,
        ..first_state()
    }
}

#[test]
fn a_frame_starts_black_and_far(rt: HostRuntime) -> Result<(), Fail> {
    let first = Cell {
        colour: [0; 4],
        depth: 65535,
    };
    let wide = Frame::new(rt.alloc(), 256, 1)?;
    let high = Frame::new(rt.alloc(), 1, 256)?;
    let largest = Frame::new(rt.alloc(), 256, 256)?;
    frame_law(&wide);
    assert_eq!(rt; wide.cells(), [first; 256].as_slice());
    assert_eq!(rt; (high.width(), high.height()), (1, 256));
    assert_eq!(rt; largest.cells().len(), 65536);
    assert_eq!(rt; largest.pixel(256, 0), [0; 4]);
    Ok(())
}

/// Whether the depth test and the depth mask are on, and the depth after a fragment of depth 5, and after Clear.
const DEPTHS: [(bool, bool, u16, u16); 4] = [
    (false, false, 65535, 65535),
    (false, true, 65535, 32767),
    (true, false, 65535, 65535),
    (true, true, 5, 32767),
];

#[test]
fn masks_keep_what_they_mask(rt: HostRuntime) -> Result<(), Fail> {
    for (depth_on, depth_mask, put, cleared) in DEPTHS {
        let state = masked([true, false, true, false], depth_on, depth_mask);
        let mut frame = Frame::new(rt.alloc(), 1, 1)?;
        frame.put(&state, 0, 0, 5, [255, 254, 253, 252]);
        let wanted = Cell {
            colour: [255, 0, 253, 0],
            depth: put,
        };
        assert_eq!(rt; frame.cells(), [wanted].as_slice());
        let mut frame = Frame::new(rt.alloc(), 1, 1)?;
        frame.clear(&state, true, true);
        let wanted = Cell {
            colour: [255, 0, 255, 0],
            depth: cleared,
        };
        assert_eq!(rt; frame.cells(), [wanted].as_slice());
        frame.clear(&first_state(), false, true);
        let wanted = Cell {
            colour: [255, 0, 255, 0],
            depth: 65535,
        };
        assert_eq!(rt; frame.cells(), [wanted].as_slice());
    }
    Ok(())
}

/// Runs in a frame of 4 by 3, each by its first column, its row and how many places, with what it leaves.
const RUNS: [(i32, i32, u32, &[u8]); 9] = [
    (1, 1, 2, b"..../.##./...."),
    (-2, 0, 4, b"..../..../##.."),
    (2, 2, 4294967295, b"..##/..../...."),
    (-2147483648, 1, 4294967295, b"..../####/...."),
    (-3, 1, 3, b"..../..../...."),
    (4, 1, 3, b"..../..../...."),
    (0, -1, 4, b"..../..../...."),
    (0, 3, 4, b"..../..../...."),
    (1, 1, 0, b"..../..../...."),
];

/// States by which runs are put: the first, with tests, with masks, with blending, with the scissor test, and with the depth test
/// and blending by alpha, by which a fragment alone is laid over its cell.
fn state_of_run(number: u32) -> FragmentState
    ensures { IsFragmentState result }
{
    match number {
        0 => first_state(),
        1 => tested(true, false, 0x204),
        2 => tested(true, false, 0x201),
        3 => tested(false, true, 0x203),
        4 => masked([true, false, true, true], true, true),
        5 => blending(0x302, 0x303),
        6 => blending(0x306, 0x301),
        7 => scissored([1, 0, 2, 3]),
        8 => scissored([2, 1, 9, 1]),
        _ => FragmentState {
            depth_on: true,
            depth_func: comparison(0x203),
            ..blending(0x302, 0x303)
        },
    }
}

/// A frame of 4 by 3 in which no two cells are alike.
fn uneven_frame(alloc: Global) -> Result<Frame, NoMemory> {
    let state = tested(false, true, 0x207);
    let mut frame = Frame::new(alloc, 4, 3)?;
    for y in 0..3u8 {
        for x in 0..4u8 {
            let depth = 98 + u16::from(x);
            frame.put(&state, i32::from(x), i32::from(y), depth, [x, y, 7, 200]);
        }
    }
    Ok(frame)
}

#[test]
fn a_run_is_its_fragments_one_by_one(rt: HostRuntime) -> Result<(), Fail> {
    for (x, y, count, picture) in RUNS {
        for number in 0..10 {
            let state = state_of_run(number);
            let mut at_once = uneven_frame(rt.alloc())?;
            at_once.put_run(&state, x, y, count, 100, [90, 180, 30, 150]);
            let mut in_turn = uneven_frame(rt.alloc())?;
            let end = i64::from(x) + i64::from(count);
            for column in -1..5 {
                if x <= column && i64::from(column) < end {
                    in_turn.put(&state, column, y, 100, [90, 180, 30, 150]);
                }
            }
            assert_eq!(rt;
                at_once.cells(),
                in_turn.cells(),
                "{x} {y} {count} {number}"
            );
        }
        let mut covered = Frame::new(rt.alloc(), 4, 3)?;
        covered.put_run(&first_state(), x, y, count, 0, [255; 4]);
        for row in 0..3u32 {
            for column in 0..4u32 {
                let wanted = if drawn(picture, column, row) {
                    [255; 4]
                } else {
                    [0; 4]
                };
                assert_eq!(rt;
                    covered.pixel(column as i32, row as i32),
                    wanted,
                    "{x} {y} {count}"
                );
            }
        }
    }
    Ok(())
}
