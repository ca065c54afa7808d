//! What ReadPixels replies. The values are those of another program.

ghost use Rattle.fragment_ops.specs.Frame.{AreSides};

use crate::soft::new_soft;
use driver_trait::{Driver, Reply};
use gl_memory::ClientMemory;
use gl_words::Call;
use soft_driver::Soft;
use std::alloc::{AllocError as NoMemory, Global};
use std::test::Fail;
use std::thread::Threads;

/// A context with a frame of these sides, its pixels being 128, 255, 0 and 255.
fn cleared<T: Threads + Sync>(
    rt: &T,
    alloc: Global,
    memory: &ClientMemory,
    width: u32,
    height: u32,
) -> Result<Soft, NoMemory>
    requires { AreSides width height }
{
    let mut soft = new_soft(alloc, 0, width, height)?;
    let colour = Call::ClearColorx {
        red: 32768,
        green: 65536,
        blue: 0,
        alpha: 65536,
    };
    soft.call(rt, &colour, memory)?;
    soft.call(rt, &Call::Clear { mask: 0x4000 }, memory)?;
    Ok(soft)
}

/// A call that reads pixels, of this format and kind.
fn read_as(rectangle: [i32; 4], format: u32, kind: u32) -> Call {
    let [x, y, width, height] = rectangle;
    Call::ReadPixels {
        x,
        y,
        width,
        height,
        format,
        kind,
        pixels: 0,
    }
}

/// Whether a reply is so many bytes: these, as far as they go, and zeros behind them.
fn is_these(reply: &Reply, count: usize, bytes: &[u8]) -> bool {
    let Reply::Bytes(octets) = reply else {
        return false;
    };
    if octets.len() != count {
        return false;
    }
    for at in 0..count {
        let byte = if at < bytes.len() { bytes[at] } else { 0 };
        if octets.at(at) != byte {
            return false;
        }
    }
    true
}

#[test]
fn a_read_gives_the_pixels_and_zeros_beside_them(rt: HostRuntime) -> Result<(), Fail> {
    let memory = ClientMemory::new(rt.alloc(), 0)?;
    let mut soft = cleared(&rt, rt.alloc(), &memory, 2, 1)?;
    let rows: [([i32; 4], usize, [u8; 12]); 10] = [
        (
            [0, 0, 2, 1],
            8,
            [128, 255, 0, 255, 128, 255, 0, 255, 0, 0, 0, 0],
        ),
        (
            [-1, 0, 3, 1],
            12,
            [0, 0, 0, 0, 128, 255, 0, 255, 128, 255, 0, 255],
        ),
        (
            [-2, 0, 3, 1],
            12,
            [0, 0, 0, 0, 0, 0, 0, 0, 128, 255, 0, 255],
        ),
        ([1, 0, 3, 1], 12, [128, 255, 0, 255, 0, 0, 0, 0, 0, 0, 0, 0]),
        (
            [0, -1, 1, 3],
            12,
            [0, 0, 0, 0, 128, 255, 0, 255, 0, 0, 0, 0],
        ),
        ([0, 1, 3, 1], 12, [0; 12]),
        ([2147483647, 0, 3, 1], 12, [0; 12]),
        ([-2147483648, 0, 3, 1], 12, [0; 12]),
        (
            [0, 0, 512, 1],
            2048,
            [128, 255, 0, 255, 128, 255, 0, 255, 0, 0, 0, 0],
        ),
        ([0, 0, 1, 0], 0, [0; 12]),
    ];
    for (rectangle, count, bytes) in rows {
        let reply = soft.call(&rt, &read_as(rectangle, 0x1908, 0x1401), &memory)?;
        assert!(rt; is_these(&reply, count, &bytes));
    }
    // The first row's width is below 0, the second one's is above 512; the format and the type are tested before it.
    let errors = [
        (-1, 0x1908, 0x1401, 1281),
        (513, 0x1908, 0x1401, 1281),
        (-1, 0x1907, 0x1401, 1280),
        (-1, 0x1908, 0x1406, 1280),
    ];
    for (width, format, kind, error) in errors {
        let call = read_as([0, 0, width, 1], format, kind);
        assert!(rt; matches!(soft.call(&rt, &call, &memory)?, Reply::Nothing));
        let reply = soft.call(&rt, &Call::GetError, &memory)?;
        assert!(rt; matches!(reply, Reply::One(number) if number == error));
    }
    Ok(())
}

// The frame lies in the middle, 128 pixels from each side: its first pixel is the one in column and row 128, and its last
// one that in column and row 383.
#[test]
fn the_largest_read_lies_round_the_largest_frame(rt: HostRuntime) -> Result<(), Fail> {
    let memory = ClientMemory::new(rt.alloc(), 0)?;
    let mut soft = cleared(&rt, rt.alloc(), &memory, 256, 256)?;
    let reply = soft.call(
        &rt,
        &read_as([-128, -128, 512, 512], 0x1908, 0x1401),
        &memory,
    )?;
    let Reply::Bytes(octets) = &reply else {
        return Err(Fail::new("no bytes"));
    };
    let rows: [(u16, u16, bool); 12] = [
        (0, 0, false),
        (511, 0, false),
        (0, 511, false),
        (511, 511, false),
        (128, 128, true),
        (127, 128, false),
        (128, 127, false),
        (383, 383, true),
        (384, 383, false),
        (383, 384, false),
        (383, 128, true),
        (128, 383, true),
    ];
    assert_eq!(rt; octets.len(), 1048576);
    for (column, row, is_inside) in rows {
        let first = (usize::from(row) * 512 + usize::from(column)) * 4;
        let pixel = if is_inside {
            [128, 255, 0, 255]
        } else {
            [0; 4]
        };
        for (part, byte) in pixel.iter().enumerate() {
            assert_eq!(rt; octets.as_slice().get(first + part), Some(byte));
        }
    }
    Ok(())
}
