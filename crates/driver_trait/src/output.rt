//! Writing a reply into client memory. Which reply a call has is told by its driver.

ghost use Rattle.std.specs.Prelude.{◌≡◌, ◌<◌, ◌^◌, flat_map};
ghost use Rattle.gl_memory.specs.ClientMemory.{written};
ghost use Rattle.driver_trait.specs.Output.{bytes_written, memory_after, number_bytes, numbers_place, numbers_written, pitch_of, pixels_written, rows_written};
ghost use Rattle.driver_trait.specs.Reply.{replied};

use crate::reply::Reply;
use gl_memory::ClientMemory;
use gl_tracked::Tracked;
use gl_words::{Call, low_bits};

/// Writes what a call replied where the call wants it: numbers as their low 32 bits, four bytes each, the lowest first
/// (sections 2.9, 3.7.11 and 6.1); the bytes of ReadPixels row by row (section 4.3.1). What falls outside client memory is dropped. It
/// takes no memory.
#[tactic(auto, unfolding(crate::specs::Output::memory_after))]
pub fn write_reply(memory: &mut ClientMemory, tracked: &Tracked, call: &Call, reply: &Reply)
    ensures { memory.new ≡ memory_after tracked.now call.now (replied reply.now) memory.old }
{
    match reply {
        Reply::Nothing => {}
        Reply::One(number) => write_numbers(memory, call, &[*number]),
        Reply::Numbers(numbers) => write_numbers(memory, call, numbers.as_slice()),
        Reply::Bytes(bytes) => write_bytes(memory, tracked, call, bytes.as_slice()),
    }
}

/// Writes the numbers that a call replied, where it has a place for them.
fn write_numbers(memory: &mut ClientMemory, call: &Call, numbers: &[i64])
    ensures { memory.new ≡ numbers_written (numbers_place call.now) numbers.now memory.old }
{
    match call {
        Call::GenBuffers { names, .. } | Call::GenTextures { names, .. } => {
            write_from(memory, *names, numbers)
        }
        Call::GetFixedv { params, .. }
        | Call::GetIntegerv { params, .. }
        | Call::GetPointerv { params, .. } => write_from(memory, *params, numbers),
        _ => {}
    }
}

/// Writes numbers one behind another, as far as there is memory.
fn write_from(memory: &mut ClientMemory, place: u32, numbers: &[i64])
    ensures { memory.new ≡ written memory.old place (flat_map number_bytes numbers.now) }
{
    let mut at = u64::from(place);
    for number in numbers {
        if at >= u64::from(memory.len()) {
            return;
        }
        memory.write(at, &number_bytes(*number));
        at += 4;
    }
}

/// The low 32 bits of a number as four bytes, the lowest first.
#[tactic(auto, unfolding(crate::specs::Output::number_bytes))]
fn number_bytes(number: i64) -> [u8; 4]
    ensures { result ≡ number_bytes number }
{
    let bits = low_bits(number);
    [
        (bits % 256) as u8,
        (bits / 0x100 % 256) as u8,
        (bits / 0x1_0000 % 256) as u8,
        (bits / 0x100_0000) as u8,
    ]
}

/// Writes the bytes that a call replied, where it reads pixels.
fn write_bytes(memory: &mut ClientMemory, tracked: &Tracked, call: &Call, bytes: &[u8])
    ensures { memory.new ≡ bytes_written tracked.now call.now bytes.now memory.old }
{
    match call {
        Call::ReadPixels {
            width,
            height,
            pixels,
            ..
        } => {
            let alignment = tracked.pack_alignment;
            write_pixels(memory, *width, *height, *pixels, alignment, bytes)
        }
        _ => {}
    }
}

/// Writes the bytes of a rectangle of pixels, of four bytes each, if both its sides are above zero.
fn write_pixels(
    memory: &mut ClientMemory,
    width: i32,
    height: i32,
    place: u32,
    alignment: i32,
    bytes: &[u8],
)
    ensures { memory.new ≡ pixels_written width height place alignment bytes.now memory.old }
{
    if width > 0 && height > 0 {
        let row = 4 * width as u64;
        let pitch = pitch_of(row, alignment);
        write_rows(memory, height as u32, u64::from(place), row, pitch, bytes);
    }
}

/// From one row of pixels to the next, in bytes (section 3.6.1).
fn pitch_of(row: u64, alignment: i32) -> u64
    requires row { row < 2 ^ 34 }
    ensures pitch { result ≡ pitch_of row alignment }
    ensures few { result < 2 ^ 35 }
{
    if alignment > 0 {
        let step = alignment as u64;
        (row + (step - 1)) / step * step
    } else {
        row
    }
}

/// Writes so many rows of bytes, as far as they last and there is memory.
fn write_rows(
    memory: &mut ClientMemory,
    height: u32,
    place: u64,
    row: u64,
    pitch: u64,
    bytes: &[u8],
)
    requires place { place < 2 ^ 32 }
    requires pitch { pitch < 2 ^ 35 }
    ensures { memory.new ≡ rows_written height place row pitch bytes.now memory.old }
{
    let mut left = height;
    let mut at = place;
    let mut rest = bytes;
    while left > 0 && !rest.is_empty() && at < u64::from(memory.len()) {
        let (first, others) = rest.split_at((row as usize).min(rest.len()));
        memory.write(at, first);
        left -= 1;
        at += pitch;
        rest = others;
    }
}
