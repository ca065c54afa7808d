//! Images of textures as calls hand them over: the numbers of formats, and bytes without the padding of rows.

ghost use Rattle.std.specs.Prelude.{◌≡◌, ◌+◌, ◌*◌, ◌^◌, ◌<◌, ◌≤◌, ◌++◌, length, vec_capacity, IfOk};
ghost use Rattle.gl_memory.specs.Piece.{bytes_from};
ghost use Rattle.gl_state.specs.Images.{colour_from, format_of, image_uploaded, mode_of, part_from, rows_from};
ghost use Rattle.texture_units.specs.Format.{size_of};
ghost use Rattle.fragment_ops.specs.State.{AreWithinOne, IsWithinOne};

use crate::settings::clamped_to_one;
use gl_memory::{Memory, read_i32};
use gl_objects::Upload;
use std::alloc::{AllocError as NoMemory, Global};
use texture_units::{EnvMode, Format};

/// The format with a number: ALPHA for all that are none (section 3.7.1, the last own).
#[tactic(auto, unfolding(crate::specs::Images::format_of))]
pub(crate) fn format_of(number: u32) -> Format
    ensures { result ≡ format_of number }
{
    match number {
        0x1907 => Format::Rgb,
        0x1908 => Format::Rgba,
        0x1909 => Format::Luminance,
        0x190A => Format::LuminanceAlpha,
        _ => Format::Alpha,
    }
}

/// The mode of an environment with a number: MODULATE for all that are none (section 3.7.12, the last own).
#[tactic(auto, unfolding(crate::specs::Images::mode_of))]
pub fn mode_of(number: u32) -> EnvMode
    ensures { result ≡ mode_of number }
{
    match number {
        0x0104 => EnvMode::Add,
        0x0BE2 => EnvMode::Blend,
        0x1E01 => EnvMode::Replace,
        0x2101 => EnvMode::Decal,
        _ => EnvMode::Modulate,
    }
}

/// The bytes of a row of so many texels (section 3.6.2).
pub(crate) fn run_of(format: Format, width: u32) -> u32
    requires width { width ≤ 256 }
    ensures run { result ≡ width * size_of format }
    ensures few { result ≤ 1024 }
{
    width * format.size()
}

/// The bytes of an image of so many rows, of so many bytes each: its rows from a place of memory on, and zeros where the place is
/// 0 (section 3.7.1, the last own).
#[tactic(auto, unfolding(crate::specs::Images::image_uploaded))]
pub(crate) fn image_uploaded<M: Memory>(
    alloc: Global,
    memory: &M,
    source: u32,
    pitch: u32,
    run: u32,
    rows: u32,
) -> Result<Upload, NoMemory>
    requires run { run ≤ 1024 }
    requires rows { rows ≤ 256 }
    ensures bytes { IfOk result (λ upload. upload
        ≡ image_uploaded (M.segments memory.now) source pitch run rows) }
    ensures many { IfOk result (λ upload. length upload ≡ rows * run) }
{
    if source == 0 {
        let count = u64::from(rows) * u64::from(run);
        Ok(Upload::new(vec![in alloc; 0; count as usize]?))
    } else {
        rows_from(alloc, memory, source, pitch, run, rows)
    }
}

/// So many rows of an image, of so many bytes each, from a place of memory on, each a pitch after the one before it. What lies
/// between them is left out (section 3.6.2).
#[tactic(auto, unfolding(crate::specs::Images::rows_from))]
pub(crate) fn rows_from<M: Memory>(
    alloc: Global,
    memory: &M,
    source: u32,
    pitch: u32,
    run: u32,
    rows: u32,
) -> Result<Upload, NoMemory>
    requires run { run ≤ 1024 }
    requires rows { rows ≤ 256 }
    ensures bytes { IfOk result (λ upload. upload
        ≡ rows_from (M.segments memory.now) source pitch run rows) }
    ensures many { IfOk result (λ upload. length upload ≡ rows * run) }
{
    let count = u64::from(rows) * u64::from(run);
    let mut bytes = Vec::with_capacity(alloc, count as usize)?;
    for row in 0..rows {
        let begin = u64::from(source) + u64::from(row) * u64::from(pitch);
        add_row(&mut bytes, memory, begin, run);
    }
    Ok(Upload::new(bytes))
}

/// Puts so many bytes, from a place of memory on, behind others, for which there is room.
#[tactic(auto, unfolding(gl_memory::specs::Piece::bytes_from))]
fn add_row<M: Memory>(bytes: &mut Vec<u8>, memory: &M, begin: u64, run: u32)
    requires room { length bytes.old.items + run ≤ vec_capacity bytes.old }
    requires low { begin < 2 ^ 48 }
    ensures items { bytes.new.items ≡ bytes.old.items ++ bytes_from (M.segments memory.now) begin run }
    ensures room { vec_capacity bytes.new ≡ vec_capacity bytes.old }
{
    for number in 0..run {
        bytes.push_reserved(memory.byte(begin + u64::from(number)));
    }
}

/// A part of a colour that lies from a place of memory on, clamped to 0 to 1 (section 3.7.12).
fn part_from<M: Memory>(memory: &M, place: u32, part: u64) -> i32
    requires part { part < 4 }
    ensures part { result ≡ part_from (M.segments memory.now) place part }
    ensures within { IsWithinOne result }
{
    clamped_to_one(read_i32(memory, u64::from(place) + 4 * part))
}

/// The colour of an environment that lies from a place of memory on: red, green, blue and alpha, 16.16 fixed, each clamped to 0
/// to 1 (section 3.7.12, that it is clamped as it is set own).
#[tactic(auto, unfolding(crate::specs::Images::colour_from))]
pub(crate) fn colour_from<M: Memory>(memory: &M, place: u32) -> [i32; 4]
    ensures colour { result ≡ colour_from (M.segments memory.now) place }
    ensures within { AreWithinOne result }
{
    [
        part_from(memory, place, 0),
        part_from(memory, place, 1),
        part_from(memory, place, 2),
        part_from(memory, place, 3),
    ]
}
