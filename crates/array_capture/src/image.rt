//! The piece of client memory in which an image of a texture or the colour of an environment lies.

ghost use Rattle.std.specs.Prelude.{◌≡◌};
ghost use Rattle.gl_memory.specs.ClientMemory.{memory_of};
ghost use Rattle.gl_tracked.specs.Ranges.{range_of_colour, range_of_image};
ghost use Rattle.array_capture.specs.Pieces.{pieces_of_colour, pieces_of_image, pieces_of_subimage};

use crate::part::push_part;
use gl_memory::{ClientMemory, Piece, Pieces};
use gl_tracked::{Tracked, count_of, image_length, side_of, texel_size};

/// How many bytes a colour has: 4 numbers of four (section 3.7.12).
const COLOUR_BYTES: u64 = 16;

/// The pieces of client memory for TexImage2D of an image of a format, with sides in texels, from the place `pixels` on: one, or
/// none where there is no byte in memory, and none for the place 0, which stands for zeros (section 3.7.1, the last own). It takes
/// no memory.
#[tactic(auto, unfolding(crate::specs::Pieces::pieces_of_image, crate::specs::Pieces::pieces_of_subimage, crate::specs::Pieces::parts_in, gl_tracked::specs::Ranges::ranges_of_image))]
pub fn pieces_of_image(
    tracked: &Tracked,
    format: u32,
    width: i32,
    height: i32,
    pixels: u32,
    memory: &ClientMemory,
) -> Pieces
    ensures { result
        ≡ pieces_of_image tracked.now format width height pixels (memory_of memory.now) }
{
    if pixels == 0 {
        return Pieces::new();
    }
    pieces_of_subimage(tracked, format, width, height, pixels, memory)
}

/// The pieces of client memory for TexSubImage2D of texels of a format, whose rectangle has sides in texels, from the place
/// `pixels` on: one, or none where there is no byte in memory (section 3.7.2). It takes no memory.
pub fn pieces_of_subimage(
    tracked: &Tracked,
    format: u32,
    width: i32,
    height: i32,
    pixels: u32,
    memory: &ClientMemory,
) -> Pieces
    ensures { result
        ≡ pieces_of_subimage tracked.now format width height pixels (memory_of memory.now) }
{
    let mut pieces = Pieces::new();
    push_part(
        &mut pieces,
        range_of_image(tracked, format, width, height, pixels),
        memory.len(),
    );
    pieces
}

/// The pieces of client memory for TexEnvxv at a pointer, in bytes: one, or none where the pointer lies past the end (section
/// 3.7.12). It takes no memory.
pub fn pieces_of_colour(pointer: u32, memory: &ClientMemory) -> Pieces
    ensures { result ≡ pieces_of_colour pointer (memory_of memory.now) }
{
    let mut pieces = Pieces::new();
    push_part(&mut pieces, range_of_colour(pointer), memory.len());
    pieces
}

/// Where the bytes of an image lie (sections 3.6.2, 3.7.1 and 3.7.2).
#[tactic(auto, unfolding(gl_tracked::specs::Ranges::range_of_image))]
fn range_of_image(tracked: &Tracked, format: u32, width: i32, height: i32, pixels: u32) -> Piece
    ensures { result ≡ range_of_image tracked.now format width height pixels }
{
    Piece {
        start: u64::from(pixels),
        len: image_length(
            count_of(tracked.unpack_alignment),
            texel_size(format),
            side_of(width),
            side_of(height),
        ),
    }
}

/// Where the colour at a pointer lies (section 3.7.12).
#[tactic(auto, unfolding(gl_tracked::specs::Ranges::range_of_colour))]
fn range_of_colour(pointer: u32) -> Piece
    ensures { result ≡ range_of_colour pointer }
{
    Piece {
        start: u64::from(pointer),
        len: COLOUR_BYTES,
    }
}
