//! Frames that draws with textures leave. The pictures are those of another program, and names stand as their numbers.

use crate::soft_draw::{Picture, frame_after, shows};
use gl_memory::ClientMemory;
use std::test::Fail;

/// Corners of a square in whole numbers, as bytes of which 255 is -1; its coordinates; an image of two by two texels of RGB, whose
/// rows lie 8 bytes apart, 9 between them; one of LUMINANCE, whose rows lie 4 bytes apart; a colour of 1, a half, 0 and 1; a texel
/// of RGB; and the name 5.
const STORED: [(u64, &[u8]); 7] = [
    (16, &[255, 255, 1, 255, 255, 1, 1, 1]),
    (24, &[0, 0, 1, 0, 0, 1, 1, 1]),
    (
        32,
        &[255, 0, 0, 0, 255, 0, 9, 9, 0, 0, 255, 255, 255, 255, 9, 9],
    ),
    (48, &[0, 128, 9, 9, 255, 64, 9, 9]),
    (56, &[0, 0, 1, 0, 0, 128, 0, 0, 0, 0, 0, 0, 0, 0, 1, 0]),
    (72, &[10, 20, 30, 40]),
    (80, &[5, 0, 0, 0]),
];

/// The square, with coordinates in unit 0, where TEXTURE_2D is enabled.
const SQUARE: &str =
    "EnableClientState 32884\nEnableClientState 32888\nVertexPointer 2 5120 0 16\nTexCoordPointer 2 5120 0 24\nEnable 3553";

/// The default texture; one that is bound; rows of an image at the alignment 1; a filter that reads mipmaps, by which the texture
/// isn't complete; a texture without an image; one that is bound and has none; one that was bound and deleted; an image read
/// linearly; one of which a texel was replaced; one of zeros; a grey square by the modes MODULATE, REPLACE, BLEND with a colour, and
/// ADD; and two units.
const DRAWN: [(&str, Picture); 15] = [
    (
        "TexParameteri 3553 10240 9728\nTexParameteri 3553 10241 9728\nTexImage2D 3553 0 6407 2 2 0 6407 5121 32",
        [
            0x0000ff, 0x0000ff, 0xffffff, 0xffffff, 0x0000ff, 0x0000ff, 0xffffff, 0xffffff,
            0xff0000, 0xff0000, 0x00ff00, 0x00ff00, 0xff0000, 0xff0000, 0x00ff00, 0x00ff00,
        ],
    ),
    (
        "BindTexture 3553 5\nTexParameteri 3553 10240 9728\nTexParameteri 3553 10241 9728\nTexImage2D 3553 0 6407 2 2 0 6407 5121 32",
        [
            0x0000ff, 0x0000ff, 0xffffff, 0xffffff, 0x0000ff, 0x0000ff, 0xffffff, 0xffffff,
            0xff0000, 0xff0000, 0x00ff00, 0x00ff00, 0xff0000, 0xff0000, 0x00ff00, 0x00ff00,
        ],
    ),
    (
        "TexParameteri 3553 10240 9728\nTexParameteri 3553 10241 9728\nPixelStorei 3317 1\nTexImage2D 3553 0 6407 2 2 0 6407 5121 32",
        [
            0x090900, 0x090900, 0x00ffff, 0x00ffff, 0x090900, 0x090900, 0x00ffff, 0x00ffff,
            0xff0000, 0xff0000, 0x00ff00, 0x00ff00, 0xff0000, 0xff0000, 0x00ff00, 0x00ff00,
        ],
    ),
    (
        "TexImage2D 3553 0 6407 2 2 0 6407 5121 32",
        [
            0xffffff, 0xffffff, 0xffffff, 0xffffff, 0xffffff, 0xffffff, 0xffffff, 0xffffff,
            0xffffff, 0xffffff, 0xffffff, 0xffffff, 0xffffff, 0xffffff, 0xffffff, 0xffffff,
        ],
    ),
    (
        "TexParameteri 3553 10240 9728\nTexParameteri 3553 10241 9728",
        [
            0xffffff, 0xffffff, 0xffffff, 0xffffff, 0xffffff, 0xffffff, 0xffffff, 0xffffff,
            0xffffff, 0xffffff, 0xffffff, 0xffffff, 0xffffff, 0xffffff, 0xffffff, 0xffffff,
        ],
    ),
    (
        "TexParameteri 3553 10240 9728\nTexParameteri 3553 10241 9728\nTexImage2D 3553 0 6407 2 2 0 6407 5121 32\nBindTexture 3553 5",
        [
            0xffffff, 0xffffff, 0xffffff, 0xffffff, 0xffffff, 0xffffff, 0xffffff, 0xffffff,
            0xffffff, 0xffffff, 0xffffff, 0xffffff, 0xffffff, 0xffffff, 0xffffff, 0xffffff,
        ],
    ),
    (
        "TexParameteri 3553 10240 9728\nTexParameteri 3553 10241 9728\nTexImage2D 3553 0 6407 2 2 0 6407 5121 32\nBindTexture 3553 5\nDeleteTextures 1 80",
        [
            0x0000ff, 0x0000ff, 0xffffff, 0xffffff, 0x0000ff, 0x0000ff, 0xffffff, 0xffffff,
            0xff0000, 0xff0000, 0x00ff00, 0x00ff00, 0xff0000, 0xff0000, 0x00ff00, 0x00ff00,
        ],
    ),
    (
        "TexParameteri 3553 10241 9729\nTexParameteri 3553 10242 33071\nTexParameteri 3553 10243 33071\nTexImage2D 3553 0 6407 2 2 0 6407 5121 32",
        [
            0x0000ff, 0x4040ff, 0xbfbfff, 0xffffff, 0x4000bf, 0x6040bf, 0x9fbfbf, 0xbfffbf,
            0xbf0040, 0x9f4040, 0x60bf40, 0x40ff40, 0xff0000, 0xbf4000, 0x40bf00, 0x00ff00,
        ],
    ),
    (
        "TexParameteri 3553 10240 9728\nTexParameteri 3553 10241 9728\nTexImage2D 3553 0 6407 2 2 0 6407 5121 32\nTexSubImage2D 3553 0 1 1 1 1 6407 5121 72",
        [
            0x0000ff, 0x0000ff, 0x0a141e, 0x0a141e, 0x0000ff, 0x0000ff, 0x0a141e, 0x0a141e,
            0xff0000, 0xff0000, 0x00ff00, 0x00ff00, 0xff0000, 0xff0000, 0x00ff00, 0x00ff00,
        ],
    ),
    (
        "TexParameteri 3553 10240 9728\nTexParameteri 3553 10241 9728\nTexImage2D 3553 0 6407 2 2 0 6407 5121 0",
        [
            0x000000, 0x000000, 0x000000, 0x000000, 0x000000, 0x000000, 0x000000, 0x000000,
            0x000000, 0x000000, 0x000000, 0x000000, 0x000000, 0x000000, 0x000000, 0x000000,
        ],
    ),
    (
        "Color4x 32768 32768 32768 65536\nTexParameteri 3553 10240 9728\nTexParameteri 3553 10241 9728\nTexImage2D 3553 0 6407 2 2 0 6407 5121 32",
        [
            0x000080, 0x000080, 0x808080, 0x808080, 0x000080, 0x000080, 0x808080, 0x808080,
            0x800000, 0x800000, 0x008000, 0x008000, 0x800000, 0x800000, 0x008000, 0x008000,
        ],
    ),
    (
        "Color4x 32768 32768 32768 65536\nTexEnvi 8960 8704 7681\nTexParameteri 3553 10240 9728\nTexParameteri 3553 10241 9728\nTexImage2D 3553 0 6407 2 2 0 6407 5121 32",
        [
            0x0000ff, 0x0000ff, 0xffffff, 0xffffff, 0x0000ff, 0x0000ff, 0xffffff, 0xffffff,
            0xff0000, 0xff0000, 0x00ff00, 0x00ff00, 0xff0000, 0xff0000, 0x00ff00, 0x00ff00,
        ],
    ),
    (
        "Color4x 32768 32768 32768 65536\nTexEnvi 8960 8704 3042\nTexEnvxv 8960 8705 56\nTexParameteri 3553 10240 9728\nTexParameteri 3553 10241 9728\nTexImage2D 3553 0 6407 2 2 0 6407 5121 32",
        [
            0x808000, 0x808000, 0xff8000, 0xff8000, 0x808000, 0x808000, 0xff8000, 0xff8000,
            0xff8080, 0xff8080, 0x808080, 0x808080, 0xff8080, 0xff8080, 0x808080, 0x808080,
        ],
    ),
    (
        "Color4x 32768 32768 32768 65536\nTexEnvi 8960 8704 260\nTexParameteri 3553 10240 9728\nTexParameteri 3553 10241 9728\nTexImage2D 3553 0 6407 2 2 0 6407 5121 32",
        [
            0x8080ff, 0x8080ff, 0xffffff, 0xffffff, 0x8080ff, 0x8080ff, 0xffffff, 0xffffff,
            0xff8080, 0xff8080, 0x80ff80, 0x80ff80, 0xff8080, 0xff8080, 0x80ff80, 0x80ff80,
        ],
    ),
    (
        "TexParameteri 3553 10240 9728\nTexParameteri 3553 10241 9728\nTexImage2D 3553 0 6407 2 2 0 6407 5121 32\nActiveTexture 33985\nEnable 3553\nBindTexture 3553 5\nTexParameteri 3553 10240 9728\nTexParameteri 3553 10241 9728\nTexImage2D 3553 0 6409 2 2 0 6409 5121 48\nClientActiveTexture 33985\nEnableClientState 32888\nTexCoordPointer 2 5120 0 24",
        [
            0x0000ff, 0x0000ff, 0x404040, 0x404040, 0x0000ff, 0x0000ff, 0x404040, 0x404040,
            0x000000, 0x000000, 0x008000, 0x008000, 0x000000, 0x000000, 0x008000, 0x008000,
        ],
    ),
];

#[test]
fn a_draw_takes_the_units_whose_textures_are_complete(rt: HostRuntime) -> Result<(), Fail> {
    let mut memory = ClientMemory::new(rt.alloc(), 96)?;
    for (at, bytes) in &STORED {
        memory.write(*at, *bytes);
    }
    for (calls, picture) in &DRAWN {
        let calls = format!(in rt.alloc(); "{SQUARE}\n{calls}\nDrawArrays 5 0 4")?;
        let frame = frame_after(&rt, rt.alloc(), &calls, &memory)?;
        assert!(rt; shows(&frame, picture), "{calls}");
    }
    Ok(())
}
