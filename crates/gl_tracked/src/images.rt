//! Images of textures as they lie in memory: how many bytes they take. Which images there may be is told in `textures.rt`.

ghost use Rattle.std.specs.Prelude.{◌≡◌, ◌≤◌, ◌<◌, ◌^◌, ◌+◌};
ghost use Rattle.gl_tracked.specs.Images.{image_length, pitch_of, side_of, texel_size};

/// How many bytes a texel of a format has: 1 of ALPHA and LUMINANCE, 2 of LUMINANCE_ALPHA, 3 of RGB, 4 of RGBA, none of
/// another format (section 3.6.2).
#[tactic(auto, unfolding(crate::specs::Images::texel_size))]
pub fn texel_size(format: u32) -> u32
    ensures size { result ≡ texel_size format }
    ensures few { result ≤ 4 }
{
    match format {
        0x1906 => 1,
        0x1907 => 3,
        0x1908 => 4,
        0x1909 => 1,
        0x190A => 2,
        _ => 0,
    }
}

/// From one row of an image to the next in memory, in bytes: those of a row, rounded up to a multiple of the alignment, which is
/// in bytes too (section 3.6.2). An alignment of 0 pads nothing.
pub fn pitch_of(alignment: u32, row: u32) -> u64
    ensures pitch { result ≡ pitch_of alignment row }
    ensures few { result ≤ row + alignment }
    ensures small { result < 2 ^ 33 }
{
    if alignment > 0 {
        let step = u64::from(alignment);
        (u64::from(row) + (step - 1)) / step * step
    } else {
        u64::from(row)
    }
}

/// How many bytes an image takes in memory: the alignment of its rows and its texels in bytes, its sides in texels. The last
/// row isn't padded, and there are none where a side is 0 (section 3.6.2).
#[tactic(auto, unfolding(crate::specs::Images::image_length))]
pub fn image_length(alignment: u32, texel: u32, width: u32, height: u32) -> u64
    requires texel { texel ≤ 4 }
    requires width { width ≤ 256 }
    requires height { height ≤ 256 }
    ensures { result ≡ image_length alignment texel width height }
{
    if width == 0 || height == 0 {
        return 0;
    }
    let row = width * texel;
    u64::from(height - 1) * pitch_of(alignment, row) + u64::from(row)
}

/// How many texels a side of an image has: none where that is an error (sections 3.7.1 and 3.7.2, the most own).
#[tactic(auto, unfolding(crate::specs::Images::side_of))]
pub fn side_of(side: i32) -> u32
    ensures side { result ≡ side_of side }
    ensures few { result ≤ 256 }
{
    if 0 <= side && side <= 256 {
        side as u32
    } else {
        0
    }
}
