//! Textures of a few texels. Colours are those of another program, and coordinates are 16.16 fixed.

ghost use Rattle.std.specs.Prelude.{◌≡◌, ◌*◌, length, IfOk};
ghost use Rattle.texture_units.specs.Format.{size_of};
ghost use Rattle.texture_units.specs.Texture.{IsSide};

use std::alloc::{AllocError, Global};
use std::test::Fail;
use texture_units::laws::{sample_law, weights_law};
use texture_units::{EnvMode, Format, MinFilter, Sampling, Texture, combine, is_side, sample};

/// What each mode makes of a fragment's colour and a texel of each format. The fragment is 200, 100, 255, 180, the constant
/// 30, 60, 250, 120, and the texel 100, 180, 7, 90, of which each format takes what it has, luminance from the red.
const ENVIRONMENTS: [(Format, EnvMode, [u8; 4]); 25] = [
    (Format::Alpha, EnvMode::Replace, [200, 100, 255, 90]),
    (Format::Alpha, EnvMode::Modulate, [200, 100, 255, 64]),
    (Format::Alpha, EnvMode::Decal, [200, 100, 255, 180]),
    (Format::Alpha, EnvMode::Blend, [200, 100, 255, 64]),
    (Format::Alpha, EnvMode::Add, [200, 100, 255, 64]),
    (Format::Luminance, EnvMode::Replace, [100, 100, 100, 180]),
    (Format::Luminance, EnvMode::Modulate, [78, 39, 100, 180]),
    (Format::Luminance, EnvMode::Decal, [200, 100, 255, 180]),
    (Format::Luminance, EnvMode::Blend, [134, 85, 253, 180]),
    (Format::Luminance, EnvMode::Add, [255, 200, 255, 180]),
    (
        Format::LuminanceAlpha,
        EnvMode::Replace,
        [100, 100, 100, 90],
    ),
    (Format::LuminanceAlpha, EnvMode::Modulate, [78, 39, 100, 64]),
    (Format::LuminanceAlpha, EnvMode::Decal, [200, 100, 255, 180]),
    (Format::LuminanceAlpha, EnvMode::Blend, [134, 85, 253, 64]),
    (Format::LuminanceAlpha, EnvMode::Add, [255, 200, 255, 64]),
    (Format::Rgb, EnvMode::Replace, [100, 180, 7, 180]),
    (Format::Rgb, EnvMode::Modulate, [78, 71, 7, 180]),
    (Format::Rgb, EnvMode::Decal, [100, 180, 7, 180]),
    (Format::Rgb, EnvMode::Blend, [134, 71, 255, 180]),
    (Format::Rgb, EnvMode::Add, [255, 255, 255, 180]),
    (Format::Rgba, EnvMode::Replace, [100, 180, 7, 90]),
    (Format::Rgba, EnvMode::Modulate, [78, 71, 7, 64]),
    (Format::Rgba, EnvMode::Decal, [164, 129, 167, 180]),
    (Format::Rgba, EnvMode::Blend, [134, 71, 255, 64]),
    (Format::Rgba, EnvMode::Add, [255, 255, 255, 64]),
];

/// The texel of a format as it is read.
fn texel_of(format: Format) -> [u8; 4] {
    match format {
        Format::Alpha => [0, 0, 0, 90],
        Format::Luminance => [100, 100, 100, 255],
        Format::LuminanceAlpha => [100, 100, 100, 90],
        Format::Rgb => [100, 180, 7, 255],
        Format::Rgba => [100, 180, 7, 90],
    }
}

#[test]
fn each_mode_combines_as_its_format_says(rt: HostRuntime) {
    for (row, (format, mode, wanted)) in ENVIRONMENTS.into_iter().enumerate() {
        let fragment = [200, 100, 255, 180];
        let combined = combine(mode, format, fragment, texel_of(format), [30, 60, 250, 120]);
        assert_eq!(rt; combined, wanted, "row {row}");
    }
}

/// A texture of a few texels.
#[derive(Clone, Copy)]
enum Picture {
    Wide,
    One,
    Pair,
    Column,
    Square,
}

impl Picture {
    /// Two rows of four, one texel, two beside each other, four above each other, and two rows of two.
    #[tactic(auto, unfolding(texture_units::specs::Texture::is_power))]
    fn texture(self, alloc: Global) -> Result<Texture, AllocError> {
        match self {
            Picture::Wide => Texture::new(alloc, Format::Luminance, 4, 2, &WIDE),
            Picture::One => Texture::new(alloc, Format::Rgb, 1, 1, &[9, 90, 200]),
            Picture::Pair => Texture::new(alloc, Format::LuminanceAlpha, 2, 1, &[0, 255, 255, 0]),
            Picture::Column => Texture::new(alloc, Format::Alpha, 1, 4, &[0, 80, 160, 240]),
            Picture::Square => Texture::new(alloc, Format::Rgba, 2, 2, &SQUARE),
        }
    }
}

const WIDE: [u8; 8] = [10, 60, 110, 160, 35, 85, 135, 185];

const SQUARE: [u8; 16] = [
    255, 0, 0, 255, 0, 255, 0, 128, 0, 0, 255, 64, 255, 255, 255, 0,
];

/// A picture, whether it is read by LINEAR, whether s and t are clamped, these with q, and the colour.
const SAMPLES: [(Picture, [bool; 3], [i32; 3], [u8; 4]); 27] = [
    (
        Picture::Wide,
        [false, false, false],
        [65535, 65535, 65536],
        [185, 185, 185, 255],
    ),
    (
        Picture::Wide,
        [false, false, false],
        [65536, 32768, 65536],
        [35, 35, 35, 255],
    ),
    (
        Picture::Wide,
        [false, false, false],
        [-1, -1, 65536],
        [185, 185, 185, 255],
    ),
    (
        Picture::Wide,
        [false, false, false],
        [16383, 32767, 65536],
        [10, 10, 10, 255],
    ),
    (
        Picture::Wide,
        [false, true, true],
        [-1, -1, 65536],
        [10, 10, 10, 255],
    ),
    (
        Picture::Wide,
        [false, true, true],
        [65536, 65536, 65536],
        [185, 185, 185, 255],
    ),
    (
        Picture::Wide,
        [false, true, true],
        [134217728, -134217728, 65536],
        [160, 160, 160, 255],
    ),
    (
        Picture::Wide,
        [false, true, false],
        [-1, -1, 65536],
        [35, 35, 35, 255],
    ),
    (
        Picture::Wide,
        [false, false, false],
        [49152, 49152, 131072],
        [60, 60, 60, 255],
    ),
    (
        Picture::Wide,
        [false, true, true],
        [65536, 65536, 0],
        [10, 10, 10, 255],
    ),
    (
        Picture::Wide,
        [false, true, true],
        [-65536, 65536, -65536],
        [10, 10, 10, 255],
    ),
    (
        Picture::Wide,
        [false, true, false],
        [-1, -1, 3],
        [35, 35, 35, 255],
    ),
    (
        Picture::Wide,
        [true, false, false],
        [134217728, -134217728, 1],
        [98, 98, 98, 255],
    ),
    (
        Picture::Wide,
        [true, false, false],
        [0, 0, 65536],
        [98, 98, 98, 255],
    ),
    (
        Picture::Wide,
        [true, true, true],
        [0, 0, 65536],
        [10, 10, 10, 255],
    ),
    (
        Picture::Wide,
        [true, true, true],
        [65536, 65536, 65536],
        [185, 185, 185, 255],
    ),
    (
        Picture::Wide,
        [true, true, false],
        [20000, 40000, 65536],
        [64, 64, 64, 255],
    ),
    (
        Picture::Wide,
        [true, false, false],
        [-20000, -40000, 65536],
        [131, 131, 131, 255],
    ),
    (
        Picture::Wide,
        [true, false, true],
        [40000, -134217728, 70000],
        [99, 99, 99, 255],
    ),
    (
        Picture::One,
        [true, false, false],
        [12345, -54321, 65536],
        [9, 90, 200, 255],
    ),
    (
        Picture::Pair,
        [true, false, false],
        [0, 0, 65536],
        [128, 128, 128, 128],
    ),
    (
        Picture::Column,
        [true, false, false],
        [5, 0, 65536],
        [0, 0, 0, 120],
    ),
    (
        Picture::Column,
        [true, true, true],
        [-5, 65536, 65536],
        [0, 0, 0, 240],
    ),
    (
        Picture::Column,
        [false, true, false],
        [5, -1, 65536],
        [0, 0, 0, 240],
    ),
    (
        Picture::Square,
        [true, false, false],
        [16512, 16384, 65536],
        [254, 1, 0, 255],
    ),
    (
        Picture::Square,
        [true, true, true],
        [33000, 31000, 65536],
        [127, 128, 114, 120],
    ),
    (
        Picture::Square,
        [true, false, true],
        [0, 32768, 65536],
        [128, 128, 128, 112],
    ),
];

#[test]
fn samples_wrap_clamp_and_mix_at_the_edges(rt: HostRuntime) -> Result<(), Fail> {
    for (row, (picture, [linear, clamp_s, clamp_t], [s, t, q], wanted)) in SAMPLES
        .into_iter()
        .enumerate()
    {
        let texture = picture.texture(rt.alloc())?;
        let sampling = Sampling {
            min: MinFilter::Nearest,
            linear,
            clamp_s,
            clamp_t,
        };
        sample_law(&texture, &sampling, s, t, q);
        assert_eq!(rt; sample(&texture, &sampling, s, t, q), wanted, "row {row}");
    }
    weights_law();
    Ok(())
}

#[test]
#[tactic(auto, unfolding(texture_units::specs::Texture::is_power))]
fn a_part_replaces_its_rectangle_alone(rt: HostRuntime) -> Result<(), Fail> {
    let mut texture = Texture::new(rt.alloc(), Format::Luminance, 4, 2, &WIDE)?;
    texture.put_part(1, 0, 2, 2, &[1, 2, 3, 4]);
    for (x, wanted) in [10, 1, 2, 160].into_iter().enumerate() {
        assert_eq!(rt; texture.texel(x as u32, 0)[0], wanted, "column {x}");
    }
    for (x, wanted) in [35, 3, 4, 185].into_iter().enumerate() {
        assert_eq!(rt; texture.texel(x as u32, 1)[0], wanted, "column {x}");
    }
    Ok(())
}

#[test]
fn a_texture_of_one_texel_needs_no_mipmaps(rt: HostRuntime) -> Result<(), Fail> {
    for (min, wide, one) in [
        (MinFilter::Nearest, true, true),
        (MinFilter::Linear, true, true),
        (MinFilter::Mipmap, false, true),
    ] {
        let sampling = Sampling {
            min,
            linear: false,
            clamp_s: false,
            clamp_t: false,
        };
        let texture = Picture::Wide.texture(rt.alloc())?;
        assert_eq!(rt; texture.is_complete(&sampling), wide);
        let texture = Picture::One.texture(rt.alloc())?;
        assert_eq!(rt; texture.is_complete(&sampling), one);
    }
    Ok(())
}

#[test]
fn sides_are_powers_of_two(rt: HostRuntime) {
    for (number, wanted) in [
        (0, false),
        (1, true),
        (3, false),
        (128, true),
        (256, true),
        (257, false),
        (512, false),
    ] {
        assert_eq!(rt; is_side(number), wanted, "{number}");
    }
}
