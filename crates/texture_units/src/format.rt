//! The formats of texels.

ghost use Rattle.std.specs.Prelude.{◌≡◌, ◌+◌, ◌≤◌, length};
ghost use Rattle.texture_units.specs.Format.{colour_at, size_of};

/// What the bytes of a texel are, a byte each in this order (sections 3.6.2 and 3.7.1).
#[derive(Clone, Copy, Debug, PartialEq, Eq)]
pub enum Format {
    Alpha,
    Luminance,
    LuminanceAlpha,
    Rgb,
    Rgba,
}

impl Format {
    /// How many bytes a texel has, 1 to 4 (sections 3.6.2 and 3.7.1).
    #[inline(always)]
    pub fn size(self) -> u32
        ensures { result ≡ size_of self }
    {
        match self {
            Format::Alpha => 1,
            Format::Luminance => 1,
            Format::LuminanceAlpha => 2,
            Format::Rgb => 3,
            Format::Rgba => 4,
        }
    }

    /// The colour of the texel whose bytes begin at a place among these bytes (sections 3.6.2 and 3.7.1).
    #[inline(always)]
    #[tactic(auto, unfolding(crate::specs::Format::colour_at))]
    pub(crate) fn colour(self, bytes: &[u8], at: usize) -> [u8; 4]
        requires { at + size_of self ≤ length bytes.now }
        ensures { result ≡ colour_at self bytes.now at }
    {
        match self {
            Format::Alpha => [0, 0, 0, bytes[at]],
            Format::Luminance => {
                let luminance = bytes[at];
                [luminance, luminance, luminance, 255]
            }
            Format::LuminanceAlpha => {
                let luminance = bytes[at];
                [luminance, luminance, luminance, bytes[at + 1]]
            }
            Format::Rgb => [bytes[at], bytes[at + 1], bytes[at + 2], 255],
            Format::Rgba => [bytes[at], bytes[at + 1], bytes[at + 2], bytes[at + 3]],
        }
    }
}
