//! How a texture is read.

ghost use Rattle.std.specs.Prelude.{◌≡◌};
ghost use Rattle.texture_units.specs.Texture.{reads_one_level};

/// The filter for what is made smaller (section 3.7.7): the two that read one level, and the four that read mipmaps, of
/// which it is all the same here which one it is.
#[derive(Clone, Copy)]
pub enum MinFilter {
    Nearest,
    Linear,
    Mipmap,
}

impl MinFilter {
    /// Whether it reads one level of a texture alone (section 3.7.7).
    pub(crate) fn reads_one_level(self) -> bool
        ensures { result ≡ reads_one_level self }
    {
        match self {
            MinFilter::Nearest => true,
            MinFilter::Linear => true,
            MinFilter::Mipmap => false,
        }
    }
}

/// How a texture is read (sections 3.7.6 to 3.7.8).
#[derive(Clone, Copy)]
pub struct Sampling {
    /// It decides whether a texture is complete, and nothing else (own).
    pub min: MinFilter,
    /// LINEAR, or else NEAREST: the filter for what is made larger, by which every sample is read (own).
    pub linear: bool,
    /// CLAMP_TO_EDGE, or else REPEAT (section 3.7.6).
    pub clamp_s: bool,
    pub clamp_t: bool,
}
