//! A texture unit that takes part in a draw, and what it makes of a fragment's colour.

ghost use Rattle.std.specs.Prelude.{◌≡◌, ◌≤◌, Some, true};
ghost use Rattle.triangle_draw.specs.Fragments.{IsMultiplier};
ghost use Rattle.triangle_draw.specs.Triangle.{colour_after_unit};

use std::marker::Model;
use texture_units::{EnvMode, Format, Sampling, Texture, combine, sample};
use triangle_raster::Fragment;

/// A texture unit that takes part in a draw: what it reads, and how a texel changes a fragment's colour (section 3.7.12). Where
/// texturing is disabled, or the texture isn't complete, there is no unit. Contracts see it without its reference.
#[derive(Drop)]
pub struct Unit<'a> {
    /// What is read (section 3.7.1).
    pub texture: &'a Texture,
    /// How it is read (sections 3.7.6 to 3.7.8).
    pub sampling: Sampling,
    /// What a texel makes of a colour (section 3.7.12).
    pub mode: EnvMode,
    /// The environment's colour: red, green, blue and alpha, a byte each (section 3.7.12).
    pub constant: [u8; 4],
}

impl<'a> Model for Unit<'a> {
    ghost use Rattle.triangle_draw.specs.Unit.{UnitView};

    ghost Value = { UnitView };

    ghost view = { λ u. record {
      texture = u.texture.now;
      sampling = u.sampling;
      mode = u.mode;
      constant = u.constant;
    } };
}

/// A colour after a unit, if it takes part: its texel is read at the fragment's values from one on, which are s, t and q.
#[inline(always)]
#[tactic(auto, unfolding(crate::specs::Triangle::texel_of))]
pub(crate) fn colour_after_unit(
    unit: &Option<Unit>,
    fragment: &Fragment,
    at: usize,
    colour: [u8; 4],
) -> [u8; 4]
    requires { at ≤ 7 }
    ensures { result ≡ colour_after_unit unit.now fragment.now at colour }
{
    match unit {
        Some(unit) => {
            let values = &fragment.values;
            let (s, t, q) = (values[at], values[at + 1], values[at + 2]);
            let texel = sample(unit.texture, &unit.sampling, s, t, q);
            combine(
                unit.mode,
                unit.texture.format(),
                colour,
                texel,
                unit.constant,
            )
        }
        None => colour,
    }
}

impl<'a> Unit<'a> {
    /// Whether it multiplies a colour by one texel of RGBA.
    pub(crate) fn is_multiplier(&self) -> bool
        ensures { result ≡ true → IsMultiplier self.now }
    {
        if self.sampling.linear {
            return false;
        }
        match self.mode {
            EnvMode::Modulate => match self.texture.format() {
                Format::Rgba => true,
                _ => false,
            },
            _ => false,
        }
    }

    /// How it reads, which is known to be NEAREST.
    #[inline(always)]
    fn nearest(&self) -> Sampling
        requires { IsMultiplier self.now }
        ensures { result ≡ self.now.sampling }
    {
        Sampling {
            min: self.sampling.min,
            linear: false,
            clamp_s: self.sampling.clamp_s,
            clamp_t: self.sampling.clamp_t,
        }
    }

    /// A colour multiplied by the texel that is read at the fragment's values from 4 on. What is known is asked for by its name, so
    /// that nothing is chosen here.
    #[inline(always)]
    #[tactic(auto, unfolding(crate::specs::Triangle::texel_of))]
    pub(crate) fn multiplied(&self, fragment: &Fragment, colour: [u8; 4]) -> [u8; 4]
        requires { IsMultiplier self.now }
        ensures { result ≡ colour_after_unit (Some self.now) fragment.now 4 colour }
    {
        let values = &fragment.values;
        let sampling = self.nearest();
        let texel = sample(self.texture, &sampling, values[4], values[5], values[6]);
        combine(
            EnvMode::Modulate,
            Format::Rgba,
            colour,
            texel,
            self.constant,
        )
    }
}
