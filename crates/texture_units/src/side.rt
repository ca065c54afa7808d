//! The sides that textures may have.

ghost use Rattle.std.specs.Prelude.{◌≡◌, ◌↔◌, IsTrue};
ghost use Rattle.texture_units.specs.Texture.{is_power, IsSide};

/// Whether a number is a side that a texture may have, in texels: a power of two up to 256 (section 3.7.1, the greatest
/// own). It is the condition of `Texture::new`.
pub fn is_side(number: u32) -> bool
    ensures { IsTrue result ↔ IsSide number }
{
    is_power(number)
}

/// Whether a number is a power of two up to 256.
#[tactic(auto, unfolding(crate::specs::Texture::is_power))]
fn is_power(number: u32) -> bool
    ensures { result ≡ is_power number }
{
    match number {
        1 | 2 | 4 | 8 | 16 | 32 | 64 | 128 | 256 => true,
        _ => false,
    }
}
