//! Laws over the definitions: functions that do nothing, whose contracts are the laws.

ghost use Rattle.std.specs.Prelude.{◌≡◌, ℕ, ◌≤◌};
ghost use Rattle.texture_units.specs.Sample.{weights_of};
ghost use Rattle.texture_units.specs.Laws.{sum_of, IsNearestInside, LiesAmongFour};

use crate::sampling::Sampling;
use crate::texture::Texture;

/// The weights of the four texels of LINEAR sum to 65536, which stands for 1. Section 3.7.7 of OpenGL ES 1.1.12.
pub fn weights_law()
    ensures { (a b : ℕ) → a ≤ 256 → b ≤ 256 → sum_of (weights_of a b) ≡ 65536 }
{}

/// LINEAR keeps each channel among that of the four texels that a sample is made of, and NEAREST gives at a point inside the
/// sides the texel in which it lies. Section 3.7.7 of OpenGL ES 1.1.12.
pub fn sample_law(texture: &Texture, sampling: &Sampling, s: i32, t: i32, q: i32)
    ensures linear { LiesAmongFour texture.now sampling.now s t q }
    ensures nearest { IsNearestInside texture.now sampling.now s t q }
{
    let _bytes = texture.bytes();
}
