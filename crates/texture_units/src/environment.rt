//! The texture environment.

ghost use Rattle.std.specs.Prelude.{◌≡◌, ℕ, List};
ghost use Rattle.texture_units.specs.Environment.{byte_mix, byte_product, byte_sum, combined};
ghost use Rattle.texture_units.specs.declared.format.Format.TheVariants.{Rgba};
ghost use Rattle.texture_units.specs.declared.environment.EnvMode.TheVariants.{Replace, Modulate, Decal, Blend, Add};

use crate::format::Format;

/// What a unit makes of a fragment's colour and a texel (section 3.7.12).
#[derive(Clone, Copy)]
pub enum EnvMode {
    Replace,
    Modulate,
    Decal,
    Blend,
    Add,
}

/// A fragment's colour after a unit whose texture, of this format, gave this texel; the constant is the environment's colour.
/// Each is red, green, blue and alpha, a byte each (section 3.7.12, DECAL of all formats but RGB and RGBA own). MODULATE comes
/// first, since it is what a unit does unless a program says otherwise.
#[inline(always)]
pub fn combine(
    mode: EnvMode,
    format: Format,
    fragment: [u8; 4],
    texel: [u8; 4],
    constant: [u8; 4],
) -> [u8; 4]
    ensures { result ≡ combined mode format fragment texel constant }
{
    match mode {
        EnvMode::Modulate => modulated(format, fragment, texel),
        _ => combined_by_name(mode, format, fragment, texel, constant),
    }
}

/// The same, by the mode's name.
#[inline(never)]
fn combined_by_name(
    mode: EnvMode,
    format: Format,
    fragment: [u8; 4],
    texel: [u8; 4],
    constant: [u8; 4],
) -> [u8; 4]
    ensures { result ≡ combined mode format fragment texel constant }
{
    match mode {
        EnvMode::Replace => replaced(format, fragment, texel),
        EnvMode::Modulate => modulated(format, fragment, texel),
        EnvMode::Decal => with_decal(format, fragment, texel),
        EnvMode::Blend => blended(format, fragment, texel, constant),
        EnvMode::Add => added(format, fragment, texel),
    }
}

/// REPLACE.
#[tactic(auto, unfolding(crate::specs::Environment::combined))]
fn replaced(format: Format, fragment: [u8; 4], texel: [u8; 4]) -> [u8; 4]
    ensures { (constant : List ℕ) → result ≡ combined Replace format fragment texel constant }
{
    match format {
        Format::Alpha => [fragment[0], fragment[1], fragment[2], texel[3]],
        Format::Luminance | Format::Rgb => [texel[0], texel[1], texel[2], fragment[3]],
        Format::LuminanceAlpha | Format::Rgba => [texel[0], texel[1], texel[2], texel[3]],
    }
}

/// MODULATE. RGBA comes first.
#[inline(always)]
fn modulated(format: Format, fragment: [u8; 4], texel: [u8; 4]) -> [u8; 4]
    ensures { (constant : List ℕ) → result ≡ combined Modulate format fragment texel constant }
{
    match format {
        Format::Rgba => products(fragment, texel),
        _ => modulated_apart(format, fragment, texel),
    }
}

/// The products of the parts of two colours.
#[inline(always)]
#[tactic(auto, unfolding(crate::specs::Environment::combined))]
fn products(fragment: [u8; 4], texel: [u8; 4]) -> [u8; 4]
    ensures { (constant : List ℕ) → result ≡ combined Modulate Rgba fragment texel constant }
{
    let [red, green, blue, alpha] = fragment;
    let [texel_red, texel_green, texel_blue, texel_alpha] = texel;
    [
        byte_product(red, texel_red),
        byte_product(green, texel_green),
        byte_product(blue, texel_blue),
        byte_product(alpha, texel_alpha),
    ]
}

/// MODULATE, by the format's name.
#[inline(never)]
#[tactic(auto, unfolding(crate::specs::Environment::combined))]
fn modulated_apart(format: Format, fragment: [u8; 4], texel: [u8; 4]) -> [u8; 4]
    ensures { (constant : List ℕ) → result ≡ combined Modulate format fragment texel constant }
{
    let [red, green, blue, alpha] = fragment;
    let [texel_red, texel_green, texel_blue, texel_alpha] = texel;
    match format {
        Format::Alpha => [red, green, blue, byte_product(alpha, texel_alpha)],
        Format::Luminance | Format::Rgb => [
            byte_product(red, texel_red),
            byte_product(green, texel_green),
            byte_product(blue, texel_blue),
            alpha,
        ],
        Format::LuminanceAlpha | Format::Rgba => [
            byte_product(red, texel_red),
            byte_product(green, texel_green),
            byte_product(blue, texel_blue),
            byte_product(alpha, texel_alpha),
        ],
    }
}

/// DECAL.
#[tactic(auto, unfolding(crate::specs::Environment::combined))]
fn with_decal(format: Format, fragment: [u8; 4], texel: [u8; 4]) -> [u8; 4]
    ensures { (constant : List ℕ) → result ≡ combined Decal format fragment texel constant }
{
    let [red, green, blue, alpha] = fragment;
    match format {
        Format::Rgb => [texel[0], texel[1], texel[2], alpha],
        Format::Rgba => [
            byte_mix(red, texel[0], texel[3]),
            byte_mix(green, texel[1], texel[3]),
            byte_mix(blue, texel[2], texel[3]),
            alpha,
        ],
        Format::Alpha | Format::Luminance | Format::LuminanceAlpha => [red, green, blue, alpha],
    }
}

/// BLEND.
#[tactic(auto, unfolding(crate::specs::Environment::combined))]
fn blended(format: Format, fragment: [u8; 4], texel: [u8; 4], constant: [u8; 4]) -> [u8; 4]
    ensures { result ≡ combined Blend format fragment texel constant }
{
    let [red, green, blue, alpha] = fragment;
    match format {
        Format::Alpha => [red, green, blue, byte_product(alpha, texel[3])],
        Format::Luminance | Format::Rgb => [
            byte_mix(red, constant[0], texel[0]),
            byte_mix(green, constant[1], texel[1]),
            byte_mix(blue, constant[2], texel[2]),
            alpha,
        ],
        Format::LuminanceAlpha | Format::Rgba => [
            byte_mix(red, constant[0], texel[0]),
            byte_mix(green, constant[1], texel[1]),
            byte_mix(blue, constant[2], texel[2]),
            byte_product(alpha, texel[3]),
        ],
    }
}

/// ADD.
#[tactic(auto, unfolding(crate::specs::Environment::combined))]
fn added(format: Format, fragment: [u8; 4], texel: [u8; 4]) -> [u8; 4]
    ensures { (constant : List ℕ) → result ≡ combined Add format fragment texel constant }
{
    let [red, green, blue, alpha] = fragment;
    match format {
        Format::Alpha => [red, green, blue, byte_product(alpha, texel[3])],
        Format::Luminance | Format::Rgb => [
            byte_sum(red, texel[0]),
            byte_sum(green, texel[1]),
            byte_sum(blue, texel[2]),
            alpha,
        ],
        Format::LuminanceAlpha | Format::Rgba => [
            byte_sum(red, texel[0]),
            byte_sum(green, texel[1]),
            byte_sum(blue, texel[2]),
            byte_product(alpha, texel[3]),
        ],
    }
}

/// The product of two bytes that stand for 0 to 1, as such a byte.
#[inline(always)]
#[tactic(auto, unfolding(crate::specs::Environment::byte_product))]
fn byte_product(a: u8, b: u8) -> u8
    ensures { result ≡ byte_product a b }
{
    ((u32::from(a) * u32::from(b) + 127) / 255) as u8
}

/// The sum of two bytes, cut at 1.
#[tactic(auto, unfolding(crate::specs::Environment::byte_sum))]
fn byte_sum(a: u8, b: u8) -> u8
    ensures { result ≡ byte_sum a b }
{
    (u32::from(a) + u32::from(b)).min(255) as u8
}

/// Of two bytes so much of the first as a third one lacks to 1, and so much of the second as it has.
fn byte_mix(one: u8, other: u8, share: u8) -> u8
    ensures { result ≡ byte_mix one other share }
{
    byte_sum(byte_product(one, 255 - share), byte_product(other, share))
}
