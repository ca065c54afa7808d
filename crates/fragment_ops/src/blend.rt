//! Colours of four bytes, red, green, blue and alpha: blending and masks.

ghost use Rattle.std.specs.Prelude.{◌≡◌, ◌<◌, ◌-◌, map, true, [], ◌∷◌, if◌then◌else◌, IfSome};
ghost use Rattle.fragment_ops.specs.Blend.{blended, blended_at, byte_product, dest_factors, even, lack_of, masked, part_blended, parts, saturating, source_factors};

const ZERO: u32 = 0;

const ONE: u32 = 1;

const SRC_COLOR: u32 = 0x0300;

const ONE_MINUS_SRC_COLOR: u32 = 0x0301;

pub(crate) const SRC_ALPHA: u32 = 0x0302;

pub(crate) const ONE_MINUS_SRC_ALPHA: u32 = 0x0303;

const DST_ALPHA: u32 = 0x0304;

const ONE_MINUS_DST_ALPHA: u32 = 0x0305;

const DST_COLOR: u32 = 0x0306;

const ONE_MINUS_DST_COLOR: u32 = 0x0307;

/// A source blended with a destination by the factors of these names (section 4.1.7). Those that blend by the source's alpha
/// are asked for first, since most draws that blend have them.
#[inline(always)]
#[tactic(auto, unfolding(crate::specs::Blend::blended))]
pub(crate) fn blended(
    source_factor: u32,
    dest_factor: u32,
    source: [u8; 4],
    dest: [u8; 4],
) -> [u8; 4]
    ensures { result ≡ blended source_factor dest_factor source dest }
{
    if source_factor == SRC_ALPHA && dest_factor == ONE_MINUS_SRC_ALPHA {
        blended_by_alpha(source, &dest)
    } else {
        blended_by_name(source_factor, dest_factor, source, dest)
    }
}

/// A source blended with a destination by the factors of these names: by one for each part of either, or else part by part.
#[inline(never)]
#[tactic(auto, unfolding(crate::specs::Blend::blended))]
fn blended_by_name(source_factor: u32, dest_factor: u32, source: [u8; 4], dest: [u8; 4]) -> [u8; 4]
    ensures { result ≡ blended source_factor dest_factor source dest }
{
    let Some(of_source) = even_source(source_factor, source, dest) else {
        return blended_apart(source_factor, dest_factor, source, dest);
    };
    let Some(of_dest) = even_dest(dest_factor, source, dest) else {
        return blended_apart(source_factor, dest_factor, source, dest);
    };
    blended_evenly(source, of_source, dest, of_dest)
}

/// A source blended with a destination by its alpha, and by what that lacks to 1.
#[inline(always)]
#[tactic(auto, unfolding(crate::specs::Blend::blended, crate::specs::Blend::source_factors, crate::specs::Blend::dest_factors))]
pub(crate) fn blended_by_alpha(source: [u8; 4], dest: &[u8; 4]) -> [u8; 4]
    ensures { result ≡ blended 0x302 0x303 source dest.now }
{
    blended_between(source, source[3], dest)
}

/// A source blended with a destination by one factor, and by what that lacks to 1.
#[inline(always)]
#[tactic(auto, unfolding(crate::specs::Blend::blended_at))]
fn blended_between(source: [u8; 4], factor: u8, dest: &[u8; 4]) -> [u8; 4]
    ensures { result ≡ map (blended_at source (even factor) dest.now (even (255 - factor))) parts }
{
    [
        part_between(source[0], factor, dest[0]),
        part_between(source[1], factor, dest[1]),
        part_between(source[2], factor, dest[2]),
        part_between(source[3], factor, dest[3]),
    ]
}

/// A part blended by a factor, and by what that lacks to 1: the sum is never above 1. A product is divided by 255 as 257 times it
/// by 65536, which is faster and rounds the same way.
#[inline(always)]
#[tactic(auto, unfolding(crate::specs::Blend::part_blended, crate::specs::Blend::byte_product))]
fn part_between(source: u8, factor: u8, dest: u8) -> u8
    ensures { result ≡ part_blended source factor dest (255 - factor) }
{
    let of_source = u32::from(source) * u32::from(factor);
    let of_dest = u32::from(dest) * u32::from(255 - factor);
    let sum = (of_source * 257 + 32896) / 65536 + (of_dest * 257 + 32896) / 65536;
    sum as u8
}

/// A source blended with a destination by the factors of these names, each part with a factor of its own.
#[cold]
#[inline(never)]
#[tactic(auto, unfolding(crate::specs::Blend::blended))]
fn blended_apart(source_factor: u32, dest_factor: u32, source: [u8; 4], dest: [u8; 4]) -> [u8; 4]
    ensures { result ≡ blended source_factor dest_factor source dest }
{
    let of_source = source_factors(source_factor, source, dest);
    let of_dest = dest_factors(dest_factor, source, dest);
    [
        blended_at(0, source, of_source, dest, of_dest),
        blended_at(1, source, of_source, dest, of_dest),
        blended_at(2, source, of_source, dest, of_dest),
        blended_at(3, source, of_source, dest, of_dest),
    ]
}

/// A source blended with a destination, with one factor for each part of either.
#[tactic(auto, unfolding(crate::specs::Blend::blended_at))]
fn blended_evenly(source: [u8; 4], of_source: u8, dest: [u8; 4], of_dest: u8) -> [u8; 4]
    ensures { result ≡ map (blended_at source (even of_source) dest (even of_dest)) parts }
{
    [
        part_blended(source[0], of_source, dest[0], of_dest),
        part_blended(source[1], of_source, dest[1], of_dest),
        part_blended(source[2], of_source, dest[2], of_dest),
        part_blended(source[3], of_source, dest[3], of_dest),
    ]
}

/// The factor of a source, where it is the same for each part (section 4.1.7).
#[tactic(auto, unfolding(crate::specs::Blend::source_factors))]
fn even_source(factor: u32, source: [u8; 4], dest: [u8; 4]) -> Option<u8>
    ensures { IfSome result (λ same. source_factors factor source dest ≡ even same) }
{
    match factor {
        ZERO => Some(0),
        ONE => Some(255),
        SRC_ALPHA => Some(source[3]),
        ONE_MINUS_SRC_ALPHA => Some(255 - source[3]),
        DST_ALPHA => Some(dest[3]),
        ONE_MINUS_DST_ALPHA => Some(255 - dest[3]),
        _ => None,
    }
}

/// The factor of a destination, where it is the same for each part (section 4.1.7).
#[tactic(auto, unfolding(crate::specs::Blend::dest_factors))]
fn even_dest(factor: u32, source: [u8; 4], dest: [u8; 4]) -> Option<u8>
    ensures { IfSome result (λ same. dest_factors factor source dest ≡ even same) }
{
    match factor {
        ZERO => Some(0),
        ONE => Some(255),
        SRC_ALPHA => Some(source[3]),
        ONE_MINUS_SRC_ALPHA => Some(255 - source[3]),
        DST_ALPHA => Some(dest[3]),
        ONE_MINUS_DST_ALPHA => Some(255 - dest[3]),
        _ => None,
    }
}

/// The part at one place, 0 to 3, of a source blended with a destination, each with these factors.
#[tactic(auto, unfolding(crate::specs::Blend::blended_at))]
fn blended_at(part: usize, source: [u8; 4], factors: [u8; 4], dest: [u8; 4], of_dest: [u8; 4]) -> u8
    requires { part < 4 }
    ensures { result ≡ blended_at source factors dest of_dest part }
{
    part_blended(source[part], factors[part], dest[part], of_dest[part])
}

/// The factor of a source for each part (section 4.1.7).
#[tactic(auto, unfolding(crate::specs::Blend::source_factors))]
fn source_factors(factor: u32, source: [u8; 4], dest: [u8; 4]) -> [u8; 4]
    ensures { result ≡ source_factors factor source dest }
{
    match factor {
        ZERO => [0; 4],
        ONE => [255; 4],
        SRC_ALPHA => [source[3]; 4],
        ONE_MINUS_SRC_ALPHA => [255 - source[3]; 4],
        DST_ALPHA => [dest[3]; 4],
        ONE_MINUS_DST_ALPHA => [255 - dest[3]; 4],
        DST_COLOR => dest,
        ONE_MINUS_DST_COLOR => lacking(dest),
        _ => saturating(source, dest),
    }
}

/// The factor of a destination for each part (section 4.1.7).
#[tactic(auto, unfolding(crate::specs::Blend::dest_factors))]
fn dest_factors(factor: u32, source: [u8; 4], dest: [u8; 4]) -> [u8; 4]
    ensures { result ≡ dest_factors factor source dest }
{
    match factor {
        ZERO => [0; 4],
        ONE => [255; 4],
        SRC_COLOR => source,
        ONE_MINUS_SRC_COLOR => lacking(source),
        SRC_ALPHA => [source[3]; 4],
        ONE_MINUS_SRC_ALPHA => [255 - source[3]; 4],
        DST_ALPHA => [dest[3]; 4],
        _ => [255 - dest[3]; 4],
    }
}

/// What each part of a colour lacks to 1.
fn lacking(colour: [u8; 4]) -> [u8; 4]
    ensures { result ≡ map lack_of colour }
{
    let [red, green, blue, alpha] = colour;
    [255 - red, 255 - green, 255 - blue, 255 - alpha]
}

/// The factor of SRC_ALPHA_SATURATE for each part.
#[tactic(auto, unfolding(crate::specs::Blend::saturating))]
fn saturating(source: [u8; 4], dest: [u8; 4]) -> [u8; 4]
    ensures { result ≡ saturating source dest }
{
    let least = source[3].min(255 - dest[3]);
    [least, least, least, 255]
}

/// A part blended: the sum of the source and the destination, each times its factor, cut at 1.
#[inline(always)]
#[tactic(auto, unfolding(crate::specs::Blend::part_blended))]
fn part_blended(source: u8, source_factor: u8, dest: u8, dest_factor: u8) -> u8
    ensures { result ≡ part_blended source source_factor dest dest_factor }
{
    let sum = u32::from(byte_product(source, source_factor))
        + u32::from(byte_product(dest, dest_factor));
    sum.min(255) as u8
}

/// The product of two bytes that stand for 0 to 1, as such a byte.
#[inline(always)]
#[tactic(auto, unfolding(crate::specs::Blend::byte_product))]
fn byte_product(a: u8, b: u8) -> u8
    ensures { result ≡ byte_product a b }
{
    ((u32::from(a) * u32::from(b) + 127) / 255) as u8
}

/// A colour that is written over another one: the new part where its mask is on, else the old one (section 4.2.2).
#[inline(always)]
pub(crate) fn masked(mask: [bool; 4], new: [u8; 4], old: [u8; 4]) -> [u8; 4]
    ensures { result ≡ masked mask new old }
{
    if all_on(mask) {
        new
    } else {
        masked_apart(mask, new, old)
    }
}

/// The same, part by part.
#[cold]
#[inline(never)]
#[tactic(auto, unfolding(crate::specs::Blend::masked))]
fn masked_apart(mask: [bool; 4], new: [u8; 4], old: [u8; 4]) -> [u8; 4]
    ensures { result ≡ masked mask new old }
{
    [
        chosen(mask[0], new[0], old[0]),
        chosen(mask[1], new[1], old[1]),
        chosen(mask[2], new[2], old[2]),
        chosen(mask[3], new[3], old[3]),
    ]
}

/// Whether each part's mask is on.
#[inline(always)]
pub(crate) fn all_on(mask: [bool; 4]) -> bool
    ensures { result ≡ true → mask ≡ true ∷ true ∷ true ∷ true ∷ [] }
{
    mask == [true; 4]
}

/// The new byte where a test passes, else the old one.
fn chosen(test: bool, new: u8, old: u8) -> u8
    ensures { result ≡ if test then new else old }
{
    if test { new } else { old }
}
