//! The first errors of the calls of textures: of their environment, their images and their parameters. Whether there is a
//! texture, and what image it has, is told by the objects.

ghost use Rattle.std.specs.Prelude.{◌≡◌, true};
ghost use Rattle.gl_tracked.specs.declared.tracked.Tracked.{Tracked};
ghost use Rattle.gl_tracked.specs.Enumerants.{environment_modes, magnifications, minifications, texture_formats, texture_parameters, values_of_parameter, wraps};
ghost use Rattle.gl_tracked.specs.Fault.{colour_fault, fault_of, image_fault, is_among, is_image_side, is_internal_format, is_of_textures, is_part_size, mode_fault, parameter_fault, size_is_among, subimage_fault};

use crate::fault::{enum_unless, error_unless, is_extent, value_unless};
use gl_words::{Call, GlError};

/// The first error of a call of textures.
#[tactic(auto, unfolding(crate::specs::Fault::fault_of))]
pub(crate) fn texture_fault(call: &Call) -> Option<GlError>
    requires { is_of_textures call.now ≡ true }
    ensures { (tracked : Tracked) → result ≡ fault_of tracked call.now }
{
    match call {
        Call::TexEnvi {
            target,
            pname,
            param,
        } => mode_fault(*target, *pname, *param),
        Call::TexEnvxv { target, pname, .. } => colour_fault(*target, *pname),
        Call::TexImage2D {
            target,
            level,
            internalformat,
            width,
            height,
            border,
            format,
            kind,
            ..
        } => image_fault(
            *target,
            *level,
            *internalformat,
            *width,
            *height,
            *border,
            *format,
            *kind,
        ),
        Call::TexParameteri {
            target,
            pname,
            param,
        } => parameter_fault(*target, *pname, *param),
        Call::TexSubImage2D {
            target,
            level,
            xoffset,
            yoffset,
            width,
            height,
            format,
            kind,
            ..
        } => subimage_fault(
            *target, *level, *xoffset, *yoffset, *width, *height, *format, *kind,
        ),
        _ => None,
    }
}

/// The first error of TexEnvi (section 3.7.12).
#[tactic(auto, unfolding(crate::specs::Fault::mode_fault, crate::specs::Fault::first_failed))]
fn mode_fault(target: u32, pname: u32, param: i32) -> Option<GlError>
    ensures { result ≡ mode_fault target pname param }
{
    enum_unless(target == 0x2300 && pname == 0x2200 && is_environment_mode(param))
}

/// The first error of TexEnvxv (section 3.7.12).
#[tactic(auto, unfolding(crate::specs::Fault::colour_fault, crate::specs::Fault::first_failed))]
fn colour_fault(target: u32, pname: u32) -> Option<GlError>
    ensures { result ≡ colour_fault target pname }
{
    enum_unless(target == 0x2300 && pname == 0x2201)
}

/// The first error of TexImage2D (section 3.7.1, the greatest side own).
#[tactic(auto, unfolding(crate::specs::Fault::image_fault, crate::specs::Fault::first_failed))]
fn image_fault(
    target: u32,
    level: i32,
    internalformat: i32,
    width: i32,
    height: i32,
    border: i32,
    format: u32,
    kind: u32,
) -> Option<GlError>
    ensures { result ≡ image_fault target level internalformat width height border format kind }
{
    if target != 0x0DE1 || !is_texture_format(format) || kind != 0x1401 {
        Some(GlError::InvalidEnum)
    } else if level != 0 || !is_internal_format(internalformat) {
        Some(GlError::InvalidValue)
    } else if !is_image_side(width) || !is_image_side(height) || border != 0 {
        Some(GlError::InvalidValue)
    } else {
        error_unless(
            i64::from(internalformat) == i64::from(format),
            GlError::InvalidOperation,
        )
    }
}

/// The first error of TexParameteri (section 3.7.4).
#[tactic(auto, unfolding(crate::specs::Fault::parameter_fault, crate::specs::Fault::first_failed))]
fn parameter_fault(target: u32, pname: u32, param: i32) -> Option<GlError>
    ensures { result ≡ parameter_fault target pname param }
{
    enum_unless(
        target == 0x0DE1 && is_texture_parameter(pname) && is_value_of_parameter(pname, param),
    )
}

/// The first error of TexSubImage2D (section 3.7.2, the greatest side own).
#[tactic(auto, unfolding(crate::specs::Fault::subimage_fault, crate::specs::Fault::first_failed))]
fn subimage_fault(
    target: u32,
    level: i32,
    xoffset: i32,
    yoffset: i32,
    width: i32,
    height: i32,
    format: u32,
    kind: u32,
) -> Option<GlError>
    ensures { result ≡ subimage_fault target level xoffset yoffset width height format kind }
{
    if target != 0x0DE1 || !is_texture_format(format) || kind != 0x1401 {
        Some(GlError::InvalidEnum)
    } else {
        value_unless(level == 0 && is_extent(xoffset, yoffset) && is_part_size(width, height))
    }
}

/// Whether a number is ADD, BLEND, DECAL, MODULATE or REPLACE (section 3.7.12).
#[tactic(auto, unfolding(crate::specs::Fault::size_is_among))]
fn is_environment_mode(mode: i32) -> bool
    ensures { result ≡ size_is_among environment_modes mode }
{
    matches!(mode, 0x0104 | 0x0BE2 | 0x1E01 | 0x2100 | 0x2101)
}

/// Whether a number is ALPHA, RGB, RGBA, LUMINANCE or LUMINANCE_ALPHA (section 3.7.1).
#[tactic(auto, unfolding(crate::specs::Fault::is_among))]
fn is_texture_format(format: u32) -> bool
    ensures { result ≡ is_among texture_formats format }
{
    matches!(format, 0x1906 | 0x1907 | 0x1908 | 0x1909 | 0x190A)
}

/// Whether a signed number is one of the formats (section 3.7.1).
#[tactic(auto, unfolding(crate::specs::Fault::is_internal_format, crate::specs::Fault::size_is_among))]
fn is_internal_format(format: i32) -> bool
    ensures { result ≡ is_internal_format format }
{
    matches!(format, 0x1906 | 0x1907 | 0x1908 | 0x1909 | 0x190A)
}

/// Whether an image may have a side of so many texels (section 3.7.1, the most own).
#[tactic(auto, unfolding(crate::specs::Fault::is_image_side, crate::specs::Fault::size_is_among))]
fn is_image_side(side: i32) -> bool
    ensures { result ≡ is_image_side side }
{
    matches!(side, 1 | 2 | 4 | 8 | 16 | 32 | 64 | 128 | 256)
}

/// Whether texels of a rectangle with these sides can be replaced (section 3.7.2, the most own).
#[tactic(auto, unfolding(crate::specs::Fault::is_part_size))]
fn is_part_size(width: i32, height: i32) -> bool
    ensures { result ≡ is_part_size width height }
{
    is_extent(width, height) && width <= 256 && height <= 256
}

/// Whether a number is TEXTURE_MAG_FILTER, TEXTURE_MIN_FILTER, TEXTURE_WRAP_S or TEXTURE_WRAP_T (section 3.7.4).
#[tactic(auto, unfolding(crate::specs::Fault::is_among))]
fn is_texture_parameter(pname: u32) -> bool
    ensures { result ≡ is_among texture_parameters pname }
{
    matches!(pname, 0x2800 | 0x2801 | 0x2802 | 0x2803)
}

/// Whether a parameter of textures accepts a value (section 3.7.4).
#[tactic(auto, unfolding(crate::specs::Enumerants::values_of_parameter, crate::specs::Fault::size_is_among))]
fn is_value_of_parameter(pname: u32, value: i32) -> bool
    ensures { result ≡ size_is_among (values_of_parameter pname) value }
{
    match pname {
        0x2800 => is_magnification(value),
        0x2801 => is_minification(value),
        0x2802 => is_wrap(value),
        0x2803 => is_wrap(value),
        _ => false,
    }
}

/// Whether a number is NEAREST or LINEAR (section 3.7.8).
#[tactic(auto, unfolding(crate::specs::Fault::size_is_among))]
fn is_magnification(value: i32) -> bool
    ensures { result ≡ size_is_among magnifications value }
{
    matches!(value, 0x2600 | 0x2601)
}

/// Whether a number is NEAREST, LINEAR or a filter of mipmaps (section 3.7.7).
#[tactic(auto, unfolding(crate::specs::Fault::size_is_among))]
fn is_minification(value: i32) -> bool
    ensures { result ≡ size_is_among minifications value }
{
    matches!(value, 0x2600 | 0x2601 | 0x2700 | 0x2701 | 0x2702 | 0x2703)
}

/// Whether a number is REPEAT or CLAMP_TO_EDGE (section 3.7.6).
#[tactic(auto, unfolding(crate::specs::Fault::size_is_among))]
fn is_wrap(value: i32) -> bool
    ensures { result ≡ size_is_among wraps value }
{
    matches!(value, 0x2901 | 0x812F)
}
