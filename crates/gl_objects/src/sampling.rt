//! How textures are read, and what a parameter makes of it.

ghost use Rattle.std.specs.Prelude.{◌≡◌, ◌↔◌, IsTrue};
ghost use Rattle.gl_objects.specs.Sampling.{min_filter_of, new_sampling, with_parameter, IsParameter};

use texture_units::{MinFilter, Sampling};

/// The numbers of parameters and of their values (section 3.7.4).
const MAG_FILTER: u32 = 0x2800;

const MIN_FILTER: u32 = 0x2801;

const WRAP_S: u32 = 0x2802;

const WRAP_T: u32 = 0x2803;

const NEAREST: i32 = 0x2600;

const LINEAR: i32 = 0x2601;

const NEAREST_MIPMAP_NEAREST: i32 = 0x2700;

const LINEAR_MIPMAP_NEAREST: i32 = 0x2701;

const NEAREST_MIPMAP_LINEAR: i32 = 0x2702;

const LINEAR_MIPMAP_LINEAR: i32 = 0x2703;

const REPEAT: i32 = 0x2901;

const CLAMP_TO_EDGE: i32 = 0x812F;

/// Whether a parameter has this name and takes this value (section 3.7.4). It is the condition of the event `Parameter`.
#[tactic(auto, unfolding(crate::specs::Sampling::values_taken))]
pub fn is_parameter(pname: u32, value: i32) -> bool
    ensures { IsTrue result ↔ IsParameter pname value }
{
    if pname == MAG_FILTER {
        NEAREST == value || LINEAR == value
    } else if pname == MIN_FILTER {
        NEAREST == value
            || LINEAR == value
            || NEAREST_MIPMAP_NEAREST == value
            || LINEAR_MIPMAP_NEAREST == value
            || NEAREST_MIPMAP_LINEAR == value
            || LINEAR_MIPMAP_LINEAR == value
    } else if pname == WRAP_S || pname == WRAP_T {
        REPEAT == value || CLAMP_TO_EDGE == value
    } else {
        false
    }
}

/// How a texture is read that no parameter was set of (section 3.7.10).
pub fn new_sampling() -> Sampling
    ensures { result ≡ new_sampling }
{
    Sampling {
        min: MinFilter::Mipmap,
        linear: true,
        clamp_s: false,
        clamp_t: false,
    }
}

/// The filter for what is made smaller that a value stands for (section 3.7.7).
fn min_filter_of(value: i32) -> MinFilter
    ensures { result ≡ min_filter_of value }
{
    if value == NEAREST {
        MinFilter::Nearest
    } else if value == LINEAR {
        MinFilter::Linear
    } else {
        MinFilter::Mipmap
    }
}

/// How a texture is read after a parameter was set (section 3.7.4).
#[tactic(auto, unfolding(crate::specs::Sampling::with_parameter))]
pub fn with_parameter(sampling: Sampling, pname: u32, value: i32) -> Sampling
    ensures { result ≡ with_parameter sampling pname value }
{
    if pname == MAG_FILTER {
        Sampling {
            linear: value == LINEAR,
            ..sampling
        }
    } else if pname == MIN_FILTER {
        Sampling {
            min: min_filter_of(value),
            ..sampling
        }
    } else if pname == WRAP_S {
        Sampling {
            clamp_s: value == CLAMP_TO_EDGE,
            ..sampling
        }
    } else if pname == WRAP_T {
        Sampling {
            clamp_t: value == CLAMP_TO_EDGE,
            ..sampling
        }
    } else {
        sampling
    }
}
