//! The enumerants that calls on buffers, on state which isn't tracked, and draws accept. What such a call sets isn't told here.

ghost use Rattle.std.specs.Prelude.{◌≡◌, ◌&&◌};
ghost use Rattle.gl_tracked.specs.Enumerants.{buffer_targets, comparisons, dest_factors, faces, index_types, modes, shadings, source_factors, usages, windings};
ghost use Rattle.gl_tracked.specs.Fault.{is_among};

/// Whether a number is a comparison, NEVER to ALWAYS (sections 4.1.4 and 4.1.6).
#[tactic(auto, unfolding(crate::specs::Fault::is_among))]
pub(crate) fn is_comparison(func: u32) -> bool
    ensures { result ≡ is_among comparisons func }
{
    matches!(
        func,
        0x0200 | 0x0201 | 0x0202 | 0x0203 | 0x0204 | 0x0205 | 0x0206 | 0x0207
    )
}

/// Whether two numbers are a factor of what is blended in, and one of what was there (section 4.1.7).
pub(crate) fn are_factors(source: u32, dest: u32) -> bool
    ensures { result ≡ (is_among source_factors source && is_among dest_factors dest) }
{
    is_source_factor(source) && is_dest_factor(dest)
}

#[tactic(auto, unfolding(crate::specs::Fault::is_among))]
fn is_source_factor(factor: u32) -> bool
    ensures { result ≡ is_among source_factors factor }
{
    matches!(
        factor,
        0 | 1 | 0x0302 | 0x0303 | 0x0304 | 0x0305 | 0x0306 | 0x0307 | 0x0308
    )
}

#[tactic(auto, unfolding(crate::specs::Fault::is_among))]
fn is_dest_factor(factor: u32) -> bool
    ensures { result ≡ is_among dest_factors factor }
{
    matches!(
        factor,
        0 | 1 | 0x0300 | 0x0301 | 0x0302 | 0x0303 | 0x0304 | 0x0305
    )
}

/// Whether a number is FRONT, BACK or FRONT_AND_BACK (section 3.5.1).
#[tactic(auto, unfolding(crate::specs::Fault::is_among))]
pub(crate) fn is_face(face: u32) -> bool
    ensures { result ≡ is_among faces face }
{
    matches!(face, 0x0404 | 0x0405 | 0x0408)
}

/// Whether a number is CW or CCW (section 2.12.1).
#[tactic(auto, unfolding(crate::specs::Fault::is_among))]
pub(crate) fn is_winding(winding: u32) -> bool
    ensures { result ≡ is_among windings winding }
{
    matches!(winding, 0x0900 | 0x0901)
}

/// Whether a number is FLAT or SMOOTH (section 2.12.7).
#[tactic(auto, unfolding(crate::specs::Fault::is_among))]
pub(crate) fn is_shading(shading: u32) -> bool
    ensures { result ≡ is_among shadings shading }
{
    matches!(shading, 0x1D00 | 0x1D01)
}

/// Whether a number is a mode of draws, POINTS to TRIANGLE_FAN (section 2.6.1).
#[tactic(auto, unfolding(crate::specs::Fault::is_among))]
pub(crate) fn is_mode(mode: u32) -> bool
    ensures { result ≡ is_among modes mode }
{
    matches!(mode, 0 | 1 | 2 | 3 | 4 | 5 | 6)
}

/// Whether a number is ARRAY_BUFFER or ELEMENT_ARRAY_BUFFER (section 2.9).
#[tactic(auto, unfolding(crate::specs::Fault::is_among))]
pub(crate) fn is_buffer_target(target: u32) -> bool
    ensures { result ≡ is_among buffer_targets target }
{
    matches!(target, 0x8892 | 0x8893)
}

/// Whether a number is STATIC_DRAW or DYNAMIC_DRAW (section 2.9).
#[tactic(auto, unfolding(crate::specs::Fault::is_among))]
pub(crate) fn is_usage(usage: u32) -> bool
    ensures { result ≡ is_among usages usage }
{
    matches!(usage, 0x88E4 | 0x88E8)
}

/// Whether a number is UNSIGNED_BYTE or UNSIGNED_SHORT (section 2.8).
#[tactic(auto, unfolding(crate::specs::Fault::is_among))]
pub(crate) fn is_index_type(kind: u32) -> bool
    ensures { result ≡ is_among index_types kind }
{
    matches!(kind, 0x1401 | 0x1403)
}
