//! The first error of a call. A test of its arguments is a function, named as the definition; those of textures stand in `textures.rt`.

ghost use Rattle.std.specs.Prelude.{◌≡◌, ◌==◌, ◌||◌, pos, true, if◌then◌else◌, ◌∷◌, [], Some, None, is_some};
ghost use Rattle.gl_tracked.specs.declared.tracked.Tracked.{Tracked};
ghost use Rattle.gl_tracked.specs.Arrays.{gives_pointer};
ghost use Rattle.gl_tracked.specs.Enumerants.{buffer_targets, index_types, modes, usages};
ghost use Rattle.gl_tracked.specs.Fault.{bound_buffer, data_fault, differ, fault_of, first_failed, has_sides, is_among, is_bound, is_box, is_buffer_size, is_drawable, is_element_count, is_extent, is_frustum, is_known_mask, is_name_count, is_readable, part_fault, pointer_fault, size_is_among};
ghost use Rattle.gl_tracked.specs.Gets.{enabled_asked, fixed_names, integer_asked, other_integers, pointer_asked};
ghost use Rattle.gl_tracked.specs.Finding.{fault_found, number_found};
ghost use Rattle.gl_tracked.specs.Stack.{is_matrix_mode};
ghost use Rattle.gl_tracked.specs.Step.{number_asked};
ghost use Rattle.gl_tracked.specs.Tracked.{alignments, alignment_names, array_sizes, arrays, capabilities, colour_types, units, vertex_types};

use crate::enumerants::{
    are_factors, is_buffer_target, is_comparison, is_face, is_index_type, is_mode, is_shading,
    is_usage, is_winding,
};
use crate::finding::Finding;
use crate::textures::texture_fault;
use crate::tracked::Tracked;
use gl_words::{Call, GlError};

impl Tracked {
    /// The first error of a call, as it and the tracked state show it; the sections are those of the calls.
    pub fn fault(&self, call: &Call) -> Option<GlError>
        ensures { result ≡ fault_of self.now call.now }
    {
        match self.finding(call) {
            Finding::Number(_) => None,
            Finding::Fault(fault) => fault,
        }
    }

    /// What is found of a call, at one look: the number of tracked state for which it asks (section 6.1), else its error.
    #[tactic(auto, unfolding(crate::specs::Fault::fault_of, crate::specs::Step::number_asked))]
    pub fn finding(&self, call: &Call) -> Finding
        ensures number { number_found result ≡ number_asked self.now call.now }
        ensures fault { fault_found result ≡ fault_of self.now call.now }
    {
        match call {
            Call::ActiveTexture { texture } => Finding::Fault(enum_unless(is_unit(*texture))),
            Call::AlphaFuncx { func, .. } => Finding::Fault(enum_unless(is_comparison(*func))),
            Call::BindBuffer { target, .. } => {
                Finding::Fault(enum_unless(is_buffer_target(*target)))
            }
            Call::BindTexture { target, .. } => Finding::Fault(enum_unless(*target == 0x0DE1)),
            Call::BlendFunc { sfactor, dfactor } => Finding::Fault(enum_unless(are_factors(
                *sfactor, *dfactor,
            ))),
            Call::BufferData {
                target,
                size,
                usage,
                ..
            } => { Finding::Fault(self.data_fault(*target, *size, *usage)) }
            Call::BufferSubData {
                target,
                offset,
                size,
                ..
            } => { Finding::Fault(self.part_fault(*target, *offset, *size)) }
            Call::Clear { mask } => Finding::Fault(value_unless(is_known_mask(*mask))),
            Call::ClientActiveTexture { texture } => Finding::Fault(enum_unless(is_unit(*texture))),
            Call::ColorPointer { .. }
            | Call::NormalPointer { .. }
            | Call::TexCoordPointer { .. }
            | Call::VertexPointer { .. } => Finding::Fault(array_fault(call)),
            Call::CullFace { mode } => Finding::Fault(enum_unless(is_face(*mode))),
            Call::DeleteBuffers { n, .. }
            | Call::DeleteTextures { n, .. }
            | Call::GenBuffers { n, .. }
            | Call::GenTextures { n, .. } => Finding::Fault(value_unless(is_name_count(*n))),
            Call::DepthFunc { func } => Finding::Fault(enum_unless(is_comparison(*func))),
            Call::Disable { cap } => Finding::Fault(enum_unless(is_capability(*cap))),
            Call::DisableClientState { array } => Finding::Fault(enum_unless(is_array_name(
                *array,
            ))),
            Call::DrawArrays { mode, first, count } => {
                Finding::Fault(draw_fault(*mode, *first, *count))
            }
            Call::DrawElements {
                mode,
                count,
                kind,
                ..
            } => { Finding::Fault(elements_fault(*mode, *count, *kind)) }
            Call::Enable { cap } => Finding::Fault(enum_unless(is_capability(*cap))),
            Call::EnableClientState { array } => Finding::Fault(enum_unless(is_array_name(*array))),
            Call::FrontFace { mode } => Finding::Fault(enum_unless(is_winding(*mode))),
            Call::Frustumx { .. } | Call::Orthox { .. } => Finding::Fault(sides_fault(call)),
            Call::GetFixedv { pname, .. } => Finding::Fault(enum_unless(is_fixed_name(*pname))),
            Call::GetIntegerv { pname, .. } => self.find_integer(*pname),
            Call::GetPointerv { pname, .. } => self.find_pointer(*pname),
            Call::IsEnabled { cap } => self.find_enabled(*cap),
            Call::MatrixMode { mode } => Finding::Fault(enum_unless(is_matrix_mode(*mode))),
            Call::MultiTexCoord4x { target, .. } => Finding::Fault(enum_unless(is_unit(*target))),
            Call::PixelStorei { pname, param } => Finding::Fault(alignment_fault(*pname, *param)),
            Call::PopMatrix => Finding::Fault(error_unless(
                self.depth() > 1,
                GlError::StackUnderflow,
            )),
            Call::PushMatrix => Finding::Fault(error_unless(
                self.depth() < self.most_depth(),
                GlError::StackOverflow,
            )),
            Call::ReadPixels {
                width,
                height,
                format,
                kind,
                ..
            } => Finding::Fault(pixels_fault(*width, *height, *format, *kind)),
            Call::Scissor { width, height, .. } => Finding::Fault(value_unless(is_extent(
                *width, *height,
            ))),
            Call::ShadeModel { mode } => Finding::Fault(enum_unless(is_shading(*mode))),
            Call::TexEnvi { .. }
            | Call::TexEnvxv { .. }
            | Call::TexImage2D { .. }
            | Call::TexParameteri { .. }
            | Call::TexSubImage2D { .. } => Finding::Fault(texture_fault(call)),
            Call::Viewport { width, height, .. } => Finding::Fault(value_unless(is_extent(
                *width, *height,
            ))),
            Call::ClearColorx { .. }
            | Call::ClearDepthx { .. }
            | Call::Color4x { .. }
            | Call::ColorMask { .. }
            | Call::DepthMask { .. }
            | Call::DepthRangex { .. }
            | Call::Finish
            | Call::Flush
            | Call::GetError
            | Call::IsBuffer { .. }
            | Call::IsTexture { .. }
            | Call::LoadIdentity
            | Call::LoadMatrixx { .. }
            | Call::MultMatrixx { .. }
            | Call::Normal3x { .. }
            | Call::Rotatex { .. }
            | Call::Scalex { .. }
            | Call::Translatex { .. } => Finding::Fault(None),
        }
    }

    /// The buffer that is bound to a target, ARRAY_BUFFER or else ELEMENT_ARRAY_BUFFER (section 2.9).
    #[tactic(auto, unfolding(crate::specs::Fault::bound_buffer))]
    pub fn bound_buffer(&self, target: u32) -> u32
        ensures { result ≡ bound_buffer self.now target }
    {
        if target == 0x8892 {
            self.array_buffer
        } else {
            self.element_buffer
        }
    }

    /// Whether a buffer is bound to a target (section 2.9).
    #[tactic(auto, unfolding(crate::specs::Fault::is_bound))]
    fn is_bound(&self, target: u32) -> bool
        ensures { result ≡ is_bound self.now target }
    {
        self.bound_buffer(target) != 0
    }

    /// The first error of BufferData (section 2.9, the greatest size own).
    #[tactic(auto, unfolding(crate::specs::Fault::data_fault, crate::specs::Fault::first_failed))]
    fn data_fault(&self, target: u32, size: i32, usage: u32) -> Option<GlError>
        ensures { result ≡ data_fault self.now target size usage }
    {
        if !is_buffer_target(target) || !is_usage(usage) {
            Some(GlError::InvalidEnum)
        } else if size < 0 {
            Some(GlError::InvalidValue)
        } else if self.is_bound(target) {
            error_unless(is_buffer_size(size), GlError::OutOfMemory)
        } else {
            Some(GlError::InvalidOperation)
        }
    }

    /// The first error of BufferSubData (section 2.9, the greatest size own).
    #[tactic(auto, unfolding(crate::specs::Fault::part_fault, crate::specs::Fault::first_failed))]
    fn part_fault(&self, target: u32, offset: i32, size: i32) -> Option<GlError>
        ensures { result ≡ part_fault self.now target offset size }
    {
        if !is_buffer_target(target) {
            Some(GlError::InvalidEnum)
        } else if !is_extent(offset, size) {
            Some(GlError::InvalidValue)
        } else if self.is_bound(target) {
            value_unless(is_buffer_size(size))
        } else {
            Some(GlError::InvalidOperation)
        }
    }

    /// The number of tracked state that GetIntegerv gives for a name, or the error where it doesn't take the name.
    fn find_integer(&self, name: u32) -> Finding
        ensures number { number_found result ≡ integer_asked self.now name }
        ensures fault { fault_found result
            ≡ (if is_some (integer_asked self.now name) || is_among other_integers name
            then None else Some GlError.InvalidEnum) }
    {
        match self.integer(name) {
            Some(number) => Finding::Number(number),
            None => Finding::Fault(enum_unless(is_other_integer(name))),
        }
    }

    /// The number of tracked state that GetPointerv gives for a name, or the error where it doesn't take the name.
    fn find_pointer(&self, name: u32) -> Finding
        ensures number { number_found result ≡ pointer_asked self.now name }
        ensures fault { fault_found result
            ≡ (if is_some (pointer_asked self.now name) then None else Some GlError.InvalidEnum) }
    {
        match self.pointer(name) {
            Some(number) => Finding::Number(number),
            None => Finding::Fault(Some(GlError::InvalidEnum)),
        }
    }

    /// The number of tracked state that IsEnabled gives for a name, or the error where it doesn't take the name.
    fn find_enabled(&self, name: u32) -> Finding
        ensures number { number_found result ≡ enabled_asked self.now name }
        ensures fault { fault_found result
            ≡ (if is_among capabilities name || is_among arrays name
            then None else Some GlError.InvalidEnum) }
    {
        match self.enabled(name) {
            Some(number) => Finding::Number(number),
            None => Finding::Fault(enum_unless(is_capability(name))),
        }
    }
}

/// An error, where a test isn't passed.
pub(crate) fn error_unless(passes: bool, error: GlError) -> Option<GlError>
    ensures { result ≡ (if passes then None else Some error) }
{
    if passes { None } else { Some(error) }
}

/// INVALID_ENUM, where a test isn't passed.
pub(crate) fn enum_unless(passes: bool) -> Option<GlError>
    ensures { result ≡ (if passes then None else Some GlError.InvalidEnum) }
{
    error_unless(passes, GlError::InvalidEnum)
}

/// INVALID_VALUE, where a test isn't passed.
pub(crate) fn value_unless(passes: bool) -> Option<GlError>
    ensures { result ≡ (if passes then None else Some GlError.InvalidValue) }
{
    error_unless(passes, GlError::InvalidValue)
}

/// The first error of a call that says where an array lies.
#[tactic(auto, unfolding(crate::specs::Fault::fault_of))]
fn array_fault(call: &Call) -> Option<GlError>
    requires { gives_pointer call.now ≡ true }
    ensures { (tracked : Tracked) → result ≡ fault_of tracked call.now }
{
    match call {
        Call::ColorPointer {
            size,
            kind,
            stride,
            ..
        } => pointer_fault(is_colour_size(*size), is_colour_type(*kind), *stride),
        Call::NormalPointer { kind, stride, .. } => pointer_fault(
            true,
            is_vertex_type(*kind),
            *stride,
        ),
        Call::TexCoordPointer {
            size,
            kind,
            stride,
            ..
        } => pointer_fault(is_array_size(*size), is_vertex_type(*kind), *stride),
        Call::VertexPointer {
            size,
            kind,
            stride,
            ..
        } => pointer_fault(is_array_size(*size), is_vertex_type(*kind), *stride),
        _ => None,
    }
}

/// The first error of a call with the sides of a box.
#[tactic(auto, unfolding(crate::specs::Fault::fault_of))]
fn sides_fault(call: &Call) -> Option<GlError>
    requires { has_sides call.now ≡ true }
    ensures { (tracked : Tracked) → result ≡ fault_of tracked call.now }
{
    match call {
        Call::Frustumx {
            left,
            right,
            bottom,
            top,
            near,
            far,
        } => value_unless(is_frustum(*left, *right, *bottom, *top, *near, *far)),
        Call::Orthox {
            left,
            right,
            bottom,
            top,
            near,
            far,
        } => value_unless(is_box(*left, *right, *bottom, *top, *near, *far)),
        _ => None,
    }
}

/// The first error of a call that says where an array lies: by its size, its type, and its stride (section 2.8).
#[tactic(auto, unfolding(crate::specs::Fault::pointer_fault, crate::specs::Fault::first_failed, crate::specs::Fault::is_stride))]
fn pointer_fault(knows_size: bool, knows_type: bool, stride: i32) -> Option<GlError>
    ensures { result ≡ pointer_fault knows_size knows_type stride }
{
    if !knows_size {
        Some(GlError::InvalidValue)
    } else if !knows_type {
        Some(GlError::InvalidEnum)
    } else {
        value_unless(0 <= stride)
    }
}

/// The first error of PixelStorei (sections 3.6.1 and 4.3.1).
#[tactic(auto, unfolding(crate::specs::Fault::first_failed))]
fn alignment_fault(name: u32, alignment: i32) -> Option<GlError>
    ensures { result ≡ first_failed (
        (is_among alignment_names name, GlError.InvalidEnum) ∷
        (size_is_among alignments alignment, GlError.InvalidValue) ∷ []) }
{
    if is_alignment_name(name) {
        value_unless(is_alignment(alignment))
    } else {
        Some(GlError::InvalidEnum)
    }
}

/// The first error of DrawArrays (sections 2.6.1 and 2.8).
#[tactic(auto, unfolding(crate::specs::Fault::first_failed))]
fn draw_fault(mode: u32, first: i32, count: i32) -> Option<GlError>
    ensures { result ≡ first_failed (
        (is_among modes mode, GlError.InvalidEnum) ∷
        (is_drawable first count, GlError.InvalidValue) ∷ []) }
{
    if is_mode(mode) {
        value_unless(is_drawable(first, count))
    } else {
        Some(GlError::InvalidEnum)
    }
}

/// The first error of DrawElements (sections 2.6.1 and 2.8).
#[tactic(auto, unfolding(crate::specs::Fault::first_failed))]
fn elements_fault(mode: u32, count: i32, kind: u32) -> Option<GlError>
    ensures { result ≡ first_failed (
        (is_among modes mode, GlError.InvalidEnum) ∷
        (is_among index_types kind, GlError.InvalidEnum) ∷
        (is_element_count count, GlError.InvalidValue) ∷ []) }
{
    if is_mode(mode) && is_index_type(kind) {
        value_unless(is_element_count(count))
    } else {
        Some(GlError::InvalidEnum)
    }
}

/// The first error of ReadPixels (section 4.3.1).
#[tactic(auto, unfolding(crate::specs::Fault::first_failed))]
fn pixels_fault(width: i32, height: i32, format: u32, kind: u32) -> Option<GlError>
    ensures { result ≡ first_failed (
        (format == 0x1908, GlError.InvalidEnum) ∷
        (kind == 0x1401, GlError.InvalidEnum) ∷
        (is_readable width height, GlError.InvalidValue) ∷ []) }
{
    if format != 0x1908 || kind != 0x1401 {
        Some(GlError::InvalidEnum)
    } else {
        value_unless(is_readable(width, height))
    }
}

/// Whether a number is TEXTURE0 or TEXTURE1.
#[tactic(auto, unfolding(crate::specs::Fault::is_among))]
fn is_unit(unit: u32) -> bool
    ensures { result ≡ is_among units unit }
{
    matches!(unit, 0x84C0 | 0x84C1)
}

/// Whether a number is VERTEX_ARRAY, NORMAL_ARRAY, COLOR_ARRAY or TEXTURE_COORD_ARRAY (section 2.8).
#[tactic(auto, unfolding(crate::specs::Fault::is_among))]
fn is_array_name(array: u32) -> bool
    ensures { result ≡ is_among arrays array }
{
    matches!(array, 0x8074 | 0x8075 | 0x8076 | 0x8078)
}

/// Whether a number is a capability.
#[tactic(auto, unfolding(crate::specs::Fault::is_among))]
fn is_capability(capability: u32) -> bool
    ensures { result ≡ is_among capabilities capability }
{
    matches!(
        capability,
        0x0B44 | 0x0B71 | 0x0BC0 | 0x0BD0 | 0x0BE2 | 0x0C11 | 0x0DE1
    )
}

/// Whether a number is BYTE, SHORT or FIXED (table 2.4).
#[tactic(auto, unfolding(crate::specs::Fault::is_among))]
fn is_vertex_type(kind: u32) -> bool
    ensures { result ≡ is_among vertex_types kind }
{
    matches!(kind, 0x1400 | 0x1402 | 0x140C)
}

/// Whether a number is UNSIGNED_BYTE or FIXED (table 2.4).
#[tactic(auto, unfolding(crate::specs::Fault::is_among))]
fn is_colour_type(kind: u32) -> bool
    ensures { result ≡ is_among colour_types kind }
{
    matches!(kind, 0x1401 | 0x140C)
}

/// Whether a colour may have so many numbers (table 2.4).
#[tactic(auto, unfolding(crate::specs::Fault::size_is_among))]
fn is_colour_size(size: i32) -> bool
    ensures { result ≡ size_is_among (pos 4 ∷ []) size }
{
    size == 4
}

/// Whether a vertex or a texture coordinate may have so many numbers (table 2.4).
#[tactic(auto, unfolding(crate::specs::Fault::size_is_among))]
fn is_array_size(size: i32) -> bool
    ensures { result ≡ size_is_among array_sizes size }
{
    matches!(size, 2..=4)
}

/// Whether a number is UNPACK_ALIGNMENT or PACK_ALIGNMENT (sections 3.6.1 and 4.3.1).
#[tactic(auto, unfolding(crate::specs::Fault::is_among))]
fn is_alignment_name(name: u32) -> bool
    ensures { result ≡ is_among alignment_names name }
{
    matches!(name, 0x0CF5 | 0x0D05)
}

/// Whether rows may begin at so many bytes (section 3.6.1).
#[tactic(auto, unfolding(crate::specs::Fault::size_is_among))]
fn is_alignment(alignment: i32) -> bool
    ensures { result ≡ size_is_among alignments alignment }
{
    matches!(alignment, 1 | 2 | 4 | 8)
}

/// Whether a number is a name of GetFixedv.
#[tactic(auto, unfolding(crate::specs::Fault::is_among))]
fn is_fixed_name(name: u32) -> bool
    ensures { result ≡ is_among fixed_names name }
{
    matches!(name, 0x0B00 | 0x0B73 | 0x0BA6 | 0x0BA7 | 0x0BA8 | 0x0C22)
}

/// Whether a number is a name of GetIntegerv that isn't one of tracked state.
#[tactic(auto, unfolding(crate::specs::Fault::is_among))]
fn is_other_integer(name: u32) -> bool
    ensures { result ≡ is_among other_integers name }
{
    matches!(
        name,
        0x0B45
            | 0x0B46
            | 0x0B54
            | 0x0B74
            | 0x0BA2
            | 0x0BC1
            | 0x0BE0
            | 0x0BE1
            | 0x0C10
            | 0x0D33
            | 0x8069
            | 0x84E2
    )
}

/// Whether a rectangle of pixels with these sides can be read (section 4.3.1, the most own).
#[tactic(auto, unfolding(crate::specs::Fault::is_readable))]
fn is_readable(width: i32, height: i32) -> bool
    ensures { result ≡ is_readable width height }
{
    is_extent(width, height) && width <= 512 && height <= 512
}

/// Whether a mask has no bits but those of depth, stencil and colour (section 4.2.3).
#[tactic(auto, unfolding(crate::specs::Fault::is_known_mask))]
fn is_known_mask(mask: u32) -> bool
    ensures { result ≡ is_known_mask mask }
{
    mask & 0x4500 == mask
}

/// Whether a number is MODELVIEW, PROJECTION or TEXTURE (section 2.10.2).
#[tactic(auto, unfolding(crate::specs::Stack::is_matrix_mode))]
fn is_matrix_mode(mode: u32) -> bool
    ensures { result ≡ is_matrix_mode mode }
{
    matches!(mode, 0x1700 | 0x1701 | 0x1702)
}

/// Whether two numbers are not the same.
#[tactic(auto, unfolding(crate::specs::Fault::differ))]
fn differ(a: i32, b: i32) -> bool
    ensures { result ≡ differ a b }
{
    a != b
}

/// Whether no two sides of a box that face each other are in one plane (section 2.10.2).
#[tactic(auto, unfolding(crate::specs::Fault::is_box))]
fn is_box(left: i32, right: i32, bottom: i32, top: i32, near: i32, far: i32) -> bool
    ensures { result ≡ is_box left right bottom top near far }
{
    differ(left, right) && differ(bottom, top) && differ(near, far)
}

/// Whether both planes of a frustum are before the eye, and its sides are those of a box (section 2.10.2).
#[tactic(auto, unfolding(crate::specs::Fault::is_frustum))]
fn is_frustum(left: i32, right: i32, bottom: i32, top: i32, near: i32, far: i32) -> bool
    ensures { result ≡ is_frustum left right bottom top near far }
{
    0 < near && 0 < far && is_box(left, right, bottom, top, near, far)
}

/// Whether neither of two numbers is below zero, as the sides of a viewport or a scissor (sections 2.9, 2.10.1 and 4.1.2).
#[tactic(auto, unfolding(crate::specs::Fault::is_extent))]
pub(crate) fn is_extent(width: i32, height: i32) -> bool
    ensures { result ≡ is_extent width height }
{
    0 <= width && 0 <= height
}

/// Whether so many elements from a first one on can be drawn (section 2.8, the most own).
#[tactic(auto, unfolding(crate::specs::Fault::is_drawable))]
fn is_drawable(first: i32, count: i32) -> bool
    ensures { result ≡ is_drawable first count }
{
    0 <= first && 0 <= count && count <= 65536
}

/// Whether indices may name so many elements (section 2.8, the most own).
#[tactic(auto, unfolding(crate::specs::Fault::is_element_count))]
fn is_element_count(count: i32) -> bool
    ensures { result ≡ is_element_count count }
{
    0 <= count && count <= 65536
}

/// Whether one call may give or delete so many names (sections 2.9 and 3.7.11, the most own).
#[tactic(auto, unfolding(crate::specs::Fault::is_name_count))]
fn is_name_count(count: i32) -> bool
    ensures { result ≡ is_name_count count }
{
    0 <= count && count <= 256
}

/// Whether a buffer may have so many bytes (own).
#[tactic(auto, unfolding(crate::specs::Fault::is_buffer_size))]
fn is_buffer_size(size: i32) -> bool
    ensures { result ≡ is_buffer_size size }
{
    size <= 67_108_864
}
