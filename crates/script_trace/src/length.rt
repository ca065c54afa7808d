//! How many slots the spelling of a call has. A look tells it only of a call that is put off.

ghost use Rattle.std.specs.Prelude.{◌≡◌};
ghost use Rattle.gl_memory.specs.ClientMemory.{memory_of};
ghost use Rattle.gl_tracked.specs.Fault.{fault_of};
ghost use Rattle.gl_tracked.specs.Tracked.{IsSound};
ghost use Rattle.batch_pack.specs.Spelling.{slots_of};
ghost use Rattle.client_shadow.specs.Class.{captured_for, pieces_of, pieces_without_fault};

use array_capture::{
    pieces_of_bytes, pieces_of_colour, pieces_of_data, pieces_of_draw, pieces_of_elements,
    pieces_of_image, pieces_of_matrix, pieces_of_names, pieces_of_subimage,
};
use batch_pack::heading_of;
use gl_memory::{ClientMemory, Pieces};
use gl_tracked::Tracked;
use gl_words::{Call, GlError, row_of};

/// How many slots the spelling of a call has, given its error, with the pieces of client memory that are captured for it.
#[tactic(auto, unfolding(client_shadow::specs::Class::captured_for))]
pub(crate) fn slots_of(
    tracked: &Tracked,
    call: &Call,
    memory: &ClientMemory,
    fault: Option<GlError>,
) -> u64
    requires sound { IsSound tracked.now }
    requires fault { fault ≡ fault_of tracked.now call.now }
    ensures { result ≡ slots_of (captured_for tracked.now call.now (memory_of memory.now)) }
{
    let pieces = pieces_of(tracked, call, memory, fault);
    heading_of(row_of(call), &pieces).slots
}

/// The pieces of client memory that are captured for a call, given its error: none where it has one (section 2.5).
#[tactic(auto, unfolding(client_shadow::specs::Class::pieces_of))]
fn pieces_of(
    tracked: &Tracked,
    call: &Call,
    memory: &ClientMemory,
    fault: Option<GlError>,
) -> Pieces
    requires sound { IsSound tracked.now }
    requires fault { fault ≡ fault_of tracked.now call.now }
    ensures { result ≡ pieces_of tracked.now call.now (memory_of memory.now) }
{
    match fault {
        Some(_) => Pieces::new(),
        None => pieces_without_fault(tracked, call, memory),
    }
}

/// The pieces of client memory for a call without an error (sections 2.8, 2.9, 2.10.2, 3.7.1, 3.7.2, 3.7.11 and 3.7.12).
#[tactic(auto, unfolding(client_shadow::specs::Class::pieces_without_fault))]
fn pieces_without_fault(tracked: &Tracked, call: &Call, memory: &ClientMemory) -> Pieces
    requires sound { IsSound tracked.now }
    ensures { result ≡ pieces_without_fault tracked.now call.now (memory_of memory.now) }
{
    match call {
        Call::BufferData { size, source, .. } => pieces_of_data(*source, *size, memory),
        Call::BufferSubData { size, source, .. } => pieces_of_bytes(*source, *size, memory),
        Call::DeleteBuffers { n, names } | Call::DeleteTextures { n, names } => {
            pieces_of_names(*names, *n, memory)
        }
        Call::DrawArrays { first, count, .. } => pieces_of_draw(tracked, *first, *count, memory),
        Call::DrawElements {
            count,
            kind,
            indices,
            ..
        } => pieces_of_elements(tracked, *count, *kind, *indices, memory),
        Call::LoadMatrixx { matrix } | Call::MultMatrixx { matrix } => {
            pieces_of_matrix(*matrix, memory)
        }
        Call::TexEnvxv { params, .. } => pieces_of_colour(*params, memory),
        Call::TexImage2D {
            width,
            height,
            format,
            pixels,
            ..
        } => pieces_of_image(tracked, *format, *width, *height, *pixels, memory),
        Call::TexSubImage2D {
            width,
            height,
            format,
            pixels,
            ..
        } => pieces_of_subimage(tracked, *format, *width, *height, *pixels, memory),
        _ => Pieces::new(),
    }
}
