//! The names of the files that images are put under.

ghost use Rattle.std.specs.Prelude.{◌≡◌, string_bytes, IfOk};
ghost use Rattle.replay_text.specs.Ppm.{frame_name, image_name};

use script_reader::Name;
use std::alloc::{AllocError as NoMemory, Global};
use std::str::from_utf8;

/// The name of the frame of a context, or NoMemory; own.
#[tactic(auto, unfolding(crate::specs::Ppm::frame_name))]
pub fn frame_name(alloc: Global, context: u32) -> Result<String, NoMemory>
    ensures { IfOk result (λ text. string_bytes text ≡ frame_name context) }
{
    format!(in alloc; "frame-{context}.ppm")
}

/// The name of an image that a line of the script names so, or NoMemory; own.
#[tactic(auto, unfolding(crate::specs::Ppm::image_name))]
pub fn image_name(alloc: Global, name: &Name) -> Result<String, NoMemory>
    ensures { IfOk result (λ text. string_bytes text ≡ image_name name.now) }
{
    let name = text_of(name);
    format!(in alloc; "image-{name}.ppm")
}

/// A name as text: its bytes are letters, digits, `-` and `_`.
fn text_of(name: &Name) -> &str
    ensures { result.now ≡ name.now }
{
    match from_utf8(name.as_bytes()) {
        Ok(text) => text,
        Err(_) => "",
    }
}
