//! What a script says. How it is spelled is in `line.rt` and `body.rt`.

use crate::contexts::Contexts;
use crate::lines::Lines;
use crate::name::Name;
use gl_memory::Octets;
use gl_words::Call;

/// A script: its contexts, and the lines that are carried out, in order; own.
#[derive(Drop)]
pub struct Script {
    pub contexts: Contexts,
    pub lines: Lines,
}

/// A context: the sides of its frame in pixels, 1 to 256, and its client memory in bytes, at most
/// 1,048,576; own.
#[derive(Clone, Copy, Debug, PartialEq, Eq)]
pub struct ContextSpec {
    pub width: u32,
    pub height: u32,
    pub memory: u32,
}

/// A line that is carried out: its number in the script, from 1, and its context, from 0; own.
#[derive(Drop)]
pub struct Line {
    pub number: u32,
    pub context: u32,
    pub act: Act,
}

/// What a line does; own. A place in client memory is in bytes, 0 to 4,294,967,295.
#[derive(Drop)]
pub enum Act {
    /// Writes bytes, of which there is one at least, into client memory from a place on. Their room is for just so many.
    Mem {
        at: u32,
        bytes: Octets,
    },
    /// Takes an image out of client memory from a place on: its sides in pixels, 1 to 256.
    Image {
        name: Name,
        width: u32,
        height: u32,
        at: u32,
    },
    /// Calls OpenGL ES.
    Gl(Call),
}
