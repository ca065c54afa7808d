//! What one line says, and what the lines before it have said.

use crate::script::ContextSpec;
use crate::told::Told;

/// What a line without fault says.
#[derive(Drop)]
pub(crate) enum Said<'a> {
    /// Nothing: it has no words, or is a comment.
    Nothing,
    Header,
    Context(ContextSpec),
    Body(Told<'a>),
    End,
}

/// What the tests of a line ask of the lines before it.
#[derive(Clone, Copy)]
pub(crate) struct Before {
    /// How many there are: at most 262,144.
    pub(crate) lines: u32,
    /// How many of them are `context` lines.
    pub(crate) contexts: u32,
    /// How many bytes the images so far take: at most 67,108,864.
    pub(crate) image_bytes: u32,
    /// How many bytes of uploads the calls so far declare: at most 268,435,456.
    pub(crate) upload_bytes: u32,
    /// The header came.
    pub(crate) begun: bool,
    /// A body line came.
    pub(crate) bodied: bool,
    /// `end` came.
    pub(crate) ended: bool,
}
