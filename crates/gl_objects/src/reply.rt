//! What an event replies.

ghost use Rattle.std.specs.Prelude.{◌≡◌, []};

use crate::lists::Names;
use gl_words::GlError;
use std::alloc::Global;

/// What an event replies; own.
#[derive(Drop)]
pub struct EventReply {
    /// The error of an event that changed nothing for it.
    pub fault: Option<GlError>,
    /// The names that were given.
    pub names: Names,
    /// Whether the name that was asked for is that of an object.
    pub truth: bool,
}

/// A reply without names.
pub fn told(alloc: Global, fault: Option<GlError>, truth: bool) -> EventReply
    ensures { result ≡ record { fault = fault; names = []; truth = truth } }
{
    EventReply {
        fault,
        names: Names::none(alloc),
        truth,
    }
}
