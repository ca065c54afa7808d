//! A call as the direct machine meets it, with what the layer does of it. How it is printed is told in `entry_text.rt`.

use crate::fate::{BatchEnd, Fate};
use gl_words::{Call, GlError};
use replay_lines::Printed;

/// The error of a call. It is recorded, unless another was recorded before it, which stays (section 2.5).
#[derive(Clone, Copy, Debug, PartialEq, Eq)]
pub struct Recorded {
    pub error: GlError,
    pub before: Option<GlError>,
}

/// A call as the direct machine meets it; own.
#[derive(Drop)]
pub struct Entry {
    /// The script line, from 1.
    pub line: u32,
    /// The context, from 0.
    pub context: u32,
    pub call: Call,
    /// The numbers that a report prints of its reply: of ReadPixels the count of its bytes.
    pub reply: Printed,
    pub error: Option<Recorded>,
    /// The batch that ended before it: it doesn't fit behind its calls, or waits for them.
    pub ended: Option<BatchEnd>,
    pub fate: Fate,
    /// The batch that ended with it.
    pub sent: Option<BatchEnd>,
}
