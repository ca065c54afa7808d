//! What a reader gives.

use crate::segments::Segments;
use gl_words::Call;

/// A call read from slots, and the segments of client memory that were captured for it, lent from these slots.
#[derive(Drop)]
pub struct Packed<'a> {
    pub call: Call,
    pub memory: Segments<'a>,
}
