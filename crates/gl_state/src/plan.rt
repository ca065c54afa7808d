//! How a call is carried out, as the private state and the call show it.

use gl_words::GlError;

/// What a call needs beyond the private state; own.
#[derive(Clone, Copy, Debug, PartialEq, Eq)]
pub enum Plan {
    /// Nothing: it has this error, and only records it (section 2.5).
    Fault(GlError),
    /// Nothing: it is answered with this number of tracked state, and sets nothing (section 6.1).
    Known(i64),
    /// Nothing: it is answered from the rest of the private state, and sets no more than the
    /// recorded error (sections 2.5 and 6.1).
    Query,
    /// The pixels of the frame: it is answered with them, and sets nothing (section 4.3.1).
    Read,
    /// The objects that contexts share: it may make an event of them, sets private state, and may be answered with what
    /// they give back (sections 2.9, 3.7.11 and 6.1).
    Ask,
    /// The pixels of the frame, and the objects that a draw uses: it changes the pixels, sets nothing else, and isn't
    /// answered (sections 2.8 and 4.2.3).
    Draw,
    /// Nothing: it sets private state, or does nothing, and isn't answered (chapters 2 to 5).
    Local,
}
