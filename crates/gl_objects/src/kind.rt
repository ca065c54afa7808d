//! The kinds of objects.

/// What an object is. Each kind has names of its own.
#[derive(Clone, Copy, Debug, PartialEq, Eq)]
pub enum Kind {
    /// A buffer object (section 2.9).
    Buffer,
    /// A texture object (section 3.7.11).
    Texture,
}
