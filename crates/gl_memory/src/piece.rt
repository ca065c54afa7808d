//! A piece of client memory: from where on, and how many bytes.

/// The `len` bytes of client memory from the place `start` on; own, for the arrays of section 2.8.
#[derive(Clone, Copy, Debug, Default, PartialEq, Eq)]
pub struct Piece {
    pub start: u64,
    pub len: u64,
}
