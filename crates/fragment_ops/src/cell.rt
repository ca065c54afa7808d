//! A cell of the frame.

/// What the frame holds at a place: red, green, blue and alpha, a byte each, and a depth of 16 bits, 0 the near plane and
/// 65535 the far one (chapter 4).
#[derive(Clone, Copy, Debug, PartialEq, Eq)]
pub struct Cell {
    /// Red, green, blue and alpha, 0 to 255 (chapter 4).
    pub colour: [u8; 4],
    /// 0 the near plane, 65535 the far one (chapter 4).
    pub depth: u16,
}
