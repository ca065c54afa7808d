//! A place of the frame.

/// A column and a row, in pixels from the lower left corner, 0 to 255 inside a frame; own.
#[derive(Clone, Copy)]
pub struct Place {
    /// In pixels from the left side; own.
    pub column: u32,
    /// In pixels from the lower side; own.
    pub row: u32,
}
