//! The errors that a call may record, with their numbers. Which call records which isn't told here.

ghost use Rattle.std.specs.Prelude.{◌≡◌};
ghost use Rattle.gl_words.specs.GlError.{code_of};

/// An error of OpenGL ES 1.1.12 (section 2.5), without the prefix `GL_`.
#[derive(Clone, Copy, Debug, PartialEq, Eq)]
pub enum GlError {
    InvalidEnum,
    InvalidValue,
    InvalidOperation,
    StackOverflow,
    StackUnderflow,
    OutOfMemory,
}

impl GlError {
    /// Its number: 0x0500 to 0x0505 (section 2.5).
    pub fn code(self) -> u32
        ensures { result ≡ code_of self }
    {
        match self {
            GlError::InvalidEnum => 0x0500,
            GlError::InvalidValue => 0x0501,
            GlError::InvalidOperation => 0x0502,
            GlError::StackOverflow => 0x0503,
            GlError::StackUnderflow => 0x0504,
            GlError::OutOfMemory => 0x0505,
        }
    }
}
