//! The errors by their numbers.

ghost use Rattle.std.specs.Prelude.{◌≡◌};
ghost use Rattle.script_trace.specs.Errors.{error_numbered};

use gl_words::GlError;

/// The error with a number, if one has it (section 2.5).
#[tactic(auto, unfolding(crate::specs::Errors::error_numbered))]
pub(crate) fn error_numbered(number: &i64) -> Option<GlError>
    ensures { result ≡ error_numbered number.now }
{
    match *number {
        0x0500 => Some(GlError::InvalidEnum),
        0x0501 => Some(GlError::InvalidValue),
        0x0502 => Some(GlError::InvalidOperation),
        0x0503 => Some(GlError::StackOverflow),
        0x0504 => Some(GlError::StackUnderflow),
        0x0505 => Some(GlError::OutOfMemory),
        _ => None,
    }
}
