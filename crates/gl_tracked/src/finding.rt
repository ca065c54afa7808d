//! What is found of a call, at one look.

use gl_words::GlError;

/// What is found of a call by tracked state: the number for which it asks, beside which there is no error (section 6.1), or,
/// where it asks for none, its first error, if it has one (section 2.5).
#[derive(Clone, Copy, Debug, PartialEq, Eq)]
pub enum Finding {
    Number(i64),
    Fault(Option<GlError>),
}
