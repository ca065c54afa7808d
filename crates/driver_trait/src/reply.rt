//! What a call answers.

use gl_memory::{Numbers, Octets};

/// What a call answers: nothing, one number from -2^63 to 2^63 - 1, a list of them, or bytes; own.
#[derive(Drop)]
pub enum Reply {
    Nothing,
    One(i64),
    Numbers(Numbers),
    Bytes(Octets),
}
