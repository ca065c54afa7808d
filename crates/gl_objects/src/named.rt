//! What a name in use stands for.

/// What a name in use stands for; own.
#[derive(Drop)]
pub enum Named<T> {
    /// It was given, and not bound since: it is no object yet.
    Generated,
    /// An object, with what it holds.
    Object(T),
}
