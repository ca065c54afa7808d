//! What the table of a turn is told, and what its seats know.
//! No value of these types is made, but for the first.
use std::collections::LinkedList;
use std::snapshot::Snapshot;

/// What the table is told once: how many seats there are, and the value as it was opened.
#[derive(Drop)]
pub struct Opening<T> {
    pub seats: u32,
    pub value: Snapshot<T>,
}

/// A number, the entries that its seat made, and the history that this seat has seen.
pub struct Part<E> {
    pub number: u32,
    pub mine: LinkedList<E>,
    pub seen: LinkedList<E>,
}

/// What a seat knows.
pub struct View<E> {
    /// False once another seat took it in.
    pub active: bool,
    /// The value is out with this seat.
    pub holding: bool,
    pub own: Part<E>,
    /// The parts that are not dealt yet, or of the seats that it took in.
    pub kept: LinkedList<Part<E>>,
    /// The number of seats that the turn was made for.
    pub seats: u32,
    /// How many of its tries met a value that was out.
    pub looks: u64,
    /// The word that the last of them met.
    pub found: u64,
    /// Which of the turn's takes was its own last, counted from 1; 0 before its first.
    pub last_take: u64,
    /// Which take was under way when the last of its tries failed; 0 before that.
    pub met_take: u64,
}
