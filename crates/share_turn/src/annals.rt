//! What a value under a turn is to it: a list of entries, each with the number of a seat.
//! What an entry says is the value's own business.
ghost use Rattle.std.specs.Prelude.{ℕ, List};

/// A value with entries. A turn moves the value, and never looks into it.
pub trait Annals: Drop {
    /// One entry.
    type Entry;

    // The oldest first.
    ghost entries: { Self → List Self.Entry };

    // The number of the seat that made the entry.
    ghost number: { Self.Entry → ℕ };
}
