//! What an object holds, by how many bytes it is.

ghost use Rattle.std.specs.Prelude.{◌≡◌, ℕ};
ghost use Rattle.gl_objects.specs.Table.{size_in};

use crate::named::Named;

/// What an object holds.
pub trait Held: Drop {
    ghost size: { Self → ℕ };

    /// How many bytes it holds.
    fn size(&self) -> u64
        ensures { result ≡ size self.now };
}

/// How many bytes a name in use holds: none where it is no object.
pub fn size_of_named<T: Held>(what: &Named<T>) -> u64
    ensures { result ≡ size_in T.size what.now }
{
    match what {
        Named::Generated => 0,
        Named::Object(held) => held.size(),
    }
}
