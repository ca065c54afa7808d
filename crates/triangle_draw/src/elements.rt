//! Which elements of the arrays a draw takes, in their order.

ghost use Rattle.std.specs.Prelude.{◌≡◌, ◌<◌, ◌+◌, ◌^◌};
ghost use Rattle.triangle_draw.specs.Elements.{AreElements, place_in};

use gl_tracked::index_numbered;
use vertex_stage::{Memories, Numbered};

/// Which elements of the arrays a draw takes (section 2.8).
#[derive(Clone, Copy, Debug, PartialEq, Eq)]
pub enum Elements {
    /// Consecutive ones from this place on, which is below 2^31.
    From(u32),
    /// Those that indices name, of the type `kind`, which lie from `place` on, in bytes, in the memory with the number `buffer`: in
    /// client memory for 0, else in a buffer (section 2.9).
    Indexed { buffer: u32, kind: u32, place: u32 },
}

impl Elements {
    /// The place in the arrays of the vertex with a number, from 0.
    pub(crate) fn place<S: Memories>(&self, memories: &S, number: u32) -> u32
        requires elements { AreElements self.now }
        requires number { number < 2 ^ 16 }
        ensures place { result ≡ place_in self.now (S.each memories.now) number }
        ensures near { result < 2 ^ 31 + 2 ^ 16 }
    {
        match self {
            Elements::From(first) => *first + number,
            Elements::Indexed {
                buffer,
                kind,
                place,
            } => index_numbered(&Numbered::new(memories, *buffer), *kind, *place, number),
        }
    }
}
