//! Where an element of an array lies, in bytes. No byte is read here.

ghost use Rattle.std.specs.Prelude.{◌≡◌, ◌≤◌, ◌<◌, ◌^◌};
ghost use Rattle.gl_tracked.specs.Element.{element_at, element_bytes, number_bytes, number_count, step_over};
ghost use Rattle.gl_tracked.specs.Tracked.{IsArray};

use crate::tracked::ArrayState;
use gl_memory::Piece;

impl ArrayState {
    /// The piece of memory in which the element at a place lies, counted from 0 (section 2.8).
    #[tactic(auto, unfolding(crate::specs::Element::element_at))]
    pub fn element(&self, place: u32) -> Piece
        requires array { IsArray self.now }
        ensures { result ≡ element_at self.now place }
    {
        let len = self.element_bytes();
        let step = step_over(self.stride, len);
        Piece {
            start: u64::from(self.pointer) + u64::from(place) * u64::from(step),
            len: u64::from(len),
        }
    }

    /// How many bytes an element has (section 2.8).
    #[tactic(auto, unfolding(crate::specs::Element::element_bytes))]
    fn element_bytes(&self) -> u32
        requires array { IsArray self.now }
        ensures bytes { result ≡ element_bytes self.now }
        ensures few { result ≤ 16 }
    {
        number_count(self.size) * number_bytes(self.kind)
    }
}

/// How many numbers an element has (section 2.8).
fn number_count(size: i32) -> u32
    ensures { result ≡ number_count size }
{
    if size > 0 { size as u32 } else { 0 }
}

/// How many bytes a number of a type has (table 2.4).
#[tactic(auto, unfolding(crate::specs::Element::number_bytes))]
fn number_bytes(kind: u32) -> u32
    ensures bytes { result ≡ number_bytes kind }
    ensures few { result ≤ 4 }
{
    match kind {
        0x1400 | 0x1401 => 1,
        0x1402 => 2,
        0x140C => 4,
        _ => 0,
    }
}

/// From one element to the next, in bytes (section 2.8).
fn step_over(stride: i32, bytes: u32) -> u32
    ensures { result ≡ step_over stride bytes }
{
    if stride > 0 { stride as u32 } else { bytes }
}
