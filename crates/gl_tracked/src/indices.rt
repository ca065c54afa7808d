//! Indices, which name the elements of a draw, and which of client memory a draw by indices reads.

ghost use Rattle.std.specs.Prelude.{◌≡◌, ◌≤◌, ◌<◌, ◌^◌, ◌-◌};
ghost use Rattle.std.specs.List.{list_any};
ghost use Rattle.gl_tracked.specs.Count.{count_drawn, count_of};
ghost use Rattle.gl_tracked.specs.Indices.{index_at, index_bytes, index_numbered};
ghost use Rattle.gl_tracked.specs.Ranges.{elements_read_all, is_client, reads_client, takes_indices};
ghost use Rattle.gl_tracked.specs.Step.{reads_all};

use crate::tracked::{ArrayState, Tracked};
use gl_memory::{Memory, read_u16};
use gl_words::Call;

/// How many bytes an index of a type has: one of UNSIGNED_BYTE, two of UNSIGNED_SHORT, none of another type (section 2.8).
#[tactic(auto, unfolding(crate::specs::Indices::index_bytes))]
pub fn index_bytes(kind: u32) -> u64
    ensures bytes { result ≡ index_bytes kind }
    ensures few { result ≤ 2 }
{
    match kind {
        0x1401 => 1,
        0x1403 => 2,
        _ => 0,
    }
}

/// The index of a type at a place of memory, the lowest byte first (section 2.8).
#[tactic(auto, unfolding(crate::specs::Indices::index_at))]
fn index_at<M: Memory>(memory: &M, kind: u32, place: u64) -> u32
    requires place { place < 2 ^ 63 - 4 }
    ensures index { result ≡ index_at (M.segments memory.now) kind place }
    ensures few { result < 2 ^ 16 }
{
    match kind {
        0x1401 => u32::from(memory.byte(place)),
        0x1403 => u32::from(read_u16(memory, place)),
        _ => 0,
    }
}

/// The index with a number, from 0, of those of a type that lie from a place of memory on, in bytes (section 2.8).
#[tactic(auto, unfolding(crate::specs::Indices::index_numbered))]
pub fn index_numbered<M: Memory>(memory: &M, kind: u32, place: u32, number: u32) -> u32
    ensures index { result ≡ index_numbered (M.segments memory.now) kind place number }
    ensures few { result < 2 ^ 16 }
{
    index_at(
        memory,
        kind,
        u64::from(place) + u64::from(number) * index_bytes(kind),
    )
}

/// How many elements a draw of so many draws: none where that is an error (section 2.8, the most own).
#[tactic(auto, unfolding(crate::specs::Count::count_drawn))]
pub fn count_drawn(count: i32) -> u32
    ensures count { result ≡ count_drawn count }
    ensures few { result ≤ 65536 }
{
    if 0 <= count && count <= 65536 {
        count as u32
    } else {
        0
    }
}

/// A number that isn't below zero, and 0 for all others (own).
pub fn count_of(count: i32) -> u32
    ensures count { result ≡ count_of count }
    ensures few { result < 2 ^ 31 }
{
    if count < 0 { 0 } else { count as u32 }
}

impl Tracked {
    /// Whether a call without an error may read any place of memory (section 2.9).
    #[tactic(auto, unfolding(crate::specs::Step::reads_all))]
    pub fn reads_all(&self, call: &Call) -> bool
        ensures { result ≡ reads_all self.now call.now }
    {
        match call {
            Call::DrawElements { count, .. } => self.elements_read_all(*count),
            _ => false,
        }
    }

    /// Whether DrawElements may read any place of client memory (sections 2.8 and 2.9).
    #[tactic(auto, unfolding(crate::specs::Ranges::elements_read_all))]
    fn elements_read_all(&self, count: i32) -> bool
        ensures { result ≡ elements_read_all self.now count }
    {
        0 < count_drawn(count) && self.element_buffer != 0 && self.reads_client()
    }

    /// Whether a draw reads an array from client memory (sections 2.8 and 2.9, the array of vertices own).
    #[tactic(auto, unfolding(crate::specs::Ranges::reads_client, crate::specs::Ranges::is_client, crate::specs::Element::arrays_in_order))]
    fn reads_client(&self) -> bool
        ensures { result ≡ reads_client self.now }
    {
        self.vertex.enabled
            && (self.vertex.is_client()
                || self.normal.is_client()
                || self.colour.is_client()
                || any_client(&self.texture))
    }

    /// Whether a draw by indices takes them from client memory (section 2.9).
    #[tactic(auto, unfolding(crate::specs::Ranges::takes_indices))]
    pub fn takes_indices(&self) -> bool
        ensures { result ≡ takes_indices self.now }
    {
        self.vertex.enabled && self.element_buffer == 0
    }
}

impl ArrayState {
    /// Whether draws read the array from client memory: it is enabled, and in no buffer (sections 2.8 and 2.9).
    #[tactic(auto, unfolding(crate::specs::Ranges::is_client))]
    pub fn is_client(&self) -> bool
        ensures { result ≡ is_client self.now }
    {
        self.enabled && self.buffer == 0
    }
}

/// Whether draws read one of some arrays from client memory.
fn any_client(arrays: &[ArrayState]) -> bool
    ensures { result ≡ list_any is_client arrays.now }
{
    arrays.iter().any(|array| array.is_client())
}
