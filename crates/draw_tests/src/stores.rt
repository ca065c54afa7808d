//! Client memory, and the bytes of a buffer.

ghost use Rattle.std.specs.Prelude.{◌≤◌, ◌==◌, if◌then◌else◌, []};
ghost use Rattle.gl_memory.specs.ClientMemory.{memory_of};
ghost use Rattle.vertex_stage.specs.Number.{memories_with};

use gl_memory::{ClientMemory, Memory};
use std::alloc::{AllocError, Global};
use vertex_stage::Memories;

/// The name of the one buffer.
pub(crate) const BUFFER: u32 = 7;

/// Client memory, and the bytes of the one buffer.
#[derive(Drop)]
pub(crate) struct Stores {
    pub client: ClientMemory,
    pub buffer: ClientMemory,
}

impl Memories for Stores {
    ghost each = { λ s. memories_with (memory_of s.client) (λ name. if name == 7 then memory_of s.buffer else []) };

    #[tactic(auto, unfolding(gl_memory::specs::Segment::byte_at))]
    fn byte(&self, buffer: u32, at: u64) -> u8 {
        if buffer == 0 {
            self.client.byte(at)
        } else if buffer == BUFFER {
            self.buffer.byte(at)
        } else {
            0
        }
    }
}

/// Memory of so many bytes, with these from a place on.
pub(crate) fn bytes_at(
    alloc: Global,
    len: u32,
    place: u32,
    bytes: &[u8],
) -> Result<ClientMemory, AllocError>
    requires size { len ≤ 1048576 }
{
    let mut memory = ClientMemory::new(alloc, len)?;
    memory.write(u64::from(place), bytes);
    Ok(memory)
}

/// Client memory of so many bytes, with these from a place on, and a buffer without bytes.
pub(crate) fn client_alone(
    alloc: Global,
    len: u32,
    place: u32,
    bytes: &[u8],
) -> Result<Stores, AllocError>
    requires size { len ≤ 1048576 }
{
    Ok(Stores {
        client: bytes_at(alloc, len, place, bytes)?,
        buffer: ClientMemory::new(alloc, 0)?,
    })
}
