//! The memories that a draw reads: client memory, and the stores of buffers.

ghost use Rattle.std.specs.Prelude.{◌≡◌};
ghost use Rattle.soft_driver.specs.Own.{memories_of};

use gl_memory::Memory;
use gl_objects::Objects;
use vertex_stage::Memories;

/// Client memory for 0, and else the store of the buffer of that name: zeros past its end, and where there is none (sections 2.8
/// and 2.9, the zeros own).
#[derive(Drop)]
pub(crate) struct Stored<'a, M: Memory> {
    pub memory: &'a M,
    pub objects: &'a Objects,
}

impl<'a, M: Memory> Memories for Stored<'a, M> {
    ghost each = { λ s. memories_of s.objects.now (M.segments s.memory.now) };

    fn byte(&self, buffer: u32, at: u64) -> u8 {
        if buffer == 0 {
            self.memory.byte(at)
        } else {
            self.objects.buffer_byte(buffer, at)
        }
    }
}
