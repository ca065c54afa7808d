//! The memories in which arrays and indices lie: client memory, and buffers by their names. Nothing is written through them.

ghost use Rattle.std.specs.Prelude.{◌≡◌, ℕ, List};
ghost use Rattle.gl_memory.specs.Segment.{Segment, byte_at};

use gl_memory::Memory;

/// Client memory, and the bytes of buffers (section 2.9). Contracts see a memory for each number of a buffer, and for 0, which is
/// that of no buffer, client memory.
pub trait Memories {
    /// The memory with a number.
    ghost each: { Self → ℕ → List Segment };

    /// The byte at a place of the memory with a number, and 0 where it holds none.
    fn byte(&self, buffer: u32, at: u64) -> u8
        ensures { result ≡ byte_at (each self.now buffer) at };
}

/// One of several memories by itself; own.
#[derive(Drop)]
pub struct Numbered<'a, S: Memories> {
    memories: &'a S,
    buffer: u32,
}

impl<'a, S: Memories> Numbered<'a, S> {
    /// The memory with a number: client memory for 0, else that of a buffer (section 2.9).
    pub fn new(memories: &'a S, buffer: u32) -> Numbered<'a, S>
        ensures { S.each result.memories.now result.buffer ≡ S.each memories.now buffer }
    {
        Numbered { memories, buffer }
    }
}

impl<'a, S: Memories> Memory for Numbered<'a, S> {
    ghost segments = { λ n. S.each n.memories.now n.buffer };

    fn byte(&self, at: u64) -> u8 {
        self.memories.byte(self.buffer, at)
    }
}
