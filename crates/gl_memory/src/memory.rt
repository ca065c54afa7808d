//! What bytes are read from. Nothing is written through it.

ghost use Rattle.std.specs.Prelude.{◌≡◌, List};
ghost use Rattle.gl_memory.specs.Segment.{Segment, byte_at};

/// Memory with a byte at each place; own. Contracts see it as a list of segments.
pub trait Memory {
    /// The segments, of which the first that holds a place has its byte.
    ghost segments: { Self → List Segment };

    /// The byte at a place, and 0 where no segment holds it.
    fn byte(&self, at: u64) -> u8
        ensures { result ≡ byte_at (segments self.now) at };
}
