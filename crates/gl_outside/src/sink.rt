// What is written to. What it holds can't be taken back.
ghost use Rattle.std.specs.Prelude.{◌≡◌, ℕ, ◌≤◌, ◌<◌, ◌^◌, List, Option, length, take, IfOk, OnOk, OnErr, IsErrOf};
ghost use Rattle.gl_outside.specs.Faults.{Rose};
ghost use Rattle.gl_outside.specs.Moved.{Adds};

use crate::OutError;

/// A writer of bytes.
pub trait Sink: Drop {
    /// The bytes that it holds, where the object tells them.
    ghost held: { Self → Option (List ℕ) };

    /// How often it failed, at most 2^64 - 1.
    ghost faults: { Self → ℕ };

    /// Adds the first of these bytes to what is held, and says how many. A device that takes nothing
    /// of bytes that aren't empty answers `Failed`.
    fn write(&mut self, bytes: &[u8]) -> Result<usize, OutError>
        ensures ok { IfOk result (λ n. Adds (held self.old) (held self.new) (take n bytes.now)) }
        ensures within { IfOk result (λ n. n ≤ length bytes.now) }
        ensures some { IfOk result (λ n. 0 < length bytes.now → 0 < n) }
        ensures kept { OnOk result (faults self.new ≡ faults self.old) }
        ensures failed { IsErrOf result OutError.Failed → Rose (faults self.old) (faults self.new) }
        ensures no_memory { IsErrOf result OutError.NoMemory → faults self.new ≡ faults self.old }
        ensures err { OnErr result (held self.new ≡ held self.old) }
        ensures count { faults self.old ≤ faults self.new }
        ensures range { faults self.new < 2 ^ 64 };
}
