// What is read from. It doesn't say when more comes, and a read can't be taken back.
ghost use Rattle.std.specs.Prelude.{◌≡◌, ℕ, ◌≤◌, ◌<◌, ◌^◌, List, Option, length, take, IfOk, OnOk, OnErr};
ghost use Rattle.gl_outside.specs.Faults.{Rose};
ghost use Rattle.gl_outside.specs.Moved.{Takes, IsAtEnd};

use crate::Failed;

/// A reader of bytes.
pub trait Source: Drop {
    /// The bytes that are left, where the object tells them.
    ghost left: { Self → Option (List ℕ) };

    /// How often it failed, at most 2^64 - 1.
    ghost faults: { Self → ℕ };

    /// Moves the first bytes of what is left to the front of `buf`, and says how many. What stands in
    /// the rest of `buf` afterwards is left open.
    fn read(&mut self, buf: &mut [u8]) -> Result<usize, Failed>
        requires { 0 < length buf.old }
        ensures ok { IfOk result (λ n. Takes (left self.old) (left self.new) (take n buf.new)) }
        ensures within { IfOk result (λ n. n ≤ length buf.old) }
        ensures end { IfOk result (λ n. n ≡ 0 → IsAtEnd (left self.new)) }
        ensures kept { OnOk result (faults self.new ≡ faults self.old) }
        ensures failed { OnErr result (Rose (faults self.old) (faults self.new)) }
        ensures err { OnErr result (left self.new ≡ left self.old) }
        ensures count { faults self.old ≤ faults self.new }
        ensures range { faults self.new < 2 ^ 64 };
}
