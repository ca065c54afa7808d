// Where named files are put. None is read back or taken away.
ghost use Rattle.std.specs.Prelude.{◌≡◌, ℕ, ◌≤◌, ◌<◌, ◌^◌, List, [], ◌∷◌, Option, OnOk, OnErr, IsErrOf};
ghost use Rattle.gl_outside.specs.Faults.{Rose};
ghost use Rattle.gl_outside.specs.Moved.{Adds};

use crate::OutError;

/// A place for named files.
pub trait Shelf: Drop {
    /// The pairs of a name and bytes that were put, in order, where the object tells them.
    ghost list: { Self → Option (List (List ℕ × List ℕ)) };

    /// How often it failed, at most 2^64 - 1.
    ghost faults: { Self → ℕ };

    /// Puts these bytes under this name, behind what was put before.
    fn put(&mut self, name: &str, bytes: &[u8]) -> Result<(), OutError>
        ensures ok { OnOk result
            (Adds (list self.old) (list self.new) ((name.now, bytes.now) ∷ [])) }
        ensures kept { OnOk result (faults self.new ≡ faults self.old) }
        ensures failed { IsErrOf result OutError.Failed → Rose (faults self.old) (faults self.new) }
        ensures no_memory { IsErrOf result OutError.NoMemory → faults self.new ≡ faults self.old }
        ensures err { OnErr result (list self.new ≡ list self.old) }
        ensures count { faults self.old ≤ faults self.new }
        ensures range { faults self.new < 2 ^ 64 };
}
