// Writing all of some bytes.
ghost use Rattle.std.specs.Prelude.{◌≡◌, ◌≤◌, OnOk, OnErr, IsErrOf};
ghost use Rattle.gl_outside.specs.Faults.{Rose};
ghost use Rattle.gl_outside.specs.Moved.{Adds, AddsPart};

use crate::{OutError, Sink};

/// Writes all of these bytes. After an error the first of them were written, and no clause says how many.
#[tactic(auto, using(crate::proofs::Outside::outside))]
pub fn write_all<K: Sink>(sink: &mut K, bytes: &[u8]) -> Result<(), OutError>
    ensures ok { OnOk result (Adds (K.held sink.old) (K.held sink.new) bytes.now) }
    ensures kept { OnOk result (K.faults sink.new ≡ K.faults sink.old) }
    ensures failed { IsErrOf result OutError.Failed → Rose (K.faults sink.old) (K.faults sink.new) }
    ensures no_memory { IsErrOf result OutError.NoMemory → K.faults sink.new ≡ K.faults sink.old }
    ensures err { OnErr result (AddsPart (K.held sink.old) (K.held sink.new) bytes.now) }
    ensures count { K.faults sink.old ≤ K.faults sink.new }
{
    let mut written = 0;
    'writing: while written < bytes.len() {
        written += sink.write(bytes.split_at(written).1)?;
    }
    Ok(())
}
