// Reading all there is, up to a limit.
ghost use Rattle.std.specs.Prelude.{◌≡◌, ◌≤◌, ◌<◌, length, IfOk, IfSome, OnOk, OnErr, IsErrOf};
ghost use Rattle.gl_outside.specs.Faults.{Rose};
ghost use Rattle.gl_outside.specs.Moved.{Takes, TakesAtMost, IsAtEnd};

use crate::{ReadError, Source};
use std::alloc::Global;

/// Bytes that one call of a source is asked for. As many as std copies at once.
const PIECE: usize = 8192;

/// Reads until nothing is left or `limit` bytes were taken. After an error some bytes were taken, at
/// most as many, and no clause says which.
#[tactic(auto, using(crate::proofs::Outside::outside))]
pub fn read_up_to<S: Source>(
    alloc: Global,
    source: &mut S,
    limit: usize,
) -> Result<Vec<u8>, ReadError>
    ensures ok { IfOk result (λ bytes. Takes (S.left source.old) (S.left source.new) bytes.items) }
    ensures whole { IfOk result
        (λ bytes. length bytes.items < limit
        → IfSome (S.left source.old) (λ left. left ≡ bytes.items)) }
    ensures within { IfOk result (λ bytes. length bytes.items ≤ limit) }
    ensures end { IfOk result (λ bytes. length bytes.items < limit → IsAtEnd (S.left source.new)) }
    ensures kept { OnOk result (S.faults source.new ≡ S.faults source.old) }
    ensures failed { IsErrOf result ReadError.Failed
        → Rose (S.faults source.old) (S.faults source.new) }
    ensures no_memory { IsErrOf result ReadError.NoMemory
        → S.faults source.new ≡ S.faults source.old }
    ensures err { OnErr result (TakesAtMost limit (S.left source.old) (S.left source.new)) }
    ensures count { S.faults source.old ≤ S.faults source.new }
{
    let mut piece = [0u8; PIECE];
    let mut bytes = Vec::new(alloc);
    'reading: while bytes.len() < limit {
        let room = PIECE.min(limit - bytes.len());
        let part = &mut piece[..room];
        let n = source.read(part)?;
        if n == 0 {
            return Ok(bytes);
        }
        bytes.extend_from_slice(part.split_at(n).0)?;
    }
    Ok(bytes)
}
