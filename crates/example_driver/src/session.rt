//! A front without a script: how a program makes calls of its own through the layer.

ghost use Rattle.std.specs.Prelude.{◌≡◌, pos, [], ◌∷◌, IfOk};
ghost use Rattle.driver_trait.specs.Reply.{Numbers, replied};

use crate::counter::Counter;
use batch_rail::{InlineMaker, RailMaker};
use driver_trait::Reply;
use gl_front::Front;
use gl_memory::ClientMemory;
use gl_words::Call;
use std::alloc::{AllocError, AllocError as NoMemory, Global};
use std::thread::Threads;

/// Clears twice through the layer, asks the driver for its count, and takes it back. Gives the answer, which is two, client
/// memory, in which it stands from place 4 on, and the driver; own.
pub fn two_clears<T: Threads + Sync>(
    rt: &T,
    alloc: Global,
) -> Result<(Reply, ClientMemory, Counter), NoMemory>
    ensures told { IfOk result (λ left. replied left.0 ≡ Numbers (pos 2 ∷ [])) }
    ensures counted { IfOk result (λ left. left.2.clears ≡ 2) }
{
    // A rail for context 0, with batches of 64 slots. A rail without threads has no use for the length of a ring.
    let mut maker = InlineMaker::new();
    let Ok(rail) = maker.launch(alloc, 0, Counter::new(), 64, 1) else {
        return Err(AllocError);
    };
    // A front over the rail, and over 8 bytes of client memory.
    let memory = ClientMemory::new(alloc, 8)?;
    let Ok(mut front) = Front::new(alloc, rail, memory) else {
        return Err(AllocError);
    };
    front.write_memory(0, [1, 2, 3, 4].as_slice());
    // Put off, both: neither asks for anything, and so neither has a reply.
    let clear = Call::Clear { mask: 0x4000 };
    let _none = front.issue(rt, &clear)?;
    let _again = front.issue(rt, &clear)?;
    // Waits, since the count is no tracked state: the two are carried out first. It asks for something, and so has a reply.
    let count = Call::GetIntegerv {
        pname: 0x0D33,
        params: 4,
    };
    let Some(told) = front.issue(rt, &count)? else {
        unreachable!();
    };
    // What is open is carried out, and the parts come back.
    front.finish(rt)?;
    let (rail, memory) = front.into_parts();
    let driver = maker.close(0, rail)?;
    Ok((told, memory, driver))
}
