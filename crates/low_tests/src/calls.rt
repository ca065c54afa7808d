//! Calls as words spell them, and their steps. What is tested of them is told in `errors.rt`, `tracked.rt` and `reads.rt`.

ghost use Rattle.gl_tracked.specs.Tracked.{IsSound};

use gl_memory::ClientMemory;
use gl_tracked::Tracked;
use gl_words::{Call, call_from, number_of_enum, shape_of_name};

/// The number that a word spells: an integer, or a name of OpenGL ES.
pub(crate) fn number(word: &str) -> Option<i64> {
    match number_of_enum(word) {
        Some(number) => Some(i64::from(number)),
        None => word.parse::<i64>().ok(),
    }
}

/// The call that words spell, as a line of a script does.
pub(crate) fn call_spelled(spelling: &str) -> Option<Call> {
    let mut words = spelling.split_whitespace();
    let shape = shape_of_name(words.next()?)?;
    let mut numbers = [0_i64; 9];
    let mut count = 0_usize;
    for word in words {
        if count >= 9 {
            return None;
        }
        numbers[count] = number(word)?;
        count += 1;
    }
    call_from(shape.id, numbers.get(..count)?)
}

/// Takes the step of a call.
pub(crate) fn takes(tracked: &mut Tracked, call: &Call, memory: &ClientMemory)
    ensures { IsSound tracked.old → IsSound tracked.new }
{
    let fault = tracked.fault(call);
    tracked.note(call, memory, fault);
}
