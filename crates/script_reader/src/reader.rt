//! The whole source, line after line. What is kept is the place, the contexts and the lines so far.

ghost use Rattle.std.specs.Prelude.{◌≡◌, ℕ, ◌+◌, ◌≤◌, List, length, IfOk, Ok, Err};
ghost use Rattle.script_reader.specs.declared.script.Script.{Script};
ghost use Rattle.script_reader.specs.declared.error.ScriptError.{ScriptError};
ghost use Rattle.script_reader.specs.declared.error.ReadRefusal.TheVariants.{Bad};
ghost use Rattle.script_reader.specs.Grammar.{script_of, IsReading};
ghost use Rattle.script_reader.specs.Heard.{Reads};
ghost use Rattle.script_reader.specs.Limits.{IsWithinLimits};

use crate::cutting::first_line;
use crate::error::{ReadRefusal, ScriptError, ScriptFault};
use crate::heard::{hear_line, nothing_heard};
use crate::script::Script;
use std::alloc::Global;

/// Reads a script. Bad names the first faulty line, and the first test that it fails. NoMemory comes
/// only for want of memory.
pub fn read(alloc: Global, bytes: &[u8]) -> Result<Script, ReadRefusal>
    ensures found { IfOk result (λ script. script_of bytes.now ≡ Ok script) }
    ensures limits { IfOk result (λ script. IsWithinLimits bytes.now script) }
    ensures only { (script : Script) → script_of bytes.now ≡ Ok script
        → IsReading result (Ok script) }
    ensures cause { (error : ScriptError) → result ≡ Err (Bad error)
        → script_of bytes.now ≡ Err error }
    ensures exact { (error : ScriptError) → script_of bytes.now ≡ Err error
        → IsReading result (Err (Bad error)) }
{
    read_all(alloc, bytes)
}

fn read_all(alloc: Global, bytes: &[u8]) -> Result<Script, ReadRefusal>
    ensures { Reads (script_of bytes.now) result }
{
    let mut heard = nothing_heard(alloc);
    let mut at = 0;
    let mut rest = bytes;
    while !rest.is_empty() {
        let (line, after, is_text) = first_line(rest);
        match hear_line(&mut heard, alloc, at, line, is_text) {
            Ok(()) => {}
            Err(refusal) => return Err(refusal),
        }
        at += line.len();
        rest = after;
    }
    if heard.before.ended {
        Ok(Script {
            contexts: heard.contexts,
            lines: heard.lines,
        })
    } else {
        Err(ReadRefusal::Bad(ScriptError {
            line: heard.before.lines + 1,
            fault: ScriptFault::NoEnd,
        }))
    }
}
