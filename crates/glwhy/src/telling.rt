//! What is asked of a script, told of its bytes.

ghost use Rattle.std.specs.Prelude.{◌≡◌, ◌≤◌, length};
ghost use Rattle.std.specs.List.{All};
ghost use Rattle.batch_pack.specs.Batch.{IsBatchSize};
ghost use Rattle.script_reader.specs.Limits.{HasOneContext, IsContext, IsLine};
ghost use Rattle.replay_lines.specs.Limits.{most_lines};

use crate::asked::{Asked, Only, What};
use crate::json::json_of;
use crate::page::Page;
use crate::stop::Stop;
use gl_outside::Sink;
use script_reader::{ContextSpec, Line, ReadRefusal, Script, ScriptError, read};
use script_trace::{EndLine, Entry, EntryLine, Fate, NumberNames, Sums, SumsText, Trace, sums_of};
use script_verdict::{Verdict, VerdictText, explain, refused};
use std::alloc::Global;
use std::thread::Threads;

/// The number of a script's one context.
const ONLY_NUMBER: u32 = 0;

/// Tells what is asked of a script, and gives the exit status. A refusal is told on standard error.
pub fn tell<E: Eprint + Drop, T: Threads + Sync, K: Sink>(
    rt: E,
    threads: &T,
    alloc: Global,
    asked: &Asked<'_>,
    bytes: &[u8],
    page: &mut Page<K>,
) -> Result<u8, Stop> {
    if let What::Check = asked.what {
        let verdict = explain(alloc, bytes)?;
        return tell_verdict(rt, asked, &verdict, page);
    }
    match read(alloc, bytes) {
        Ok(script) => {
            tell_calls(threads, alloc, asked, &script, page)?;
            page.send()?;
            Ok(0)
        }
        Err(ReadRefusal::Bad(error)) => tell_refusal(rt, alloc, asked, bytes, error, page),
        Err(ReadRefusal::NoMemory) => Err(Stop::NoMemory),
    }
}

fn tell_refusal<T: Eprint + Drop, K: Sink>(
    rt: T,
    alloc: Global,
    asked: &Asked<'_>,
    bytes: &[u8],
    error: ScriptError,
    page: &mut Page<K>,
) -> Result<u8, Stop> {
    let verdict = Verdict::Refused(refused(alloc, bytes, error)?);
    tell_verdict(rt, asked, &verdict, page)
}

fn tell_verdict<T: Eprint + Drop, K: Sink>(
    rt: T,
    asked: &Asked<'_>,
    verdict: &Verdict<'_>,
    page: &mut Page<K>,
) -> Result<u8, Stop> {
    let text = VerdictText {
        file: asked.file_name(),
        verdict,
    };
    match verdict {
        Verdict::Accepted { .. } => {
            page.line(&text)?;
            page.send()?;
            Ok(0)
        }
        Verdict::Refused(_) => {
            let _taken = eprintln!(rt; "{text}");
            Ok(4)
        }
    }
}

/// The slots of a batch that are asked for. The words ask for none outside 16 to 8192.
fn size_of(asked: &Asked<'_>) -> u32
    ensures size { IsBatchSize result }
    ensures same { IsBatchSize asked.now.size → result ≡ asked.now.size }
{
    if asked.size < 16 {
        16
    } else if asked.size > 8192 {
        8192
    } else {
        asked.size
    }
}

/// Tells the calls of a script, or what they sum up to.
fn tell_calls<T: Threads + Sync, K: Sink>(
    rt: &T,
    alloc: Global,
    asked: &Asked<'_>,
    script: &Script,
    page: &mut Page<K>,
) -> Result<(), Stop>
    requires few { length script.now.lines ≤ most_lines }
    requires lines { All IsLine script.now.lines }
    requires context { HasOneContext script.now.contexts }
{
    match script.contexts.as_slice() {
        [spec, ..] => tell_context(rt, alloc, asked, *spec, script.lines.as_slice(), page),
        [] => Ok(()),
    }
}

/// Tells the calls of a script's one context.
fn tell_context<T: Threads + Sync, K: Sink>(
    rt: &T,
    alloc: Global,
    asked: &Asked<'_>,
    spec: ContextSpec,
    lines: &[Line],
    page: &mut Page<K>,
) -> Result<(), Stop>
    requires few { length lines.now ≤ most_lines }
    requires lines { All IsLine lines.now }
    requires spec { IsContext spec }
{
    let size = size_of(asked);
    match asked.what {
        What::Counts { json } => {
            let sums = sums_of(rt, alloc, size, ONLY_NUMBER, spec, lines)?;
            tell_sums(alloc, &sums, size, json, page)
        }
        What::Trace(only) => {
            let mut trace = Trace::new(alloc, size, ONLY_NUMBER, spec, lines)?;
            let names = NumberNames::new(alloc)?;
            tell_entries(rt, &mut trace, &names, size, only, page)
        }
        What::Check => Ok(()),
    }
}

fn tell_entries<T: Threads + Sync, K: Sink>(
    rt: &T,
    trace: &mut Trace<'_>,
    names: &NumberNames,
    size: u32,
    only: Only,
    page: &mut Page<K>,
) -> Result<(), Stop> {
    for _ in 0..u64::MAX {
        let Some(entry) = trace.next(rt)? else {
            break;
        };
        if let (Only::All, Some(end)) = (only, entry.ended) {
            page.line(&EndLine { end, size })?;
        }
        if is_listed(only, &entry) {
            page.entry(&EntryLine {
                entry: &entry,
                names,
                size,
            })?;
        }
        if let (Only::All, Some(end)) = (only, entry.sent) {
            page.line(&EndLine { end, size })?;
        }
    }
    if let (Only::All, Some(end)) = (only, trace.end()) {
        page.line(&EndLine { end, size })?;
    }
    Ok(())
}

fn is_listed(only: Only, entry: &Entry) -> bool {
    match only {
        Only::All => true,
        Only::Errors => entry.error.is_some(),
        Only::Waits => matches!(entry.fate, Fate::Waits(_)),
    }
}

fn tell_sums<K: Sink>(
    alloc: Global,
    sums: &Sums,
    size: u32,
    json: bool,
    page: &mut Page<K>,
) -> Result<(), Stop> {
    if json {
        let text = json_of(alloc, sums, size)?.to_string(alloc)?;
        page.line(&text)
    } else {
        page.line(&SumsText { sums, size })
    }
}
