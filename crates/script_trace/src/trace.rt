//! The calls of a script, one after another, as the direct machine meets them. How one is met is told in `here.rt`.

ghost use Rattle.std.specs.Prelude.{◌≡◌, ◌+◌, ◌^◌, ◌<◌, ◌≤◌, [], length, option_map, IfOk, OnOk, OnErr};
ghost use Rattle.std.specs.List.{All};
ghost use Rattle.batch_pack.specs.Batch.{IsBatchSize};
ghost use Rattle.script_reader.specs.Limits.{IsContext, IsLine};
ghost use Rattle.replay_lines.specs.Limits.{most_lines};
ghost use Rattle.script_trace.specs.Entries.{Passes, behind_next, next_entry, scripted, seen, trace_of};
ghost use Rattle.script_trace.specs.Tallies.{listed};

use crate::entry::Entry;
use crate::fate::{BatchEnd, Why};
use crate::here::Here;
use script_reader::{ContextSpec, Line};
use std::alloc::{AllocError as NoMemory, Global};
use std::marker::Model;
use std::thread::Threads;

/// The calls of a script's context that are still to come, and the batch that ends behind them; own. Contracts see entries.
#[derive(Drop)]
pub struct Trace<'a> {
    here: Here,
    lines: &'a [Line],
}

impl<'a> Model for Trace<'a> {
    ghost use Rattle.std.specs.Prelude.{◌+◌, ◌*◌, ◌^◌, ◌≤◌, length};
    ghost use Rattle.std.specs.List.{All};
    ghost use Rattle.script_reader.specs.Limits.{IsLine};
    ghost use Rattle.script_trace.specs.Entries.{TraceView, trace_here};

    ghost Value = { TraceView };

    ghost view = { λ t. trace_here t.here t.lines.now };

    // Each line may end two batches.
    ghost invariant = { λ t. All IsLine t.lines.now
        × (t.here.batch.number + 2 * length t.lines.now ≤ 2 ^ 32) };
}

impl<'a> Trace<'a> {
    /// The calls on the lines of a context of this number and of these sides, with batches of so many slots; own.
    pub fn new(
        alloc: Global,
        size: u32,
        context: u32,
        spec: ContextSpec,
        lines: &'a [Line],
    ) -> Result<Trace<'a>, NoMemory>
        requires size { IsBatchSize size }
        requires context { context < 4 }
        requires spec { IsContext spec }
        requires few { length lines.now ≤ most_lines }
        requires lines { All IsLine lines.now }
        ensures { IfOk result (λ trace. trace ≡ trace_of size context (scripted spec lines.now)) }
    {
        let here = Here::new(alloc, size, context, spec)?;
        Ok(Trace { here, lines })
    }

    /// The next call. None exactly where no call is left. NoMemory leaves it to come; own.
    pub fn next<T: Threads + Sync>(&mut self, rt: &T) -> Result<Option<Entry>, NoMemory>
        ensures next { IfOk result (λ entry. option_map seen entry ≡ next_entry self.old) }
        ensures left { OnOk result (self.new ≡ behind_next self.old) }
        ensures err { OnErr result (self.new ≡ self.old) }
    {
        while let [line, rest @ ..] = self.lines {
            let entry = pass(rt, &mut self.here, line)?;
            self.lines = rest;
            if entry.is_some() {
                return Ok(entry);
            }
        }
        Ok(None)
    }

    /// The batch that ends where no call is left; own.
    pub fn end(&self) -> Option<BatchEnd>
        ensures { self.now.entries ≡ [] → result ≡ self.now.last }
    {
        self.here.batch().end(Why::NoMore)
    }
}

/// Passes a line where it is the context's, and gives its call, if it makes one. NoMemory passes none.
fn pass<T: Threads + Sync>(rt: &T, here: &mut Here, line: &Line) -> Result<Option<Entry>, NoMemory>
    requires line { IsLine line.now }
    requires number { here.old.batch.number < 2 ^ 32 }
    ensures entry { IfOk result
        (λ entry. Passes here.old here.new line.now (listed (option_map seen entry))) }
    ensures number { here.new.batch.number ≤ here.old.batch.number + 2 }
    ensures err { OnErr result (here.new ≡ here.old) }
{
    if line.context == here.context() {
        here.pass(rt, line)
    } else {
        Ok(None)
    }
}
