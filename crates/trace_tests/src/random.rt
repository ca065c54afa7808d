//! The counts of traces beside those that runs report, on scripts that are made of a seed, of whatever calls the table has.

ghost use Rattle.std.specs.Prelude.{◌≡◌, ◌<◌, true, length};
ghost use Rattle.batch_pack.specs.Batch.{IsBatchSize};
ghost use Rattle.replay_core.specs.Outcome.{Ask};
ghost use Rattle.replay_text.specs.Words.{rail_in};
ghost use Rattle.replay_text.specs.declared.asked.Command.{Command};

use batch_rail::{InlineMaker, RailKind};
use gl_outside::{SureShelf, SureSink, SureSource};
use gl_words::{ArgKind, names_by_length, row_numbered};
use replay_core::replay_alone;
use replay_text::{Status, rail_of};
use script_reader::read;
use script_trace::sums_of;
use std::alloc::{AllocError, Global};
use std::fmt::Write;
use std::process::Abort;
use std::str::from_utf8;
use std::test::Fail;
use std::thread::Threads;

/// How many scripts are made, and the most calls of one.
const SCRIPTS: u64 = 500;

const MOST_CALLS: u64 = 60;

/// How many calls the table has: their numbers go from 1 to this.
const CALLS: u64 = 64;

/// The sizes of batches, in turn.
fn size_of(round: u64) -> u32
    ensures { IsBatchSize result }
{
    match round % 4 {
        0 => 16,
        1 => 17,
        2 => 64,
        _ => 1024,
    }
}

/// Calls with arguments that fit, since most others have an error: they put objects in place, read memory of several lengths,
/// and draw.
static FITTING: [&str; 16] = [
    "BindTexture TEXTURE_2D 3",
    "TexImage2D TEXTURE_2D 0 RGBA 4 2 0 RGBA UNSIGNED_BYTE 0",
    "TexImage2D TEXTURE_2D 0 RGB 16 8 0 RGB UNSIGNED_BYTE 64",
    "TexImage2D TEXTURE_2D 0 LUMINANCE 8 8 0 LUMINANCE UNSIGNED_BYTE 250",
    "TexSubImage2D TEXTURE_2D 0 1 0 2 2 RGBA UNSIGNED_BYTE 16",
    "TexParameteri TEXTURE_2D TEXTURE_MIN_FILTER NEAREST",
    "TexEnvi TEXTURE_ENV TEXTURE_ENV_MODE MODULATE",
    "TexEnvxv TEXTURE_ENV TEXTURE_ENV_COLOR 32",
    "Enable TEXTURE_2D",
    "BindBuffer ARRAY_BUFFER 4",
    "BindBuffer ELEMENT_ARRAY_BUFFER 5",
    "BufferData ELEMENT_ARRAY_BUFFER 200 0 STATIC_DRAW",
    "EnableClientState VERTEX_ARRAY",
    "VertexPointer 2 BYTE 0 0",
    "DrawArrays TRIANGLES 0 48",
    "DrawElements TRIANGLES 3 UNSIGNED_BYTE 0",
];

fn fitting() -> &'static [&'static str]
    ensures { length result.now ≡ 16 }
{
    &FITTING
}

/// The names of enumerants, in one list.
fn all_names(alloc: Global) -> Result<Vec<&'static str>, AllocError> {
    let mut names = Vec::new(alloc);
    for group in names_by_length() {
        for name in *group {
            names.push(name.0)?;
        }
    }
    Ok(names)
}

/// Numbers that look as if they were drawn.
#[derive(Drop)]
struct Draws {
    last: u64,
}

impl Draws {
    /// A number below another, which isn't 0.
    fn below(&mut self, most: u64) -> u64
        requires { 0 < most }
        ensures { result < most }
    {
        self.last = self
            .last
            .wrapping_mul(6_364_136_223_846_793_005)
            .wrapping_add(1_442_695_040_888_963_407);
        (self.last >> 33) % most
    }

    /// Some word of a list; of an empty one ZERO.
    fn word(&mut self, words: &[&'static str]) -> &'static str {
        let place = self.below((words.len() as u64).max(1));
        match words.get(place as usize) {
            Some(word) => *word,
            None => "ZERO",
        }
    }

    /// A line with some call: one whose arguments fit, or one of the table with whatever arguments.
    fn add_call(&mut self, text: &mut String, names: &[&'static str]) -> Result<(), AllocError> {
        if self.below(3) == 0 {
            let call = self.word(fitting());
            return writeln!(text, "0 {call}");
        }
        let id = self.below(CALLS) + 1;
        let Some(row) = row_numbered(id as u16) else {
            return Ok(());
        };
        let name = row.name;
        write!(text, "0 {name}")?;
        for kind in row.kinds {
            self.add_argument(text, *kind, names)?;
        }
        text.push_str("\n")
    }

    /// An argument of a kind: mostly a small number, or some name.
    fn add_argument(
        &mut self,
        text: &mut String,
        kind: ArgKind,
        names: &[&'static str],
    ) -> Result<(), AllocError> {
        let named = self.below(8) > 0;
        match kind {
            ArgKind::Enum if named => {
                let name = self.word(names);
                write!(text, " {name}")
            }
            ArgKind::Int | ArgKind::Fixed => {
                let number = self.below(9) as i64 - 1;
                write!(text, " {number}")
            }
            ArgKind::Bool => {
                let number = self.below(2);
                write!(text, " {number}")
            }
            ArgKind::Enum | ArgKind::Unsigned | ArgKind::Pointer => {
                let number = self.below(300);
                write!(text, " {number}")
            }
        }
    }

    /// A script of some calls.
    fn script(&mut self, alloc: Global, names: &[&'static str]) -> Result<String, AllocError> {
        let mut text = String::from_str(alloc, "glscript 1\ncontext 0 4 4 512\n")?;
        for _ in 0..self.below(MOST_CALLS) {
            self.add_call(&mut text, names)?;
        }
        text.push_str("end\n")?;
        Ok(text)
    }
}

/// The line of counts that a run of a script reports.
fn counts_of_run<T: Threads + Sync + Abort>(
    rt: &T,
    alloc: Global,
    script: &str,
    size: u32,
) -> Result<String, Fail> {
    let mut words = Vec::new(alloc);
    for word in ["run", "--rail", "inline", "--batch"] {
        words.push(String::from_str(alloc, word)?)?;
    }
    words.push(format!(in alloc; "{size}")?)?;
    let mut source = SureSource::new(Vec::from_slice(alloc, script.as_bytes())?);
    let mut sink = SureSink::new(alloc);
    let mut shelf = SureShelf::new(alloc);
    let mut rails = InlineMaker::new();
    assert!(rt; ask_inline(&words));
    let status = replay_alone(
        rt,
        alloc,
        &words,
        &mut source,
        &mut sink,
        &mut shelf,
        &mut rails,
    );
    assert!(rt; status == Status::Ok, "{status}");
    for line in text_of(sink.bytes()).lines() {
        if line.starts_with("counts ") {
            return Ok(String::from_str(alloc, line)?);
        }
    }
    Ok(String::new(alloc))
}

/// Bytes as text.
fn text_of(bytes: &[u8]) -> &str {
    match from_utf8(bytes) {
        Ok(text) => text,
        Err(_) => "",
    }
}

/// Whether the words ask for the rail without threads, or for nothing.
fn ask_inline(words: &[String]) -> bool
    ensures { result ≡ true → (asked : Command) → Ask words.now asked
        → RailKind.Inline ≡ rail_in asked }
{
    match rail_of(words) {
        Some(rail) => rail == RailKind::Inline,
        None => true,
    }
}

/// The same line, of the sums of its trace.
fn counts_of_trace<T: Threads + Sync>(
    rt: &T,
    alloc: Global,
    script: &str,
    size: u32,
) -> Result<String, Fail>
    requires { IsBatchSize size }
{
    let script = read(alloc, script.as_bytes())?;
    let [spec, ..] = script.contexts.as_slice() else {
        return Ok(String::new(alloc));
    };
    let sums = sums_of(rt, alloc, size, 0, *spec, script.lines.as_slice())?;
    let deferred = sums.deferred;
    let synchronised = sums.synchronised;
    let answered = sums.answered;
    let batches = sums.batches;
    Ok(format!(in alloc; "counts 0 {deferred} {synchronised} {answered} {batches}")?)
}

#[test]
fn a_trace_counts_what_a_run_counts(rt: HostRuntime) -> Result<(), Fail> {
    let names = all_names(rt.alloc())?;
    let mut draws = Draws { last: 1 };
    for round in 0..SCRIPTS {
        let script = draws.script(rt.alloc(), names.as_slice())?;
        let script = script.as_str();
        let size = size_of(round);
        let wanted = counts_of_run(&rt, rt.alloc(), script, size)?;
        let counted = counts_of_trace(&rt, rt.alloc(), script, size)?;
        assert!(rt;
            counted.as_str() == wanted.as_str(),
            "{counted} and not {wanted}\n{script}"
        );
    }
    Ok(())
}
