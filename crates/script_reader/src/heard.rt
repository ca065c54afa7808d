//! What the lines so far have said, as far as it is kept.

ghost use Rattle.std.specs.Prelude.{◌≡◌, ℕ, ◌+◌, ◌^◌, ◌<◌, ◌≤◌, List, [], ◌∷◌, ◌++◌, length, OnOk, OnErr, IfErr};
ghost use Rattle.std.specs.List.{list_all};
ghost use Rattle.script_reader.specs.declared.before.Said.{Said};
ghost use Rattle.script_reader.specs.declared.error.ReadRefusal.TheVariants.{NoMemory};
ghost use Rattle.script_reader.specs.Grammar.{contexts_in, lines_said, says_something, is_context, is_body, is_end};
ghost use Rattle.script_reader.specs.Cutting.{text_of};
ghost use Rattle.script_reader.specs.ImageBytes.{said_bytes};
ghost use Rattle.script_reader.specs.UploadBytes.{said_uploads};
ghost use Rattle.script_reader.specs.Judged.{is_text_byte};
ghost use Rattle.script_reader.specs.Heard.{IsHeard, HearsLine, RefusesLine, after};

use crate::before::{Before, Said};
use crate::contexts::Contexts;
use crate::error::{ReadRefusal, ScriptError};
use crate::line::{image_bytes_said, judge_within, upload_bytes_said};
use crate::lines::Lines;
use std::alloc::{AllocError, Global};

/// The contexts and lines so far, and what the tests of the next line ask.
#[derive(Drop)]
pub(crate) struct Heard {
    pub(crate) contexts: Contexts,
    pub(crate) lines: Lines,
    pub(crate) before: Before,
}

/// Before the first line.
pub(crate) fn nothing_heard(alloc: Global) -> Heard
    ensures heard { IsHeard result [] }
    ensures lines { result.before.lines ≡ 0 }
    ensures contexts { result.before.contexts ≡ 0 }
{
    Heard {
        contexts: Contexts::new(alloc),
        lines: Lines::new(alloc),
        before: Before {
            lines: 0,
            contexts: 0,
            image_bytes: 0,
            upload_bytes: 0,
            begun: false,
            bodied: false,
            ended: false,
        },
    }
}

/// Takes the next line, which begins after this many bytes, with its line end, where it is known whether it is text.
pub(crate) fn hear_line(
    heard: &mut Heard,
    alloc: Global,
    at: usize,
    line: &[u8],
    is_text: bool,
) -> Result<(), ReadRefusal>
    requires text { is_text ≡ list_all is_text_byte (text_of line.now) }
    requires place { at + length line.now < 2 ^ 64 }
    requires few { heard.old.before.contexts ≤ heard.old.before.lines }
    requires lines { heard.old.before.lines ≤ 262144 }
    ensures ok { OnOk result (HearsLine heard.old heard.new at line.now) }
    ensures few { OnOk result (heard.new.before.contexts ≤ heard.new.before.lines) }
    ensures lines { OnOk result (heard.new.before.lines ≤ 262144) }
    ensures err { IfErr result (RefusesLine heard.old at line.now) }
{
    match judge_within(at, heard.before, line, is_text) {
        Ok(said) => hear(heard, alloc, said),
        Err(fault) => Err(ReadRefusal::Bad(ScriptError {
            line: heard.before.lines + 1,
            fault,
        })),
    }
}

fn hear(heard: &mut Heard, alloc: Global, said: Said<'_>) -> Result<(), ReadRefusal>
    requires lines { heard.old.before.lines < 262144 }
    requires images { heard.old.before.image_bytes + said_bytes said ≤ 67108864 }
    requires uploads { heard.old.before.upload_bytes + said_uploads said ≤ 268435456 }
    requires few { heard.old.before.contexts ≤ heard.old.before.lines }
    ensures contexts { OnOk result
        (heard.new.contexts ≡ heard.old.contexts ++ contexts_in (said.entry ∷ [])) }
    ensures kept { OnOk result (heard.new.lines ≡ heard.old.lines ++ lines_said (said.entry ∷ [])) }
    ensures before { OnOk result (heard.new.before ≡ after heard.old.before said.entry) }
    ensures few { OnOk result (heard.new.before.contexts ≤ heard.new.before.lines) }
    ensures err { IfErr result (λ e. e ≡ NoMemory) }
{
    let before = before_after(heard.before, &said);
    match keep(&mut heard.contexts, &mut heard.lines, alloc, said) {
        Ok(()) => {}
        Err(_) => return Err(ReadRefusal::NoMemory),
    }
    heard.before = before;
    Ok(())
}

fn keep(
    contexts: &mut Contexts,
    lines: &mut Lines,
    alloc: Global,
    said: Said<'_>,
) -> Result<(), AllocError>
    ensures contexts { OnOk result (contexts.new ≡ contexts.old ++ contexts_in (said.entry ∷ [])) }
    ensures lines { OnOk result (lines.new ≡ lines.old ++ lines_said (said.entry ∷ [])) }
{
    match said {
        Said::Context(context) => contexts.push(context),
        Said::Body(told) => lines.push(told.into_line(alloc)?),
        Said::Nothing | Said::Header | Said::End => Ok(()),
    }
}

fn before_after(before: Before, said: &Said<'_>) -> Before
    requires lines { before.lines < 262144 }
    requires few { before.contexts ≤ before.lines }
    requires images { before.image_bytes + said_bytes said.now ≤ 67108864 }
    requires uploads { before.upload_bytes + said_uploads said.now ≤ 268435456 }
    ensures gives { result ≡ after before said.now }
    ensures few { result.contexts ≤ result.lines }
{
    Before {
        lines: before.lines + 1,
        contexts: before.contexts + u32::from(is_context(said)),
        image_bytes: before.image_bytes + image_bytes_said(said) as u32,
        upload_bytes: before.upload_bytes + upload_bytes_said(said) as u32,
        begun: before.begun | says_something(said),
        bodied: before.bodied | is_body(said),
        ended: before.ended | is_end(said),
    }
}

fn says_something(said: &Said<'_>) -> bool
    ensures { result ≡ says_something said.now }
{
    !matches!(said, Said::Nothing)
}

fn is_context(said: &Said<'_>) -> bool
    ensures { result ≡ is_context said.now }
{
    matches!(said, Said::Context(_))
}

fn is_body(said: &Said<'_>) -> bool
    ensures { result ≡ is_body said.now }
{
    matches!(said, Said::Body(_))
}

fn is_end(said: &Said<'_>) -> bool
    ensures { result ≡ is_end said.now }
{
    matches!(said, Said::End)
}
