//! One line judged: what it says, or the first test that it fails. The tests stand in the order of the
//! definitions. A body line is judged in `body.rt`.

ghost use Rattle.std.specs.Prelude.{◌≡◌, ℕ, ◌+◌, ◌^◌, ◌<◌, ◌≤◌, List, [], ◌∷◌, length, IfOk, OnOk, Ok, if◌then◌else◌};
ghost use Rattle.std.specs.List.{list_all};
ghost use Rattle.script_reader.specs.Cutting.{text_of, words_of};
ghost use Rattle.script_reader.specs.ImageBytes.{said_bytes};
ghost use Rattle.script_reader.specs.UploadBytes.{said_uploads};
ghost use Rattle.script_reader.specs.Judged.{judged_header, context_of, judged_context, judged_end, judged_other, judged_counting, judged_words, is_comment, is_text_byte, judged, judged_within, within_image_bytes, within_upload_bytes, within_sums};
ghost use Rattle.script_reader.specs.declared.before.Said.TheVariants.{Nothing};

use crate::before::{Before, Said};
use crate::body::judge_body;
use crate::cutting::text_in;
use crate::error::{Limit, ScriptFault};
use crate::number::{decimal_from, is_between};
use crate::numbers::numbers_from;
use crate::script::ContextSpec;
use crate::told::image_bytes_of;
use crate::words::{count_words, next_word};

/// The most bytes of a source; own.
const SOURCE_BYTES: usize = 8_388_608;

/// The most lines, those that say nothing included; own.
const LINES: u32 = 262_144;

/// The most bytes that the images of a script take; own.
const IMAGE_BYTES: u64 = 67_108_864;

/// The most bytes of uploads that the calls of a script declare; own.
const UPLOAD_BYTES: u64 = 268_435_456;

/// Judges a line that begins after this many bytes, with its line end, where it is known whether it is text.
#[tactic(auto, unfolding(crate::specs::Judged::judged_within))]
pub(crate) fn judge_within(
    at: usize,
    before: Before,
    line: &[u8],
    is_text: bool,
) -> Result<Said<'_>, ScriptFault>
    requires place { at + length line.now < 2 ^ 64 }
    requires text { is_text ≡ list_all is_text_byte (text_of line.now) }
    ensures gives { result ≡ judged_within at before line.now }
    ensures few { OnOk result (before.lines < 262144) }
    ensures images { IfOk result (λ said. before.image_bytes + said_bytes said ≤ 67108864) }
    ensures uploads { IfOk result (λ said. before.upload_bytes + said_uploads said ≤ 268435456) }
{
    if SOURCE_BYTES < at + line.len() {
        return Err(ScriptFault::TooMany(Limit::SourceBytes));
    }
    if LINES <= before.lines {
        return Err(ScriptFault::TooMany(Limit::Lines));
    }
    match judge(before, text_in(line), is_text) {
        Ok(said) => within_sums(before, said),
        Err(fault) => Err(fault),
    }
}

fn within_sums(before: Before, said: Said<'_>) -> Result<Said<'_>, ScriptFault>
    requires small { said_bytes said ≤ 196608 }
    ensures gives { result ≡ within_sums before said.entry }
    ensures images { IfOk result (λ said. before.image_bytes + said_bytes said ≤ 67108864) }
    ensures uploads { IfOk result (λ said. before.upload_bytes + said_uploads said ≤ 268435456) }
{
    match within_image_bytes(before, said) {
        Ok(said) => within_upload_bytes(before, said),
        Err(fault) => Err(fault),
    }
}

fn within_image_bytes(before: Before, said: Said<'_>) -> Result<Said<'_>, ScriptFault>
    requires small { said_bytes said ≤ 196608 }
    ensures gives { result ≡ within_image_bytes before said.entry }
    ensures images { IfOk result (λ said. before.image_bytes + said_bytes said ≤ 67108864) }
{
    if IMAGE_BYTES < u64::from(before.image_bytes) + image_bytes_said(&said) {
        Err(ScriptFault::TooMany(Limit::ImageBytes))
    } else {
        Ok(said)
    }
}

fn within_upload_bytes(before: Before, said: Said<'_>) -> Result<Said<'_>, ScriptFault>
    requires images { before.image_bytes + said_bytes said ≤ 67108864 }
    ensures gives { result ≡ within_upload_bytes before said.entry }
    ensures images { IfOk result (λ said. before.image_bytes + said_bytes said ≤ 67108864) }
    ensures uploads { IfOk result (λ said. before.upload_bytes + said_uploads said ≤ 268435456) }
{
    if UPLOAD_BYTES < u64::from(before.upload_bytes) + upload_bytes_said(&said) {
        Err(ScriptFault::TooMany(Limit::UploadBytes))
    } else {
        Ok(said)
    }
}

/// How many bytes of uploads the call declares that comes of what a line says.
pub(crate) fn upload_bytes_said(said: &Said<'_>) -> u64
    ensures gives { result ≡ said_uploads said.now }
    ensures few { result ≤ 67108864 }
{
    match said {
        Said::Body(told) => told.upload_bytes(),
        Said::Nothing | Said::Header | Said::Context(_) | Said::End => 0,
    }
}

/// How many bytes the image takes that comes of what a line says.
pub(crate) fn image_bytes_said(said: &Said<'_>) -> u64
    requires { said_bytes said.now < 2 ^ 64 }
    ensures { result ≡ said_bytes said.now }
{
    match said {
        Said::Context(context) => image_bytes_of(context.width, context.height),
        Said::Body(told) => told.image_bytes(),
        Said::Nothing | Said::Header | Said::End => 0,
    }
}

#[tactic(auto, unfolding(crate::specs::Judged::judged))]
fn judge(before: Before, text: &[u8], is_text: bool) -> Result<Said<'_>, ScriptFault>
    requires lines { before.lines < 262144 }
    requires text { is_text ≡ list_all is_text_byte text.now }
    ensures gives { result ≡ judged before text.now }
    ensures small { IfOk result (λ said. said_bytes said ≤ 196608) }
{
    if is_text {
        judge_words(before, text)
    } else {
        Err(ScriptFault::NotText)
    }
}

#[tactic(auto, unfolding(crate::specs::Judged::judged_words))]
fn judge_words(before: Before, text: &[u8]) -> Result<Said<'_>, ScriptFault>
    requires { before.lines < 262144 }
    ensures { result ≡ judged_words before (words_of text.now) }
{
    match next_word(text) {
        None => Ok(Said::Nothing),
        Some((first, rest)) => judge_first(before, first, rest),
    }
}

fn judge_first<'a>(before: Before, first: &'a [u8], rest: &'a [u8]) -> Result<Said<'a>, ScriptFault>
    requires { before.lines < 262144 }
    ensures { result ≡ (if is_comment first.now then Ok Nothing
        else judged_counting before first.now (words_of rest.now)) }
{
    match first {
        [b'#', ..] => Ok(Said::Nothing),
        _ => judge_counting(before, first, rest),
    }
}

#[tactic(auto, unfolding(crate::specs::Judged::judged_counting))]
fn judge_counting<'a>(
    before: Before,
    first: &'a [u8],
    rest: &'a [u8],
) -> Result<Said<'a>, ScriptFault>
    requires { before.lines < 262144 }
    ensures { result ≡ judged_counting before first.now (words_of rest.now) }
{
    if before.ended {
        return Err(ScriptFault::AfterEnd);
    }
    if !before.begun {
        return judge_header(first, rest);
    }
    if first == b"context".as_slice() {
        return judge_context(before, rest);
    }
    if first == b"end".as_slice() {
        return judge_end(before, rest);
    }
    judge_other(before, decimal_from(first), rest)
}

#[tactic(auto, unfolding(crate::specs::Judged::judged_header))]
fn judge_header<'a>(first: &'a [u8], rest: &'a [u8]) -> Result<Said<'a>, ScriptFault>
    ensures { result ≡ judged_header first.now (words_of rest.now) }
{
    let Some((second, rest)) = next_word(rest) else {
        return Err(ScriptFault::BadHeader);
    };
    if next_word(rest).is_none() && first == b"glscript".as_slice() && second == b"1".as_slice() {
        Ok(Said::Header)
    } else {
        Err(ScriptFault::BadHeader)
    }
}

#[tactic(auto, unfolding(crate::specs::Judged::judged_context))]
fn judge_context(before: Before, rest: &[u8]) -> Result<Said<'_>, ScriptFault>
    ensures { result ≡ judged_context before (words_of rest.now) }
{
    if before.bodied {
        return Err(ScriptFault::BadHeader);
    }
    if count_words(rest) != 4 {
        return Err(ScriptFault::WrongCount);
    }
    let numbers = numbers_from(rest).ok_or(ScriptFault::BadNumber)?;
    let context = context_from(before.contexts, numbers.as_slice()).ok_or(ScriptFault::OutOfRange)?;
    if before.contexts < 1 {
        Ok(Said::Context(context))
    } else {
        Err(ScriptFault::TooMany(Limit::Contexts))
    }
}

#[tactic(auto, unfolding(crate::specs::Judged::context_of))]
fn context_from(others: u32, numbers: &[i64]) -> Option<ContextSpec>
    ensures { result ≡ context_of others numbers.now }
{
    match numbers {
        [which, width, height, memory] => context_spec(others, *which, *width, *height, *memory),
        _ => None,
    }
}

#[tactic(auto, unfolding(crate::specs::Judged::context_of))]
fn context_spec(
    others: u32,
    which: i64,
    width: i64,
    height: i64,
    memory: i64,
) -> Option<ContextSpec>
    ensures { result ≡ context_of others (which ∷ width ∷ height ∷ memory ∷ []) }
{
    if !is_between(i64::from(others), i64::from(others), which) {
        return None;
    }
    if !is_between(1, 256, width) {
        return None;
    }
    if !is_between(1, 256, height) {
        return None;
    }
    if !is_between(0, 1_048_576, memory) {
        return None;
    }
    Some(ContextSpec {
        width: width as u32,
        height: height as u32,
        memory: memory as u32,
    })
}

#[tactic(auto, unfolding(crate::specs::Judged::judged_end))]
fn judge_end(before: Before, rest: &[u8]) -> Result<Said<'_>, ScriptFault>
    ensures { result ≡ judged_end before (words_of rest.now) }
{
    if before.contexts == 0 {
        return Err(ScriptFault::BadHeader);
    }
    if count_words(rest) == 0 {
        Ok(Said::End)
    } else {
        Err(ScriptFault::WrongCount)
    }
}

#[tactic(auto, unfolding(crate::specs::Judged::judged_other))]
fn judge_other(before: Before, context: Option<u64>, rest: &[u8]) -> Result<Said<'_>, ScriptFault>
    requires { before.lines < 262144 }
    ensures { result ≡ judged_other before context (words_of rest.now) }
{
    match context {
        None => Err(ScriptFault::UnknownWord),
        Some(context) => judge_body(before, context, rest),
    }
}
