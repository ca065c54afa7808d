//! Why a script is refused: the reader tells the line and the fault, and here the word is found at which it stands. What was
//! meant is guessed in `hints.rt`.

ghost use Rattle.std.specs.Prelude.{◌≡◌, None, IfOk};
ghost use Rattle.script_verdict.specs.Verdicts.{IsAnswer, error_in};

use crate::calls::row_named;
use crate::hints::{self, Hints};
use crate::source::{Past, Words, count_lines, line_at, words_in};
use crate::verdict::{Expected, Form, Problem, Refusal, Spot, Verdict};
use gl_words::{ArgKind, TableRow};
use script_reader::{
    Act, Limit, Name, ReadRefusal, Script, ScriptError, ScriptFault, argument_from, decimal_from,
    is_hex, number_from, read,
};
use std::alloc::{AllocError as NoMemory, Global};

/// Says whether bytes are a script, and why not; own. The line and the fault are the reader's.
pub fn explain(alloc: Global, bytes: &[u8]) -> Result<Verdict<'_>, NoMemory>
    ensures { IfOk result (λ verdict. IsAnswer bytes.now (error_in verdict)) }
{
    let script = match read(alloc, bytes) {
        Ok(script) => script,
        Err(ReadRefusal::Bad(error)) => {
            return Ok(Verdict::Refused(refused(alloc, bytes, error)?));
        }
        Err(ReadRefusal::NoMemory) => return Err(NoMemory),
    };
    Ok(accepted(bytes, &script))
}

fn accepted(bytes: &[u8], script: &Script) -> Verdict<'static>
    ensures { error_in result ≡ None }
{
    let mut calls = 0u64;
    for line in script.lines.as_slice() {
        if let Act::Gl(_) = line.act {
            calls = calls.saturating_add(1);
        }
    }
    Verdict::Accepted {
        lines: count_lines(bytes),
        contexts: script.contexts.as_slice().len() as u64,
        calls,
    }
}

/// The fault of bytes, as the reader tells it, with its place, what was expected, and hints; own.
pub fn refused(alloc: Global, bytes: &[u8], error: ScriptError) -> Result<Refusal<'_>, NoMemory>
    ensures { IfOk result (λ refusal. refusal.error ≡ error) }
{
    let (line, past) = line_at(bytes, error.line);
    let text = line.unwrap_or(&[]);
    let words = words_in(alloc, text)?;
    let found = find(error.fault, past, text, &words);
    let mut hints = Hints::new(alloc);
    hints::guess(&mut hints, &found, text, &words)?;
    Ok(Refusal {
        error,
        line,
        spot: found.spot,
        problem: found.problem,
        expected: found.expected,
        hints: hints.list,
    })
}

/// Where the fault stands, what is wrong there and what was expected.
#[derive(Clone, Copy)]
pub(crate) struct Found<'a> {
    pub(crate) spot: Spot,
    pub(crate) problem: Problem<'a>,
    pub(crate) expected: Option<Expected>,
}

/// What is found at the word with this place, from 0; behind the line where there is none.
fn at_word<'a>(
    words: &Words<'a>,
    text: &[u8],
    place: usize,
    problem: Problem<'a>,
    expected: Option<Expected>,
) -> Found<'a> {
    let spot = match words.first.get(place) {
        Some(word) => Spot {
            before: word.column,
            len: word.bytes.len(),
        },
        None => Spot {
            before: text.len(),
            len: 1,
        },
    };
    Found {
        spot,
        problem,
        expected,
    }
}

/// Finds the place of a fault in its line.
fn find<'a>(fault: ScriptFault, past: Past, text: &'a [u8], words: &Words<'a>) -> Found<'a> {
    match fault {
        ScriptFault::NotText => find_byte(text),
        ScriptFault::BadHeader => find_header(past, text, words),
        ScriptFault::UnknownWord => find_word(text, words),
        ScriptFault::WrongCount => find_count(text, words),
        ScriptFault::BadNumber => find_number(text, words),
        ScriptFault::OutOfRange => find_range(past, text, words),
        ScriptFault::NoSuchContext => {
            let expected = Some(Expected::Text(
                "the number of a context, of which there is one: 0",
            ));
            at_word(words, text, 0, Problem::NoContext(words.at(0)), expected)
        }
        ScriptFault::TooMany(limit) => {
            let problem = Problem::Limit(limit_text(limit));
            at_word(words, text, limit_place(limit), problem, None)
        }
        ScriptFault::NoEnd => at_word(words, text, 0, Problem::NoEnd, None),
        ScriptFault::AfterEnd => at_word(words, text, 0, Problem::BehindEnd, None),
    }
}

/// A limit that is passed; own.
fn limit_text(limit: Limit) -> &'static str {
    match limit {
        Limit::Contexts => "a script has one context",
        Limit::Lines => "a script has at most 262144 lines",
        Limit::ImageBytes => {
            "the images of a script take at most 67108864 bytes, three for each pixel"
        }
        Limit::UploadBytes => "the uploads of a script take at most 268435456 bytes",
        Limit::SourceBytes => "a script has at most 8388608 bytes",
    }
}

/// The place among the words of a line at which it passes a limit: sums are passed by what the line does.
fn limit_place(limit: Limit) -> usize {
    match limit {
        Limit::ImageBytes | Limit::UploadBytes => 1,
        Limit::Contexts | Limit::Lines | Limit::SourceBytes => 0,
    }
}

/// The first byte that is no text.
fn find_byte(text: &[u8]) -> Found<'_> {
    let mut found = Found {
        spot: Spot { before: 0, len: 1 },
        problem: Problem::NoText(0),
        expected: Some(Expected::Text("a tab or one of the bytes 0x20 to 0x7E")),
    };
    for (at, byte) in text.iter().enumerate() {
        if *byte != b'\t' && (*byte < b' ' || b'~' < *byte) {
            found.spot.before = at;
            found.problem = Problem::NoText(*byte);
            return found;
        }
    }
    found
}

/// A first line that is no header, a context line behind a body line, or an end before a context line.
fn find_header<'a>(past: Past, text: &'a [u8], words: &Words<'a>) -> Found<'a> {
    if !past.begun {
        let place = if words.at(0) != b"glscript".as_slice() {
            0
        } else if words.at(1) != b"1".as_slice() {
            1
        } else {
            2
        };
        let expected = Some(Expected::Text("the first line that counts: glscript 1"));
        return at_word(words, text, place, Problem::NoHeader, expected);
    }
    if words.at(0) == b"end".as_slice() {
        let expected = Some(Expected::Text("a context line first, as: context 0 64 64 1024"));
        at_word(words, text, 0, Problem::EarlyEnd, expected)
    } else {
        let expected = Some(Expected::Text("a line of a context, or end"));
        at_word(words, text, 0, Problem::LateContext, expected)
    }
}

/// The first word where it begins no line, else the second.
fn find_word<'a>(text: &'a [u8], words: &Words<'a>) -> Found<'a> {
    let first = words.at(0);
    if decimal_from(first).is_none() {
        let expected = Some(Expected::Text("context, end, or the number of a context"));
        return at_word(words, text, 0, Problem::BeginsNoLine(first), expected);
    }
    let expected = Some(Expected::Text("mem, image, or the name of a call"));
    at_word(words, text, 1, Problem::NoAct(words.at(1)), expected)
}

/// The call that is a line's second word.
pub(crate) fn call_in(words: &Words<'_>) -> Option<&'static TableRow> {
    row_named(words.at(1))
}

/// The form of a line that is no header, with the number of words that it has.
fn form_of(words: &Words<'_>) -> (Form, usize) {
    if words.at(0) == b"context".as_slice() {
        (Form::Context, 5)
    } else if words.at(0) == b"end".as_slice() {
        (Form::End, 1)
    } else if words.at(1) == b"mem".as_slice() {
        (Form::Mem, 4)
    } else if words.at(1) == b"image".as_slice() {
        (Form::Image, 6)
    } else {
        match call_in(words) {
            Some(call) => (Form::Call(call.name), call.kinds.len().saturating_add(2)),
            None => (Form::Body, 2),
        }
    }
}

/// The first word that is too many, or the end of a line that has too few.
fn find_count<'a>(text: &'a [u8], words: &Words<'a>) -> Found<'a> {
    let (form, wanted) = form_of(words);
    let found = words.count;
    let problem = Problem::Count {
        form,
        wanted,
        found,
    };
    let expected = match (form, call_in(words)) {
        (Form::Call(_), Some(call)) if found < wanted => expected_at(call, found),
        (Form::Context, _) => Some(Expected::Text("context 0 W H MEM")),
        (Form::Mem, _) => Some(Expected::Text("0 mem ADDR HEX")),
        (Form::Image, _) => Some(Expected::Text("0 image NAME W H ADDR")),
        (Form::Body, _) => Some(Expected::Text("mem, image, or the name of a call")),
        _ => Some(Expected::Text("the end of the line")),
    };
    at_word(words, text, found.min(wanted), problem, expected)
}

/// What a call expects at a word of its line, from 0.
fn expected_at(call: &'static TableRow, place: usize) -> Option<Expected> {
    let at = place.checked_sub(2)?;
    let kind = call.kinds.get(at)?;
    Some(Expected::Argument {
        at: at.saturating_add(1),
        call: call.name,
        kind: *kind,
    })
}

/// A number of a line that is no call: its place among the words, its name and its range.
struct Field(usize, &'static str, i64, i64);

/// The largest place in client memory; own.
const LAST_PLACE: i64 = 4_294_967_295;

/// The numbers of a `context` line, but for that of the context.
static CONTEXT: [Field; 3] = [
    Field(2, "W", 1, 256),
    Field(3, "H", 1, 256),
    Field(4, "MEM", 0, 1_048_576),
];

static MEM: [Field; 1] = [Field(2, "ADDR", 0, LAST_PLACE)];

static IMAGE: [Field; 3] = [
    Field(3, "W", 1, 256),
    Field(4, "H", 1, 256),
    Field(5, "ADDR", 0, LAST_PLACE),
];

/// The numbers of a line that is no call.
fn fields_of(form: Form) -> &'static [Field] {
    match form {
        Form::Context => CONTEXT.as_slice(),
        Form::Mem => MEM.as_slice(),
        Form::Image => IMAGE.as_slice(),
        _ => &[],
    }
}

fn expected_field(field: &Field) -> Option<Expected> {
    Some(Expected::Number {
        what: field.1,
        low: field.2,
        high: field.3,
    })
}

/// The first word that isn't of its kind.
fn find_number<'a>(text: &'a [u8], words: &Words<'a>) -> Found<'a> {
    if let Some(call) = call_in(words) {
        for (at, _) in call.kinds.iter().enumerate() {
            let place = at.saturating_add(2);
            let word = words.at(place);
            if argument_from(word).is_none() {
                let problem = Problem::NoNumber { word, named: true };
                return at_word(words, text, place, problem, expected_at(call, place));
            }
        }
    }
    let (form, _) = form_of(words);
    if let Some(found) = find_spelling(form, text, words) {
        return found;
    }
    at_word(
        words,
        text,
        0,
        Problem::NoNumber {
            word: words.at(0),
            named: false,
        },
        None,
    )
}

/// The first word of a line that is no call which isn't of its kind.
fn find_spelling<'a>(form: Form, text: &'a [u8], words: &Words<'a>) -> Option<Found<'a>> {
    if let (Form::Image, None) = (form, Name::from_word(words.at(2))) {
        let expected = Some(Expected::Text("NAME, 1 to 32 letters, digits, - and _"));
        return Some(at_word(words, text, 2, Problem::NoName(words.at(2)), expected));
    }
    if let (Form::Context, None) = (form, number_from(words.at(1))) {
        let word = words.at(1);
        let expected = Some(Expected::Text("K, the number of the context: 0"));
        let problem = Problem::NoNumber { word, named: false };
        return Some(at_word(words, text, 1, problem, expected));
    }
    for field in fields_of(form) {
        let word = words.at(field.0);
        if number_from(word).is_none() {
            let problem = Problem::NoNumber { word, named: false };
            return Some(at_word(words, text, field.0, problem, expected_field(field)));
        }
    }
    if let Form::Mem = form {
        if !is_hex(words.at(3)) {
            let expected = Some(Expected::Text("HEX, pairs of hexadecimal digits"));
            return Some(at_word(words, text, 3, Problem::NoBytes(words.at(3)), expected));
        }
    }
    None
}

/// The first number that is outside its range.
fn find_range<'a>(past: Past, text: &'a [u8], words: &Words<'a>) -> Found<'a> {
    if let Some(call) = call_in(words) {
        for (at, kind) in call.kinds.iter().enumerate() {
            let place = at.saturating_add(2);
            let word = words.at(place);
            let (low, high) = range_of(*kind);
            if is_outside(argument_from(word), low, high) {
                return at_word(
                    words,
                    text,
                    place,
                    Problem::Outside(word),
                    expected_at(call, place),
                );
            }
        }
    }
    let (form, _) = form_of(words);
    if let Form::Context = form {
        if number_from(words.at(1)) != Some(past.contexts) {
            let expected = Some(Expected::Text("K, the number of contexts so far"));
            return at_word(words, text, 1, Problem::Outside(words.at(1)), expected);
        }
    }
    for field in fields_of(form) {
        let word = words.at(field.0);
        if is_outside(number_from(word), field.2, field.3) {
            return at_word(
                words,
                text,
                field.0,
                Problem::Outside(word),
                expected_field(field),
            );
        }
    }
    at_word(words, text, 0, Problem::Outside(words.at(0)), None)
}

fn is_outside(number: Option<i64>, low: i64, high: i64) -> bool {
    match number {
        Some(number) => number < low || high < number,
        None => false,
    }
}

/// The least and the greatest number that a script may write for an argument of a kind; own.
pub(crate) fn range_of(kind: ArgKind) -> (i64, i64) {
    match kind {
        ArgKind::Enum | ArgKind::Unsigned | ArgKind::Pointer => (0, 4_294_967_295),
        ArgKind::Int | ArgKind::Fixed => (-2_147_483_648, 2_147_483_647),
        ArgKind::Bool => (0, 255),
    }
}
