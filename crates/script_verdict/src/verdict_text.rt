//! A verdict as text, in the form in which compilers tell a fault.

use crate::source::part;
use crate::verdict::{Expected, Form, Hint, Problem, Refusal, Spot, Verdict};
use gl_words::ArgKind;
use std::fmt;

/// A verdict beside the name of its file, without the last line end; own.
#[derive(Clone, Copy)]
pub struct VerdictText<'a> {
    pub file: &'a str,
    pub verdict: &'a Verdict<'a>,
}

impl fmt::Display for VerdictText<'_> {
    fn fmt<W: fmt::Write>(&self, f: &mut fmt::Formatter<W>) -> fmt::Result {
        match self.verdict {
            Verdict::Accepted {
                lines,
                contexts,
                calls,
            } => {
                f.write_str("accepted: ")?;
                write_count(f, *lines, "line")?;
                f.write_str(", ")?;
                write_count(f, *contexts, "context")?;
                f.write_str(", ")?;
                write_count(f, *calls, "call")
            }
            Verdict::Refused(refusal) => write_refusal(f, self.file, refusal),
        }
    }
}

/// Writes how many of something there are, of one without the plural's `s`.
pub(crate) fn write_count<W: fmt::Write>(
    f: &mut fmt::Formatter<W>,
    count: u64,
    noun: &str,
) -> fmt::Result {
    let plural = if count == 1 { "" } else { "s" };
    write!(f, "{count} {noun}{plural}")
}

fn write_refusal<W: fmt::Write>(
    f: &mut fmt::Formatter<W>,
    file: &str,
    refusal: &Refusal<'_>,
) -> fmt::Result {
    let line = refusal.error.line;
    let column = refusal.spot.before.saturating_add(1);
    let fault = refusal.error.fault;
    write!(f, "{file}:{line}:{column}: {fault}: ")?;
    write_problem(f, refusal.problem)?;
    match refusal.line {
        Some(text) => write_excerpt(f, line, text, refusal.spot, refusal.expected)?,
        None => write_missing(f, refusal.expected)?,
    }
    for hint in refusal.hints.iter() {
        f.write_str("\n  = hint: ")?;
        write_hint(f, *hint)?;
    }
    Ok(())
}

fn write_missing<W: fmt::Write>(
    f: &mut fmt::Formatter<W>,
    expected: Option<Expected>,
) -> fmt::Result {
    if let Some(expected) = expected {
        f.write_str("\n  = expected: ")?;
        write_expected(f, expected)?;
    }
    Ok(())
}

/// How many bytes of a line are shown before the place of a fault, and from there on.
const BEFORE: usize = 80;

const BEHIND: usize = 80;

/// Writes the line with a caret under each byte of the place, and what was expected there. Of a long line a part is shown.
fn write_excerpt<W: fmt::Write>(
    f: &mut fmt::Formatter<W>,
    number: u32,
    text: &[u8],
    spot: Spot,
    expected: Option<Expected>,
) -> fmt::Result {
    let from = spot.before.saturating_sub(BEFORE);
    let to = spot.before.saturating_add(BEHIND).min(text.len());
    let margin = digits_of(number);
    write_blanks(f, margin, "\n")?;
    write!(f, " |\n{number} | ")?;
    let cut = from > 0;
    if cut {
        f.write_str("...")?;
    }
    write_shown(f, part(text, from, to))?;
    if to < text.len() {
        f.write_str("...")?;
    }
    write_blanks(f, margin, "\n")?;
    f.write_str(" | ")?;
    write_blanks(
        f,
        spot.before.saturating_sub(from),
        if cut { "   " } else { "" },
    )?;
    for _ in 0..spot.len.max(1).min(BEHIND) {
        f.write_str("^")?;
    }
    if let Some(expected) = expected {
        f.write_str(" expected ")?;
        write_expected(f, expected)?;
    }
    Ok(())
}

/// How many decimal digits a number has.
fn digits_of(number: u32) -> usize {
    let mut digits = 1usize;
    let mut least = 10u64;
    for _ in 0..9 {
        if u64::from(number) >= least {
            digits = digits.saturating_add(1);
        }
        least = least.saturating_mul(10);
    }
    digits
}

/// Writes a text, and so many blanks behind it.
fn write_blanks<W: fmt::Write>(
    f: &mut fmt::Formatter<W>,
    count: usize,
    front: &str,
) -> fmt::Result {
    f.write_str(front)?;
    for _ in 0..count {
        f.write_str(" ")?;
    }
    Ok(())
}

/// Writes bytes as one column each: a tab as a blank, what is no text as `?`.
fn write_shown<W: fmt::Write>(f: &mut fmt::Formatter<W>, bytes: &[u8]) -> fmt::Result {
    for byte in bytes {
        let shown = match *byte {
            b'\t' => ' ',
            b' '..=b'~' => char::from(*byte),
            _ => '?',
        };
        write!(f, "{shown}")?;
    }
    Ok(())
}

/// The longest part of a word that is shown.
const SHOWN: usize = 48;

/// Writes a word in quotes; of a long one its beginning.
fn write_word<W: fmt::Write>(f: &mut fmt::Formatter<W>, word: &[u8]) -> fmt::Result {
    f.write_str("'")?;
    write_shown(f, part(word, 0, SHOWN))?;
    f.write_str(if word.len() > SHOWN { "..'" } else { "'" })
}

fn write_problem<W: fmt::Write>(f: &mut fmt::Formatter<W>, problem: Problem<'_>) -> fmt::Result {
    match problem {
        Problem::NoText(byte) => write!(f, "the byte 0x{byte:02X} is no text"),
        Problem::NoHeader => f.write_str("the script doesn't begin with 'glscript 1'"),
        Problem::LateContext => f.write_str("a context line stands behind a line of a context"),
        Problem::EarlyEnd => f.write_str("'end' stands before any context line"),
        Problem::BeginsNoLine(word) => {
            write_word(f, word)?;
            f.write_str(" begins no line")
        }
        Problem::NoAct(word) => {
            write_word(f, word)?;
            f.write_str(" is no call, and neither mem nor image")
        }
        Problem::Count {
            form,
            wanted,
            found,
        } => write_form(f, form, wanted, found),
        Problem::NoNumber { word, named } => {
            write_word(f, word)?;
            f.write_str(if named {
                " is no number and no known name"
            } else {
                " is no number"
            })
        }
        Problem::NoName(word) => {
            write_word(f, word)?;
            f.write_str(" is no name of an image")
        }
        Problem::NoBytes(word) => {
            write_word(f, word)?;
            f.write_str(" is no pairs of hexadecimal digits")
        }
        Problem::Outside(word) => {
            write_word(f, word)?;
            f.write_str(" is outside its range")
        }
        Problem::NoContext(word) => {
            f.write_str("there is no context ")?;
            write_word(f, word)
        }
        Problem::Limit(text) => f.write_str(text),
        Problem::NoEnd => f.write_str("the script has no line 'end'"),
        Problem::BehindEnd => f.write_str("a line stands behind 'end'"),
    }
}

/// Writes how many words stand where a form has another number of them.
fn write_form<W: fmt::Write>(
    f: &mut fmt::Formatter<W>,
    form: Form,
    wanted: usize,
    found: usize,
) -> fmt::Result {
    if let Form::Call(name) = form {
        write!(f, "{name} takes ")?;
        write_count(f, wanted.saturating_sub(2) as u64, "argument")?;
        let stand = found.saturating_sub(2);
        return write_stand(f, stand);
    }
    match form {
        Form::Context => f.write_str("a context line has ")?,
        Form::End => f.write_str("the end has ")?,
        Form::Mem => f.write_str("a mem line has ")?,
        Form::Image => f.write_str("an image line has ")?,
        _ => f.write_str("a line of a context has at least ")?,
    }
    write_count(f, wanted as u64, "word")?;
    write_stand(f, found)
}

fn write_stand<W: fmt::Write>(f: &mut fmt::Formatter<W>, count: usize) -> fmt::Result {
    if count == 1 {
        f.write_str(", and 1 stands here")
    } else {
        write!(f, ", and {count} stand here")
    }
}

fn write_expected<W: fmt::Write>(f: &mut fmt::Formatter<W>, expected: Expected) -> fmt::Result {
    match expected {
        Expected::Argument { at, call, kind } => {
            let kind = kind_text(kind);
            write!(f, "argument {at} of {call}, {kind}")
        }
        Expected::Number { what, low, high } => write!(f, "{what}, a number from {low} to {high}"),
        Expected::Text(text) => f.write_str(text),
    }
}

/// A kind of arguments with its range.
fn kind_text(kind: ArgKind) -> &'static str {
    match kind {
        ArgKind::Enum => "an enumerant: a name, or a number from 0 to 4294967295",
        ArgKind::Unsigned => "an unsigned number, from 0 to 4294967295",
        ArgKind::Int => "a signed number, from -2147483648 to 2147483647",
        ArgKind::Fixed => "a 16.16 fixed number, from -2147483648 to 2147483647",
        ArgKind::Bool => "a truth value: 0, or 1 to 255",
        ArgKind::Pointer => "an address in client memory, from 0 to 4294967295",
    }
}

fn write_hint<W: fmt::Write>(f: &mut fmt::Formatter<W>, hint: Hint<'_>) -> fmt::Result {
    match hint {
        Hint::Prefix { prefix, name } => write!(f, "names stand without {prefix}: {name}"),
        Hint::Bits(Some(sum)) => { write!(f, "bits are written as one number, here 0x{sum:x}") }
        Hint::Fraction(Some(fixed)) => {
            write!(
                f,
                "1.0 is 65536 in 16.16 fixed numbers, and this is {fixed}"
            )
        }
        Hint::Near(name) => write!(f, "{name} is near"),
        Hint::Word { word, number } => write!(f, "{word} is written as {number}"),
        Hint::Fixed(name) => write!(f, "floats are left out; {name} takes 16.16 fixed numbers"),
        Hint::Odd(digits) => { write!(f, "two digits spell a byte, and {digits} stand here") }
        Hint::Signed(number) => write!(f, "as a signed number of 32 bits this is {number}"),
        Hint::Long(len) => write!(f, "it has {len} bytes, and may have 32"),
        _ => f.write_str(plain_hint(hint)),
    }
}

/// The text of a hint that holds nothing.
fn plain_hint(hint: Hint<'_>) -> &'static str {
    match hint {
        Hint::Bits(_) => "bits are written as one number, their sum",
        Hint::Fraction(_) => "numbers have no fraction; in 16.16 fixed numbers 1.0 is 65536",
        Hint::LeftOut => "a call of OpenGL ES that this profile leaves out",
        Hint::Punctuation => "words stand without brackets, commas, semicolons and letters of C",
        Hint::Comment => "a comment has a line of its own, which begins with #",
        Hint::Context => "a line of a context begins with its number, 0",
        Hint::Mark { wide: false } => {
            "the file begins with a byte order mark; save it as UTF-8 without one"
        }
        Hint::Mark { .. } => "the file is UTF-16; save it as ASCII, or as UTF-8 without a mark",
        Hint::Return => "lines end with LF, or with CR and LF",
        Hint::Ascii => "only ASCII is text here, in comments too",
        Hint::NoHexPrefix => "bytes are spelled without 0x",
        Hint::Digits => "a number has at most 10 decimal digits, or 8 hexadecimal ones behind 0x",
        Hint::Sign => "only a minus stands before decimal digits, and 0x is written small",
        Hint::Enumerant =>
            "an enumerant without a name here is written as its number in the header GLES/gl.h",
        Hint::CallsAlone => "only an argument of a call may be a name",
        Hint::AddEnd => "add a last line: end",
        _ => "",
    }
}
