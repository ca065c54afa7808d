//! What may have been meant where a word is wrong. Nothing here decides whether it is.

use crate::calls::{is_call, is_left_out};
use crate::explaining::{Found, call_in};
use crate::near::{
    call_in_any_case, enumerant_in_any_case, is_enumerant, nearest_call, nearest_enumerant,
    nearest_of, text_of,
};
use crate::source::Words;
use crate::verdict::{Expected, Hint, Problem};
use gl_words::{ArgKind, number_of_enum, row_numbered};
use script_reader::number_from;
use std::alloc::{AllocError as NoMemory, Global};

/// Hints as they are found.
#[derive(Drop)]
pub(crate) struct Hints<'a> {
    alloc: Global,
    pub(crate) list: Vec<Hint<'a>>,
}

impl<'a> Hints<'a> {
    pub(crate) fn new(alloc: Global) -> Hints<'a> {
        Hints {
            alloc,
            list: Vec::new(alloc),
        }
    }

    fn add(&mut self, hint: Hint<'a>) -> Result<(), NoMemory> {
        self.list.push(hint)?;
        Ok(())
    }

    /// Adds the nearest name, if there is one, and says whether there was.
    fn add_near(&mut self, name: Option<&'static str>) -> Result<bool, NoMemory> {
        match name {
            Some(name) => {
                self.add(Hint::Near(name))?;
                Ok(true)
            }
            None => Ok(false),
        }
    }
}

/// Guesses what was meant at the place of a fault.
pub(crate) fn guess<'a>(
    hints: &mut Hints<'a>,
    found: &Found<'a>,
    text: &'a [u8],
    words: &Words<'a>,
) -> Result<(), NoMemory> {
    match found.problem {
        Problem::NoText(byte) => guess_byte(hints, byte, found.spot.before, text),
        Problem::NoHeader => guess_header(hints, words.at(0)),
        Problem::BeginsNoLine(word) => guess_line(hints, word),
        Problem::NoAct(word) => guess_act(hints, word),
        Problem::Count { wanted, .. } => guess_count(hints, words, wanted),
        Problem::NoNumber { word, named: true } => guess_argument(hints, word, found.expected),
        Problem::NoNumber { word, named: false } => guess_number(hints, word),
        Problem::NoName(word) => guess_name(hints, word),
        Problem::NoBytes(word) => guess_bytes(hints, word),
        Problem::Outside(word) => guess_range(
            hints,
            word,
            found.expected,
            call_in(words).is_some(),
        ),
        Problem::NoEnd => hints.add(Hint::AddEnd),
        Problem::LateContext
        | Problem::EarlyEnd
        | Problem::NoContext(_)
        | Problem::Limit(_)
        | Problem::BehindEnd => Ok(()),
    }
}

/// A byte order mark, the carriage return of another system, or a letter that isn't ASCII.
fn guess_byte<'a>(
    hints: &mut Hints<'a>,
    byte: u8,
    before: usize,
    text: &[u8],
) -> Result<(), NoMemory> {
    match text {
        [0xEF, 0xBB, 0xBF, ..] if before == 0 => hints.add(Hint::Mark { wide: false }),
        [0xFF, 0xFE, ..] | [0xFE, 0xFF, ..] if before == 0 => hints.add(Hint::Mark { wide: true }),
        _ if byte == b'\r' => hints.add(Hint::Return),
        _ if byte >= 0x80 => hints.add(Hint::Ascii),
        _ => Ok(()),
    }
}

fn guess_header<'a>(hints: &mut Hints<'a>, word: &'a [u8]) -> Result<(), NoMemory> {
    if is_comment(word) {
        return hints.add(Hint::Comment);
    }
    let near = nearest_of(hints.alloc, text_of(word), &["glscript"])?;
    if near.is_some() && word != b"glscript".as_slice() {
        hints.add_near(near)?;
    }
    Ok(())
}

/// Whether a word begins a comment of another language, or one of a script.
fn is_comment(word: &[u8]) -> bool {
    word.starts_with(b"#".as_slice())
        || word.starts_with(b"//".as_slice())
        || word.starts_with(b"/*".as_slice())
        || word.starts_with(b";".as_slice())
        || word.starts_with(b"--".as_slice())
}

/// The first word of a line.
fn guess_line<'a>(hints: &mut Hints<'a>, word: &'a [u8]) -> Result<(), NoMemory> {
    if is_comment(word) {
        return hints.add(Hint::Comment);
    }
    let name = before_bracket(text_of(word));
    if is_call(without_prefix(name, "gl")) || name == "mem" || name == "image" {
        return hints.add(Hint::Context);
    }
    let near = nearest_of(hints.alloc, name, &["context", "end"])?;
    hints.add_near(near)?;
    Ok(())
}

/// A name up to the bracket behind it, if there is one.
fn before_bracket(name: &str) -> &str {
    match name.split_once('(') {
        Some((name, _)) => name,
        None => name,
    }
}

/// A name without a prefix, or itself.
fn without_prefix<'a>(name: &'a str, prefix: &str) -> &'a str {
    match name.strip_prefix(prefix) {
        Some(rest) => rest,
        None => name,
    }
}

/// The second word of a body line.
fn guess_act<'a>(hints: &mut Hints<'a>, word: &'a [u8]) -> Result<(), NoMemory> {
    let whole = text_of(word);
    let name = before_bracket(whole);
    let bare = without_prefix(name, "gl");
    if bare.len() < name.len() && is_call(bare) {
        hints.add(Hint::Prefix {
            prefix: "gl",
            name: bare,
        })?;
    }
    if name.len() < whole.len() {
        hints.add(Hint::Punctuation)?;
    }
    if is_call(bare) {
        return Ok(());
    }
    if let Some(fixed) = fixed_form(bare) {
        return hints.add(Hint::Fixed(fixed));
    }
    if is_left_out(bare) {
        hints.add(Hint::LeftOut)?;
    } else if hints.add_near(call_in_any_case(bare))? {
        return Ok(());
    }
    let near = nearest_of(hints.alloc, bare, &["mem", "image"])?;
    if !hints.add_near(near)? {
        let near = nearest_call(hints.alloc, bare)?;
        hints.add_near(near)?;
    }
    Ok(())
}

/// The call that takes 16.16 fixed numbers where this one takes floats: its name ends with `x` in place of `f`, or has it
/// besides.
fn fixed_form(name: &str) -> Option<&'static str> {
    for id in 1..=u16::MAX {
        let row = row_numbered(id)?;
        if let Some(stem) = row.name.strip_suffix("x") {
            if name == stem || name.strip_suffix("f") == Some(stem) {
                return Some(row.name);
            }
        }
    }
    None
}

/// Too many words, or too few.
fn guess_count<'a>(
    hints: &mut Hints<'a>,
    words: &Words<'a>,
    wanted: usize,
) -> Result<(), NoMemory> {
    if words.count <= wanted {
        return Ok(());
    }
    if is_comment(words.at(wanted)) {
        return hints.add(Hint::Comment);
    }
    if words.first.iter().any(|word| word.bytes.contains(&b'|')) {
        let mut sum = Some(0);
        for word in words.first.iter().skip(2) {
            sum = add_bits(sum, word.bytes);
        }
        return hints.add(Hint::Bits(sum));
    }
    Ok(())
}

/// Adds the bits that a word names, with `|` between them.
fn add_bits(sum: Option<u32>, word: &[u8]) -> Option<u32> {
    let mut bits = sum?;
    for name in text_of(word).split('|') {
        if !name.is_empty() {
            bits |= number_of_enum(without_prefix(name, "GL_"))?;
        }
    }
    Some(bits)
}

/// A word that is to be an argument of a call.
fn guess_argument<'a>(
    hints: &mut Hints<'a>,
    word: &'a [u8],
    expected: Option<Expected>,
) -> Result<(), NoMemory> {
    if word.contains(&b'|') {
        return hints.add(Hint::Bits(add_bits(Some(0), word)));
    }
    let whole = text_of(word);
    let name = without_prefix(whole, "GL_");
    if let Some(hint) = word_of_c(name) {
        return hints.add(hint);
    }
    if name.len() < whole.len() && is_enumerant(name) {
        return hints.add(Hint::Prefix {
            prefix: "GL_",
            name,
        });
    }
    match name.as_bytes() {
        [b'0'..=b'9' | b'-' | b'+' | b'.', ..] => guess_digits(hints, name, expected),
        _ => guess_enumerant(hints, name),
    }
}

/// A word of C that stands for a number.
fn word_of_c(name: &str) -> Option<Hint<'static>> {
    if name.eq_ignore_ascii_case("TRUE") {
        Some(Hint::Word {
            word: "true",
            number: 1,
        })
    } else if name.eq_ignore_ascii_case("FALSE") {
        Some(Hint::Word {
            word: "false",
            number: 0,
        })
    } else if name.eq_ignore_ascii_case("NULL") {
        Some(Hint::Word {
            word: "no address",
            number: 0,
        })
    } else {
        None
    }
}

/// A name without its prefix.
fn guess_enumerant<'a>(hints: &mut Hints<'a>, name: &'a str) -> Result<(), NoMemory> {
    let bare = name.trim_end_matches(is_punctuation);
    if bare.len() < name.len() {
        return hints.add(Hint::Punctuation);
    }
    if hints.add_near(enumerant_in_any_case(name))? {
        return Ok(());
    }
    let near = nearest_enumerant(hints.alloc, name)?;
    if !hints.add_near(near)? {
        hints.add(Hint::Enumerant)?;
    }
    Ok(())
}

/// Whether a sign of C stands behind words.
fn is_punctuation(letter: char) -> bool {
    matches!(letter, ',' | ';' | '(' | ')' | '{' | '}' | '"')
}

/// A word that begins as a number does.
fn guess_digits<'a>(
    hints: &mut Hints<'a>,
    word: &'a str,
    expected: Option<Expected>,
) -> Result<(), NoMemory> {
    if word.trim_end_matches(is_punctuation).len() < word.len() {
        return hints.add(Hint::Punctuation);
    }
    if word.contains('.') {
        let fixed = match expected {
            Some(
                Expected::Argument {
                    kind: ArgKind::Fixed,
                    ..
                },
            ) => fixed_of(word),
            _ => None,
        };
        return hints.add(Hint::Fraction(fixed));
    }
    if word.starts_with("0X") || word.starts_with("+") || word.starts_with("-0x") {
        return hints.add(Hint::Sign);
    }
    if word.len() > 10 {
        return hints.add(Hint::Digits);
    }
    if word.ends_with('u') || word.ends_with('U') || word.ends_with('L') || word.ends_with('f') {
        return hints.add(Hint::Punctuation);
    }
    Ok(())
}

/// A decimal fraction as a 16.16 fixed number, rounded to the nearest; an `f` may stand behind it.
fn fixed_of(word: &str) -> Option<i64> {
    let word = word.trim_end_matches('f');
    let (negative, word) = match word.strip_prefix("-") {
        Some(rest) => (true, rest),
        None => (false, word),
    };
    let (whole, fraction) = word.split_once('.')?;
    if whole.len() > 5 || fraction.len() > 9 || (whole.is_empty() && fraction.is_empty()) {
        return None;
    }
    let mut number = 0i64;
    for digit in whole.bytes() {
        number = number.saturating_mul(10).saturating_add(value_of(digit)?);
    }
    let mut part = 0i64;
    let mut unit = 1i64;
    for digit in fraction.bytes() {
        part = part.saturating_mul(10).saturating_add(value_of(digit)?);
        unit = unit.saturating_mul(10);
    }
    let halves = part.saturating_mul(65536).saturating_add(unit / 2);
    let fixed = number
        .saturating_mul(65536)
        .saturating_add(halves.checked_div(unit)?);
    Some(if negative {
        0i64.saturating_sub(fixed)
    } else {
        fixed
    })
}

fn value_of(digit: u8) -> Option<i64> {
    if digit.is_ascii_digit() {
        Some(i64::from(digit - b'0'))
    } else {
        None
    }
}

/// A word that is to be a number in a line that is no call.
fn guess_number<'a>(hints: &mut Hints<'a>, word: &'a [u8]) -> Result<(), NoMemory> {
    let text = text_of(word);
    if is_enumerant(without_prefix(text, "GL_")) {
        return hints.add(Hint::CallsAlone);
    }
    guess_digits(hints, text, None)
}

fn guess_name<'a>(hints: &mut Hints<'a>, word: &'a [u8]) -> Result<(), NoMemory> {
    if word.len() > 32 {
        hints.add(Hint::Long(word.len()))?;
    }
    Ok(())
}

fn guess_bytes<'a>(hints: &mut Hints<'a>, word: &'a [u8]) -> Result<(), NoMemory> {
    match word {
        [b'0', b'x' | b'X', ..] => hints.add(Hint::NoHexPrefix),
        _ if word.iter().all(|byte| byte.is_ascii_hexdigit()) => hints.add(Hint::Odd(word.len())),
        _ => Ok(()),
    }
}

/// A number outside its range: one that is meant in two's complement.
fn guess_range<'a>(
    hints: &mut Hints<'a>,
    word: &'a [u8],
    expected: Option<Expected>,
    is_call: bool,
) -> Result<(), NoMemory> {
    match (expected, number_from(word)) {
        (
            Some(
                Expected::Argument {
                    kind: ArgKind::Int | ArgKind::Fixed,
                    ..
                },
            ),
            Some(number),
        ) if is_call && 2_147_483_648 <= number && number <= 4_294_967_295 => {
            hints.add(Hint::Signed(number - 4_294_967_296))
        }
        _ => Ok(()),
    }
}
