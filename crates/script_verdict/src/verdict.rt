//! What is said of a script before it is carried out: that it is accepted, or its first fault, as compilers tell one. How a
//! fault is worded is told in `verdict_text.rt`.

use gl_words::ArgKind;
use script_reader::ScriptError;

/// What is said of the bytes of a script; own.
#[derive(Drop)]
pub enum Verdict<'a> {
    /// It is one: how many lines it has, those that say nothing included, and how many of them are contexts and calls.
    Accepted {
        lines: u64,
        contexts: u64,
        calls: u64,
    },
    Refused(Refusal<'a>),
}

/// The first fault of a script; own.
#[derive(Drop)]
pub struct Refusal<'a> {
    /// The line and the fault, as the reader tells them.
    pub error: ScriptError,
    /// The line without its end. None where the script is too short to have it.
    pub line: Option<&'a [u8]>,
    pub spot: Spot,
    pub problem: Problem<'a>,
    pub expected: Option<Expected>,
    /// What was meant, in the order in which it is told.
    pub hints: Vec<Hint<'a>>,
}

/// A place in a line: how many bytes stand before it, and how many it has; own.
#[derive(Clone, Copy, Debug, PartialEq, Eq)]
pub struct Spot {
    pub before: usize,
    pub len: usize,
}

/// What is wrong there; own.
#[derive(Clone, Copy)]
pub enum Problem<'a> {
    /// A byte is no text.
    NoText(u8),
    /// The first line that counts is another than `glscript 1`.
    NoHeader,
    /// A `context` line stands behind a line of a context.
    LateContext,
    /// `end` stands before any `context` line.
    EarlyEnd,
    /// The first word begins no line.
    BeginsNoLine(&'a [u8]),
    /// The second word is no act of a context.
    NoAct(&'a [u8]),
    /// So many words stand where a form has another number of them.
    Count {
        form: Form,
        wanted: usize,
        found: usize,
    },
    /// A word that is to be a number is none; in a call it is no name of one either.
    NoNumber {
        word: &'a [u8],
        named: bool,
    },
    /// A word isn't one to 32 letters, digits, `-` and `_`.
    NoName(&'a [u8]),
    /// A word isn't pairs of hexadecimal digits.
    NoBytes(&'a [u8]),
    /// A number is outside its range.
    Outside(&'a [u8]),
    /// A line is of a context that isn't there.
    NoContext(&'a [u8]),
    /// A limit is passed.
    Limit(&'static str),
    /// The last line that counts isn't `end`.
    NoEnd,
    /// A line that counts stands behind `end`.
    BehindEnd,
}

/// What words a line has; own.
#[derive(Clone, Copy)]
pub enum Form {
    Context,
    End,
    Body,
    Mem,
    Image,
    /// A call with its name.
    Call(&'static str),
}

/// What was expected at a word; own.
#[derive(Clone, Copy)]
pub enum Expected {
    /// An argument of a call, from 1, of a kind.
    Argument {
        at: usize,
        call: &'static str,
        kind: ArgKind,
    },
    /// A number of a line other than a call, by its name, from low to high.
    Number {
        what: &'static str,
        low: i64,
        high: i64,
    },
    /// What a text says.
    Text(&'static str),
}

/// What may have been meant; own.
#[derive(Clone, Copy)]
pub enum Hint<'a> {
    /// Names stand without their prefix, as this one would.
    Prefix { prefix: &'static str, name: &'a str },
    /// Bits are written as one number, their sum where each is known.
    Bits(Option<u32>),
    /// A fraction as 16.16 fixed, where the argument is such a number.
    Fraction(Option<i64>),
    /// The nearest name.
    Near(&'static str),
    /// A truth value or no address, by its number.
    Word { word: &'static str, number: u8 },
    /// A call that this profile leaves out.
    LeftOut,
    /// The call that takes 16.16 fixed numbers in place of floats.
    Fixed(&'static str),
    /// A sign or a letter of C.
    Punctuation,
    /// A comment stands in a line of its own.
    Comment,
    /// The number of a body line's context is missing before a word.
    Context,
    /// A byte order mark, of UTF-8 or of UTF-16.
    Mark { wide: bool },
    /// A line ends with CR alone, or with two of them.
    Return,
    /// Bytes of another alphabet.
    Ascii,
    /// An odd number of digits: so many.
    Odd(usize),
    /// Bytes are spelled without `0x`.
    NoHexPrefix,
    /// A number has at most 10 decimal or 8 hexadecimal digits.
    Digits,
    /// `0x` in a small letter, no sign but `-`, which stands with decimal digits alone.
    Sign,
    /// An enumerant that has no name here is written as its number.
    Enumerant,
    /// The number that is meant in two's complement, as a signed one.
    Signed(i64),
    /// A name of an image is longer than 32 bytes: so long.
    Long(usize),
    /// Only names in calls stand for numbers.
    CallsAlone,
    /// The last line is to be `end`.
    AddEnd,
}
