//! Why a script is refused. Which line comes to which fault is told by the definitions, and not here.

use thiserror::Error;

/// The first faulty line, from 1, and its fault.
#[derive(Clone, Copy, Debug, PartialEq, Eq, Error)]
#[error("line {line}: {fault}")]
pub struct ScriptError {
    pub line: u32,
    pub fault: ScriptFault,
}

/// What is wrong with a line, in the order of the tests; own.
#[derive(Clone, Copy, Debug, PartialEq, Eq, Error)]
pub enum ScriptFault {
    /// A byte is neither a tab nor one of 0x20 to 0x7E.
    #[error("NotText")]
    NotText,
    /// The first line that counts isn't `glscript 1`, or a `context` or `end` line stands too late or too early.
    #[error("BadHeader")]
    BadHeader,
    /// The first word begins no line, or the second is neither `mem`, `image` nor the name of a call.
    #[error("UnknownWord")]
    UnknownWord,
    /// There are too many words, or too few.
    #[error("WrongCount")]
    WrongCount,
    /// A word isn't a spelling of its kind: a number, in a call a name of one, bytes, or the name of an image.
    #[error("BadNumber")]
    BadNumber,
    /// A number is outside its range.
    #[error("OutOfRange")]
    OutOfRange,
    /// The line is of a context that isn't there.
    #[error("NoSuchContext")]
    NoSuchContext,
    /// A limit is passed at this line.
    #[error("TooMany {0}")]
    TooMany(Limit),
    /// No `end` came; the line is one more than there are.
    #[error("NoEnd")]
    NoEnd,
    /// A line that counts stands after `end`.
    #[error("AfterEnd")]
    AfterEnd,
}

/// The limit that is passed; own.
#[derive(Clone, Copy, Debug, PartialEq, Eq, Error)]
pub enum Limit {
    #[error("Contexts")]
    Contexts,
    #[error("Lines")]
    Lines,
    #[error("ImageBytes")]
    ImageBytes,
    #[error("UploadBytes")]
    UploadBytes,
    #[error("SourceBytes")]
    SourceBytes,
}

/// Why reading gives no script.
#[derive(Clone, Copy, Debug, PartialEq, Eq, Error)]
pub enum ReadRefusal {
    /// The script is faulty.
    #[error(transparent)]
    Bad(ScriptError),
    /// Memory was refused. The script may be without fault.
    #[error("no memory")]
    NoMemory,
}
