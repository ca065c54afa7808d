//! Why the program stops before its end, as text and as an exit status: those of glreplay.

ghost use Rattle.std.specs.Prelude.{◌≡◌};
ghost use Rattle.glwhy.specs.Status.{status_of};

use gl_outside::OutError;
use std::alloc::{AllocError, AllocFailed};
use std::{fmt, io};

/// Why the program stops.
#[derive(Drop)]
pub enum Stop {
    /// A word of the command line is no text.
    NoText,
    /// No script is named, and none comes on standard input, which is a terminal; the command.
    NoScript(&'static str),
    /// The script can't be read.
    Unread(io::Error),
    /// Standard output takes nothing more.
    Unwritten,
    NoMemory,
}

impl Stop {
    /// The exit status of a program that stops so.
    pub fn exit_code(&self) -> u8
        ensures { result ≡ status_of self.now }
    {
        match self {
            Stop::NoText | Stop::NoScript(_) => 2,
            Stop::Unread(_) => 3,
            Stop::Unwritten => 6,
            Stop::NoMemory => 7,
        }
    }
}

impl fmt::Display for Stop {
    fn fmt<W: fmt::Write>(&self, f: &mut fmt::Formatter<W>) -> fmt::Result {
        match self {
            Stop::NoText => f.write_str("glwhy: a word isn't UTF-8"),
            Stop::NoScript(command) => {
                write!(
                    f,
                    "glwhy: no script\n\nUsage: glwhy {command} [OPTIONS] [FILE]"
                )
            }
            Stop::Unread(error) => write!(f, "glwhy: {error}"),
            Stop::Unwritten => f.write_str("glwhy: standard output failed"),
            Stop::NoMemory => f.write_str("glwhy: no memory"),
        }
    }
}

impl From<AllocError> for Stop {
    fn from(_: AllocError) -> Self {
        Stop::NoMemory
    }
}

impl<T: Drop> From<AllocFailed<T>> for Stop {
    fn from(_: AllocFailed<T>) -> Self {
        Stop::NoMemory
    }
}

impl From<OutError> for Stop {
    fn from(error: OutError) -> Self {
        match error {
            OutError::Failed => Stop::Unwritten,
            OutError::NoMemory => Stop::NoMemory,
        }
    }
}
