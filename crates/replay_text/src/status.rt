//! How a run ends. What a program prints and which number it ends with is told here, and nowhere else.

ghost use Rattle.std.specs.Prelude.{◌≡◌, Some};
ghost use Rattle.replay_text.specs.Status.{exit_code_of, fault_text, limit_text, status_text};

use script_reader::{Limit, ScriptError, ScriptFault};
use std::fmt;

/// How a run ends; own.
#[derive(Clone, Copy, Debug, PartialEq, Eq)]
pub enum Status {
    Ok,
    /// The words are no command.
    BadWords,
    ReadFault,
    BadScript(ScriptError),
    ShelfFault {
        /// How many images were stored before.
        stored: u64,
    },
    WriteFault,
    NoMemory,
}

/// The exit status of a program that ends so: 0, or 2 to 7; own.
pub fn exit_code(status: &Status) -> u8
    ensures { result ≡ exit_code_of status.now }
{
    match status {
        Status::Ok => 0,
        Status::BadWords => 2,
        Status::ReadFault => 3,
        Status::BadScript(_) => 4,
        Status::ShelfFault { .. } => 5,
        Status::WriteFault => 6,
        Status::NoMemory => 7,
    }
}

/// The name of a fault. The limit that is passed stands behind it.
fn fault_name(fault: &ScriptFault) -> &'static str
    ensures { result.now ≡ fault_text fault.now }
{
    match fault {
        ScriptFault::NotText => "NotText",
        ScriptFault::BadHeader => "BadHeader",
        ScriptFault::UnknownWord => "UnknownWord",
        ScriptFault::WrongCount => "WrongCount",
        ScriptFault::BadNumber => "BadNumber",
        ScriptFault::OutOfRange => "OutOfRange",
        ScriptFault::NoSuchContext => "NoSuchContext",
        ScriptFault::TooMany(limit) => limit_name(limit),
        ScriptFault::NoEnd => "NoEnd",
        ScriptFault::AfterEnd => "AfterEnd",
    }
}

/// The name of a limit that is passed.
fn limit_name(limit: &Limit) -> &'static str
    ensures { result.now ≡ limit_text limit.now }
{
    match limit {
        Limit::Contexts => "TooMany Contexts",
        Limit::Lines => "TooMany Lines",
        Limit::ImageBytes => "TooMany ImageBytes",
        Limit::UploadBytes => "TooMany UploadBytes",
        Limit::SourceBytes => "TooMany SourceBytes",
    }
}

impl fmt::Display for Status {
    ghost use Rattle.std.specs.Prelude.{Some};
    ghost use Rattle.replay_text.specs.Status.{status_text};

    ghost output = { λ status. Some (status_text status) };

    #[tactic(auto, unfolding(crate::specs::Status::status_text))]
    fn fmt<W: fmt::Write>(&self, f: &mut fmt::Formatter<W>) -> fmt::Result {
        match self {
            Status::Ok => write!(f, "glreplay: done"),
            Status::BadWords => write!(f, "glreplay: bad words"),
            Status::ReadFault => write!(f, "glreplay: read fault"),
            Status::BadScript(error) => {
                let line = error.line;
                let fault = fault_name(&error.fault);
                write!(f, "glreplay: line {line}: {fault}")
            }
            Status::ShelfFault { stored } => {
                write!(f, "glreplay: shelf fault after {stored} images")
            }
            Status::WriteFault => write!(f, "glreplay: write fault"),
            Status::NoMemory => write!(f, "glreplay: no memory"),
        }
    }
}
