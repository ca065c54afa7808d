//! Scripts: what their lines say, or which line is faulty, and why.
#![tactic(auto)]

mod before;
mod body;
mod contexts;
mod cutting;
mod error;
mod heard;
mod hex;
mod line;
mod lines;
mod name;
mod number;
mod numbers;
mod reader;
mod script;
mod told;
mod uploads;
mod words;

pub use contexts::Contexts;
pub use error::{Limit, ReadRefusal, ScriptError, ScriptFault};
pub use hex::is_hex;
pub use lines::Lines;
pub use name::Name;
pub use number::{argument_from, decimal_from, number_from};
pub use reader::read;
pub use script::{Act, ContextSpec, Line, Script};
pub use words::next_word;
