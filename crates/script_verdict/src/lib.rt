//! What is to be said of a script before it is carried out: that it is accepted, or why it is refused.
#![tactic(auto)]

mod calls;
mod explaining;
mod hints;
mod near;
mod source;
mod verdict;
mod verdict_text;

pub use explaining::{explain, refused};
pub use verdict::{Expected, Form, Hint, Problem, Refusal, Spot, Verdict};
pub use verdict_text::VerdictText;
