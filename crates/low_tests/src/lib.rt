//! Tests of the crates of words, memory, tracked state and replies. Each file has those of one crate or of one matter.
#![tactic(auto)]

#[cfg(test)]
mod calls;
#[cfg(test)]
mod errors;
#[cfg(test)]
mod memory;
#[cfg(test)]
mod reads;
#[cfg(test)]
mod replies;
#[cfg(test)]
mod tracked;
#[cfg(test)]
mod words;
