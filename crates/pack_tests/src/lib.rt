//! Tests of batches, and of the slots that spell calls.
#![tactic(auto)]

#[cfg(test)]
mod pack;
