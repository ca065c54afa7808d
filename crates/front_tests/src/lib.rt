//! Tests of the front.
#![tactic(auto)]

#[cfg(test)]
mod front;
