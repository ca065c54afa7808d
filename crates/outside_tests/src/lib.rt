//! Tests of what is read, written and put.
#![tactic(auto)]

#[cfg(test)]
mod outside;
