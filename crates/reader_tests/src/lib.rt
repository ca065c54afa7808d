//! Tests of scripts as they are read.
#![tactic(auto)]

#[cfg(test)]
mod reader;
