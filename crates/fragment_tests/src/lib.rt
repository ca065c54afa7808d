//! Tests of the frame, and of what fragments and Clear make of its cells.
#![tactic(auto)]

#[cfg(test)]
mod fragments;
