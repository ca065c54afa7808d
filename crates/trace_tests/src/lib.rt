//! Tests of traces, and of their counts beside those of runs.
#![tactic(auto)]

#[cfg(test)]
mod random;
#[cfg(test)]
mod traces;
