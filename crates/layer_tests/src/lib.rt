//! Tests of the shadow and of rails. Each file has those of one crate.
#![tactic(auto)]

#[cfg(test)]
mod rail;
#[cfg(test)]
mod shadow;
