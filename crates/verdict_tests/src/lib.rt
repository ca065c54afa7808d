//! Tests of what is said of scripts before they are carried out.
#![tactic(auto)]

#[cfg(test)]
mod checks;
