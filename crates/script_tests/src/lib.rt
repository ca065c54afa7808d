//! Tests of the lines of scripts as they are run, and of what is printed.
#![tactic(auto)]

#[cfg(test)]
mod lines;
#[cfg(test)]
mod shown;
