//! Tests of a lock with a history.
#![tactic(auto)]

#[cfg(test)]
mod notes;
#[cfg(test)]
mod seats;
#[cfg(test)]
mod turn;
