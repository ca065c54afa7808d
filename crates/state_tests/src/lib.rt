//! Tests of private state, and of the events of calls.
#![tactic(auto)]

#[cfg(test)]
mod calls;
#[cfg(test)]
mod events;
#[cfg(test)]
mod matrices;
#[cfg(test)]
mod state;
