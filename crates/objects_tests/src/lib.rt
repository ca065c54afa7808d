//! Tests of objects and events.
#![tactic(auto)]

#[cfg(test)]
mod events;
#[cfg(test)]
mod images;
