//! Tests of the rail whose batches a worker carries out.
#![tactic(auto)]

#[cfg(test)]
mod batches;
#[cfg(test)]
mod doubles;
#[cfg(test)]
mod lent;
#[cfg(test)]
mod rail;
