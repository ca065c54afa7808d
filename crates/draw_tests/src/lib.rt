//! Tests of draws.
#![tactic(auto)]

#[cfg(test)]
mod cases;
#[cfg(test)]
mod drawings;
#[cfg(test)]
mod draws;
#[cfg(test)]
mod indexed;
#[cfg(test)]
mod small;
#[cfg(test)]
mod stores;
