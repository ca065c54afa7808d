//! Tests of the pieces for draws, matrices, uploads, images, colours and deletions.
#![tactic(auto)]

#[cfg(test)]
mod captures;
