//! Tests of vertices, and of which of them make triangles.
#![tactic(auto)]

#[cfg(test)]
mod stores;
#[cfg(test)]
mod triangles;
#[cfg(test)]
mod vertices;
