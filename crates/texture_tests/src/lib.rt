//! Tests of textures: what is read of them, and what a texel makes of a fragment's colour.
#![tactic(auto)]

#[cfg(test)]
mod textures;
