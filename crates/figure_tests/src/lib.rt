//! Tests of matrices and of triangles.
#![tactic(auto)]

#[cfg(test)]
mod raster;
#[cfg(test)]
mod transform;
#[cfg(test)]
mod transform_call;
