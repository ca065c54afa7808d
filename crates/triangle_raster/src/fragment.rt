//! A fragment: what a triangle leaves at one pixel.

ghost use Rattle.std.specs.Prelude.{◌≡◌, ◌^◌, ◌+ℤ◌, ◌<ℤ◌, ◌≤ℤ◌, neg_ℤ, pos, All, IsTrue, Some};
ghost use Rattle.triangle_raster.specs.Vertex.{AreCorners, IsWithin};
ghost use Rattle.triangle_raster.specs.Pixel.{depth_of, is_kept, kept_fragment, means};
ghost use Rattle.triangle_raster.specs.Held.{depth_at, even_depth, sums_seen, AreNearSums, AreNotNegative};
ghost use Rattle.triangle_raster.specs.Nearby.{near_seen, AreSmallSums};

use crate::arithmetic::{all_of, short_quotient, small_quotient};
use crate::near::Near;
use crate::sums::Sums;
use crate::vertex::Vertex;

/// What a triangle leaves at a pixel: its column and row, its depth before DepthRange (0 the near plane, 65535 the far
/// one), and its ten values in the order of those of a corner (16.16 fixed). Section 3.5.1 of OpenGL ES 1.1.12.
#[derive(Clone, Copy, Debug, PartialEq, Eq)]
pub struct Fragment {
    pub x: i32,
    pub y: i32,
    pub depth: u16,
    pub values: [i32; 10],
}

/// Where a fragment lies, and its depth before DepthRange: what is known before its values are made. Own.
#[derive(Clone, Copy, Debug, PartialEq, Eq)]
pub struct Spot {
    pub x: i32,
    pub y: i32,
    pub depth: u16,
}

/// Whether w is above zero, and z lies from -w to w.
fn is_between(z: i128, w: i128) -> bool
    requires z { IsWithin (2 ^ 110) z }
    requires w { IsWithin (2 ^ 110) w }
    ensures test { result ≡ is_kept z w }
    ensures between { IsTrue result → (pos 0 <ℤ w) × (neg_ℤ w ≤ℤ z) × (z ≤ℤ w) }
{
    all_of(w > 0, -w <= z, z <= w)
}

/// The depth of a point with these sums of z and w.
fn depth(z: i128, w: i128) -> u16
    requires near { IsWithin (2 ^ 110) w }
    requires positive { pos 0 <ℤ w }
    requires from_near { neg_ℤ w ≤ℤ z }
    requires to_far { z ≤ℤ w }
    ensures { result ≡ depth_of z w }
{
    short_quotient((z + w) * 65535, 2 * w) as u16
}

/// The means of the ten values of three corners.
fn values(a: &[i32; 10], b: &[i32; 10], c: &[i32; 10], sums: &Sums) -> [i32; 10]
    requires a { All (IsWithin (2 ^ 27)) a.now }
    requires b { All (IsWithin (2 ^ 27)) b.now }
    requires c { All (IsWithin (2 ^ 27)) c.now }
    requires sums { AreNearSums sums.now }
    requires not_negative { AreNotNegative sums.now }
    requires some { pos 0 <ℤ (sums.now.one +ℤ sums.now.two +ℤ sums.now.three) }
    ensures { result ≡ means (sums_seen sums.now) a.now b.now c.now }
{
    match Near::of_sums(sums) {
        Some(near) => near_values(a, b, c, &near),
        None => far_values(a, b, c, sums),
    }
}

/// The same by weights of 64 bits.
fn near_values(a: &[i32; 10], b: &[i32; 10], c: &[i32; 10], near: &Near) -> [i32; 10]
    requires a { All (IsWithin (2 ^ 27)) a.now }
    requires b { All (IsWithin (2 ^ 27)) b.now }
    requires c { All (IsWithin (2 ^ 27)) c.now }
    requires sums { AreSmallSums near.now }
    ensures { result ≡ means (near_seen near.now) a.now b.now c.now }
{
    let mut values = [0; 10];
    for k in 0..10 {
        values[k] = near.mean(a[k], b[k], c[k]);
    }
    values
}

/// The same by weights of 128 bits.
fn far_values(a: &[i32; 10], b: &[i32; 10], c: &[i32; 10], sums: &Sums) -> [i32; 10]
    requires a { All (IsWithin (2 ^ 27)) a.now }
    requires b { All (IsWithin (2 ^ 27)) b.now }
    requires c { All (IsWithin (2 ^ 27)) c.now }
    requires sums { AreNearSums sums.now }
    requires not_negative { AreNotNegative sums.now }
    requires some { pos 0 <ℤ (sums.now.one +ℤ sums.now.two +ℤ sums.now.three) }
    ensures { result ≡ means (sums_seen sums.now) a.now b.now c.now }
{
    let mut values = [0; 10];
    for k in 0..10 {
        values[k] = sums.mean(a[k], b[k], c[k]);
    }
    values
}

/// The depth of a covered point with these weights, or None where it isn't kept.
pub fn depth_at(corners: &[Vertex; 3], sums: &Sums) -> Option<u16>
    requires corners { AreCorners corners.now }
    requires sums { AreNearSums sums.now }
    ensures { result ≡ depth_at corners.now (sums_seen sums.now) }
{
    let z = sums.weighted(corners[0].z, corners[1].z, corners[2].z);
    let w = sums.weighted(corners[0].w, corners[1].w, corners[2].w);
    if is_between(z, w) {
        Some(depth(z, w))
    } else {
        None
    }
}

/// Whether a corner's w is above zero, and its z lies from -w to w.
fn is_corner_between(z: i32, w: i32) -> bool
    requires z { IsWithin (2 ^ 27) z }
    requires w { IsWithin (2 ^ 27) w }
    ensures test { result ≡ is_kept z w }
    ensures between { IsTrue result → (pos 0 <ℤ w) × (neg_ℤ w ≤ℤ z) × (z ≤ℤ w) }
{
    all_of(w > 0, -w <= z, z <= w)
}

/// The depth of a corner.
fn corner_depth(z: i32, w: i32) -> u16
    requires near { IsWithin (2 ^ 27) w }
    requires positive { pos 0 <ℤ w }
    requires from_near { neg_ℤ w ≤ℤ z }
    requires to_far { z ≤ℤ w }
    ensures { result ≡ depth_of z w }
{
    small_quotient((z as i64 + w as i64) * 65535, 2 * w as i64) as u16
}

/// The depth of the covered points of corners with one z and one w, or None where they aren't kept.
pub fn even_depth(z: i32, w: i32) -> Option<u16>
    requires z { IsWithin (2 ^ 27) z }
    requires w { IsWithin (2 ^ 27) w }
    ensures { result ≡ even_depth z w }
{
    if is_corner_between(z, w) {
        Some(corner_depth(z, w))
    } else {
        None
    }
}

/// What is left at a covered point with these weights, which is kept at this depth.
#[inline(never)]
pub fn kept_at(corners: &[Vertex; 3], sums: &Sums, x: i32, y: i32, depth: u16) -> Fragment
    requires corners { AreCorners corners.now }
    requires sums { AreNearSums sums.now }
    requires not_negative { AreNotNegative sums.now }
    requires kept { depth_at corners.now (sums_seen sums.now) ≡ Some depth }
    ensures { Some result ≡ kept_fragment corners.now (sums_seen sums.now) x y }
{
    Fragment {
        x,
        y,
        depth,
        values: values(
            &corners[0].values,
            &corners[1].values,
            &corners[2].values,
            sums,
        ),
    }
}

/// What is left at a covered point with these weights, or None where it isn't kept.
pub fn kept(corners: &[Vertex; 3], sums: &Sums, x: i32, y: i32) -> Option<Fragment>
    requires corners { AreCorners corners.now }
    requires sums { AreNearSums sums.now }
    requires not_negative { AreNotNegative sums.now }
    ensures { result ≡ kept_fragment corners.now (sums_seen sums.now) x y }
{
    match depth_at(corners, sums) {
        Some(depth) => Some(kept_at(corners, sums, x, y, depth)),
        None => None,
    }
}
