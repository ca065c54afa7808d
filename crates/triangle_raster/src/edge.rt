//! Points of the window and edges between them, as vectors of three numbers.
//! No division is made here: a point keeps its divisor.

ghost use Rattle.std.specs.Prelude.{◌≡◌, ◌≤◌, ◌^◌, ◌+ℤ◌, ◌-ℤ◌, ◌*ℤ◌, ◌<ℤ◌, ◌≤ℤ◌, ◌↔◌, ℤ, neg_ℤ, pos, false, IsTrue};
ghost use Rattle.triangle_raster.specs.Vertex.{IsCorner, IsView, IsWithin, IsFromTo, place_of, centre_of, edge_through, value_at, turned};
ghost use Rattle.triangle_raster.specs.Pixel.{inward, above_or};
ghost use Rattle.triangle_raster.specs.Held.{point_seen, edge_seen, passes_in, IsIn, IsNearPoint, IsNearCentre, IsNearEdge, IsSmallEdge, IsSpan};

use crate::arithmetic::{
    all_of, long_product, product, short_product, short_total, small_product, total,
};
use crate::span::{Span, first_not_below_zero, small_first_not_below_zero};
use crate::vertex::{Vertex, View};

/// A corner's point, (x / d, y / d) in pixels; d is twice the corner's w (16.16 fixed).
#[derive(Clone, Copy)]
pub struct Point {
    pub x: i64,
    pub y: i64,
    pub d: i64,
}

/// The coefficients of a point in the determinant of it and an edge's two ends.
#[derive(Clone, Copy)]
pub struct Edge {
    pub x: i128,
    pub y: i128,
    pub d: i128,
}

/// A side of the viewport and twice its corner.
fn stretched(side: i32, corner: i32) -> i32
    requires side { IsFromTo (pos 0) (pos 512) side }
    requires corner { IsWithin 1024 corner }
    ensures value { result ≡ side +ℤ pos 2 *ℤ corner }
    ensures near { IsWithin 2560 result }
{
    side + 2 * corner
}

/// One part of a corner's point: its coordinate times a side of the viewport, and its w times what the side and twice
/// the viewport's corner come to.
fn part(coordinate: i32, w: i32, side: i32, corner: i32) -> i64
    requires coordinate { IsWithin (2 ^ 27) coordinate }
    requires w { IsWithin (2 ^ 27) w }
    requires side { IsFromTo (pos 0) (pos 512) side }
    requires corner { IsWithin 1024 corner }
    ensures value { result ≡ coordinate *ℤ side +ℤ w *ℤ (side +ℤ pos 2 *ℤ corner) }
    ensures near { IsWithin (2 ^ 39) result }
{
    let span = stretched(side, corner);
    small_product(coordinate, side) + small_product(w, span)
}

/// Whether a number lies within another one of zero.
fn is_within(number: i128, most: i64) -> bool
    ensures { IsTrue result → (neg_ℤ most ≤ℤ number) × (number ≤ℤ most) }
{
    -i128::from(most) <= number && number <= i128::from(most)
}

impl Point {
    /// Where a corner stands in the window.
    pub fn of_corner(corner: &Vertex, view: &View) -> Self
        requires corner { IsCorner corner.now }
        requires view { IsView view.now }
        ensures point { point_seen result ≡ place_of corner.now view.now }
        ensures near { IsNearPoint result }
    {
        let w = corner.w;
        Point {
            x: part(corner.x, w, view.width, view.x),
            y: part(corner.y, w, view.height, view.y),
            d: small_product(2, w),
        }
    }

    /// The centre of the pixel in column x and row y.
    pub fn of_centre(x: i32, y: i32) -> Self
        requires x { IsFromTo (pos 0) (pos 256) x }
        requires y { IsFromTo (pos 0) (pos 256) y }
        ensures point { point_seen result ≡ centre_of x y }
        ensures near { IsNearCentre result }
    {
        Point {
            x: 2 * x as i64 + 1,
            y: 2 * y as i64 + 1,
            d: 2,
        }
    }
}

impl Edge {
    /// The edge from one point to another.
    pub fn between(a: &Point, b: &Point) -> Self
        requires from { IsNearPoint a.now }
        requires to { IsNearPoint b.now }
        ensures edge { edge_seen result ≡ edge_through (point_seen a.now) (point_seen b.now) }
        ensures near { IsNearEdge result }
    {
        Edge {
            x: product(a.y, b.d) - product(a.d, b.y),
            y: product(a.d, b.x) - product(a.x, b.d),
            d: product(a.x, b.y) - product(a.y, b.x),
        }
    }

    /// The edge as it is, or turned where delta is negative.
    pub fn inward(self, delta: i128) -> Self
        requires near { IsNearEdge self }
        ensures edge { edge_seen result ≡ inward delta (edge_seen self) }
        ensures near { IsNearEdge result }
    {
        if delta < 0 {
            Edge {
                x: -self.x,
                y: -self.y,
                d: -self.d,
            }
        } else {
            self
        }
    }

    /// The value of the edge at a point.
    pub fn at(&self, point: &Point) -> i128
        requires edge { IsNearEdge self.now }
        requires point { IsNearPoint point.now }
        ensures value { result ≡ value_at (edge_seen self.now) (point_seen point.now) }
        ensures at_a_corner { IsWithin (2 ^ 109) result }
        ensures at_a_centre { IsNearCentre point.now → IsWithin (2 ^ 81) result }
    {
        total(
            long_product(self.x, point.x),
            long_product(self.y, point.y),
            long_product(self.d, point.d),
        )
    }

    /// Whether its coefficients are so small that its values at centres fit in 64 bits.
    pub fn is_small(&self) -> bool
        requires { IsNearEdge self.now }
        ensures { IsTrue result → IsSmallEdge self.now }
    {
        all_of(
            is_within(self.x, 1125899906842624),
            is_within(self.y, 1125899906842624),
            is_within(self.d, 1152921504606846976),
        )
    }

    /// The value of a small edge at a centre.
    pub fn small_at(&self, point: &Point) -> i64
        requires edge { IsSmallEdge self.now }
        requires point { IsNearCentre point.now }
        ensures value { result ≡ value_at (edge_seen self.now) (point_seen point.now) }
        ensures near { IsWithin (2 ^ 62) result }
    {
        short_total(
            short_product(self.x, point.x),
            short_product(self.y, point.y),
            short_product(self.d, point.d),
        )
    }

    /// The columns of a span in which a small edge's test is passed, where its value in column 0 is this sum.
    pub fn small_narrowed(&self, sum: i64, span: Span) -> Span
        requires edge { IsSmallEdge self.now }
        requires sum { IsWithin (2 ^ 62) sum }
        requires span { IsSpan span }
        ensures span { IsSpan result }
        ensures end { result.to ≤ℤ span.to }
        ensures exact { (k : ℤ) → IsIn result k
            ↔ (IsIn span k × IsTrue (passes_in self.now sum k)) }
    {
        let across = self.x as i64;
        if across > 0 {
            span.starting(small_first_not_below_zero(sum, 2 * across))
        } else if across < 0 {
            span.ending(small_first_not_below_zero(-sum, -2 * across))
        } else if self.passes(i128::from(sum)) {
            span
        } else {
            Span {
                from: span.to,
                to: span.to,
            }
        }
    }

    /// The columns of a span in which the edge's test is passed, where its value in column 0 is this sum.
    pub fn narrowed(&self, sum: i128, span: Span) -> Span
        requires edge { IsNearEdge self.now }
        requires sum { IsWithin (2 ^ 81) sum }
        requires span { IsSpan span }
        ensures span { IsSpan result }
        ensures end { result.to ≤ℤ span.to }
        ensures exact { (k : ℤ) → IsIn result k
            ↔ (IsIn span k × IsTrue (passes_in self.now sum k)) }
    {
        if self.x > 0 {
            span.starting(first_not_below_zero(sum, 2 * self.x))
        } else if self.x < 0 {
            span.ending(first_not_below_zero(-sum, -2 * self.x))
        } else if self.passes(sum) {
            span
        } else {
            Span {
                from: span.to,
                to: span.to,
            }
        }
    }

    /// Whether a point at which the edge has this value passes its test.
    pub fn passes(&self, value: i128) -> bool
        ensures test { result ≡ above_or value (above_or self.now.x (above_or self.now.y false)) }
        ensures not_negative { IsTrue result → pos 0 ≤ℤ value }
    {
        value > 0 || (value == 0 && (self.x > 0 || (self.x == 0 && self.y > 0)))
    }
}
