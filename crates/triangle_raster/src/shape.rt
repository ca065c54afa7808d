//! A triangle with its edges, and what they say of a point.

ghost use Rattle.std.specs.Prelude.{◌≡◌, ◌≤◌, ◌^◌, ℤ, ◌+ℤ◌, ◌*ℤ◌, ◌<ℤ◌, ◌≤ℤ◌, ◌↔◌, pos, IsNone, IfSome, IsTrue};
ghost use Rattle.triangle_raster.specs.Vertex.{AreCorners, IsView, IsFromTo};
ghost use Rattle.triangle_raster.specs.Pixel.{delta_of, is_covered, pixel_of};
ghost use Rattle.triangle_raster.specs.Held.{AreNearSums, AreNotNegative, AreSumsAt, IsCoveredAmong, IsIn, IsLevel, IsShape, IsSpan, IsDepthBefore, depth_at, sums_seen};

use crate::arithmetic::{all_of, stepped};
use crate::edge::{Edge, Point};
use crate::fragment::{Fragment, depth_at, kept};
use crate::span::Span;
use crate::sums::Sums;
use crate::vertex::{Vertex, View};

/// A triangle whose corners don't stand on a line, with its edges turned inward.
#[derive(Clone, Copy)]
pub struct Shape {
    pub corners: [Vertex; 3],
    pub view: View,
    pub one: Edge,
    pub two: Edge,
    pub three: Edge,
    pub counter_clockwise: bool,
    pub small: bool,
}

impl Shape {
    /// None where the corners stand on a line.
    pub fn new(corners: &[Vertex; 3], view: View) -> Option<Self>
        requires corners { AreCorners corners.now }
        requires view { IsView view }
        ensures flat { IsNone result ↔ (delta_of corners.now view ≡ pos 0) }
        ensures shape { IfSome result IsShape }
        ensures corners { IfSome result (λ s. s.corners ≡ corners.now) }
        ensures view { IfSome result (λ s. s.view ≡ view) }
    {
        let first = Point::of_corner(&corners[0], &view);
        let second = Point::of_corner(&corners[1], &view);
        let third = Point::of_corner(&corners[2], &view);
        let one = Edge::between(&second, &third);
        let two = Edge::between(&third, &first);
        let three = Edge::between(&first, &second);
        let delta = one.at(&first);
        if delta == 0 {
            return None;
        }
        let first_edge = one.inward(delta);
        let second_edge = two.inward(delta);
        let third_edge = three.inward(delta);
        Some(Shape {
            corners: *corners,
            view,
            one: first_edge,
            two: second_edge,
            three: third_edge,
            counter_clockwise: delta > 0,
            small: all_of(
                first_edge.is_small(),
                second_edge.is_small(),
                third_edge.is_small(),
            ),
        })
    }

    /// The values of the edges at the centre of the pixel in column x and row y, by multiplication.
    pub fn sums_at(&self, x: i32, y: i32) -> Sums
        requires shape { IsShape self.now }
        requires x { IsFromTo (pos 0) (pos 256) x }
        requires y { IsFromTo (pos 0) (pos 256) y }
        ensures sums { AreSumsAt self.now x y result }
        ensures near { AreNearSums result }
    {
        let centre = Point::of_centre(x, y);
        Sums {
            one: self.one.at(&centre),
            two: self.two.at(&centre),
            three: self.three.at(&centre),
        }
    }

    /// The columns in which the triangle covers the centre, out of so many from the one with these sums on.
    fn span(&self, sums: &Sums, count: u32) -> Span
        requires shape { IsShape self.now }
        requires near { AreNearSums sums.now }
        requires count { count ≤ 256 }
        ensures span { IsSpan result }
        ensures end { result.to ≤ℤ pos count }
        ensures exact { (x y : ℤ) → AreSumsAt self.now x y sums.now
            → (k : ℤ) → IsIn result k ↔ IsCoveredAmong self.now x y count k }
    {
        let all = Span {
            from: 0,
            to: count as i32,
        };
        let one = self.one.narrowed(sums.one, all);
        let two = self.two.narrowed(sums.two, one);
        self.three.narrowed(sums.three, two)
    }

    /// The same out of so many from column x of row y on, where the edges are small.
    fn small_span(&self, x: i32, y: i32, count: u32) -> Span
        requires shape { IsShape self.now }
        requires small { IsTrue self.now.small }
        requires x { IsFromTo (pos 0) (pos 256) x }
        requires y { IsFromTo (pos 0) (pos 256) y }
        requires count { count ≤ 256 }
        ensures span { IsSpan result }
        ensures end { result.to ≤ℤ pos count }
        ensures exact { (k : ℤ) → IsIn result k ↔ IsCoveredAmong self.now x y count k }
    {
        let centre = Point::of_centre(x, y);
        let all = Span {
            from: 0,
            to: count as i32,
        };
        let first = self.one.small_at(&centre);
        let second = self.two.small_at(&centre);
        let third = self.three.small_at(&centre);
        let one = self.one.small_narrowed(first, all);
        let two = self.two.small_narrowed(second, one);
        self.three.small_narrowed(third, two)
    }

    /// The columns in which the triangle covers the centre, out of so many from column x of row y on.
    pub fn span_at(&self, x: i32, y: i32, count: u32) -> Span
        requires shape { IsShape self.now }
        requires x { IsFromTo (pos 0) (pos 256) x }
        requires y { IsFromTo (pos 0) (pos 256) y }
        requires count { count ≤ 256 }
        ensures span { IsSpan result }
        ensures end { result.to ≤ℤ pos count }
        ensures exact { (k : ℤ) → IsIn result k ↔ IsCoveredAmong self.now x y count k }
    {
        if self.small {
            return self.small_span(x, y, count);
        }
        let sums = self.sums_at(x, y);
        self.span(&sums, count)
    }

    /// The values of the edges one column further.
    pub fn next_sums(&self, sums: &Sums) -> Sums
        requires shape { IsShape self.now }
        requires near { AreNearSums sums.now }
        ensures { (x y : ℤ) → AreSumsAt self.now x y sums.now
            → AreSumsAt self.now (x +ℤ pos 1) y result }
    {
        Sums {
            one: stepped(sums.one, self.one.x),
            two: stepped(sums.two, self.two.x),
            three: stepped(sums.three, self.three.x),
        }
    }

    /// Whether the depth is the same in every column of a row, or in none.
    pub fn is_level(&self) -> bool
        requires shape { IsShape self.now }
        ensures level { IsTrue result → IsLevel self.now }
    {
        let steps = Sums {
            one: self.one.x,
            two: self.two.x,
            three: self.three.x,
        };
        let corners = &self.corners;
        let z = steps.weighted(corners[0].z, corners[1].z, corners[2].z);
        let w = steps.weighted(corners[0].w, corners[1].w, corners[2].w);
        z == 0 && w == 0
    }

    /// The depth at the point with these sums, or None where it isn't kept; `before` is that of the column before.
    pub fn next_depth(&self, level: bool, before: Option<u16>, sums: &Sums) -> Option<u16>
        requires shape { IsShape self.now }
        requires near { AreNearSums sums.now }
        requires level { IsTrue level → IsLevel self.now }
        requires before { IsDepthBefore self.now before sums.now }
        ensures { result ≡ depth_at self.now.corners (sums_seen sums.now) }
    {
        if level {
            before
        } else {
            depth_at(&self.corners, sums)
        }
    }

    /// Whether a point with these sums is covered.
    fn covers(&self, sums: &Sums) -> bool
        requires shape { IsShape self.now }
        requires near { AreNearSums sums.now }
        ensures covered { (x y : ℤ) → AreSumsAt self.now x y sums.now
            → result ≡ is_covered self.now.corners self.now.view x y }
        ensures not_negative { IsTrue result → AreNotNegative sums.now }
    {
        all_of(
            self.one.passes(sums.one),
            self.two.passes(sums.two),
            self.three.passes(sums.three),
        )
    }

    /// The pixel in column x and row y, where the sums are those of its centre.
    pub fn pixel(&self, sums: &Sums, x: i32, y: i32) -> Option<Fragment>
        requires shape { IsShape self.now }
        requires near { AreNearSums sums.now }
        requires sums { AreSumsAt self.now x y sums.now }
        ensures { result ≡ pixel_of self.now.corners self.now.view x y }
    {
        if self.covers(sums) {
            kept(&self.corners, sums, x, y)
        } else {
            None
        }
    }
}
