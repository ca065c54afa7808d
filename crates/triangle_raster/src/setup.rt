//! A triangle that is ready to be drawn row by row.

ghost use Rattle.std.specs.Prelude.{◌≡◌, ℤ, ◌<ℤ◌, ◌≤ℤ◌, ◌↔◌, pos, None, IsNone, IfSome, IsTrue};
ghost use Rattle.triangle_raster.specs.Vertex.{AreCorners, IsArea, IsFromTo, IsView};
ghost use Rattle.triangle_raster.specs.Pixel.{delta_of, pixel_of};
ghost use Rattle.triangle_raster.specs.Row.{fragments_of, run_of, triangle_of};

use crate::edge::Point;
use crate::extent::{Extent, bottom_of, top_of};
use crate::rates::Rates;
use crate::row::Row;
use crate::run::Run;
use crate::shape::Shape;
use crate::vertex::{Area, Vertex, View};
use std::marker::Model;

/// A triangle whose corners don't stand on a line, with the area that its fragments may lie in.
/// A contract sees it as what it was made of. Own.
#[derive(Drop)]
pub struct Setup {
    shape: Shape,
    rates: Rates,
    area: Area,
}

impl Model for Setup {
    ghost use Rattle.triangle_raster.specs.Row.{Triangle};

    ghost Value = { Triangle };

    ghost use Rattle.triangle_raster.specs.Inside.{setup_seen, IsSetup};

    ghost view = { setup_seen };

    ghost invariant = { IsSetup };
}

impl Setup {
    /// None exactly where the corners stand on a line of the window, so that nothing is drawn.
    /// Section 3.5.1 of OpenGL ES 1.1.12.
    pub fn new(corners: &[Vertex; 3], view: View, area: Area) -> Option<Setup>
        requires corners { AreCorners corners.now }
        requires view { IsView view }
        requires area { IsArea area }
        ensures setup { IfSome result (λ setup. setup ≡ triangle_of corners.now view area) }
        ensures flat { IsNone result ↔ (delta_of corners.now view ≡ pos 0) }
    {
        let shape = Shape::new(corners, view)?;
        let rates = Rates::of_shape(&shape);
        Some(Setup { shape, rates, area })
    }

    /// Whether the corners run counter-clockwise in the window. Section 3.5.1 of OpenGL ES 1.1.12.
    pub fn counter_clockwise(&self) -> bool
        ensures { IsTrue result ↔ (pos 0 <ℤ delta_of self.now.corners self.now.view) }
    {
        self.shape.counter_clockwise
    }

    /// The rows of the area in which there may be fragments. Where all corners stand before the eye they are those from the row of
    /// the lowest corner to that of the highest, and else as many as all of the area. Own.
    pub fn rows(&self) -> Extent
        ensures bottom { self.now.area.bottom ≤ℤ result.bottom }
        ensures top { result.top ≤ℤ self.now.area.top }
        ensures bounds { IsFromTo (pos 0) (pos 256) result.bottom
            × IsFromTo (pos 0) (pos 256) result.top }
        ensures under { (x y : ℤ) → self.now.area.bottom ≤ℤ y → y <ℤ result.bottom
            → pixel_of self.now.corners self.now.view x y ≡ None }
        ensures over { (x y : ℤ) → result.top ≤ℤ y → y <ℤ self.now.area.top
            → pixel_of self.now.corners self.now.view x y ≡ None }
    {
        let shape = &self.shape;
        let one = Point::of_corner(&shape.corners[0], &shape.view);
        let two = Point::of_corner(&shape.corners[1], &shape.view);
        let three = Point::of_corner(&shape.corners[2], &shape.view);
        let bottom = bottom_of(&one, &two, &three, self.area.bottom);
        let top = top_of(&one, &two, &three, self.area.top);
        Extent { bottom, top }
    }

    /// All fragments of row y, where depth and values are known to be the same in every column of each row; None where that isn't
    /// known, and where y lies outside the area. Own.
    pub fn run(&self, y: i32) -> Option<Run>
        ensures { IfSome result (λ run. fragments_of self.now y ≡ run_of run.first run.count) }
    {
        let area = self.area;
        if !self.rates.are_alike() || !area.has_row(y) {
            return None;
        }
        Some(Run::from_column(&self.shape, y, area.left, area.width()))
    }

    /// The fragments of row y, in rising x; none where y lies outside the area. Section 3.5.1 of OpenGL ES 1.1.12, the order
    /// own.
    pub fn row(&self, y: i32) -> Row
        ensures { result ≡ fragments_of self.now y }
    {
        let area = self.area;
        if area.has_row(y) {
            Row::from_column(&self.shape, &self.rates, y, area.left, area.width())
        } else {
            Row::from_column(&self.shape, &self.rates, 0, 0, 0)
        }
    }
}
