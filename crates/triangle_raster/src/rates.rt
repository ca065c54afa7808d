//! What is found once a triangle of how depth and values go on from column to column.

ghost use Rattle.std.specs.Prelude.{◌≡◌, ◌≤◌, ◌<◌, ℕ, length, IsTrue};
ghost use Rattle.triangle_raster.specs.Held.{AreRates, AreSameFrom, HaveTenValues, IsLevel, IsShape};
ghost use Rattle.triangle_raster.specs.Ranges.{number_at};

use crate::shape::Shape;
use crate::steps::Steps;
use crate::sums::are_same;
use crate::vertex::Vertex;

/// Whether the depth is the same in every column of a row, and how many of the ten values, none, the first 4, 6, 7 or all,
/// aren't known to be the same at the three corners. Where depth and values are carried, their steps.
#[derive(Clone, Copy)]
pub struct Rates {
    pub level: bool,
    pub moving: usize,
    pub carried: bool,
    pub steps: Steps,
}

/// Whether the values from one on are the same at the three corners.
fn are_same_from(start: usize, a: &[i32; 10], b: &[i32; 10], c: &[i32; 10]) -> bool
    ensures ten { (length a.now ≡ 10) × (length b.now ≡ 10) × (length c.now ≡ 10) }
    ensures same { IsTrue result → (k : ℕ) → start ≤ k → k < 10
        → (number_at a.now k ≡ number_at b.now k) × (number_at a.now k ≡ number_at c.now k) }
{
    for k in start..10 {
        if !are_same(a[k], b[k], c[k]) {
            return false;
        }
    }
    true
}

/// How many of the values, none, the first 4, 6, 7 or all, aren't known to be the same at the three corners.
fn moving_of(corners: &[Vertex; 3]) -> usize
    ensures ten { HaveTenValues corners.now }
    ensures same { AreSameFrom corners.now result }
    ensures few { result ≤ 10 }
{
    let a = &corners[0].values;
    let b = &corners[1].values;
    let c = &corners[2].values;
    if !are_same_from(7, a, b, c) {
        10
    } else if !are_same_from(6, a, b, c) {
        7
    } else if !are_same_from(4, a, b, c) {
        6
    } else if !are_same_from(0, a, b, c) {
        4
    } else {
        0
    }
}

impl Rates {
    /// The rates of a triangle.
    pub fn of_shape(shape: &Shape) -> Rates
        requires shape { IsShape shape.now }
        ensures { AreRates shape.now result }
    {
        let level = shape.is_level();
        let moving = moving_of(&shape.corners);
        if level && moving == 0 {
            return Rates::without_steps(shape, level, moving);
        }
        match Steps::of_shape(shape, moving) {
            Some(steps) => Rates {
                level,
                moving,
                carried: true,
                steps,
            },
            None => Rates::without_steps(shape, level, moving),
        }
    }

    /// The same where nothing is carried.
    fn without_steps(shape: &Shape, level: bool, moving: usize) -> Rates
        requires level { IsTrue level → IsLevel shape.now }
        requires moving { moving ≤ 10 }
        requires ten { HaveTenValues shape.now.corners }
        requires same { AreSameFrom shape.now.corners moving }
        ensures { AreRates shape.now result }
    {
        Rates {
            level,
            moving,
            carried: false,
            steps: Steps::none(),
        }
    }

    /// Whether depth and values are known to be the same in every column of a row.
    pub fn are_alike(&self) -> bool
        ensures level { IsTrue result → IsTrue self.now.level }
        ensures still { IsTrue result → self.now.moving ≡ 0 }
    {
        self.level && self.moving == 0
    }
}
