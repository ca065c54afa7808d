//! The values of the three edges at a point, which are the weights of the corners there.

ghost use Rattle.std.specs.Prelude.{◌≡◌, ◌^◌, ◌+ℤ◌, ◌*ℤ◌, ◌<ℤ◌, pos, IsTrue};
ghost use Rattle.triangle_raster.specs.Vertex.{IsWithin};
ghost use Rattle.triangle_raster.specs.Pixel.{mean, weighted};
ghost use Rattle.triangle_raster.specs.Held.{sums_seen, AreNearSums, AreNotNegative};

use crate::arithmetic::{long_product, quotient, total};

/// The values of the three edges at one point.
#[derive(Clone, Copy)]
pub struct Sums {
    pub one: i128,
    pub two: i128,
    pub three: i128,
}

/// Whether three numbers are one.
pub fn are_same(a: i32, b: i32, c: i32) -> bool
    ensures same { IsTrue result → (a ≡ b) × (a ≡ c) }
{
    a == b && a == c
}

impl Sums {
    /// The sum of three numbers, each times the weight of its corner.
    pub fn weighted(&self, a: i32, b: i32, c: i32) -> i128
        requires sums { AreNearSums self.now }
        requires a { IsWithin (2 ^ 27) a }
        requires b { IsWithin (2 ^ 27) b }
        requires c { IsWithin (2 ^ 27) c }
        ensures value { result ≡ weighted (sums_seen self.now) a b c }
        ensures near { IsWithin (2 ^ 110) result }
    {
        total(
            long_product(self.one, a as i64),
            long_product(self.two, b as i64),
            long_product(self.three, c as i64),
        )
    }

    /// All three together.
    fn whole(&self) -> i128
        requires sums { AreNearSums self.now }
        ensures value { result ≡ self.now.one +ℤ self.now.two +ℤ self.now.three }
        ensures near { IsWithin (2 ^ 83) result }
    {
        total(self.one, self.two, self.three)
    }

    /// The mean of three numbers by weight, rounded down. Where they are one, nothing is divided.
    pub fn mean(&self, a: i32, b: i32, c: i32) -> i32
        requires sums { AreNearSums self.now }
        requires not_negative { AreNotNegative self.now }
        requires some { pos 0 <ℤ (self.now.one +ℤ self.now.two +ℤ self.now.three) }
        requires a { IsWithin (2 ^ 27) a }
        requires b { IsWithin (2 ^ 27) b }
        requires c { IsWithin (2 ^ 27) c }
        ensures value { result ≡ mean (sums_seen self.now) a b c }
        ensures near { IsWithin (2 ^ 27) result }
    {
        if are_same(a, b, c) {
            return a;
        }
        quotient(self.weighted(a, b, c), self.whole()) as i32
    }
}
