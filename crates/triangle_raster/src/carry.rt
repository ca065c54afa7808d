//! Quotients that are carried from column to column, with what is left of their divisions.
//! No division is made from one column to the next.

ghost use Rattle.std.specs.Prelude.{◌≡◌, ◌≤◌, ◌<◌, ◌^◌, ◌+ℤ◌, ◌<ℤ◌, ◌≤ℤ◌, ℕ, ℤ, pos, length, All, IfSome, IsTrue};
ghost use Rattle.triangle_raster.specs.Vertex.{AreCorners, IsWithin};
ghost use Rattle.triangle_raster.specs.Pixel.{weighted};
ghost use Rattle.triangle_raster.specs.Held.{sums_seen, AreCarriesOf, AreNearSums, IsDepthCarry};
ghost use Rattle.triangle_raster.specs.Carry.{AreCarries, IsCarry, IsLeft};
ghost use Rattle.triangle_raster.specs.Ranges.{number_at};

use crate::arithmetic::quotient;
use crate::sums::Sums;
use crate::vertex::Vertex;

/// A quotient, and what is left, from zero to below the whole.
#[derive(Clone, Copy)]
pub struct Carry {
    pub quotient: i32,
    pub remainder: i64,
}

/// The same of a depth, with a remainder of 128 bits.
#[derive(Clone, Copy)]
pub struct LongCarry {
    pub quotient: i32,
    pub remainder: i128,
}

/// The same with a quotient of 128 bits, too.
#[derive(Clone, Copy)]
pub struct Split {
    pub quotient: i128,
    pub remainder: i128,
}

/// Ten quotients, and what is left of each.
#[derive(Clone, Copy)]
pub struct Carries {
    pub values: [i32; 10],
    pub remainders: [i64; 10],
}

impl Split {
    /// A sum over the whole.
    pub fn of_sum(sum: i128, whole: i128) -> Split
        requires sum { IsWithin (2 ^ 126) sum }
        requires some { pos 0 <ℤ whole }
        requires few { whole ≤ℤ pos (2 ^ 120) }
        ensures { IsCarry whole sum result.quotient result.remainder }
    {
        let quotient = quotient(sum, whole);
        Split {
            quotient,
            remainder: sum - whole * quotient,
        }
    }

    /// Whether the quotient is so small that it may be added.
    pub fn is_small(&self) -> bool
        ensures { IsTrue result → IsWithin (2 ^ 29) self.now.quotient }
    {
        -536870912 <= self.quotient && self.quotient <= 536870912
    }
}

impl Carry {
    /// The carry of a number that is greater by a step.
    #[inline(always)]
    pub fn stepped(self, step: Carry, whole: i64) -> Carry
        requires few { whole ≤ℤ pos (2 ^ 62) }
        requires here { IsLeft whole self.remainder }
        requires further { IsLeft whole step.remainder }
        requires near { IsWithin (2 ^ 27) self.quotient }
        requires slow { IsWithin (2 ^ 29) step.quotient }
        ensures carried { (m n : ℤ) → IsCarry whole m self.quotient self.remainder
            → IsCarry whole n step.quotient step.remainder
            → IsCarry whole (m +ℤ n) result.quotient result.remainder }
        ensures near { IsWithin (2 ^ 30) result.quotient }
        ensures left { IsLeft whole result.remainder }
    {
        let quotient = self.quotient + step.quotient;
        let remainder = self.remainder + step.remainder;
        if remainder < whole {
            Carry {
                quotient,
                remainder,
            }
        } else {
            Carry {
                quotient: quotient + 1,
                remainder: remainder - whole,
            }
        }
    }
}

impl LongCarry {
    /// The carry of a number that is greater by a step.
    #[inline(always)]
    pub fn stepped(self, step: LongCarry, whole: i128) -> LongCarry
        requires few { whole ≤ℤ pos (2 ^ 120) }
        requires here { IsLeft whole self.remainder }
        requires further { IsLeft whole step.remainder }
        requires near { IsWithin (2 ^ 27) self.quotient }
        requires slow { IsWithin (2 ^ 29) step.quotient }
        ensures carried { (m n : ℤ) → IsCarry whole m self.quotient self.remainder
            → IsCarry whole n step.quotient step.remainder
            → IsCarry whole (m +ℤ n) result.quotient result.remainder }
        ensures near { IsWithin (2 ^ 30) result.quotient }
        ensures left { IsLeft whole result.remainder }
    {
        let depth = self.quotient + step.quotient;
        let remainder = self.remainder + step.remainder;
        if remainder < whole {
            LongCarry {
                quotient: depth,
                remainder,
            }
        } else {
            LongCarry {
                quotient: depth + 1,
                remainder: remainder - whole,
            }
        }
    }
}

/// Whether a number is within 2^100 of zero.
fn is_near(number: i128) -> bool
    ensures { IsTrue result → IsWithin (2 ^ 100) number }
{
    -1267650600228229401496703205376 <= number && number <= 1267650600228229401496703205376
}

impl LongCarry {
    /// The depth of z and w over twice the sum of w, or a step of it with w zero. None where it is out of reach.
    pub fn of_depth(z: i128, w: i128, divisor: i128) -> Option<LongCarry>
        requires some { pos 0 <ℤ divisor }
        requires few { divisor ≤ℤ pos (2 ^ 120) }
        ensures { IfSome result (IsDepthCarry z w divisor) }
    {
        if !is_near(z) || !is_near(w) {
            return None;
        }
        let split = Split::of_sum((z + w) * 65535, divisor);
        if !split.is_small() {
            return None;
        }
        Some(LongCarry {
            quotient: split.quotient as i32,
            remainder: split.remainder,
        })
    }
}

impl Carries {
    /// No carries.
    pub fn none() -> Carries {
        Carries {
            values: [0; 10],
            remainders: [0; 10],
        }
    }

    /// The sums of the corners' values by weight over the whole, of so many values; the others are the first corner's. None
    /// where one is out of reach.
    pub fn of_sums(corners: &[Vertex; 3], sums: &Sums, count: usize, whole: i64) -> Option<Carries>
        requires corners { AreCorners corners.now }
        requires sums { AreNearSums sums.now }
        requires count { count ≤ 10 }
        requires some { pos 0 <ℤ whole }
        requires few { whole ≤ℤ pos (2 ^ 62) }
        ensures { IfSome result (AreCarriesOf corners.now (sums_seen sums.now) count whole) }
    {
        Carries::of_values(
            &corners[0].values,
            &corners[1].values,
            &corners[2].values,
            sums,
            count,
            whole,
        )
    }

    fn of_values(
        a: &[i32; 10],
        b: &[i32; 10],
        c: &[i32; 10],
        sums: &Sums,
        count: usize,
        whole: i64,
    ) -> Option<Carries>
        requires a { All (IsWithin (2 ^ 27)) a.now }
        requires b { All (IsWithin (2 ^ 27)) b.now }
        requires c { All (IsWithin (2 ^ 27)) c.now }
        requires sums { AreNearSums sums.now }
        requires count { count ≤ 10 }
        requires some { pos 0 <ℤ whole }
        requires few { whole ≤ℤ pos (2 ^ 62) }
        ensures { IfSome result (λ r. AreCarries whole count (λ k. weighted (sums_seen sums.now)
            (number_at a.now k) (number_at b.now k) (number_at c.now k)) r
            × ((k : ℕ) → k < count → IsWithin (2 ^ 29) (number_at r.values k))
            × ((k : ℕ) → count ≤ k → number_at r.values k ≡ number_at a.now k)
            × (length r.values ≡ 10)) }
    {
        let mut values = *a;
        let mut remainders = [0; 10];
        for k in 0..count {
            let sum = sums.weighted(a[k], b[k], c[k]);
            let split = Split::of_sum(sum, whole as i128);
            if !split.is_small() {
                return None;
            }
            values[k] = split.quotient as i32;
            remainders[k] = split.remainder as i64;
        }
        Some(Carries { values, remainders })
    }

    /// Goes on by a step each; those from count on stay. Four are most triangles' colours alone, and their loop has a known end.
    #[inline(always)]
    pub fn step(&mut self, steps: &Carries, count: usize, whole: i64)
        requires count { count ≤ 10 }
        requires few { whole ≤ℤ pos (2 ^ 62) }
        requires here { (k : ℕ) → k < count → IsLeft whole (number_at self.old.remainders k) }
        requires further { (k : ℕ) → k < count
            → IsLeft whole (number_at steps.now.remainders k) }
        requires near { (k : ℕ) → k < count
            → IsWithin (2 ^ 27) (number_at self.old.values k) }
        requires slow { (k : ℕ) → k < count
            → IsWithin (2 ^ 29) (number_at steps.now.values k) }
        ensures carried { (m n : ℕ → ℤ) → AreCarries whole count m self.old
            → AreCarries whole count n steps.now
            → AreCarries whole count (λ k. m k +ℤ n k) self.new }
        ensures others { (k : ℕ) → count ≤ k
            → number_at self.new.values k ≡ number_at self.old.values k }
        ensures ten { length self.new.values ≡ 10 }
    {
        if count == 4 {
            self.step_each(steps, 4, whole);
        } else {
            self.step_each(steps, count, whole);
        }
    }

    /// The same, one after the other.
    #[inline(always)]
    fn step_each(&mut self, steps: &Carries, count: usize, whole: i64)
        requires count { count ≤ 10 }
        requires few { whole ≤ℤ pos (2 ^ 62) }
        requires here { (k : ℕ) → k < count → IsLeft whole (number_at self.old.remainders k) }
        requires further { (k : ℕ) → k < count
            → IsLeft whole (number_at steps.now.remainders k) }
        requires near { (k : ℕ) → k < count
            → IsWithin (2 ^ 27) (number_at self.old.values k) }
        requires slow { (k : ℕ) → k < count
            → IsWithin (2 ^ 29) (number_at steps.now.values k) }
        ensures carried { (m n : ℕ → ℤ) → AreCarries whole count m self.old
            → AreCarries whole count n steps.now
            → AreCarries whole count (λ k. m k +ℤ n k) self.new }
        ensures others { (k : ℕ) → count ≤ k
            → number_at self.new.values k ≡ number_at self.old.values k }
        ensures ten { length self.new.values ≡ 10 }
    {
        for k in 0..count {
            let here = Carry {
                quotient: self.values[k],
                remainder: self.remainders[k],
            };
            let step = Carry {
                quotient: steps.values[k],
                remainder: steps.remainders[k],
            };
            let next = here.stepped(step, whole);
            self.values[k] = next.quotient;
            self.remainders[k] = next.remainder;
        }
    }
}
