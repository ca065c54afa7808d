//! The weights of the corners at a point, where all together have at most 63 bits, and means by them. No mean is divided for: its
//! quotient is guessed by the reciprocal of the whole, and what is left tells whether the guess is right.

ghost use Rattle.std.specs.Prelude.{◌≡◌, ◌<◌, ◌≤◌, ◌^◌, ◌+ℤ◌, ◌<ℤ◌, ◌≤ℤ◌, pos, IfSome};
ghost use Rattle.std.specs.Int.{int_div_euclid};
ghost use Rattle.triangle_raster.specs.Vertex.{IsWithin};
ghost use Rattle.triangle_raster.specs.Pixel.{mean, weighted};
ghost use Rattle.triangle_raster.specs.Held.{sums_seen, AreNearSums, AreNotNegative};
ghost use Rattle.triangle_raster.specs.Nearby.{near_seen, AreSmallSums, IsSmallWhole};

use crate::arithmetic::{product, quotient, short_total, total};
use crate::sums::{Sums, are_same};

/// The most that all weights together are: 2^62.
const MOST: i128 = 4611686018427387904;

/// The weights, all together, the upper bits of the weights, and the reciprocal of as many of all together.
#[derive(Clone, Copy)]
pub struct Near {
    pub one: i64,
    pub two: i64,
    pub three: i64,
    pub whole: i64,
    pub upper_one: i64,
    pub upper_two: i64,
    pub upper_three: i64,
    pub factor: i64,
}

/// By how many bits a whole is longer than 31.
fn longer(whole: i64) -> u32
    ensures { result ≤ 33 }
{
    33u32.saturating_sub(whole.leading_zeros())
}

/// 2^62 over a number, or 0 where that number isn't at least 2^30.
fn reciprocal(short: i64) -> i64
    ensures { IsWithin (2 ^ 33) result }
{
    if short < 1073741824 {
        return 0;
    }
    4611686018427387904 / short
}

/// The upper bits of a weight, without so many lower ones, or 0 where they aren't at most 2^32.
fn upper(weight: i64, shift: u32) -> i64
    requires { shift < 64 }
    ensures { IsWithin (2 ^ 32) result }
{
    let upper = weight >> shift;
    if upper < 0 || 4294967296 < upper {
        return 0;
    }
    upper
}

/// The product of upper bits and a number.
#[inline(always)]
fn upper_product(upper: i64, number: i32) -> i64
    requires upper { IsWithin (2 ^ 32) upper }
    requires number { IsWithin (2 ^ 27) number }
    ensures { IsWithin (2 ^ 59) result }
{
    upper * number as i64
}

/// A number of 128 bits as one of 60, or 0 where it isn't.
#[inline(always)]
fn narrow(number: i128) -> i64
    ensures { IsWithin (2 ^ 60) result }
{
    if number < -1152921504606846976 || 1152921504606846976 < number {
        return 0;
    }
    number as i64
}

impl Near {
    /// These sums, where all together are small enough.
    pub fn of_sums(sums: &Sums) -> Option<Near>
        requires sums { AreNearSums sums.now }
        requires not_negative { AreNotNegative sums.now }
        requires some { pos 0 <ℤ (sums.now.one +ℤ sums.now.two +ℤ sums.now.three) }
        ensures seen { IfSome result (λ near. near_seen near ≡ sums_seen sums.now) }
        ensures small { IfSome result AreSmallSums }
    {
        let all = total(sums.one, sums.two, sums.three);
        if MOST < all {
            return None;
        }
        let whole = all as i64;
        let shift = longer(whole);
        let factor = reciprocal(whole >> shift);
        let one = sums.one as i64;
        let two = sums.two as i64;
        let three = sums.three as i64;
        Some(Near {
            one,
            two,
            three,
            whole,
            upper_one: upper(one, shift),
            upper_two: upper(two, shift),
            upper_three: upper(three, shift),
            factor,
        })
    }

    /// The mean of three numbers by the upper bits of the weights, as a guess.
    #[inline(always)]
    fn guess(&self, a: i32, b: i32, c: i32) -> i64
        requires whole { IsSmallWhole self.now }
        requires a { IsWithin (2 ^ 27) a }
        requires b { IsWithin (2 ^ 27) b }
        requires c { IsWithin (2 ^ 27) c }
        ensures { IsWithin (2 ^ 60) result }
    {
        let sum = short_total(
            upper_product(self.upper_one, a),
            upper_product(self.upper_two, b),
            upper_product(self.upper_three, c),
        );
        narrow(product(sum, self.factor) >> 62)
    }

    /// A sum over the whole, rounded down, by a guess.
    #[inline(always)]
    fn over(&self, sum: i128, guess: i64) -> i128
        requires whole { IsSmallWhole self.now }
        requires sum { IsWithin (2 ^ 92) sum }
        requires guess { IsWithin (2 ^ 60) guess }
        ensures { result ≡ int_div_euclid sum self.now.whole }
    {
        let whole = self.whole as i128;
        let left = sum - product(self.whole, guess);
        if 0 <= left && left < whole {
            guess as i128
        } else {
            quotient(sum, whole)
        }
    }

    /// The sum of three numbers, each times the weight of its corner.
    #[inline(always)]
    fn weighted(&self, a: i32, b: i32, c: i32) -> i128
        requires sums { AreSmallSums self.now }
        requires a { IsWithin (2 ^ 27) a }
        requires b { IsWithin (2 ^ 27) b }
        requires c { IsWithin (2 ^ 27) c }
        ensures value { result ≡ weighted (near_seen self.now) a b c }
        ensures near { IsWithin (2 ^ 92) result }
    {
        total(
            product(self.one, a as i64),
            product(self.two, b as i64),
            product(self.three, c as i64),
        )
    }

    /// The mean of three numbers by weight, rounded down. Where they are one, nothing is multiplied.
    #[inline(always)]
    pub fn mean(&self, a: i32, b: i32, c: i32) -> i32
        requires sums { AreSmallSums self.now }
        requires a { IsWithin (2 ^ 27) a }
        requires b { IsWithin (2 ^ 27) b }
        requires c { IsWithin (2 ^ 27) c }
        ensures value { result ≡ mean (near_seen self.now) a b c }
        ensures near { IsWithin (2 ^ 27) result }
    {
        if are_same(a, b, c) {
            return a;
        }
        let guess = self.guess(a, b, c);
        self.over(self.weighted(a, b, c), guess) as i32
    }
}
