//! Products and sums that are proved to fit.
//! No clause asks for more room than the largest triangle needs.

ghost use Rattle.std.specs.Prelude.{ℕ, ◌≡◌, ◌≤◌, ◌+◌, ◌*◌, ◌^◌, ◌+ℤ◌, ◌*ℤ◌, ◌<ℤ◌, ◌≤ℤ◌, ◌&&◌, pos};
ghost use Rattle.std.specs.Int.{int_div_euclid};
ghost use Rattle.triangle_raster.specs.Vertex.{IsWithin};

/// The product of two numbers of 32 bits.
pub fn small_product(a: i32, b: i32) -> i64
    ensures value { result ≡ a *ℤ b }
    ensures near { (m n : ℕ) → IsWithin m a → IsWithin n b → IsWithin (m * n) result }
{
    a as i64 * b as i64
}

/// The product of two numbers of 64 bits.
pub fn product(a: i64, b: i64) -> i128
    ensures value { result ≡ a *ℤ b }
    ensures near { (m n : ℕ) → IsWithin m a → IsWithin n b → IsWithin (m * n) result }
{
    a as i128 * b as i128
}

/// The product of a number of 82 bits and one of 40.
pub fn long_product(a: i128, b: i64) -> i128
    requires a { IsWithin (2 ^ 81) a }
    requires b { IsWithin (2 ^ 39) b }
    ensures value { result ≡ a *ℤ b }
    ensures near { (m n : ℕ) → IsWithin m a → IsWithin n b → IsWithin (m * n) result }
{
    a * b as i128
}

/// The product of a number of 61 bits and another one, where it is one of 62 bits.
pub fn short_product(a: i128, b: i64) -> i64
    requires a { IsWithin (2 ^ 60) a }
    requires near { IsWithin (2 ^ 61) (a *ℤ b) }
    ensures { result ≡ a *ℤ b }
{
    let short = a as i64;
    short * b
}

/// The sum of three numbers of 61 and 62 bits.
pub fn short_total(a: i64, b: i64, c: i64) -> i64
    requires a { IsWithin (2 ^ 60) a }
    requires b { IsWithin (2 ^ 60) b }
    requires c { IsWithin (2 ^ 61) c }
    ensures value { result ≡ a +ℤ b +ℤ c }
    ensures near { IsWithin (2 ^ 62) result }
{
    a + b + c
}

/// A sum of 64 bits over the whole, rounded down.
pub fn small_quotient(sum: i64, whole: i64) -> i64
    requires { pos 0 <ℤ whole }
    ensures { result ≡ int_div_euclid sum whole }
{
    sum.div_euclid(whole)
}

/// The sum of three numbers of 121 bits.
pub fn total(a: i128, b: i128, c: i128) -> i128
    requires a { IsWithin (2 ^ 120) a }
    requires b { IsWithin (2 ^ 120) b }
    requires c { IsWithin (2 ^ 120) c }
    ensures value { result ≡ a +ℤ b +ℤ c }
    ensures near { (l m n : ℕ) → IsWithin l a → IsWithin m b → IsWithin n c
        → IsWithin (l + m + n) result }
{
    a + b + c
}

/// A sum and twice a step.
pub fn stepped(sum: i128, step: i128) -> i128
    requires sum { IsWithin (2 ^ 81) sum }
    requires step { IsWithin (2 ^ 68) step }
    ensures { result ≡ sum +ℤ pos 2 *ℤ step }
{
    sum + 2 * step
}

/// A sum over the whole, rounded down.
pub fn quotient(sum: i128, whole: i128) -> i128
    requires { pos 0 <ℤ whole }
    ensures { result ≡ int_div_euclid sum whole }
{
    sum.div_euclid(whole)
}

/// A sum over the whole as a guess by their upper bits, 0 to 65535.
fn guess(sum: i128, whole: i128) -> u32
    ensures { result ≤ 65535 }
{
    let shift = 97u32.saturating_sub(whole.leading_zeros());
    let (upper, short) = (sum >> shift, whole >> shift);
    if upper < 0 || 4611686018427387904 < upper || short < 1 || 4611686018427387904 < short {
        return 0;
    }
    let guess = upper as u64 / short as u64;
    guess.min(65535) as u32
}

/// A sum over the whole, rounded down, which mostly is 0 to 65535: it is guessed, and what is left tells whether the guess is right.
pub fn short_quotient(sum: i128, whole: i128) -> i128
    requires some { pos 0 <ℤ whole }
    requires few { whole ≤ℤ pos (2 ^ 111) }
    requires not_negative { pos 0 ≤ℤ sum }
    ensures { result ≡ int_div_euclid sum whole }
{
    let guess = i128::from(guess(sum, whole));
    let left = sum - whole * guess;
    if 0 <= left && left < whole {
        guess
    } else {
        quotient(sum, whole)
    }
}

/// Whether all three are true.
pub fn all_of(a: bool, b: bool, c: bool) -> bool
    ensures { result ≡ (a && (b && c)) }
{
    a && b && c
}
