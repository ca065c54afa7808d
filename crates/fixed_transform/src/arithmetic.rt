//! Sums, products and quotients that are proved to fit, rounded down and clamped to 32 bits.
//! No division here rounds towards zero.

ghost use Rattle.std.specs.Prelude.{◌≡◌, ◌≢◌, ◌-◌, ◌^◌, ◌<◌, ◌+ℤ◌, ◌-ℤ◌, ◌*ℤ◌, pos};
ghost use Rattle.std.specs.Int.{int_div_euclid, int_rem_euclid};
ghost use Rattle.fixed_transform.specs.Fixed.{IsWithin, clamp_i32, floor, fx, quotient_of};

/// The number of 32 bits that is nearest.
pub fn clamped(number: i64) -> i32
    ensures { result ≡ clamp_i32 number }
{
    number.clamp(i32::MIN as i64, i32::MAX as i64) as i32
}

/// The sum of four products of 16.16 fixed numbers as a 16.16 fixed number. Each product is split, so that the sums fit
/// in 64 bits.
pub fn fixed(a: i64, b: i64, c: i64, d: i64) -> i32
    requires a { IsWithin (2 ^ 62) a }
    requires b { IsWithin (2 ^ 62) b }
    requires c { IsWithin (2 ^ 62) c }
    requires d { IsWithin (2 ^ 62) d }
    ensures { result ≡ fx (a +ℤ b +ℤ c +ℤ d) }
{
    let wholes = total(whole(a), whole(b), whole(c), whole(d));
    let rests = rest(a) + rest(b) + rest(c) + rest(d);
    clamped(wholes + i64::from(rests / 65536))
}

/// The product of two 16.16 fixed numbers as a 16.16 fixed number.
pub fn fixed_product(a: i32, b: i32) -> i32
    ensures { result ≡ fx (a *ℤ b) }
{
    clamped(whole(product(a, b)))
}

/// The sum of four numbers.
fn total(a: i64, b: i64, c: i64, d: i64) -> i64
    requires a { IsWithin (2 ^ 46) a }
    requires b { IsWithin (2 ^ 46) b }
    requires c { IsWithin (2 ^ 46) c }
    requires d { IsWithin (2 ^ 46) d }
    ensures value { result ≡ a +ℤ b +ℤ c +ℤ d }
    ensures near { IsWithin (2 ^ 48) result }
{
    a + b + c + d
}

/// A number over 65536, rounded down.
fn whole(number: i64) -> i64
    requires near { IsWithin (2 ^ 62) number }
    ensures value { result ≡ int_div_euclid number (pos 65536) }
    ensures near { IsWithin (2 ^ 46) result }
{
    number.div_euclid(65536)
}

/// What is left of a number over 65536.
fn rest(number: i64) -> u32
    ensures value { pos result ≡ int_rem_euclid number (pos 65536) }
    ensures few { result < 65536 }
{
    number.rem_euclid(65536) as u32
}

/// The product of two numbers of 32 bits.
pub fn product(a: i32, b: i32) -> i64
    ensures value { result ≡ a *ℤ b }
    ensures near { IsWithin (2 ^ 62) result }
{
    a as i64 * b as i64
}

/// The sum of two numbers of 32 bits.
pub fn sum(a: i32, b: i32) -> i64
    ensures value { result ≡ a +ℤ b }
    ensures near { IsWithin (2 ^ 32) result }
{
    a as i64 + b as i64
}

/// The difference of two numbers of 32 bits.
pub fn difference(a: i32, b: i32) -> i64
    ensures value { result ≡ a -ℤ b }
    ensures near { IsWithin (2 ^ 32) result }
{
    a as i64 - b as i64
}

/// A number over another one, rounded down.
pub fn floor_of(a: i64, b: i64) -> i64
    requires a { IsWithin (2 ^ 63 - 1) a }
    requires b { IsWithin (2 ^ 32) b }
    requires nonzero { b ≢ pos 0 }
    ensures { result ≡ floor a b }
{
    if b < 0 {
        (-a).div_euclid(-b)
    } else {
        a.div_euclid(b)
    }
}

/// A number over another one as a 16.16 fixed number.
pub fn quotient(a: i64, b: i64) -> i32
    requires a { IsWithin (2 ^ 32) a }
    requires b { IsWithin (2 ^ 32) b }
    requires nonzero { b ≢ pos 0 }
    ensures { result ≡ quotient_of a b }
{
    clamped(floor_of(65536 * a, b))
}
