//! Columns that an edge lets through, found by floor division.
//! No column is tried by itself.

ghost use Rattle.std.specs.Prelude.{◌≡◌, ◌^◌, ◌+ℤ◌, ◌*ℤ◌, ◌<ℤ◌, ◌≤ℤ◌, ◌↔◌, ℤ, pos};
ghost use Rattle.std.specs.Int.{int_max, int_min};
ghost use Rattle.triangle_raster.specs.Vertex.{IsWithin};
ghost use Rattle.triangle_raster.specs.Held.{IsIn, IsSpan};

use crate::arithmetic::{quotient, small_quotient};

/// Columns from one to before another, counted from the first column of a row in the area.
#[derive(Clone, Copy)]
pub struct Span {
    pub from: i32,
    pub to: i32,
}

/// The first column in which a sum isn't below zero that rises by this step from column to column.
pub fn first_not_below_zero(sum: i128, step: i128) -> i128
    requires sum { IsWithin (2 ^ 81) sum }
    requires step { pos 0 <ℤ step }
    ensures { (k : ℤ) → (pos 0 ≤ℤ (sum +ℤ step *ℤ k)) ↔ (result ≤ℤ k) }
{
    -quotient(sum, step)
}

/// The same of a sum of 64 bits.
pub fn small_first_not_below_zero(sum: i64, step: i64) -> i128
    requires sum { IsWithin (2 ^ 62) sum }
    requires step { pos 0 <ℤ step }
    ensures { (k : ℤ) → (pos 0 ≤ℤ (sum +ℤ step *ℤ k)) ↔ (result ≤ℤ k) }
{
    -i128::from(small_quotient(sum, step))
}

/// The nearest number from low to high.
fn nearest(number: i128, low: i32, high: i32) -> i32
    requires order { low ≤ℤ high }
    ensures value { result ≡ int_min (int_max number low) high }
{
    number.max(low as i128).min(high as i128) as i32
}

impl Span {
    /// Those of its columns that aren't before this one.
    pub fn starting(self, column: i128) -> Span
        requires span { IsSpan self }
        ensures span { IsSpan result }
        ensures end { result.to ≡ self.to }
        ensures exact { (k : ℤ) → IsIn result k ↔ (IsIn self k × (column ≤ℤ k)) }
    {
        Span {
            from: nearest(column, self.from, self.to),
            to: self.to,
        }
    }

    /// Those of its columns that are before this one.
    pub fn ending(self, column: i128) -> Span
        requires span { IsSpan self }
        ensures span { IsSpan result }
        ensures end { result.to ≤ℤ self.to }
        ensures exact { (k : ℤ) → IsIn result k ↔ (IsIn self k × (k <ℤ column)) }
    {
        Span {
            from: self.from,
            to: nearest(column, self.from, self.to),
        }
    }
}
