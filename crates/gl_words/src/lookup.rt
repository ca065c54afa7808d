//! The rows of calls by their names. A number's row is found in `table.rt`.

ghost use Rattle.std.specs.Prelude.{◌≡◌, ◌≢◌, Some, IfSome, IsSomeAnd, MatchOption};
ghost use Rattle.std.specs.Option.{option_map};
ghost use Rattle.gl_words.specs.Call.{name_of};
ghost use Rattle.gl_words.specs.CallOf.{call_numbered};
ghost use Rattle.gl_words.specs.Table.{told, told_by, AreNumbers};
ghost use Rattle.gl_words.specs.Lookup.{of_length};
ghost use Rattle.gl_words.specs.Shape.{IsShapeOf, IsNamedShape, shape_named, seen_shape};
ghost use Rattle.gl_words.specs.declared.call.Call.{Call};

use crate::shape::Shape;
use crate::table::{TableRow, row_numbered};

/// The numbers of the calls whose name has each length, from 0 bytes on, so that a word is compared with no name of
/// another length.
static NUMBERS: [&[u16]; 20] = [
    &[],
    &[],
    &[],
    &[],
    &[],
    &[8, 28],
    &[25, 27, 47, 53],
    &[12, 21, 52, 54, 57],
    &[15, 30, 33, 37, 45, 58, 64],
    &[5, 13, 18, 19, 29, 34, 38, 39, 49],
    &[2, 3, 6, 23, 31, 42, 50, 51, 55, 59, 62],
    &[4, 9, 10, 20, 32, 35, 36, 41, 43, 48],
    &[14, 24, 40],
    &[1, 7, 16, 46, 60, 61, 63],
    &[17],
    &[44, 56],
    &[],
    &[26],
    &[22],
    &[11],
];

/// The shape of the call with this name. None exactly where no call has it.
pub fn shape_of_name(name: &str) -> Option<Shape>
    ensures gives { option_map seen_shape result ≡ shape_named name.now }
    ensures found { IfSome result (λ shape. IsNamedShape name.now shape) }
    ensures only { (call : Call) → name_of call ≡ name.now
        → IsSomeAnd result (λ shape. IsShapeOf shape call) }
{
    match row_named(name) {
        Some(row) => Some(Shape {
            id: row.id,
            kinds: row.kinds,
            zero: &row.call,
        }),
        None => None,
    }
}

/// The row of the call with this name.
fn row_named(name: &str) -> Option<&'static TableRow>
    ensures { MatchOption result ((call : Call) → name_of call ≢ name.now)
        (λ row. (call : Call) × (call_numbered row.now.id ≡ Some call)
        × (told_by row.now ≡ told call) × (name_of call ≡ name.now)) }
{
    let numbers = of_length(numbers_by_length(), name.len());
    for id in numbers {
        if let Some(row) = row_numbered(*id) {
            if row.name == name {
                return Some(row);
            }
        }
    }
    None
}

fn numbers_by_length() -> &'static [&'static [u16]]
    ensures { AreNumbers result.now }
{
    &NUMBERS
}

/// What stands in the group at a place, counted from 0; nothing where there is no group.
pub(crate) fn of_length<T>(groups: &[&'static [T]], len: usize) -> &'static [T]
    ensures { result.now ≡ of_length groups.now len }
{
    if len < groups.len() { groups[len] } else { &[] }
}
