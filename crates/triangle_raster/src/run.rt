//! Fragments beside each other that are alike.

ghost use Rattle.std.specs.Prelude.{◌≡◌, ◌<◌, ◌+ℤ◌, ◌≤ℤ◌, pos};
ghost use Rattle.triangle_raster.specs.Vertex.{IsFromTo};
ghost use Rattle.triangle_raster.specs.Pixel.{weights_of};
ghost use Rattle.triangle_raster.specs.Row.{numbers_from, pixels_at, run_of};
ghost use Rattle.triangle_raster.specs.Held.{alike_from, depth_at, AreColumns, AreSameFrom, HaveTenValues, IsLevel, IsShape};

use crate::columns::Columns;
use crate::fragment::{Fragment, depth_at, even_depth};
use crate::shape::Shape;
use crate::sums::are_same;

/// So many fragments in neighbouring columns of a row, from a first one on, with its depth and its values. Own.
#[derive(Clone, Copy, Debug, PartialEq, Eq)]
pub struct Run {
    pub first: Fragment,
    pub count: u32,
}

/// The depth in the first of these columns, or None where there is no column.
fn depth_in(shape: &Shape, y: i32, columns: Columns) -> Option<u16>
    requires shape { IsShape shape.now }
    requires y { IsFromTo (pos 0) (pos 256) y }
    requires columns { AreColumns shape.now y columns }
    ensures { 0 < columns.left → result
        ≡ depth_at shape.now.corners (weights_of shape.now.corners shape.now.view columns.x y) }
{
    if columns.left == 0 {
        return None;
    }
    let corners = &shape.corners;
    let level = are_same(corners[0].z, corners[1].z, corners[2].z);
    let beside = are_same(corners[0].w, corners[1].w, corners[2].w);
    if level && beside {
        return even_depth(corners[0].z, corners[0].w);
    }
    let sums = shape.sums_at(columns.x, y);
    depth_at(corners, &sums)
}

impl Run {
    /// So many fragments from column x of row y on, with this depth and the values of the first corner.
    fn alike(shape: &Shape, y: i32, x: i32, depth: u16, count: u32) -> Run
        ensures first { result.first ≡ alike_from shape.now y x depth }
        ensures count { result.count ≡ count }
    {
        Run {
            first: Fragment {
                x,
                y,
                depth,
                values: shape.corners[0].values,
            },
            count,
        }
    }

    /// The fragments of row y in so many columns from x on, where depth and values are the same in every column.
    pub(crate) fn from_column(shape: &Shape, y: i32, x: i32, count: u32) -> Run
        requires shape { IsShape shape.now }
        requires level { IsLevel shape.now }
        requires ten { HaveTenValues shape.now.corners }
        requires same { AreSameFrom shape.now.corners 0 }
        requires y { IsFromTo (pos 0) (pos 256) y }
        requires x { pos 0 ≤ℤ x }
        requires count { (x +ℤ pos count) ≤ℤ pos 256 }
        ensures { pixels_at shape.now.corners shape.now.view y (numbers_from x count)
            ≡ run_of result.first result.count }
    {
        let columns = Columns::covered(shape, y, x, count);
        match depth_in(shape, y, columns) {
            Some(depth) => Run::alike(shape, y, columns.x, depth, columns.left),
            None => Run::alike(shape, y, columns.x, 0, 0),
        }
    }
}
