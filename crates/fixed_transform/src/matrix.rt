//! Matrices of four rows and four columns, and their products.

ghost use Rattle.std.specs.Prelude.{◌≡◌, ◌<◌};
ghost use Rattle.fixed_transform.specs.Matrix.{column_by, column_of, entry, identity, image, image_part, of_values, product, scaling_of, translation_of, value_at};

use crate::arithmetic::{fixed, fixed_product, product};

/// A matrix of 16 numbers of 16.16 fixed, by columns. Section 2.10.2 of OpenGL ES 1.1.12.
#[derive(Clone, Copy, Debug, PartialEq, Eq)]
pub struct Matrix {
    values: [i32; 16],
}

impl Matrix {
    /// 1 on the diagonal and 0 elsewhere: what LoadIdentity loads. Section 2.10.2 of OpenGL ES 1.1.12.
    pub fn identity() -> Matrix
        ensures { result ≡ identity }
    {
        Matrix {
            values: [
                65536, 0, 0, 0, 0, 65536, 0, 0, 0, 0, 65536, 0, 0, 0, 0, 65536,
            ],
        }
    }

    /// The matrix of 16 numbers of 16.16 fixed, by columns: what LoadMatrixx loads. Section 2.10.2 of OpenGL ES 1.1.12.
    pub fn from_values(values: [i32; 16]) -> Matrix
        ensures { result ≡ of_values values }
    {
        Matrix { values }
    }

    /// The number at a place of 0 to 15, by columns (16.16 fixed). Section 2.10.2 of OpenGL ES 1.1.12.
    pub fn value(&self, at: usize) -> i32
        requires { at < 16 }
        ensures { result ≡ value_at self.now at }
    {
        self.values[at]
    }

    /// Its 16 numbers of 16.16 fixed, by columns. Section 2.10.2 of OpenGL ES 1.1.12.
    pub fn values(&self) -> [i32; 16]
        ensures { result ≡ self.now.values }
    {
        self.values
    }

    /// The number in a row and a column.
    fn entry(&self, row: usize, column: usize) -> i32
        requires row { row < 4 }
        requires column { column < 4 }
        ensures { result ≡ entry self.now row column }
    {
        self.values[4 * column + row]
    }

    /// One column.
    fn column(&self, column: usize) -> [i32; 4]
        requires { column < 4 }
        ensures { result ≡ column_of self.now column }
    {
        [
            self.entry(0, column),
            self.entry(1, column),
            self.entry(2, column),
            self.entry(3, column),
        ]
    }

    /// One part of the product with a column.
    fn image_part(&self, v: &[i32; 4], row: usize) -> i32
        requires { row < 4 }
        ensures { result ≡ image_part self.now v.now row }
    {
        fixed(
            product(self.entry(row, 0), v[0]),
            product(self.entry(row, 1), v[1]),
            product(self.entry(row, 2), v[2]),
            product(self.entry(row, 3), v[3]),
        )
    }

    /// This matrix times a column of four numbers (16.16 fixed): of each part the exact sum of its four products,
    /// rounded down and clamped. Section 2.10.2 of OpenGL ES 1.1.12, the rounding own.
    pub fn apply(&self, v: [i32; 4]) -> [i32; 4]
        ensures { result ≡ image self.now v }
    {
        [
            self.image_part(&v, 0),
            self.image_part(&v, 1),
            self.image_part(&v, 2),
            self.image_part(&v, 3),
        ]
    }

    /// This matrix times another one, which stands on the right: each entry is the exact sum of its four products,
    /// rounded down and clamped. Section 2.10.2 of OpenGL ES 1.1.12, the rounding own.
    pub fn multiply(&self, right: &Matrix) -> Matrix
        ensures { result ≡ product self.now right.now }
    {
        let one = self.apply(right.column(0));
        let two = self.apply(right.column(1));
        let three = self.apply(right.column(2));
        let four = self.apply(right.column(3));
        Matrix {
            values: [
                one[0], one[1], one[2], one[3], two[0], two[1], two[2], two[3], three[0], three[1],
                three[2], three[3], four[0], four[1], four[2], four[3],
            ],
        }
    }

    /// This matrix times that of Translatex by x, y, z (16.16 fixed), which stands on the right: only its last column
    /// changes. Section 2.10.2 of OpenGL ES 1.1.12, the rounding own.
    pub fn translated(&self, x: i32, y: i32, z: i32) -> Matrix
        ensures { result ≡ product self.now (translation_of x y z) }
    {
        let last = self.apply([x, y, z, 65536]);
        let kept = &self.values;
        Matrix {
            values: [
                kept[0], kept[1], kept[2], kept[3], kept[4], kept[5], kept[6], kept[7], kept[8],
                kept[9], kept[10], kept[11], last[0], last[1], last[2], last[3],
            ],
        }
    }

    /// This matrix times that of Scalex by x, y, z (16.16 fixed), which stands on the right: each of its first three
    /// columns is multiplied. Section 2.10.2 of OpenGL ES 1.1.12, the rounding own.
    pub fn scaled(&self, x: i32, y: i32, z: i32) -> Matrix
        ensures { result ≡ product self.now (scaling_of x y z) }
    {
        let one = self.column_by(0, x);
        let two = self.column_by(1, y);
        let three = self.column_by(2, z);
        let four = self.column(3);
        Matrix {
            values: [
                one[0], one[1], one[2], one[3], two[0], two[1], two[2], two[3], three[0], three[1],
                three[2], three[3], four[0], four[1], four[2], four[3],
            ],
        }
    }

    /// One column, each of its numbers multiplied (16.16 fixed).
    fn column_by(&self, column: usize, by: i32) -> [i32; 4]
        requires { column < 4 }
        ensures { result ≡ column_by self.now column by }
    {
        [
            fixed_product(self.entry(0, column), by),
            fixed_product(self.entry(1, column), by),
            fixed_product(self.entry(2, column), by),
            fixed_product(self.entry(3, column), by),
        ]
    }
}
