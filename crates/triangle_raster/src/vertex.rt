//! What a triangle is drawn from: its corners, the viewport, and the area that fragments may lie in.

/// A corner after the matrices, in clip coordinates (16.16 fixed, each number within 2^27 of zero).
/// Section 2.10 of OpenGL ES 1.1.12.
#[derive(Clone, Copy, Debug, PartialEq, Eq)]
pub struct Vertex {
    pub x: i32,
    pub y: i32,
    pub z: i32,
    pub w: i32,
    /// Red, green, blue, alpha, and then s, t, q of each of the two texture units (16.16 fixed).
    pub values: [i32; 10],
}

/// The viewport in pixels: its lower left corner, -1024 to 1024, and its sides, 0 to 512.
/// Section 2.10.1 of OpenGL ES 1.1.12.
#[derive(Clone, Copy, Debug, PartialEq, Eq)]
pub struct View {
    pub x: i32,
    pub y: i32,
    pub width: i32,
    pub height: i32,
}

/// The pixels that a fragment may lie in, 0 to 256: from `left` and `bottom` to before `right` and `top`. Own.
#[derive(Clone, Copy, Debug, PartialEq, Eq)]
pub struct Area {
    pub left: i32,
    pub bottom: i32,
    pub right: i32,
    pub top: i32,
}

impl Area {
    ghost use Rattle.std.specs.Prelude.{◌≡◌, ◌-ℤ◌, ◌&&◌, int_le, int_lt};
    ghost use Rattle.triangle_raster.specs.Vertex.{IsArea};
    ghost use Rattle.triangle_raster.specs.Row.{count_of};

    /// How many columns it has.
    pub(crate) fn width(&self) -> u32
        requires { IsArea self.now }
        ensures { result ≡ count_of (self.now.right -ℤ self.now.left) }
    {
        if self.left < self.right {
            (self.right - self.left) as u32
        } else {
            0
        }
    }

    /// Whether row y lies in it.
    pub(crate) fn has_row(&self, y: i32) -> bool
        ensures { result ≡ (int_le self.now.bottom y && int_lt y self.now.top) }
    {
        self.bottom <= y && y < self.top
    }
}
