//! Which vertices of a draw make which triangle.

ghost use Rattle.std.specs.Prelude.{◌≡◌, ◌<◌, ◌+◌, ◌^◌};
ghost use Rattle.vertex_stage.specs.Triangles.{strip_triangle, triangle_at, triangle_count};

/// Three vertices of a triangle by their places among those that are drawn, from 0; section 2.6.1 of OpenGL ES 1.1.12.
#[derive(Clone, Copy, Debug, PartialEq, Eq)]
pub struct Triple {
    pub first: u32,
    pub second: u32,
    pub third: u32,
}

/// How many triangles so many vertices make in a mode: none in modes of points and lines; section 2.6.1 of OpenGL ES
/// 1.1.12.
#[tactic(auto, unfolding(crate::specs::Triangles::triangle_count))]
pub fn triangle_count(mode: u32, count: u32) -> u32
    ensures { result ≡ triangle_count mode count }
{
    match mode {
        4 => count / 3,
        5 | 6 => count.saturating_sub(2),
        _ => 0,
    }
}

/// The triangle with a number, from 0, of those that a mode makes of so many vertices; section 2.6.1 of OpenGL ES 1.1.12.
#[tactic(auto, unfolding(crate::specs::Triangles::triangle_at, crate::specs::Triangles::triangle_count))]
pub fn triangle(mode: u32, count: u32, number: u32) -> Triple
    requires number { number < triangle_count mode count }
    ensures triangle { result ≡ triangle_at mode number }
    ensures within { (result.first < count) × (result.second < count) × (result.third < count) }
{
    if mode == 5 {
        strip_triangle(number)
    } else if mode == 6 {
        Triple {
            first: 0,
            second: number + 1,
            third: number + 2,
        }
    } else {
        Triple {
            first: 3 * number,
            second: 3 * number + 1,
            third: 3 * number + 2,
        }
    }
}

/// The triangle at a place of a strip; section 2.6.1.
fn strip_triangle(number: u32) -> Triple
    requires number { number + 2 < 2 ^ 32 }
    ensures { result ≡ strip_triangle number }
{
    if number % 2 == 0 {
        Triple {
            first: number,
            second: number + 1,
            third: number + 2,
        }
    } else {
        Triple {
            first: number + 1,
            second: number,
            third: number + 2,
        }
    }
}
