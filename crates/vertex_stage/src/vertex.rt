//! A vertex, transformed, and the corners of a triangle.

ghost use Rattle.std.specs.Prelude.{◌≡◌, ◌^◌, ◌+◌, ◌<◌, All};
ghost use Rattle.gl_tracked.specs.Tracked.{IsArray};
ghost use Rattle.triangle_raster.specs.Vertex.{AreCorners, IsCorner, IsWithin};
ghost use Rattle.vertex_stage.specs.Vertex.{clamped_coordinate, clamped_shade, clip_position, colour_of, coordinates_of, each_part, vertex_of, with_colour_from, corners_of, HasArrays};

use crate::memories::Memories;
use crate::number::{given_or, parts};
use crate::stage::{Stage, Texturing};
use triangle_raster::Vertex;

/// The bound of coordinates: 2048 in 16.16 fixed; own.
const MOST: i32 = 134_217_728;

/// A coordinate clamped to 2048 in 16.16 fixed; own.
#[tactic(auto, unfolding(crate::specs::Vertex::clamped_coordinate))]
fn clamped_coordinate(number: i32) -> i32
    ensures value { result ≡ clamped_coordinate number }
    ensures near { IsWithin (2 ^ 27) result }
{
    if number < -MOST {
        -MOST
    } else if MOST < number {
        MOST
    } else {
        number
    }
}

/// Four coordinates, each clamped; own.
fn clamped(numbers: [i32; 4]) -> [i32; 4]
    ensures value { result ≡ each_part clamped_coordinate numbers }
    ensures near { All (IsWithin (2 ^ 27)) result }
{
    [
        clamped_coordinate(numbers[0]),
        clamped_coordinate(numbers[1]),
        clamped_coordinate(numbers[2]),
        clamped_coordinate(numbers[3]),
    ]
}

/// A part of a colour clamped to 0 to 1; section 2.12.1, for each vertex own.
#[tactic(auto, unfolding(crate::specs::Vertex::clamped_shade))]
fn clamped_shade(number: i32) -> i32
    ensures value { result ≡ clamped_shade number }
    ensures near { IsWithin (2 ^ 27) result }
{
    if number < 0 {
        0
    } else if 65536 < number {
        65536
    } else {
        number
    }
}

/// Four parts of a colour, each clamped; section 2.12.1, for each vertex own.
fn clamped_colour(numbers: [i32; 4]) -> [i32; 4]
    ensures value { result ≡ each_part clamped_shade numbers }
    ensures near { All (IsWithin (2 ^ 27)) result }
{
    [
        clamped_shade(numbers[0]),
        clamped_shade(numbers[1]),
        clamped_shade(numbers[2]),
        clamped_shade(numbers[3]),
    ]
}

/// A vertex with the colour of another; section 2.12.7.
#[tactic(auto, unfolding(crate::specs::Vertex::with_colour_from))]
fn with_colour_from(other: &Vertex, vertex: Vertex) -> Vertex
    requires other { IsCorner other.now }
    requires vertex { IsCorner vertex }
    ensures value { result ≡ with_colour_from other.now vertex }
    ensures near { IsCorner result }
{
    let colour = &other.values;
    let kept = &vertex.values;
    Vertex {
        values: [
            colour[0], colour[1], colour[2], colour[3], kept[4], kept[5], kept[6], kept[7],
            kept[8], kept[9],
        ],
        ..vertex
    }
}

impl Texturing {
    /// s, t, r and q of the vertex at a place, by the unit's matrix and clamped; sections 2.7, 2.8 and 2.10.2, the clamp own.
    #[tactic(auto, unfolding(crate::specs::Vertex::coordinates_of))]
    fn coordinates<S: Memories>(&self, memories: &S, place: u32) -> [i32; 4]
        requires array { IsArray self.now.coordinates }
        requires near { place < 2 ^ 31 + 2 ^ 16 }
        ensures value { result ≡ coordinates_of self.now (S.each memories.now) place }
        ensures near { All (IsWithin (2 ^ 27)) result }
    {
        let given = given_or(&self.coordinates, self.current, memories, place);
        clamped(self.matrix.apply(given))
    }
}

impl Stage {
    /// The clip coordinates of the vertex at a place; section 2.10, the clamp own.
    #[tactic(auto, unfolding(crate::specs::Vertex::clip_position))]
    fn position<S: Memories>(&self, memories: &S, place: u32) -> [i32; 4]
        requires array { IsArray self.now.vertex }
        requires near { place < 2 ^ 31 + 2 ^ 16 }
        ensures value { result ≡ clip_position self.now (S.each memories.now) place }
        ensures near { All (IsWithin (2 ^ 27)) result }
    {
        let seen = self.model_view.apply(parts(&self.vertex, memories, place));
        clamped(self.projection.apply(seen))
    }

    /// The colour of the vertex at a place, clamped; sections 2.7, 2.8 and 2.12.1.
    #[tactic(auto, unfolding(crate::specs::Vertex::colour_of))]
    fn colour<S: Memories>(&self, memories: &S, place: u32) -> [i32; 4]
        requires array { IsArray self.now.colour }
        requires near { place < 2 ^ 31 + 2 ^ 16 }
        ensures value { result ≡ colour_of self.now (S.each memories.now) place }
        ensures near { All (IsWithin (2 ^ 27)) result }
    {
        clamped_colour(given_or(&self.colour, self.current_colour, memories, place))
    }

    /// The vertex of the elements at a place, from 0, transformed (16.16 fixed); sections 2.8, 2.10 and 2.12 of OpenGL ES
    /// 1.1.12.
    #[tactic(auto, unfolding(crate::specs::Vertex::vertex_of, crate::specs::Vertex::values_of))]
    pub fn vertex<S: Memories>(&self, memories: &S, place: u32) -> Vertex
        requires arrays { HasArrays self.now }
        requires near { place < 2 ^ 31 + 2 ^ 16 }
        ensures value { result ≡ vertex_of self.now (S.each memories.now) place }
        ensures near { IsCorner result }
    {
        let position = self.position(memories, place);
        let colour = self.colour(memories, place);
        let one = self.first_unit.coordinates(memories, place);
        let two = self.second_unit.coordinates(memories, place);
        Vertex {
            x: position[0],
            y: position[1],
            z: position[2],
            w: position[3],
            values: [
                colour[0], colour[1], colour[2], colour[3], one[0], one[1], one[3], two[0], two[1],
                two[3],
            ],
        }
    }

    /// The corners of a triangle of the elements at three places: where shading is flat, all have the colour of the third;
    /// section 2.12.7 of OpenGL ES 1.1.12.
    #[tactic(auto, unfolding(crate::specs::Vertex::corners_of))]
    pub fn corners<S: Memories>(
        &self,
        memories: &S,
        first: u32,
        second: u32,
        third: u32,
    ) -> [Vertex; 3]
        requires arrays { HasArrays self.now }
        requires first { first < 2 ^ 31 + 2 ^ 16 }
        requires second { second < 2 ^ 31 + 2 ^ 16 }
        requires third { third < 2 ^ 31 + 2 ^ 16 }
        ensures value { result ≡ corners_of self.now (S.each memories.now) first second third }
        ensures near { AreCorners result }
    {
        let one = self.vertex(memories, first);
        let two = self.vertex(memories, second);
        let three = self.vertex(memories, third);
        if self.is_smooth {
            [one, two, three]
        } else {
            [
                with_colour_from(&three, one),
                with_colour_from(&three, two),
                three,
            ]
        }
    }
}
