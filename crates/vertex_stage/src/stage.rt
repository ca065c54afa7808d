//! What vertices are made from: arrays, current values and matrices.

use fixed_transform::Matrix;
use gl_tracked::ArrayState;

/// What a vertex takes in one texture unit; sections 2.7, 2.8 and 2.10.2 of OpenGL ES 1.1.12.
#[derive(Clone, Copy, Debug, PartialEq, Eq)]
pub struct Texturing {
    /// The array of its coordinates; section 2.8.
    pub coordinates: ArrayState,
    /// The current coordinates s, t, r, q (16.16 fixed), where the array is disabled; section 2.7.
    pub current: [i32; 4],
    /// The top of its stack of matrices; section 2.10.2.
    pub matrix: Matrix,
}

/// What the vertices of a draw are made from; sections 2.7, 2.8, 2.10 and 2.12 of OpenGL ES 1.1.12.
#[derive(Clone, Copy, Debug, PartialEq, Eq)]
pub struct Stage {
    /// The array of vertices; section 2.8.
    pub vertex: ArrayState,
    /// The array of colours; section 2.8.
    pub colour: ArrayState,
    /// The current colour (16.16 fixed), where that array is disabled; section 2.7.
    pub current_colour: [i32; 4],
    /// Unit 0; sections 2.7, 2.8 and 2.10.2.
    pub first_unit: Texturing,
    /// Unit 1; sections 2.7, 2.8 and 2.10.2.
    pub second_unit: Texturing,
    /// The top of the model-view stack; section 2.10.2.
    pub model_view: Matrix,
    /// The top of the projection stack; section 2.10.2.
    pub projection: Matrix,
    /// Whether shading is smooth and not flat; section 2.12.7.
    pub is_smooth: bool,
}
