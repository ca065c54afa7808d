//! The stacks of matrices of a context.

ghost use Rattle.std.specs.Prelude.{◌≡◌, ◌≢◌, ◌<◌, [], ◌∷◌, length, None, true};
ghost use Rattle.fixed_transform.specs.Matrix.{scaling_of, translation_of};
ghost use Rattle.fixed_transform.specs.Stack.{top_of, below_top};
ghost use Rattle.gl_tracked.specs.Fault.{fault_of};
ghost use Rattle.gl_state.specs.Stacks.{first_stacks, current_of, depths_of, entry_at, matrix_at, most_of, texture_of, with_current};
ghost use Rattle.gl_state.specs.Step.{is_product, stacks_set_by, with_change, with_product};

use fixed_transform::{Matrix, Stack, frustum, ortho, rotation};
use gl_memory::{Memory, read_i32};
use gl_tracked::Tracked;
use gl_words::Call;
use std::marker::Model;

/// The stacks (section 2.10.2). Contracts see each as the list of its matrices, the top one first.
#[derive(Drop)]
pub(crate) struct Stacks {
    model_view: Stack<16>,
    projection: Stack<2>,
    texture_zero: Stack<2>,
    texture_one: Stack<2>,
}

impl Model for Stacks {
    ghost use Rattle.gl_state.specs.Stacks.{StacksView};

    ghost Value = { StacksView };

    ghost view = { λ s. record {
      model_view = s.model_view;
      projection = s.projection;
      texture_zero = s.texture_zero;
      texture_one = s.texture_one;
    } };
}

impl Stacks {
    /// Each with the identity.
    pub(crate) fn new() -> Stacks
        ensures { result ≡ first_stacks }
    {
        Stacks {
            model_view: Stack::new(),
            projection: Stack::new(),
            texture_zero: Stack::new(),
            texture_one: Stack::new(),
        }
    }

    /// The current matrix.
    pub(crate) fn top(&self, mode: u32, active: u32) -> &Matrix
        ensures { result.now ≡ top_of (current_of self.now mode active) }
    {
        if mode == 0x1700 {
            self.model_view.top()
        } else if mode == 0x1701 {
            self.projection.top()
        } else if active == 0x84C0 {
            self.texture_zero.top()
        } else {
            self.texture_one.top()
        }
    }

    /// The matrix of the textures of the unit at place 0 or 1.
    pub(crate) fn texture(&self, unit: usize) -> &Matrix
        ensures { result.now ≡ top_of (texture_of self.now unit) }
    {
        if unit == 0 {
            self.texture_zero.top()
        } else {
            self.texture_one.top()
        }
    }

    /// Puts a matrix in place of the current one.
    pub(crate) fn set_top(&mut self, mode: u32, active: u32, matrix: Matrix)
        ensures { self.new ≡ with_current self.old mode active
            (matrix ∷ below_top (current_of self.old mode active)) }
    {
        if mode == 0x1700 {
            self.model_view.set_top(matrix);
        } else if mode == 0x1701 {
            self.projection.set_top(matrix);
        } else if active == 0x84C0 {
            self.texture_zero.set_top(matrix);
        } else {
            self.texture_one.set_top(matrix);
        }
    }

    /// Puts a copy of the current matrix on its stack.
    pub(crate) fn push(&mut self, mode: u32, active: u32)
        requires room { length (current_of self.old mode active) ≢ most_of mode }
        ensures { self.new ≡ with_current self.old mode active
            (top_of (current_of self.old mode active) ∷ current_of self.old mode active) }
    {
        let _pushed = if mode == 0x1700 {
            self.model_view.push()
        } else if mode == 0x1701 {
            self.projection.push()
        } else if active == 0x84C0 {
            self.texture_zero.push()
        } else {
            self.texture_one.push()
        };
    }

    /// Takes the current matrix off its stack.
    pub(crate) fn pop(&mut self, mode: u32, active: u32)
        requires some { length (current_of self.old mode active) ≢ 1 }
        ensures { self.new ≡ with_current self.old mode active
            (below_top (current_of self.old mode active)) }
    {
        let _popped = if mode == 0x1700 {
            self.model_view.pop()
        } else if mode == 0x1701 {
            self.projection.pop()
        } else if active == 0x84C0 {
            self.texture_zero.pop()
        } else {
            self.texture_one.pop()
        };
    }

    /// Multiplies the current matrix by another, which stands on the right.
    fn multiply(&mut self, tracked: &Tracked, right: &Matrix)
        ensures { self.new ≡ with_product right.now tracked.now self.old }
    {
        let current = self.top(tracked.matrix_mode, tracked.active);
        let product = current.multiply(right);
        self.set_top(tracked.matrix_mode, tracked.active, product);
    }

    /// Multiplies the current matrix by that of Scalex.
    fn scale(&mut self, tracked: &Tracked, x: i32, y: i32, z: i32)
        ensures { self.new ≡ with_product (scaling_of x y z) tracked.now self.old }
    {
        let scaled = self
            .top(tracked.matrix_mode, tracked.active)
            .scaled(x, y, z);
        self.set_top(tracked.matrix_mode, tracked.active, scaled);
    }

    /// Multiplies the current matrix by that of Translatex.
    fn translate(&mut self, tracked: &Tracked, x: i32, y: i32, z: i32)
        ensures { self.new ≡ with_product (translation_of x y z) tracked.now self.old }
    {
        let translated = self
            .top(tracked.matrix_mode, tracked.active)
            .translated(x, y, z);
        self.set_top(tracked.matrix_mode, tracked.active, translated);
    }

    /// Puts a matrix from a place of memory on in place of the current one.
    fn load<M: Memory>(&mut self, tracked: &Tracked, place: u32, memory: &M)
        ensures { self.new ≡ with_change (λ matrices. matrix_at (M.segments memory.now) place ∷
            below_top matrices) tracked.now self.old }
    {
        let matrix = matrix_at(memory, place);
        self.set_top(tracked.matrix_mode, tracked.active, matrix);
    }

    /// Multiplies the current matrix by the one from a place of memory on.
    fn multiply_at<M: Memory>(&mut self, tracked: &Tracked, place: u32, memory: &M)
        ensures { self.new ≡ with_product (matrix_at (M.segments memory.now) place)
            tracked.now self.old }
    {
        let matrix = matrix_at(memory, place);
        self.multiply(tracked, &matrix);
    }

    /// Sets what a call without an error sets on a memory, where tracked state knows how deep the stacks are.
    #[tactic(auto, unfolding(crate::specs::Step::stacks_set_by))]
    pub(crate) fn set<M: Memory>(&mut self, tracked: &Tracked, call: &Call, memory: &M)
        requires no_fault { fault_of tracked.now call.now ≡ None }
        requires depths { tracked.now.depths ≡ depths_of self.old }
        ensures { self.new ≡ stacks_set_by tracked.now self.old call.now (M.segments memory.now) }
    {
        match call {
            Call::Frustumx { .. }
            | Call::MultMatrixx { .. }
            | Call::Orthox { .. }
            | Call::Rotatex { .. }
            | Call::Scalex { .. }
            | Call::Translatex { .. } => self.multiply_by(tracked, call, memory),
            Call::LoadIdentity => {
                self.set_top(tracked.matrix_mode, tracked.active, Matrix::identity());
            }
            Call::LoadMatrixx { matrix } => self.load(tracked, *matrix, memory),
            Call::PopMatrix => self.pop(tracked.matrix_mode, tracked.active),
            Call::PushMatrix => self.push(tracked.matrix_mode, tracked.active),
            _ => {}
        }
    }

    /// Multiplies the current matrix by that of a call without an error. It stands by itself, since a function sets up the
    /// matrices of all its arms, and other calls need none.
    #[tactic(auto, unfolding(crate::specs::Step::stacks_set_by))]
    fn multiply_by<M: Memory>(&mut self, tracked: &Tracked, call: &Call, memory: &M)
        requires no_fault { fault_of tracked.now call.now ≡ None }
        requires product { is_product call.now ≡ true }
        ensures { self.new ≡ stacks_set_by tracked.now self.old call.now (M.segments memory.now) }
    {
        match call {
            Call::Frustumx {
                left,
                right,
                bottom,
                top,
                near,
                far,
            } => {
                self.multiply(tracked, &frustum(*left, *right, *bottom, *top, *near, *far));
            }
            Call::MultMatrixx { matrix } => self.multiply_at(tracked, *matrix, memory),
            Call::Orthox {
                left,
                right,
                bottom,
                top,
                near,
                far,
            } => {
                self.multiply(tracked, &ortho(*left, *right, *bottom, *top, *near, *far));
            }
            Call::Rotatex { angle, x, y, z } => {
                self.multiply(tracked, &rotation(*angle, *x, *y, *z));
            }
            Call::Scalex { x, y, z } => self.scale(tracked, *x, *y, *z),
            Call::Translatex { x, y, z } => self.translate(tracked, *x, *y, *z),
            _ => {}
        }
    }
}

/// The number in a row and a column of the matrix from a place of memory on (section 2.10.2).
fn entry_at<M: Memory>(memory: &M, place: u32, row: u64, column: u64) -> i32
    requires row { row < 4 }
    requires column { column < 4 }
    ensures { result ≡ entry_at (M.segments memory.now) place row column }
{
    read_i32(memory, u64::from(place) + 4 * (4 * column + row))
}

/// A column of the matrix from a place of memory on.
fn column_at<M: Memory>(memory: &M, place: u32, column: u64) -> [i32; 4]
    requires { column < 4 }
    ensures { let m = M.segments memory.now in
        result ≡ entry_at m place 0 column ∷ entry_at m place 1 column ∷
        entry_at m place 2 column ∷ entry_at m place 3 column ∷ [] }
{
    [
        entry_at(memory, place, 0, column),
        entry_at(memory, place, 1, column),
        entry_at(memory, place, 2, column),
        entry_at(memory, place, 3, column),
    ]
}

/// The matrix from a place of memory on, by columns (section 2.10.2).
#[tactic(auto, unfolding(crate::specs::Stacks::matrix_at))]
fn matrix_at<M: Memory>(memory: &M, place: u32) -> Matrix
    ensures { result ≡ matrix_at (M.segments memory.now) place }
{
    let one = column_at(memory, place, 0);
    let two = column_at(memory, place, 1);
    let three = column_at(memory, place, 2);
    let four = column_at(memory, place, 3);
    Matrix::from_values([
        one[0], one[1], one[2], one[3], two[0], two[1], two[2], two[3], three[0], three[1],
        three[2], three[3], four[0], four[1], four[2], four[3],
    ])
}
