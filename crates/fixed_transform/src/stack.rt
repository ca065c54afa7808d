//! Stacks of matrices, of 1 to N.

ghost use Rattle.std.specs.Prelude.{◌≡◌, ◌≤◌, ◌∷◌, [], ◌↔◌, length, IsErr, OnOk, OnErr};
ghost use Rattle.fixed_transform.specs.Matrix.{identity};
ghost use Rattle.fixed_transform.specs.Stack.{below_top, top_of};

use crate::matrix::Matrix;
use std::marker::Model;
use thiserror::Error;

/// The stack holds N matrices.
#[derive(Debug, Drop, Error)]
#[error("the stack is full")]
pub struct Full;

/// The stack holds one matrix.
#[derive(Debug, Drop, Error)]
#[error("the stack holds one matrix")]
pub struct Bottom;

/// A stack of at least one matrix and at most N. A contract sees it as the list of its matrices, the top one first.
/// Section 2.10.2 of OpenGL ES 1.1.12.
#[derive(Drop)]
pub struct Stack<const N: usize> {
    matrices: [Matrix; N],
    depth: usize,
}

impl<const N: usize> Model for Stack<N> {
    ghost use Rattle.std.specs.Prelude.{List, ◌<◌, ◌≤◌};
    ghost use Rattle.fixed_transform.specs.declared.matrix.Matrix.{Matrix};

    ghost Value = { List Matrix };

    ghost use Rattle.fixed_transform.specs.Stack.{stacked};

    ghost view = { λ s. stacked s.matrices s.depth };

    ghost invariant = { λ s. (1 ≤ s.depth) × (s.depth ≤ N) };
}

impl<const N: usize> Stack<N> {
    /// A stack of one matrix, the identity. Section 2.10.2 of OpenGL ES 1.1.12.
    pub fn new() -> Stack<N>
        requires { 1 ≤ N }
        ensures { result ≡ identity ∷ [] }
    {
        Stack {
            matrices: [Matrix::identity(); N],
            depth: 1,
        }
    }

    /// How many matrices it holds, 1 to N. Section 2.10.2 of OpenGL ES 1.1.12.
    pub fn depth(&self) -> usize
        ensures depth { result ≡ length self.now }
        ensures some { 1 ≤ result }
        ensures within { result ≤ N }
    {
        let Stack { matrices: _, depth } = self;
        *depth
    }

    /// The top matrix, which is the current one. Section 2.10.2 of OpenGL ES 1.1.12.
    pub fn top(&self) -> &Matrix
        ensures { result.now ≡ top_of self.now }
    {
        &self.matrices[self.depth - 1]
    }

    /// Puts a matrix in place of the top one. Section 2.10.2 of OpenGL ES 1.1.12.
    pub fn set_top(&mut self, matrix: Matrix)
        ensures { self.new ≡ matrix ∷ below_top self.old }
    {
        self.matrices[self.depth - 1] = matrix;
    }

    /// Puts a copy of the top matrix on it, or is refused where N matrices are held: PushMatrix.
    /// Section 2.10.2 of OpenGL ES 1.1.12.
    pub fn push(&mut self) -> Result<(), Full>
        ensures ok { OnOk result (self.new ≡ top_of self.old ∷ self.old) }
        ensures full { IsErr result ↔ (length self.old ≡ N) }
        ensures err { OnErr result (self.new ≡ self.old) }
    {
        if self.depth == N {
            return Err(Full);
        }
        self.matrices[self.depth] = self.matrices[self.depth - 1];
        self.depth += 1;
        Ok(())
    }

    /// Takes the top matrix off, or is refused where one matrix is held: PopMatrix. Section 2.10.2 of OpenGL ES 1.1.12.
    pub fn pop(&mut self) -> Result<(), Bottom>
        ensures ok { OnOk result (self.new ≡ below_top self.old) }
        ensures bottom { IsErr result ↔ (length self.old ≡ 1) }
        ensures err { OnErr result (self.new ≡ self.old) }
    {
        let Stack { matrices: _, depth } = self;
        if *depth == 1 {
            return Err(Bottom);
        }
        *depth -= 1;
        Ok(())
    }
}
