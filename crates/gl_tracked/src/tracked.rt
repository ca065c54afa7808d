//! The part of a context's state that the layer keeps as well.

ghost use Rattle.std.specs.Prelude.{◌≡◌, ◌<◌, ◌≤◌, List, None};
ghost use Rattle.gl_memory.specs.Segment.{Segment};
ghost use Rattle.gl_tracked.specs.Fault.{fault_of};
ghost use Rattle.gl_tracked.specs.Stack.{current_stack, current_depth, current_most, with_depth};
ghost use Rattle.gl_tracked.specs.Step.{set_by, tracked_after, with_alignment, with_binding};
ghost use Rattle.gl_tracked.specs.Tracked.{first_array, first_tracked, IsSound};

use crate::indices::count_of;
use gl_memory::Memory;
use gl_words::{Call, GlError};

/// An array of vertices, normals, colours or texture coordinates (section 2.8).
#[derive(Clone, Copy, Debug, PartialEq, Eq)]
pub struct ArrayState {
    /// Whether it is on (section 2.8).
    pub enabled: bool,
    /// How many numbers an element has: 1 to 4 (section 2.8).
    pub size: i32,
    /// The type of the numbers: BYTE, UNSIGNED_BYTE, SHORT or FIXED.
    pub kind: u32,
    /// From one element to the next, in bytes, or 0 where they stand one after another.
    pub stride: i32,
    /// Where the first element stands, in bytes.
    pub pointer: u32,
    /// The buffer in which it stands, or 0 for client memory (section 2.9).
    pub buffer: u32,
}

/// The most matrices of the model-view stack, the projection stack and the texture stacks of units 0 and 1; own, of at
/// least 16, 2 and 2 (section 2.10.2).
const MOST_DEPTHS: [u32; 4] = [16, 2, 2, 2];

/// The tracked state of a context; its choice is own.
#[derive(Clone, Copy, Debug, PartialEq, Eq)]
pub struct Tracked {
    /// The array of vertices (section 2.8).
    pub vertex: ArrayState,
    /// The array of normals (section 2.8).
    pub normal: ArrayState,
    /// The array of colours (section 2.8).
    pub colour: ArrayState,
    /// The arrays of texture coordinates of unit 0 and of unit 1 (section 2.7).
    pub texture: [ArrayState; 2],
    /// TEXTURE0 or TEXTURE1 (section 2.7).
    pub client_active: u32,
    /// TEXTURE0 or TEXTURE1 (section 3.7.12).
    pub active: u32,
    /// MODELVIEW, PROJECTION or TEXTURE (section 2.10.2).
    pub matrix_mode: u32,
    /// How many matrices there are on the model-view stack, the projection stack and the texture stacks of units 0
    /// and 1: 1 to 16, and 1 or 2 (section 2.10.2).
    pub depths: [u32; 4],
    /// The binding of ARRAY_BUFFER (section 2.9).
    pub array_buffer: u32,
    /// The binding of ELEMENT_ARRAY_BUFFER (section 2.9).
    pub element_buffer: u32,
    /// In bytes: 1, 2, 4 or 8 (section 3.6.1).
    pub unpack_alignment: i32,
    /// In bytes: 1, 2, 4 or 8 (section 4.3.1).
    pub pack_alignment: i32,
}

impl Tracked {
    /// The tracked state of a context at the start.
    pub fn first() -> Tracked
        ensures first { result ≡ first_tracked }
        ensures sound { IsSound result }
    {
        let array = ArrayState {
            enabled: false,
            size: 4,
            kind: 0x140C,
            stride: 0,
            pointer: 0,
            buffer: 0,
        };
        Tracked {
            vertex: array,
            normal: array,
            colour: array,
            texture: [array, array],
            client_active: 0x84C0,
            active: 0x84C0,
            matrix_mode: 0x1700,
            depths: [1, 1, 1, 1],
            array_buffer: 0,
            element_buffer: 0,
            unpack_alignment: 4,
            pack_alignment: 4,
        }
    }

    /// Takes the step of a call on a memory, given the call's error as `fault` finds it. A call with an error changes
    /// nothing (section 2.5).
    pub fn note<M: Memory>(&mut self, call: &Call, memory: &M, fault: Option<GlError>)
        requires fault { fault ≡ fault_of self.old call.now }
        ensures step { self.new ≡ tracked_after self.old call.now (M.segments memory.now) }
        ensures sound { IsSound self.old → IsSound self.new }
    {
        match fault {
            Some(_) => {}
            None => self.set(call, memory),
        }
    }

    /// Sets what a call without an error sets on a memory.
    #[tactic(auto, unfolding(crate::specs::Step::set_by))]
    fn set<M: Memory>(&mut self, call: &Call, memory: &M)
        requires no_fault { fault_of self.old call.now ≡ None }
        ensures { self.new ≡ set_by self.old call.now (M.segments memory.now) }
    {
        match call {
            Call::ActiveTexture { texture } => self.active = *texture,
            Call::BindBuffer { target, buffer } => self.bind(*target, *buffer),
            Call::ClientActiveTexture { texture } => self.client_active = *texture,
            Call::ColorPointer { .. }
            | Call::NormalPointer { .. }
            | Call::TexCoordPointer { .. }
            | Call::VertexPointer { .. } => self.set_pointer(call),
            Call::DeleteBuffers { n, names } => {
                self.delete_buffers(*names, count_of(*n), memory);
            }
            Call::DisableClientState { array } => self.set_enabled(*array, false),
            Call::EnableClientState { array } => self.set_enabled(*array, true),
            Call::MatrixMode { mode } => self.matrix_mode = *mode,
            Call::PixelStorei { pname, param } => self.set_alignment(*pname, *param),
            Call::PopMatrix => self.set_depth(self.depth() - 1),
            Call::PushMatrix => self.set_depth(self.depth() + 1),
            _ => {}
        }
    }

    /// Binds a buffer to a target: ARRAY_BUFFER, else ELEMENT_ARRAY_BUFFER (section 2.9).
    #[tactic(auto, unfolding(crate::specs::Step::with_binding))]
    fn bind(&mut self, target: u32, buffer: u32)
        ensures { self.new ≡ with_binding self.old target buffer }
    {
        if target == 0x8892 {
            self.array_buffer = buffer;
        } else {
            self.element_buffer = buffer;
        }
    }

    /// The current stack, as its place among the depths (section 2.10.2).
    #[tactic(auto, unfolding(crate::specs::Stack::current_stack))]
    fn stack(&self) -> usize
        ensures stack { result ≡ current_stack self.now }
        ensures few { result < 4 }
    {
        if self.matrix_mode == 0x1700 {
            0
        } else if self.matrix_mode == 0x1701 {
            1
        } else if self.active == 0x84C0 {
            2
        } else {
            3
        }
    }

    /// How many matrices there are on the current stack.
    #[tactic(auto, unfolding(crate::specs::Stack::current_depth))]
    pub(crate) fn depth(&self) -> u32
        ensures { result ≡ current_depth self.now }
    {
        self.depths[self.stack()]
    }

    /// How many matrices the current stack may hold.
    #[tactic(auto, unfolding(crate::specs::Stack::current_most))]
    pub(crate) fn most_depth(&self) -> u32
        ensures most { result ≡ current_most self.now }
        ensures few { result ≤ 16 }
    {
        MOST_DEPTHS[self.stack()]
    }

    /// Sets how many matrices there are on the current stack.
    #[tactic(auto, unfolding(crate::specs::Stack::with_depth))]
    fn set_depth(&mut self, depth: u32)
        ensures { self.new ≡ with_depth self.old depth }
    {
        let stack = self.stack();
        self.depths[stack] = depth;
    }

    /// Sets an alignment of rows: that of UNPACK_ALIGNMENT, else that of PACK_ALIGNMENT (sections 3.6.1 and 4.3.1).
    #[tactic(auto, unfolding(crate::specs::Step::with_alignment))]
    fn set_alignment(&mut self, name: u32, alignment: i32)
        ensures { self.new ≡ with_alignment self.old name alignment }
    {
        if name == 0x0CF5 {
            self.unpack_alignment = alignment;
        } else {
            self.pack_alignment = alignment;
        }
    }
}
