//! Names of objects that lie in memory, and what their deletion does to bindings.

ghost use Rattle.std.specs.Prelude.{◌≡◌, ◌≤◌, ◌∷◌, [], map};
ghost use Rattle.gl_memory.specs.Segment.{Segment};
ghost use Rattle.gl_tracked.specs.Names.{array_after, binding_after, name_at, names_at, without_buffers};

use crate::tracked::{ArrayState, Tracked};
use gl_memory::{Memory, read_u32};

/// The name with a number, from 0, of those that lie from a place of memory on, of four bytes each (section 2.9).
pub fn name_at<M: Memory>(memory: &M, place: u32, number: u32) -> u32
    ensures { result ≡ name_at (M.segments memory.now) place number }
{
    read_u32(memory, u64::from(place) + 4 * u64::from(number))
}

/// A binding after a name was deleted: 0 where it was bound (section 2.9).
#[tactic(auto, unfolding(crate::specs::Names::binding_after))]
pub fn binding_after(name: u32, binding: u32) -> u32
    ensures { result ≡ binding_after (name ∷ []) binding }
{
    if name == binding { 0 } else { binding }
}

/// An array after a buffer was deleted (section 2.9, own).
#[tactic(auto, unfolding(crate::specs::Names::array_after))]
fn array_after(name: u32, array: ArrayState) -> ArrayState
    ensures { result ≡ array_after (name ∷ []) array }
{
    ArrayState {
        buffer: binding_after(name, array.buffer),
        ..array
    }
}

impl Tracked {
    /// Forgets the bindings of so many buffers, whose names lie from a place of memory on (section 2.9, for arrays own).
    pub(crate) fn delete_buffers<M: Memory>(&mut self, names: u32, count: u32, memory: &M)
        ensures { self.new ≡ without_buffers (names_at (M.segments memory.now) names count) self.old }
    {
        for number in 0..count {
            self.delete_buffer(name_at(memory, names, number));
        }
    }

    /// Forgets the bindings of a buffer.
    #[tactic(auto, unfolding(crate::specs::Names::without_buffers))]
    fn delete_buffer(&mut self, name: u32)
        ensures { self.new ≡ without_buffers (name ∷ []) self.old }
    {
        self.vertex = array_after(name, self.vertex);
        self.normal = array_after(name, self.normal);
        self.colour = array_after(name, self.colour);
        self.texture = [
            array_after(name, self.texture[0]),
            array_after(name, self.texture[1]),
        ];
        self.array_buffer = binding_after(name, self.array_buffer);
        self.element_buffer = binding_after(name, self.element_buffer);
    }
}
