//! The arrays of tracked state by their enumerants.

ghost use Rattle.std.specs.Prelude.{◌≡◌, ◌<◌, List, true};
ghost use Rattle.gl_memory.specs.Segment.{Segment};
ghost use Rattle.gl_tracked.specs.Arrays.{array_of, client_unit, current_coordinates, gives_pointer, with_array, with_enabled, with_pointer};
ghost use Rattle.gl_tracked.specs.Step.{set_by};

use crate::tracked::{ArrayState, Tracked};
use gl_words::Call;

impl Tracked {
    /// The unit whose array of texture coordinates calls set, as its place (section 2.8).
    #[tactic(auto, unfolding(crate::specs::Arrays::client_unit))]
    fn client_unit(&self) -> usize
        ensures unit { result ≡ client_unit self.now }
        ensures few { result < 2 }
    {
        if self.client_active == 0x84C0 { 0 } else { 1 }
    }

    /// The array of texture coordinates of the client active unit (section 2.8).
    #[tactic(auto, unfolding(crate::specs::Arrays::current_coordinates))]
    pub(crate) fn current_coordinates(&self) -> ArrayState
        ensures { result ≡ current_coordinates self.now }
    {
        self.texture[self.client_unit()]
    }

    /// The array of an enumerant (section 2.8).
    #[tactic(auto, unfolding(crate::specs::Arrays::array_of))]
    fn array(&self, array: u32) -> ArrayState
        ensures { result ≡ array_of self.now array }
    {
        if array == 0x8074 {
            self.vertex
        } else if array == 0x8075 {
            self.normal
        } else if array == 0x8076 {
            self.colour
        } else {
            self.current_coordinates()
        }
    }

    /// Puts an array in the place of that of an enumerant (section 2.8).
    #[tactic(auto, unfolding(crate::specs::Arrays::with_array))]
    fn set_array(&mut self, array: u32, new: ArrayState)
        ensures { self.new ≡ with_array self.old array new }
    {
        if array == 0x8074 {
            self.vertex = new;
        } else if array == 0x8075 {
            self.normal = new;
        } else if array == 0x8076 {
            self.colour = new;
        } else {
            let unit = self.client_unit();
            self.texture[unit] = new;
        }
    }

    /// Enables or disables an array (section 2.8).
    #[tactic(auto, unfolding(crate::specs::Arrays::with_enabled))]
    pub(crate) fn set_enabled(&mut self, array: u32, is_on: bool)
        ensures { self.new ≡ with_enabled self.old array is_on }
    {
        let mut changed = self.array(array);
        changed.enabled = is_on;
        self.set_array(array, changed);
    }

    /// Sets where the array of a call stands.
    #[tactic(auto, unfolding(crate::specs::Step::set_by))]
    pub(crate) fn set_pointer(&mut self, call: &Call)
        requires { gives_pointer call.now ≡ true }
        ensures { (memory : List Segment) → self.new ≡ set_by self.old call.now memory }
    {
        match call {
            Call::ColorPointer {
                size,
                kind,
                stride,
                pointer,
            } => self.place_array(0x8076, *size, *kind, *stride, *pointer),
            Call::NormalPointer {
                kind,
                stride,
                pointer,
            } => self.place_array(0x8075, self.normal.size, *kind, *stride, *pointer),
            Call::TexCoordPointer {
                size,
                kind,
                stride,
                pointer,
            } => self.place_array(0x8078, *size, *kind, *stride, *pointer),
            Call::VertexPointer {
                size,
                kind,
                stride,
                pointer,
            } => self.place_array(0x8074, *size, *kind, *stride, *pointer),
            _ => {}
        }
    }

    /// Sets where an array stands, in the buffer bound to ARRAY_BUFFER (sections 2.8 and 2.9).
    #[tactic(auto, unfolding(crate::specs::Arrays::with_pointer))]
    fn place_array(&mut self, array: u32, size: i32, kind: u32, stride: i32, pointer: u32)
        ensures { self.new ≡ with_pointer self.old array size kind stride pointer }
    {
        let changed = ArrayState {
            enabled: self.array(array).enabled,
            size,
            kind,
            stride,
            pointer,
            buffer: self.array_buffer,
        };
        self.set_array(array, changed);
    }
}
