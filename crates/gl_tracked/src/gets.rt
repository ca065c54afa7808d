//! The number of tracked state for which a call asks.

ghost use Rattle.std.specs.Prelude.{◌≡◌, ◌<◌, pos};
ghost use Rattle.std.specs.Option.{option_or};
ghost use Rattle.gl_tracked.specs.Gets.{array_rows, buffer_rows, enabled_asked, enabled_rows, integer_asked, mode_rows, number_beside, number_of_truth, pointer_asked, pointer_rows};
ghost use Rattle.gl_tracked.specs.Stack.{depth_at, texture_stack};
ghost use Rattle.gl_tracked.specs.Step.{number_asked};

use crate::tracked::Tracked;
use gl_words::Call;

impl Tracked {
    /// The number of tracked state for which a call asks, if it asks for one (section 6.1).
    #[tactic(auto, unfolding(crate::specs::Step::number_asked))]
    pub fn asked(&self, call: &Call) -> Option<i64>
        ensures { result ≡ number_asked self.now call.now }
    {
        match call {
            Call::GetIntegerv { pname, .. } => self.integer(*pname),
            Call::GetPointerv { pname, .. } => self.pointer(*pname),
            Call::IsEnabled { cap } => self.enabled(*cap),
            _ => None,
        }
    }

    /// What GetIntegerv gives for a name, if it is one of tracked state (section 6.1.1).
    #[tactic(auto, unfolding(crate::specs::Gets::integer_asked))]
    pub(crate) fn integer(&self, name: u32) -> Option<i64>
        ensures { result ≡ integer_asked self.now name }
    {
        match self.mode_number(name) {
            Some(number) => Some(number),
            None => self.array_or_buffer_number(name),
        }
    }

    /// The number of an array, and where the name has none, that of a buffer.
    fn array_or_buffer_number(&self, name: u32) -> Option<i64>
        ensures { result ≡ option_or (number_beside (array_rows self.now) name)
            (number_beside (buffer_rows self.now) name) }
    {
        match self.array_number(name) {
            Some(number) => Some(number),
            None => self.buffer_number(name),
        }
    }

    #[tactic(auto, unfolding(crate::specs::Gets::mode_rows))]
    fn mode_number(&self, name: u32) -> Option<i64>
        ensures { result ≡ number_beside (mode_rows self.now) name }
    {
        match name {
            0x0BA0 => Some(i64::from(self.matrix_mode)),
            0x0BA3 => Some(self.depth_at(0)),
            0x0BA4 => Some(self.depth_at(1)),
            0x0BA5 => Some(self.depth_at(self.texture_stack())),
            0x0CF5 => Some(i64::from(self.unpack_alignment)),
            0x0D05 => Some(i64::from(self.pack_alignment)),
            0x84E0 => Some(i64::from(self.active)),
            0x84E1 => Some(i64::from(self.client_active)),
            _ => None,
        }
    }

    #[tactic(auto, unfolding(crate::specs::Stack::depth_at))]
    fn depth_at(&self, place: usize) -> i64
        requires { place < 4 }
        ensures { result ≡ pos (depth_at self.now place) }
    {
        i64::from(self.depths[place])
    }

    #[tactic(auto, unfolding(crate::specs::Stack::texture_stack))]
    fn texture_stack(&self) -> usize
        ensures stack { result ≡ texture_stack self.now }
        ensures few { result < 4 }
    {
        if self.active == 0x84C0 { 2 } else { 3 }
    }

    #[tactic(auto, unfolding(crate::specs::Gets::array_rows))]
    fn array_number(&self, name: u32) -> Option<i64>
        ensures { result ≡ number_beside (array_rows self.now) name }
    {
        match name {
            0x807A => Some(i64::from(self.vertex.size)),
            0x807B => Some(i64::from(self.vertex.kind)),
            0x807C => Some(i64::from(self.vertex.stride)),
            0x807E => Some(i64::from(self.normal.kind)),
            0x807F => Some(i64::from(self.normal.stride)),
            0x8081 => Some(i64::from(self.colour.size)),
            0x8082 => Some(i64::from(self.colour.kind)),
            0x8083 => Some(i64::from(self.colour.stride)),
            0x8088 => Some(i64::from(self.current_coordinates().size)),
            0x8089 => Some(i64::from(self.current_coordinates().kind)),
            0x808A => Some(i64::from(self.current_coordinates().stride)),
            _ => None,
        }
    }

    #[tactic(auto, unfolding(crate::specs::Gets::buffer_rows))]
    fn buffer_number(&self, name: u32) -> Option<i64>
        ensures { result ≡ number_beside (buffer_rows self.now) name }
    {
        match name {
            0x8894 => Some(i64::from(self.array_buffer)),
            0x8895 => Some(i64::from(self.element_buffer)),
            0x8896 => Some(i64::from(self.vertex.buffer)),
            0x8897 => Some(i64::from(self.normal.buffer)),
            0x8898 => Some(i64::from(self.colour.buffer)),
            0x889A => Some(i64::from(self.current_coordinates().buffer)),
            _ => None,
        }
    }

    /// What GetPointerv gives for a name, if it takes it (section 6.1.1).
    #[tactic(auto, unfolding(crate::specs::Gets::pointer_asked, crate::specs::Gets::pointer_rows))]
    pub(crate) fn pointer(&self, name: u32) -> Option<i64>
        ensures { result ≡ pointer_asked self.now name }
    {
        match name {
            0x808E => Some(i64::from(self.vertex.pointer)),
            0x808F => Some(i64::from(self.normal.pointer)),
            0x8090 => Some(i64::from(self.colour.pointer)),
            0x8092 => Some(i64::from(self.current_coordinates().pointer)),
            _ => None,
        }
    }

    /// What IsEnabled gives for a name, if it is one of an array (section 6.1.1).
    #[tactic(auto, unfolding(crate::specs::Gets::enabled_asked, crate::specs::Gets::enabled_rows))]
    pub(crate) fn enabled(&self, name: u32) -> Option<i64>
        ensures { result ≡ enabled_asked self.now name }
    {
        match name {
            0x8074 => Some(number_of_truth(self.vertex.enabled)),
            0x8075 => Some(number_of_truth(self.normal.enabled)),
            0x8076 => Some(number_of_truth(self.colour.enabled)),
            0x8078 => Some(number_of_truth(self.current_coordinates().enabled)),
            _ => None,
        }
    }
}

/// 1 for what is so, 0 for what isn't (section 6.1.2).
fn number_of_truth(is_so: bool) -> i64
    ensures { result ≡ number_of_truth is_so }
{
    if is_so { 1 } else { 0 }
}
