//! How a call is carried out: what is found of it, which event it makes, and which objects a draw uses.

ghost use Rattle.std.specs.Prelude.{◌≡◌, ◌==◌, ◌≤◌, ◌+◌, ◌<◌, ◌++◌, if◌then◌else◌, None, Some, true, length, IfErr, IfOk, IfSome, IsErr};
ghost use Rattle.gl_objects.specs.Event.{IsEvent};
ghost use Rattle.gl_objects.specs.Step.{names_of};
ghost use Rattle.gl_objects.specs.View.{ObjectsView};
ghost use Rattle.gl_tracked.specs.Count.{count_of};
ghost use Rattle.gl_tracked.specs.Fault.{fault_of};
ghost use Rattle.gl_state.specs.Event.{ask_of, buffer_used, changes_texture, event_by, gives_content, pitch_in, texture_bound, texture_named, texture_used, unless_zero, use_by, use_of, use_unless_none, used_buffers, used_textures, used_unless_zero, IsAsk};
ghost use Rattle.gl_state.specs.Step.{fault_in, plan_by, plan_of, room_of};

use crate::ask::Ask;
use crate::images::format_of;
use crate::plan::Plan;
use crate::private::Private;
use gl_memory::Memory;
use gl_objects::{Event, Kind, UsedBuffers, UsedTextures};
use gl_tracked::{ArrayState, Finding, Tracked, count_of, pitch_of, side_of, texel_size};
use gl_words::Call;
use std::alloc::{AllocError as NoMemory, Global};

/// The first of the names of default textures; own.
const DEFAULT_TEXTURE: u64 = 4_294_967_296;

impl Private {
    /// How a call is carried out: all that is found of it, at one look; own. It takes no memory.
    #[tactic(auto, unfolding(crate::specs::Step::plan_of))]
    pub fn plan(&self, call: &Call) -> Plan
        ensures plan { result ≡ plan_of self.now call.now }
        ensures fault { fault_in result ≡ fault_of self.now.tracked call.now }
    {
        match self.tracked().finding(call) {
            Finding::Number(number) => Plan::Known(number),
            Finding::Fault(Some(error)) => Plan::Fault(error),
            Finding::Fault(None) => plan_without_fault(call),
        }
    }

    /// The event that a call with its plan makes on a memory, if it makes one. It gives no more names than there is room for in
    /// the reply. Only bytes and names of its own take memory (sections 2.8, 2.9, 3.7.11 and 6.1).
    pub fn event<M: Memory>(
        &self,
        alloc: Global,
        plan: Plan,
        call: &Call,
        memory: &M,
    ) -> Result<Option<Event>, NoMemory>
        requires plan { plan ≡ plan_of self.now call.now }
        ensures event { IfOk result (λ event. event
            ≡ event_by (fault_in plan) self.now call.now (M.segments memory.now)) }
        ensures legal { IfOk result (λ event. IfSome event IsEvent) }
        ensures few { (objects : ObjectsView) → IfOk result (λ event. IfSome event
            (λ event. length (names_of objects event) ≤ room_of plan call.now)) }
        ensures memory { IsErr result → gives_content call.now ≡ true }
    {
        match plan {
            Plan::Ask => match self.ask(call) {
                Some(ask) => Ok(Some(ask.event(alloc, memory)?)),
                None => Ok(None),
            },
            Plan::Draw => Ok(self.used(call)),
            _ => Ok(None),
        }
    }

    /// The event that a call without an error makes besides drawing, with its bytes and names still in memory (sections
    /// 2.9, 3.7.1, 3.7.2, 3.7.4, 3.7.11 and 6.1).
    #[tactic(auto, unfolding(crate::specs::Event::ask_of))]
    pub fn ask(&self, call: &Call) -> Option<Ask>
        requires no_fault { fault_of self.now.tracked call.now ≡ None }
        ensures ask { result ≡ ask_of self.now call.now }
        ensures named { IfSome result IsAsk }
    {
        match call {
            Call::BindBuffer { buffer, .. } => bind(Kind::Buffer, *buffer),
            Call::BindTexture { texture, .. } => bind(Kind::Texture, *texture),
            Call::BufferData {
                target,
                size,
                source,
                ..
            } => Some(Ask::Bytes {
                name: self.tracked().bound_buffer(*target),
                size: count_of(*size),
                source: *source,
            }),
            Call::BufferSubData {
                target,
                offset,
                size,
                source,
            } => Some(Ask::Part {
                name: self.tracked().bound_buffer(*target),
                offset: count_of(*offset),
                size: count_of(*size),
                source: *source,
            }),
            Call::DeleteBuffers { n, names } => Some(delete(Kind::Buffer, *n, *names)),
            Call::DeleteTextures { n, names } => Some(delete(Kind::Texture, *n, *names)),
            Call::GenBuffers { n, .. } => Some(generate(Kind::Buffer, *n)),
            Call::GenTextures { n, .. } => Some(generate(Kind::Texture, *n)),
            Call::IsBuffer { buffer } => is(Kind::Buffer, *buffer),
            Call::IsTexture { texture } => is(Kind::Texture, *texture),
            Call::TexImage2D { .. } | Call::TexParameteri { .. } | Call::TexSubImage2D { .. } =>
                self.ask_of_texture(call),
            _ => None,
        }
    }

    /// The event of a call without an error that gives the bound texture an image, a part of one, or a parameter (sections
    /// 3.7.1, 3.7.2 and 3.7.4).
    #[tactic(auto, unfolding(crate::specs::Event::ask_of))]
    fn ask_of_texture(&self, call: &Call) -> Option<Ask>
        requires no_fault { fault_of self.now.tracked call.now ≡ None }
        requires texture { changes_texture call.now ≡ true }
        ensures ask { result ≡ ask_of self.now call.now }
        ensures named { IfSome result IsAsk }
    {
        let name = self.texture_bound(self.unit());
        match call {
            Call::TexImage2D {
                width,
                height,
                format,
                pixels,
                ..
            } => Some(Ask::Image {
                name,
                format: format_of(*format),
                width: side_of(*width),
                height: side_of(*height),
                pitch: pitch_in(self.tracked(), *format, *width),
                source: *pixels,
            }),
            Call::TexParameteri { pname, param, .. } => Some(Ask::Parameter {
                name,
                pname: *pname,
                value: *param,
            }),
            Call::TexSubImage2D {
                xoffset,
                yoffset,
                width,
                height,
                format,
                pixels,
                ..
            } => Some(Ask::ImagePart {
                name,
                format: format_of(*format),
                x: count_of(*xoffset),
                y: count_of(*yoffset),
                width: side_of(*width),
                height: side_of(*height),
                pitch: pitch_in(self.tracked(), *format, *width),
                source: *pixels,
            }),
            _ => None,
        }
    }

    /// The name of the texture that is bound in the unit at place 0 or 1 (section 3.7.11).
    #[tactic(auto, unfolding(crate::specs::Event::texture_bound))]
    pub fn texture_bound(&self, unit: usize) -> u64
        requires { unit < 2 }
        ensures { result ≡ texture_bound self.now unit }
    {
        texture_named(self.context(), self.settings().bindings[unit])
    }

    /// The event of a draw without an error, and none of every other call (sections 2.8 and 3.7.12, own).
    #[tactic(auto, unfolding(crate::specs::Event::use_of))]
    pub fn used(&self, call: &Call) -> Option<Event>
        ensures used { result ≡ use_of self.now call.now }
        ensures legal { IfSome result IsEvent }
    {
        match call {
            Call::DrawArrays { count, .. } => self.used_by(*count, 0),
            Call::DrawElements { count, .. } => {
                self.used_by(*count, self.tracked().element_buffer)
            }
            _ => None,
        }
    }

    /// The event of a draw of so many elements, with the buffer in which its indices lie, or 0 (section 2.9).
    #[tactic(auto, unfolding(crate::specs::Event::use_by))]
    fn used_by(&self, count: i32, elements: u32) -> Option<Event>
        ensures used { result ≡ use_by self.now count elements }
        ensures legal { IfSome result IsEvent }
    {
        if count > 0 && self.tracked().vertex.enabled {
            used(self.used_buffers(elements), self.used_textures())
        } else {
            None
        }
    }

    /// The buffers that a draw uses, in their order (section 2.9).
    #[tactic(auto, unfolding(crate::specs::Event::used_buffers))]
    fn used_buffers(&self, elements: u32) -> UsedBuffers
        ensures { result ≡ used_buffers self.now.tracked elements }
    {
        let tracked = self.tracked();
        let mut buffers = UsedBuffers::new();
        use_buffer_of(&mut buffers, &tracked.vertex);
        use_buffer_of(&mut buffers, &tracked.normal);
        use_buffer_of(&mut buffers, &tracked.colour);
        use_buffer_of(&mut buffers, &tracked.texture[0]);
        use_buffer_of(&mut buffers, &tracked.texture[1]);
        use_buffer(&mut buffers, elements);
        buffers
    }

    /// The textures that a draw uses, in their order (section 3.7.12).
    #[tactic(auto, unfolding(crate::specs::Event::used_textures))]
    fn used_textures(&self) -> UsedTextures
        ensures { result ≡ used_textures self.now }
    {
        let mut textures = UsedTextures::new();
        self.use_texture(&mut textures, 0);
        self.use_texture(&mut textures, 1);
        textures
    }

    /// Puts the texture of the unit at place 0 or 1 behind the others, where TEXTURE_2D is enabled in it (section 3.7.12).
    #[tactic(auto, unfolding(crate::specs::Event::texture_used))]
    fn use_texture(&self, textures: &mut UsedTextures, unit: usize)
        requires unit { unit < 2 }
        requires room { length textures.old < 2 }
        ensures used { textures.new ≡ textures.old ++ texture_used self.now unit }
        ensures few { length textures.new ≤ length textures.old + 1 }
    {
        let settings = self.settings();
        if settings.capabilities.texture_2d[unit] {
            textures.push(self.texture_bound(unit));
        }
    }
}

/// How a call without an error is carried out that asks for no number of tracked state.
fn plan_without_fault(call: &Call) -> Plan
    ensures { result ≡ plan_by None call.now }
{
    match call {
        Call::BindBuffer { .. }
        | Call::BindTexture { .. }
        | Call::BufferData { .. }
        | Call::BufferSubData { .. }
        | Call::DeleteBuffers { .. }
        | Call::DeleteTextures { .. }
        | Call::GenBuffers { .. }
        | Call::GenTextures { .. }
        | Call::IsBuffer { .. }
        | Call::IsTexture { .. }
        | Call::TexImage2D { .. }
        | Call::TexParameteri { .. }
        | Call::TexSubImage2D { .. } => Plan::Ask,
        Call::Clear { .. } | Call::DrawArrays { .. } | Call::DrawElements { .. } => Plan::Draw,
        Call::ReadPixels { .. } => Plan::Read,
        Call::GetError
        | Call::GetFixedv { .. }
        | Call::GetIntegerv { .. }
        | Call::GetPointerv { .. }
        | Call::IsEnabled { .. } => Plan::Query,
        _ => Plan::Local,
    }
}

/// From one row of an image to the next in memory, in bytes, by the number of its format and its width in texels: at
/// UNPACK_ALIGNMENT (sections 3.6.1 and 3.6.2).
#[tactic(auto, unfolding(crate::specs::Event::pitch_in))]
fn pitch_in(tracked: &Tracked, format: u32, width: i32) -> u32
    ensures { result ≡ pitch_in tracked.now format width }
{
    let row = side_of(width) * texel_size(format);
    pitch_of(count_of(tracked.unpack_alignment), row) as u32
}

/// What the bind of a name asks for: with 0 nothing (sections 2.9 and 3.7.11).
fn bind(kind: Kind, name: u32) -> Option<Ask>
    ensures ask { result ≡ unless_zero name (Ask.Bind kind name) }
    ensures named { IfSome result IsAsk }
{
    if name == 0 {
        None
    } else {
        Some(Ask::Bind { kind, name })
    }
}

/// What the question whether a name is that of an object asks for: of 0 nothing, which is none (sections 6.1.4 and 6.1.6).
fn is(kind: Kind, name: u32) -> Option<Ask>
    ensures ask { result ≡ unless_zero name (Ask.Is kind name) }
    ensures named { IfSome result IsAsk }
{
    if name == 0 {
        None
    } else {
        Some(Ask::Is { kind, name })
    }
}

/// The deletion of so many names, which lie from a place of memory on (sections 2.9 and 3.7.11).
fn delete(kind: Kind, n: i32, names: u32) -> Ask
    ensures { result ≡ Ask.Delete kind (count_of n) names }
{
    Ask::Delete {
        kind,
        n: count_of(n),
        names,
    }
}

/// The wish for so many names (sections 2.9 and 3.7.11).
fn generate(kind: Kind, n: i32) -> Ask
    ensures { result ≡ Ask.Gen kind (count_of n) }
{
    Ask::Gen {
        kind,
        n: count_of(n),
    }
}

/// The event of a draw that uses these objects, if it uses any; own.
fn used(buffers: UsedBuffers, textures: UsedTextures) -> Option<Event>
    ensures used { result ≡ use_unless_none buffers textures }
    ensures legal { IfSome result IsEvent }
{
    if buffers.as_slice().is_empty() && textures.as_slice().is_empty() {
        None
    } else {
        Some(Event::Use { buffers, textures })
    }
}

/// Puts the buffer of an array behind the others, where the array is enabled and lies in one (section 2.9).
#[tactic(auto, unfolding(crate::specs::Event::buffer_used))]
fn use_buffer_of(buffers: &mut UsedBuffers, array: &ArrayState)
    requires room { length buffers.old < 6 }
    ensures used { buffers.new ≡ buffers.old ++ buffer_used array.now }
    ensures few { length buffers.new ≤ length buffers.old + 1 }
{
    if array.enabled {
        use_buffer(buffers, array.buffer);
    }
}

/// Puts a buffer behind the others, unless it is 0 (section 2.9).
fn use_buffer(buffers: &mut UsedBuffers, name: u32)
    requires room { length buffers.old < 6 }
    ensures used { buffers.new ≡ buffers.old ++ used_unless_zero name }
    ensures few { length buffers.new ≤ length buffers.old + 1 }
{
    if name != 0 {
        buffers.push(name);
    }
}

/// The name of the texture of a binding in a context: 0 stands for the context's default texture (section 3.7.11, that one's
/// name own).
#[tactic(auto, unfolding(crate::specs::Event::texture_named))]
fn texture_named(context: u32, binding: u32) -> u64
    ensures { result ≡ texture_named context binding }
{
    if binding == 0 {
        DEFAULT_TEXTURE + u64::from(context)
    } else {
        u64::from(binding)
    }
}
