//! The driver that carries calls out by itself, in memory. It packs nothing and waits for nobody.

ghost use Rattle.std.specs.Prelude.{◌≡◌, ◌≢◌, ◌+◌, ◌^◌, ◌<◌, ◌≤◌, ◌≤ℤ◌, pos, ℕ, true, false, None, IfErr, IfOk, IsErr, IsOk, OnErr, OnOk};
ghost use Rattle.std.specs.Thread.{IsSync};
ghost use Rattle.gl_tracked.specs.Fault.{fault_of};
ghost use Rattle.driver_trait.specs.Reply.{replied, Bytes};
ghost use Rattle.gl_objects.specs.Event.{wants_memory, IsEvent};
ghost use Rattle.gl_objects.specs.Step.{reply_of, step};
ghost use Rattle.gl_tracked.specs.Tracked.{IsSound};
ghost use Rattle.triangle_draw.specs.Draw.{cell_after_draw};
ghost use Rattle.triangle_draw.specs.Elements.{AreElements, place_in};
ghost use Rattle.fragment_ops.specs.Cell.{cell_after_clear};
ghost use Rattle.fragment_ops.specs.Frame.{frame_changed, AreSides};
ghost use Rattle.gl_state.specs.Settings.{fragment_state_of};
ghost use Rattle.gl_state.specs.Event.{no_reply};
ghost use Rattle.gl_state.specs.Step.{fault_in, plan_of, private_reply, room_of};
ghost use Rattle.soft_driver.specs.Drawing.{drawing_of};
ghost use Rattle.soft_driver.specs.Pixels.{bytes_read};
ghost use Rattle.soft_driver.specs.Own.{asks_memory, clears_colour, clears_depth, event_of, first_own, frame_after, given_back, memories_of, number_of, objects_changed, own_reply};
ghost use Rattle.soft_driver.specs.Renderer.{first_soft, soft_after, soft_tracked, SoftSteps};
ghost use Rattle.soft_driver.specs.Soft.{soft_is_driver};

use crate::drawing::drawing_of;
use crate::memories::Stored;
use crate::reading;
use driver_trait::{Driver, Machine, Reply, WaitDriver};
use fragment_ops::Frame;
use gl_memory::Memory;
use gl_objects::{Event, EventReply, Names, Objects};
use gl_state::{Plan, Private};
use gl_tracked::Tracked;
use gl_words::Call;
use std::alloc::{AllocError as NoMemory, Global};
use std::marker::Model;
use std::sync::Wait;
use std::thread::Threads;
use triangle_draw::{Elements, draw as draw_triangles};

/// The bits of the colour buffer and of the depth buffer (section 4.2.3).
const COLOUR_BIT: u32 = 0x4000;

const DEPTH_BIT: u32 = 0x100;

/// A context with its frame, and the objects that contexts share, which carries out each call as it comes; own. Contracts see its
/// own state, and the objects.
#[derive(Drop)]
pub struct Soft {
    alloc: Global,
    state: Private,
    frame: Frame,
    objects: Objects,
}

impl Model for Soft {
    ghost use Rattle.soft_driver.specs.Own.{AreTied};
    ghost use Rattle.soft_driver.specs.Renderer.{SoftView};

    ghost Value = { SoftView };

    ghost view = { λ s. record {
      own = record { state = s.state; frame = s.frame };
      objects = s.objects;
    } };

    ghost invariant = { λ s. AreTied s.state s.frame };
}

impl Soft {
    /// A context of this number and of these sides in pixels, at the start, beside objects (section 2.5; the frame's start is
    /// own). After NoMemory the objects come back.
    #[tactic(auto, unfolding(crate::specs::Own::first_own))]
    pub fn new(
        alloc: Global,
        context: u32,
        width: u32,
        height: u32,
        objects: Objects,
    ) -> Result<Soft, (Objects, NoMemory)>
        requires context { context < 4 }
        requires sides { AreSides width height }
        ensures ok { IfOk result (λ soft. soft ≡ first_soft context width height objects) }
        ensures back { IfErr result (λ back. back.0 ≡ objects) }
    {
        match Frame::new(alloc, width, height) {
            Ok(frame) => Ok(Soft {
                alloc,
                state: Private::new(context, width, height),
                frame,
                objects,
            }),
            Err(refused) => Err((objects, refused)),
        }
    }

    /// The frame and the objects, without the rest; own.
    pub fn into_parts(self) -> (Frame, Objects)
        ensures frame { result.0 ≡ self.own.frame }
        ensures objects { result.1 ≡ self.objects }
    {
        (self.frame, self.objects)
    }

    /// The tracked part of its state; own.
    pub fn tracked(&self) -> &Tracked
        ensures tracked { result.now ≡ self.now.own.state.tracked }
        ensures sound { IsSound result.now }
    {
        self.state.tracked()
    }

    /// What a call with its plan replies that is answered and asks objects for nothing, as the own state shows it just before the
    /// call. Only the reply of a list takes memory (sections 2.5, 4.3.1 and 6.1).
    fn reply(&self, plan: Plan, call: &Call) -> Result<Reply, NoMemory>
        requires plan { plan ≡ plan_of self.now.own.state call.now }
        ensures reply { IfOk result (λ reply. replied reply
            ≡ own_reply (fault_in plan) self.now.own call.now no_reply) }
        ensures memory { IsErr result → asks_memory (fault_in plan) call.now ≡ true }
    {
        match plan {
            Plan::Read => self.read(call),
            _ => self.numbers(plan, call),
        }
    }

    /// What a call replies that reads pixels (section 4.3.1).
    fn read(&self, call: &Call) -> Result<Reply, NoMemory>
        requires plan { plan_of self.now.own.state call.now ≡ Plan.Read }
        ensures reply { IfOk result (λ reply. replied reply
            ≡ own_reply None self.now.own call.now no_reply) }
        ensures memory { IsErr result → asks_memory None call.now ≡ true }
    {
        match call {
            Call::ReadPixels {
                x,
                y,
                width,
                height,
                ..
            } => self.pixels(*x, *y, *width, *height),
            _ => unreachable!(),
        }
    }

    /// The bytes of a rectangle of pixels, row by row from its lower left corner on, as a reply (section 4.3.1).
    fn pixels(&self, x: i32, y: i32, width: i32, height: i32) -> Result<Reply, NoMemory>
        requires wide { width ≤ℤ pos 512 }
        requires high { height ≤ℤ pos 512 }
        ensures { IfOk result (λ reply. replied reply
            ≡ Bytes (bytes_read self.now.own.frame x y (number_of width) (number_of height))) }
    {
        let bytes = reading::read(&self.frame, self.alloc, x, y, number(width), number(height))?;
        Ok(Reply::Bytes(bytes))
    }

    /// What the private state replies by itself.
    fn numbers(&self, plan: Plan, call: &Call) -> Result<Reply, NoMemory>
        requires plan { plan ≡ plan_of self.now.own.state call.now }
        ensures reply { IfOk result (λ reply. replied reply
            ≡ private_reply (fault_in plan) self.now.own.state call.now no_reply) }
        ensures memory { IsErr result → room_of plan call.now ≢ 0 }
    {
        let room = self.state.room(self.alloc, plan, call)?;
        Ok(self.state.reply(plan, call, &self.nothing(), room))
    }

    /// What is given back where there is no event.
    fn nothing(&self) -> EventReply
        ensures { result ≡ no_reply }
    {
        EventReply {
            fault: None,
            names: Names::none(self.alloc),
            truth: false,
        }
    }

    /// Takes the step of a call with its plan that asks objects for nothing, and takes no memory. The pixels come first, since they
    /// go by the private state before the call (section 4.2.3). The event of a draw changes no object and gives nothing back, so it
    /// isn't made.
    #[inline(always)]
    fn step<M: Memory>(&mut self, plan: Plan, call: &Call, memory: &M)
        requires plan { plan ≡ plan_of self.old.own.state call.now }
        requires unasked { plan ≢ Plan.Ask }
        ensures { self.new ≡ soft_after self.old call.now (M.segments memory.now) }
    {
        draw(
            plan,
            &self.state,
            &mut self.frame,
            &self.objects,
            call,
            memory,
        );
        self.state.finish(plan, call, memory, None);
    }

    /// Carries a call out whose plan is to answer it, and that asks objects for nothing. Want of memory leaves the driver as it was.
    #[inline(never)]
    fn answer<M: Memory>(&mut self, plan: Plan, call: &Call, memory: &M) -> Result<Reply, NoMemory>
        requires plan { plan ≡ plan_of self.old.own.state call.now }
        requires unasked { plan ≢ Plan.Ask }
        ensures ok { IfOk result
            (λ reply. SoftSteps self.old call.now (M.segments memory.now) self.new (replied reply)) }
        ensures err { OnErr result (self.new ≡ self.old) }
        ensures memory { IsErr result → asks_memory (fault_in plan) call.now ≡ true }
    {
        match self.reply(plan, call) {
            Ok(reply) => {
                self.step(plan, call, memory);
                Ok(reply)
            }
            Err(refused) => Err(refused),
        }
    }

    /// Has the event of a call that asks objects for something applied to them, if it has one, and tells what they gave back. After
    /// NoMemory the objects are as they were (sections 2.9, 3.7.1, 3.7.2, 3.7.4, 3.7.11 and 6.1).
    fn apply<M: Memory>(&mut self, call: &Call, memory: &M) -> Result<EventReply, NoMemory>
        requires asks { plan_of self.old.own.state call.now ≡ Plan.Ask }
        ensures back { IfOk result (λ back. back
            ≡ given_back self.old.objects (event_of self.old.own call.now (M.segments memory.now))) }
        ensures ok { OnOk result (self.new ≡ record self.old {
          objects =
              objects_changed self.old.objects (event_of self.old.own call.now (M.segments memory.now));
        }) }
        ensures err { OnErr result (self.new ≡ self.old) }
        ensures memory { IsErr result → asks_memory None call.now ≡ true }
    {
        match self.state.event(self.alloc, Plan::Ask, call, memory)? {
            Some(event) => applied(&mut self.objects, event),
            None => Ok(self.nothing()),
        }
    }

    /// Carries a call out that asks objects for something. What may be refused comes first: room for the reply, and then the event,
    /// after which nothing is.
    #[inline(never)]
    fn ask<M: Memory>(&mut self, call: &Call, memory: &M) -> Result<Reply, NoMemory>
        requires asks { plan_of self.old.own.state call.now ≡ Plan.Ask }
        ensures ok { IfOk result
            (λ reply. SoftSteps self.old call.now (M.segments memory.now) self.new (replied reply)) }
        ensures err { OnErr result (self.new ≡ self.old) }
        ensures memory { IsErr result → asks_memory None call.now ≡ true }
    {
        let room = self.state.room(self.alloc, Plan::Ask, call)?;
        let back = self.apply(call, memory)?;
        let reply = self.state.reply(Plan::Ask, call, &back, room);
        self.state.finish(Plan::Ask, call, memory, back.fault);
        Ok(reply)
    }

    /// Carries a call out on a memory, and gives its reply: what it asks for is looked up only where it asks. Want of memory
    /// leaves the driver as it was.
    #[inline(always)]
    fn carry_out<M: Memory>(&mut self, call: &Call, memory: &M) -> Result<Reply, NoMemory>
        ensures ok { IfOk result
            (λ reply. SoftSteps self.old call.now (M.segments memory.now) self.new (replied reply)) }
        ensures err { OnErr result (self.new ≡ self.old) }
        ensures memory { IsErr result
            → asks_memory (fault_of self.old.own.state.tracked call.now) call.now ≡ true }
    {
        let plan = self.state.plan(call);
        match plan {
            Plan::Known(_) | Plan::Query | Plan::Read => self.answer(plan, call, memory),
            Plan::Ask => self.ask(call, memory),
            _ => {
                self.step(plan, call, memory);
                Ok(Reply::Nothing)
            }
        }
    }
}

impl Machine for Soft {
    ghost tracked = { soft_tracked };

    ghost steps = { SoftSteps };

    ghost laws = { soft_is_driver };
}

impl Driver for Soft {
    /// Carries a call out on a memory, and gives its reply. Want of memory leaves the driver as it was, and only a reply of a list
    /// and an event of the objects take any. What calls do is OpenGL ES's (chapters 2 to 6), that memory may be wanted own.
    fn call<T: Threads + Sync, M: Memory>(
        &mut self,
        _rt: &T,
        call: &Call,
        memory: &M,
    ) -> Result<Reply, NoMemory>
        ensures ok { IfOk result
            (λ reply. SoftSteps self.old call.now (M.segments memory.now) self.new (replied reply)) }
        ensures err { OnErr result (self.new ≡ self.old) }
        ensures memory { IsErr result
            → asks_memory (fault_of self.old.own.state.tracked call.now) call.now ≡ true }
    {
        self.carry_out(call, memory)
    }
}

impl WaitDriver for Soft {
    /// The same call, which waits for nobody.
    fn call<T: Threads + Sync, W: Wait, M: Memory>(
        &mut self,
        _rt: &T,
        _wait: &W,
        call: &Call,
        memory: &M,
    ) -> Result<Reply, NoMemory>
        ensures ok { IfOk result
            (λ reply. SoftSteps self.old call.now (M.segments memory.now) self.new (replied reply)) }
        ensures err { OnErr result (self.new ≡ self.old) }
        ensures memory { IsErr result
            → asks_memory (fault_of self.old.own.state.tracked call.now) call.now ≡ true }
    {
        self.carry_out(call, memory)
    }
}

/// Has an event applied to objects, which take its bytes, and tells what they gave back. After NoMemory they are as they were.
fn applied(objects: &mut Objects, event: Event) -> Result<EventReply, NoMemory>
    requires event { IsEvent event }
    ensures reply { IfOk result (λ reply. reply ≡ reply_of objects.old event) }
    ensures ok { OnOk result (objects.new ≡ step objects.old event) }
    ensures err { OnErr result (objects.new ≡ objects.old) }
    ensures asks { wants_memory event ≡ false → IsOk result }
{
    objects.take(event)
}

/// A number that isn't below 0, and 0 for all others; no side that is read and no element that is drawn is below 0.
fn number(signed: i32) -> u32
    ensures number { result ≡ number_of signed }
    ensures few { (most : ℕ) → signed ≤ℤ pos most → result ≤ most }
    ensures fits { result < 2 ^ 31 }
{
    if signed < 0 { 0 } else { signed as u32 }
}

/// Changes the pixels that a call with its plan changes.
#[inline(always)]
fn draw<M: Memory>(
    plan: Plan,
    state: &Private,
    frame: &mut Frame,
    objects: &Objects,
    call: &Call,
    memory: &M,
)
    requires plan { plan ≡ plan_of state.now call.now }
    ensures { frame.new ≡ frame_after (fault_in plan) state.now frame.old objects.now call.now
        (M.segments memory.now) }
{
    match plan {
        Plan::Draw => draw_planned(state, frame, objects, call, memory),
        _ => {}
    }
}

/// Changes the pixels that a call without an error changes (sections 2.8, 2.9 and 4.2.3).
#[inline(never)]
fn draw_planned<M: Memory>(
    state: &Private,
    frame: &mut Frame,
    objects: &Objects,
    call: &Call,
    memory: &M,
)
    requires no_fault { fault_of state.now.tracked call.now ≡ None }
    ensures { frame.new ≡ frame_after None state.now frame.old objects.now call.now
        (M.segments memory.now) }
{
    let memories = Stored { memory, objects };
    match call {
        Call::Clear { mask } => clear(state, frame, *mask),
        Call::DrawArrays { mode, first, count } => {
            let elements = Elements::From(number(*first));
            draw_elements(state, frame, &memories, *mode, elements, *count);
        }
        Call::DrawElements {
            mode,
            count,
            kind,
            indices,
        } => {
            let elements = Elements::Indexed {
                buffer: state.tracked().element_buffer,
                kind: *kind,
                place: *indices,
            };
            draw_elements(state, frame, &memories, *mode, elements, *count);
        }
        _ => {}
    }
}

/// Clears what a mask has a bit of (section 4.2.3).
fn clear(state: &Private, frame: &mut Frame, mask: u32)
    ensures { frame.new ≡ frame_changed (λ place. cell_after_clear place
        (fragment_state_of state.now.settings) (clears_colour mask) (clears_depth mask)) frame.old }
{
    let fragments = state.fragment_state();
    frame.clear(&fragments, clears_colour(mask), clears_depth(mask));
}

/// Whether a mask has the bit of the colour buffer (section 4.2.3).
fn clears_colour(mask: u32) -> bool
    ensures { result ≡ clears_colour mask }
{
    mask & COLOUR_BIT == COLOUR_BIT
}

/// Whether a mask has the bit of the depth buffer (section 4.2.3).
fn clears_depth(mask: u32) -> bool
    ensures { result ≡ clears_depth mask }
{
    mask & DEPTH_BIT == DEPTH_BIT
}

/// Draws so many elements (sections 2.8 and 2.9).
fn draw_elements<M: Memory>(
    state: &Private,
    frame: &mut Frame,
    memories: &Stored<'_, M>,
    mode: u32,
    elements: Elements,
    count: i32,
)
    requires elements { AreElements elements }
    requires few { count ≤ℤ pos 65536 }
    ensures { let each = memories_of memories.now.objects.now (M.segments memories.now.memory.now) in
        let drawing = drawing_of state.now memories.now.objects.now in
        frame.new ≡ frame_changed (cell_after_draw drawing each mode
        (place_in elements each) (number_of count)) frame.old }
{
    let drawing = drawing_of(state, memories.objects);
    draw_triangles(frame, &drawing, memories, mode, elements, number(count));
}
