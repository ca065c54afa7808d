//! The private state of a context, its state at the start, and what a call does to it.

ghost use Rattle.std.specs.Prelude.{◌≡◌, ◌<◌, ◌≤◌, ◌≢◌, None, [], length, IfOk, IsErr};
ghost use Rattle.gl_tracked.specs.Fault.{fault_of};
ghost use Rattle.driver_trait.specs.Reply.{replied};
ghost use Rattle.gl_tracked.specs.Tracked.{IsSound};
ghost use Rattle.gl_state.specs.Gets.{fixed_length, integers_length};
ghost use Rattle.gl_state.specs.Private.{first_private};
ghost use Rattle.gl_state.specs.Settings.{fragment_state_of, AreAccepted, AreClamped};
ghost use Rattle.gl_state.specs.Stacks.{current_of, texture_of};
ghost use Rattle.gl_state.specs.Step.{code_of_error, error_set_by, fault_in, list_length, plan_by, plan_of, private_after, private_reply, recorded, recorded_by, room_of};
ghost use Rattle.fixed_transform.specs.Stack.{top_of};
ghost use Rattle.fragment_ops.specs.Frame.{AreSides};
ghost use Rattle.fragment_ops.specs.State.{AreWithinOne, IsFragmentState};

use crate::plan::Plan;
use crate::settings::Settings;
use crate::stacks::Stacks;
use driver_trait::Reply;
use fixed_transform::Matrix;
use fragment_ops::FragmentState;
use gl_memory::{Memory, Numbers};
use gl_objects::EventReply;
use gl_tracked::{Tracked, count_of};
use gl_words::{Call, GlError};
use std::alloc::{AllocError as NoMemory, Global};
use std::marker::Model;

/// All state of a context but objects and pixels; own. Contracts see its parts, and each stack as the list of its
/// matrices, the top one first.
#[derive(Drop)]
pub struct Private {
    /// 0 to 3; own.
    context: u32,
    /// In pixels, 1 to 256; own.
    width: u32,
    height: u32,
    /// The recorded error (section 2.5).
    error: Option<GlError>,
    tracked: Tracked,
    /// The stacks (section 2.10.2).
    stacks: Stacks,
    settings: Settings,
}

impl Model for Private {
    ghost use Rattle.gl_state.specs.Private.{PrivateView, IsWhole};

    ghost Value = { PrivateView };

    ghost view = { λ p. record {
      context = p.context;
      width = p.width;
      height = p.height;
      error = p.error;
      tracked = p.tracked;
      stacks = p.stacks;
      settings = p.settings;
    } };

    ghost invariant = { λ p. IsWhole p.tracked p.stacks p.settings };
}

impl Private {
    /// The state of a context at the start, of this number and with a frame of these sides in pixels (sections 2.5 and
    /// 2.10.2, tables 6.4 to 6.20).
    #[tactic(auto, unfolding(crate::specs::Private::first_private))]
    pub fn new(context: u32, width: u32, height: u32) -> Private
        requires context { context < 4 }
        requires sides { AreSides width height }
        ensures { result ≡ first_private context width height }
    {
        Private {
            context,
            width,
            height,
            error: None,
            tracked: Tracked::first(),
            stacks: Stacks::new(),
            settings: Settings::new(width, height),
        }
    }

    /// Its number; own.
    pub fn context(&self) -> u32
        ensures { result ≡ self.now.context }
    {
        self.context
    }

    /// The width of its frame in pixels; own.
    pub fn width(&self) -> u32
        ensures { result ≡ self.now.width }
    {
        self.width
    }

    /// The height of its frame in pixels; own.
    pub fn height(&self) -> u32
        ensures { result ≡ self.now.height }
    {
        self.height
    }

    /// Its tracked part; own.
    pub fn tracked(&self) -> &Tracked
        ensures tracked { result.now ≡ self.now.tracked }
        ensures sound { IsSound result.now }
    {
        &self.tracked
    }

    /// What calls set besides stacks, tracked state and errors; own.
    pub fn settings(&self) -> &Settings
        ensures settings { result.now ≡ self.now.settings }
        ensures clamped { AreClamped result.now }
        ensures accepted { AreAccepted result.now }
    {
        &self.settings
    }

    /// The clear colour: red, green, blue and alpha, 16.16 fixed (section 4.2.3).
    pub fn clear_colour(&self) -> [i32; 4]
        ensures colour { result ≡ self.now.settings.clear_colour }
        ensures within { AreWithinOne result }
    {
        self.settings.clear_colour
    }

    /// What fragment operations take of the settings (sections 4.1.2 to 4.2.3).
    #[tactic(auto, unfolding(crate::specs::Settings::fragment_state_of))]
    pub fn fragment_state(&self) -> FragmentState
        ensures state { result ≡ fragment_state_of self.now.settings }
        ensures whole { IsFragmentState result }
    {
        let settings = &self.settings;
        FragmentState {
            scissor_on: settings.capabilities.scissor_test,
            scissor: settings.scissor,
            alpha_on: settings.capabilities.alpha_test,
            alpha_func: settings.alpha_func,
            alpha_reference: settings.alpha_reference,
            depth_on: settings.capabilities.depth_test,
            depth_func: settings.depth_func,
            depth_mask: settings.depth_mask,
            blend_on: settings.capabilities.blend,
            source_factor: settings.source_factor,
            dest_factor: settings.dest_factor,
            colour_mask: settings.colour_mask,
            clear_colour: settings.clear_colour,
            clear_depth: settings.clear_depth,
        }
    }

    /// The matrix of the model view, the top one of its stack (section 2.10.2).
    pub fn model_view(&self) -> &Matrix
        ensures { result.now ≡ top_of self.now.stacks.model_view }
    {
        self.stacks.top(0x1700, 0x84C0)
    }

    /// The matrix of the projection, the top one of its stack (section 2.10.2).
    pub fn projection(&self) -> &Matrix
        ensures { result.now ≡ top_of self.now.stacks.projection }
    {
        self.stacks.top(0x1701, 0x84C0)
    }

    /// The matrix of the textures of the unit at place 0 or 1, the top one of its stack (section 2.10.2).
    pub fn texture_matrix(&self, unit: usize) -> &Matrix
        requires { unit < 2 }
        ensures { result.now ≡ top_of (texture_of self.now.stacks unit) }
    {
        self.stacks.texture(unit)
    }

    /// The matrix that would be the current one in a mode, the active unit being as it is (section 2.10.2).
    pub(crate) fn top_at(&self, mode: u32) -> &Matrix
        ensures { let p = self.now in
            result.now ≡ top_of (current_of p.stacks mode p.tracked.active) }
    {
        self.stacks.top(mode, self.tracked.active)
    }

    /// The number of the recorded error, 0 where there is none (section 2.5).
    pub(crate) fn error_code(&self) -> u32
        ensures { result ≡ code_of_error self.now.error }
    {
        match self.error {
            Some(error) => error.code(),
            None => 0,
        }
    }

    /// Room for the numbers of a call's reply, where they are a list: it is asked for before the call's event is applied.
    /// Only this and `event` take memory, and this only for such a call; own.
    pub fn room(&self, alloc: Global, plan: Plan, call: &Call) -> Result<Numbers, NoMemory>
        ensures room { IfOk result (λ numbers. numbers
            ≡ record { items = []; room = room_of plan call.now }) }
        ensures err { IsErr result → room_of plan call.now ≢ 0 }
    {
        match plan {
            Plan::Query | Plan::Ask => room_for_list(alloc, call),
            _ => Ok(Numbers::none(alloc)),
        }
    }

    /// What a call other than ReadPixels replies, as the private state shows it just before the call, its event having given
    /// this back; the numbers of a list go into the room for them. It takes no memory (sections 2.5, 2.9, 3.7.11 and 6.1).
    pub fn reply(&self, plan: Plan, call: &Call, event: &EventReply, room: Numbers) -> Reply
        requires plan { plan ≡ plan_of self.now call.now }
        requires empty { room.items ≡ [] }
        requires room { room_of plan call.now ≤ room.room }
        requires names { length event.now.names ≤ room_of plan call.now }
        ensures { replied result ≡ private_reply (fault_in plan) self.now call.now event.now }
    {
        match plan {
            Plan::Known(number) => Reply::One(number),
            Plan::Query | Plan::Ask => self.answer(call, event, room),
            _ => Reply::Nothing,
        }
    }

    /// Takes the step of a call with its plan on a memory: an error is recorded, and nothing else is done (section 2.5). What its
    /// event was refused for, if it made one, is recorded after it (section 2.9).
    pub fn finish<M: Memory>(
        &mut self,
        plan: Plan,
        call: &Call,
        memory: &M,
        refused: Option<GlError>,
    )
        requires plan { plan ≡ plan_of self.old call.now }
        ensures { self.new ≡ private_after (fault_in plan) self.old call.now
            (M.segments memory.now) refused }
    {
        match plan {
            Plan::Fault(error) => self.note_error(error),
            Plan::Query => {
                self.forget_error(call);
                self.note_refused(refused);
            }
            Plan::Ask | Plan::Local => {
                self.set(call, memory);
                self.note_refused(refused);
            }
            _ => self.note_refused(refused),
        }
    }

    /// Records what an event was refused for, if it was (sections 2.5 and 2.9).
    fn note_refused(&mut self, refused: Option<GlError>)
        ensures { self.new ≡ record self.old { error = recorded_by self.old.error refused } }
    {
        match refused {
            Some(fault) => self.note_error(fault),
            None => {}
        }
    }

    /// Records an error where none is yet (section 2.5).
    fn note_error(&mut self, error: GlError)
        ensures { self.new ≡ record self.old { error = recorded self.old.error error } }
    {
        if self.error.is_none() {
            self.error = Some(error);
        }
    }

    /// Forgets the recorded error where the call asks for it (section 2.5).
    fn forget_error(&mut self, call: &Call)
        ensures { self.new ≡ record self.old { error = error_set_by self.old.error call.now } }
    {
        match call {
            Call::GetError => self.error = None,
            _ => {}
        }
    }

    /// Sets what a call without an error sets that is no query, where no event is refused.
    fn set<M: Memory>(&mut self, call: &Call, memory: &M)
        requires no_fault { fault_of self.old.tracked call.now ≡ None }
        requires no_query { plan_by None call.now ≢ Plan.Query }
        ensures { self.new ≡ private_after None self.old call.now (M.segments memory.now) None }
    {
        self.settings.set(&self.tracked, call, memory);
        // Before `note`: which stack is current, and that it has room, is what tracked state says before the call.
        self.stacks.set(&self.tracked, call, memory);
        self.tracked.note(call, memory, None);
    }
}

/// Room for the numbers of the list that a call without an error replies, if it replies one.
fn room_for_list(alloc: Global, call: &Call) -> Result<Numbers, NoMemory>
    ensures room { IfOk result (λ numbers. numbers
        ≡ record { items = []; room = list_length call.now }) }
    ensures err { IsErr result → list_length call.now ≢ 0 }
{
    let count = list_length(call);
    if count == 0 {
        return Ok(Numbers::none(alloc));
    }
    Numbers::new(alloc, count)
}

/// The most numbers that a call without an error replies as a list, 0 where it replies one number or nothing.
fn list_length(call: &Call) -> u64
    ensures { result ≡ list_length call.now }
{
    match call {
        Call::GenBuffers { n, .. } | Call::GenTextures { n, .. } => u64::from(count_of(*n)),
        Call::GetFixedv { pname, .. } => fixed_length(*pname),
        Call::GetIntegerv { pname, .. } => integers_length(*pname),
        _ => 0,
    }
}

#[tactic(auto, unfolding(crate::specs::Gets::fixed_length))]
fn fixed_length(name: u32) -> u64
    ensures { result ≡ fixed_length name }
{
    match name {
        0x0B00 | 0x0C22 => 4,
        0x0BA6 | 0x0BA7 | 0x0BA8 => 16,
        _ => 0,
    }
}

#[tactic(auto, unfolding(crate::specs::Gets::integers_length))]
fn integers_length(name: u32) -> u64
    ensures { result ≡ integers_length name }
{
    match name {
        0x0BA2 | 0x0C10 => 4,
        _ => 0,
    }
}
