//! The renderer as the direct machine has it, which tells the error of each call. A renderer tells its recorded error to GetError
//! alone, and forgets it then.

ghost use Rattle.std.specs.Prelude.{◌≡◌, ◌<◌, ◌∷◌, [], ℤ, pos, Option, None, IfOk, OnErr};
ghost use Rattle.gl_words.specs.declared.error.GlError.{GlError};
ghost use Rattle.gl_memory.specs.ClientMemory.{memory_of};
ghost use Rattle.gl_objects.specs.Step.{no_objects};
ghost use Rattle.fragment_ops.specs.Frame.{AreSides};
ghost use Rattle.driver_trait.specs.Reply.{replied, Numbers};
ghost use Rattle.gl_state.specs.Step.{code_of_error};
ghost use Rattle.soft_driver.specs.Renderer.{first_soft, SoftSteps};
ghost use Rattle.script_trace.specs.Errors.{error_after, error_of, reply_beside, soft_with_error};

use crate::error_numbers::error_numbered;
use driver_trait::{Driver, Reply};
use gl_memory::ClientMemory;
use gl_objects::Objects;
use gl_words::{Call, GlError};
use soft_driver::Soft;
use std::alloc::{AllocError as NoMemory, Global};
use std::marker::Model;
use std::thread::Threads;

/// What a call gives: its reply, and its error, if it has one.
#[derive(Drop)]
pub(crate) struct Met {
    pub(crate) reply: Reply,
    pub(crate) error: Option<GlError>,
}

/// A renderer that is asked for its error after each call, so that none stays recorded there: the recorded one is kept beside it.
/// Contracts see the renderer with that one.
#[derive(Drop)]
pub(crate) struct Direct {
    soft: Soft,
    recorded: Option<GlError>,
}

impl Model for Direct {
    ghost use Rattle.std.specs.Prelude.{◌≡◌, None};
    ghost use Rattle.soft_driver.specs.Renderer.{SoftView};
    ghost use Rattle.script_trace.specs.Errors.{soft_with_error};

    ghost Value = { SoftView };

    ghost view = { λ d. soft_with_error d.soft d.recorded };

    ghost invariant = { λ d. d.soft.own.state.error ≡ None };
}

impl Direct {
    /// A context of this number and of these sides in pixels, at the start, beside no objects.
    #[tactic(auto, unfolding(soft_driver::specs::Own::first_own, gl_state::specs::Private::first_private))]
    pub(crate) fn new(
        alloc: Global,
        context: u32,
        width: u32,
        height: u32,
    ) -> Result<Direct, NoMemory>
        requires context { context < 4 }
        requires sides { AreSides width height }
        ensures { IfOk result (λ direct. direct ≡ first_soft context width height no_objects) }
    {
        match Soft::new(alloc, context, width, height, Objects::new(alloc)) {
            Ok(soft) => Ok(Direct {
                soft,
                recorded: None,
            }),
            Err((_objects, refused)) => Err(refused),
        }
    }

    /// The recorded error (section 2.5).
    pub(crate) fn recorded(&self) -> Option<GlError>
        ensures { result ≡ self.now.own.state.error }
    {
        self.recorded
    }

    /// Carries a call out on client memory, and gives its reply and its error, if it has one. Want of memory leaves it as it was.
    pub(crate) fn call<T: Threads + Sync>(
        &mut self,
        rt: &T,
        call: &Call,
        memory: &ClientMemory,
    ) -> Result<Met, NoMemory>
        ensures ok { IfOk result
            (λ met. SoftSteps self.old call.now (memory_of memory.now) self.new (replied met.reply)) }
        ensures error { IfOk result (λ met. met.error
            ≡ error_of self.old.own self.old.objects call.now (memory_of memory.now)) }
        ensures err { OnErr result (self.new ≡ self.old) }
    {
        let reply = self.soft.call(rt, call, memory)?;
        let error = take_error(rt, &mut self.soft, memory);
        let reply = reply_beside(self.recorded, call, reply);
        note_error(&mut self.recorded, call, error);
        Ok(Met { reply, error })
    }
}

/// The recorded error of a renderer, which forgets it (section 2.5). GetError asks for no memory.
fn take_error<T: Threads + Sync>(rt: &T, soft: &mut Soft, memory: &ClientMemory) -> Option<GlError>
    ensures error { result ≡ soft.old.own.state.error }
    ensures left { soft.new ≡ soft_with_error soft.old None }
{
    match soft.call(rt, &Call::GetError, memory) {
        Ok(reply) => error_in(&reply),
        Err(_) => unreachable!(),
    }
}

/// The error that GetError replies.
fn error_in(reply: &Reply) -> Option<GlError>
    ensures { (error : Option GlError)
        → replied reply.now ≡ Numbers (pos (code_of_error error) ∷ []) → result ≡ error }
{
    match reply {
        Reply::One(number) => error_numbered(number),
        Reply::Numbers(numbers) => {
            let number = first_of(numbers.as_slice());
            error_numbered(&number)
        }
        _ => None,
    }
}

/// The one of one number.
fn first_of(numbers: &[i64]) -> i64
    ensures { (number : ℤ) → numbers.now ≡ number ∷ [] → result ≡ number }
{
    match numbers {
        [number, ..] => *number,
        [] => 0,
    }
}

/// What a call replies where this is recorded, given what it replies where nothing is: GetError tells it (section 2.5).
fn reply_beside(recorded: Option<GlError>, call: &Call, reply: Reply) -> Reply
    ensures { replied result ≡ reply_beside recorded call.now (replied reply) }
{
    match call {
        Call::GetError => code_of(recorded),
        _ => reply,
    }
}

/// What GetError replies where this is recorded (section 2.5).
fn code_of(recorded: Option<GlError>) -> Reply
    ensures { replied result ≡ Numbers (pos (code_of_error recorded) ∷ []) }
{
    match recorded {
        Some(error) => Reply::One(i64::from(error.code())),
        None => Reply::One(0),
    }
}

/// Records the error of a call where none is recorded. GetError forgets it (section 2.5).
fn note_error(recorded: &mut Option<GlError>, call: &Call, error: Option<GlError>)
    ensures { recorded.new ≡ error_after recorded.old call.now error }
{
    match error {
        Some(_) => *recorded = recorded.or(error),
        None => {
            if let Call::GetError = call {
                *recorded = None;
            }
        }
    }
}
