//! The direct machine, by a plain program over any driver. No batch is filled here, and no front stands here.

ghost use Rattle.std.specs.Prelude.{◌≡◌, ◌≤◌, ◌<◌, [], ◌∷◌, IfOk, OnOk};
ghost use Rattle.std.specs.List.{All};
ghost use Rattle.fragment_ops.specs.Frame.{AreSides};
ghost use Rattle.gl_objects.specs.Step.{no_objects};
ghost use Rattle.script_reader.specs.Limits.{IsLine};
ghost use Rattle.soft_driver.specs.Renderer.{first_soft};
ghost use Rattle.replay_lines.specs.Lines.{lines_in};
ghost use Rattle.replay_core.specs.Direct.{end_of, soft_reached};
ghost use Rattle.replay_core.specs.Plain.{CarriesOut};
ghost use Rattle.replay_core.specs.Script.{IsOneContext, first_context, seen_script};

use driver_trait::{Driver, write_reply};
use gl_memory::ClientMemory;
use gl_objects::Objects;
use gl_tracked::Tracked;
use gl_words::{Call, is_answering};
use replay_lines::{Done, Results, image_of};
use script_reader::{Act, ContextSpec, Line, Script};
use soft_driver::Soft;
use std::alloc::{AllocError as NoMemory, Global};
use std::marker::Model;
use std::thread::Threads;

/// What the direct machine leaves: what was told, in order, and the context at the end; own.
#[derive(Drop)]
pub struct DirectRun {
    pub results: Results,
    pub soft: Soft,
}

/// Carries each line of a script's context, of this number, out as it is read; own.
pub fn direct<T: Threads + Sync>(
    rt: &T,
    alloc: Global,
    context: u32,
    script: &Script,
) -> Result<DirectRun, NoMemory>
    requires context { context < 4 }
    requires contexts { IsOneContext script.now.contexts }
    requires lines { All IsLine script.now.lines }
    ensures told { IfOk result
        (λ done. done.results ≡ (end_of context (seen_script script.now)).told) }
    ensures soft { IfOk result
        (λ done. done.soft ≡ soft_reached (end_of context (seen_script script.now))) }
{
    let sides = only_context(script);
    let memory = ClientMemory::new(alloc, sides.memory)?;
    let soft = new_soft(alloc, context, sides.width, sides.height)?;
    let mut plain = Plain::new(alloc, soft, memory);
    plain.carry_out(rt, alloc, context, script.lines.as_slice())?;
    let (soft, results) = plain.into_parts();
    Ok(DirectRun { results, soft })
}

/// The renderer at the start of a context of this number and of these sides in pixels, beside no objects.
pub(crate) fn new_soft(
    alloc: Global,
    context: u32,
    width: u32,
    height: u32,
) -> Result<Soft, NoMemory>
    requires context { context < 4 }
    requires sides { AreSides width height }
    ensures { IfOk result (λ soft. soft ≡ first_soft context width height no_objects) }
{
    match Soft::new(alloc, context, width, height, Objects::new(alloc)) {
        Ok(soft) => Ok(soft),
        Err((_objects, refused)) => Err(refused),
    }
}

/// A driver that shows the tracked part of its state.
pub(crate) trait Shows: Driver {
    /// The tracked part.
    fn shown(&self) -> &Tracked
        ensures { result.now ≡ Self.tracked self.now };
}

impl Shows for Soft {
    fn shown(&self) -> &Tracked {
        self.tracked()
    }
}

/// A driver and its client memory, and what was told.
#[derive(Drop)]
pub(crate) struct Plain<D: Shows> {
    driver: D,
    memory: ClientMemory,
    results: Results,
}

impl<D: Shows> Model for Plain<D> {
    ghost use Rattle.replay_core.specs.Plain.{PlainView};

    ghost Value = { PlainView D };

    ghost view = { λ p. record { driver = p.driver; memory = p.memory; told = p.results } };
}

impl<D: Shows> Plain<D> {
    /// A driver over this client memory.
    pub(crate) fn new(alloc: Global, driver: D, memory: ClientMemory) -> Plain<D>
        ensures { result ≡ record { driver = driver; memory = memory; told = [] } }
    {
        Plain {
            driver,
            memory,
            results: Results::new(alloc),
        }
    }

    /// Carries the lines of a context out, one after another.
    pub(crate) fn carry_out<T: Threads + Sync>(
        &mut self,
        rt: &T,
        alloc: Global,
        context: u32,
        lines: &[Line],
    ) -> Result<(), NoMemory>
        requires { All IsLine lines.now }
        ensures { OnOk result
            (CarriesOut D.tracked D.steps (lines_in context lines.now) self.old self.new) }
    {
        for line in lines {
            if line.context == context {
                self.carry_out_line(rt, alloc, line)?;
            }
        }
        Ok(())
    }

    /// The driver, and what was told.
    pub(crate) fn into_parts(self) -> (D, Results)
        ensures driver { result.0 ≡ self.driver }
        ensures told { result.1 ≡ self.told }
    {
        (self.driver, self.results)
    }

    /// Carries a line out.
    fn carry_out_line<T: Threads + Sync>(
        &mut self,
        rt: &T,
        alloc: Global,
        line: &Line,
    ) -> Result<(), NoMemory>
        requires { IsLine line.now }
        ensures { OnOk result
            (CarriesOut D.tracked D.steps (line.now ∷ []) self.old self.new) }
    {
        match &line.act {
            Act::Mem { at, bytes } => {
                self.memory.write(u64::from(*at), bytes.as_slice());
                Ok(())
            }
            Act::Image {
                name,
                width,
                height,
                at,
            } => {
                let what = image_of(alloc, &self.memory, name, *width, *height, *at)?;
                self.results.push(Done {
                    number: line.number,
                    context: line.context,
                    what,
                })
            }
            Act::Gl(call) => self.carry_out_call(rt, line, call),
        }
    }

    /// Carries a line's call out. The driver is asked once, and so is whether the call asks for something: only then is there a
    /// reply. It is written by the tracked state after the call, which such calls leave as it was.
    fn carry_out_call<T: Threads + Sync>(
        &mut self,
        rt: &T,
        line: &Line,
        call: &Call,
    ) -> Result<(), NoMemory>
        requires { line.now.act ≡ Act.Gl call.now }
        ensures { OnOk result
            (CarriesOut D.tracked D.steps (line.now ∷ []) self.old self.new) }
    {
        let asks = is_answering(call);
        self.memory.bytes();
        let reply = self.driver.call(rt, call, &self.memory)?;
        if asks {
            write_reply(&mut self.memory, self.driver.shown(), call, &reply);
            self.results.answer(line.number, line.context, call, reply)
        } else {
            Ok(())
        }
    }
}

/// The context of a script with one.
pub(crate) fn only_context(script: &Script) -> ContextSpec
    requires { IsOneContext script.now.contexts }
    ensures context { result ≡ first_context script.now.contexts }
    ensures sides { AreSides result.width result.height }
    ensures memory { result.memory ≤ 1048576 }
{
    match script.contexts.as_slice() {
        [context, ..] => *context,
        [] => unreachable!(),
    }
}
