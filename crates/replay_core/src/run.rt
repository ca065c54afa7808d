//! Carrying out a command on a script: by a run over a rail, or by the direct machine.

ghost use Rattle.std.specs.Prelude.{◌≡◌, ◌≤◌, ◌<◌, length, IfOk, OnOk, OnErr};
ghost use Rattle.std.specs.List.{All};
ghost use Rattle.script_reader.specs.Limits.{IsLine};
ghost use Rattle.replay_lines.specs.Limits.{most_lines};
ghost use Rattle.replay_core.specs.Direct.{end_of, soft_reached};
ghost use Rattle.replay_core.specs.Images.{images_of};
ghost use Rattle.replay_core.specs.Journals.{batches_for, HandsOver, HandsOverSome};
ghost use Rattle.replay_core.specs.Report.{counted, counts_for, report_for, tally_line};
ghost use Rattle.replay_core.specs.Script.{IsOneContext, seen_script};
ghost use Rattle.replay_text.specs.Words.{IsWithinLimits};
ghost use Rattle.replay_text.specs.declared.asked.Command.TheVariants.{Direct};

use crate::image::{ImageFile, files, frame_file};
use crate::plain::{DirectRun, direct};
use crate::rail::{RailRun, run_script};
use crate::reporting::{direct_report, report};
use crate::ways::{Launches, RunsLines};
use batch_rail::RailState;
use gl_front::Counts;
use replay_lines::Results;
use replay_text::{Command, Text};
use script_reader::Script;
use soft_driver::Soft;
use std::alloc::{AllocError as NoMemory, Global};
use std::thread::Threads;

/// What a run leaves to be put and written. Own.
#[derive(Drop)]
pub struct Output {
    pub images: Vec<ImageFile>,
    pub report: Text,
}

/// Carries out a command on a script's context, of this number. A rail is had as `H` has it.
#[tactic(auto, using(crate::proofs::JournalLemmas::hands_over_none))]
pub(crate) fn run_command<
    H: RunsLines<W, Soft, R> + Launches<W, Soft, R, M>,
    W,
    T: Threads + Sync,
    R: RailState<Soft>,
    M,
>(
    rt: &T,
    wait: &W,
    alloc: Global,
    rails: &mut M,
    asked: Command,
    context: u32,
    script: &Script,
) -> Result<Output, NoMemory>
    requires command { IsWithinLimits asked }
    requires context { context < 4 }
    requires contexts { IsOneContext script.now.contexts }
    requires few { length script.now.lines ≤ most_lines }
    requires lines { All IsLine script.now.lines }
    ensures images { IfOk result
        (λ output. output.images.items ≡ images_of context (seen_script script.now)) }
    ensures report { IfOk result
        (λ output. output.report ≡ report_for asked context (seen_script script.now)) }
    ensures direct { asked ≡ Direct → rails.new ≡ rails.old }
    ensures journal { OnOk result
        (HandsOver context (batches_for asked context (seen_script script.now))
        (H.journal rails.old) (H.journal rails.new)) }
    ensures stopped { OnErr result
        (HandsOverSome context (H.journal rails.old) (H.journal rails.new)) }
{
    match asked {
        Command::Run { batch, ring, .. } => {
            let RailRun {
                results,
                counts,
                soft,
            } = run_script::<H, W, T, R, M>(rt, wait, alloc, rails, batch, ring, context, script)?;
            let images = images(alloc, context, script, &results, soft)?;
            let report = report_of_run(alloc, asked, context, script, &results, &counts, &images)?;
            Ok(Output { images, report })
        }
        Command::Direct => {
            let DirectRun { results, soft } = direct(rt, alloc, context, script)?;
            let images = images(alloc, context, script, &results, soft)?;
            let report = report_of_direct(alloc, context, script, &results, &images)?;
            Ok(Output { images, report })
        }
    }
}

/// The images of what was told, and of the frame of a context at its end.
#[tactic(auto, unfolding(crate::specs::Images::images_of))]
fn images(
    alloc: Global,
    context: u32,
    script: &Script,
    results: &Results,
    soft: Soft,
) -> Result<Vec<ImageFile>, NoMemory>
    requires lines { All IsLine script.now.lines }
    requires told { results.now ≡ (end_of context (seen_script script.now)).told }
    requires soft { soft ≡ soft_reached (end_of context (seen_script script.now)) }
    ensures { IfOk result (λ images. images.items ≡ images_of context (seen_script script.now)) }
{
    let mut images = files(alloc, results)?;
    let (frame, _objects) = soft.into_parts();
    images.push(frame_file(alloc, context, &frame)?)?;
    Ok(images)
}

/// The report of a run over a rail, by what was told, its counts and its images.
fn report_of_run(
    alloc: Global,
    asked: Command,
    context: u32,
    script: &Script,
    results: &Results,
    counts: &Counts,
    images: &Vec<ImageFile>,
) -> Result<Text, NoMemory>
    requires told { results.now ≡ (end_of context (seen_script script.now)).told }
    requires counts { tally_line context (counted counts.now)
        ≡ counts_for asked context (seen_script script.now) }
    requires images { images.now.items ≡ images_of context (seen_script script.now) }
    ensures { IfOk result (λ text. text ≡ report_for asked context (seen_script script.now)) }
{
    let text = report(alloc, context, results, counts, images.len() as u64)?;
    Ok(text)
}

/// The report of the direct machine, by what was told and its images.
fn report_of_direct(
    alloc: Global,
    context: u32,
    script: &Script,
    results: &Results,
    images: &Vec<ImageFile>,
) -> Result<Text, NoMemory>
    requires told { results.now ≡ (end_of context (seen_script script.now)).told }
    requires images { images.now.items ≡ images_of context (seen_script script.now) }
    ensures { IfOk result (λ text. text ≡ report_for Direct context (seen_script script.now)) }
{
    let text = direct_report(alloc, results, images.len() as u64)?;
    Ok(text)
}
