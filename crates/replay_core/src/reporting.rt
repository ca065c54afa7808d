//! The report of what lines told. How each of its lines is spelled is told in `replay_text`.

ghost use Rattle.std.specs.Prelude.{◌≡◌, ◌++◌, [], codes, IfOk, OnOk};
ghost use Rattle.replay_lines.specs.Results.{told_by};
ghost use Rattle.replay_text.specs.Text.{number_line, plain_line};
ghost use Rattle.replay_core.specs.Report.{answer_lines, counted, done_line, report_text, tally_line};

use gl_front::Counts;
use replay_lines::{Done, Printed, Results, What};
use replay_text::Text;
use std::alloc::{AllocError as NoMemory, Global};

/// The report of what was told, with a context's counts, and of so many images; own.
pub fn report(
    alloc: Global,
    context: u32,
    results: &Results,
    counts: &Counts,
    images: u64,
) -> Result<Text, NoMemory>
    ensures { IfOk result (λ text.
        text ≡ report_text results.now (tally_line context (counted counts.now)) images) }
{
    let mut text = started(alloc, results)?;
    let counts = [
        counts.deferred,
        counts.synchronised,
        counts.answered,
        counts.batches,
    ];
    text.counts(context, &counts)?;
    end(&mut text, images)?;
    Ok(text)
}

/// The report of what was told, without counts, and of so many images; own.
pub fn direct_report(alloc: Global, results: &Results, images: u64) -> Result<Text, NoMemory>
    ensures { IfOk result (λ text. text ≡ report_text results.now [] images) }
{
    let mut text = started(alloc, results)?;
    end(&mut text, images)?;
    Ok(text)
}

/// The first line of a report, and the lines of what was told.
fn started(alloc: Global, results: &Results) -> Result<Text, NoMemory>
    ensures { IfOk result (λ text.
        text ≡ plain_line (codes "glreport 1") ++ answer_lines results.now) }
{
    let mut text = Text::new(alloc);
    text.plain("glreport 1")?;
    for place in 0..results.len() {
        answer(&mut text, results.at(place))?;
    }
    Ok(text)
}

/// Appends the line of what a line told, if it has one.
fn answer(text: &mut Text, done: &Done) -> Result<(), NoMemory>
    ensures { OnOk result (text.new ≡ text.old ++ done_line (told_by done.now)) }
{
    match &done.what {
        What::Answer { call, numbers } => {
            let Done {
                number,
                context,
                ..
            } = done;
            match numbers {
                Printed::Nothing => text.answer(*number, *context, call, &[]),
                Printed::One(one) => text.answer(*number, *context, call, &[*one]),
                Printed::Many(many) => text.answer(*number, *context, call, many.as_slice()),
            }
        }
        What::Image { .. } => Ok(()),
    }
}

/// Appends the number of images, and the last line.
fn end(text: &mut Text, images: u64) -> Result<(), NoMemory>
    ensures { OnOk result (text.new
        ≡ text.old ++ (number_line (codes "images") images ++ plain_line (codes "end"))) }
{
    text.number("images", images)?;
    text.plain("end")
}
