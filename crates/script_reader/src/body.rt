//! One body line judged behind its context: a write of bytes, an image or a call. The tests stand in the order
//! of the definitions.

ghost use Rattle.std.specs.Prelude.{◌≡◌, ℕ, ◌+◌, ◌^◌, ◌<◌, ◌≤◌, List, [], ◌∷◌, ℤ, pos, int_le, ◌&&◌, length, IfSome, OnOk, Ok, ◌==◌, if◌then◌else◌};
ghost use Rattle.std.specs.Option.{option_map};
ghost use Rattle.gl_words.specs.Shape.{shape_named, seen_shape};
ghost use Rattle.script_reader.specs.Cutting.{words_of};
ghost use Rattle.script_reader.specs.Judged.{address_of, value_of, judged_arguments, body_in, image_of, judged_mem, judged_image, judged_call, judged_body};
ghost use Rattle.script_reader.specs.Told.{act_of, HasBytes};
ghost use Rattle.script_reader.specs.declared.error.ScriptFault.TheVariants.{BadNumber, WrongCount};

use crate::before::{Before, Said};
use crate::error::ScriptFault;
use crate::hex::is_hex;
use crate::name::Name;
use crate::number::{argument_from, is_between, number_from};
use crate::numbers::{Numbers, numbers_from};
use crate::told::{Asked, Told};
use crate::words::{count_words, next_word};
use gl_words::{ArgKind, Shape, shape_of_name};
use std::str::from_utf8;

/// The largest place in memory; own.
const LAST_PLACE: i64 = 4_294_967_295;

/// Judges a body line behind the number of its context.
#[tactic(auto, unfolding(crate::specs::Judged::judged_body))]
pub(crate) fn judge_body(before: Before, context: u64, rest: &[u8]) -> Result<Said<'_>, ScriptFault>
    requires { before.lines < 262144 }
    ensures { result ≡ judged_body before context (words_of rest.now) }
{
    let Some((word, rest)) = next_word(rest) else {
        return Err(ScriptFault::WrongCount);
    };
    if word == b"mem".as_slice() {
        return judge_mem(before, context, rest);
    }
    if word == b"image".as_slice() {
        return judge_image(before, context, rest);
    }
    match shape_from(word) {
        Some(shape) => judge_call(before, context, shape, rest),
        None => Err(ScriptFault::UnknownWord),
    }
}

fn body_in(before: Before, context: u64, act: Asked<'_>) -> Result<Said<'_>, ScriptFault>
    requires line { before.lines < 262144 }
    requires bytes { HasBytes act }
    ensures { result ≡ body_in before context (act_of act.entry) }
{
    if context < u64::from(before.contexts) {
        Ok(Said::Body(Told {
            number: before.lines + 1,
            context: context as u32,
            act,
        }))
    } else {
        Err(ScriptFault::NoSuchContext)
    }
}

#[tactic(auto, unfolding(crate::specs::Judged::judged_mem, crate::specs::Hex::bytes_of))]
fn judge_mem(before: Before, context: u64, rest: &[u8]) -> Result<Said<'_>, ScriptFault>
    requires { before.lines < 262144 }
    ensures { result ≡ judged_mem before context (words_of rest.now) }
{
    let Some((place, rest)) = next_word(rest) else {
        return Err(ScriptFault::WrongCount);
    };
    let Some((digits, rest)) = next_word(rest) else {
        return Err(ScriptFault::WrongCount);
    };
    if next_word(rest).is_some() {
        return Err(ScriptFault::WrongCount);
    }
    let number = number_from(place).ok_or(ScriptFault::BadNumber)?;
    if !is_hex(digits) {
        return Err(ScriptFault::BadNumber);
    }
    let at = address_from(number).ok_or(ScriptFault::OutOfRange)?;
    body_in(before, context, Asked::Mem { at, digits })
}

fn address_from(number: i64) -> Option<u32>
    ensures { result ≡ address_of number }
{
    if is_between(0, LAST_PLACE, number) {
        Some(number as u32)
    } else {
        None
    }
}

#[tactic(auto, unfolding(crate::specs::Judged::judged_image))]
fn judge_image(before: Before, context: u64, rest: &[u8]) -> Result<Said<'_>, ScriptFault>
    requires { before.lines < 262144 }
    ensures { result ≡ judged_image before context (words_of rest.now) }
{
    let Some((word, rest)) = next_word(rest) else {
        return Err(ScriptFault::WrongCount);
    };
    if count_words(rest) != 3 {
        return Err(ScriptFault::WrongCount);
    }
    let name = Name::from_word(word).ok_or(ScriptFault::BadNumber)?;
    let numbers = numbers_from(rest).ok_or(ScriptFault::BadNumber)?;
    let image = image_from(name, numbers.as_slice()).ok_or(ScriptFault::OutOfRange)?;
    body_in(before, context, image)
}

#[tactic(auto, unfolding(crate::specs::Judged::image_of))]
fn image_from(name: Name, numbers: &[i64]) -> Option<Asked<'static>>
    ensures gives { option_map act_of result ≡ image_of name numbers.now }
    ensures bytes { IfSome result (λ image. HasBytes image) }
{
    match numbers {
        [width, height, place] => image_at(name, *width, *height, *place),
        _ => None,
    }
}

#[tactic(auto, unfolding(crate::specs::Judged::image_of))]
fn image_at(name: Name, width: i64, height: i64, place: i64) -> Option<Asked<'static>>
    ensures gives { option_map act_of result
        ≡ image_of name (width ∷ height ∷ place ∷ []) }
    ensures bytes { IfSome result (λ image. HasBytes image) }
{
    if !is_between(1, 256, width) {
        return None;
    }
    if !is_between(1, 256, height) {
        return None;
    }
    if !is_between(0, LAST_PLACE, place) {
        return None;
    }
    Some(Asked::Image {
        name,
        width: width as u32,
        height: height as u32,
        at: place as u32,
    })
}

fn shape_from(name: &[u8]) -> Option<Shape>
    ensures gives { option_map seen_shape result ≡ shape_named name.now }
    ensures few { IfSome result (λ shape. length shape.kinds.now ≤ 9) }
{
    match from_utf8(name) {
        Ok(name) => shape_of_name(name),
        Err(_) => None,
    }
}

#[tactic(auto, using(crate::proofs::Fronts::judged))]
fn judge_call(
    before: Before,
    context: u64,
    shape: Shape,
    rest: &[u8],
) -> Result<Said<'_>, ScriptFault>
    requires few { length shape.kinds.now ≤ 9 }
    requires line { before.lines < 262144 }
    ensures { result ≡ judged_call before context shape.id shape.kinds.now (words_of rest.now) }
{
    let numbers = arguments_from(shape.kinds, rest)?;
    let call = shape
        .call(numbers.as_slice())
        .ok_or(ScriptFault::OutOfRange)?;
    body_in(before, context, Asked::Gl(call))
}

/// The arguments that words spell. The words are walked once: where one spells no number those behind it are counted,
/// since their count is judged before them.
fn arguments_from(kinds: &[ArgKind], text: &[u8]) -> Result<Numbers, ScriptFault>
    requires { length kinds.now ≤ 9 }
    ensures { result ≡ judged_arguments kinds.now (words_of text.now) }
{
    let mut numbers = Numbers::new();
    let mut rest = text;
    for kind in kinds {
        let Some((word, after)) = next_word(rest) else {
            return Err(ScriptFault::WrongCount);
        };
        let Some(number) = argument_from(word) else {
            return Err(fault_behind(kinds.len() - 1 - numbers.as_slice().len(), after));
        };
        numbers.push(value_from(*kind, number));
        rest = after;
    }
    if count_words(rest) != 0 {
        return Err(ScriptFault::WrongCount);
    }
    Ok(numbers)
}

/// The fault of a call of whose arguments one spells no number, where so many words should follow it.
fn fault_behind(count: usize, after: &[u8]) -> ScriptFault
    ensures { result ≡ if length (words_of after.now) == count then BadNumber else WrongCount }
{
    if count_words(after) == count {
        ScriptFault::BadNumber
    } else {
        ScriptFault::WrongCount
    }
}

fn value_from(kind: ArgKind, number: i64) -> i64
    ensures { result ≡ value_of kind number }
{
    match kind {
        ArgKind::Bool if 1 <= number && number <= 255 => 1,
        _ => number,
    }
}
