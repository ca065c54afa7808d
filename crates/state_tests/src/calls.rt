//! Calls spelled in rows, and how they are carried out on private state beside objects.

ghost use Rattle.std.specs.Prelude.{◌≡◌, ◌≤◌, [], IfSome};
ghost use Rattle.gl_objects.specs.Event.{IsEvent};
ghost use Rattle.gl_state.specs.Step.{plan_of, room_of};

use driver_trait::Reply;
use gl_memory::{ClientMemory, Numbers};
use gl_objects::{Event, EventReply, Names, Objects};
use gl_state::*;
use gl_words::{Call, call_from, shape_of_name};
use std::alloc::{AllocError as NoMemory, Global};

/// The integers that words spell, at most 16 of them, and how many they are.
pub(crate) fn numbers_in(words: &str) -> ([i64; 16], usize) {
    let mut numbers = [0_i64; 16];
    let mut count = 0_usize;
    for word in words.split_whitespace() {
        if let Ok(number) = word.parse::<i64>() {
            if count < 16 {
                numbers[count] = number;
                count += 1;
            }
        }
    }
    (numbers, count)
}

/// The call that a name and integers spell, if there is one.
pub(crate) fn call_spelled(spelling: &str) -> Option<Call> {
    let name = spelling.split_whitespace().next()?;
    let (numbers, count) = numbers_in(spelling);
    call_from(shape_of_name(name)?.id, numbers.get(..count)?)
}

/// What objects give back to an event, and nothing where there is none.
fn given_back(
    alloc: Global,
    objects: &mut Objects,
    event: Option<Event>,
) -> Result<EventReply, NoMemory>
    requires legal { IfSome event IsEvent }
{
    match event {
        Some(event) => objects.apply(&event),
        None => Ok(EventReply {
            fault: None,
            names: Names::none(alloc),
            truth: false,
        }),
    }
}

/// Whether a reply is these numbers: nothing where there are none, a number alone where there is one, else a list.
fn is_these(reply: &Reply, numbers: &[i64]) -> bool {
    match reply {
        Reply::Nothing => numbers.is_empty(),
        Reply::One(number) => numbers.len() == 1 && numbers[0] == *number,
        Reply::Numbers(list) => numbers.len() > 1 && list.as_slice() == numbers,
        Reply::Bytes(_) => false,
    }
}

/// Whether names are these numbers.
fn are_these(names: &[u32], numbers: &[i64]) -> bool {
    if names.len() != numbers.len() {
        return false;
    }
    for at in 0..names.len().min(numbers.len()) {
        if i64::from(names[at]) != numbers[at] {
            return false;
        }
    }
    true
}

/// Whether a call is replied these numbers. Names are taken as objects gave them: how they become a reply is proved.
fn is_told(
    private: &Private,
    plan: Plan,
    call: &Call,
    back: &EventReply,
    room: Numbers,
    numbers: &[i64],
) -> bool
    requires plan { plan ≡ plan_of private.now call.now }
    requires empty { room.items ≡ [] }
    requires room { room_of plan call.now ≤ room.room }
{
    if back.names.as_slice().is_empty() {
        is_these(&private.reply(plan, call, back, room), numbers)
    } else {
        are_these(back.names.as_slice(), numbers)
    }
}

/// Carries a call out on private state and a memory, beside objects, and tells whether these numbers are its reply.
pub(crate) fn replies(
    alloc: Global,
    private: &mut Private,
    objects: &mut Objects,
    call: &Call,
    memory: &ClientMemory,
    numbers: &[i64],
) -> Result<bool, NoMemory> {
    let plan = private.plan(call);
    let room = private.room(alloc, plan, call)?;
    let event = private.event(alloc, plan, call, memory)?;
    let back = given_back(alloc, objects, event)?;
    let is_told = is_told(private, plan, call, &back, room, numbers);
    private.finish(plan, call, memory, back.fault);
    Ok(is_told)
}

/// Carries out calls as `first_wrong_on` does, on no memory.
pub(crate) fn first_wrong(alloc: Global, rows: &str) -> Result<Option<usize>, NoMemory> {
    let memory = ClientMemory::new(alloc, 0)?;
    first_wrong_on(alloc, &memory, rows)
}

/// Carries out calls on a new context of 5 by 3 pixels and a memory, in order. A row is a call and, behind a colon, the
/// numbers of its reply. Gives the place of the first that is replied otherwise.
pub(crate) fn first_wrong_on(
    alloc: Global,
    memory: &ClientMemory,
    rows: &str,
) -> Result<Option<usize>, NoMemory> {
    let mut private = Private::new(0, 5, 3);
    let mut objects = Objects::new(alloc);
    for (at, row) in rows.lines().enumerate() {
        let Some((spelling, reply)) = row.split_once(':') else {
            return Ok(Some(at));
        };
        let Some(call) = call_spelled(spelling) else {
            return Ok(Some(at));
        };
        let (numbers, count) = numbers_in(reply);
        let numbers = &numbers[..count.min(16)];
        if !replies(alloc, &mut private, &mut objects, &call, memory, numbers)? {
            return Ok(Some(at));
        }
    }
    Ok(None)
}
