//! What the lines of a script told. How it is printed and put is told elsewhere.

ghost use Rattle.std.specs.Prelude.{◌≡◌, ◌≤◌, ◌<◌, [], ◌∷◌, ◌++◌, true, length, slice_index_or, IfOk, OnOk, OnErr};
ghost use Rattle.driver_trait.specs.Reply.{replied};
ghost use Rattle.gl_words.specs.Call.{is_answering};
ghost use Rattle.replay_lines.specs.Results.{Answer, Picture, count_of_bytes, printed, printed_by, shown_by, taken_bytes, told_by, told_of};

use driver_trait::Reply;
use gl_memory::{ClientMemory, Memory, Numbers, Octets};
use gl_words::Call;
use script_reader::Name;
use std::alloc::{AllocError as NoMemory, Global};
use std::marker::Model;

/// The numbers that are printed of a reply: none, one by itself, or a list of them. Only a list takes memory, and it is the
/// reply's; own.
#[derive(Drop)]
pub enum Printed {
    Nothing,
    One(i64),
    Many(Numbers),
}

/// What a line told; own.
#[derive(Drop)]
pub enum What {
    /// A call that asks for something, and the numbers that are printed of its reply: of ReadPixels the count of its bytes.
    Answer {
        call: Call,
        numbers: Printed,
    },
    /// The image of this name that was taken out of client memory: its sides in pixels, and its bytes, row by row from the
    /// bottom, four a pixel.
    Image {
        name: Name,
        width: u32,
        height: u32,
        bytes: Octets,
    },
}

/// A line that told something: its number in the script, from 1, its context, from 0, and what; own.
#[derive(Drop)]
pub struct Done {
    pub number: u32,
    pub context: u32,
    pub what: What,
}

/// What lines told, in order; own. Contracts see the list, without the rooms of its lists.
#[derive(Drop)]
pub struct Results {
    list: Vec<Done>,
}

impl Model for Results {
    ghost use Rattle.std.specs.Prelude.{List, map};
    ghost use Rattle.replay_lines.specs.Results.{DoneView, told_by};

    ghost Value = { List DoneView };

    ghost view = { λ r. map told_by r.list.items };
}

impl Results {
    /// No results. It takes no memory; own.
    pub fn new(alloc: Global) -> Results
        ensures { result ≡ [] }
    {
        Results {
            list: Vec::new(alloc),
        }
    }

    /// Adds a result at the end. NoMemory leaves them as they were; own.
    pub fn push(&mut self, done: Done) -> Result<(), NoMemory>
        ensures ok { OnOk result (self.new ≡ self.old ++ told_by done ∷ []) }
        ensures err { OnErr result (self.new ≡ self.old) }
    {
        self.list.push(done)?;
        Ok(())
    }

    /// Adds the answer of this line: what its call, which asks for something, tells by its reply. NoMemory leaves them as
    /// they were; own.
    pub fn answer(
        &mut self,
        number: u32,
        context: u32,
        call: &Call,
        reply: Reply,
    ) -> Result<(), NoMemory>
        requires asks { is_answering call.now ≡ true }
        ensures ok { OnOk result
            (self.new ≡ self.old ++ told_of number context call.now (replied reply)) }
        ensures err { OnErr result (self.new ≡ self.old) }
    {
        self.push(Done {
            number,
            context,
            what: answer_of(call, reply),
        })
    }

    /// How many there are; own.
    pub fn len(&self) -> usize
        ensures { result ≡ length self.now }
    {
        self.list.len()
    }

    /// The result at a place, from 0; own.
    pub fn at(&self, at: usize) -> &Done
        requires place { at < length self.now }
        ensures { told_by result.now ≡ slice_index_or self.now at (told_by result.now) }
    {
        &self.list[at]
    }
}

/// What a call tells by its reply. It takes no memory; own.
pub fn answer_of(call: &Call, reply: Reply) -> What
    ensures { shown_by result ≡ Answer call.now (printed call.now (replied reply)) }
{
    What::Answer {
        call: *call,
        numbers: printed_of(call, reply),
    }
}

/// The numbers that are printed of a call's reply.
fn printed_of(call: &Call, reply: Reply) -> Printed
    ensures { printed_by result ≡ printed call.now (replied reply) }
{
    if let Call::ReadPixels { .. } = call {
        return Printed::One(count(&reply));
    }
    match reply {
        Reply::Nothing => Printed::Nothing,
        Reply::Bytes(_bytes) => Printed::Nothing,
        Reply::One(number) => Printed::One(number),
        Reply::Numbers(numbers) => Printed::Many(numbers),
    }
}

/// How many bytes a reply has.
fn count(reply: &Reply) -> i64
    ensures { result ≡ count_of_bytes (replied reply.now) }
{
    match reply {
        Reply::Bytes(bytes) => bytes.len() as i64,
        Reply::Nothing | Reply::One(_) | Reply::Numbers(_) => 0,
    }
}

/// The image of this name and these sides that is taken out of client memory from a place on; own.
pub fn image_of(
    alloc: Global,
    memory: &ClientMemory,
    name: &Name,
    width: u32,
    height: u32,
    at: u32,
) -> Result<What, NoMemory>
    requires width { width ≤ 256 }
    requires height { height ≤ 256 }
    ensures { IfOk result (λ what. shown_by what
        ≡ Picture name.now width height (taken_bytes memory.now width height at)) }
{
    let bytes = bytes_of(alloc, memory, width, height, at)?;
    Ok(What::Image {
        name: copy_of(name),
        width,
        height,
        bytes,
    })
}

/// The bytes of an image of these sides, out of client memory, row by row from the bottom, four bytes a pixel.
#[tactic(auto, unfolding(gl_memory::specs::Piece::bytes_from))]
fn bytes_of(
    alloc: Global,
    memory: &ClientMemory,
    width: u32,
    height: u32,
    at: u32,
) -> Result<Octets, NoMemory>
    requires width { width ≤ 256 }
    requires height { height ≤ 256 }
    ensures { IfOk result (λ image. image.items ≡ taken_bytes memory.now width height at) }
{
    let count = u64::from(width * height * 4);
    let mut image = Octets::new(alloc, count)?;
    for place in 0..count {
        image.push(memory.byte(u64::from(at) + place));
    }
    Ok(image)
}

/// The same name.
fn copy_of(name: &Name) -> Name
    ensures { result ≡ name.now }
{
    match Name::from_word(name.as_bytes()) {
        Some(name) => name,
        None => unreachable!(),
    }
}
