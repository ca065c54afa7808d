//! The report, line by line. Which lines it has, and in which order, is told elsewhere.

ghost use Rattle.std.specs.Prelude.{◌≡◌, [], ◌++◌, length, take, string_bytes, IfOk, OnOk, OnErr};
ghost use Rattle.gl_words.specs.Call.{name_of};
ghost use Rattle.replay_text.specs.Text.{answer_line, counts_line, integers_text, number_line, numbers_text, plain_line};

use gl_words::{Call, call_name};
use itoa::Buffer;
use std::alloc::{AllocError as NoMemory, Global};
use std::marker::Model;

/// A text that grows by lines; own. Contracts see its bytes.
#[derive(Drop)]
pub struct Text {
    alloc: Global,
    bytes: Vec<u8>,
}

impl Model for Text {
    ghost use Rattle.std.specs.Prelude.{ℕ, List};

    ghost Value = { List ℕ };

    ghost view = { λ text. text.bytes.items };
}

impl Text {
    /// A text without lines. It takes no memory; own.
    pub fn new(alloc: Global) -> Text
        ensures { result ≡ [] }
    {
        Text {
            alloc,
            bytes: Vec::new(alloc),
        }
    }

    /// The text's bytes; own.
    pub fn bytes(&self) -> &[u8]
        ensures { result.now ≡ self.now }
    {
        self.bytes.as_slice()
    }

    /// Appends the line of a call's answer: the script line's number, from 1, the context, the call's name, and the
    /// numbers that the report prints for it. NoMemory leaves the text as it was; own.
    pub fn answer(
        &mut self,
        line: u32,
        context: u32,
        call: &Call,
        numbers: &[i64],
    ) -> Result<(), NoMemory>
        ensures ok { OnOk result (self.new ≡ self.old
            ++ answer_line line context (name_of call.now) numbers.now) }
        ensures err { OnErr result (self.new ≡ self.old) }
    {
        let kept = self.bytes.len();
        let written = write_answer(&mut self.bytes, line, context, call_name(call), numbers);
        if written.is_err() {
            self.bytes.truncate(kept);
        }
        written
    }

    /// Appends the line of a context's counts: of calls deferred, synchronised and answered, and of batches. NoMemory
    /// leaves the text as it was; own.
    pub fn counts(&mut self, context: u32, numbers: &[u64; 4]) -> Result<(), NoMemory>
        ensures ok { OnOk result (self.new ≡ self.old ++ counts_line context numbers.now) }
        ensures err { OnErr result (self.new ≡ self.old) }
    {
        let text = counts_text(self.alloc, context, numbers)?;
        self.bytes.extend_from_slice(text.as_bytes())
    }

    /// Appends the line of a word and a number. NoMemory leaves the text as it was; own.
    #[tactic(auto, unfolding(crate::specs::Text::number_line))]
    pub fn number(&mut self, word: &str, value: u64) -> Result<(), NoMemory>
        ensures ok { OnOk result (self.new ≡ self.old ++ number_line word.now value) }
        ensures err { OnErr result (self.new ≡ self.old) }
    {
        let text = format!(in self.alloc; "{word} {value}\n")?;
        self.bytes.extend_from_slice(text.as_bytes())
    }

    /// Appends a line as it stands. NoMemory leaves the text as it was; own.
    #[tactic(auto, unfolding(crate::specs::Text::plain_line))]
    pub fn plain(&mut self, line: &str) -> Result<(), NoMemory>
        ensures ok { OnOk result (self.new ≡ self.old ++ plain_line line.now) }
        ensures err { OnErr result (self.new ≡ self.old) }
    {
        let text = format!(in self.alloc; "{line}\n")?;
        self.bytes.extend_from_slice(text.as_bytes())
    }
}

/// Appends the line of a call's answer. NoMemory leaves the bytes that were there, and may leave some of the line.
#[tactic(auto, unfolding(crate::specs::Text::answer_line))]
fn write_answer(
    bytes: &mut Vec<u8>,
    line: u32,
    context: u32,
    name: &str,
    numbers: &[i64],
) -> Result<(), NoMemory>
    ensures ok { OnOk result
        (bytes.new.items ≡ bytes.old.items ++ answer_line line context name.now numbers.now) }
    ensures kept { take (length bytes.old.items) bytes.new.items ≡ bytes.old.items }
{
    let mut buffer = Buffer::new();
    bytes.extend_from_slice(buffer.format(line).as_bytes())?;
    bytes.push(b' ')?;
    bytes.extend_from_slice(buffer.format(context).as_bytes())?;
    bytes.push(b' ')?;
    bytes.extend_from_slice(name.as_bytes())?;
    write_integers(bytes, numbers)?;
    bytes.push(b'\n')?;
    Ok(())
}

/// Appends integers, each behind a space. NoMemory leaves the bytes that were there, and may leave some of the integers.
#[tactic(auto, unfolding(crate::specs::Text::integers_text))]
fn write_integers(bytes: &mut Vec<u8>, numbers: &[i64]) -> Result<(), NoMemory>
    ensures ok { OnOk result (bytes.new.items ≡ bytes.old.items ++ integers_text numbers.now) }
    ensures kept { take (length bytes.old.items) bytes.new.items ≡ bytes.old.items }
{
    let mut buffer = Buffer::new();
    for number in numbers {
        bytes.push(b' ')?;
        bytes.extend_from_slice(buffer.format(*number).as_bytes())?;
    }
    Ok(())
}

#[tactic(auto, unfolding(crate::specs::Text::counts_line))]
fn counts_text(alloc: Global, context: u32, numbers: &[u64]) -> Result<String, NoMemory>
    ensures { IfOk result (λ text. string_bytes text ≡ counts_line context numbers.now) }
{
    let numbers = numbers_text(alloc, numbers)?;
    format!(in alloc; "counts {context}{numbers}\n")
}

#[tactic(auto, unfolding(crate::specs::Text::numbers_text))]
fn numbers_text(alloc: Global, numbers: &[u64]) -> Result<String, NoMemory>
    ensures { IfOk result (λ text. string_bytes text ≡ numbers_text numbers.now) }
{
    let mut text = String::new(alloc);
    for number in numbers {
        let spelled = format!(in alloc; " {number}")?;
        text.push_str(spelled.as_str())?;
    }
    Ok(text)
}
