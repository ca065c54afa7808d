// Standard streams that answer as they are told, call by call. What a signal does to a real one, they do at will.
ghost use Rattle.std.specs.Prelude.{◌≡◌, ◌+◌, ◌≤◌, length, IfOk, string_len};

use std::alloc::{Allocator, Global};
use std::cell::{Cell, RefCell};
use std::fmt::Display;
use std::io::{self, BufRead, ErrorKind, Lines, Read};

/// What the answer with this number lets through, of `asked` bytes: `i` is a call that a signal
/// interrupts, `w` one that would have to wait, `f` one that fails otherwise, and a digit one that moves
/// so many bytes at most. After the last answer nothing moves.
fn moved(answers: &str, number: usize, asked: usize) -> io::Result<usize>
    ensures { IfOk result (λ n. n ≤ asked) }
{
    match answers.as_bytes().get(number) {
        Some(b'i') => Err(io::Error::from(ErrorKind::Interrupted)),
        Some(b'w') => Err(io::Error::from(ErrorKind::WouldBlock)),
        Some(b'f') => Err(io::Error::from(ErrorKind::BrokenPipe)),
        Some(digit) => Ok(asked.min(usize::from(digit.saturating_sub(b'0')))),
        None => Ok(0),
    }
}

/// An output with these answers.
#[derive(Drop)]
pub(super) struct ToldOutput {
    answers: &'static str,
    made: Cell<usize>,
    held: RefCell<Vec<u8>>,
}

impl ToldOutput {
    pub(super) fn new(alloc: Global, answers: &'static str) -> Self {
        ToldOutput {
            answers,
            made: Cell::new(0),
            held: RefCell::new(Vec::new(alloc)),
        }
    }

    /// The bytes that came through.
    pub(super) fn into_held(self) -> Vec<u8> {
        self.held.into_inner()
    }
}

impl Print for ToldOutput {
    fn print<D: Display + Drop>(&self, _value: D) -> io::Result<()> {
        Err(io::Error::from(ErrorKind::Unsupported))
    }

    fn println<D: Display + Drop>(&self, _value: D) -> io::Result<()> {
        Err(io::Error::from(ErrorKind::Unsupported))
    }

    fn write_all(&self, _bytes: &[u8]) -> io::Result<()> {
        Err(io::Error::from(ErrorKind::Unsupported))
    }

    fn write_some(&self, bytes: &[u8]) -> io::Result<usize>
        ensures bound { IfOk result (λ n. n ≤ length bytes.now) }
    {
        let number = self.made.get();
        self.made.set(number.saturating_add(1));
        let n = moved(self.answers, number, bytes.len())?;
        match self.held.try_borrow_mut() {
            Ok(mut held) => held.extend_from_slice(bytes.split_at(n).0)?,
            Err(_) => return Err(io::Error::from(ErrorKind::Other)),
        }
        Ok(n)
    }
}

/// An input with these answers. The bytes that come in are the letters from `a` on.
#[derive(Clone, Copy)]
pub(super) struct ToldInput(pub(super) &'static str);

/// A reader of such an input, and the number of its next answer.
#[derive(Drop)]
pub(super) struct ToldReader {
    answers: &'static str,
    made: usize,
    next: u8,
}

impl Read for ToldReader {
    fn read(&mut self, buf: &mut [u8]) -> io::Result<usize> {
        let number = self.made;
        self.made = number.saturating_add(1);
        let n = moved(self.answers, number, buf.len())?;
        for byte in &mut buf[..n] {
            *byte = self.next;
            self.next = self.next.wrapping_add(1);
        }
        Ok(n)
    }
}

impl BufRead for ToldReader {
    fn fill_buf(&mut self) -> io::Result<&[u8]> {
        Err(io::Error::from(ErrorKind::Unsupported))
    }

    fn consume(&mut self, _amount: usize) {}
}

impl Input for ToldInput {
    type Reader = ToldReader;

    fn read_line<A: Allocator + Clone>(&self, _buf: &mut String<A>) -> io::Result<usize> {
        Err(io::Error::from(ErrorKind::Unsupported))
    }

    fn lines<A: Allocator>(&self, alloc: A) -> Lines<ToldReader, A> {
        self.reader().lines(alloc)
    }

    fn reader(&self) -> ToldReader {
        ToldReader {
            answers: self.0,
            made: 0,
            next: b'a',
        }
    }
}
