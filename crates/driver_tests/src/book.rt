//! A book of objects: events of several seats one after another, what they are replied, the history, and the objects that it
//! leads to. The replies are those of another program.

ghost use Rattle.std.specs.Prelude.{IfOk};
ghost use Rattle.gl_objects.specs.Event.{IsEvent};

use gl_objects::{Event, Kind, Names, Upload};
use gl_words::GlError;
use soft_driver::Book;
use std::alloc::{AllocError as NoMemory, Global};
use std::process::Abort;
use std::test::Fail;

/// An event of buffers.
#[derive(Clone, Copy)]
enum Row {
    Bind(u32),
    Bytes(u32, &'static [u8]),
    Part(u32, u32, &'static [u8]),
    Gen(u32),
    Delete(&'static [u32]),
    Is(u32),
}

/// The event of a row.
fn event_of(rt: &impl Abort, alloc: Global, row: Row) -> Result<Event, NoMemory>
    ensures { IfOk result (λ event. IsEvent event) }
{
    let kind = Kind::Buffer;
    match row {
        Row::Bind(name) => {
            assert!(rt; name > 0);
            Ok(Event::Bind {
                kind: Kind::Buffer,
                name: u64::from(name),
            })
        }
        Row::Bytes(name, bytes) => Ok(Event::BufferBytes {
            name,
            bytes: Upload::new(Vec::from_slice(alloc, bytes)?),
        }),
        Row::Part(name, offset, bytes) => Ok(Event::BufferPart {
            name,
            offset,
            bytes: Upload::new(Vec::from_slice(alloc, bytes)?),
        }),
        Row::Gen(n) => Ok(Event::Gen { kind, n }),
        Row::Delete(names) => Ok(Event::Delete {
            kind,
            names: Names::new(Vec::from_slice(alloc, names)?),
        }),
        Row::Is(name) => Ok(Event::Is { kind, name }),
    }
}

/// Events, each with its seat, its error, the names that it gives, and whether it is answered that there is such an object.
const ROWS: [(u32, Row, Option<GlError>, &[u32], bool); 10] = [
    (0, Row::Gen(2), None, &[1, 2], false),
    (2, Row::Is(1), None, &[], false),
    (0, Row::Bind(1), None, &[], false),
    (2, Row::Is(1), None, &[], true),
    (0, Row::Bytes(1, &[7, 8, 9]), None, &[], false),
    (
        2,
        Row::Part(1, 2, &[5, 6]),
        Some(GlError::InvalidValue),
        &[],
        false,
    ),
    (2, Row::Part(1, 1, &[5, 6]), None, &[], false),
    (
        1,
        Row::Bytes(2, &[]),
        Some(GlError::InvalidOperation),
        &[],
        false,
    ),
    (1, Row::Delete(&[2, 0, 9]), None, &[], false),
    (0, Row::Gen(1), None, &[2], false),
];

#[test]
fn a_book_enters_each_event_with_its_seat(rt: HostRuntime) -> Result<(), Fail> {
    let mut book = Book::new(rt.alloc());
    for (seat, row, fault, names, truth) in ROWS {
        let event = event_of(&rt, rt.alloc(), row)?;
        match book.apply(seat, event) {
            Ok(reply) => {
                assert!(rt; reply.fault == fault);
                assert!(rt; reply.names.as_slice() == names);
                assert!(rt; reply.truth == truth);
            }
            Err((_event, refused)) => return Err(refused.into()),
        }
    }
    assert_eq!(rt; book.len(), 10);
    for (at, row) in ROWS.iter().enumerate() {
        assert!(rt; at < book.len());
        assert_eq!(rt; book.seat_at(at), row.0);
    }
    for (at, byte) in [7, 5, 6, 0].into_iter().enumerate() {
        assert_eq!(rt; book.objects().buffer_byte(1, at as u64), byte);
    }
    Ok(())
}
