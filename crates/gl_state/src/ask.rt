//! What a call asks of the objects that contexts share: its event, the bytes and names of which still lie in memory.

ghost use Rattle.std.specs.Prelude.{◌≡◌, true, IfOk, IsErr};
ghost use Rattle.gl_memory.specs.Piece.{bytes_from};
ghost use Rattle.gl_tracked.specs.Names.{names_at};
ghost use Rattle.gl_objects.specs.Event.{IsEvent};
ghost use Rattle.gl_state.specs.Event.{event_asked, has_content, is_image, uploaded, IsAsk};

use crate::images::{image_uploaded, rows_from, run_of};
use gl_memory::Memory;
use gl_objects::{Event, Kind, Names, Upload};
use gl_tracked::name_at;
use std::alloc::{AllocError as NoMemory, Global};
use texture_units::Format;

/// An event, of which the bytes and names lie in memory (sections 2.9, 3.7.1, 3.7.2, 3.7.4, 3.7.11 and 6.1); own.
#[derive(Clone, Copy)]
pub enum Ask {
    /// A name is bound, which isn't 0.
    Bind {
        kind: Kind,
        name: u32,
    },
    /// A buffer gets so many bytes, from a place of memory on, or zeros where the place is 0.
    Bytes {
        name: u32,
        size: u32,
        source: u32,
    },
    /// So many bytes, from a place of memory on, are written over those of a buffer, from an offset on.
    Part {
        name: u32,
        offset: u32,
        size: u32,
        source: u32,
    },
    /// So many names are given.
    Gen {
        kind: Kind,
        n: u32,
    },
    /// So many names, which lie from a place of memory on, are deleted.
    Delete {
        kind: Kind,
        n: u32,
        names: u32,
    },
    /// Whether a name is that of an object, which isn't 0.
    Is {
        kind: Kind,
        name: u32,
    },
    /// A texture gets an image of these sides in texels, whose rows lie from a place of memory on, a pitch in bytes from one to
    /// the next, or zeros where the place is 0 (section 3.7.1, the last own).
    Image {
        name: u64,
        format: Format,
        width: u32,
        height: u32,
        pitch: u32,
        source: u32,
    },
    /// A rectangle of a texture's texels is replaced, from a column and a row on; its rows lie as those of an image (section
    /// 3.7.2).
    ImagePart {
        name: u64,
        format: Format,
        x: u32,
        y: u32,
        width: u32,
        height: u32,
        pitch: u32,
        source: u32,
    },
    /// A parameter of a texture is set (section 3.7.4).
    Parameter {
        name: u64,
        pname: u32,
        value: i32,
    },
}

impl Ask {
    /// The event, with its bytes and names as they lie in memory, and images without the padding of their rows. Only an event
    /// that has some takes memory (sections 2.9, 3.6.2, 3.7.1, 3.7.2 and 3.7.11); own.
    #[tactic(auto, unfolding(crate::specs::Event::event_asked))]
    pub fn event<M: Memory>(&self, alloc: Global, memory: &M) -> Result<Event, NoMemory>
        requires named { IsAsk self.now }
        ensures event { IfOk result (λ event. event
            ≡ event_asked self.now (M.segments memory.now)) }
        ensures legal { IfOk result IsEvent }
        ensures memory { IsErr result → has_content self.now ≡ true }
    {
        match self {
            Ask::Bind { kind, name } => Ok(Event::Bind {
                kind: *kind,
                name: u64::from(*name),
            }),
            Ask::Bytes { name, size, source } => Ok(Event::BufferBytes {
                name: *name,
                bytes: uploaded(alloc, memory, *source, *size)?,
            }),
            Ask::Part {
                name,
                offset,
                size,
                source,
            } => Ok(Event::BufferPart {
                name: *name,
                offset: *offset,
                bytes: bytes_from(alloc, memory, *source, *size)?,
            }),
            Ask::Gen { kind, n } => Ok(Event::Gen { kind: *kind, n: *n }),
            Ask::Delete { kind, n, names } => Ok(Event::Delete {
                kind: *kind,
                names: names_at(alloc, memory, *names, *n)?,
            }),
            Ask::Is { kind, name } => Ok(Event::Is {
                kind: *kind,
                name: *name,
            }),
            Ask::Image { .. } | Ask::ImagePart { .. } => self.image(alloc, memory),
            Ask::Parameter { name, pname, value } => Ok(Event::Parameter {
                name: *name,
                pname: *pname,
                value: *value,
            }),
        }
    }

    /// The event of an image or of a part of one. It stands by itself, so that `event` has no more than its arms.
    #[tactic(auto, unfolding(crate::specs::Event::event_asked))]
    fn image<M: Memory>(&self, alloc: Global, memory: &M) -> Result<Event, NoMemory>
        requires named { IsAsk self.now }
        requires image { is_image self.now ≡ true }
        ensures event { IfOk result (λ event. event
            ≡ event_asked self.now (M.segments memory.now)) }
        ensures legal { IfOk result IsEvent }
    {
        match self {
            Ask::Image {
                name,
                format,
                width,
                height,
                pitch,
                source,
            } => Ok(Event::Image {
                name: *name,
                format: *format,
                width: *width,
                height: *height,
                bytes: image_uploaded(
                    alloc,
                    memory,
                    *source,
                    *pitch,
                    run_of(*format, *width),
                    *height,
                )?,
            }),
            Ask::ImagePart {
                name,
                format,
                x,
                y,
                width,
                height,
                pitch,
                source,
            } => Ok(Event::ImagePart {
                name: *name,
                format: *format,
                x: *x,
                y: *y,
                width: *width,
                height: *height,
                bytes: rows_from(
                    alloc,
                    memory,
                    *source,
                    *pitch,
                    run_of(*format, *width),
                    *height,
                )?,
            }),
            _ => unreachable!(),
        }
    }
}

/// So many bytes from a place of memory on, or zeros where the place is 0 (section 2.9, the last own).
#[tactic(auto, unfolding(crate::specs::Event::uploaded))]
fn uploaded<M: Memory>(
    alloc: Global,
    memory: &M,
    source: u32,
    size: u32,
) -> Result<Upload, NoMemory>
    ensures { IfOk result (λ upload. upload ≡ uploaded (M.segments memory.now) source size) }
{
    if source == 0 {
        Ok(Upload::new(vec![in alloc; 0; size as usize]?))
    } else {
        bytes_from(alloc, memory, source, size)
    }
}

/// So many bytes from a place of memory on.
#[tactic(auto, unfolding(gl_memory::specs::Piece::bytes_from))]
fn bytes_from<M: Memory>(
    alloc: Global,
    memory: &M,
    source: u32,
    size: u32,
) -> Result<Upload, NoMemory>
    ensures { IfOk result (λ upload. upload ≡ bytes_from (M.segments memory.now) source size) }
{
    let mut bytes = Vec::with_capacity(alloc, size as usize)?;
    for number in 0..size {
        bytes.push_reserved(memory.byte(u64::from(source) + u64::from(number)));
    }
    Ok(Upload::new(bytes))
}

/// So many names from a place of memory on (section 2.9).
#[tactic(auto, unfolding(gl_tracked::specs::Names::names_at))]
fn names_at<M: Memory>(alloc: Global, memory: &M, place: u32, count: u32) -> Result<Names, NoMemory>
    ensures { IfOk result (λ names. names ≡ names_at (M.segments memory.now) place count) }
{
    let mut names = Vec::with_capacity(alloc, count as usize)?;
    for number in 0..count {
        names.push_reserved(name_at(memory, place, number));
    }
    Ok(Names::new(names))
}
