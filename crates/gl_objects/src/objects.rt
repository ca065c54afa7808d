//! The objects that contexts share, and what an event makes of them.

ghost use Rattle.std.specs.Prelude.{◌≡◌, ◌^◌, ◌≤◌, false, length, None, IfOk, OnOk, OnErr, IsOk, IsErr};
ghost use Rattle.gl_objects.specs.Event.{IsEvent, wants_memory};
ghost use Rattle.gl_objects.specs.Step.{no_objects, step, reply_of, fault_of, byte_in};
ghost use Rattle.gl_objects.specs.Textures.{bytes_fault};

use crate::event::Event;
use crate::images::is_default;
use crate::kind::Kind;
use crate::lists::Names;
use crate::named::Named;
use crate::reply::{EventReply, told};
use crate::store::Store;
use crate::table::Table;
use crate::texture::TextureObject;
use gl_words::GlError;
use std::alloc::{AllocError as NoMemory, Global};
use std::marker::Model;

/// The most names of a kind that are in use after some were given; own.
const MOST_NAMES: u64 = 65536;

/// All objects. Contracts see the names of each kind that are in use, with what they stand for, and the default textures.
#[derive(Drop)]
pub struct Objects {
    pub(crate) buffers: Table<Store>,
    pub(crate) textures: Table<TextureObject>,
    /// That of context k at place k. They lie here, so that they are there without memory.
    pub(crate) defaults: [TextureObject; 4],
    pub(crate) alloc: Global,
}

impl Model for Objects {
    ghost use Rattle.gl_objects.specs.View.{ObjectsView};

    ghost Value = { ObjectsView };

    ghost view = { λ o. record { buffers = o.buffers; textures = o.textures; defaults = o.defaults } };
}

impl Objects {
    /// No names in use, and the default texture of each context, with nothing put in. It takes no memory, and keeps its allocator.
    pub fn new(alloc: Global) -> Objects
        ensures { result ≡ no_objects }
    {
        Objects {
            buffers: Table::new(alloc),
            textures: Table::new(alloc),
            defaults: [
                TextureObject::new(),
                TextureObject::new(),
                TextureObject::new(),
                TextureObject::new(),
            ],
            alloc,
        }
    }

    /// Applies an event. After NoMemory the objects are as they were. Only `Bind`, `BufferBytes`, `Image` and `Gen` take memory and
    /// may be refused, and not where they have a fault (sections 2.5, 2.9, 3.7.1, 3.7.2, 3.7.4, 3.7.11 and 6.1, that memory may be
    /// wanted own).
    pub fn apply(&mut self, event: &Event) -> Result<EventReply, NoMemory>
        requires event { IsEvent event.now }
        ensures reply { IfOk result (λ reply. reply ≡ reply_of self.old event.now) }
        ensures ok { OnOk result (self.new ≡ step self.old event.now) }
        ensures err { OnErr result (self.new ≡ self.old) }
        ensures asks { wants_memory event.now ≡ false → IsOk result }
        ensures faults { IsErr result → fault_of self.old event.now ≡ None }
    {
        match event {
            Event::Bind { kind, name } => self.bind(*kind, *name),
            Event::BufferBytes { name, bytes } => self.buffer_bytes(*name, bytes.as_slice()),
            Event::BufferPart {
                name,
                offset,
                bytes,
            } => Ok(self.buffer_part(*name, *offset, bytes.as_slice())),
            Event::Image {
                name,
                format,
                width,
                height,
                bytes,
            } => self.put_image(*name, *format, *width, *height, bytes.as_slice()),
            Event::ImagePart {
                name,
                format,
                x,
                y,
                width,
                height,
                bytes,
            } => Ok(self.put_image_part(*name, *format, *x, *y, *width, *height, bytes.as_slice())),
            Event::Parameter { name, pname, value } => {
                Ok(self.set_parameter(*name, *pname, *value))
            }
            Event::Gen { kind, n } => self.generate(*kind, *n),
            Event::Delete { kind, names } => Ok(self.delete(*kind, names.as_slice())),
            Event::Is { kind, name } => Ok(self.is(*kind, *name)),
            Event::Use { .. } => Ok(told(self.alloc, None, false)),
        }
    }

    /// Applies an event as `apply` does, and takes it: the bytes of `BufferBytes` become the store themselves, and are not copied.
    pub fn take(&mut self, event: Event) -> Result<EventReply, NoMemory>
        requires event { IsEvent event }
        ensures reply { IfOk result (λ reply. reply ≡ reply_of self.old event) }
        ensures ok { OnOk result (self.new ≡ step self.old event) }
        ensures err { OnErr result (self.new ≡ self.old) }
        ensures asks { wants_memory event ≡ false → IsOk result }
        ensures faults { IsErr result → fault_of self.old event ≡ None }
    {
        match event {
            Event::BufferBytes { name, bytes } => self.take_bytes(name, bytes.into_bytes()),
            event => self.apply(&event),
        }
    }

    /// The byte of a buffer's store at a place. 0 past the store's end, and where the name is that of no buffer.
    pub fn buffer_byte(&self, name: u32, at: u64) -> u8
        ensures { result ≡ byte_in self.now name at }
    {
        self.buffers.byte(u64::from(name), at as usize)
    }

    fn bind(&mut self, kind: Kind, name: u64) -> Result<EventReply, NoMemory>
        ensures reply { IfOk result (λ reply. reply ≡ reply_of self.old (Event.Bind kind name)) }
        ensures ok { OnOk result (self.new ≡ step self.old (Event.Bind kind name)) }
        ensures err { OnErr result (self.new ≡ self.old) }
    {
        match kind {
            Kind::Buffer => {
                self.buffers.bind(name, Store::new(self.alloc))?;
                Ok(told(self.alloc, None, false))
            }
            Kind::Texture => {
                if is_default(name) {
                    return Ok(told(self.alloc, None, false));
                }
                self.textures.bind(name, TextureObject::new())?;
                Ok(told(self.alloc, None, false))
            }
        }
    }

    fn buffer_bytes(&mut self, name: u32, bytes: &[u8]) -> Result<EventReply, NoMemory>
        ensures reply { IfOk result (λ reply. reply
            ≡ reply_of self.old (Event.BufferBytes name bytes.now)) }
        ensures ok { OnOk result (self.new ≡ step self.old (Event.BufferBytes name bytes.now)) }
        ensures err { OnErr result (self.new ≡ self.old) }
        ensures faults { IsErr result → fault_of self.old (Event.BufferBytes name bytes.now) ≡ None }
    {
        match self.bytes_fault(u64::from(name), bytes.len() as u64) {
            Some(fault) => Ok(told(self.alloc, Some(fault), false)),
            None => {
                let store = Store::copied(self.alloc, bytes)?;
                self.put_store(name, store)
            }
        }
    }

    /// `buffer_bytes`, of bytes that become the store themselves.
    fn take_bytes(&mut self, name: u32, bytes: Vec<u8>) -> Result<EventReply, NoMemory>
        ensures reply { IfOk result (λ reply. reply
            ≡ reply_of self.old (Event.BufferBytes name bytes.items)) }
        ensures ok { OnOk result (self.new ≡ step self.old (Event.BufferBytes name bytes.items)) }
        ensures err { OnErr result (self.new ≡ self.old) }
        ensures faults { IsErr result
            → fault_of self.old (Event.BufferBytes name bytes.items) ≡ None }
    {
        match self.bytes_fault(u64::from(name), bytes.len() as u64) {
            Some(fault) => Ok(told(self.alloc, Some(fault), false)),
            None => self.put_store(name, Store::of(bytes)),
        }
    }

    /// Lets a buffer's store be this one. After NoMemory the objects are as they were.
    fn put_store(&mut self, name: u32, store: Store) -> Result<EventReply, NoMemory>
        requires room { bytes_fault self.old name (length store) ≡ None }
        ensures reply { IfOk result (λ reply. reply
            ≡ reply_of self.old (Event.BufferBytes name store)) }
        ensures ok { OnOk result (self.new ≡ step self.old (Event.BufferBytes name store)) }
        ensures err { OnErr result (self.new ≡ self.old) }
    {
        self.buffers.put(u64::from(name), Named::Object(store))?;
        Ok(told(self.alloc, None, false))
    }

    /// Why a buffer's store can't become so many bytes (section 2.9). None where it can.
    fn bytes_fault(&self, name: u64, count: u64) -> Option<GlError>
        requires count { count ≤ 2 ^ 63 }
        ensures { result ≡ bytes_fault self.now name count }
    {
        if self.buffers.is_object(name) {
            self.room_fault(self.buffers.size_at(name), count)
        } else {
            Some(GlError::InvalidOperation)
        }
    }

    fn buffer_part(&mut self, name: u32, offset: u32, bytes: &[u8]) -> EventReply
        ensures reply { result ≡ reply_of self.old (Event.BufferPart name offset bytes.now) }
        ensures ok { self.new ≡ step self.old (Event.BufferPart name offset bytes.now) }
    {
        let name = u64::from(name);
        match self
            .buffers
            .part_fault(name, u64::from(offset), bytes.len() as u64)
        {
            Some(fault) => told(self.alloc, Some(fault), false),
            None => {
                self.buffers.write_part(name, offset as usize, bytes);
                told(self.alloc, None, false)
            }
        }
    }

    fn generate(&mut self, kind: Kind, n: u32) -> Result<EventReply, NoMemory>
        ensures reply { IfOk result (λ reply. reply ≡ reply_of self.old (Event.Gen kind n)) }
        ensures ok { OnOk result (self.new ≡ step self.old (Event.Gen kind n)) }
        ensures err { OnErr result (self.new ≡ self.old) }
        ensures faults { IsErr result → fault_of self.old (Event.Gen kind n) ≡ None }
    {
        match kind {
            Kind::Buffer => {
                if self.buffers.len() as u64 + u64::from(n) > MOST_NAMES {
                    return Ok(told(self.alloc, Some(GlError::OutOfMemory), false));
                }
                let names = self.buffers.generate(self.alloc, n)?;
                Ok(named_reply(names))
            }
            Kind::Texture => {
                if self.textures.len() as u64 + u64::from(n) > MOST_NAMES {
                    return Ok(told(self.alloc, Some(GlError::OutOfMemory), false));
                }
                let names = self.textures.generate(self.alloc, n)?;
                Ok(named_reply(names))
            }
        }
    }

    fn delete(&mut self, kind: Kind, names: &[u32]) -> EventReply
        ensures reply { result ≡ reply_of self.old (Event.Delete kind names.now) }
        ensures ok { self.new ≡ step self.old (Event.Delete kind names.now) }
    {
        match kind {
            Kind::Buffer => self.buffers.forget_all(names),
            Kind::Texture => self.textures.forget_all(names),
        }
        told(self.alloc, None, false)
    }

    fn is(&self, kind: Kind, name: u32) -> EventReply
        ensures { result ≡ reply_of self.now (Event.Is kind name) }
    {
        match kind {
            Kind::Buffer => told(self.alloc, None, self.buffers.is_object(u64::from(name))),
            Kind::Texture => told(self.alloc, None, self.textures.is_object(u64::from(name))),
        }
    }
}

/// A reply with names that were given.
fn named_reply(names: Vec<u32>) -> EventReply
    ensures { result ≡ record { fault = None; names = names.items; truth = false } }
{
    EventReply {
        fault: None,
        names: Names::new(names),
        truth: false,
    }
}
