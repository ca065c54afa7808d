//! The names of one kind that are in use, with what they stand for.

ghost use Rattle.std.specs.Prelude.{◌≡◌, ◌+◌, ◌^◌, ◌<◌, ◌≤◌, ℕ, [], ◌∷◌, ◌++◌, ◌&&◌, length, take, slice_index, nat_lt, is_some, if◌then◌else◌, true, Some, IfOk, OnOk, OnErr};
ghost use Rattle.std.specs.Option.{option_copied, option_map, unwrap_or};
ghost use Rattle.std.specs.Ordering.{nat_cmp};
ghost use Rattle.std.specs.Map.{set_value};
ghost use Rattle.std.specs.BTreeMap.{is_at};
ghost use Rattle.gl_objects.specs.Store.{part_written, store_of, store_in, part_fault};
ghost use Rattle.gl_objects.specs.Table.{named, object_of, object_in, is_free, least_free, bound, put, given, without, size_in, size_at, total, AreUsed};

use crate::held::{Held, size_of_named};
use crate::named::Named;
use crate::store::Store;
use gl_words::GlError;
use std::alloc::{AllocError as NoMemory, Global};
use std::collections::BTreeMap;
use std::marker::Model;

/// The names of one kind that are in use. Contracts see the list of them in rising order, each with what it stands for.
/// The objects hold at most 67108864 bytes.
#[derive(Drop)]
pub struct Table<T: Held> {
    pub(crate) entries: BTreeMap<u64, Named<T>>,
    held: u64,
    /// So many names from 1 on are in use: where the search for free ones starts, so that a name is passed once.
    full: u32,
}

impl<T: Held> Model for Table<T> {
    ghost use Rattle.std.specs.Prelude.{◌≡◌, ◌≤◌, ℕ, List};
    ghost use Rattle.gl_objects.specs.declared.named.Named.{Named};
    ghost use Rattle.gl_objects.specs.Table.{total, AreUsed};

    ghost Value = { List (ℕ × Named T) };

    ghost view = { λ t. t.entries.entries };

    ghost invariant = { λ t. (t.held ≡ total T.size t.entries.entries)
        × ((t.held ≤ 67108864) × AreUsed t.entries.entries t.full) };
}

impl<T: Held> Table<T> {
    /// No names. It takes no memory.
    pub fn new(alloc: Global) -> Table<T>
        ensures { result ≡ [] }
    {
        Table {
            entries: BTreeMap::new(alloc),
            held: 0,
            full: 0,
        }
    }

    /// How many names are in use.
    pub fn len(&self) -> usize
        ensures len { result ≡ length self.now }
        ensures small { result < 2 ^ 63 }
    {
        self.entries.len()
    }

    /// How many bytes all objects hold.
    pub fn total(&self) -> u64
        ensures total { result ≡ total T.size self.now }
        ensures few { result ≤ 67108864 }
    {
        self.held
    }

    /// Whether a name is in use.
    fn is_in_use(&self, name: u64) -> bool
        ensures { result ≡ is_some (named self.now name) }
    {
        self.entries.contains_key(&name)
    }

    /// The object of a name. None where there is none.
    pub fn object(&self, name: u64) -> Option<&T>
        ensures { option_copied result ≡ object_in self.now name }
    {
        match self.entries.get(&name) {
            Some(Named::Object(held)) => Some(held),
            Some(Named::Generated) => None,
            None => None,
        }
    }

    /// Whether a name is that of an object.
    pub fn is_object(&self, name: u64) -> bool
        ensures { result ≡ is_some (object_in self.now name) }
    {
        match self.entries.get(&name) {
            Some(Named::Object(_)) => true,
            Some(Named::Generated) => false,
            None => false,
        }
    }

    /// How many bytes the object of a name holds: 0 where there is none.
    pub fn size_at(&self, name: u64) -> u64
        ensures at { result ≡ size_at T.size self.now name }
        ensures within { result ≤ total T.size self.now }
    {
        self.held_at(name)
    }

    fn held_at(&self, name: u64) -> u64
        ensures { result ≡ size_at T.size self.now name }
    {
        match self.entries.get(&name) {
            Some(what) => size_of_named(what),
            None => 0,
        }
    }

    /// Lets a name stand for something. After NoMemory the table is as it was.
    pub fn put(&mut self, name: u64, what: Named<T>) -> Result<(), NoMemory>
        requires room { total T.size self.old + size_in T.size what
            ≤ 67108864 + size_at T.size self.old name }
        ensures ok { OnOk result (self.new ≡ put name what self.old) }
        ensures err { OnErr result (self.new ≡ self.old) }
    {
        let size = size_of_named(&what);
        let before = size_before(self.entries.insert(name, what)?);
        self.held = self.held + size - before;
        Ok(())
    }

    /// Binds a name: its object exists from now on, without a byte if it is new. After NoMemory the table is as it was.
    pub fn bind(&mut self, name: u64, empty: T) -> Result<(), NoMemory>
        requires empty { T.size empty ≡ 0 }
        ensures ok { OnOk result (self.new ≡ bound empty name self.old) }
        ensures err { OnErr result (self.new ≡ self.old) }
    {
        if self.is_object(name) {
            return Ok(());
        }
        let _few = self.total();
        self.put(name, Named::Object(empty))
    }

    /// The name is in use no more. It takes no memory.
    fn forget(&mut self, name: u64)
        ensures { self.new ≡ without (name ∷ []) self.old }
    {
        let _ordered = self.entries.len();
        let before = size_before(self.entries.remove(&name));
        self.held -= before;
        self.full = used_below(self.full, name);
    }

    /// These names are in use no more. It takes no memory.
    pub fn forget_all(&mut self, names: &[u32])
        ensures { self.new ≡ without names.now self.old }
    {
        for name in names {
            self.forget(u64::from(*name));
        }
    }

    /// Adds a name that is in use nowhere, where there are fewer than n.
    fn add_if_free(&self, names: &mut Vec<u32>, n: u32, name: u32) -> Result<(), NoMemory>
        ensures { OnOk result (names.new.items
            ≡ (if nat_lt (length names.old.items) n && is_free self.now name
            then names.old.items ++ name ∷ [] else names.old.items)) }
    {
        if names.len() >= n as usize {
            return Ok(());
        }
        if self.is_in_use(u64::from(name)) {
            return Ok(());
        }
        names.push(name)?;
        Ok(())
    }

    /// How many names from 1 on are in use: where it ends, a name is free, or all names in use are passed.
    fn used(&self) -> u32
        requires few { length self.now ≤ 65536 }
        ensures { AreUsed self.now result }
    {
        let most = self.len() as u32;
        for used in self.full..most {
            if !self.is_in_use(u64::from(used) + 1) {
                return used;
            }
        }
        most
    }

    /// Passes the names from 1 on that are in use.
    fn pass_used(&mut self)
        requires few { length self.old ≤ 65536 }
        ensures { self.new ≡ self.old }
    {
        self.full = self.used();
    }

    /// So many names from 1 on that are in use nowhere, the least ones.
    fn least_free(&self, alloc: Global, n: u32) -> Result<Vec<u32>, NoMemory>
        requires few { length self.now + n ≤ 65536 }
        ensures { IfOk result (λ names. names.items ≡ least_free self.now n) }
    {
        let mut names = Vec::new(alloc);
        let end = self.len() as u32 + n + 1;
        for name in self.full + 1..end {
            self.add_if_free(&mut names, n, name)?;
        }
        Ok(names)
    }

    /// Gives a name: it is in use from now on, and no object. After NoMemory the table is as it was.
    fn give(&mut self, name: u64) -> Result<(), NoMemory>
        ensures ok { OnOk result (self.new ≡ put name Named.Generated self.old) }
        ensures err { OnErr result (self.new ≡ self.old) }
    {
        let _few = self.total();
        self.put(name, Named::Generated)
    }

    /// Gives these names. After NoMemory the first of them are given.
    fn give_all(&mut self, names: &[u32]) -> Result<(), NoMemory>
        ensures ok { OnOk result (self.new ≡ given names.now self.old) }
        ensures err { OnErr result ((i : ℕ) × (self.new ≡ given (take i names.now) self.old)) }
    {
        for name in names {
            self.give(u64::from(*name))?;
        }
        Ok(())
    }

    /// Gives so many names, the least ones from 1 on that are in use nowhere. After NoMemory the table is as it was.
    pub fn generate(&mut self, alloc: Global, n: u32) -> Result<Vec<u32>, NoMemory>
        requires few { length self.old + n ≤ 65536 }
        ensures names { IfOk result (λ names. names.items ≡ least_free self.old n) }
        ensures ok { OnOk result (self.new ≡ given (least_free self.old n) self.old) }
        ensures err { OnErr result (self.new ≡ self.old) }
    {
        self.pass_used();
        let names = self.least_free(alloc, n)?;
        match self.give_all(names.as_slice()) {
            Ok(()) => Ok(names),
            Err(refused) => {
                self.forget_all(names.as_slice());
                Err(refused)
            }
        }
    }
}

/// How many of these names from 1 on lie below a name.
fn used_below(full: u32, name: u64) -> u32
    ensures few { result ≤ full }
    ensures apart { 0 < result → result < name }
{
    if u64::from(full) < name {
        full
    } else if name == 0 {
        0
    } else {
        (name - 1) as u32
    }
}

/// How many bytes what stood in a place held: 0 where nothing did.
fn size_before<T: Held>(old: Option<Named<T>>) -> u64
    ensures { result ≡ unwrap_or (option_map (size_in T.size) old) 0 }
{
    match old {
        Some(what) => size_of_named(&what),
        None => 0,
    }
}

impl Table<Store> {
    /// Why so many bytes can't be written over a part of a buffer's store (section 2.9). None where they can.
    pub fn part_fault(&self, name: u64, offset: u64, count: u64) -> Option<GlError>
        ensures { result ≡ part_fault self.now name offset count }
    {
        if self.is_object(name) {
            let size = self.size_at(name);
            if offset > size || count > size - offset {
                Some(GlError::InvalidValue)
            } else {
                None
            }
        } else {
            Some(GlError::InvalidOperation)
        }
    }

    /// Copies bytes over a part of a buffer's store. It takes no memory.
    pub fn write_part(&mut self, name: u64, offset: usize, bytes: &[u8])
        requires there { is_some (object_in self.old name) ≡ true }
        requires within { offset + length bytes.now ≤ length (store_in self.old name) }
        ensures { self.new
            ≡ put name (Named.Object (part_written (store_in self.old name) offset bytes.now)) self.old }
    {
        let _ordered = self.entries.len();
        write_at(&mut self.entries, name, offset, bytes);
    }

    /// The byte of a buffer's store at a place: 0 past its end, and where there is no buffer.
    pub fn byte(&self, name: u64, at: usize) -> u8
        ensures { result ≡ slice_index (store_in self.now name) at }
    {
        match self.entries.get(&name) {
            Some(what) => byte_in(what, at),
            None => 0,
        }
    }
}

/// Copies bytes over a part of the store of a buffer among these.
fn write_at(entries: &mut BTreeMap<u64, Named<Store>>, name: u64, offset: usize, bytes: &[u8])
    requires there { is_some (object_in entries.old.entries name) ≡ true }
    requires within { offset + length bytes.now ≤ length (store_in entries.old.entries name) }
    ensures { entries.new.entries
        ≡ set_value (is_at (nat_cmp name)) entries.old.entries
        (Named.Object (part_written (store_in entries.old.entries name) offset bytes.now)) }
{
    if let Some(what) = entries.get_mut(&name) {
        write_in(what, offset, bytes);
    }
}

/// Copies bytes over a part of a buffer's store.
fn write_in(what: &mut Named<Store>, offset: usize, bytes: &[u8])
    requires there { is_some (object_of (Some what.old)) ≡ true }
    requires within { offset + length bytes.now ≤ length (store_of (Some what.old)) }
    ensures { what.new ≡ Named.Object (part_written (store_of (Some what.old)) offset bytes.now) }
{
    match what {
        Named::Object(store) => store.write(offset, bytes),
        Named::Generated => {}
    }
}

/// The byte of what a name stands for.
fn byte_in(what: &Named<Store>, at: usize) -> u8
    ensures { result ≡ slice_index (store_of (Some what.now)) at }
{
    match what {
        Named::Object(store) => store.byte(at),
        Named::Generated => 0,
    }
}
