//! The names of enumerants by their numbers. Names and numbers are those of the table of names.

use gl_words::{Name, names_by_length};
use std::alloc::{AllocError as NoMemory, Global};
use std::collections::BTreeMap;

/// The names by their numbers; own. Small numbers have names of two kinds: kinds of primitives (section 2.6.1), and the
/// factors 0 and 1 (section 4.1.6).
#[derive(Drop)]
pub struct NumberNames {
    primitives: BTreeMap<u32, &'static str>,
    factors: BTreeMap<u32, &'static str>,
    others: BTreeMap<u32, &'static str>,
}

/// The greatest number of a kind of primitives, TRIANGLE_FAN (section 2.6.1).
const LAST_PRIMITIVE: u32 = 6;

impl NumberNames {
    /// All names; own.
    pub fn new(alloc: Global) -> Result<NumberNames, NoMemory> {
        let mut names = NumberNames {
            primitives: BTreeMap::new(alloc),
            factors: BTreeMap::new(alloc),
            others: BTreeMap::new(alloc),
        };
        for group in names_by_length() {
            for name in *group {
                names.add(name)?;
            }
        }
        Ok(names)
    }

    fn add(&mut self, name: &Name) -> Result<(), NoMemory> {
        if name.1 > LAST_PRIMITIVE {
            self.others.insert(name.1, name.0)?;
        } else if name.0 == "ZERO" || name.0 == "ONE" {
            self.factors.insert(name.1, name.0)?;
        } else {
            self.primitives.insert(name.1, name.0)?;
        }
        Ok(())
    }

    /// The name of a number as an argument of a call, if it has one; own. Only the names of draws begin with `Draw`.
    pub fn name_for(&self, call: &str, number: i64) -> Option<&'static str> {
        let number = u32::try_from(number).ok()?;
        let names = if number > LAST_PRIMITIVE {
            &self.others
        } else if call.starts_with("Draw") {
            &self.primitives
        } else if call == "BlendFunc" {
            &self.factors
        } else {
            return None;
        };
        match names.get(&number) {
            Some(name) => Some(*name),
            None => None,
        }
    }
}
