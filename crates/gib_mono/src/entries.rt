//! The names of copies, each once, and the place of each.

ghost use Rattle.std.specs.Prelude.{◌≡◌, List, [], OnOk, OnErr};
ghost use Rattle.gib_mono.specs.Entries.{place_in, with_key};

use gib_base::Memory;
use gib_types::types::TypeId;
use indexmap::IndexSet;
use std::alloc::{AllocError, Global};
use std::marker::Model;

/// A name with types.
#[derive(Drop, PartialEq, Eq, Hash)]
pub struct Entry {
    /// The name's number in the source.
    pub name: u32,
    pub types: Vec<TypeId>,
}

/// Names with types, each once, in the order in which they first came.
#[derive(Drop)]
pub struct Entries {
    keys: IndexSet<Entry>,
}

impl Model for Entries {
    ghost use Rattle.std.specs.Prelude.{List};
    ghost use Rattle.gib_mono.specs.declared.entries.Entry.{Entry as Item};

    ghost Value = { List Item };

    ghost view = { λ e. e.keys.keys };
}

impl Entries {
    /// No names.
    pub fn new(alloc: Global) -> Entries
        ensures { result ≡ [] }
    {
        Entries {
            keys: IndexSet::new(alloc),
        }
    }

    /// The names, in their order.
    pub fn as_slice(&self) -> &[Entry]
        ensures { result.now ≡ self.now }
    {
        self.keys.as_slice()
    }

    /// One more name with types, last, where it is none of these.
    pub fn put(&mut self, entry: Entry) -> Result<(), Memory>
        ensures put { OnOk result (self.new ≡ with_key self.old entry) }
        ensures same { OnErr result (self.new ≡ self.old) }
    {
        let Ok(_) = self.keys.insert_full(entry) else {
            return Err(AllocError);
        };
        Ok(())
    }

    /// The place of a name with types; behind all where it is none of them.
    pub fn place(&self, entry: &Entry) -> usize
        ensures { result ≡ place_in self.now entry.now }
    {
        match self.keys.get_index_of(entry) {
            Some(place) => place,
            None => self.keys.len(),
        }
    }
}
