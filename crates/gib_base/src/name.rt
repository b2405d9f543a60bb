//! Names of a source text, by number.

ghost use Rattle.std.specs.Prelude.{◌≡◌, ◌==◌, ◌<◌, ◌≤◌, ◌↔◌, [], false, length, slice_get, unwrap_or, Some, IfOk, IfSome, IfNone, OnOk, OnErr};
ghost use Rattle.std.specs.Result.{IsErrOf};
ghost use Rattle.gib_base.specs.Names.{holds, number_of, with_name, AreNames};

use crate::Memory;
use crate::limits::NAMES;
use indexmap::IndexSet;
use std::alloc::{AllocFailed, Global};
use std::marker::Model;
use thiserror::Error;

/// The number of a name: its place among the names of a text, in the order of their first use.
#[derive(Clone, Copy, Debug, PartialEq, Eq)]
pub struct Name(pub u32);

/// Why a name got no number.
#[derive(Clone, Copy, Debug, PartialEq, Eq, Error)]
pub enum NameFault {
    #[error("out of memory")]
    Memory,
    /// The name is new, and as many names as there may be are held.
    #[error("too many names")]
    Many,
}

impl<T: Drop> From<AllocFailed<T>> for NameFault {
    ghost use Rattle.gib_base.specs.declared.name.NameFault.TheVariants.{Memory};

    ghost from_gives = { λ _ e. e ≡ Memory };

    fn from(_failed: AllocFailed<T>) -> NameFault {
        NameFault::Memory
    }
}

impl From<Memory> for NameFault {
    ghost use Rattle.gib_base.specs.declared.name.NameFault.TheVariants.{Memory};

    ghost from_gives = { λ _ e. e ≡ Memory };

    fn from(_failed: Memory) -> NameFault {
        NameFault::Memory
    }
}

/// Different texts, each with a number: its place among them.
#[derive(Drop)]
pub struct Names {
    set: IndexSet<Vec<u8>>,
}

impl Model for Names {
    ghost use Rattle.std.specs.Prelude.{ℕ, List};

    ghost Value = { List (List ℕ) };

    ghost use Rattle.gib_base.specs.Names.{texts_of, AreNames};

    ghost view = { λ n. texts_of n.set.keys };

    ghost invariant = { λ n. AreNames (texts_of n.set.keys) };
}

impl Names {
    /// No names yet.
    pub fn make(alloc: Global) -> Result<Names, Memory>
        ensures { IfOk result (λ names. names ≡ []) }
    {
        Ok(Names {
            set: IndexSet::new(alloc),
        })
    }

    /// How many names there are.
    pub fn len(&self) -> u32
        ensures count { result ≡ length self.now }
        ensures names { AreNames self.now }
    {
        self.set.len() as u32
    }

    /// Whether there are no names.
    pub fn is_empty(&self) -> bool
        ensures { result ≡ (length self.now == 0) }
    {
        self.len() == 0
    }

    /// The number of a text, which it gets where it has none yet: the next one.
    pub fn intern(&mut self, alloc: Global, text: &[u8]) -> Result<Name, NameFault>
        ensures number { IfOk result (λ name. name.0 ≡ number_of self.old text.now) }
        ensures held { IfOk result (λ name. slice_get self.new name.0 ≡ Some text.now) }
        ensures grown { OnOk result (self.new ≡ with_name self.old text.now) }
        ensures names { AreNames self.new }

        // Want of memory comes after this: a text that is one too many is refused as such.
        ensures many { IsErrOf result NameFault.Many ↔ ((length self.old ≡ 65535) × (holds self.old text.now ≡ false)) }
        ensures err { OnErr result (self.new ≡ self.old) }
    {
        match self.set.get_index_of(text) {
            Some(index) => Ok(Name(index as u32)),
            None => {
                if self.set.len() >= NAMES as usize {
                    return Err(NameFault::Many);
                }
                let owned = Vec::from_slice(alloc, text)?;
                let (index, _) = self.set.insert_full(owned)?;
                Ok(Name(index as u32))
            }
        }
    }

    /// The number of a text, where it is one of the names.
    pub fn find(&self, text: &[u8]) -> Option<Name>
        ensures number { IfSome result (λ name. name.0 ≡ number_of self.now text.now) }
        ensures held { IfSome result (λ name. slice_get self.now name.0 ≡ Some text.now) }
        ensures absent { IfNone result (holds self.now text.now ≡ false) }
    {
        match self.set.get_index_of(text) {
            Some(index) => Some(Name(index as u32)),
            None => None,
        }
    }

    /// The text of a name; of a number that no name has, no text.
    pub fn text_or_none(&self, name: Name) -> &[u8]
        ensures { result.now ≡ unwrap_or (slice_get self.now name.0) [] }
    {
        if name.0 < self.len() {
            self.text(name)
        } else {
            &[]
        }
    }

    /// The text of a name.
    pub fn text(&self, name: Name) -> &[u8]
        requires { name.0 < length self.now }
        ensures { slice_get self.now name.0 ≡ Some result.now }
    {
        self.set.as_slice()[name.0 as usize].as_slice()
    }
}
