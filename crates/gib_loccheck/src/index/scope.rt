//! The variables in scope.

use crate::index::entry::push_entry;
use gib_base::{ByNumber, Memory};
use gib_core::{Known, Variable};
use std::alloc::Global;
use std::marker::Model;

/// What is known of a variable in scope, and what was known of it before.
#[derive(Clone, Copy)]
pub struct InScope {
    pub known: Known,
    pub before: Option<Known>,
}

/// The variables in scope, which are found by their numbers. Those that came last leave first.
#[derive(Drop)]
pub struct Scope {
    entries: Vec<InScope>,
    known: ByNumber<Known>,
}

impl Model for Scope {
    ghost use Rattle.std.specs.Prelude.{map, reverse};
    ghost use Rattle.gib_core.specs.declared.scope.Known.{Known as Item};
    ghost use Rattle.gib_loccheck.specs.Found.{Listed, AreKnown, known_of};

    ghost Value = { Listed Item };

    ghost view = { λ s. record { items = map known_of s.entries.items } };

    ghost invariant = { λ s. AreKnown (reverse s.entries.items) s.known };
}

impl Scope {
    ghost use Rattle.std.specs.Prelude.{◌≡◌, ◌-◌, ◌++◌, ◌∷◌, [], length, reverse, take, OnOk};
    ghost use Rattle.gib_core.specs.Met.{known as known_in};

    /// No variable.
    pub fn new(alloc: Global) -> Scope
        ensures { result.items ≡ [] }
    {
        Scope {
            entries: Vec::new(alloc),
            known: ByNumber::new(alloc),
        }
    }

    /// How many variables came into scope and did not leave.
    pub fn len(&self) -> usize
        ensures { result ≡ length self.now.items }
    {
        self.entries.len()
    }

    /// What is known of a variable in scope: the newest counts.
    #[tactic(auto, using(crate::proofs::FoundLemmas::known_found))]
    pub fn find(&self, variable: Variable) -> Option<Known>
        ensures { result ≡ known_in (reverse self.now.items) variable }
    {
        self.known.get(variable.0)
    }

    /// One more variable comes into scope.
    ///
    /// # Errors
    ///
    /// Want of memory; all stays as it was.
    #[tactic(auto, using(crate::proofs::FoundLemmas::known_put))]
    pub fn push(&mut self, known: Known) -> Result<(), Memory>
        ensures { OnOk result (self.new.items ≡ self.old.items ++ known ∷ []) }
    {
        let number = known.variable.0;
        let before = self.known.get(number);
        let entry = InScope { known, before };
        push_entry(&mut self.entries, entry, &mut self.known, number, known)
    }

    /// The newest variable leaves, where there is one.
    fn pop(&mut self) -> Result<(), Memory>
        ensures { OnOk result (self.new.items ≡ take (length self.old.items - 1) self.old.items) }
    {
        if let Some(entry) = self.entries.last() {
            let entry = *entry;
            self.known.set(entry.known.variable.0, entry.before)?;
            let _ = self.entries.pop();
        }
        Ok(())
    }

    /// All but the first so many variables leave.
    ///
    /// # Errors
    ///
    /// Want of memory.
    pub fn truncate(&mut self, len: usize) -> Result<(), Memory>
        ensures { OnOk result (self.new.items ≡ take len self.old.items) }
    {
        'scope: while self.entries.len() > len {
            self.pop()?;
        }
        Ok(())
    }
}
