//! The names in scope, each with what stands for it.

ghost use Rattle.std.specs.Prelude.{◌≡◌, ◌-◌, ℕ, [], ◌∷◌, length, drop, OnOk, OnErr};
ghost use Rattle.gib_check.specs.InScope.{newest};

use gib_base::{ByNumber, Memory, Name};
use std::alloc::Global;
use std::marker::Model;

/// A name with what stands for it, and what stood for the name before.
#[derive(Clone, Copy)]
pub struct Entry<T> {
    pub name: Name,
    pub item: T,
    pub hidden: Option<T>,
}

/// Names with what stands for them, the oldest first. What stands for the newest of a name is found without a search.
#[derive(Drop)]
pub struct Scope<T> {
    entries: Vec<Entry<T>>,
    /// What stands for the newest entry of each name, at the name's number.
    found: ByNumber<T>,
}

impl<T> Model for Scope<T> {
    ghost use Rattle.std.specs.Prelude.{ℕ, List};
    ghost use Rattle.gib_check.specs.InScope.{scope_of, IsScope};

    ghost Value = { List (ℕ × T) };

    ghost view = { λ s. scope_of s.entries.items };

    ghost invariant = { λ s. IsScope s.entries.items s.found };
}

impl<T: Copy + Drop> Scope<T> {
    /// No names.
    pub fn new(alloc: Global) -> Scope<T>
        ensures { result ≡ [] }
    {
        Scope {
            entries: Vec::new(alloc),
            found: ByNumber::new(alloc),
        }
    }

    /// How many names there are.
    pub fn len(&self) -> usize
        ensures { result ≡ length self.now }
    {
        self.entries.len()
    }

    /// What stands for the newest of a name.
    pub fn find(&self, name: Name) -> Option<T>
        ensures { result ≡ newest self.now name.0 }
    {
        self.found.get(name.0)
    }

    /// One more name.
    ///
    /// # Errors
    ///
    /// Want of memory; all stays as it was.
    pub fn push(&mut self, name: Name, item: T) -> Result<(), Memory>
        ensures put { OnOk result (self.new ≡ (name.0, item) ∷ self.old) }
        ensures same { OnErr result (self.new ≡ self.old) }
    {
        let hidden = self.found.get(name.0);
        let len = self.entries.len();
        self.entries.push(Entry { name, item, hidden })?;
        if let Err(fault) = self.found.set(name.0, Some(item)) {
            self.entries.truncate(len);
            return Err(fault);
        }
        Ok(())
    }

    /// Takes the newest name out.
    fn pop(&mut self) -> Result<(), Memory>
        ensures gone { OnOk result (self.new ≡ drop 1 self.old) }
        ensures same { OnErr result (self.new ≡ self.old) }
    {
        let len = self.entries.len();
        if len > 0 {
            let entry = self.entries[len - 1];
            self.found.set(entry.name.0, entry.hidden)?;
            self.entries.truncate(len - 1);
        }
        Ok(())
    }

    /// Keeps so many of the oldest names.
    ///
    /// # Errors
    ///
    /// Want of memory; some of the newest are gone then.
    pub fn truncate(&mut self, len: usize) -> Result<(), Memory>
        ensures rest { OnOk result (self.new ≡ drop (length self.old - len) self.old) }
        ensures some { (gone : ℕ) × (self.new ≡ drop gone self.old) }
    {
        'entries: while self.len() > len {
            self.pop()?;
        }
        Ok(())
    }
}
