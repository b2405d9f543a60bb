//! What stands at numbers.

use crate::Memory;
use std::alloc::Global;
use std::marker::Model;

/// What stands at numbers: found without a search, in as much memory as the greatest of the numbers asks for.
#[derive(Drop)]
pub struct ByNumber<T> {
    entries: Vec<Option<T>>,
}

impl<T> Model for ByNumber<T> {
    ghost use Rattle.std.specs.Prelude.{List, Option};

    ghost Value = { List (Option T) };

    ghost view = { λ b. b.entries.items };
}

impl<T: Copy + Drop> ByNumber<T> {
    ghost use Rattle.std.specs.Prelude.{◌≡◌, ◌==◌, ℕ, [], if◌then◌else◌, OnOk, OnErr};
    ghost use Rattle.gib_base.specs.Entries.{entry_at};

    /// Nothing stands at any number.
    pub fn new(alloc: Global) -> ByNumber<T>
        ensures { result ≡ [] }
    {
        ByNumber {
            entries: Vec::new(alloc),
        }
    }

    /// What stands at a number.
    pub fn get(&self, number: u32) -> Option<T>
        ensures { result ≡ entry_at self.now number }
    {
        let place = number as usize;
        if place < self.entries.len() {
            self.entries[place]
        } else {
            None
        }
    }

    /// What is given stands at a number from now on, in place of what stood there.
    ///
    /// # Errors
    ///
    /// Want of memory; all stays as it was.
    pub fn set(&mut self, number: u32, entry: Option<T>) -> Result<(), Memory>
        ensures set { OnOk result ((other : ℕ) → entry_at self.new other ≡ (if number == other then entry else entry_at self.old other)) }
        ensures same { OnErr result (self.new ≡ self.old) }
    {
        let place = number as usize;
        if self.entries.len() <= place {
            self.entries.resize(place + 1, None)?;
        }
        self.entries[place] = entry;
        Ok(())
    }
}
