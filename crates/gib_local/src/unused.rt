//! Regions that are not used yet.

ghost use Rattle.std.specs.Prelude.{◌≡◌, ◌∷◌, [], reverse, IfOk, OnOk};
ghost use Rattle.gib_local.specs.Building.{is_in, without as without_one};

use gib_base::Memory;
use std::alloc::Global;
use std::marker::Model;

/// Whether a number is one of these.
fn is_listed(numbers: &[u32], number: u32) -> bool
    ensures { result ≡ is_in (reverse numbers.now) number }
{
    numbers.iter().rev().any(|known| *known == number)
}

/// All but a number.
fn without(alloc: Global, numbers: &[u32], number: u32) -> Result<Vec<u32>, Memory>
    ensures { IfOk result (λ left. left.items ≡ without_one number numbers.now) }
{
    let mut left = Vec::new(alloc);
    let mut rest = numbers;
    'numbers: while let [first, after @ ..] = rest {
        if *first != number {
            left.push(*first)?;
        }
        rest = after;
    }
    Ok(left)
}

/// The regions that are not used yet, by the numbers of their names. There are few, since a region is made where it is used.
#[derive(Drop)]
pub struct Unused {
    /// The newest last.
    regions: Vec<u32>,
}

impl Model for Unused {
    ghost use Rattle.std.specs.Prelude.{ℕ, List, reverse};

    ghost Value = { List ℕ };

    ghost view = { λ u. reverse u.regions.items };
}

impl Unused {
    /// No regions.
    pub fn new(alloc: Global) -> Unused
        ensures { result ≡ [] }
    {
        Unused {
            regions: Vec::new(alloc),
        }
    }

    /// Whether a region is not used yet.
    pub fn has(&self, region: u32) -> bool
        ensures { result ≡ is_in self.now region }
    {
        is_listed(&self.regions, region)
    }

    /// One more region.
    ///
    /// # Errors
    ///
    /// Want of memory.
    pub fn put(&mut self, region: u32) -> Result<(), Memory>
        ensures { OnOk result (self.new ≡ region ∷ self.old) }
    {
        self.regions.push(region)?;
        Ok(())
    }

    /// A region is used.
    ///
    /// # Errors
    ///
    /// Want of memory.
    pub fn take(&mut self, alloc: Global, region: u32) -> Result<(), Memory>
        ensures { OnOk result (self.new ≡ without_one region self.old) }
    {
        let left = without(alloc, &self.regions, region)?;
        self.regions = left;
        Ok(())
    }

    /// No region is left.
    pub fn clear(&mut self)
        ensures { self.new ≡ [] }
    {
        self.regions.clear();
    }
}
