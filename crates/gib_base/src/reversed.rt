//! Lists that are made from the last item to the first.

use crate::Memory;
use std::alloc::Global;
use std::marker::Model;

/// Items, each put before all that were put earlier. They are seen in their order: the one that was put last is
/// the first.
#[derive(Drop)]
pub struct Reversed<T> {
    /// The last item first.
    items: Vec<T>,
}

impl<T> Model for Reversed<T> {
    ghost use Rattle.std.specs.Prelude.{List, reverse};

    ghost Value = { List T };

    ghost view = { λ r. reverse r.items.items };
}

impl<T: Drop> Reversed<T> {
    ghost use Rattle.std.specs.Prelude.{◌≡◌, [], ◌∷◌, OnOk, OnErr};

    /// No items.
    pub fn new(alloc: Global) -> Reversed<T>
        ensures { result ≡ [] }
    {
        Reversed {
            items: Vec::new(alloc),
        }
    }

    /// One more item, before the others.
    ///
    /// # Errors
    ///
    /// Want of memory; the items stay.
    pub fn put(&mut self, item: T) -> Result<(), Memory>
        ensures put { OnOk result (self.new ≡ item ∷ self.old) }
        ensures same { OnErr result (self.new ≡ self.old) }
    {
        self.items.push(item)?;
        Ok(())
    }

    /// The items in their order.
    pub fn into_vec(self) -> Vec<T>
        ensures { result.items ≡ self }
    {
        let mut items = self.items;
        items.reverse();
        items
    }
}
