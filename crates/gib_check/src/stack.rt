//! Stacks.

use gib_base::Memory;
use std::alloc::Global;
use std::marker::Model;

/// Items, of which the one that was put last is the first to be taken. They are seen in that order.
#[derive(Drop)]
pub struct Stack<T> {
    /// The top last.
    items: Vec<T>,
}

impl<T> Model for Stack<T> {
    ghost use Rattle.std.specs.Prelude.{List, reverse};

    ghost Value = { List T };

    ghost view = { λ s. reverse s.items.items };
}

impl<T: Drop> Stack<T> {
    ghost use Rattle.std.specs.Prelude.{◌≡◌, [], ◌∷◌, take, drop, IfOk, OnOk, MatchOption};

    /// No items.
    pub fn new(alloc: Global) -> Stack<T>
        ensures { result ≡ [] }
    {
        Stack {
            items: Vec::new(alloc),
        }
    }

    /// One more item, on top.
    ///
    /// # Errors
    ///
    /// Want of memory.
    pub fn put(&mut self, item: T) -> Result<(), Memory>
        ensures { OnOk result (self.new ≡ item ∷ self.old) }
    {
        self.items.push(item)?;
        Ok(())
    }

    /// The item on top.
    pub fn pop(&mut self) -> Option<T>
        ensures { MatchOption result ((self.old ≡ []) × (self.new ≡ [])) (λ item. self.old ≡ item ∷ self.new) }
    {
        self.items.pop()
    }

    /// So many items from the top, in their order; all where there are fewer.
    ///
    /// # Errors
    ///
    /// Want of memory; some may be gone then.
    pub fn take(&mut self, alloc: Global, count: u32) -> Result<Vec<T>, Memory>
        ensures taken { IfOk result (λ taken. taken.items ≡ take count self.old) }
        ensures left { OnOk result (self.new ≡ drop count self.old) }
    {
        let mut taken = Vec::new(alloc);
        let mut missing = count;
        'items: while missing > 0 {
            let Some(item) = self.pop() else {
                return Ok(taken);
            };
            taken.push(item)?;
            missing -= 1;
        }
        Ok(taken)
    }

    /// So many items from the top are taken off; all where there are fewer.
    pub fn skip(&mut self, count: u32)
        ensures { self.new ≡ drop count self.old }
    {
        let mut missing = count;
        'items: while missing > 0 {
            if self.pop().is_none() {
                return;
            }
            missing -= 1;
        }
    }

    /// The items, from the top on.
    pub fn into_vec(self) -> Vec<T>
        ensures { result.items ≡ self }
    {
        let mut items = self.items;
        items.reverse();
        items
    }
}
