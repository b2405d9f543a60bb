//! What is due while a value text is read.

use gib_base::Memory;
use gib_types::{ConId, Ty, TyId};
use std::alloc::Global;
use std::marker::Model;

/// What may stand next in a value text.
#[derive(Clone, Copy)]
pub(crate) enum Wanted {
    /// A value of the type.
    Value(Ty),
    /// The name of a constructor of the type, one with fields.
    Name(TyId),
    /// The space before a field.
    Space,
    /// The parenthesis that ends a constructor.
    Close(ConId),
}

/// All that is due, the next one first.
#[derive(Drop)]
pub(crate) struct Todo {
    last_first: Vec<Wanted>,
}

impl Model for Todo {
    ghost use Rattle.std.specs.Prelude.{List, map, reverse};
    ghost use Rattle.gib_value.specs.Due.{Due, due_of};

    ghost Value = { List Due };

    ghost view = { λ t. reverse (map due_of t.last_first.items) };
}

impl Todo {
    ghost use Rattle.std.specs.Prelude.{◌≡◌, [], ◌∷◌, OnOk, MatchOption};
    ghost use Rattle.gib_value.specs.Due.{due_of};

    /// Nothing is due.
    pub(crate) fn new(alloc: Global) -> Todo
        ensures { result ≡ [] }
    {
        Todo {
            last_first: Vec::new(alloc),
        }
    }

    /// One more thing is due, before the others.
    pub(crate) fn put(&mut self, next: Wanted) -> Result<(), Memory>
        ensures { OnOk result (self.new ≡ due_of next ∷ self.old) }
    {
        self.last_first.push(next)?;
        Ok(())
    }

    /// Takes what is due next.
    pub(crate) fn pop(&mut self) -> Option<Wanted>
        ensures { MatchOption result (self.old ≡ []) (λ next. self.old ≡ due_of next ∷ self.new) }
    {
        self.last_first.pop()
    }
}
