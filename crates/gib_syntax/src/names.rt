//! The names of a binding.

ghost use Rattle.std.specs.Prelude.{◌≡◌};

use crate::tree::Ident;
use std::marker::Model;

/// How names are kept: one takes no memory of its own.
#[derive(Drop)]
enum Kept {
    One(Ident),
    Several(Vec<Ident>),
}

/// The names of a binding: one for what is bound, or several for its parts.
#[derive(Drop)]
pub struct Names(Kept);

impl Model for Names {
    ghost use Rattle.std.specs.Prelude.{List};
    ghost use Rattle.gib_syntax.specs.{declared.tree.Ident.{Ident as Item}, Naming.{kept_names}};

    ghost Value = { List Item };

    ghost view = { λ n. kept_names n.0 };
}

impl Names {
    ghost use Rattle.std.specs.Prelude.{[], ◌∷◌};

    /// One name.
    pub fn one(name: Ident) -> Names
        ensures { result ≡ name ∷ [] }
    {
        Names(Kept::One(name))
    }

    /// All of these names, in their order.
    pub fn several(names: Vec<Ident>) -> Names
        ensures { result ≡ names.items }
    {
        Names(Kept::Several(names))
    }

    /// All names, in their order.
    pub fn as_slice(&self) -> &[Ident]
        ensures { result.now ≡ self.now }
    {
        match &self.0 {
            Kept::One(name) => std::slice::from_ref(name),
            Kept::Several(names) => names,
        }
    }
}
