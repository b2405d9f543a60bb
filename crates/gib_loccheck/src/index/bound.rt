//! The variables that were bound in a function, and those that a `case` was on.

use crate::index::entry::push_entry;
use gib_base::{ByNumber, Memory};
use gib_core::{Bound, Variable};
use gib_types::Ty;
use std::alloc::Global;
use std::marker::Model;

/// The variables that were bound, whose types are found by their numbers.
#[derive(Drop)]
pub struct BoundVariables {
    items: Vec<Bound>,
    types: ByNumber<Ty>,
}

impl Model for BoundVariables {
    ghost use Rattle.std.specs.Prelude.{reverse};
    ghost use Rattle.gib_core.specs.declared.scope.Bound.{Bound as Item};
    ghost use Rattle.gib_loccheck.specs.Found.{Listed, AreTypes};

    ghost Value = { Listed Item };

    ghost view = { λ b. record { items = b.items.items } };

    ghost invariant = { λ b. AreTypes (reverse b.items.items) b.types };
}

impl BoundVariables {
    ghost use Rattle.std.specs.Prelude.{◌≡◌, ◌++◌, ◌∷◌, [], reverse, OnOk};
    ghost use Rattle.gib_core.specs.Rules.{is_bound as bound_in, type_bound as type_in};

    /// No variable.
    pub fn new(alloc: Global) -> BoundVariables
        ensures { result.items ≡ [] }
    {
        BoundVariables {
            items: Vec::new(alloc),
            types: ByNumber::new(alloc),
        }
    }

    /// One more variable.
    ///
    /// # Errors
    ///
    /// Want of memory; all stays as it was.
    #[tactic(auto, using(crate::proofs::FoundLemmas::types_put))]
    pub fn push(&mut self, bound: Bound) -> Result<(), Memory>
        ensures { OnOk result (self.new.items ≡ self.old.items ++ bound ∷ []) }
    {
        let number = bound.variable.0;
        push_entry(&mut self.items, bound, &mut self.types, number, bound.ty)
    }

    /// The type that a variable was bound with: the newest counts.
    pub fn type_of(&self, variable: Variable) -> Option<Ty>
        ensures { result ≡ type_in (reverse self.now.items) variable }
    {
        self.types.get(variable.0)
    }

    /// Whether a variable was bound.
    #[tactic(auto, using(crate::proofs::FoundLemmas::bound_found))]
    pub fn has(&self, variable: Variable) -> bool
        ensures { result ≡ bound_in (reverse self.now.items) variable }
    {
        self.types.get(variable.0).is_some()
    }
}

/// Variables, found by their numbers.
#[derive(Drop)]
pub struct MarkedVariables {
    items: Vec<Variable>,
    marks: ByNumber<bool>,
}

impl Model for MarkedVariables {
    ghost use Rattle.std.specs.Prelude.{reverse};
    ghost use Rattle.gib_core.specs.declared.atom.Variable.{Variable as Item};
    ghost use Rattle.gib_loccheck.specs.Found.{Listed, AreMarked};

    ghost Value = { Listed Item };

    ghost view = { λ m. record { items = m.items.items } };

    ghost invariant = { λ m. AreMarked (reverse m.items.items) m.marks };
}

impl MarkedVariables {
    ghost use Rattle.std.specs.Prelude.{◌≡◌, ◌++◌, ◌∷◌, [], reverse, OnOk};
    ghost use Rattle.gib_core.specs.Rules.{is_among};

    /// No variable.
    pub fn new(alloc: Global) -> MarkedVariables
        ensures { result.items ≡ [] }
    {
        MarkedVariables {
            items: Vec::new(alloc),
            marks: ByNumber::new(alloc),
        }
    }

    /// One more variable.
    ///
    /// # Errors
    ///
    /// Want of memory; all stays as it was.
    #[tactic(auto, using(crate::proofs::FoundLemmas::marks_put))]
    pub fn push(&mut self, variable: Variable) -> Result<(), Memory>
        ensures { OnOk result (self.new.items ≡ self.old.items ++ variable ∷ []) }
    {
        push_entry(&mut self.items, variable, &mut self.marks, variable.0, true)
    }

    /// Whether a variable is one of these.
    pub fn has(&self, variable: Variable) -> bool
        ensures { result ≡ is_among (reverse self.now.items) variable }
    {
        self.marks.get(variable.0).is_some()
    }
}
