//! What types are read in: the types that were met, and what type variables stand for.

use crate::reading::{Reading, read};
use gib_base::Memory;
use gib_syntax::{Ident, Word};
use gib_types::types::{TypeId, Types};
use std::alloc::Global;
use std::marker::Model;

/// The types that were met, and what the type variables of a declaration stand for.
#[derive(Drop)]
pub struct Context {
    types: Types,
    variables: Vec<Ident>,
    meant: Vec<TypeId>,
}

impl Model for Context {
    ghost use Rattle.gib_mono.specs.Contexts.{Known, IsKnown};

    ghost Value = { Known };

    ghost view = { λ c. record { types = c.types; variables = c.variables.items; meant = c.meant.items } };

    ghost invariant = { λ c. IsKnown (record { types = c.types; variables = c.variables.items; meant = c.meant.items }) };
}

impl Context {
    ghost use Rattle.std.specs.Prelude.{◌≡◌, [], length, IfOk};
    ghost use Rattle.gib_types.specs.Types.{AreBelow};
    ghost use Rattle.gib_mono.specs.Contexts.{meaning, ReadsIn};

    /// Nothing was met yet.
    pub fn new(alloc: Global) -> Context
        ensures { result ≡ record { types = []; variables = []; meant = [] } }
    {
        Context {
            types: Types::new(alloc),
            variables: Vec::new(alloc),
            meant: Vec::new(alloc),
        }
    }

    /// The types that were met.
    pub fn types(&self) -> &Types
        ensures { result.now ≡ self.now.types }
    {
        &self.types
    }

    /// The types that were met, alone.
    pub fn into_types(self) -> Types
        ensures { result ≡ self.types }
    {
        self.types
    }

    /// Type variables stand for these types from now on.
    pub fn enter(&mut self, variables: Vec<Ident>, meant: Vec<TypeId>)
        requires { AreBelow (length self.old.types) meant.items }
        ensures { self.new ≡ record { types = self.old.types; variables = variables.items; meant = meant.items } }
    {
        self.variables = variables;
        self.meant = meant;
    }

    /// The types that words spell here, and the uses in them.
    ///
    /// # Errors
    ///
    /// Want of memory.
    pub fn read(&mut self, alloc: Global, words: &[Word]) -> Result<Reading, Memory>
        ensures { IfOk result (λ reading. ReadsIn self.old self.new (meaning self.old) words.now reading) }
    {
        read(alloc, &mut self.types, &self.variables, &self.meant, words)
    }
}
