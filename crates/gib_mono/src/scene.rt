//! What types are read and named in: the types that were met, what type variables stand for, the variables in scope,
//! and the names of copies.

ghost use Rattle.std.specs.Prelude.{◌≡◌, ◌<◌, ℕ, [], List, Some, None, IfSome, MatchOption};
ghost use Rattle.gib_types.specs.{Form.{Form}, Types.{form_at}};
ghost use Rattle.gib_syntax.specs.GenericTyping.{form_in};
ghost use Rattle.gib_mono.specs.Scenes.{scope_onto, AreInScopeBelow};

use crate::copy_names::CopyNames;
use crate::entries::{Entries, Entry};
use crate::reading::{Reading, read};
use gib_base::{Memory, Name};
use gib_syntax::{Ident, Word};
use gib_types::types::{TypeId, TypeNode, Types};
use std::alloc::{AllocError, Global};
use std::marker::Model;

/// A variable in scope, with its type.
#[derive(Clone, Copy)]
pub struct InScope {
    pub name: u32,
    pub ty: TypeId,
}

/// The types that were met, what the type variables of a declaration stand for, the variables in scope, the newest
/// one last, and the names of copies.
#[derive(Drop)]
pub struct Scene {
    types: Types,
    variables: Vec<Ident>,
    meant: Vec<TypeId>,
    scope: Vec<InScope>,
    entries: Entries,
}

/// The type of the newest variable of a name.
fn newest(scope: &[InScope], name: Name) -> Option<TypeId>
    ensures found { (fs : List Form) → MatchOption result (form_in (scope_onto fs scope.now []) name.0 ≡ None) (λ ty. form_in (scope_onto fs scope.now []) name.0 ≡ Some (form_at fs ty.0)) }
    ensures below { (n : ℕ) → AreInScopeBelow n scope.now → IfSome result (λ ty. ty.0 < n) }
{
    let mut at = scope.len();
    'from_last: while at > 0 {
        at -= 1;
        let variable = scope[at];
        if variable.name == name.0 {
            return Some(variable.ty);
        }
    }
    None
}

impl Model for Scene {
    ghost use Rattle.gib_mono.specs.Scenes.{Scenery, IsScenery};

    ghost Value = { Scenery };

    ghost view = { λ c. record { types = c.types; variables = c.variables.items; meant = c.meant.items; scope = c.scope.items; entries = c.entries } };

    ghost invariant = { λ c. IsScenery (record { types = c.types; variables = c.variables.items; meant = c.meant.items; scope = c.scope.items; entries = c.entries }) };
}

impl Scene {
    ghost use Rattle.std.specs.Prelude.{◌≡◌, ◌<◌, [], ◌∷◌, ◌++◌, length, take, IfOk, OnOk};
    ghost use Rattle.gib_types.specs.{Form.{form_or}, Types.{AreBelow, ArgumentsBelow, form_from, forms_at}};
    ghost use Rattle.gib_syntax.specs.{Forms.{assign}, GenericTyping.{form_in}};
    ghost use Rattle.gib_mono.specs.{Naming.{number_with}, Scenes.{Scenery, IsScenery, forms, meaning, scope_in, names_in, MakesIn, NamesIn, ReadsIn}};

    /// These types were met, and nothing is in scope or named yet.
    pub fn new(alloc: Global, types: Types) -> Scene
        ensures { result ≡ record { types = types; variables = []; meant = []; scope = []; entries = [] } }
    {
        Scene {
            types,
            variables: Vec::new(alloc),
            meant: Vec::new(alloc),
            scope: Vec::new(alloc),
            entries: Entries::new(alloc),
        }
    }

    /// The types that were met.
    pub fn types(&self) -> &Types
        ensures { result.now ≡ self.now.types }
    {
        &self.types
    }

    /// Type variables stand for these types from now on, and no variable is in scope.
    pub fn enter(&mut self, variables: Vec<Ident>, meant: Vec<TypeId>)
        requires { AreBelow (length self.old.types) meant.items }
        ensures { self.new ≡ record { types = self.old.types; variables = variables.items; meant = meant.items; scope = []; entries = self.old.entries } }
    {
        self.variables = variables;
        self.meant = meant;
        self.scope.clear();
    }

    /// The types that words spell here, and the uses in them.
    ///
    /// # Errors
    ///
    /// Want of memory.
    pub fn read(&mut self, alloc: Global, words: &[Word]) -> Result<Reading, Memory>
        ensures { IfOk result (λ reading. ReadsIn self.old self.new (meaning self.old) words.now reading) }
    {
        read(alloc, &mut self.types, &self.variables, &self.meant, words)
    }

    /// The types that words spell where these type variables stand for these types, and the uses in them.
    ///
    /// # Errors
    ///
    /// Want of memory.
    pub fn read_at(
        &mut self,
        alloc: Global,
        variables: &[Ident],
        meant: &[TypeId],
        words: &[Word],
    ) -> Result<Reading, Memory>
        requires { AreBelow (length self.old.types) meant.now }
        ensures { IfOk result (λ reading. ReadsIn self.old self.new (assign variables.now (forms_at (forms self.old) meant.now)) words.now reading) }
    {
        read(alloc, &mut self.types, variables, meant, words)
    }

    /// The number of a type.
    ///
    /// # Errors
    ///
    /// Want of memory.
    pub fn put(&mut self, node: TypeNode) -> Result<TypeId, Memory>
        requires { ArgumentsBelow (length self.old.types) node }
        ensures { IfOk result (λ id. MakesIn self.old self.new id (form_from (forms self.old) node)) }
    {
        self.types.put(node)
    }

    /// The type of a variable: that of the newest one of the name, `Int` where there is none.
    ///
    /// # Errors
    ///
    /// Want of memory.
    pub fn variable(&mut self, name: Name) -> Result<TypeId, Memory>
        ensures { IfOk result (λ id. MakesIn self.old self.new id (form_or (form_in (scope_in self.old) name.0))) }
    {
        match newest(&self.scope, name) {
            Some(ty) => Ok(ty),
            None => self.types.put(TypeNode::Whole),
        }
    }

    /// How many variables are in scope.
    pub fn scope_len(&self) -> usize
        ensures len { result ≡ length self.now.scope }
        ensures known { IsScenery self.now }
    {
        self.scope.len()
    }

    /// A variable comes into scope.
    ///
    /// # Errors
    ///
    /// Want of memory.
    pub fn bind(&mut self, name: Name, ty: TypeId) -> Result<(), Memory>
        requires { ty.0 < length self.old.types }
        ensures { OnOk result (self.new ≡ record self.old { scope = self.old.scope ++ record { name = name.0; ty = ty } ∷ [] }) }
    {
        self.scope.push(InScope { name: name.0, ty })?;
        Ok(())
    }

    /// Only so many variables, the oldest ones, stay in scope.
    pub fn leave(&mut self, len: usize)
        ensures { self.new ≡ record self.old { scope = take len self.old.scope } }
    {
        self.scope.truncate(len);
    }

    /// One more name of a copy, where it is none of these.
    ///
    /// # Errors
    ///
    /// Want of memory.
    pub fn put_entry(&mut self, name: Name, types: Vec<TypeId>) -> Result<(), Memory>
        requires { AreBelow (length self.old.types) types.items }
        ensures { OnOk result (NamesIn self.old self.new name.0 (forms_at (forms self.old) types.items)) }
    {
        let _met = self.types.len();
        self.entries.put(Entry {
            name: name.0,
            types,
        })
    }

    /// The names of copies.
    pub fn entries(&self) -> &[Entry]
        ensures value { result.now ≡ self.now.entries }
        ensures known { IsScenery self.now }
    {
        self.entries.as_slice()
    }

    /// The name of a copy, where the names of copies are numbered from a number on.
    ///
    /// # Errors
    ///
    /// There is no further number.
    pub fn name(&self, base: u32, name: Name, types: Vec<TypeId>) -> Result<Name, Memory>
        requires { AreBelow (length self.now.types) types.items }
        ensures { IfOk result (λ number. number.0 ≡ number_with base (names_in self.now) name.0 (forms_at (forms self.now) types.items)) }
    {
        let _met = self.types.len();
        if types.is_empty() {
            return Ok(name);
        }
        let entry = Entry {
            name: name.0,
            types,
        };
        let Ok(place) = u32::try_from(self.entries.place(&entry)) else {
            return Err(AllocError);
        };
        match base.checked_add(place) {
            Some(number) => Ok(Name(number)),
            None => Err(AllocError),
        }
    }

    /// The names of copies, alone.
    pub fn into_copies(self) -> CopyNames
        ensures { result ≡ record { types = self.types; entries = self.entries } }
    {
        CopyNames::new(self.types, self.entries)
    }
}
