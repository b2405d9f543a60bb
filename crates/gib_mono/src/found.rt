//! The copies that were asked for, each once.

ghost use Rattle.std.specs.Prelude.{◌≡◌, ◌<◌, ◌≤◌, List, [], ◌∷◌, false, length, slice_get, Some, IfOk};
ghost use Rattle.gib_mono.specs.{declared.found.CopyKey.{CopyKey as Kind}, Walk.{Copy, add_new, is_found, constructors_in}};
ghost use Rattle.gib_mono.specs.Found.{AreDeclarations, KeyBelow, copy_from, IsFound, Adds, IsNewKey, types_by, functions_by, has_room, AreAlike};
ghost use Rattle.gib_syntax.specs.{Forms.{Form}, GenericTree.{GenericGlobals}};
ghost use Rattle.gib_types.specs.Types.{AreOnce};

use gib_base::{Memory, Span};
use gib_types::types::TypeId;
use indexmap::IndexSet;
use std::alloc::Global;
use std::marker::Model;

/// Why a program has no copy.
#[derive(Clone, Copy, PartialEq, Eq)]
pub enum MonoFault {
    Memory,
    /// A use is over a limit.
    Limit(Span),
}

/// A declaration, by its place among those of its kind, with types for its type variables.
#[derive(Drop, PartialEq, Eq, Hash)]
pub enum CopyKey {
    Data(u32, Vec<TypeId>),
    Function(u32, Vec<TypeId>),
}

/// Copies, each once, and how many constructors and functions they are together.
#[derive(Drop)]
pub struct Found {
    keys: IndexSet<CopyKey>,
    constructors: u32,
    functions: u32,
}

impl Model for Found {
    ghost use Rattle.std.specs.Prelude.{◌≤◌};
    ghost use Rattle.gib_mono.specs.Found.{Kept};

    ghost Value = { Kept };

    ghost view = { λ f. record { keys = f.keys.keys; constructors = f.constructors; functions = f.functions } };

    ghost invariant = { λ f. (f.constructors ≤ 200) × (f.functions ≤ 1000) };
}

impl Found {
    /// No copies.
    pub fn new(alloc: Global) -> Found
        ensures { result ≡ record { keys = []; constructors = 0; functions = 0 } }
    {
        Found {
            keys: IndexSet::new(alloc),
            constructors: 0,
            functions: 0,
        }
    }

    /// A copy is asked for: it is there, or goes last, or is over a limit.
    pub fn add(&mut self, key: CopyKey, constructors: u32, span: Span) -> Result<(), MonoFault>
        requires { constructors ≤ 200 }
        ensures { (g : GenericGlobals) (fs : List Form) (found : List Copy) (c : Copy) → AreDeclarations g → AreOnce fs → KeyBelow (length fs) key → copy_from g fs key ≡ Some c
            → constructors_in (c ∷ []) ≡ constructors → IsFound g fs self.old found → Adds g fs result self.new (add_new found c span (is_found found c)) }
    {
        match self.keys.get_index_of(&key) {
            Some(_) => Ok(()),
            None => self.push(key, constructors, span),
        }
    }

    /// How many copies there are.
    pub fn len(&self) -> usize
        ensures len { result ≡ length self.now.keys }
        ensures few { (self.now.constructors ≤ 200) × (self.now.functions ≤ 1000) }
    {
        self.keys.len()
    }

    /// The copies, in their order.
    pub fn keys(&self) -> &[CopyKey]
        ensures { result.now ≡ self.now.keys }
    {
        self.keys.as_slice()
    }

    /// The copy of a place, as one of its own.
    ///
    /// # Errors
    ///
    /// Want of memory.
    pub fn copy_key(&self, alloc: Global, place: usize) -> Result<CopyKey, Memory>
        requires { place < length self.now.keys }
        ensures { IfOk result (λ key. (kept : Kind) × (slice_get self.now.keys place ≡ Some kept) × AreAlike kept key) }
    {
        match &self.keys.as_slice()[place] {
            CopyKey::Data(declared, types) => {
                let types = Vec::from_slice(alloc, types)?;
                Ok(CopyKey::Data(*declared, types))
            }
            CopyKey::Function(declared, types) => {
                let types = Vec::from_slice(alloc, types)?;
                Ok(CopyKey::Function(*declared, types))
            }
        }
    }

    /// A new copy goes last, or is over a limit.
    fn push(&mut self, key: CopyKey, constructors: u32, span: Span) -> Result<(), MonoFault>
        requires few { constructors ≤ 200 }
        requires new { IsNewKey self.old.keys key }
        ensures { (g : GenericGlobals) (fs : List Form) (found : List Copy) (c : Copy) → KeyBelow (length fs) key → copy_from g fs key ≡ Some c
            → constructors_in (c ∷ []) ≡ constructors → IsFound g fs self.old found → Adds g fs result self.new (add_new found c span false) }
    {
        let of_type = types_by(&key, constructors);
        let of_function = functions_by(&key);
        if !self.has_room(of_type, of_function) {
            return Err(MonoFault::Limit(span));
        }
        let Ok(_) = self.keys.insert_full(key) else {
            return Err(MonoFault::Memory);
        };
        self.constructors += of_type;
        self.functions += of_function;
        Ok(())
    }

    /// Whether there is room for so many more constructors and functions.
    fn has_room(&self, constructors: u32, functions: u32) -> bool
        requires few { (constructors ≤ 200) × (functions ≤ 1) }
        ensures { result ≡ has_room self.now constructors functions }
    {
        self.constructors + constructors < 201 && self.functions + functions < 1001
    }
}

/// How many constructors a copy adds, where its type has so many.
fn types_by(key: &CopyKey, constructors: u32) -> u32
    requires { constructors ≤ 200 }
    ensures count { result ≡ types_by key.now constructors }
    ensures few { result ≤ 200 }
{
    match key {
        CopyKey::Data(_, _) => constructors,
        CopyKey::Function(_, _) => 0,
    }
}

/// How many functions a copy adds.
fn functions_by(key: &CopyKey) -> u32
    ensures count { result ≡ functions_by key.now }
    ensures few { result ≤ 1 }
{
    match key {
        CopyKey::Data(_, _) => 0,
        CopyKey::Function(_, _) => 1,
    }
}
