//! The table of the declared types and their constructors.

ghost use Rattle.std.specs.Prelude.{◌≡◌, ◌↔◌, IsTrue, ◌≤◌, ◌<◌, ◌+◌, ℕ, length, map, count_by, nat_lt, slice_get, slice_index, Some, None, IfOk, MatchOption};
ghost use Rattle.gib_types.specs.Table.{row_of, table_of, con_at, fields_at, owner_at, name_at, first_at, count_at, numbers_from, constructors_of, type_made, is_scalar as scalar, same_type, IsTable, IsNamed};
ghost use Rattle.gib_types.specs.Index.{NamesDiffer, ArePlacesOf};

use gib_base::{ByNumber, Memory, Name};
use std::alloc::Global;
use std::marker::Model;

/// The number of a declared type, in the order of the text.
#[derive(Clone, Copy, PartialEq, Eq)]
pub struct TyId(pub u32);

/// The number of a constructor among all constructors of the program, in the order of the text: its tag.
#[derive(Clone, Copy, PartialEq, Eq)]
pub struct ConId(pub u32);

/// A type of the language: `Int`, `Bool` or a declared type.
#[derive(Clone, Copy, PartialEq, Eq)]
pub enum Ty {
    Whole,
    Truth,
    Tree(TyId),
}

impl Ty {
    /// Whether values of the type are scalars.
    pub fn is_scalar(self) -> bool
        ensures { result ≡ scalar self }
    {
        match self {
            Ty::Whole => true,
            Ty::Truth => true,
            Ty::Tree(_) => false,
        }
    }

    /// Whether it is the same type.
    pub fn is(self, other: Ty) -> bool
        ensures same { result ≡ same_type self other }
        ensures means { IsTrue result ↔ (self ≡ other) }
    {
        match self {
            Ty::Whole => match other {
                Ty::Whole => true,
                Ty::Truth => false,
                Ty::Tree(_) => false,
            },
            Ty::Truth => match other {
                Ty::Whole => false,
                Ty::Truth => true,
                Ty::Tree(_) => false,
            },
            Ty::Tree(ty) => match other {
                Ty::Whole => false,
                Ty::Truth => false,
                Ty::Tree(of) => ty.0 == of.0,
            },
        }
    }
}

/// A constructor: its name, the type that it belongs to, and the types of its fields in declared order.
#[derive(Drop)]
pub struct Constructor {
    pub name: Name,
    pub owner: TyId,
    pub fields: Vec<Ty>,
}

/// The declared types, and their constructors in the order of the text.
#[derive(Drop)]
pub struct TypeTable {
    types: Vec<Name>,
    constructors: Vec<Constructor>,
    /// Where the constructors of each type begin, and at the end where those of the last type end.
    firsts: Vec<u32>,
    /// The number of each constructor, at the number of its name.
    places: ByNumber<u32>,
}

impl Model for TypeTable {
    ghost use Rattle.gib_types.specs.Table.{Table, IsTable, table_of};

    ghost Value = { Table };

    ghost view = { λ t. table_of t.types.items t.constructors.items };

    ghost use Rattle.gib_types.specs.Index.{IsIndexed};

    ghost invariant = { λ t. IsIndexed (table_of t.types.items t.constructors.items) t.firsts.items t.places };
}

/// How many of the constructors belong to types before this one.
fn count_before(constructors: &[Constructor], ty: u32) -> u32
    requires { length constructors.now ≤ 200 }
    ensures { result ≡ count_by (λ c. nat_lt c.owner.0 ty) constructors.now }
{
    constructors.iter().filter(|c| c.owner.0 < ty).count() as u32
}

/// Where the constructors of each type begin, and where those of the last type end.
fn list_firsts(
    alloc: Global,
    constructors: &[Constructor],
    types: usize,
) -> Result<Vec<u32>, Memory>
    requires few { length constructors.now ≤ 200 }
    requires types { types ≤ 200 }
    ensures each { IfOk result (λ firsts. (ty : ℕ) → ty < types + 1 → slice_index firsts.items ty ≡ count_by (λ c. nat_lt c.owner.0 ty) constructors.now) }
    ensures long { IfOk result (λ firsts. length firsts.items ≡ types + 1) }
{
    let mut firsts = Vec::new(alloc);
    let mut ty = 0;
    'types: while ty <= types {
        firsts.push(count_before(constructors, ty as u32))?;
        ty += 1;
    }
    Ok(firsts)
}

/// The number of each constructor, at the number of its name.
fn list_places(alloc: Global, constructors: &[Constructor]) -> Result<ByNumber<u32>, Memory>
    requires few { length constructors.now ≤ 200 }
    requires differ { NamesDiffer constructors.now }
    ensures { IfOk result (λ places. ArePlacesOf constructors.now places) }
{
    let mut places = ByNumber::new(alloc);
    let mut con = 0;
    'constructors: while con < constructors.len() {
        places.set(constructors[con].name.0, Some(con as u32))?;
        con += 1;
    }
    Ok(places)
}

impl TypeTable {
    /// The table of these types and constructors.
    ///
    /// # Errors
    ///
    /// Want of memory.
    pub fn make(
        alloc: Global,
        types: Vec<Name>,
        constructors: Vec<Constructor>,
    ) -> Result<TypeTable, Memory>
        requires { IsTable (table_of types.items constructors.items) }
        ensures { IfOk result (λ table. table ≡ table_of types.items constructors.items) }
    {
        let firsts = list_firsts(alloc, &constructors, types.len())?;
        let places = list_places(alloc, &constructors)?;
        Ok(TypeTable {
            types,
            constructors,
            firsts,
            places,
        })
    }

    /// How many constructors there are.
    pub fn len(&self) -> u32
        ensures { result ≡ length self.now.rows }
    {
        self.constructors.len() as u32
    }

    /// The tag of a constructor.
    pub fn tag_of(&self, con: ConId) -> u8
        requires { con.0 < length self.now.rows }
        ensures { result ≡ con.0 }
    {
        let _all = &self.constructors;
        con.0 as u8
    }

    /// The constructor of a type that has a tag; None exactly where the type has no such constructor.
    pub fn con_of(&self, ty: TyId, tag: u8) -> Option<ConId>
        ensures { MatchOption result (con_at self.now ty.0 tag ≡ None) (λ con. con_at self.now ty.0 tag ≡ Some con.0) }
    {
        let place = tag as usize;
        if place < self.constructors.len() && self.constructors[place].owner.0 == ty.0 {
            Some(ConId(place as u32))
        } else {
            None
        }
    }

    /// The types of a constructor's fields, in declared order; of no constructor, none.
    pub fn fields(&self, con: ConId) -> &[Ty]
        ensures { result.now ≡ fields_at self.now con.0 }
    {
        let place = con.0 as usize;
        if place < self.constructors.len() {
            &self.constructors[place].fields
        } else {
            &[]
        }
    }

    /// The type that a constructor belongs to; of no constructor, the first one.
    pub fn owner(&self, con: ConId) -> TyId
        ensures { result.0 ≡ owner_at self.now con.0 }
    {
        let place = con.0 as usize;
        if place < self.constructors.len() {
            self.constructors[place].owner
        } else {
            TyId(0)
        }
    }

    /// The type that a constructor belongs to, as `owner` tells.
    pub fn type_of(&self, con: ConId) -> TyId
        ensures { result.0 ≡ owner_at self.now con.0 }
    {
        self.owner(con)
    }

    /// The type of a value of a constructor.
    pub fn type_made(&self, con: ConId) -> Ty
        ensures { result ≡ type_made self.now con }
    {
        Ty::Tree(self.owner(con))
    }

    /// The name of a constructor; of no constructor, the first name.
    pub fn name_of(&self, con: ConId) -> Name
        ensures { result.0 ≡ name_at self.now con.0 }
    {
        let place = con.0 as usize;
        if place < self.constructors.len() {
            self.constructors[place].name
        } else {
            Name(0)
        }
    }

    /// The name of a declared type.
    pub fn type_name(&self, ty: TyId) -> Name
        requires { ty.0 < length self.now.types }
        ensures { slice_get self.now.types ty.0 ≡ Some result.0 }
    {
        self.types[ty.0 as usize]
    }

    /// The first constructor of a type. All constructors of the type follow it, one after the other.
    pub fn first_of(&self, ty: TyId) -> ConId
        requires { ty.0 < length self.now.types }
        ensures { result.0 ≡ first_at self.now ty.0 }
    {
        ConId(self.firsts[ty.0 as usize])
    }

    /// How many constructors a type has.
    pub fn count_of(&self, ty: TyId) -> u32
        requires { ty.0 < length self.now.types }
        ensures { result ≡ count_at self.now ty.0 }
    {
        self.firsts[ty.0 as usize + 1] - self.firsts[ty.0 as usize]
    }

    /// The first constructor of a type, and how many it has; of no type, none.
    pub fn constructors_of(&self, ty: TyId) -> (u32, u32)
        ensures all { numbers_from result.0 result.1 ≡ constructors_of self.now ty.0 }
        ensures few { result.0 + result.1 ≤ 200 }
    {
        self.rules();
        if ty.0 < self.type_count() {
            (self.first_of(ty).0, self.count_of(ty))
        } else {
            (0, 0)
        }
    }

    /// The constructor of a name; None exactly where no constructor has it.
    pub fn con_named(&self, name: Name) -> Option<ConId>
        ensures { MatchOption result ((con : ℕ) → IsNamed self.now name.0 con → ⊥) (λ con. IsNamed self.now name.0 con.0) }
    {
        match self.places.get(name.0) {
            Some(con) => Some(ConId(con)),
            None => None,
        }
    }

    /// How many declared types there are.
    pub fn type_count(&self) -> u32
        ensures { result ≡ length self.now.types }
    {
        self.firsts.len() as u32 - 1
    }

    /// What each table keeps: the limits on constructors and fields, names that differ, and an order in
    /// which the constructors of a type stand together.
    pub fn rules(&self)
        ensures { IsTable self.now }
    {
        let _all = &self.constructors;
    }

    /// The constructors of a type are those from its first one on, as many as it has.
    pub fn stand_together(&self)
        ensures { (ty con : ℕ) → (con_at self.now ty con ≡ Some con) ↔ ((first_at self.now ty ≤ con) × (con < first_at self.now ty + count_at self.now ty)) }
    {
        let _all = &self.constructors;
    }

    /// A constructor is found by its tag among those of its type, and by no other tag.
    pub fn tags_invert(&self)
        ensures there { (con : ℕ) → con < length self.now.rows → con_at self.now (owner_at self.now con) con ≡ Some con }
        ensures back { (ty tag con : ℕ) → con_at self.now ty tag ≡ Some con → (tag ≡ con) × (con < length self.now.rows) × (owner_at self.now con ≡ ty) }
    {
        let _all = &self.constructors;
    }
}
