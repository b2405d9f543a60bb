//! A copy of a table of types.

ghost use Rattle.std.specs.Prelude.{◌≡◌, ◌<◌, map, length, slice_get, Some, IfOk};
ghost use Rattle.gib_types.specs.Table.{row_of};

use crate::{ConId, Constructor, TyId, TypeTable};
use gib_base::{Memory, Name};
use std::alloc::Global;

/// The names of the types.
fn copy_names(alloc: Global, types: &TypeTable) -> Result<Vec<Name>, Memory>
    ensures { IfOk result (λ names. map (λ n. n.0) names.items ≡ types.now.types) }
{
    let mut names = Vec::new(alloc);
    let count = types.type_count();
    let mut i = 0;
    'types: while i < count {
        names.push(types.type_name(TyId(i)))?;
        i += 1;
    }
    Ok(names)
}

/// A constructor of a table.
fn copy_constructor(alloc: Global, types: &TypeTable, con: ConId) -> Result<Constructor, Memory>
    requires { con.0 < length types.now.rows }
    ensures { IfOk result (λ copy. slice_get types.now.rows con.0 ≡ Some (row_of copy)) }
{
    let fields = Vec::from_slice(alloc, types.fields(con))?;
    Ok(Constructor {
        name: types.name_of(con),
        owner: types.owner(con),
        fields,
    })
}

/// The constructors.
fn copy_constructors(alloc: Global, types: &TypeTable) -> Result<Vec<Constructor>, Memory>
    ensures { IfOk result (λ copies. map row_of copies.items ≡ types.now.rows) }
{
    let mut copies = Vec::new(alloc);
    let count = types.len();
    let mut i = 0;
    'constructors: while i < count {
        let copy = copy_constructor(alloc, types, ConId(i))?;
        copies.push(copy)?;
        i += 1;
    }
    Ok(copies)
}

impl TypeTable {
    /// A table of its own that says the same.
    ///
    /// # Errors
    ///
    /// Want of memory.
    pub fn copy(&self, alloc: Global) -> Result<TypeTable, Memory>
        ensures { IfOk result (λ copy. copy ≡ self.now) }
    {
        self.rules();
        let names = copy_names(alloc, self)?;
        let constructors = copy_constructors(alloc, self)?;
        TypeTable::make(alloc, names, constructors)
    }
}
