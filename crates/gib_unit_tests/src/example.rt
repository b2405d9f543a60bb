//! A table of types over which values are put by hand.

ghost use Rattle.std.specs.Prelude.{◌≡◌, IfOk};
ghost use Rattle.gib_types.specs.Table.{row_of};
ghost use Rattle.gib_packed.specs.Example.{entry, table as example_table};

use gib_base::{Memory, Name};
use gib_types::{Constructor, Ty, TyId, TypeTable};
use std::alloc::Global;

pub const T: Ty = Ty::Tree(TyId(0));

fn constructor(alloc: Global, name: u32, fields: &[Ty]) -> Result<Constructor, Memory>
    ensures { IfOk result (λ c. row_of c ≡ entry name fields.now) }
{
    let fields = Vec::from_slice(alloc, fields)?;
    Ok(Constructor {
        name: Name(name),
        owner: TyId(0),
        fields,
    })
}

/// data T = Nil | Cons Int T | Node Bool T Int T ;
pub fn make_types(alloc: Global) -> Result<TypeTable, Memory>
    ensures { IfOk result (λ types. types ≡ example_table) }
{
    let nil = constructor(alloc, 1, &[])?;
    let cons = constructor(alloc, 2, &[Ty::Whole, T])?;
    let node = constructor(alloc, 3, &[Ty::Truth, T, Ty::Whole, T])?;
    let types = vec![in alloc; Name(0)]?;
    let constructors = vec![in alloc; nil, cons, node]?;
    let made = TypeTable::make(alloc, types, constructors)?;
    Ok(made)
}
