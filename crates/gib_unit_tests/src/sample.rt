//! Tables of types on which tests stand.

ghost use Rattle.std.specs.Prelude.{◌≡◌, ◌++◌, ◌∷◌, [], map, IfOk, OnOk};
ghost use Rattle.gib_types.specs.Table.{row_of};
ghost use Rattle.gib_unit_tests.specs.Samples.{entry, tree_table, mixed_table};

use gib_base::{Memory, Name};
use gib_types::{Constructor, Ty, TyId, TypeTable};
use std::alloc::Global;

const TREE: Ty = Ty::Tree(TyId(0));

const LIST: Ty = Ty::Tree(TyId(3));

/// One more constructor.
///
/// # Errors
///
/// Want of memory.
pub(crate) fn add(
    alloc: Global,
    rows: &mut Vec<Constructor>,
    name: u32,
    owner: u32,
    fields: &[Ty],
) -> Result<(), Memory>
    ensures { OnOk result (map row_of rows.new.items ≡ map row_of rows.old.items ++ entry name owner fields.now ∷ []) }
{
    let fields = Vec::from_slice(alloc, fields)?;
    rows.push(Constructor {
        name: Name(name),
        owner: TyId(owner),
        fields,
    })?;
    Ok(())
}

/// `data Tree = Leaf Int | Node Tree Tree ;` with the names 0, 1 and 2.
///
/// # Errors
///
/// Want of memory.
pub(crate) fn trees(alloc: Global) -> Result<TypeTable, Memory>
    ensures { IfOk result (λ table. table ≡ tree_table) }
{
    let types = Vec::from_slice(alloc, &[Name(0)])?;
    let mut rows = Vec::new(alloc);
    add(alloc, &mut rows, 1, 0, &[Ty::Whole])?;
    add(alloc, &mut rows, 2, 0, &[TREE, TREE])?;
    TypeTable::make(alloc, types, rows)
}

/// `data Tree = Leaf Int | Node Tree Tree ; data P = P Tree Int ; data B = B Bool ;
/// data List = Nil | Cons Int List ;` with the names 0 to 3 of types and 10 to 15 of constructors.
///
/// # Errors
///
/// Want of memory.
pub(crate) fn mixed(alloc: Global) -> Result<TypeTable, Memory>
    ensures { IfOk result (λ table. table ≡ mixed_table) }
{
    let types = Vec::from_slice(alloc, &[Name(0), Name(1), Name(2), Name(3)])?;
    let mut rows = Vec::new(alloc);
    add(alloc, &mut rows, 10, 0, &[Ty::Whole])?;
    add(alloc, &mut rows, 11, 0, &[TREE, TREE])?;
    add(alloc, &mut rows, 12, 1, &[TREE, Ty::Whole])?;
    add(alloc, &mut rows, 13, 2, &[Ty::Truth])?;
    add(alloc, &mut rows, 14, 3, &[])?;
    add(alloc, &mut rows, 15, 3, &[Ty::Whole, LIST])?;
    TypeTable::make(alloc, types, rows)
}
