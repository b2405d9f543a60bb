//! Layouts of a small table.

ghost use Rattle.std.specs.Prelude.{◌≡◌, IfOk, length};

use crate::sample::add;
use gib_base::{Memory, Name};
use gib_types::{ConId, Layout, Layouts, Ty, TyId, TypeTable};
use std::alloc::Global;
use std::test::*;

const SELF: Ty = Ty::Tree(TyId(0));

// data T = Leaf Int Bool | Node T Int T | Wide T T T T T T T T | Long Int Int Int Int Int Int Int Int ;
fn table(alloc: Global) -> Result<TypeTable, Memory>
    ensures { IfOk result (λ table. length table.rows ≡ 4) }
{
    let types = Vec::from_slice(alloc, &[Name(0)])?;
    let mut rows = Vec::new(alloc);
    add(alloc, &mut rows, 10, 0, &[Ty::Whole, Ty::Truth])?;
    add(alloc, &mut rows, 11, 0, &[SELF, Ty::Whole, SELF])?;
    add(
        alloc,
        &mut rows,
        12,
        0,
        &[SELF, SELF, SELF, SELF, SELF, SELF, SELF, SELF],
    )?;
    add(
        alloc,
        &mut rows,
        13,
        0,
        &[
            Ty::Whole,
            Ty::Whole,
            Ty::Whole,
            Ty::Whole,
            Ty::Whole,
            Ty::Whole,
            Ty::Whole,
            Ty::Whole,
        ],
    )?;
    TypeTable::make(alloc, types, rows)
}

// The head, its offsets and scalars, and the packed fields.
fn parts(layout: Layout) -> [u8; 4] {
    [layout.head, layout.offsets, layout.scalars, layout.packed]
}

/// The parts of all constructors, how many there are, and whether the first one and one that is none store offsets.
type Told = ([[u8; 4]; 4], u32, [bool; 2]);

// What layouts tell of the table.
fn told(layouts: &Layouts) -> Told
    requires { length layouts.now.table.rows ≡ 4 }
{
    let parts = [
        parts(layouts.layout(ConId(0))),
        parts(layouts.layout(ConId(1))),
        parts(layouts.layout(ConId(2))),
        parts(layouts.layout(ConId(3))),
    ];
    let stores = [layouts.stores(ConId(0)), layouts.stores(ConId(4))];
    (parts, layouts.types().len(), stores)
}

// The same, where these constructors have offsets.
fn told_with(alloc: Global, offsets: &[ConId]) -> Result<Told, Memory> {
    let types = table(alloc)?;
    let layouts = Layouts::make(alloc, &types, offsets)?;
    Ok(told(&layouts))
}

const PLAIN: Told = (
    [[10, 0, 9, 0], [9, 0, 8, 2], [1, 0, 0, 8], [65, 0, 64, 0]],
    4,
    [false, false],
);

const OFFSETS: Told = (
    [[10, 0, 9, 0], [17, 8, 8, 2], [57, 56, 0, 8], [65, 0, 64, 0]],
    4,
    [true, false],
);

#[test]
fn layouts_give_the_parts_of_heads(rt: HostRuntime) -> Result<(), Fail> {
    assert!(rt; told_with(rt.alloc(), &[])? == PLAIN);
    assert!(rt; told_with(rt.alloc(), &[ConId(0), ConId(2), ConId(1)])? == OFFSETS);
    Ok(())
}
