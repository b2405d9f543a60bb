//! Machines are made, where there is memory for them, and begin again in the memory that they have.

use crate::sample::trees;
use gib_base::Memory;
use gib_code::{AnswerType, Code, Kind, Side, Targets};
use gib_machine::Machine;
use gib_types::{Layouts, Ty};
use std::alloc::Global;
use std::test::*;

/// Code without instructions.
fn code(alloc: Global) -> Result<Code, Memory> {
    let types = trees(alloc)?;
    let layouts = Layouts::make(alloc, &types, &[])?;
    Ok(Code::new(layouts, Vec::new(alloc), Vec::new(alloc)))
}

/// Whether a machine of a side is made, and begins again.
fn restarts(alloc: Global, code: &Code) -> Result<bool, Memory> {
    let side = Side {
        start: 1,
        words: Vec::new(alloc),
        ends: Vec::new(alloc),
        depth: 100,
        level: 3,
        kind: Kind::Here,
        targets: Targets { first: 2, count: 1 },
        result: AnswerType::One(Ty::Whole),
    };
    let mut machine = Machine::of_side(alloc, code, &side)?;
    Ok(machine.restart(code, &side))
}

#[test]
fn machines_are_made(rt: HostRuntime) -> Result<(), Fail> {
    let code = code(rt.alloc())?;
    assert!(rt; Machine::make(rt.alloc(), &code, 0, &[], 100, 4).is_ok());
    assert!(rt; restarts(rt.alloc(), &code)?);
    Ok(())
}
