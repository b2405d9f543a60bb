//! Code that is put together by hand, as it is listed.

use crate::sample::trees;
use gib_base::{Memory, Names, Texts};
use gib_code::*;
use gib_types::{Layouts, Operator, Ty};
use std::alloc::Global;
use std::test::*;

/// Layouts of trees.
fn layouts(alloc: Global) -> Result<Layouts, Memory> {
    let types = trees(alloc)?;
    Layouts::make(alloc, &types, &[])
}

/// Main alone, in so many slots.
fn entries(alloc: Global, slots: u32) -> Result<Vec<Entry>, Memory> {
    let main = Entry {
        name: None,
        start: 0,
        slots,
        result: AnswerType::One(Ty::Whole),
    };
    Vec::from_slice(alloc, &[main])
}

/// Whether code is listed as this text.
fn is_listed(alloc: Global, code: &Code, want: &[u8]) -> Result<bool, Memory> {
    let texts = Texts::new(alloc, Names::make(alloc)?);
    let text = listing(alloc, code, &texts)?;
    Ok(text.as_slice() == want)
}

// %to = %from op right
fn divides(operator: Operator, to: u32, from: u32, right: Operand) -> Instr {
    Instr::Operate {
        to,
        operator,
        left: Operand::Slot(from),
        right,
    }
}

// main (n : Int) : Int = ((n quot 3) rem n) ;
fn division(alloc: Global) -> Result<Code, Memory> {
    let layouts = layouts(alloc)?;
    let functions = entries(alloc, 3)?;
    let instructions = vec![in alloc;
        divides(Operator::Quotient, 1, 0, Operand::Number(3)),
        divides(Operator::Remainder, 2, 1, Operand::Slot(0)),
        Instr::Give(Operand::Slot(2)),
    ]?;
    Ok(Code::new(layouts, instructions, functions))
}

// Each instruction on ends, one after another.
fn ends(alloc: Global) -> Result<Code, Memory> {
    let layouts = layouts(alloc)?;
    let functions = entries(alloc, 4)?;
    let instructions = vec![in alloc;
        Instr::Got {
            to: 2,
            parameter: 0
        },
        Instr::OverEnd { to: 0, from: 3 },
        Instr::LeafEnd { to: 0, size: 9 },
        Instr::EndOf { to: 3, from: 2 },
    ]?;
    Ok(Code::new(layouts, instructions, functions))
}

// Each instruction on parts, and a fork whose right side binds three.
fn parts(alloc: Global) -> Result<Code, Memory> {
    let layouts = layouts(alloc)?;
    let functions = entries(alloc, 11)?;
    let scalars = Vec::from_slice(alloc, &[Operand::Slot(1), Operand::Number(7)])?;
    let instructions = vec![in alloc;
        Instr::Into { part: 0, count: 2 },
        Instr::Out { part: 0, count: 2 },
        Instr::GiveParts(scalars),
        Instr::Part { to: 2, part: 1 },
        Instr::Fork(Fork {
            right: 5,
            joint: 9,
            kind: Kind::Several,
            targets: Targets { first: 8, count: 3 },
            result: AnswerType::Parts,
        }),
    ]?;
    Ok(Code::new(layouts, instructions, functions))
}

const DIVISION: &[u8] = b"main 3\n0 quot %1 %0 3\n1 rem %2 %1 %0\n2 give %2\n";

const ENDS: &[u8] = b"main 4\n0 got %2 0\n1 over %0 %3\n2 leafend %0 9\n3 end %3 %2\n";

const PARTS: &[u8] =
    b"main 11\n0 into 0\n1 out\n2 gives %1 7\n3 part %2 1\n4 fork 5 9 several %8 %9 %10\n";

#[test]
fn divisions_and_ends_are_listed_by_their_words(rt: HostRuntime) -> Result<(), Fail> {
    let code = division(rt.alloc())?;
    assert!(rt; is_listed(rt.alloc(), &code, DIVISION)?);
    let code = ends(rt.alloc())?;
    assert!(rt; is_listed(rt.alloc(), &code, ENDS)?);
    Ok(())
}

#[test]
fn parts_are_listed_by_their_words(rt: HostRuntime) -> Result<(), Fail> {
    let code = parts(rt.alloc())?;
    assert!(rt; is_listed(rt.alloc(), &code, PARTS)?);
    Ok(())
}
