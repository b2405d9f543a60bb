//! Labels as numbers of instructions.

ghost use Rattle.std.specs.Prelude.{◌≡◌, ◌<◌, ◌^◌, length, map, reverse, IfOk};
ghost use Rattle.gib_code.specs.Instruction.{instruction_of};
ghost use Rattle.gib_lower.specs.Lowering.{label_in, arm_in, numbered};

use crate::emitted::Emitted;
use gib_base::Memory;
use gib_code::{Arm, Instr};
use std::alloc::Global;

/// A label as the number of an instruction, in a program of so many.
pub(crate) fn label_in(count: u32, label: u32) -> u32
    ensures { result ≡ label_in count label }
{
    count.saturating_sub(label)
}

/// The labels of arms.
fn number_arms(count: u32, arms: &mut [Arm])
    ensures { arms.new ≡ map (arm_in count) arms.old }
{
    let mut i = 0;
    'arms: while i < arms.len() {
        arms[i].label = label_in(count, arms[i].label);
        i += 1;
    }
}

/// The labels of an instruction.
fn number(count: u32, instr: &mut Instr)
    ensures { instruction_of instr.new ≡ numbered count (instruction_of instr.old) }
{
    match instr {
        Instr::Jump(label) => *label = label_in(count, *label),
        Instr::Unless { label, .. } => *label = label_in(count, *label),
        Instr::Switch { arms, .. } => number_arms(count, arms),
        Instr::Fork(fork) => {
            fork.right = label_in(count, fork.right);
            fork.joint = label_in(count, fork.joint);
        }
        Instr::Move { .. }
        | Instr::Operate { .. }
        | Instr::Whole { .. }
        | Instr::Truth { .. }
        | Instr::First { .. }
        | Instr::Offset { .. }
        | Instr::Skip { .. }
        | Instr::Begin(_)
        | Instr::Done
        | Instr::Here(_)
        | Instr::Past { .. }
        | Instr::Fill { .. }
        | Instr::Point(_)
        | Instr::Call { .. }
        | Instr::CallScalar { .. }
        | Instr::Return
        | Instr::Give(_)
        | Instr::Join
        | Instr::Back
        | Instr::Got { .. }
        | Instr::OverEnd { .. }
        | Instr::LeafEnd { .. }
        | Instr::EndOf { .. }
        | Instr::Into { .. }
        | Instr::Out { .. }
        | Instr::GiveParts(_)
        | Instr::Part { .. } => {}
    }
}

/// The instructions in their order, with labels as numbers of instructions.
pub(crate) fn number_all(alloc: Global, emitted: Emitted) -> Result<Vec<Instr>, Memory>
    ensures { IfOk result (λ instrs. map instruction_of instrs.items ≡ map (numbered (length emitted)) emitted) }
{
    let count = emitted.label();
    let mut left = emitted.into_reversed();
    let mut instrs = Vec::new(alloc);
    'instrs: while let Some(mut instr) = left.pop() {
        number(count, &mut instr);
        instrs.push(instr)?;
    }
    Ok(instrs)
}
