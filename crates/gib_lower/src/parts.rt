//! What moves several parts.

ghost use Rattle.std.specs.Prelude.{◌≡◌, ℕ, Bool, map, IfOk};
ghost use Rattle.gib_types.specs.Table.{at_fields};
ghost use Rattle.gib_code.specs.Instruction.{instruction_of};
ghost use Rattle.gib_core.specs.{declared.atom.Variable.{Variable as Var}, PartTypes.{types_in}, Tree.{variables_from}};
ghost use Rattle.gib_core.specs.Low.{operands as operands_spec, moves as moves_spec, takes_parts as takes_spec, begin_all};

use crate::atoms::operand;
use crate::counts::plus;
use gib_base::Memory;
use gib_code::Instr;
use gib_core::{Atom, PartTypes, Variable};
use std::alloc::{AllocError, Global};

/// A number of a part; want of memory where it is too large for one.
pub(crate) fn part_number(place: usize) -> Result<u8, Memory>
    ensures { IfOk result (λ number. number ≡ place) }
{
    let Ok(number) = u8::try_from(place) else {
        return Err(AllocError);
    };
    Ok(number)
}

/// The slots of the scalar variables among those of these types from one on, or of the packed ones.
#[tactic(auto, using(crate::proofs::PartMoves::slot_taken, crate::proofs::PartMoves::slot_passed, crate::proofs::PartMoves::slots_end, std::proofs::lemmas::Option::slice_get_within))]
pub(crate) fn slots_at(
    alloc: Global,
    scalars: bool,
    first: Variable,
    types: PartTypes,
) -> Result<Vec<u32>, Memory>
    ensures { IfOk result (λ v. v.items ≡ map (λ (x : Var). x.0) (at_fields scalars (types_in types) (variables_from first.0 (types_in types)))) }
{
    let mut slots = Vec::new(alloc);
    let mut slot = first.0;
    let mut place = 0;
    'types: while let Some(ty) = types.get(place) {
        if ty.is_scalar() == scalars {
            slots.push(slot)?;
        }
        slot = plus(slot, 1)?;
        place += 1;
    }
    Ok(slots)
}

/// The slots are set one after another.
pub(crate) fn moves(alloc: Global, slots: &[u32], scalars: &[Atom]) -> Result<Vec<Instr>, Memory>
    ensures { IfOk result (λ v. map instruction_of v.items ≡ moves_spec slots.now (operands_spec scalars.now)) }
{
    let mut instrs = Vec::new(alloc);
    let mut left = scalars;
    let mut slots_left = slots;
    'slots: while let [slot, slots_after @ ..] = slots_left {
        let [scalar, after @ ..] = left else {
            break 'slots;
        };
        instrs.push(Instr::Move {
            to: *slot,
            from: operand(*scalar),
        })?;
        slots_left = slots_after;
        left = after;
    }
    Ok(instrs)
}

/// The scalar parts that a call gave go to slots.
pub(crate) fn takes_parts(alloc: Global, slots: &[u32]) -> Result<Vec<Instr>, Memory>
    ensures { IfOk result (λ v. map instruction_of v.items ≡ takes_spec 0 slots.now) }
{
    let mut instrs = Vec::new(alloc);
    let mut i = 0;
    'slots: while i < slots.len() {
        instrs.push(Instr::Part {
            to: slots[i],
            part: part_number(i)?,
        })?;
        i += 1;
    }
    Ok(instrs)
}

/// Each of the slots gets a region.
pub(crate) fn begins(alloc: Global, mut slots: &[u32]) -> Result<Vec<Instr>, Memory>
    ensures { IfOk result (λ v. map instruction_of v.items ≡ begin_all slots.entry.now) }
{
    let mut instrs = Vec::new(alloc);
    'slots: while let [slot, after @ ..] = slots {
        instrs.push(Instr::Begin(*slot))?;
        slots = after;
    }
    Ok(instrs)
}
