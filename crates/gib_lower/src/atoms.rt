//! Atoms as operands, and other things of the core as those of the code.

ghost use Rattle.std.specs.Prelude.{◌≡◌, ℕ, map, IfOk};
ghost use Rattle.gib_core.specs.Low.{operand as operand_spec, operands as operands_spec, slot_of as slot_spec, slots_of as slots_spec, kind_of as kind_spec, answer_type as answer_spec, side_kind as side_kind_spec, side_slots, side_type as side_type_spec};
ghost use Rattle.gib_core.specs.{Arena.{side_from}, Parts.{results_of}, Tree.{Term}};
ghost use Rattle.gib_code.specs.Instruction.{target_slots};

use gib_base::Memory;
use gib_code::{AnswerType, Kind as SideKind, Operand, Targets};
use gib_core::{Atom, BoundSide, CoreResult, Kind};
use std::alloc::Global;

/// An atom as an operand.
pub(crate) fn operand(atom: Atom) -> Operand
    ensures { result ≡ operand_spec atom }
{
    match atom {
        Atom::Variable(variable) => Operand::Slot(variable.0),
        Atom::Whole(value) => Operand::Number(value.cast_unsigned()),
        Atom::Truth(value) => Operand::Number(if value { 1 } else { 0 }),
    }
}

/// Atoms as operands.
pub(crate) fn operands(alloc: Global, atoms: &[Atom]) -> Result<Vec<Operand>, Memory>
    ensures { IfOk result (λ made. made.items ≡ operands_spec atoms.now) }
{
    let mut made = Vec::new(alloc);
    let mut left = atoms;
    'atoms: while let [atom, after @ ..] = left {
        made.push(operand(*atom))?;
        left = after;
    }
    Ok(made)
}

/// The slot of a packed value. The build rules allow no literal here.
pub(crate) fn slot_of(atom: Atom) -> u32
    ensures { result ≡ slot_spec atom }
{
    match atom {
        Atom::Variable(variable) => variable.0,
        Atom::Whole(_) => 0,
        Atom::Truth(_) => 0,
    }
}

/// The slots of packed values.
pub(crate) fn slots_of(alloc: Global, atoms: &[Atom]) -> Result<Vec<u32>, Memory>
    ensures { IfOk result (λ made. made.items ≡ slots_spec atoms.now) }
{
    let mut made = Vec::new(alloc);
    let mut left = atoms;
    'atoms: while let [atom, after @ ..] = left {
        made.push(slot_of(*atom))?;
        left = after;
    }
    Ok(made)
}

/// Where the value of a side is put.
pub(crate) fn kind_of(kind: Kind) -> SideKind
    ensures { result ≡ kind_spec kind }
{
    match kind {
        Kind::Here => SideKind::Here,
        Kind::Region => SideKind::Region,
        Kind::Scalar => SideKind::Scalar,
    }
}

/// Where the value of a right side is put.
pub(crate) fn side_kind(side: BoundSide) -> SideKind
    ensures { (f : ℕ → Term) → result ≡ side_kind_spec (side_from f side) }
{
    match side {
        BoundSide::One(side) => kind_of(side.kind),
        BoundSide::Several(_) => SideKind::Several,
    }
}

/// The slots that a right side sets.
pub(crate) fn side_targets(side: BoundSide) -> Targets
    ensures { (f : ℕ → Term) → target_slots result ≡ side_slots (side_from f side) }
{
    match side {
        BoundSide::One(side) => Targets {
            first: side.variable.0,
            count: 1,
        },
        BoundSide::Several(side) => Targets {
            first: side.first.0,
            count: side.types.len() as u8,
        },
    }
}

/// The type of what a right side gives.
pub(crate) fn side_type(side: BoundSide) -> AnswerType
    ensures { (f : ℕ → Term) → result ≡ side_type_spec (side_from f side) }
{
    match side {
        BoundSide::One(side) => AnswerType::One(side.ty),
        BoundSide::Several(_) => AnswerType::Parts,
    }
}

/// The type of what a function gives.
pub(crate) fn answer_type(given: CoreResult) -> AnswerType
    ensures { result ≡ answer_spec (results_of given) }
{
    match given {
        CoreResult::One(ty) => AnswerType::One(ty),
        CoreResult::Several(_) => AnswerType::Parts,
    }
}
