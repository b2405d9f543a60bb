//! What tells ends: behind a call, in an arm without packed fields, before a return.

ghost use Rattle.std.specs.Prelude.{◌≡◌, ◌<◌, ◌≤◌, ◌-◌, ◌∷◌, ◌++◌, [], List, length, map, drop, IfOk, OnOk, MatchOption};
ghost use Rattle.gib_types.specs.Layout.{head_size, packed_at};
ghost use Rattle.gib_code.specs.Instruction.{instruction_of};
ghost use Rattle.gib_core.specs.{Arena.{term_of}, Parts.{core_of}};
ghost use Rattle.gib_core.specs.Low.{Over, giving, got_from as gots_from, gots as all_gots, operands as operands_spec, ending as ending_spec, call_ending, giving_parts, arm_overs, arm_end};
ghost use Rattle.gib_lower.specs.{Ends.{end_of, part_slots, within_of}, Lowering.{leaf_end, got_one}};

use crate::atoms::operands;
use crate::counts::plus;
use crate::emitted::Emitted;
use crate::ending::{Around, At, Ending, LastField, Overs, put_told};
use crate::parts::{moves, slots_at, takes_parts};
use crate::source::Source;
use gib_base::{Memory, Name};
use gib_code::{Instr, Operand};
use gib_core::known::{is_known, last_packed};
use gib_core::{Atom, Branch, EndedSet};
use gib_types::{ConId, Layouts};
use std::alloc::Global;

/// The end that a call gave for an argument is told to it, where it is a variable at an ended parameter.
fn push_got(
    instrs: &mut Vec<Instr>,
    ended: &EndedSet,
    function: Name,
    place: u32,
    argument: Atom,
) -> Result<(), Memory>
    ensures { OnOk result (map instruction_of instrs.new.items ≡ map instruction_of instrs.old.items ++ got_one ended.now function.0 place argument) }
{
    match argument {
        Atom::Variable(variable) => {
            if ended.has(function, place as usize) {
                instrs.push(Instr::Got {
                    to: variable.0,
                    parameter: place,
                })?;
            }
            Ok(())
        }
        Atom::Whole(_) => Ok(()),
        Atom::Truth(_) => Ok(()),
    }
}

/// The ends that a call gave for its arguments.
#[tactic(auto, using(crate::proofs::Tellings::got_next))]
fn got_from(
    alloc: Global,
    ended: &EndedSet,
    function: Name,
    arguments: &[Atom],
) -> Result<Vec<Instr>, Memory>
    ensures { IfOk result (λ instrs. map instruction_of instrs.items ≡ gots_from ended.now function.0 0 arguments.now) }
{
    let mut instrs = Vec::new(alloc);
    let mut place = 0;
    let mut left = arguments;
    'arguments: while let [argument, after @ ..] = left {
        push_got(&mut instrs, ended, function, place, *argument)?;
        place = plus(place, 1)?;
        left = after;
    }
    Ok(instrs)
}

/// The ends that a call gave for its arguments; inside a side of a `par` none is told.
pub(crate) fn gots(
    alloc: Global,
    source: &Source,
    around: Around,
    function: Name,
    arguments: &[Atom],
) -> Result<Vec<Instr>, Memory>
    ensures { IfOk result (λ instrs. map instruction_of instrs.items ≡ all_gots (within_of around) (core_of source.now) function.0 arguments.now) }
{
    if around.par {
        return Ok(Vec::new(alloc));
    }
    let instrs = got_from(alloc, source.ended(), function, arguments)?;
    Ok(instrs)
}

/// Puts what ends a packed term.
#[tactic(auto, using(crate::proofs::Tellings::before_end))]
pub(crate) fn put_ending(overs: &Overs, ending: Ending, code: &mut Emitted) -> Result<(), Memory>
    ensures { OnOk result (code.new ≡ ending_spec (end_of ending overs.now) ++ code.old) }
{
    match ending {
        Ending::Returns => {
            code.put(Instr::Return)?;
            put_told(overs, code)
        }
        Ending::To { label, .. } => code.put(Instr::Jump(label)),
        Ending::ToParts { label, .. } => code.put(Instr::Jump(label)),
    }
}

/// The slots that the scalar ones of several parts go to.
fn part_slots(alloc: Global, ending: Ending) -> Result<Vec<u32>, Memory>
    ensures { IfOk result (λ slots. slots.items ≡ part_slots ending) }
{
    match ending {
        Ending::Returns => Ok(Vec::new(alloc)),
        Ending::To { .. } => Ok(Vec::new(alloc)),
        Ending::ToParts { first, types, .. } => slots_at(alloc, true, first, types),
    }
}

/// Puts what stands behind a call: the scalar parts that it gave go to their slots.
#[tactic(auto, using(crate::proofs::PartMoves::taken_before))]
pub(crate) fn put_call_ending(
    alloc: Global,
    overs: &Overs,
    ending: Ending,
    code: &mut Emitted,
) -> Result<(), Memory>
    ensures { OnOk result (code.new ≡ call_ending (end_of ending overs.now) ++ code.old) }
{
    put_ending(overs, ending, code)?;
    let slots = part_slots(alloc, ending)?;
    let taken = takes_parts(alloc, &slots)?;
    code.put_all(taken)
}

/// Puts what gives several parts, behind the packed ones.
#[tactic(auto, using(crate::proofs::Tellings::before_end, crate::proofs::PartMoves::moved_before))]
pub(crate) fn give_parts(
    alloc: Global,
    overs: &Overs,
    ending: Ending,
    scalars: &[Atom],
    code: &mut Emitted,
) -> Result<(), Memory>
    ensures { OnOk result (code.new ≡ giving_parts (operands_spec scalars.now) (end_of ending overs.now) ++ code.old) }
{
    match ending {
        Ending::Returns => {
            let values = operands(alloc, scalars)?;
            code.put(Instr::GiveParts(values))?;
            put_told(overs, code)
        }
        Ending::To { label, .. } => code.put(Instr::Jump(label)),
        Ending::ToParts {
            label,
            first,
            types,
        } => {
            code.put(Instr::Jump(label))?;
            let slots = slots_at(alloc, true, first, types)?;
            code.put_all(moves(alloc, &slots, scalars)?)
        }
    }
}

/// Puts what gives a scalar.
#[tactic(auto, using(crate::proofs::Tellings::before_end))]
pub(crate) fn give(
    overs: &Overs,
    ending: Ending,
    value: Operand,
    code: &mut Emitted,
) -> Result<(), Memory>
    ensures { OnOk result (code.new ≡ giving value (end_of ending overs.now) ++ code.old) }
{
    match ending {
        Ending::Returns => {
            code.put(Instr::Give(value))?;
            put_told(overs, code)
        }
        Ending::To { label, slot } => {
            code.put(Instr::Jump(label))?;
            code.put(Instr::Move {
                to: slot,
                from: value,
            })
        }
        Ending::ToParts { label, .. } => code.put(Instr::Jump(label)),
    }
}

/// An arm without packed fields tells where its tree ends.
#[tactic(auto, using(crate::proofs::Tellings::leaf_unmarked, crate::proofs::Tellings::leaf_packed, crate::proofs::Tellings::leaf_is))]
pub(crate) fn put_leaf(
    layouts: &Layouts,
    around: Around,
    tree: u32,
    constructor: ConId,
    code: &mut Emitted,
) -> Result<(), Memory>
    ensures { OnOk result (code.new ≡ leaf_end around.ends tree (head_size layouts.now constructor.0) (packed_at layouts.now constructor.0) ++ code.old) }
{
    if !around.ends {
        return Ok(());
    }
    let layout = layouts.layout(constructor);
    if layout.packed > 0 {
        return Ok(());
    }
    code.put(Instr::LeafEnd {
        to: tree,
        size: layout.head,
    })
}

/// The tree of an arm with its last packed field, where the end of that one is known at the arm's end.
#[tactic(auto, using(crate::proofs::Tellings::over_unmarked, crate::proofs::Tellings::over_in_par, crate::proofs::Tellings::over_unpacked, crate::proofs::Tellings::over_unknown, crate::proofs::Tellings::over_known))]
fn last_of(source: &Source, around: Around, tree: u32, branch: &Branch) -> Option<LastField>
    requires inside { branch.now.term.0 < length source.now.terms }
    ensures { (os : List Over) → MatchOption result (arm_overs (within_of around) (core_of source.now) tree branch.now.constructor branch.now.variables.items (term_of source.now.terms branch.now.term.0) os ≡ os) (λ o. arm_overs (within_of around) (core_of source.now) tree branch.now.constructor branch.now.variables.items (term_of source.now.terms branch.now.term.0) os ≡ o ∷ os) }
{
    if !around.ends {
        return None;
    }
    if around.par {
        return None;
    }
    match last_packed(
        source.layouts().fields(branch.constructor),
        &branch.variables,
    ) {
        None => None,
        Some(field) => {
            if is_known(
                source.types(),
                source.terms(),
                source.ended(),
                branch.term,
                field,
            ) {
                return Some(LastField {
                    tree,
                    field: field.0,
                });
            }
            None
        }
    }
}

/// Before a return in an arm its tree is told its end, where that of its last packed field is known by then.
#[tactic(auto, using(crate::proofs::Tellings::one_left, crate::proofs::Tellings::none_left))]
pub(crate) fn enter_arm(
    source: &Source,
    at: At,
    tree: u32,
    branch: &Branch,
    overs: &mut Overs,
) -> Result<(), Memory>
    requires inside { branch.now.term.0 < length source.now.terms }
    ensures end { OnOk result (end_of at.ending overs.new ≡ arm_end (within_of at.around) (core_of source.now) tree branch.now.constructor branch.now.variables.items (term_of source.now.terms branch.now.term.0) (end_of at.ending overs.old)) }
    ensures more { OnOk result (length overs.old ≤ length overs.new) }
    ensures kept { OnOk result (drop (length overs.new - length overs.old) overs.new ≡ overs.old) }
{
    match at.ending {
        Ending::To { .. } => Ok(()),
        Ending::ToParts { .. } => Ok(()),
        Ending::Returns => match last_of(source, at.around, tree, branch) {
            None => Ok(()),
            Some(last) => {
                overs.add(last)?;
                Ok(())
            }
        },
    }
}
