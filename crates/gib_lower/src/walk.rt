//! The walk that makes the code of a term.
//!
//! It goes from the last part of a term to the first: the code of each part is put in front of the code that follows it,
//! so a label is known before it is used.

ghost use Rattle.std.specs.Prelude.{◌≡◌, ◌<◌, ◌∷◌, ◌++◌, true, length, map, reverse, IfOk, OnOk, MatchOption};
ghost use Rattle.std.specs.List.{AllByRecursion};
ghost use Rattle.gib_types.specs.Table.{fields_at};
ghost use Rattle.gib_core.specs.Arena.{IsBindingBelow, IsBranchBelow, IsPartBelow, IsEnd, term_in, term_of, side_from, bind_from, branches_from, parts_from};
ghost use Rattle.gib_core.specs.{Parts.{core_of}, Tree.{CallTerm, Both}};
ghost use Rattle.gib_core.specs.Low.{laid_of, IsNoCall, function_number, with_fields, arm_opening, gots as gots_spec, operands as operands_spec, slots_of as slots_spec, ending as ending_spec, call_ending, done_all, reaching};
ghost use Rattle.gib_core.specs.declared.node.BoundSide.TheVariants as side_of;
ghost use Rattle.gib_code.specs.Instruction as i;
ghost use Rattle.gib_code.specs.Instruction.{instruction_of};
ghost use Rattle.gib_lower.specs.Ends.{end_of, within_of};
ghost use Rattle.gib_lower.specs.Lowering.{lowered, lowered_bind, lowered_side, lowered_parts, lowered_branches, switch, scalar_lowered, branch_lowered};

use crate::atoms::{operand, operands, side_kind, side_targets, side_type, slot_of, slots_of};
use crate::emitted::Emitted;
use crate::ending::{Around, At, Ending, Overs};
use crate::fields::{Fields, enter, field_of};
use crate::opening::opening;
use crate::parts::{begins, part_number, slots_at};
use crate::source::Source;
use crate::told::{enter_arm, give, give_parts, gots, put_call_ending, put_ending, put_leaf};
use gib_base::{Memory, Name};
use gib_code::{Arm, Fork, Instr};
use gib_core::{
    Access, Atom, Binding, BoundParts, BoundSide, BoundTerm, Branch, Kind, Node, TermId, Terms,
    Variable,
};
use gib_types::ConId;
use std::alloc::Global;

/// What lowering makes, from the last instruction to the first.
#[derive(Drop)]
pub(crate) struct Lowering {
    pub alloc: Global,
    /// The packed fields of the arms around what is lowered next.
    pub fields: Fields,
    /// The trees of these arms whose ends are told before a return.
    pub overs: Overs,
    pub code: Emitted,
}

/// Puts what makes a packed value, and what stands behind it.
fn put_value(overs: &Overs, ending: Ending, instr: Instr, code: &mut Emitted) -> Result<(), Memory>
    ensures { OnOk result (code.new ≡ instruction_of instr ∷ (ending_spec (end_of ending overs.now) ++ code.old)) }
{
    put_ending(overs, ending, code)?;
    code.put(instr)
}

/// What fills a head.
fn fill(
    alloc: Global,
    head: Variable,
    constructor: ConId,
    scalars: &[Atom],
    packed: &[Atom],
) -> Result<Instr, Memory>
    ensures { IfOk result (λ instr. instruction_of instr ≡ i.Fill head.0 constructor.0 (operands_spec scalars.now) (slots_spec packed.now)) }
{
    Ok(Instr::Fill {
        head: head.0,
        constructor: constructor.0,
        scalars: operands(alloc, scalars)?,
        packed: slots_of(alloc, packed)?,
    })
}

/// How a field is reached.
fn reach(fields: &Fields, field: Variable, access: Access) -> Instr
    ensures { instruction_of result ≡ reaching fields.now field access }
{
    match access {
        Access::Offset => {
            let stored = field_of(fields, field.0);
            Instr::Offset {
                to: field.0,
                tree: stored.tree,
                place: stored.place,
            }
        }
        Access::Skip(before) => Instr::Skip {
            to: field.0,
            from: before.0,
        },
        Access::End(previous) => Instr::EndOf {
            to: field.0,
            from: previous.0,
        },
    }
}

/// The end of a region, and its label.
fn finish(out: &mut Emitted) -> Result<u32, Memory>
    ensures code { IfOk result (λ _. out.new ≡ i.Done ∷ out.old) }
    ensures label { IfOk result (λ label. label ≡ length out.new) }
{
    out.put(Instr::Done)?;
    Ok(out.label())
}

/// The ends of regions, one for each slot.
fn finish_all(slots: &[u32], out: &mut Emitted) -> Result<(), Memory>
    ensures { OnOk result (out.new ≡ done_all slots.now ++ out.old) }
{
    let mut i = 0;
    'slots: while i < slots.len() {
        out.put(Instr::Done)?;
        i += 1;
    }
    Ok(())
}

/// A switch to arms, the last of which was made first.
fn put_switch(out: &mut Emitted, tree: u32, reversed: Vec<Arm>) -> Result<(), Memory>
    ensures { OnOk result (out.new ≡ i.Switch tree (reverse reversed.items) ∷ out.old) }
{
    let mut arms = reversed;
    arms.reverse();
    out.put(Instr::Switch { tree, arms })
}

/// The call that the term of a number is, where it is one.
fn call_alone(terms: &Terms, id: TermId) -> Option<(Name, &[Atom])>
    requires { id.0 < length terms.now }
    ensures { MatchOption result (IsNoCall (term_of terms.now id.0)) (λ call. term_of terms.now id.0 ≡ CallTerm call.0 call.1.now) }
{
    match terms.node(id) {
        Node::Call(name, arguments) => Some((*name, arguments)),
        Node::Then(_, _) => None,
        Node::Write { .. } => None,
        Node::Point(_) => None,
        Node::Give(_) => None,
        Node::Case { .. } => None,
        Node::If { .. } => None,
        Node::Tuple { .. } => None,
    }
}

/// The code of a packed call.
fn lower_call(
    source: &Source,
    at: At,
    name: Name,
    arguments: &[Atom],
    out: &mut Lowering,
) -> Result<(), Memory>
    ensures code { OnOk result (out.new.code ≡ i.Call (function_number (core_of source.now).functions name.0) (operands_spec arguments.now) ∷ (gots_spec (within_of at.around) (core_of source.now) name.0 arguments.now ++ (call_ending (end_of at.ending out.old.overs) ++ out.old.code))) }
    ensures fields { OnOk result (out.new.fields ≡ out.old.fields) }
    ensures overs { OnOk result (out.new.overs ≡ out.old.overs) }
{
    put_call_ending(out.alloc, &out.overs, at.ending, &mut out.code)?;
    let told = gots(out.alloc, source, at.around, name, arguments)?;
    out.code.put_all(told)?;
    let arguments = operands(out.alloc, arguments)?;
    out.code.put(Instr::Call {
        function: source.number(name),
        arguments,
    })
}

/// The code of a scalar call.
fn lower_scalar_call(
    source: &Source,
    around: Around,
    variable: Variable,
    name: Name,
    arguments: &[Atom],
    out: &mut Lowering,
) -> Result<(), Memory>
    ensures code { OnOk result (out.new.code ≡ i.CallScalar variable.0 (function_number (core_of source.now).functions name.0) (operands_spec arguments.now) ∷ (gots_spec (within_of around) (core_of source.now) name.0 arguments.now ++ out.old.code)) }
    ensures fields { OnOk result (out.new.fields ≡ out.old.fields) }
    ensures overs { OnOk result (out.new.overs ≡ out.old.overs) }
{
    let told = gots(out.alloc, source, around, name, arguments)?;
    out.code.put_all(told)?;
    let arguments = operands(out.alloc, arguments)?;
    out.code.put(Instr::CallScalar {
        to: variable.0,
        function: source.number(name),
        arguments,
    })
}

/// The code of a term. This recurses as deep as terms are nested in bindings and branches, and not along a line.
#[cycle(lower)]
pub(crate) fn lower_term(
    source: &Source,
    id: TermId,
    at: At,
    out: &mut Lowering,
) -> Result<(), Memory>
    requires inside { id.0 < length source.now.terms }
    ensures code { OnOk result (out.new.code ≡ lowered (core_of source.now) (within_of at.around) out.old.fields (term_of source.now.terms id.0) (end_of at.ending out.old.overs) out.old.code) }
    ensures fields { OnOk result (out.new.fields ≡ out.old.fields) }
    ensures overs { OnOk result (out.new.overs ≡ out.old.overs) }
{
    let (bindings, last) = source.terms().line(out.alloc, id)?;
    lower_end(source, last, at, out)?;
    let mut i = bindings.len();
    'bindings: while i > 0 {
        i -= 1;
        lower_binding(source, at.around, id, bindings[i], out)?;
    }
    Ok(())
}

/// The code of the end of a line.
#[cycle(lower)]
fn lower_end(source: &Source, id: TermId, at: At, out: &mut Lowering) -> Result<(), Memory>
    requires inside { id.0 < length source.now.terms }
    requires last { IsEnd (term_of source.now.terms id.0) }
    ensures code { OnOk result (out.new.code ≡ lowered (core_of source.now) (within_of at.around) out.old.fields (term_of source.now.terms id.0) (end_of at.ending out.old.overs) out.old.code) }
    ensures fields { OnOk result (out.new.fields ≡ out.old.fields) }
    ensures overs { OnOk result (out.new.overs ≡ out.old.overs) }
{
    match source.terms().node(id) {
        Node::Then(_, _) => unreachable!(),
        Node::Write {
            head,
            constructor,
            scalars,
            packed,
        } => {
            let instr = fill(out.alloc, *head, *constructor, scalars, packed)?;
            put_value(&out.overs, at.ending, instr, &mut out.code)
        }
        Node::Point(atom) => {
            let instr = Instr::Point(slot_of(*atom));
            put_value(&out.overs, at.ending, instr, &mut out.code)
        }
        Node::Call(name, arguments) => lower_call(source, at, *name, arguments, out),
        Node::Give(atom) => {
            let given = operand(*atom);
            give(&out.overs, at.ending, given, &mut out.code)
        }
        Node::Case { subject, branches } => {
            lower_case(source, id, slot_of(*subject), branches, at, out)
        }
        Node::If {
            condition,
            then_part,
            else_part,
        } => {
            lower_term(source, *else_part, at, out)?;
            let label = out.code.label();
            lower_term(source, *then_part, at, out)?;
            let test = operand(*condition);
            out.code.put(Instr::Unless { test, label })
        }
        Node::Tuple { scalars, parts, .. } => {
            give_parts(out.alloc, &out.overs, at.ending, scalars, &mut out.code)?;
            lower_parts(source, id, at.around, parts, out)
        }
    }
}

/// The code of a binding of the term of a number, whose terms stand below it.
#[cycle(lower)]
fn lower_binding(
    source: &Source,
    around: Around,
    parent: TermId,
    binding: Binding,
    out: &mut Lowering,
) -> Result<(), Memory>
    requires inside { parent.0 < length source.now.terms }
    requires below { IsBindingBelow parent.0 binding }
    ensures code { OnOk result (out.new.code ≡ lowered_bind (core_of source.now) (within_of around) out.old.fields (bind_from (term_of source.now.terms) binding) out.old.code) }
    ensures fields { OnOk result (out.new.fields ≡ out.old.fields) }
    ensures overs { OnOk result (out.new.overs ≡ out.old.overs) }
{
    match binding {
        Binding::Past { head, constructor } => out.code.put(Instr::Past {
            head: head.0,
            constructor: constructor.0,
        }),
        Binding::One(side) => lower_side(source, around, side, out),
        Binding::Par { fork, left, right } => {
            if fork {
                lower_fork(source, around, parent, left, right, out)
            } else {
                lower_side(source, around.in_par(), right, out)?;
                lower_side(source, around.in_par(), left, out)
            }
        }
        Binding::Prim {
            variable,
            operator,
            left,
            right,
        } => out.code.put(Instr::Operate {
            to: variable.0,
            operator,
            left: operand(left),
            right: operand(right),
        }),
        Binding::Reach { field, access } => out.code.put(reach(&out.fields, field, access)),
    }
}

/// The code of two sides that may run at the same time.
#[cycle(lower)]
fn lower_fork(
    source: &Source,
    around: Around,
    parent: TermId,
    left: BoundSide,
    right: BoundSide,
    out: &mut Lowering,
) -> Result<(), Memory>
    requires inside { parent.0 < length source.now.terms }
    requires left { (term_in left).0 < parent.0 }
    requires right { (term_in right).0 < parent.0 }
    ensures code { OnOk result (out.new.code ≡ lowered_bind (core_of source.now) (within_of around) out.old.fields (Both true (side_from (term_of source.now.terms) left) (side_from (term_of source.now.terms) right)) out.old.code) }
    ensures fields { OnOk result (out.new.fields ≡ out.old.fields) }
    ensures overs { OnOk result (out.new.overs ≡ out.old.overs) }
{
    let joint = out.code.label();
    out.code.put(Instr::Back)?;
    lower_side(source, around.in_par(), right, out)?;
    let begin = out.code.label();
    out.code.put(Instr::Join)?;
    lower_side(source, around.in_par(), left, out)?;
    out.code.put(Instr::Fork(Fork {
        right: begin,
        joint,
        kind: side_kind(right),
        targets: side_targets(right),
        result: side_type(right),
    }))
}

/// The code of packed parts of the term of a number: each goes into its region.
#[cycle(lower)]
fn lower_parts(
    source: &Source,
    parent: TermId,
    around: Around,
    parts: &[TermId],
    out: &mut Lowering,
) -> Result<(), Memory>
    requires inside { parent.0 < length source.now.terms }
    requires below { AllByRecursion (IsPartBelow parent.0) parts.now }
    ensures code { OnOk result (out.new.code ≡ lowered_parts (core_of source.now) (within_of around) out.old.fields 0 (length parts.now) (parts_from (term_of source.now.terms) parts.now) out.old.code) }
    ensures fields { OnOk result (out.new.fields ≡ out.old.fields) }
    ensures overs { OnOk result (out.new.overs ≡ out.old.overs) }
{
    let count = part_number(parts.len())?;
    let mut i = parts.len();
    'parts: while i > 0 {
        i -= 1;
        let part = part_number(i)?;
        out.code.put(Instr::Out { part, count })?;
        let label = out.code.label();
        lower_term(source, parts[i], around.going_to(label, 0), out)?;
        out.code.put(Instr::Into { part, count })?;
    }
    Ok(())
}

/// The code of what is bound to a term.
#[cycle(lower)]
fn lower_side(
    source: &Source,
    around: Around,
    side: BoundSide,
    out: &mut Lowering,
) -> Result<(), Memory>
    requires inside { (term_in side).0 < length source.now.terms }
    ensures code { OnOk result (out.new.code ≡ lowered_side (core_of source.now) (within_of around) out.old.fields (side_from (term_of source.now.terms) side) out.old.code) }
    ensures fields { OnOk result (out.new.fields ≡ out.old.fields) }
    ensures overs { OnOk result (out.new.overs ≡ out.old.overs) }
{
    match side {
        BoundSide::One(side) => lower_bound(source, around, side, out),
        BoundSide::Several(side) => lower_several(source, around, side, out),
    }
}

/// The code of variables that are bound to the parts of a term: each packed one gets a region.
#[cycle(lower)]
fn lower_several(
    source: &Source,
    around: Around,
    side: BoundParts,
    out: &mut Lowering,
) -> Result<(), Memory>
    requires inside { side.term.0 < length source.now.terms }
    ensures code { OnOk result (out.new.code ≡ lowered_side (core_of source.now) (within_of around) out.old.fields (side_from (term_of source.now.terms) (side_of.Several side)) out.old.code) }
    ensures fields { OnOk result (out.new.fields ≡ out.old.fields) }
    ensures overs { OnOk result (out.new.overs ≡ out.old.overs) }
{
    let packed = slots_at(out.alloc, false, side.first, side.types)?;
    finish_all(&packed, &mut out.code)?;
    let label = out.code.label();
    let at = around.going_to_parts(label, side.first, side.types);
    lower_term(source, side.term, at, out)?;
    let begins = begins(out.alloc, &packed)?;
    out.code.put_all(begins)
}

/// The code of a variable that is bound to a term.
#[cycle(lower)]
fn lower_bound(
    source: &Source,
    around: Around,
    side: BoundTerm,
    out: &mut Lowering,
) -> Result<(), Memory>
    requires inside { side.term.0 < length source.now.terms }
    ensures code { OnOk result (out.new.code ≡ lowered_side (core_of source.now) (within_of around) out.old.fields (side_from (term_of source.now.terms) (side_of.One side)) out.old.code) }
    ensures fields { OnOk result (out.new.fields ≡ out.old.fields) }
    ensures overs { OnOk result (out.new.overs ≡ out.old.overs) }
{
    match side.kind {
        Kind::Here => {
            let label = out.code.label();
            lower_term(source, side.term, around.going_to(label, 0), out)?;
            out.code.put(Instr::Here(side.variable.0))
        }
        Kind::Region => {
            let label = finish(&mut out.code)?;
            lower_term(source, side.term, around.going_to(label, 0), out)?;
            out.code.put(Instr::Begin(side.variable.0))
        }
        Kind::Scalar => lower_scalar(source, around, side.variable, side.term, out),
    }
}

/// The code of a scalar that is bound to a term.
#[cycle(lower)]
fn lower_scalar(
    source: &Source,
    around: Around,
    variable: Variable,
    term: TermId,
    out: &mut Lowering,
) -> Result<(), Memory>
    requires inside { term.0 < length source.now.terms }
    ensures code { OnOk result (out.new.code ≡ scalar_lowered (core_of source.now) (within_of around) out.old.fields variable (term_of source.now.terms term.0) out.old.code) }
    ensures fields { OnOk result (out.new.fields ≡ out.old.fields) }
    ensures overs { OnOk result (out.new.overs ≡ out.old.overs) }
{
    match call_alone(source.terms(), term) {
        Some((name, arguments)) => {
            lower_scalar_call(source, around, variable, name, arguments, out)
        }
        None => {
            let label = out.code.label();
            lower_term(source, term, around.going_to(label, variable.0), out)
        }
    }
}

/// The code of a case on a slot, whose branches' terms stand below a number.
#[cycle(lower)]
fn lower_case(
    source: &Source,
    parent: TermId,
    tree: u32,
    branches: &[Branch],
    at: At,
    out: &mut Lowering,
) -> Result<(), Memory>
    requires inside { parent.0 < length source.now.terms }
    requires below { AllByRecursion (IsBranchBelow parent.0) branches.now }
    ensures code { OnOk result (out.new.code ≡ switch tree (lowered_branches (core_of source.now) (within_of at.around) out.old.fields tree (branches_from (term_of source.now.terms) branches.now) (end_of at.ending out.old.overs) out.old.code)) }
    ensures fields { OnOk result (out.new.fields ≡ out.old.fields) }
    ensures overs { OnOk result (out.new.overs ≡ out.old.overs) }
{
    let mut reversed = Vec::new(out.alloc);
    let mut i = branches.len();
    'branches: while i > 0 {
        i -= 1;
        lower_branch(source, tree, &branches[i], at, out)?;
        reversed.push(Arm {
            constructor: branches[i].constructor.0,
            label: out.code.label(),
        })?;
    }
    put_switch(&mut out.code, tree, reversed)
}

/// The code of a branch.
#[cycle(lower)]
fn lower_branch(
    source: &Source,
    tree: u32,
    branch: &Branch,
    at: At,
    out: &mut Lowering,
) -> Result<(), Memory>
    requires inside { branch.now.term.0 < length source.now.terms }
    ensures code { OnOk result (out.new.code ≡ branch_lowered (core_of source.now) (within_of at.around) out.old.fields tree branch.now.constructor branch.now.variables.items (term_of source.now.terms branch.now.term.0) (end_of at.ending out.old.overs) out.old.code) }
    ensures fields { OnOk result (out.new.fields ≡ out.old.fields) }
    ensures overs { OnOk result (out.new.overs ≡ out.old.overs) }
{
    let layouts = source.layouts();
    let outer = out.fields.len();
    let told = out.overs.len();
    layouts.rules();
    enter(
        &mut out.fields,
        tree,
        layouts.fields(branch.constructor),
        &branch.variables,
    )?;
    enter_arm(source, at, tree, branch, &mut out.overs)?;
    lower_term(source, branch.term, at, out)?;
    out.overs.leave(told);
    out.fields.leave(outer);
    put_leaf(layouts, at.around, tree, branch.constructor, &mut out.code)?;
    let instrs = opening(
        out.alloc,
        layouts,
        tree,
        branch.constructor,
        &branch.variables,
    )?;
    out.code.put_all(instrs)?;
    Ok(())
}
