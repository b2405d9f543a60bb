//! Terms with other numbers for their variables, behind other terms.
//!
//! Each node is copied by itself, so this goes along the nodes and not along the terms.

ghost use Rattle.std.specs.Prelude.{◌≡◌, ◌<◌, ◌+◌, map, length, IfOk};
ghost use Rattle.gib_core.specs.{Arena.{term_of}, PartTypes.{types_in}, Tree.{variables_from}};
ghost use Rattle.gib_place.specs.{Made.{MakesTerm}, Renaming.{rename, rename_variable, rename_atom, rename_access}, Numbering.{place_in}, Filled.{IsBranching}};
ghost use Rattle.gib_place.specs.Shifting.{SideShifted, BindingShifted, PartsShifted, BranchShifted, BranchesShifted, NodeShifted, Copies};

use super::numbers::Numbers;
use crate::several::variable_behind;
use gib_base::Memory;
use gib_core::{
    Access, Atom, Binding, BoundParts, BoundSide, BoundTerm, Branch, Node, PartTypes, TermId,
    Terms, Variable,
};
use std::alloc::{AllocError, Global};

/// A number so much further on.
fn shifted(base: u32, id: TermId) -> Result<TermId, Memory>
    ensures { IfOk result (λ new. new.0 ≡ base + id.0) }
{
    match base.checked_add(id.0) {
        Some(number) => Ok(TermId(number)),
        None => Err(AllocError),
    }
}

/// How a field is reached.
fn renamed_access(numbers: &Numbers, access: Access) -> Result<Access, Memory>
    ensures { IfOk result (λ new. new ≡ rename_access (place_in numbers.now) access) }
{
    match access {
        Access::Offset => Ok(Access::Offset),
        Access::Skip(x) => {
            let x = numbers.number(x)?;
            Ok(Access::Skip(x))
        }
        Access::End(x) => {
            let x = numbers.number(x)?;
            Ok(Access::End(x))
        }
    }
}

/// The first one of as many variables as there are types, one behind another, whose numbers are one behind another too.
///
/// # Errors
///
/// Want of memory, where no further number is left too. So too where their numbers are not one behind another, since they
/// were bound before.
fn renamed_first(numbers: &Numbers, first: Variable, types: PartTypes) -> Result<Variable, Memory>
    ensures { IfOk result (λ new. variables_from new.0 (types_in types) ≡ map (rename_variable (place_in numbers.now)) (variables_from first.0 (types_in types))) }
{
    let renamed = numbers.number(first)?;
    let mut i = 0;
    'variables: while i < types.len() {
        let x = variable_behind(first, i)?;
        let number = numbers.number(x)?;
        let due = variable_behind(renamed, i)?;
        if number.0 != due.0 {
            return Err(AllocError);
        }
        i += 1;
    }
    Ok(renamed)
}

/// A side.
fn renamed_side(numbers: &Numbers, base: u32, side: BoundSide) -> Result<BoundSide, Memory>
    ensures { IfOk result (λ new. SideShifted (place_in numbers.now) base side new) }
{
    let term = shifted(base, side.term())?;
    match side {
        BoundSide::One(side) => {
            let variable = numbers.number(side.variable)?;
            Ok(BoundSide::One(BoundTerm {
                variable,
                term,
                ..side
            }))
        }
        BoundSide::Several(side) => {
            let first = renamed_first(numbers, side.first, side.types)?;
            Ok(BoundSide::Several(BoundParts {
                first,
                term,
                ..side
            }))
        }
    }
}

/// A binding.
fn renamed_binding(numbers: &Numbers, base: u32, binding: Binding) -> Result<Binding, Memory>
    ensures { IfOk result (λ new. BindingShifted (place_in numbers.now) base binding new) }
{
    match binding {
        Binding::Past { head, constructor } => {
            let head = numbers.number(head)?;
            Ok(Binding::Past { head, constructor })
        }
        Binding::One(side) => {
            let side = renamed_side(numbers, base, side)?;
            Ok(Binding::One(side))
        }
        Binding::Par { fork, left, right } => {
            let left = renamed_side(numbers, base, left)?;
            let right = renamed_side(numbers, base, right)?;
            Ok(Binding::Par { fork, left, right })
        }
        Binding::Prim {
            variable,
            operator,
            left,
            right,
        } => {
            let variable = numbers.number(variable)?;
            let left = numbers.number_atom(left)?;
            let right = numbers.number_atom(right)?;
            Ok(Binding::Prim {
                variable,
                operator,
                left,
                right,
            })
        }
        Binding::Reach { field, access } => {
            let field = numbers.number(field)?;
            let access = renamed_access(numbers, access)?;
            Ok(Binding::Reach { field, access })
        }
    }
}

/// Atoms.
fn renamed_atoms(alloc: Global, numbers: &Numbers, atoms: &[Atom]) -> Result<Vec<Atom>, Memory>
    ensures { IfOk result (λ new. new.items ≡ map (rename_atom (place_in numbers.now)) atoms.now) }
{
    let mut renamed = Vec::new(alloc);
    let mut left = atoms;
    'atoms: while let [atom, after @ ..] = left {
        let atom = numbers.number_atom(*atom)?;
        renamed.push(atom)?;
        left = after;
    }
    Ok(renamed)
}

/// Variables.
fn renamed_variables(
    alloc: Global,
    numbers: &Numbers,
    variables: &[Variable],
) -> Result<Vec<Variable>, Memory>
    ensures { IfOk result (λ new. new.items ≡ map (rename_variable (place_in numbers.now)) variables.now) }
{
    let mut renamed = Vec::new(alloc);
    let mut left = variables;
    'variables: while let [x, after @ ..] = left {
        let x = numbers.number(*x)?;
        renamed.push(x)?;
        left = after;
    }
    Ok(renamed)
}

/// A branch.
fn renamed_branch(
    alloc: Global,
    numbers: &Numbers,
    base: u32,
    branch: &Branch,
) -> Result<Branch, Memory>
    ensures { IfOk result (λ new. BranchShifted (place_in numbers.now) base branch.now new) }
{
    let variables = renamed_variables(alloc, numbers, &branch.variables)?;
    let term = shifted(base, branch.term)?;
    Ok(Branch {
        constructor: branch.constructor,
        variables,
        term,
    })
}

/// Branches.
fn renamed_branches(
    alloc: Global,
    numbers: &Numbers,
    base: u32,
    branches: &[Branch],
) -> Result<Vec<Branch>, Memory>
    ensures { IfOk result (λ new. BranchesShifted (place_in numbers.now) base branches.now new.items) }
{
    let mut reversed = Vec::new(alloc);
    let mut i = branches.len();
    'branches: while i > 0 {
        i -= 1;
        let branch = renamed_branch(alloc, numbers, base, &branches[i])?;
        reversed.push(branch)?;
    }
    reversed.reverse();
    Ok(reversed)
}

/// Parts so much further on.
fn shifted_parts(alloc: Global, base: u32, parts: &[TermId]) -> Result<Vec<TermId>, Memory>
    ensures { IfOk result (λ new. PartsShifted base parts.now new.items) }
{
    let mut reversed = Vec::new(alloc);
    let mut i = parts.len();
    'parts: while i > 0 {
        i -= 1;
        let part = shifted(base, parts[i])?;
        reversed.push(part)?;
    }
    reversed.reverse();
    Ok(reversed)
}

/// A node that goes on in other terms.
fn renamed_branching(
    alloc: Global,
    numbers: &Numbers,
    base: u32,
    node: &Node,
) -> Result<Node, Memory>
    requires { IsBranching node.now }
    ensures { IfOk result (λ new. NodeShifted (place_in numbers.now) base node.now new) }
{
    match node {
        Node::Case { subject, branches } => {
            let subject = numbers.number_atom(*subject)?;
            let branches = renamed_branches(alloc, numbers, base, branches)?;
            Ok(Node::Case { subject, branches })
        }
        Node::If {
            condition,
            then_part,
            else_part,
        } => {
            let condition = numbers.number_atom(*condition)?;
            let then_part = shifted(base, *then_part)?;
            let else_part = shifted(base, *else_part)?;
            Ok(Node::If {
                condition,
                then_part,
                else_part,
            })
        }
        Node::Tuple {
            types,
            scalars,
            parts,
        } => {
            let scalars = renamed_atoms(alloc, numbers, scalars)?;
            let parts = shifted_parts(alloc, base, parts)?;
            Ok(Node::Tuple {
                types: *types,
                scalars,
                parts,
            })
        }
        _ => unreachable!(),
    }
}

/// A node.
fn renamed_node(alloc: Global, numbers: &Numbers, base: u32, node: &Node) -> Result<Node, Memory>
    ensures { IfOk result (λ new. NodeShifted (place_in numbers.now) base node.now new) }
{
    match node {
        Node::Then(binding, rest) => {
            let binding = renamed_binding(numbers, base, *binding)?;
            let rest = shifted(base, *rest)?;
            Ok(Node::Then(binding, rest))
        }
        Node::Write {
            head,
            constructor,
            scalars,
            packed,
        } => {
            let head = numbers.number(*head)?;
            let scalars = renamed_atoms(alloc, numbers, scalars)?;
            let packed = renamed_atoms(alloc, numbers, packed)?;
            Ok(Node::Write {
                head,
                constructor: *constructor,
                scalars,
                packed,
            })
        }
        Node::Point(atom) => {
            let atom = numbers.number_atom(*atom)?;
            Ok(Node::Point(atom))
        }
        Node::Call(name, arguments) => {
            let arguments = renamed_atoms(alloc, numbers, arguments)?;
            Ok(Node::Call(*name, arguments))
        }
        Node::Give(atom) => {
            let atom = numbers.number_atom(*atom)?;
            Ok(Node::Give(atom))
        }
        Node::Case { .. } | Node::If { .. } | Node::Tuple { .. } => {
            renamed_branching(alloc, numbers, base, node)
        }
    }
}

/// The terms with other numbers, behind those that are there: where the first one stands.
///
/// # Errors
///
/// Want of memory, where no further number of a term or a variable is left too.
fn copy_terms(
    alloc: Global,
    numbers: &Numbers,
    terms: &Terms,
    into: &mut Terms,
) -> Result<u32, Memory>
    ensures base { IfOk result (λ base. base ≡ length into.old) }
    ensures copies { IfOk result (λ base. Copies numbers.now terms.now (length terms.now) into.old into.new) }
{
    let Ok(base) = u32::try_from(into.len()) else {
        return Err(AllocError);
    };
    let mut i = 0;
    'terms: while i < terms.len() {
        let Ok(id) = u32::try_from(i) else {
            return Err(AllocError);
        };
        let node = renamed_node(alloc, numbers, base, terms.node(TermId(id)))?;
        into.put(node)?;
        i += 1;
    }
    Ok(base)
}

/// The term of a number, renamed, behind the terms that are there.
///
/// # Errors
///
/// Want of memory, where no further number of a term or a variable is left too.
pub fn copy_term(
    alloc: Global,
    numbers: &Numbers,
    terms: &Terms,
    id: TermId,
    into: &mut Terms,
) -> Result<TermId, Memory>
    requires { id.0 < length terms.now }
    ensures { IfOk result (λ made. MakesTerm into.old into.new made (rename (place_in numbers.now) (term_of terms.now id.0))) }
{
    let base = copy_terms(alloc, numbers, terms, into)?;
    shifted(base, id)
}
