//! Cores as text.
//!
//! Pieces are put from the last one to the first: each part goes before what follows it.

ghost use Rattle.std.specs.Prelude.{◌≡◌, ◌≤◌, ◌<◌, ◌+◌, ◌*◌, ◌^◌, [], ◌∷◌, length, map, drop, IfOk, OnOk};
ghost use Rattle.std.specs.List.{AllByRecursion};
ghost use Rattle.gib_core.specs.Arena.{IsBindingBelow, IsBranchBelow, IsPartBelow, IsEnd, term_of, term_in, side_from, bind_from, parts_from, branches_from};
ghost use Rattle.gib_core.specs.{Tree.{variables_from}, PartTypes.{types_in}, Parts.{IsFunctionInside, results_of, function_term, main_term, core_of}};
ghost use Rattle.gib_core.specs.CoreText.{kind_word, spell_access, spell_fork, spell_variables, spell_atoms, ended_from, spell_ends, spell_term, spell_bind, spell_parts, spell_side, spell_branches, spell_parameters, spell_further, spell_result, spell_function, spell_functions, spell_main, spell_core, core_text};

use crate::atom::{Access, Atom, Kind, Variable};
use crate::ended::EndedSet;
use crate::node::{Binding, BoundParts, BoundSide, BoundTerm, Branch, Node, TermId, Terms};
use crate::part_types::PartTypes;
use crate::piece::{Keyword, Piece};
use crate::program::{Core, CoreFunction, CoreMain, CoreResult};
use crate::settle::ended_parameters;
use crate::text::text_of;
use crate::written::{Written, put_line};
use gib_base::{Memory, Name, Texts};
use gib_types::Ty;
use std::alloc::{AllocError, Global};

fn put_variables(variables: &[Variable], out: &mut Written) -> Result<(), Memory>
    ensures { OnOk result (out.new ≡ spell_variables variables.now out.old) }
{
    let mut i = variables.len();
    'variables: while i > 0 {
        i -= 1;
        out.put(Piece::Variable(variables[i]))?;
    }
    Ok(())
}

/// A variable for each of these types, one behind another.
fn put_variables_from(first: Variable, types: PartTypes, out: &mut Written) -> Result<(), Memory>
    ensures { OnOk result (out.new ≡ spell_variables (variables_from first.0 (types_in types)) out.old) }
{
    let mut i = types.len();
    'variables: while i > 0 {
        i -= 1;
        let number = u64::from(first.0) + i as u64;
        let Ok(number) = u32::try_from(number) else {
            return Err(AllocError);
        };
        out.put(Piece::Variable(Variable(number)))?;
    }
    Ok(())
}

fn put_atoms(atoms: &[Atom], out: &mut Written) -> Result<(), Memory>
    ensures { OnOk result (out.new ≡ spell_atoms atoms.now out.old) }
{
    let mut i = atoms.len();
    'atoms: while i > 0 {
        i -= 1;
        out.put(Piece::Atom(atoms[i]))?;
    }
    Ok(())
}

/// The line of one atom behind a word.
fn put_atom_line(level: u64, word: Keyword, atom: Atom, out: &mut Written) -> Result<(), Memory>
    ensures { OnOk result (out.new ≡ Piece.Line level word ∷ Piece.Atom atom ∷ Piece.End ∷ out.old) }
{
    out.put(Piece::End)?;
    out.put(Piece::Atom(atom))?;
    put_line(level, word, out)
}

/// What a head is filled with, up to the end of the line.
fn put_fields(scalars: &[Atom], packed: &[Atom], out: &mut Written) -> Result<(), Memory>
    ensures { OnOk result (out.new ≡ spell_atoms scalars.now (spell_atoms packed.now (Piece.End ∷ out.old))) }
{
    out.put(Piece::End)?;
    put_atoms(packed, out)?;
    put_atoms(scalars, out)
}

/// The variables of a call at ended parameters.
fn ended_arguments(
    alloc: Global,
    ended: &EndedSet,
    name: Name,
    arguments: &[Atom],
) -> Result<Vec<Variable>, Memory>
    ensures { IfOk result (λ found. found.items ≡ ended_from ended.now name.0 0 arguments.now) }
{
    let mut found = Vec::new(alloc);
    let mut i = 0;
    'arguments: while i < arguments.len() {
        if let Atom::Variable(x) = arguments[i] {
            if ended.has(name, i) {
                found.push(x)?;
            }
        }
        i += 1;
    }
    Ok(found)
}

/// The variables whose ends a call tells.
fn put_ends(ends: &[Variable], out: &mut Written) -> Result<(), Memory>
    ensures { OnOk result (out.new ≡ spell_ends ends.now out.old) }
{
    if ends.is_empty() {
        return Ok(());
    }
    put_variables(ends, out)?;
    out.put(Piece::Ends)
}

/// The line of a call.
fn put_call(
    alloc: Global,
    ended: &EndedSet,
    level: u64,
    name: Name,
    arguments: &[Atom],
    out: &mut Written,
) -> Result<(), Memory>
    ensures { OnOk result (out.new ≡ Piece.Line level Keyword.Call ∷ Piece.Function name ∷ spell_atoms arguments.now (spell_ends (ended_from ended.now name.0 0 arguments.now) (Piece.End ∷ out.old))) }
{
    let ends = ended_arguments(alloc, ended, name, arguments)?;
    out.put(Piece::End)?;
    put_ends(&ends, out)?;
    put_atoms(arguments, out)?;
    out.put(Piece::Function(name))?;
    put_line(level, Keyword::Call, out)
}

/// The word for how a term is bound.
fn kind_word(kind: Kind) -> Keyword
    ensures { result ≡ kind_word kind }
{
    match kind {
        Kind::Here => Keyword::Here,
        Kind::Region => Keyword::Region,
        Kind::Scalar => Keyword::Scalar,
    }
}

fn put_access(access: Access, out: &mut Written) -> Result<(), Memory>
    ensures { OnOk result (out.new ≡ spell_access access ∷ out.old) }
{
    match access {
        Access::Offset => out.put(Piece::ByOffset),
        Access::Skip(field) => out.put(Piece::BySkip(field)),
        Access::End(field) => out.put(Piece::ByEnd(field)),
    }
}

fn put_fork(fork: bool, out: &mut Written) -> Result<(), Memory>
    ensures { OnOk result (out.new ≡ spell_fork fork out.old) }
{
    if fork { out.put(Piece::Fork) } else { Ok(()) }
}

/// What terms are printed of, with the ended parameters, and with none in the sides of a `par`.
#[derive(Clone, Copy)]
struct Printed<'a> {
    alloc: Global,
    terms: &'a Terms,
    ended: &'a EndedSet,
    none: &'a EndedSet,
}

/// A term on a level. This recurses as deep as terms are nested in bindings and branches, and not along a line.
#[cycle(terms)]
fn put_term(from: &Printed, level: u64, id: TermId, out: &mut Written) -> Result<(), Memory>
    requires none { from.now.none.now ≡ [] }
    requires inside { id.0 < length from.now.terms.now }
    requires level { level + 2 * id.0 < 2 ^ 40 }
    ensures { OnOk result (out.new ≡ spell_term from.now.ended.now level (term_of from.now.terms.now id.0) out.old) }
{
    let (bindings, last) = from.terms.line(from.alloc, id)?;
    put_end(from, level, last, out)?;
    let mut i = bindings.len();
    'bindings: while i > 0 {
        i -= 1;
        put_binding(from, level, id, bindings[i], out)?;
    }
    Ok(())
}

/// The end of a line.
#[cycle(terms)]
fn put_end(from: &Printed, level: u64, id: TermId, out: &mut Written) -> Result<(), Memory>
    requires none { from.now.none.now ≡ [] }
    requires inside { id.0 < length from.now.terms.now }
    requires level { level + 2 * id.0 < 2 ^ 40 }
    requires last { IsEnd (term_of from.now.terms.now id.0) }
    ensures { OnOk result (out.new ≡ spell_term from.now.ended.now level (term_of from.now.terms.now id.0) out.old) }
{
    match from.terms.node(id) {
        Node::Then(_, _) => unreachable!(),
        Node::Write {
            head,
            scalars,
            packed,
            ..
        } => {
            put_fields(scalars, packed, out)?;
            out.put(Piece::Variable(*head))?;
            put_line(level, Keyword::Write, out)
        }
        Node::Point(atom) => put_atom_line(level, Keyword::Point, *atom, out),
        Node::Call(name, arguments) => put_call(
            from.alloc, from.ended, level, *name, arguments, out,
        ),
        Node::Give(atom) => put_atom_line(level, Keyword::Give, *atom, out),
        Node::Case { subject, branches } => {
            put_branches(from, level + 1, id, branches, out)?;
            put_atom_line(level, Keyword::Case, *subject, out)
        }
        Node::If {
            condition,
            then_part,
            else_part,
        } => {
            put_term(from, level + 1, *else_part, out)?;
            out.put(Piece::End)?;
            put_line(level, Keyword::Else, out)?;
            put_term(from, level + 1, *then_part, out)?;
            put_atom_line(level, Keyword::If, *condition, out)
        }
        Node::Tuple { scalars, parts, .. } => {
            put_parts(from, level + 1, id, parts, out)?;
            out.put(Piece::End)?;
            put_atoms(scalars, out)?;
            put_line(level, Keyword::Tuple, out)
        }
    }
}

/// A binding of the term of a number, whose terms stand below it.
#[cycle(terms)]
fn put_binding(
    from: &Printed,
    level: u64,
    parent: TermId,
    binding: Binding,
    out: &mut Written,
) -> Result<(), Memory>
    requires none { from.now.none.now ≡ [] }
    requires inside { parent.0 < length from.now.terms.now }
    requires level { level + 2 * parent.0 < 2 ^ 40 }
    requires below { IsBindingBelow parent.0 binding }
    ensures { OnOk result (out.new ≡ spell_bind from.now.ended.now level (bind_from (term_of from.now.terms.now) binding) out.old) }
{
    match binding {
        Binding::Past { head, constructor } => {
            out.put(Piece::End)?;
            out.put(Piece::Constructor(constructor))?;
            out.put(Piece::Variable(head))?;
            put_line(level, Keyword::Past, out)
        }
        Binding::One(side) => put_side(from, level, side, out),
        Binding::Par { fork, left, right } => {
            let inside = Printed {
                ended: from.none,
                ..*from
            };
            put_side(&inside, level + 1, right, out)?;
            put_side(&inside, level + 1, left, out)?;
            out.put(Piece::End)?;
            put_fork(fork, out)?;
            put_line(level, Keyword::Par, out)
        }
        Binding::Prim {
            variable,
            operator,
            left,
            right,
        } => {
            out.put(Piece::End)?;
            out.put(Piece::Atom(right))?;
            out.put(Piece::Operator(operator))?;
            out.put(Piece::Atom(left))?;
            out.put(Piece::Equals)?;
            out.put(Piece::Variable(variable))?;
            put_line(level, Keyword::Prim, out)
        }
        Binding::Reach { field, access } => {
            out.put(Piece::End)?;
            put_access(access, out)?;
            out.put(Piece::Variable(field))?;
            put_line(level, Keyword::Reach, out)
        }
    }
}

/// What is bound to a term, and the term.
#[cycle(terms)]
fn put_side(from: &Printed, level: u64, side: BoundSide, out: &mut Written) -> Result<(), Memory>
    requires none { from.now.none.now ≡ [] }
    requires inside { (term_in side).0 < length from.now.terms.now }
    requires level { level + 1 + 2 * (term_in side).0 < 2 ^ 40 }
    ensures { OnOk result (out.new ≡ spell_side from.now.ended.now level (side_from (term_of from.now.terms.now) side) out.old) }
{
    match side {
        BoundSide::One(bound) => put_bound(from, level, bound, out),
        BoundSide::Several(bound) => put_several(from, level, bound, out),
    }
}

/// A variable with the term that it is bound to.
#[cycle(terms)]
fn put_bound(from: &Printed, level: u64, side: BoundTerm, out: &mut Written) -> Result<(), Memory>
    requires none { from.now.none.now ≡ [] }
    requires inside { side.term.0 < length from.now.terms.now }
    requires level { level + 1 + 2 * side.term.0 < 2 ^ 40 }
    ensures { OnOk result (out.new ≡ spell_side from.now.ended.now level (side_from (term_of from.now.terms.now) (BoundSide.One side)) out.old) }
{
    put_term(from, level + 1, side.term, out)?;
    out.put(Piece::End)?;
    out.put(Piece::Variable(side.variable))?;
    put_line(level, kind_word(side.kind), out)
}

/// Several variables with the term to whose parts they are bound.
#[cycle(terms)]
fn put_several(
    from: &Printed,
    level: u64,
    parts: BoundParts,
    out: &mut Written,
) -> Result<(), Memory>
    requires none { from.now.none.now ≡ [] }
    requires inside { parts.term.0 < length from.now.terms.now }
    requires level { level + 1 + 2 * parts.term.0 < 2 ^ 40 }
    ensures { OnOk result (out.new ≡ spell_side from.now.ended.now level (side_from (term_of from.now.terms.now) (BoundSide.Several parts)) out.old) }
{
    put_term(from, level + 1, parts.term, out)?;
    out.put(Piece::End)?;
    put_variables_from(parts.first, parts.types, out)?;
    put_line(level, Keyword::Several, out)
}

/// The parts of the tuple of a number, which stand below it.
#[cycle(terms)]
fn put_parts(
    from: &Printed,
    level: u64,
    parent: TermId,
    parts: &[TermId],
    out: &mut Written,
) -> Result<(), Memory>
    requires none { from.now.none.now ≡ [] }
    requires inside { parent.0 < length from.now.terms.now }
    requires level { level + 2 * parent.0 < 2 ^ 40 + 1 }
    requires below { AllByRecursion (IsPartBelow parent.0) parts.now }
    ensures { OnOk result (out.new ≡ spell_parts from.now.ended.now level (parts_from (term_of from.now.terms.now) parts.now) out.old) }
{
    let mut i = parts.len();
    'parts: while i > 0 {
        i -= 1;
        put_term(from, level + 1, parts[i], out)?;
        out.put(Piece::End)?;
        put_line(level, Keyword::To, out)?;
    }
    Ok(())
}

/// The branches of the case of a number, whose terms stand below it.
#[cycle(terms)]
fn put_branches(
    from: &Printed,
    level: u64,
    parent: TermId,
    branches: &[Branch],
    out: &mut Written,
) -> Result<(), Memory>
    requires none { from.now.none.now ≡ [] }
    requires inside { parent.0 < length from.now.terms.now }
    requires level { level + 2 * parent.0 < 2 ^ 40 + 1 }
    requires below { AllByRecursion (IsBranchBelow parent.0) branches.now }
    ensures { OnOk result (out.new ≡ spell_branches from.now.ended.now level (branches_from (term_of from.now.terms.now) branches.now) out.old) }
{
    let mut i = branches.len();
    'branches: while i > 0 {
        i -= 1;
        put_term(from, level + 1, branches[i].term, out)?;
        out.put(Piece::End)?;
        put_variables(&branches[i].variables, out)?;
        out.put(Piece::Arm(level, branches[i].constructor))?;
    }
    Ok(())
}

fn put_parameters(parameters: &[Ty], out: &mut Written) -> Result<(), Memory>
    ensures { OnOk result (out.new ≡ spell_parameters 0 parameters.now out.old) }
{
    let mut i = parameters.len();
    'parameters: while i > 0 {
        i -= 1;
        let Ok(number) = u32::try_from(i) else {
            return Err(AllocError);
        };
        out.put(Piece::Parameter(Variable(number), parameters[i]))?;
    }
    Ok(())
}

/// The types of all parts of a result but the first.
fn put_further(types: PartTypes, out: &mut Written) -> Result<(), Memory>
    requires some { 1 ≤ length (types_in types) }
    ensures { OnOk result (out.new ≡ spell_further (drop 1 (types_in types)) out.old) }
{
    let mut i = types.len();
    'types: while i > 1 {
        i -= 1;
        if let Some(ty) = types.get(i) {
            out.put(Piece::FurtherPart(ty))?;
        }
    }
    Ok(())
}

/// The type of a result, or those of its parts.
fn put_result(given: CoreResult, out: &mut Written) -> Result<(), Memory>
    ensures { OnOk result (out.new ≡ spell_result (results_of given) out.old) }
{
    match given {
        CoreResult::One(ty) => out.put(Piece::Result(ty)),
        CoreResult::Several(types) => match types.get(0) {
            None => Ok(()),
            Some(first) => {
                out.put(Piece::PartsEnd)?;
                put_further(types, out)?;
                out.put(Piece::FirstPart(first))
            }
        },
    }
}

/// A result, the end of its line, and the body below it.
fn put_body(
    from: &Printed,
    given: CoreResult,
    body: TermId,
    out: &mut Written,
) -> Result<(), Memory>
    requires none { from.now.none.now ≡ [] }
    requires inside { body.0 < length from.now.terms.now }
    ensures { OnOk result (out.new ≡ spell_result (results_of given) (Piece.End ∷ spell_term from.now.ended.now 1 (term_of from.now.terms.now body.0) out.old)) }
{
    put_term(from, 1, body, out)?;
    out.put(Piece::End)?;
    put_result(given, out)
}

fn put_function(from: &Printed, function: &CoreFunction, out: &mut Written) -> Result<(), Memory>
    requires none { from.now.none.now ≡ [] }
    requires inside { function.now.body.0 < length from.now.terms.now }
    ensures { OnOk result (out.new ≡ spell_function from.now.ended.now (function_term (term_of from.now.terms.now) function.now) out.old) }
{
    put_body(from, function.result, function.body, out)?;
    put_parameters(&function.parameters, out)?;
    out.put(Piece::Function(function.name))?;
    put_line(0, Keyword::Fun, out)
}

fn put_functions(
    from: &Printed,
    functions: &[CoreFunction],
    out: &mut Written,
) -> Result<(), Memory>
    requires none { from.now.none.now ≡ [] }
    requires inside { AllByRecursion (IsFunctionInside (length from.now.terms.now)) functions.now }
    ensures { OnOk result (out.new ≡ spell_functions from.now.ended.now (map (function_term (term_of from.now.terms.now)) functions.now) out.old) }
{
    let mut i = functions.len();
    'functions: while i > 0 {
        i -= 1;
        put_function(from, &functions[i], out)?;
    }
    Ok(())
}

fn put_main(from: &Printed, main: CoreMain, out: &mut Written) -> Result<(), Memory>
    requires none { from.now.none.now ≡ [] }
    requires inside { main.body.0 < length from.now.terms.now }
    ensures { OnOk result (out.new ≡ spell_main from.now.ended.now (main_term (term_of from.now.terms.now) main) out.old) }
{
    put_body(from, CoreResult::One(main.result), main.body, out)?;
    out.put(Piece::Parameter(Variable(0), main.parameter))?;
    put_line(0, Keyword::Main, out)
}

/// The pieces of a core's text.
fn pieces_of(alloc: Global, core: &Core) -> Result<Vec<Piece>, Memory>
    ensures { IfOk result (λ pieces. pieces.items ≡ spell_core (core_of core.now)) }
{
    let ended = ended_parameters(alloc, core, core.marked())?;
    let none = EndedSet::none(alloc);
    let from = Printed {
        alloc,
        terms: core.terms(),
        ended: &ended,
        none: &none,
    };
    let mut out = Written::new(alloc);
    put_main(&from, core.main(), &mut out)?;
    put_functions(&from, core.functions(), &mut out)?;
    Ok(out.into_vec())
}

/// The text of a core, with the names of its program.
///
/// # Errors
///
/// Want of memory.
pub fn print_core(alloc: Global, core: &Core, names: &Texts) -> Result<Vec<u8>, Memory>
    ensures { IfOk result (λ out. out.items ≡ core_text names.now.long (core_of core.now)) }
{
    let pieces = pieces_of(alloc, core)?;
    text_of(alloc, &pieces, core.types(), names)
}
