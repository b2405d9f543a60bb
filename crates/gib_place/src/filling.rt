//! Which line fills a head, and what becomes of it.

ghost use Rattle.std.specs.Prelude.{◌≡◌, ◌<◌, suc, Bool, List, [], ◌∷◌, take, drop, length, Some, IfOk};
ghost use Rattle.std.specs.List.{AllByRecursion};
ghost use Rattle.gib_types.specs.declared.table.ConId.{ConId as Con};
ghost use Rattle.gib_core.specs.{Arena.{IsBindingBelow, PartsBelow, term_of, bind_from, binds_from, layer}, Tree.{Past, Write, prepend}};
ghost use Rattle.gib_core.specs.{declared.atom.Atom.{Atom as Operand}, declared.atom.Variable.{Variable as X}};
ghost use Rattle.gib_place.specs.Placing.{ending_of, filling_of, room_first, place_line, laid_line, lay as laid};
ghost use Rattle.gib_place.specs.Filled.{field_of as field_in, ending_from, bindings_first, room_in, filling_from, AreFound, IsFound, once_by, ending_with, IsLineOf, IsOtherEnd};
ghost use Rattle.gib_place.specs.Made.{MakesTerm};

use crate::field::Field;
use crate::laying::{are_fields, atoms_of, lay};
use crate::line::{Head, Line};
use crate::placing::{Placing, Scratch};
use gib_base::Memory;
use gib_core::{Binding, BoundSide, Kind, Node, TermId, Terms, Variable};
use gib_types::ConId;
use std::alloc::Global;

/// The field that a binding is, where it is one that points to a value.
fn field_of(terms: &Terms, binding: Binding) -> Option<Field>
    requires { IsBindingBelow (length terms.now) binding }
    ensures { result ≡ field_in (bind_from (term_of terms.now) binding) }
{
    let Binding::One(BoundSide::One(side)) = binding else {
        return None;
    };
    match side.kind {
        Kind::Here => match terms.node(side.term) {
            Node::Point(target) => Some(Field {
                variable: side.variable,
                ty: side.ty,
                target: *target,
            }),
            _ => None,
        },
        Kind::Region => None,
        Kind::Scalar => None,
    }
}

/// The fields that bindings are, where each is one that points to a value.
fn fields_of(
    alloc: Global,
    terms: &Terms,
    bindings: &[Binding],
) -> Result<Option<Vec<Field>>, Memory>
    requires { AllByRecursion (IsBindingBelow (length terms.now)) bindings.now }
    ensures ending { IfOk result (λ found. (h : X) (k : Con) (ss ps : List Operand) → ending_of (prepend (binds_from (term_of terms.now) bindings.now) (Write h k ss ps)) ≡ ending_from h k ss ps found) }
    ensures are { IfOk result (λ found. AreFound (term_of terms.now) (length terms.now) bindings.now found) }
{
    let mut fields = Vec::new(alloc);
    let mut i = 0;
    'bindings: while i < bindings.len() {
        match field_of(terms, bindings[i]) {
            Some(field) => fields.push(field)?,
            None => return Ok(None),
        }
        i += 1;
    }
    Ok(Some(fields))
}

/// The line whose room for a head stands at a place.
fn line_at(
    alloc: Global,
    terms: &Terms,
    bindings: &[Binding],
    place: usize,
    head: Variable,
    constructor: ConId,
) -> Result<Option<Line>, Memory>
    requires place { place < length bindings.now }
    requires below { AllByRecursion (IsBindingBelow (length terms.now)) bindings.now }
    ensures filling { IfOk result (λ found. (h : X) (k : Con) (ss ps : List Operand) → bindings_first (binds_from (term_of terms.now) (take place bindings.now)) (room_first head constructor (ending_of (prepend (binds_from (term_of terms.now) (drop (suc place) bindings.now)) (Write h k ss ps)))) ≡ filling_from (term_of terms.now) h k ss ps found) }
    ensures is { IfOk result (λ found. IsFound (term_of terms.now) (length terms.now) found) }
{
    let found = fields_of(alloc, terms, &bindings[place + 1..])?;
    match found {
        None => Ok(None),
        Some(fields) => {
            let run = Vec::from_slice(alloc, &bindings[..place])?;
            let pointing = Vec::from_slice(alloc, &bindings[place + 1..])?;
            Ok(Some(Line {
                run,
                head,
                constructor,
                pointing,
                fields,
            }))
        }
    }
}

/// The head and the constructor that a binding keeps room for, where it is one that does.
fn room_of(binding: Binding) -> Option<(Variable, ConId)>
    ensures { result ≡ room_in binding }
{
    match binding {
        Binding::Past { head, constructor } => Some((head, constructor)),
        Binding::One(_) => None,
        Binding::Par { .. } => None,
        Binding::Prim { .. } => None,
        Binding::Reach { .. } => None,
    }
}

/// The line that bindings make in front of a head that is filled, where its room is followed by pointing fields alone.
pub fn line_of(alloc: Global, terms: &Terms, bindings: &[Binding]) -> Result<Option<Line>, Memory>
    requires { AllByRecursion (IsBindingBelow (length terms.now)) bindings.now }
    ensures filling { IfOk result (λ found. (h : X) (k : Con) (ss ps : List Operand) → filling_of (prepend (binds_from (term_of terms.now) bindings.now) (Write h k ss ps)) ≡ filling_from (term_of terms.now) h k ss ps found) }
    ensures is { IfOk result (λ found. IsFound (term_of terms.now) (length terms.now) found) }
{
    let mut i = 0;
    'bindings: while i < bindings.len() {
        match room_of(bindings[i]) {
            Some((head, constructor)) => {
                return line_at(alloc, terms, bindings, i, head, constructor);
            }
            None => i += 1,
        }
    }
    Ok(None)
}

/// A line whose end fills no head.
pub fn put_other_line(
    scratch: &mut Scratch,
    bindings: Vec<Binding>,
    end: Node,
) -> Result<TermId, Memory>
    requires bindings { AllByRecursion (IsBindingBelow (length scratch.old.terms)) bindings.items }
    requires end { PartsBelow end (length scratch.old.terms) }
    requires other { IsOtherEnd end }
    ensures { IfOk result (λ made. (once : X → Bool) → MakesTerm scratch.old.terms scratch.new.terms made (place_line once (prepend (binds_from (term_of scratch.old.terms) bindings.items) (layer (term_of scratch.old.terms) (Some end))))) }
{
    scratch.terms.put_line(bindings, end)
}

/// A line that fills a head, as it is.
fn put_write(terms: &mut Terms, bindings: Vec<Binding>, head: Head) -> Result<TermId, Memory>
    requires { AllByRecursion (IsBindingBelow (length terms.old)) bindings.items }
    ensures { IfOk result (λ made. MakesTerm terms.old terms.new made (prepend (binds_from (term_of terms.old) bindings.items) (Write head.variable head.constructor head.scalars.items head.packed.items))) }
{
    let write = Node::Write {
        head: head.variable,
        constructor: head.constructor,
        scalars: head.scalars,
        packed: head.packed,
    };
    terms.put_line(bindings, write)
}

/// A line that fills a head, laid anew.
fn fill_line(
    placing: &Placing,
    scratch: &mut Scratch,
    line: Line,
    head: Head,
) -> Result<TermId, Memory>
    requires { IsLineOf (term_of scratch.old.terms) (length scratch.old.terms) line }
    ensures { IfOk result (λ made. MakesTerm scratch.old.terms scratch.new.terms made (laid_line (ending_with head line.fields.items) (laid (once_by placing.now.once.now) (binds_from (term_of scratch.old.terms) line.run.items) (Past line.head line.constructor ∷ []) line.fields.items))) }
{
    let laid = lay(placing, &mut scratch.times, &line)?;
    let packed = atoms_of(placing.alloc, &laid.standing)?;
    put_write(
        &mut scratch.terms,
        laid.bindings,
        Head {
            variable: head.variable,
            constructor: head.constructor,
            scalars: head.scalars,
            packed,
        },
    )
}

/// A line whose end fills a head, with the fields placed that can be.
pub fn fill(
    placing: &Placing,
    scratch: &mut Scratch,
    bindings: Vec<Binding>,
    head: Head,
) -> Result<TermId, Memory>
    requires { AllByRecursion (IsBindingBelow (length scratch.old.terms)) bindings.items }
    ensures { IfOk result (λ made. MakesTerm scratch.old.terms scratch.new.terms made (place_line (once_by placing.now.once.now) (prepend (binds_from (term_of scratch.old.terms) bindings.items) (Write head.variable head.constructor head.scalars.items head.packed.items)))) }
{
    let found = line_of(placing.alloc, &scratch.terms, &bindings)?;
    match found {
        None => put_write(&mut scratch.terms, bindings, head),
        Some(line) => {
            if are_fields(placing.once, &line.fields, &head.packed) {
                fill_line(placing, scratch, line, head)
            } else {
                put_write(&mut scratch.terms, bindings, head)
            }
        }
    }
}
