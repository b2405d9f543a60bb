//! The fields of an arm, and how they are reached.

ghost use Rattle.std.specs.Prelude.{◌≡◌, ◌<◌, ◌≤◌, ◌∷◌, ◌++◌, length, IfOk, OnOk};
ghost use Rattle.std.specs.List.{list_any};
ghost use Rattle.gib_core.specs.{Arena.{Makes}, Reaching.{packed_variables as packed_of}};
ghost use Rattle.gib_core.specs.declared.node.Node.TheVariants as n;
ghost use Rattle.gib_core.specs.declared.node.Binding.TheVariants as b;
ghost use Rattle.gib_access.specs.{Used.{since, before_at as at_before, skips_by, offsets_by_use, reaches_by, offset_by}, Planned.{ends_at}, Made.{Fronts}};

use crate::planning::Planned;
use crate::stamps::is_used_since;
use crate::work::Work;
use gib_base::{Memory, Reversed};
use gib_core::{Access, AccessMode, Binding, Clock, Node, TermId, Terms, Variable};
use gib_types::{ConId, TypeTable, items_at};
use std::alloc::Global;

/// The variables of an arm's packed fields.
pub fn packed_variables(
    alloc: Global,
    types: &TypeTable,
    constructor: ConId,
    variables: &[Variable],
) -> Result<Vec<Variable>, Memory>
    ensures { IfOk result (λ packed. packed.items ≡ packed_of types.now constructor variables.now) }
{
    items_at(alloc, false, types.fields(constructor), variables)
}

/// What stands directly before the field of a number, where a first field stands before them all.
fn before_at(first: Variable, fields: &[Variable], number: usize) -> Variable
    requires { number ≤ length fields.now }
    ensures { result ≡ at_before first fields.now number }
{
    if number == 0 {
        first
    } else {
        fields[number - 1]
    }
}

/// A field is reached, in front of a term.
fn put_reach(
    terms: &mut Terms,
    field: Variable,
    access: Access,
    rest: TermId,
) -> Result<TermId, Memory>
    requires { rest.0 < length terms.old }
    ensures { IfOk result (λ made. Makes terms.old terms.new made.0 (n.Then (b.Reach field access) rest)) }
{
    terms.put(Node::Then(Binding::Reach { field, access }, rest))
}

/// In front of an arm's term each of the fields behind the first one is reached by a skip, up to the last
/// one that is used.
fn put_skips(
    terms: &mut Terms,
    stamps: &Clock,
    start: u64,
    first: Variable,
    fields: &[Variable],
    body: TermId,
) -> Result<TermId, Memory>
    requires { body.0 < length terms.old }
    ensures { IfOk result (λ made. Fronts terms.old terms.new made body (skips_by (since stamps.now start) first fields.now)) }
{
    let mut term = body;
    let mut wanted = false;
    let mut i = fields.len();
    'fields: while i > 0 {
        i -= 1;
        wanted = wanted || is_used_since(stamps, start, fields[i]);
        if wanted {
            let before = before_at(first, fields, i);
            term = put_reach(terms, fields[i], Access::Skip(before), term)?;
        }
    }
    Ok(term)
}

/// In front of an arm's term each of the fields behind the first one that is used is reached by its offset.
fn put_offsets(
    terms: &mut Terms,
    stamps: &Clock,
    start: u64,
    fields: &[Variable],
    body: TermId,
) -> Result<TermId, Memory>
    requires { body.0 < length terms.old }
    ensures { IfOk result (λ made. Fronts terms.old terms.new made body (offsets_by_use (since stamps.now start) fields.now)) }
{
    let mut term = body;
    let mut i = fields.len();
    'fields: while i > 0 {
        i -= 1;
        if is_used_since(stamps, start, fields[i]) {
            term = put_reach(terms, fields[i], Access::Offset, term)?;
        }
    }
    Ok(term)
}

/// In front of an arm's term its packed fields behind the first one are reached: by walks all of them, else these others by
/// their offsets.
pub fn put_reaches(
    mode: AccessMode,
    work: &mut Work,
    start: u64,
    packed: &[Variable],
    others: &[Variable],
    body: TermId,
) -> Result<TermId, Memory>
    requires { body.0 < length work.old.terms }
    ensures fronts { IfOk result (λ made. Fronts work.old.terms work.new.terms made body (reaches_by mode (since work.old.stamps start) packed.now others.now)) }
    ensures stamps { IfOk result (λ made. work.new.stamps ≡ work.old.stamps) }
    ensures offsets { IfOk result (λ made. work.new.offsets ≡ work.old.offsets) }
{
    let made = match packed {
        [] => body,
        [first, fields @ ..] => match mode {
            AccessMode::Skips => {
                put_skips(&mut work.terms, &work.stamps, start, *first, fields, body)?
            }
            AccessMode::Offsets | AccessMode::Ends => {
                put_offsets(&mut work.terms, &work.stamps, start, others, body)?
            }
        },
    };
    Ok(made)
}

/// In front of a term those fields are reached by ends whose place in the line is this one.
pub fn put_ends(
    terms: &mut Terms,
    ends: &[Planned],
    place: usize,
    body: TermId,
) -> Result<TermId, Memory>
    requires { body.0 < length terms.old }
    ensures { IfOk result (λ made. Fronts terms.old terms.new made body (ends_at place ends.now)) }
{
    let mut term = body;
    let mut i = ends.len();
    'fields: while i > 0 {
        i -= 1;
        let planned = ends[i];
        if planned.place == place {
            term = put_reach(terms, planned.field, Access::End(planned.before), term)?;
        }
    }
    Ok(term)
}

/// Whether one of these fields is used.
fn is_any_used(stamps: &Clock, start: u64, fields: &[Variable]) -> bool
    ensures { result ≡ list_any (since stamps.now start) fields.now }
{
    fields.iter().any(|x| is_used_since(stamps, start, *x))
}

/// Lists a constructor before the others, where one of these fields of its arm is used.
pub fn list_constructor(
    offsets: &mut Reversed<ConId>,
    stamps: &Clock,
    start: u64,
    constructor: ConId,
    fields: &[Variable],
) -> Result<(), Memory>
    ensures { OnOk result (offsets.new ≡ offset_by constructor (since stamps.now start) fields.now ++ offsets.old) }
{
    if is_any_used(stamps, start, fields) {
        offsets.put(constructor)
    } else {
        Ok(())
    }
}
