//! A line that fills a head is laid anew, with the fields placed that can be.

ghost use Rattle.std.specs.Prelude.{◌≡◌, ◌≤◌, ◌+◌, ◌++◌, ◌&&◌, ℕ, List, map, length, IfOk, OnOk};
ghost use Rattle.gib_core.specs.{Tree.{Term}, Inferring.{as_atoms}, Reaching.{is_variable as is_this}, declared.atom.Variable.{Variable as X}};
ghost use Rattle.gib_place.specs.{declared.field.Field.{Field as Pointing}, Placing.{are_fields as name_fields}};
ghost use Rattle.gib_place.specs.Filled.{once_by, ArePointing, AreLate, Opens, Puts, LaysSpot, Lays, LaysLine, IsLineOf};

use crate::field::Field;
use crate::line::{Laid, Line, Spot};
use crate::placing::Placing;
use crate::spots::{Moment, is_variable, spot_of};
use crate::times::bind_run;
use gib_base::Memory;
use gib_core::{Atom, Binding, Clock, Tally, Variable};
use std::alloc::{AllocError, Global};

/// The variables of fields behind others.
fn extend_standing(standing: &mut Vec<Variable>, fields: &[Field]) -> Result<(), Memory>
    ensures { OnOk result (standing.new.items ≡ standing.old.items ++ map (λ (f : Pointing). f.variable) fields.now) }
{
    let mut i = 0;
    'fields: while i < fields.len() {
        standing.push(fields[i].variable)?;
        i += 1;
    }
    Ok(())
}

/// Variables as atoms.
pub fn atoms_of(alloc: Global, variables: &[Variable]) -> Result<Vec<Atom>, Memory>
    ensures { IfOk result (λ atoms. atoms.items ≡ as_atoms variables.now) }
{
    let mut atoms = Vec::new(alloc);
    let mut left = variables;
    'variables: while let [x, after @ ..] = left {
        atoms.push(Atom::Variable(*x))?;
        left = after;
    }
    Ok(atoms)
}

/// The room for the head is put, where it was not yet.
fn open_head(laid: &mut Laid, line: &Line) -> Result<(), Memory>
    ensures { OnOk result (Opens line.now laid.old laid.new) }
{
    if !laid.is_open {
        laid.bindings.push(Binding::Past {
            head: line.head,
            constructor: line.constructor,
        })?;
        laid.is_open = true;
    }
    Ok(())
}

/// So many of the fields that are left are put.
fn put_fields(laid: &mut Laid, line: &Line, count: usize) -> Result<(), Memory>
    requires inside { laid.old.used + count ≤ length line.now.fields.items }
    requires pointing { length line.now.pointing.items ≡ length line.now.fields.items }
    ensures { OnOk result (Puts line.now count laid.old laid.new) }
{
    let end = laid.used + count;
    laid.bindings
        .extend_from_slice(&line.pointing[laid.used..end])?;
    extend_standing(&mut laid.standing, &line.fields[laid.used..end])?;
    laid.used = end;
    Ok(())
}

/// A binding is placed behind what was laid.
fn lay_spot(laid: &mut Laid, line: &Line, spot: Spot) -> Result<(), Memory>
    requires before { laid.old.used + spot.before ≤ length line.now.fields.items }
    requires used { laid.old.used + spot.used ≤ length line.now.fields.items }
    requires pointing { length line.now.pointing.items ≡ length line.now.fields.items }
    ensures { OnOk result (LaysSpot line.now spot laid.old laid.new) }
{
    let used = laid.used + spot.used;
    open_head(laid, line)?;
    put_fields(laid, line, spot.before)?;
    laid.bindings.push(spot.binding)?;
    laid.standing.push(spot.first)?;
    if let Some(second) = spot.second {
        laid.standing.push(second)?;
    }
    laid.used = used;
    Ok(())
}

/// A binding is laid: where it can be placed it is, else it stays.
fn lay_binding(laid: &mut Laid, line: &Line, at: &Moment, binding: Binding) -> Result<(), Memory>
    requires used { laid.old.used ≤ length line.now.fields.items }
    requires pointing { length line.now.pointing.items ≡ length line.now.fields.items }
    ensures lays { OnOk result ((f : ℕ → Term) (n : ℕ) (late : List X) → ArePointing f n line.now.pointing.items line.now.fields.items → AreLate at.now.times.now at.now.time late → Lays f n (once_by at.now.once.now) late line.now laid.old laid.new binding) }
    ensures used { OnOk result (laid.new.used ≤ length line.now.fields.items) }
{
    match spot_of(at, binding, &line.fields[laid.used..]) {
        None => {
            laid.bindings.push(binding)?;
            Ok(())
        }
        Some(spot) => lay_spot(laid, line, spot),
    }
}

/// A line that fills a head, with the fields placed that can be.
pub fn lay(placing: &Placing, times: &mut Clock, line: &Line) -> Result<Laid, Memory>
    requires { length line.now.pointing.items ≡ length line.now.fields.items }
    ensures { IfOk result (λ laid. (f : ℕ → Term) (n : ℕ) → IsLineOf f n line.now → LaysLine f n (once_by placing.now.once.now) line.now laid) }
{
    let mut time = bind_run(times, &line.run)?;
    let mut laid = Laid {
        bindings: Vec::new(placing.alloc),
        standing: Vec::new(placing.alloc),
        is_open: false,
        used: 0,
    };
    let mut i = 0;
    'run: while i < line.run.len() {
        let Some(next) = time.checked_add(1) else {
            return Err(AllocError);
        };
        time = next;
        let at = Moment {
            once: placing.once,
            times: &*times,
            time,
        };
        lay_binding(&mut laid, line, &at, line.run[i])?;
        i += 1;
    }
    open_head(&mut laid, line)?;
    let count = line.fields.len() - laid.used;
    put_fields(&mut laid, line, count)?;
    Ok(laid)
}

/// Whether an atom of a head is the variable of a field that nothing else uses.
fn names_field(once: &Tally, field: Field, atom: Atom) -> bool
    ensures { result ≡ (is_this field.variable atom && once_by once.now field.variable) }
{
    is_variable(field.variable, atom) && once.is_once(field.variable)
}

/// Whether a head names the fields in their order, and nothing else uses them.
pub fn are_fields(once: &Tally, fields: &[Field], packed: &[Atom]) -> bool
    ensures { result ≡ name_fields (once_by once.now) fields.now packed.now }
{
    let mut fields_left = fields;
    let mut left = packed;
    'fields: while let [field, fields_after @ ..] = fields_left {
        match left {
            [] => return false,
            [atom, after @ ..] => {
                if !names_field(once, *field, *atom) {
                    return false;
                }
                fields_left = fields_after;
                left = after;
            }
        }
    }
    left.is_empty()
}
