//! Several atoms or variables at once.

ghost use Rattle.std.specs.Prelude.{◌≡◌, [], ◌∷◌, IfOk};
ghost use Rattle.gib_types.specs.Table.{scalar_types};
ghost use Rattle.gib_core.specs.Rules.{all_usable as usable, any_other as other, have_types as typed, are_variables as variables_are, any_cased as cased_in, further as further_in, any_bound as bound_again};
ghost use Rattle.gib_loccheck.specs.Views.{in_scope, before_of};

use crate::state::{Walk, is_listed};
use gib_base::Memory;
use gib_core::{Atom, Variable};
use gib_types::Ty;

/// Whether all these atoms can be used here.
pub fn all_usable(walk: &Walk, atoms: &[Atom]) -> bool
    ensures { result ≡ usable (in_scope walk.now) atoms.now }
{
    atoms.iter().all(|atom| walk.is_usable(*atom))
}

/// Whether one of these atoms is the variable of another side.
pub fn any_other(walk: &Walk, atoms: &[Atom]) -> bool
    ensures { result ≡ other (in_scope walk.now) atoms.now }
{
    atoms.iter().any(|atom| walk.is_other(*atom))
}

/// Whether atoms have these types, as many as there are.
pub fn have_types(walk: &Walk, atoms: &[Atom], types: &[Ty]) -> bool
    ensures { result ≡ typed (before_of walk.now) atoms.now types.now }
{
    let mut left = atoms;
    let mut types_left = types;
    'atoms: while let [atom, after @ ..] = left {
        match types_left {
            [] => return false,
            [ty, types_after @ ..] => {
                if !walk.has_type(*atom, *ty) {
                    return false;
                }
                types_left = types_after;
                left = after;
            }
        }
    }
    types_left.is_empty()
}

/// Whether atoms have the types of the scalar ones among these fields, as many as there are.
pub fn have_scalar_types(walk: &Walk, atoms: &[Atom], fields: &[Ty]) -> bool
    ensures { result ≡ typed (before_of walk.now) atoms.now (scalar_types fields.now) }
{
    let mut left = atoms;
    let mut fields_left = fields;
    'fields: while let [ty, fields_after @ ..] = fields_left {
        if ty.is_scalar() {
            match left {
                [] => return false,
                [atom, after @ ..] => {
                    if !walk.has_type(*atom, *ty) {
                        return false;
                    }
                    left = after;
                }
            }
        }
        fields_left = fields_after;
    }
    match left {
        [] => true,
        [_, ..] => false,
    }
}

/// Whether atoms are these variables, as many as there are.
pub fn are_variables(variables: &[Variable], atoms: &[Atom]) -> bool
    ensures { result ≡ variables_are variables.now atoms.now }
{
    let mut left = variables;
    let mut atoms_left = atoms;
    'variables: while let [variable, after @ ..] = left {
        match atoms_left {
            [] => return false,
            [atom, atoms_after @ ..] => {
                if !is_variable(*variable, *atom) {
                    return false;
                }
                atoms_left = atoms_after;
                left = after;
            }
        }
    }
    atoms_left.is_empty()
}

/// Whether an atom is this variable.
fn is_variable(variable: Variable, atom: Atom) -> bool
    ensures { result ≡ variables_are (variable ∷ []) (atom ∷ []) }
{
    match atom {
        Atom::Variable(x) => variable.0 == x.0,
        Atom::Whole(_) => false,
        Atom::Truth(_) => false,
    }
}

/// Whether a `case` was on one of these variables.
pub fn any_cased(walk: &Walk, variables: &[Variable]) -> bool
    ensures { result ≡ cased_in (before_of walk.now).cased variables.now }
{
    variables.iter().any(|variable| walk.cased.has(*variable))
}

/// The variables behind the first one.
pub fn further(variables: &[Variable]) -> &[Variable]
    ensures { result.now ≡ further_in variables.now }
{
    match variables {
        [] => variables,
        [_, after @ ..] => after,
    }
}

/// Whether one of these variables was bound before, or is there twice.
pub fn any_bound(walk: &Walk, variables: &[Variable]) -> Result<bool, Memory>
    ensures { IfOk result (λ again. again ≡ bound_again variables.now [] (before_of walk.now).bound) }
{
    let mut seen = Vec::new(walk.alloc);
    let mut left = variables;
    'variables: while let [variable, after @ ..] = left {
        if walk.bound.has(*variable) || is_listed(&seen, *variable) {
            return Ok(true);
        }
        seen.push(*variable)?;
        left = after;
    }
    Ok(false)
}
