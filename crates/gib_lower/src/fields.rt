//! The packed fields of the arms around a term.

ghost use Rattle.std.specs.Prelude.{◌≡◌, ◌<◌, ◌≤◌, ◌+◌, [], ◌∷◌, ℕ, List, length, MatchOption, OnOk};
ghost use Rattle.gib_code.specs.Instruction.{First};
ghost use Rattle.gib_core.specs.Low.{Field, field_of, first_reach, further_fields, with_fields};

use crate::stack::Stack;
use gib_base::Memory;
use gib_core::Variable;
use gib_types::Ty;
use std::marker::Model;

/// A packed field: its variable, the slot of the case, and where in the head its address is stored.
#[derive(Clone, Copy)]
pub(crate) struct StoredField {
    pub variable: u32,
    pub tree: u32,
    pub place: u8,
}

impl Model for StoredField {
    ghost Value = { Field };

    ghost view = { λ f. record { variable = f.variable; tree = f.tree; place = f.place } };

    ghost inverse = { λ f. record { variable = f.variable; tree = f.tree; place = f.place } };
}

/// The packed fields of the arms around a term, the newest last.
pub(crate) type Fields = Stack<StoredField>;

/// The newest field of this variable; of no field, the place 0 of the slot 0.
pub(crate) fn field_of(fields: &Fields, variable: u32) -> StoredField
    ensures { result ≡ field_of fields.now variable }
{
    let items = fields.as_slice();
    let mut i = items.len();
    'items: while i > 0 {
        i -= 1;
        let field = items[i];
        if field.variable == variable {
            return field;
        }
    }
    StoredField {
        variable,
        tree: 0,
        place: 0,
    }
}

/// The first packed field of an arm, with the types and the variables of the fields behind it.
#[derive(Clone, Copy)]
pub(crate) struct FirstPacked<'a> {
    pub variable: Variable,
    pub types: &'a [Ty],
    pub variables: &'a [Variable],
}

/// The first packed field of an arm; none where all its fields are scalars.
pub(crate) fn first_packed<'a>(
    mut types: &'a [Ty],
    mut variables: &'a [Variable],
) -> Option<FirstPacked<'a>>
    ensures reached { (x size : ℕ) → MatchOption result (first_reach x size types.entry.now variables.entry.now ≡ [])
        (λ f. first_reach x size types.entry.now variables.entry.now ≡ First f.variable.0 x size ∷ []) }
    ensures behind { (x : ℕ) (fs : List Field) → MatchOption result (with_fields x types.entry.now variables.entry.now fs ≡ fs)
        (λ f. with_fields x types.entry.now variables.entry.now fs ≡ further_fields x 1 f.types.now f.variables.now fs) }
    ensures further { (x p : ℕ) (fs : List Field) → MatchOption result (further_fields x p types.entry.now variables.entry.now fs ≡ fs)
        (λ f. further_fields x p types.entry.now variables.entry.now fs
        ≡ further_fields x (p + 8) f.types.now f.variables.now (record { variable = f.variable.0; tree = x; place = p } ∷ fs)) }
    ensures fewer { MatchOption result (Unit {0}) (λ f. length f.types.now < length types.entry.now) }
{
    'types: while let [ty, types_after @ ..] = types {
        match variables {
            [] => return None,
            [variable, after @ ..] => {
                match ty {
                    Ty::Whole => {}
                    Ty::Truth => {}
                    Ty::Tree(_) => {
                        return Some(FirstPacked {
                            variable: *variable,
                            types: types_after,
                            variables: after,
                        });
                    }
                }
                types = types_after;
                variables = after;
            }
        }
    }
    None
}

/// The packed fields behind the first one come into scope.
fn add_further(fields: &mut Fields, tree: u32, first: &FirstPacked<'_>) -> Result<(), Memory>
    requires { length first.now.types.now ≤ 8 }
    ensures { OnOk result (fields.new ≡ further_fields tree 1 first.now.types.now first.now.variables.now fields.old) }
{
    let mut place = 1u8;
    let mut types_left = first.types;
    let mut left = first.variables;
    'fields: while let Some(field) = first_packed(types_left, left) {
        fields.add(StoredField {
            variable: field.variable.0,
            tree,
            place,
        })?;
        place += 8;
        types_left = field.types;
        left = field.variables;
    }
    Ok(())
}

/// The packed fields of an arm come into scope.
pub(crate) fn enter(
    fields: &mut Fields,
    tree: u32,
    types: &[Ty],
    variables: &[Variable],
) -> Result<(), Memory>
    requires { length types.now ≤ 8 }
    ensures { OnOk result (fields.new ≡ with_fields tree types.now variables.now fields.old) }
{
    match first_packed(types, variables) {
        None => Ok(()),
        Some(first) => add_further(fields, tree, &first),
    }
}
