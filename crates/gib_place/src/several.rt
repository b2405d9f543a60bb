//! Variables one behind another, from a first one on.

ghost use Rattle.std.specs.Prelude.{◌≡◌, ◌+◌, IfOk, OnOk};
ghost use Rattle.gib_core.specs.{PartTypes.{types_in}, Rules.{is_among}, Tree.{variables_from}};
ghost use Rattle.gib_place.specs.Late.{NotesAll, side_variables};

use gib_base::Memory;
use gib_core::{BoundSide, Clock, PartTypes, Variable};
use std::alloc::AllocError;

/// The variable so many behind a first one.
///
/// # Errors
///
/// There is no number for it.
pub fn variable_behind(first: Variable, count: usize) -> Result<Variable, Memory>
    ensures { IfOk result (λ x. x.0 ≡ first.0 + count) }
{
    let Ok(count) = u32::try_from(count) else {
        return Err(AllocError);
    };
    match first.0.checked_add(count) {
        Some(number) => Ok(Variable(number)),
        None => Err(AllocError),
    }
}

/// Whether a variable is one of as many as there are types.
fn is_one_of(first: Variable, types: PartTypes, y: Variable) -> bool
    ensures { result ≡ is_among (variables_from first.0 (types_in types)) y }
{
    match y.0.checked_sub(first.0) {
        Some(distance) => (distance as usize) < types.len(),
        None => false,
    }
}

/// Whether a side binds a variable.
pub fn binds(side: BoundSide, y: Variable) -> bool
    ensures { result ≡ is_among (side_variables side) y }
{
    match side {
        BoundSide::One(side) => side.variable.0 == y.0,
        BoundSide::Several(side) => is_one_of(side.first, side.types, y),
    }
}

/// As many variables are noted as there are types.
fn note_all(times: &mut Clock, first: Variable, types: PartTypes) -> Result<(), Memory>
    ensures { OnOk result (NotesAll times.old times.new (variables_from first.0 (types_in types))) }
{
    let mut i = 0;
    'variables: while i < types.len() {
        let x = variable_behind(first, i)?;
        times.note(x)?;
        i += 1;
    }
    Ok(())
}

/// The variables of a side are noted.
pub fn note_side(times: &mut Clock, side: BoundSide) -> Result<(), Memory>
    ensures { OnOk result (NotesAll times.old times.new (side_variables side)) }
{
    match side {
        BoundSide::One(side) => times.note(side.variable),
        BoundSide::Several(side) => note_all(times, side.first, side.types),
    }
}
