//! The order in which a constructor's arguments are evaluated, and back to the declared one.

ghost use Rattle.std.specs.Prelude.{◌≡◌, ◌+◌, ◌≤◌, length, drop, slice_get, Some, OnOk, MatchResult};
ghost use Rattle.gib_types.specs.Table.{at_fields};
ghost use Rattle.gib_plain.specs.Turns.{in_turn, in_place, scalars_among as scalar_count};

use gib_base::Memory;
use gib_syntax::ExprId;
use gib_types::Ty;
use gib_value::Node;

/// The argument at a place among those at scalar fields, or at packed ones; where there are fewer, how far past
/// them the place is.
fn nth_at(
    scalars: bool,
    mut types: &[Ty],
    mut arguments: &[ExprId],
    mut at: usize,
) -> Result<ExprId, usize>
    ensures { MatchResult result
        (λ argument. slice_get (at_fields scalars types.entry.now arguments.entry.now) at ≡ Some argument)
        (λ past. at ≡ length (at_fields scalars types.entry.now arguments.entry.now) + past) }
{
    'arguments: while let [argument, after @ ..] = arguments {
        match types {
            [] => return Err(at),
            [ty, types_after @ ..] => {
                if ty.is_scalar() == scalars {
                    if at == 0 {
                        return Ok(*argument);
                    }
                    at -= 1;
                }
                types = types_after;
                arguments = after;
            }
        }
    }
    Err(at)
}

/// The argument at a place behind so many.
fn nth_behind(count: usize, arguments: &[ExprId], at: usize) -> Option<ExprId>
    ensures { result ≡ slice_get (drop count arguments.now) at }
{
    if count >= arguments.len() {
        return None;
    }
    let (_, rest) = arguments.split_at(count);
    if at < rest.len() {
        Some(rest[at])
    } else {
        None
    }
}

/// The argument that is evaluated at a place in turn, where the fields have these types.
pub fn argument_at(types: &[Ty], arguments: &[ExprId], at: usize) -> Option<ExprId>
    ensures { result ≡ slice_get (in_turn types.now arguments.now) at }
{
    match nth_at(true, types, arguments, at) {
        Ok(argument) => Some(argument),
        Err(past) => match nth_at(false, types, arguments, past) {
            Ok(argument) => Some(argument),
            Err(further) => nth_behind(types.len(), arguments, further),
        },
    }
}

/// How many of the first so many fields are scalars.
fn scalars_among(types: &[Ty], count: usize) -> usize
    ensures value { result ≡ scalar_count types.now count }
    ensures few { result ≤ count }
{
    let mut rest = types;
    let mut left = count;
    let mut found = 0;
    'types: while let [ty, after @ ..] = rest {
        if left == 0 {
            return found;
        }
        if ty.is_scalar() {
            found += 1;
        }
        rest = after;
        left -= 1;
    }
    found
}

/// Puts values that were made in turn, where the fields have these types, in declared order.
///
/// # Errors
///
/// Want of memory.
pub fn put_in_place(placed: &mut Vec<Node>, types: &[Ty], values: &[Node]) -> Result<(), Memory>
    ensures { OnOk result (placed.new.items ≡ in_place types.now values.now) }
{
    placed.clear();
    let (scalars, others) = values.split_at(scalars_among(types, values.len()));
    let mut rest_types = types;
    let mut rest_scalars = scalars;
    let mut rest = others;
    'types: while let [ty, types_after @ ..] = rest_types {
        rest_types = types_after;
        if ty.is_scalar() {
            if let [value, after @ ..] = rest_scalars {
                placed.push(*value)?;
                rest_scalars = after;
            }
        } else if let [value, after @ ..] = rest {
            placed.push(*value)?;
            rest = after;
        }
    }
    placed.extend_from_slice(rest)?;
    Ok(())
}
