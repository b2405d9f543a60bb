//! The types of fields, and what stands at scalar or packed ones.

ghost use Rattle.std.specs.Prelude.{◌≡◌, IfOk};
ghost use Rattle.gib_types.specs.Table.{at_fields, first_type as first, further_types as further};

use crate::Ty;
use gib_base::Memory;
use std::alloc::Global;

/// The first of these types; of none, `Int`.
pub fn first_type(types: &[Ty]) -> Ty
    ensures { result ≡ first types.now }
{
    match types {
        [] => Ty::Whole,
        [ty, ..] => *ty,
    }
}

/// The types behind the first one.
pub fn further_types(types: &[Ty]) -> &[Ty]
    ensures { result.now ≡ further types.now }
{
    match types {
        [] => types,
        [_, rest @ ..] => rest,
    }
}

/// The items at the scalar fields, or at the packed ones, among fields of these types.
///
/// # Errors
///
/// Want of memory.
pub fn items_at<T: Copy + Drop>(
    alloc: Global,
    scalars: bool,
    types: &[Ty],
    items: &[T],
) -> Result<Vec<T>, Memory>
    ensures { IfOk result (λ selected. selected.items ≡ at_fields scalars types.now items.now) }
{
    let mut selected = Vec::new(alloc);
    let mut rest_types = types;
    let mut rest = items;
    'items: while let [item, after @ ..] = rest {
        match rest_types {
            [] => return Ok(selected),
            [ty, types_after @ ..] => {
                if ty.is_scalar() == scalars {
                    selected.push(*item)?;
                }
                rest_types = types_after;
                rest = after;
            }
        }
    }
    Ok(selected)
}
