//! What the rules ask of types and constructors. A core may name constructors and types that its table does
//! not have.

ghost use Rattle.std.specs.Prelude.{◌≡◌, length, get_or};
ghost use Rattle.gib_types.specs.{Table.{tree_types}, declared.table.Ty.TheVariants.{Whole}};
ghost use Rattle.gib_core.specs.Rules.{is_of_type as of_type, is_declared as declared, are_declared as all_declared, same_types as same};

use gib_types::{ConId, Ty, TypeTable};

/// How many of these types are packed.
pub fn packed_count(types: &[Ty]) -> usize
    ensures { result ≡ length (tree_types types.now) }
{
    let mut count = 0;
    let mut left = types;
    'types: while let [ty, after @ ..] = left {
        if !ty.is_scalar() {
            count += 1;
        }
        left = after;
    }
    count
}

/// The packed type at a number among these types; where none is, `Int`.
pub fn packed_at(types: &[Ty], index: usize) -> Ty
    ensures { result ≡ get_or (tree_types types.now) index Whole }
{
    let mut before = index;
    let mut left = types;
    'types: while let [ty, after @ ..] = left {
        if !ty.is_scalar() {
            if before == 0 {
                return *ty;
            }
            before -= 1;
        }
        left = after;
    }
    Ty::Whole
}

/// Whether types are these, as many as there are.
pub fn same_types(types: &[Ty], others: &[Ty]) -> bool
    ensures { result ≡ same types.now others.now }
{
    let mut left = types;
    let mut others_left = others;
    'types: while let [ty, after @ ..] = left {
        match others_left {
            [] => return false,
            [other, others_after @ ..] => {
                if !ty.is(*other) {
                    return false;
                }
                others_left = others_after;
                left = after;
            }
        }
    }
    others_left.is_empty()
}

/// Whether a type is declared, or a scalar.
fn is_declared(types: &TypeTable, ty: Ty) -> bool
    ensures { result ≡ declared types.now ty }
{
    match ty {
        Ty::Whole => true,
        Ty::Truth => true,
        Ty::Tree(id) => id.0 < types.type_count(),
    }
}

/// Whether all these types are declared, or scalars.
pub fn are_declared(types: &TypeTable, listed: &[Ty]) -> bool
    ensures { result ≡ all_declared types.now listed.now }
{
    let mut left = listed;
    'types: while let [ty, after @ ..] = left {
        if !is_declared(types, *ty) {
            return false;
        }
        left = after;
    }
    true
}

/// Whether the constructor is one of the type.
pub fn is_of_type(types: &TypeTable, constructor: ConId, ty: Ty) -> bool
    ensures { result ≡ of_type types.now constructor ty }
{
    match ty {
        Ty::Whole => false,
        Ty::Truth => false,
        Ty::Tree(id) => constructor.0 < types.len() && types.type_of(constructor).0 == id.0,
    }
}
