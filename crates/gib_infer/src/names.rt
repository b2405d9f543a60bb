//! What the names of a typed program are.

ghost use Rattle.std.specs.Prelude.{◌≡◌, ◌≤◌, ◌+◌, ℕ, List, None, Some, MatchOption, IfSome};
ghost use Rattle.gib_types.specs.Table.{fields_at, owner_at, numbers_from, constructors_of as all_of};
ghost use Rattle.gib_syntax.specs.{declared.exprs.Node.{Node as Expr}, Arena.{IsArmBelow, ArmsBelow}, Declarations.{number_of, function_named}};
ghost use Rattle.gib_core.specs.Inferring.{con_named, gives_type, first_constructor as first_of_arms, arm_for};
ghost use Rattle.gib_infer.specs.Made.{globals_in, arms_at, arm_at, one_of, scalar_one};

use gib_check::Typed;
use gib_syntax::{Arm, Ident, ResultTypes};
use gib_types::{ConId, Ty, TyId};

/// The constructor of a name.
pub fn constructor(typed: &Typed, name: Ident) -> ConId
    ensures { result.0 ≡ con_named (globals_in typed.now) name }
{
    match typed.constructor(name.name) {
        Some(con) => con,
        None => ConId(0),
    }
}

/// The types of a constructor's fields, in declared order.
pub fn fields_of(typed: &Typed, con: ConId) -> &[Ty]
    ensures { result.now ≡ fields_at (globals_in typed.now).table con.0 }
{
    typed.types().fields(con)
}

/// The type that a constructor belongs to.
pub fn owner_of(typed: &Typed, con: ConId) -> TyId
    ensures { result.0 ≡ owner_at (globals_in typed.now).table con.0 }
{
    typed.types().owner(con)
}

/// The first constructor of a type, and how many it has.
pub fn constructors_of(typed: &Typed, ty: TyId) -> (u32, u32)
    ensures all { numbers_from result.0 result.1 ≡ all_of (globals_in typed.now).table ty.0 }
    ensures few { result.0 + result.1 ≤ 200 }
{
    typed.types().constructors_of(ty)
}

/// The type of the one thing that the function of a name gives; None where it gives several parts.
pub fn result_of(typed: &Typed, name: Ident) -> Option<Ty>
    ensures { result ≡ one_of (gives_type (globals_in typed.now).table (function_named (globals_in typed.now).functions (number_of name))) }
{
    match typed.function(name.name) {
        Some(id) => match &typed.declaration(id).result {
            ResultTypes::One(name) => Some(typed.type_named(*name)),
            ResultTypes::Several(_) => None,
        },
        None => Some(Ty::Whole),
    }
}

/// The type of a scalar; None where it is none.
pub fn scalar_of(given: Option<Ty>) -> Option<Ty>
    ensures { result ≡ scalar_one given }
{
    match given {
        None => None,
        Some(Ty::Tree(_)) => None,
        Some(Ty::Whole) => given,
        Some(Ty::Truth) => given,
    }
}

/// The constructor of the first of these arms.
pub fn first_constructor(typed: &Typed, arms: &[Arm]) -> ConId
    ensures { (exprs : List Expr) → result.0 ≡ first_of_arms (arms_at typed.now exprs arms.now) }
{
    match arms {
        [] => ConId(0),
        [arm, ..] => constructor(typed, arm.constructor),
    }
}

/// The first arm of a constructor.
pub fn arm_of<'a>(typed: &Typed, arms: &'a [Arm], con: ConId) -> Option<&'a Arm>
    ensures first { (exprs : List Expr) → MatchOption result
        (arm_for (arms_at typed.now exprs arms.now) con.0 ≡ None)
        (λ arm. arm_for (arms_at typed.now exprs arms.now) con.0 ≡ Some (arm_at typed.now exprs arm.now)) }
    ensures below { (id : ℕ) → ArmsBelow arms.now id → IfSome result (λ arm. IsArmBelow id arm.now) }
{
    let mut left = arms;
    'arms: while let [arm, after @ ..] = left {
        if constructor(typed, arm.constructor).0 == con.0 {
            return Some(arm);
        }
        left = after;
    }
    None
}
