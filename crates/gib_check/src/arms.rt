//! The arms of a `case`, before their expressions are looked at.

ghost use Rattle.std.specs.Prelude.{◌≡◌, map, is_some};
ghost use Rattle.std.specs.List.{list_all};
ghost use Rattle.gib_syntax.specs.{Declarations.{place_of}, GenericParts.{GenericParts}};
ghost use Rattle.gib_check.specs.{Answers.{Gives}, NameViews.{generic_globals, row_in}, Judging.{arm_head}};
ghost use Rattle.gib_check.specs.Faults as rule;

use crate::fault::{Kind, TypeFault};
use crate::named::{Named, RowDecl};
use crate::rules::{as_many, broken};
use gib_base::{Name, Span};
use gib_syntax::Arm;

/// How many fields the constructor of a name has, none where it is not declared.
fn field_count(named: &Named, name: Name) -> usize
    ensures { result ≡ rule.field_count (rule.row_named (generic_globals named.now).rows name.0) }
{
    match named.row(name) {
        Some(row) => row.count,
        None => 0,
    }
}

/// Whether the constructor of a name is of the type.
fn is_of(named: &Named, name: Name, ty: u32) -> bool
    ensures { result ≡ rule.is_of ty (rule.row_named (generic_globals named.now).rows name.0) }
{
    match named.row(name) {
        Some(row) => row.owner.0 == ty,
        None => false,
    }
}

/// The constructor of each arm is declared.
pub fn all_declared(named: &Named, arms: &[Arm]) -> Result<(), TypeFault>
    ensures { Gives (λ _. tt {0}) result (rule.all_declared (generic_globals named.now).rows (map arm_head arms.now)) }
{
    let mut rest = arms;
    'arms: while let [arm, after @ ..] = rest {
        named.constructor(arm.constructor)?;
        rest = after;
    }
    Ok(())
}

/// Each arm has as many variables as its constructor has fields.
pub fn all_counted(named: &Named, arms: &[Arm]) -> Result<(), TypeFault>
    ensures { Gives (λ _. tt {0}) result (rule.all_counted (generic_globals named.now).rows (map arm_head arms.now)) }
{
    let mut rest = arms;
    'arms: while let [arm, after @ ..] = rest {
        as_many(
            arm.variables.len(),
            field_count(named, arm.constructor.name),
            arm.constructor,
        )?;
        rest = after;
    }
    Ok(())
}

/// Whether the constructors of all arms are of the type.
fn all_own(named: &Named, ty: u32, arms: &[Arm]) -> bool
    ensures { result ≡ list_all (λ k. rule.is_of ty (rule.row_named (generic_globals named.now).rows k)) (rule.head_names (map arm_head arms.now)) }
{
    let mut rest = arms;
    'arms: while let [arm, after @ ..] = rest {
        if !is_of(named, arm.constructor.name, ty) {
            return false;
        }
        rest = after;
    }
    true
}

/// Whether an arm has the constructor of a name.
fn is_among(arms: &[Arm], name: Name) -> bool
    ensures { result ≡ is_some (place_of (rule.head_names (map arm_head arms.now)) name.0) }
{
    let mut rest = arms;
    'arms: while let [arm, after @ ..] = rest {
        if arm.constructor.name.0 == name.0 {
            return true;
        }
        rest = after;
    }
    false
}

/// Whether no two arms have one constructor.
fn are_different(arms: &[Arm]) -> bool
    ensures { result ≡ rule.are_different (rule.head_names (map arm_head arms.now)) }
{
    let mut rest = arms;
    'arms: while let [arm, after @ ..] = rest {
        if is_among(after, arm.constructor.name) {
            return false;
        }
        rest = after;
    }
    true
}

/// Whether a constructor is of another type, or has an arm.
fn is_there(ty: u32, arms: &[Arm], row: RowDecl) -> bool
    ensures { (parts : GenericParts) → result ≡ rule.is_there ty (rule.head_names (map arm_head arms.now)) (row_in parts row) }
{
    if row.owner.0 == ty {
        is_among(arms, row.name)
    } else {
        true
    }
}

/// Whether each constructor of the type has an arm.
fn all_there(named: &Named, ty: u32, arms: &[Arm]) -> bool
    ensures { result ≡ list_all (rule.is_there ty (rule.head_names (map arm_head arms.now))) (generic_globals named.now).rows }
{
    let mut rest = named.rows();
    'constructors: while let [row, after @ ..] = rest {
        if !is_there(ty, arms, *row) {
            return false;
        }
        rest = after;
    }
    true
}

/// Whether the arms are those of the type.
fn covers(named: &Named, ty: u32, arms: &[Arm]) -> bool
    ensures { result ≡ rule.covers (generic_globals named.now).rows ty (rule.head_names (map arm_head arms.now)) }
{
    if !all_own(named, ty, arms) {
        return false;
    }
    if !are_different(arms) {
        return false;
    }
    all_there(named, ty, arms)
}

/// The arms are those of the type.
pub fn covered(named: &Named, ty: u32, arms: &[Arm], at: Span) -> Result<(), TypeFault>
    ensures { Gives (λ _. tt {0}) result (rule.covered (generic_globals named.now).rows ty (rule.head_names (map arm_head arms.now)) at) }
{
    if covers(named, ty, arms) {
        Ok(())
    } else {
        Err(broken(Kind::Arms, at))
    }
}
