//! Where the types of expressions come from.

ghost use Rattle.std.specs.Prelude.{◌≡◌, ◌≤◌, ◌⊎◌};
ghost use Rattle.gib_check.specs.Origins as origin;

use gib_base::Name;
use gib_syntax::Ident;
use gib_types::Ty;

/// Where the type of an expression comes from. It does not depend on where the expression stands, so that
/// one number may stand at several places of a program.
#[derive(Clone, Copy, PartialEq, Eq)]
pub enum TypeOrigin {
    /// This type, whatever is in scope.
    Fixed(Ty),
    /// The type that this variable has in scope.
    Variable(Name),
}

/// Where a type comes from, seen from outside of the binding of a variable.
pub fn outside(x: Ident, bound: TypeOrigin, body: TypeOrigin) -> TypeOrigin
    ensures { result ≡ origin.outside x bound body }
{
    match body {
        TypeOrigin::Fixed(_) => body,
        TypeOrigin::Variable(y) => { if x.name.0 == y.0 { bound } else { body } }
    }
}

/// The lesser of two numbers.
fn least(a: usize, b: usize) -> usize
    ensures is_one { (result ≡ a) ⊎ (result ≡ b) }
    ensures first { result ≤ a }
    ensures second { result ≤ b }
{
    if a < b { a } else { b }
}

/// Where a type comes from, seen from outside of an arm.
pub fn outside_arm(variables: &[Ident], fields: &[Ty], body: TypeOrigin) -> TypeOrigin
    ensures { result ≡ origin.outside_arm variables.now fields.now body }
{
    let mut origin = body;
    let mut place = least(variables.len(), fields.len());
    'variables: while place > 0 {
        place -= 1;
        origin = outside(variables[place], TypeOrigin::Fixed(fields[place]), origin);
    }
    origin
}
