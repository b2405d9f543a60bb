//! The operators of the language, in programs, in cores and in code alike.

ghost use Rattle.std.specs.Prelude.{◌≡◌};
ghost use Rattle.gib_types.specs.Operators.{operator_type};

use crate::table::Ty;

/// The operators: `+`, `-`, `*`, `==`, `<`, `quot` and `rem`.
#[derive(Clone, Copy, PartialEq, Eq)]
pub enum Operator {
    Add,
    Subtract,
    Multiply,
    Equal,
    Less,
    /// The quotient, cut towards zero.
    Quotient,
    /// What is left of that quotient: it has the sign of the left operand.
    Remainder,
}

impl Operator {
    /// The type of what the operator gives.
    pub fn result(self) -> Ty
        ensures { result ≡ operator_type self }
    {
        match self {
            Operator::Add => Ty::Whole,
            Operator::Subtract => Ty::Whole,
            Operator::Multiply => Ty::Whole,
            Operator::Equal => Ty::Truth,
            Operator::Less => Ty::Truth,
            Operator::Quotient => Ty::Whole,
            Operator::Remainder => Ty::Whole,
        }
    }
}
