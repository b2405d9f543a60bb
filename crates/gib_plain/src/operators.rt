//! What operators make of values.

ghost use Rattle.std.specs.Prelude.{◌≡◌, ℕ, List, false};
ghost use Rattle.gib_types.specs.Tree.{Datum};
ghost use Rattle.gib_value.specs.Heap.{value_of, IsWithin};
ghost use Rattle.gib_syntax.specs.Meaning.{operate, is_by_zero, outcome, number_in, is_true};
ghost use Rattle.gib_plain.specs.{Running.{doing_for}, Machines.{doing_of, IsNowWithin}};

use crate::machine::Now;
use gib_types::{Operator, Reason};
use gib_value::Node;

/// The number that a value is, 0 where it is none.
pub fn number(value: Node) -> i64
    ensures { (heap : List Datum) → result ≡ number_in (value_of heap value) }
{
    match value {
        Node::Whole(number) => number,
        Node::Truth(_) => 0,
        Node::Con { .. } => 0,
    }
}

/// The truth value that a value is, false where it is none.
pub fn truth_of(value: Node) -> bool
    ensures { (heap : List Datum) → result ≡ is_true (value_of heap value) }
{
    match value {
        Node::Whole(_) => false,
        Node::Truth(is_true) => is_true,
        Node::Con { .. } => false,
    }
}

/// What comes next where an operator's parts are these: its value, or the end of the run where it divides by 0.
pub fn operated(operator: Operator, left: Node, right: Node) -> Now
    ensures value { (heap : List Datum) → doing_of heap result ≡ doing_for (outcome operator (number_in (value_of heap left)) (number_in (value_of heap right))) }
    ensures within { (n : ℕ) → IsNowWithin n result }
{
    let left = number(left);
    let right = number(right);
    if is_by_zero(operator, right) {
        return Now::Stop(Reason::Trap);
    }
    Now::Leave(applied(operator, left, right))
}

/// Whether an operator divides, and by 0.
fn is_by_zero(operator: Operator, right: i64) -> bool
    ensures { result ≡ is_by_zero operator right }
{
    match operator {
        Operator::Add
        | Operator::Subtract
        | Operator::Multiply
        | Operator::Equal
        | Operator::Less => false,
        Operator::Quotient | Operator::Remainder => right == 0,
    }
}

/// What an operator gives. The quotient of the least number by -1 wraps.
fn applied(operator: Operator, left: i64, right: i64) -> Node
    requires { is_by_zero operator right ≡ false }
    ensures value { (heap : List Datum) → value_of heap result ≡ operate operator left right }
    ensures within { (n : ℕ) → IsWithin n result }
{
    match operator {
        Operator::Add => Node::Whole(left.wrapping_add(right)),
        Operator::Subtract => Node::Whole(left.wrapping_sub(right)),
        Operator::Multiply => Node::Whole(left.wrapping_mul(right)),
        Operator::Equal => Node::Truth(left == right),
        Operator::Less => Node::Truth(left < right),
        Operator::Quotient => Node::Whole(left.wrapping_div(right)),
        Operator::Remainder => Node::Whole(left.wrapping_rem(right)),
    }
}
