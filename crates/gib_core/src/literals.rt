//! The literals of a core are numbers of 64 bits.

ghost use Rattle.std.specs.Prelude.{◌<◌, ℕ, length};
ghost use Rattle.std.specs.List.{AllByRecursion};
ghost use Rattle.gib_core.specs.{Arena.{term_of}, Literals.{LiteralFits, LiteralsFit, BindingLiterals, NodeLiterals}};

use crate::atom::Atom;
use crate::node::{Binding, Node, Terms};

/// A literal is a number of 64 bits.
fn literal(atom: Atom)
    ensures { LiteralFits atom }
{
    match atom {
        Atom::Variable(_) => {}
        Atom::Whole(_) => {}
        Atom::Truth(_) => {}
    }
}

/// Literals are numbers of 64 bits.
fn literals(atoms: &[Atom])
    ensures { AllByRecursion LiteralFits atoms.now }
{
    let mut i = atoms.len();
    'atoms: while i > 0 {
        i -= 1;
        literal(atoms[i]);
    }
}

/// The literals of a binding itself are numbers of 64 bits.
fn binding(binding: &Binding)
    ensures { BindingLiterals binding.now }
{
    match binding {
        Binding::Past { .. } => {}
        Binding::One(_) => {}
        Binding::Par { .. } => {}
        Binding::Prim { left, right, .. } => {
            literal(*left);
            literal(*right);
        }
        Binding::Reach { .. } => {}
    }
}

/// The literals of a node itself are numbers of 64 bits.
fn node(node: &Node)
    ensures { NodeLiterals node.now }
{
    match node {
        Node::Then(bound, _) => binding(bound),
        Node::Write { scalars, .. } => literals(scalars),
        Node::Point(_) => {}
        Node::Call(_, arguments) => literals(arguments),
        Node::Give(atom) => literal(*atom),
        Node::Case { .. } => {}
        Node::If { .. } => {}
        Node::Tuple { scalars, .. } => literals(scalars),
    }
}

/// The literals of terms are numbers of 64 bits.
pub(crate) fn all_literals(terms: &Terms)
    ensures { (id : ℕ) → id < length terms.now → LiteralsFit (term_of terms.now id) }
{
    let mut index = 0;
    'terms: while index < terms.len() {
        node(terms.node_at(index));
        index += 1;
    }
}
