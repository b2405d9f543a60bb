//! The stacks of the machine: variables, and values of finished parts.

ghost use Rattle.std.specs.Prelude.{◌≡◌, ◌≤◌, ◌++◌, ℕ, List, length, map, drop, if◌then◌else◌, is_ok};
ghost use Rattle.std.specs.List.{AllByRecursion};
ghost use Rattle.gib_types.specs.Tree.{Datum};
ghost use Rattle.gib_value.specs.Heap.{value_of, IsWithin};
ghost use Rattle.gib_syntax.specs.Meaning.{bind, bind_results, parts, value_in, names_of};
ghost use Rattle.gib_plain.specs.{Running.{value_at}, Stacks.{cut, bindings_of, env_of, Adds, IsBound}};

use gib_base::{Memory, Name};
use gib_syntax::{Ident, Parameter};
use gib_value::{Heap, Node};
use std::alloc::AllocError;

/// A variable in scope, with its value.
#[derive(Clone, Copy)]
pub struct Binding {
    pub name: Name,
    pub value: Node,
}

/// The value at a place, 0 where there is none.
pub fn node_at(nodes: &[Node], at: usize) -> Node
    ensures value { (heap : List Datum) → value_of heap result ≡ value_at (map (value_of heap) nodes.now) at }
    ensures within { (n : ℕ) → AllByRecursion (IsWithin n) nodes.now → IsWithin n result }
{
    if at < nodes.len() {
        nodes[at]
    } else {
        Node::Whole(0)
    }
}

/// The nodes from one place to another.
pub fn between(nodes: &[Node], from: usize, to: usize) -> &[Node]
    requires start { from ≤ to }
    requires end { to ≤ length nodes.now }
    ensures { result.now ≡ cut nodes.now from to }
{
    let (front, _) = nodes.split_at(to);
    let (_, found) = front.split_at(from);
    found
}

/// Binds these names to these values, as far as both go; where memory runs out nothing changes.
pub fn push_bindings(
    vars: &mut Vec<Binding>,
    names: &[Ident],
    values: &[Node],
) -> Result<(), Memory>
    ensures { vars.new.items ≡ (if is_ok result then vars.old.items ++ bindings_of names.now values.now else vars.old.items) }
{
    let start = vars.len();
    let mut i = 0;
    'names: while i < names.len() && i < values.len() {
        let binding = Binding {
            name: names[i].name,
            value: values[i],
        };
        if vars.push(binding).is_err() {
            vars.truncate(start);
            return Err(AllocError);
        }
        i += 1;
    }
    Ok(())
}

/// Binds the names of parameters to these values, as `push_bindings` does.
pub fn push_parameters(
    vars: &mut Vec<Binding>,
    parameters: &[Parameter],
    values: &[Node],
) -> Result<(), Memory>
    ensures { vars.new.items ≡ (if is_ok result then vars.old.items ++ bindings_of (names_of parameters.now) values.now else vars.old.items) }
{
    let start = vars.len();
    let mut i = 0;
    'parameters: while i < parameters.len() && i < values.len() {
        let binding = Binding {
            name: parameters[i].name.name,
            value: values[i],
        };
        if vars.push(binding).is_err() {
            vars.truncate(start);
            return Err(AllocError);
        }
        i += 1;
    }
    Ok(())
}

/// Binds variables to the parts of a value, as `push_parameters` does.
fn push_parts(
    vars: &mut Vec<Binding>,
    heap: &Heap,
    parameters: &[Parameter],
    value: Node,
) -> Result<(), Memory>
    requires { IsWithin (length heap.now) value }
    ensures { Adds result heap.now vars.old.items vars.new.items (bind (names_of parameters.now) (parts (value_of heap.now value))) }
{
    match value {
        Node::Whole(_) => Ok(()),
        Node::Truth(_) => Ok(()),
        Node::Con { count, first, .. } => {
            push_parameters(vars, parameters, heap.fields(first, count))
        }
    }
}

/// Binds one variable to a value, any other number of them to its parts, as far as both go; where memory runs out nothing
/// changes.
pub fn push_results(
    vars: &mut Vec<Binding>,
    heap: &Heap,
    parameters: &[Parameter],
    value: Node,
) -> Result<(), Memory>
    requires { IsWithin (length heap.now) value }
    ensures { Adds result heap.now vars.old.items vars.new.items (bind_results (names_of parameters.now) (value_of heap.now value)) }
{
    if parameters.len() == 1 {
        push_parameters(vars, parameters, &[value])
    } else {
        push_parts(vars, heap, parameters, value)
    }
}

/// The value of the newest variable of a name among those from a place on, 0 where there is none.
pub fn newest(vars: &[Binding], base: usize, name: Name) -> Node
    requires { base ≤ length vars.now }
    ensures value { (heap : List Datum) → value_of heap result ≡ value_in (env_of heap (drop base vars.now)) name.0 }
    ensures within { (n : ℕ) → AllByRecursion (IsBound n) vars.now → IsWithin n result }
{
    let mut i = vars.len();
    'vars: while i > base {
        i -= 1;
        if vars[i].name.0 == name.0 {
            return vars[i].value;
        }
    }
    Node::Whole(0)
}
