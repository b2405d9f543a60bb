//! Values that share their parts.

ghost use Rattle.std.specs.Prelude.{◌≡◌, ◌+◌, ◌<◌, ◌≤◌, ◌++◌, ◌^◌, [], List, length, map, take, drop, IfOk, OnErr, MatchResult};
ghost use Rattle.std.specs.List.{AllByRecursion};
ghost use Rattle.gib_types.specs.Tree.{Datum, con as con_of, data_of};
ghost use Rattle.gib_value.specs.Heap.{value_of, IsWithin};

use crate::node::Node;
use gib_base::Memory;
use gib_types::ConId;
use std::alloc::Global;
use std::marker::Model;

/// The nodes made so far, seen as their values: a constructor's fields stand before it, and any number of
/// constructors may have the same fields.
#[derive(Drop)]
pub struct Heap {
    nodes: Vec<Node>,
}

impl Model for Heap {
    ghost use Rattle.std.specs.Prelude.{List};
    ghost use Rattle.std.specs.Coded.{coded_list};
    ghost use Rattle.gib_types.specs.{Tree.{Datum}, TreeCode.{datum_code}};

    ghost Value = { List Datum };

    ghost coded = { coded_list datum_code };

    ghost use Rattle.gib_value.specs.Heap.{heap_of, AreWithin};

    ghost view = { λ h. heap_of h.nodes.items };

    ghost invariant = { λ h. AreWithin 0 h.nodes.items };
}

/// Puts the fields at the end, and gives their constructor.
fn push_con(nodes: &mut Vec<Node>, con: ConId, fields: &[Node]) -> Result<Node, Memory>
    requires { length fields.now < 2 ^ 32 }
    ensures { MatchResult result
        (λ n. (nodes.new.items ≡ nodes.old.items ++ fields.now) × (n ≡ Node.Con con (length fields.now) (length nodes.old.items)))
        (λ _. nodes.new.items ≡ nodes.old.items) }
{
    let first = nodes.len();
    let count = fields.len() as u32;
    match nodes.extend_from_slice(fields) {
        Ok(()) => Ok(Node::Con { con, count, first }),
        Err(e) => Err(e),
    }
}

/// Some nodes in a row.
fn nodes_at(nodes: &[Node], first: usize, count: usize) -> &[Node]
    requires { first + count ≤ length nodes.now }
    ensures found { result.now ≡ take count (drop first nodes.now) }
    ensures count { length result.now ≡ count }
{
    let (_, rest) = nodes.split_at(first);
    let (found, _) = rest.split_at(count);
    found
}

impl Heap {
    /// A heap that holds no value.
    pub fn new(alloc: Global) -> Heap
        ensures { result ≡ [] }
    {
        Heap {
            nodes: Vec::new(alloc),
        }
    }

    /// The same values.
    ///
    /// # Errors
    ///
    /// Want of memory.
    pub fn copy(&self, alloc: Global) -> Result<Heap, Memory>
        ensures { IfOk result (λ copy. copy ≡ self.now) }
    {
        match Vec::from_slice(alloc, &self.nodes) {
            Ok(nodes) => Ok(Heap { nodes }),
            Err(e) => Err(e),
        }
    }

    /// A constructor with these fields. The values made before stay as they are.
    pub fn make(&mut self, con: ConId, fields: &[Node]) -> Result<Node, Memory>
        requires few { length fields.now < 2 ^ 32 }
        requires within { AllByRecursion (IsWithin (length self.old)) fields.now }
        ensures kept { (later : List Datum) × (self.new ≡ self.old ++ later) }
        ensures within { IfOk result (λ n. IsWithin (length self.new) n) }
        ensures made { IfOk result (λ n. value_of self.new n ≡ con_of con.0 (data_of (map (value_of self.old) fields.now))) }
        ensures refused { OnErr result (self.new ≡ self.old) }
    {
        push_con(&mut self.nodes, con, fields)
    }

    /// The fields of a constructor, in declared order.
    pub fn fields(&self, first: usize, count: u32) -> &[Node]
        requires { first + count ≤ length self.now }
        ensures values { map (value_of self.now) result.now ≡ take count (drop first self.now) }
        ensures within { AllByRecursion (IsWithin (length self.now)) result.now }
        ensures count { length result.now ≡ count }
    {
        nodes_at(&self.nodes, first, count as usize)
    }
}
