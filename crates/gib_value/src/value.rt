//! A value as a vector of nodes.

ghost use Rattle.std.specs.Prelude.{◌≡◌, length, IfOk};
ghost use Rattle.gib_value.specs.Heap.{value_of, IsWithin};

use crate::heap::Heap;
use crate::node::Node;
use gib_base::Memory;
use std::alloc::Global;
use std::marker::Model;

/// A value: its root, and a heap that holds all its parts but the root.
#[derive(Drop)]
pub struct Value {
    heap: Heap,
    root: Node,
}

impl Model for Value {
    ghost use Rattle.gib_types.specs.{Tree.{Datum}, TreeCode.{datum_code}};

    ghost Value = { Datum };

    ghost coded = { datum_code };

    ghost use Rattle.std.specs.Prelude.{length};
    ghost use Rattle.gib_value.specs.Heap.{value_of, IsWithin};

    ghost view = { λ v. value_of v.heap v.root };

    ghost invariant = { λ v. IsWithin (length v.heap) v.root };
}

impl Value {
    /// The value that a node is in a heap.
    pub fn from_parts(heap: Heap, root: Node) -> Value
        requires { IsWithin (length heap) root }
        ensures { result ≡ value_of heap root }
    {
        Value { heap, root }
    }

    /// The heap and the root of this value.
    pub fn into_parts(self) -> (Heap, Node)
        ensures value { value_of result.0 result.1 ≡ self }
        ensures within { IsWithin (length result.0) result.1 }
    {
        (self.heap, self.root)
    }

    /// The heap and the root of this value, to read.
    pub fn parts(&self) -> (&Heap, Node)
        ensures value { value_of result.0.now result.1 ≡ self.now }
        ensures within { IsWithin (length result.0.now) result.1 }
    {
        (&self.heap, self.root)
    }

    /// The same value.
    ///
    /// # Errors
    ///
    /// Want of memory.
    pub fn copy(&self, alloc: Global) -> Result<Value, Memory>
        ensures { IfOk result (λ copy. copy ≡ self.now) }
    {
        match self.heap.copy(alloc) {
            Ok(heap) => Ok(Value {
                heap,
                root: self.root,
            }),
            Err(e) => Err(e),
        }
    }
}
