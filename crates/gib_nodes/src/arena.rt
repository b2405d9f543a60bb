//! One arena for the nodes of all kinds of trees.

ghost use Rattle.std.specs.Prelude.{ℕ, Option};
ghost use Rattle.gib_nodes.specs.Nodes.{IsOfParts};

use std::alloc::{AllocError, Global};
use std::marker::Model;

/// What is a node of a tree.
pub trait Layered {
    // The trees, and that of no node.
    ghost Tree: { Type 0 };

    ghost nothing: { Tree };
    // A node as a tree, where its parts are these trees.
    ghost layer: { (ℕ → Tree) → Option Self → Tree };
    // The parts of a node have smaller numbers, and its tree is made of theirs alone.
    ghost below: { Self → ℕ → Type 0 };

    ghost parts: { IsOfParts below layer };
}

/// Nodes, each behind its parts.
#[derive(Drop)]
pub struct Arena<N: Layered> {
    nodes: Vec<N>,
}

impl<N: Layered> Model for Arena<N> {
    ghost use Rattle.std.specs.Prelude.{List};
    ghost use Rattle.gib_nodes.specs.Nodes.{IsArena};

    ghost Value = { List N };

    ghost view = { λ a. a.nodes.items };

    ghost invariant = { λ a. IsArena N.below a.nodes.items };
}

impl<N: Layered + Drop> Arena<N> {
    ghost use Rattle.std.specs.Prelude.{◌≡◌, ◌<◌, [], length, Some, IfOk, OnErr, slice_get, slice_set};
    ghost use Rattle.gib_nodes.specs.Nodes.{IsArena, tree_of, IsPut};

    /// No nodes.
    pub fn new(alloc: Global) -> Arena<N>
        ensures { result ≡ [] }
    {
        Arena {
            nodes: Vec::new(alloc),
        }
    }

    /// How many nodes there are.
    pub fn len(&self) -> usize
        ensures { result ≡ length self.now }
    {
        self.nodes.len()
    }

    /// The rule that nodes keep.
    pub fn rules(&self)
        ensures { IsArena N.below self.now }
    {
        let _nodes = &self.nodes;
    }

    /// The nodes alone, in their order.
    pub fn into_nodes(self) -> Vec<N>
        ensures nodes { result.items ≡ self }
        ensures arena { IsArena N.below self }
    {
        self.nodes
    }

    /// The node at a place, which tells the tree there.
    pub fn node(&self, place: usize) -> &N
        requires { place < length self.now }
        ensures found { slice_get self.now place ≡ Some result.now }
        ensures opens { tree_of N.nothing N.layer self.now place ≡ N.layer (tree_of N.nothing N.layer self.now) (Some result.now) }
        ensures below { N.below result.now place }
    {
        &self.nodes[place]
    }

    /// One more node, whose parts stand here already. Those that stand here stay as they are.
    ///
    /// # Errors
    ///
    /// Want of memory, where no further number is left too.
    pub fn put(&mut self, node: N) -> Result<u32, AllocError>
        requires { N.below node (length self.old) }
        ensures made { IfOk result (λ id. IsPut N.nothing N.layer self.old self.new id node) }
        ensures same { OnErr result (self.new ≡ self.old) }
    {
        let Ok(number) = u32::try_from(self.nodes.len()) else {
            return Err(AllocError);
        };
        self.nodes.push(node)?;
        Ok(number)
    }

    /// Another node at a place, behind its parts too.
    pub fn set(&mut self, place: usize, node: N)
        requires inside { place < length self.old }
        requires below { N.below node place }
        ensures set { self.new ≡ slice_set self.old place node }
        ensures arena { IsArena N.below self.new }
    {
        self.nodes[place] = node;
    }
}
