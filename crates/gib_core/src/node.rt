//! Terms as nodes in a vector, each behind its parts.

ghost use Rattle.std.specs.Prelude.{◌≡◌};
ghost use Rattle.gib_core.specs.Marking.{with_fork};

use crate::atom::{Access, Atom, Kind, Variable};
use crate::part_types::PartTypes;
use gib_base::{Memory, Name};
use gib_nodes::{Arena, Layered};
use gib_types::{ConId, Operator, Ty};
use std::alloc::Global;
use std::marker::Model;

/// The number of a term.
#[derive(Clone, Copy, PartialEq, Eq)]
pub struct TermId(pub u32);

/// A variable with its type, and the term that it is bound to.
#[derive(Clone, Copy)]
pub struct BoundTerm {
    pub kind: Kind,
    pub variable: Variable,
    pub ty: Ty,
    pub term: TermId,
}

/// Variables one behind another, from the first one on, with their types, and the term that gives their values.
#[derive(Clone, Copy)]
pub struct BoundParts {
    pub first: Variable,
    pub types: PartTypes,
    pub term: TermId,
}

/// What is bound to a term.
#[derive(Clone, Copy)]
pub enum BoundSide {
    One(BoundTerm),
    Several(BoundParts),
}

impl BoundSide {
    ghost use Rattle.std.specs.Prelude.{◌≡◌};
    ghost use Rattle.gib_core.specs.Arena.{term_in};

    /// The term.
    pub fn term(self) -> TermId
        ensures { result ≡ term_in self }
    {
        match self {
            BoundSide::One(side) => side.term,
            BoundSide::Several(side) => side.term,
        }
    }
}

/// One binding.
#[derive(Clone, Copy)]
pub enum Binding {
    /// Room for the head of a constructor, which the variable names.
    Past {
        head: Variable,
        constructor: ConId,
    },
    /// What is bound to a term.
    One(BoundSide),
    /// Two sides; `fork` marks those that may run at the same time.
    Par {
        fork: bool,
        left: BoundSide,
        right: BoundSide,
    },
    /// An operation.
    Prim {
        variable: Variable,
        operator: Operator,
        left: Atom,
        right: Atom,
    },
    /// From here on a field of an arm can be used.
    Reach {
        field: Variable,
        access: Access,
    },
}

/// A branch of a case: a constructor, the variables of its fields in declared order, and its term.
#[derive(Drop)]
pub struct Branch {
    pub constructor: ConId,
    pub variables: Vec<Variable>,
    pub term: TermId,
}

/// One term, with its parts by their numbers.
#[derive(Drop)]
pub enum Node {
    /// A binding, and the rest of its line.
    Then(Binding, TermId),
    /// Fills the open head of the constructor: its scalar fields, and its packed ones.
    Write {
        head: Variable,
        constructor: ConId,
        scalars: Vec<Atom>,
        packed: Vec<Atom>,
    },
    /// An indirection to a packed value.
    Point(Atom),
    /// A call of a function.
    Call(Name, Vec<Atom>),
    /// A scalar result.
    Give(Atom),
    Case {
        subject: Atom,
        branches: Vec<Branch>,
    },
    If {
        condition: Atom,
        then_part: TermId,
        else_part: TermId,
    },
    /// Several parts of these types: the scalar ones, and the packed ones, each a term of its own.
    Tuple {
        types: PartTypes,
        scalars: Vec<Atom>,
        parts: Vec<TermId>,
    },
}

/// A par with this mark; another binding stays.
fn with_fork(binding: Binding, fork: bool) -> Binding
    ensures { result ≡ with_fork fork binding }
{
    match binding {
        Binding::Past { .. } => binding,
        Binding::One(_) => binding,
        Binding::Par { left, right, .. } => Binding::Par { fork, left, right },
        Binding::Prim { .. } => binding,
        Binding::Reach { .. } => binding,
    }
}

impl Layered for Node {
    ghost use Rattle.gib_core.specs.{Tree.{Term}, Arena.{nothing, layer, PartsBelow}, ArenaLaws.{layer_same_if}};

    ghost Tree = { Term };

    ghost nothing = { nothing };

    ghost layer = { layer };

    ghost below = { PartsBelow };

    ghost parts = { layer_same_if };
}

/// Terms, each behind its parts.
#[derive(Drop)]
pub struct Terms {
    nodes: Arena<Node>,
}

impl Model for Terms {
    ghost use Rattle.std.specs.Prelude.{List};
    ghost use Rattle.gib_core.specs.declared.node.Node.{Node as Item};

    ghost Value = { List Item };

    ghost view = { λ t. t.nodes };
}

impl Terms {
    ghost use Rattle.std.specs.Prelude.{◌≡◌, ◌<◌, [], length, Some, IfOk, OnErr};
    ghost use Rattle.std.specs.List.{AllByRecursion};
    ghost use Rattle.gib_core.specs.{Tree.{prepend}, Arena.{IsArena, IsBindingBelow, PartsBelow, Opens, IsLine, Makes, Grows, term_of, binds_from, layer}};
    ghost use Rattle.gib_core.specs.Marking.{IsSet};

    /// No terms.
    pub fn new(alloc: Global) -> Terms
        ensures { result ≡ [] }
    {
        Terms {
            nodes: Arena::new(alloc),
        }
    }

    /// How many terms there are.
    pub fn len(&self) -> usize
        ensures { result ≡ length self.now }
    {
        self.nodes.len()
    }

    /// The term of a number.
    pub fn node(&self, id: TermId) -> &Node
        requires { id.0 < length self.now }
        ensures { Opens self.now id.0 result.now }
    {
        self.node_at(id.0 as usize)
    }

    /// The term at a place.
    pub(crate) fn node_at(&self, place: usize) -> &Node
        requires { place < length self.now }
        ensures { Opens self.now place result.now }
    {
        self.nodes.node(place)
    }

    /// The rule that terms keep.
    pub(crate) fn rules(&self)
        ensures { IsArena self.now }
    {
        self.nodes.rules();
    }

    /// Sets the mark of the par at a place; any other node stays.
    pub(crate) fn set_fork(&mut self, number: usize, fork: bool)
        requires { number < length self.old }
        ensures { IsSet self.old self.new number fork }
    {
        self.nodes.rules();
        let Node::Then(binding, rest) = self.nodes.node(number) else {
            return;
        };
        let node = Node::Then(with_fork(*binding, fork), *rest);
        self.nodes.set(number, node);
    }

    /// The bindings of the line that begins at a number, in their order, and the number of its end.
    ///
    /// # Errors
    ///
    /// Want of memory.
    pub fn line(&self, alloc: Global, id: TermId) -> Result<(Vec<Binding>, TermId), Memory>
        requires { id.0 < length self.now }
        ensures { IfOk result (λ found. IsLine self.now id.0 found.0.items found.1.0) }
    {
        let mut bindings = Vec::new(alloc);
        let mut last = id;
        let mut node = self.node(id);
        'bindings: while let Node::Then(binding, rest) = node {
            bindings.push(*binding)?;
            last = *rest;
            node = self.node(last);
        }
        Ok((bindings, last))
    }

    /// One more term, whose parts stand here already. Those that stand here stay as they are.
    ///
    /// # Errors
    ///
    /// Want of memory, where no further number is left too.
    pub fn put(&mut self, node: Node) -> Result<TermId, Memory>
        requires { PartsBelow node (length self.old) }
        ensures made { IfOk result (λ id. Makes self.old self.new id.0 node) }
        ensures same { OnErr result (self.new ≡ self.old) }
    {
        let number = self.nodes.put(node)?;
        Ok(TermId(number))
    }

    /// The bindings in front of a term.
    ///
    /// # Errors
    ///
    /// Want of memory.
    pub fn put_before(&mut self, mut bindings: Vec<Binding>, rest: TermId) -> Result<TermId, Memory>
        requires bindings { AllByRecursion (IsBindingBelow (length self.old)) bindings.items }
        requires inside { rest.0 < length self.old }
        ensures grows { IfOk result (λ _. Grows self.old self.new) }
        ensures inside { IfOk result (λ t. t.0 < length self.new) }
        ensures term { IfOk result (λ t. term_of self.new t.0 ≡ prepend (binds_from (term_of self.old) bindings.items) (term_of self.old rest.0)) }
    {
        let mut term = rest;
        'bindings: while let Some(binding) = bindings.pop() {
            term = self.put(Node::Then(binding, term))?;
        }
        Ok(term)
    }

    /// A line: the bindings in front of an end.
    ///
    /// # Errors
    ///
    /// Want of memory.
    pub fn put_line(&mut self, bindings: Vec<Binding>, end: Node) -> Result<TermId, Memory>
        requires bindings { AllByRecursion (IsBindingBelow (length self.old)) bindings.items }
        requires end { PartsBelow end (length self.old) }
        ensures grows { IfOk result (λ _. Grows self.old self.new) }
        ensures inside { IfOk result (λ t. t.0 < length self.new) }
        ensures term { IfOk result (λ t. term_of self.new t.0 ≡ prepend (binds_from (term_of self.old) bindings.items) (layer (term_of self.old) (Some end))) }
    {
        let end = self.put(end)?;
        let line = self.put_before(bindings, end)?;
        Ok(line)
    }
}
