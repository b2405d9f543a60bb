//! Terms as nodes in a vector, each behind its parts.

ghost use Rattle.std.specs.Prelude.{◌≡◌};

use crate::tree::{Location, Mark, Operand, Way};
use gib_base::{Memory, Span};
use gib_nodes::{Arena, Layered};
use gib_syntax::{Ident, TypeName};
use gib_types::Operator;
use std::alloc::Global;
use std::marker::Model;

/// The number of a term.
#[derive(Clone, Copy)]
pub struct LineId(pub u32);

/// A variable with its type and place, and the term that it is bound to.
#[derive(Clone, Copy)]
pub struct Side {
    pub name: Ident,
    pub ty: TypeName,
    pub mark: Option<Mark>,
    pub line: LineId,
}

/// A binding of a line.
#[derive(Clone, Copy)]
pub enum BindingNode {
    NewRegion(Ident),
    NewPlace(Ident, Location),
    Let(Side),
    /// Two sides; between them a name may be given to the place behind the left side's variable.
    Par(Side, Option<(Ident, Ident)>, Side),
    Operation {
        name: Ident,
        ty: TypeName,
        left: Operand,
        operator: Operator,
        right: Operand,
    },
    Reach(Ident, Way),
}

/// An arm of a case: a constructor, the variables of its fields, and a term.
#[derive(Drop)]
pub struct LineArm {
    pub constructor: Ident,
    pub variables: Vec<Ident>,
    pub line: LineId,
}

/// One term, with its parts by their numbers. A span is that of the first token.
#[derive(Drop)]
pub enum LineNode {
    /// A binding, and the rest of its line.
    In(Span, BindingNode, LineId),
    Give(Span, Operand),
    Point(Span, Ident, Mark),
    /// A call of a function with at least one argument.
    Call(Ident, Vec<Operand>, Option<Mark>),
    /// A constructor with its arguments.
    Make(Ident, Mark, Vec<Operand>),
    Case(Span, Ident, Vec<LineArm>),
    If(Span, Operand, LineId, LineId),
}

impl Layered for LineNode {
    ghost use Rattle.gib_local_parse.specs.{Tree.{Line}, LineArena.{nothing, layer, PartsBelow}, LineLaws.{layer_same_if}};

    ghost Tree = { Line };

    ghost nothing = { nothing };

    ghost layer = { layer };

    ghost below = { PartsBelow };

    ghost parts = { layer_same_if };
}

/// Terms, each behind its parts.
#[derive(Drop)]
pub struct Lines {
    nodes: Arena<LineNode>,
}

impl Model for Lines {
    ghost use Rattle.std.specs.Prelude.{List};
    ghost use Rattle.gib_local_parse.specs.declared.lines.LineNode.{LineNode as Item};

    ghost Value = { List Item };

    ghost view = { λ l. l.nodes };
}

impl Lines {
    ghost use Rattle.std.specs.Prelude.{◌≡◌, ◌<◌, [], length, IfOk, OnErr};
    ghost use Rattle.gib_local_parse.specs.LineArena.{PartsBelow, Opens, Makes};

    /// No terms.
    pub fn new(alloc: Global) -> Lines
        ensures { result ≡ [] }
    {
        Lines {
            nodes: Arena::new(alloc),
        }
    }

    /// How many terms there are.
    pub fn len(&self) -> usize
        ensures { result ≡ length self.now }
    {
        self.nodes.len()
    }

    /// A node whose tree is the one of the number.
    pub fn node(&self, id: LineId) -> &LineNode
        requires { id.0 < length self.now }
        ensures { Opens self.now id.0 result.now }
    {
        self.nodes.node(id.0 as usize)
    }

    /// One more term, whose parts stand here already. Those that stand here stay as they are.
    pub fn put(&mut self, node: LineNode) -> Result<LineId, Memory>
        requires { PartsBelow node (length self.old) }
        ensures made { IfOk result (λ id. Makes self.old self.new id.0 node) }
        ensures same { OnErr result (self.new ≡ self.old) }
    {
        let number = self.nodes.put(node)?;
        Ok(LineId(number))
    }
}
