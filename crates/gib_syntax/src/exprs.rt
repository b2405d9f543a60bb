//! Expressions as nodes in a vector, each behind its parts.

ghost use Rattle.std.specs.Prelude.{◌≡◌};

use crate::tree::{Ident, Parameter, TypeName};
use gib_base::{Memory, Span};
use gib_nodes::{Arena, Layered};
use gib_types::Operator;
use std::alloc::Global;
use std::marker::Model;

/// The number of an expression.
#[derive(Clone, Copy, PartialEq, Eq)]
pub struct ExprId(pub u32);

/// A variable, and the expression that it is bound to.
#[derive(Clone, Copy)]
pub struct Bound {
    pub name: Ident,
    pub value: ExprId,
}

impl Bound {
    /// A variable with its expression.
    pub fn new(name: Ident, value: ExprId) -> Bound
        ensures { result ≡ record { name = name; value = value } }
    {
        Bound { name, value }
    }
}

/// An arm of a case: a constructor, the variables of its fields, and what the case is there.
#[derive(Drop)]
pub struct Arm {
    pub constructor: Ident,
    pub variables: Vec<Ident>,
    pub body: ExprId,
}

/// One expression, with its parts by their numbers. A span is that of the first token.
#[derive(Drop)]
pub enum Node {
    Variable(Ident),
    Whole(Span, u64),
    Truth(Span, bool),
    /// An expression in parentheses.
    Paren(Span, ExprId),
    Operation {
        span: Span,
        operator: Operator,
        left: ExprId,
        right: ExprId,
    },
    /// A call of a function with at least one argument.
    Call(Ident, Vec<ExprId>),
    /// A constructor with its arguments.
    Make(Ident, Vec<ExprId>),
    Let {
        span: Span,
        name: Ident,
        bound: ExprId,
        body: ExprId,
    },
    LetPar {
        span: Span,
        left_name: Ident,
        left: ExprId,
        right_name: Ident,
        right: ExprId,
        body: ExprId,
    },
    If {
        span: Span,
        condition: ExprId,
        then_part: ExprId,
        else_part: ExprId,
    },
    Case {
        span: Span,
        variable: Ident,
        arms: Vec<Arm>,
    },
    /// Several parts, with their types.
    Tuple {
        span: Span,
        types: Vec<TypeName>,
        parts: Vec<ExprId>,
    },
    /// Variables with their types, for the parts of an expression.
    LetSeveral {
        span: Span,
        names: Vec<Parameter>,
        bound: ExprId,
        body: ExprId,
    },
    /// Two sides, of which one at least has several variables.
    ParSeveral {
        span: Span,
        left_names: Vec<Parameter>,
        left: ExprId,
        right_names: Vec<Parameter>,
        right: ExprId,
        body: ExprId,
    },
}

impl Layered for Node {
    ghost use Rattle.gib_syntax.specs.{Tree.{Expression}, Arena.{nothing, layer, PartsBelow}, ArenaLaws.{layer_same_if}};

    ghost Tree = { Expression };

    ghost nothing = { nothing };

    ghost layer = { layer };

    ghost below = { PartsBelow };

    ghost parts = { layer_same_if };
}

/// Expressions, each behind its parts.
#[derive(Drop)]
pub struct Exprs {
    nodes: Arena<Node>,
}

impl Model for Exprs {
    ghost use Rattle.std.specs.Prelude.{List};
    ghost use Rattle.gib_syntax.specs.declared.exprs.Node.{Node as Item};

    ghost Value = { List Item };

    ghost view = { λ e. e.nodes };
}

impl Exprs {
    ghost use Rattle.std.specs.Prelude.{◌≡◌, ◌<◌, [], length, IfOk, OnErr};
    ghost use Rattle.gib_syntax.specs.Arena.{PartsBelow, Opens, Makes};

    /// No expressions.
    pub fn new(alloc: Global) -> Exprs
        ensures { result ≡ [] }
    {
        Exprs {
            nodes: Arena::new(alloc),
        }
    }

    /// How many expressions there are.
    pub fn len(&self) -> usize
        ensures { result ≡ length self.now }
    {
        self.nodes.len()
    }

    /// A node whose tree is the one of the number.
    pub fn node(&self, id: ExprId) -> &Node
        requires { id.0 < length self.now }
        ensures { Opens self.now id.0 result.now }
    {
        self.nodes.node(id.0 as usize)
    }

    /// One more expression, whose parts stand here already. Those that stand here stay as they are.
    pub fn put(&mut self, node: Node) -> Result<ExprId, Memory>
        requires { PartsBelow node (length self.old) }
        ensures made { IfOk result (λ id. Makes self.old self.new id.0 node) }
        ensures same { OnErr result (self.new ≡ self.old) }
    {
        let number = self.nodes.put(node)?;
        Ok(ExprId(number))
    }
}
