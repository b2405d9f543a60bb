//! Expressions with type arguments as nodes in a vector, each behind its parts, with the words of all types.

ghost use Rattle.std.specs.Prelude.{◌≡◌};

use crate::exprs::{Arm, ExprId};
use crate::names::Names;
use crate::tree::Ident;
use crate::written::{Run, Word};
use gib_base::{Memory, Span};
use gib_nodes::{Arena, Layered};
use gib_types::Operator;
use std::alloc::{AllocError, Global};
use std::marker::Model;

/// A side of a `let par`: its names, and the expression that they are bound to.
#[derive(Drop)]
pub struct Side {
    pub names: Names,
    pub value: ExprId,
}

/// One expression, with its parts by their numbers. A span is that of the first token.
#[derive(Drop)]
pub enum GenericNode {
    Variable(Ident),
    Whole(Span, u64),
    Truth(Span, bool),
    /// An expression in parentheses.
    Paren(Span, ExprId),
    Operation {
        span: Span,
        operator: Operator,
        left: ExprId,
        right: ExprId,
    },
    /// A call of a function, with its type arguments and at least one argument.
    Call(Ident, Run, Vec<ExprId>),
    /// A constructor with its type arguments and its arguments.
    Make(Ident, Run, Vec<ExprId>),
    /// Names, with what they are bound to.
    Let {
        span: Span,
        names: Names,
        bound: ExprId,
        body: ExprId,
    },
    /// Two sides, each with its names.
    LetPar {
        span: Span,
        left: Side,
        right: Side,
        body: ExprId,
    },
    If {
        span: Span,
        condition: ExprId,
        then_part: ExprId,
        else_part: ExprId,
    },
    Case {
        span: Span,
        variable: Ident,
        arms: Vec<Arm>,
    },
    /// Several parts.
    Tuple(Span, Vec<ExprId>),
}

impl Layered for GenericNode {
    ghost use Rattle.std.specs.Prelude.{List};
    ghost use Rattle.gib_syntax.specs.{declared.written.Word.{Word as Item}, GenericTree.{GenericExpression}, GenericArena.{nothing_of, layer_of, PartsBelow}};
    ghost use Rattle.gib_syntax.specs.GenericLaws.{layer_of_same_if};

    ghost Tree = { List Item → GenericExpression };

    ghost nothing = { nothing_of };

    ghost layer = { layer_of };

    ghost below = { PartsBelow };

    ghost parts = { layer_of_same_if };
}

/// Expressions, each behind its parts, with the words of the types that a program has.
#[derive(Drop)]
pub struct GenericExprs {
    words: Vec<Word>,
    nodes: Arena<GenericNode>,
}

impl Model for GenericExprs {
    ghost use Rattle.gib_syntax.specs.GenericArena.{Arena, IsArena};

    ghost Value = { Arena };

    ghost view = { λ e. record { words = e.words.items; nodes = e.nodes } };

    ghost invariant = { λ e. IsArena (record { words = e.words.items; nodes = e.nodes }) };
}

impl GenericExprs {
    ghost use Rattle.std.specs.Prelude.{◌≡◌, ◌<◌, length, IfOk, OnErr};
    ghost use Rattle.gib_syntax.specs.{Words.{run_words, IsRunIn}, GenericArena.{empty, IsArena, PartsBelow, IsRunWithin, Opens, Grows, Makes}};

    /// No expressions and no words.
    pub fn new(alloc: Global) -> GenericExprs
        ensures { result ≡ empty }
    {
        GenericExprs {
            words: Vec::new(alloc),
            nodes: Arena::new(alloc),
        }
    }

    /// How many expressions there are.
    pub fn len(&self) -> usize
        ensures { result ≡ length self.now.nodes }
    {
        self.nodes.len()
    }

    /// The nodes alone, in their order.
    pub fn into_nodes(self) -> Vec<GenericNode>
        ensures nodes { result.items ≡ self.nodes }
        ensures arena { IsArena self }
    {
        self.nodes.into_nodes()
    }

    /// A node whose tree is the one of the number.
    pub fn node(&self, id: ExprId) -> &GenericNode
        requires { id.0 < length self.now.nodes }
        ensures opens { Opens self.now id.0 result.now }
        ensures within { IsRunWithin result.now self.now.words }
    {
        self.nodes.node(id.0 as usize)
    }

    /// The words of a run; where it ends past the last word, those that are here.
    pub fn words(&self, run: Run) -> &[Word]
        ensures { result.now ≡ run_words self.now.words run }
    {
        let end = (run.end as usize).min(self.words.len());
        let start = (run.start as usize).min(end);
        &self.words[start..end]
    }

    /// One more expression, whose parts and types stand here already. Those that stand here stay as they are.
    pub fn put(&mut self, node: GenericNode) -> Result<ExprId, Memory>
        requires below { PartsBelow node (length self.old.nodes) }
        requires within { IsRunWithin node self.old.words }
        ensures made { IfOk result (λ id. Makes self.old self.new id.0 node) }
        ensures same { OnErr result (self.new ≡ self.old) }
    {
        let number = self.nodes.put(node)?;
        Ok(ExprId(number))
    }

    /// More words, with their run. Expressions and types that stand here stay as they are.
    pub fn put_words(&mut self, words: &[Word]) -> Result<Run, Memory>
        ensures grows { Grows self.old self.new }
        ensures within { IfOk result (λ run. IsRunIn self.new.words run) }
        ensures words { IfOk result (λ run. run_words self.new.words run ≡ words.now) }
        ensures nodes { self.new.nodes ≡ self.old.nodes }
    {
        let Ok(start) = u32::try_from(self.words.len()) else {
            return Err(AllocError);
        };
        let Ok(end) = u32::try_from(self.words.len() + words.len()) else {
            return Err(AllocError);
        };
        self.words.extend_from_slice(words)?;
        Ok(Run { start, end })
    }
}
