//! Where expressions stand.

ghost use Rattle.std.specs.Prelude.{◌≡◌, ◌<◌, length};
ghost use Rattle.gib_check.specs.Faults as rule;
ghost use Rattle.gib_check.specs.NameViews.{generic_tree};

use crate::named::Named;
use crate::rules::{Part, ResultIds};
use gib_base::Span;
use gib_syntax::{ExprId, GenericNode};

/// Where an expression stands: at its first token, or inside of its parentheses.
fn place(named: &Named, id: ExprId) -> Span
    requires { id.0 < length named.now.exprs.nodes }
    ensures { result ≡ rule.place (generic_tree named.now id.0) }
{
    match named.node(id) {
        GenericNode::Variable(x) => x.span,
        GenericNode::Whole(span, _) => *span,
        GenericNode::Truth(span, _) => *span,
        GenericNode::Paren(_, inner) => place(named, *inner),
        GenericNode::Operation { span, .. } => *span,
        GenericNode::Call(f, _, _) => f.span,
        GenericNode::Make(k, _, _) => k.span,
        GenericNode::Let { span, .. } => *span,
        GenericNode::LetPar { span, .. } => *span,
        GenericNode::If { span, .. } => *span,
        GenericNode::Case { span, .. } => *span,
        GenericNode::Tuple(span, _) => *span,
    }
}

/// A part after its check.
pub fn part(named: &Named, id: ExprId, ty: ResultIds) -> Part
    requires { id.0 < length named.now.exprs.nodes }
    ensures { result ≡ record { ty = ty; place = rule.place (generic_tree named.now id.0) } }
{
    Part {
        ty,
        place: place(named, id),
    }
}
