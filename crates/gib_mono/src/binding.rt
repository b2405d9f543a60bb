//! The bindings of the copy: one name is bound without a type, and several carry theirs.

ghost use Rattle.std.specs.Prelude.{◌≡◌, ℕ, ◌<◌, Some, IfOk};
ghost use Rattle.gib_syntax.specs.{Arena.{PartsBelow, layer}, Tree.{Expression}};
ghost use Rattle.gib_mono.specs.{Bindings.{let_of, only_name, par_of}, Made.{AreMet, variables_given}};

use crate::copier::{Copied, Copier};
use gib_base::{Memory, Span};
use gib_syntax::{ExprId, Ident, Node, Parameter};

/// Names, with the copy of what is bound to them.
#[derive(Drop)]
pub struct CopiedSide<'a> {
    pub names: &'a [Ident],
    pub copied: Copied,
}

/// The name of a binding that has one.
fn only_name(names: &[Ident]) -> Option<Ident>
    ensures { result ≡ only_name names.now }
{
    match names {
        [name] => Some(*name),
        _ => None,
    }
}

/// The variables of names, with the types of what is bound to them.
fn variables_given(copier: &Copier, side: &CopiedSide) -> Result<Vec<Parameter>, Memory>
    requires { AreMet copier.now side.now.copied.given }
    ensures { IfOk result (λ qs. qs.items ≡ variables_given copier.now side.now.names.now side.now.copied.given) }
{
    let types = copier.types_given(side.copied.given)?;
    copier.variables(side.names, &types)
}

/// A binding, in front of its body.
///
/// # Errors
///
/// Want of memory, and of numbers.
pub fn let_node(
    copier: &Copier,
    span: Span,
    side: &CopiedSide,
    body: ExprId,
) -> Result<Node, Memory>
    requires { AreMet copier.now side.now.copied.given }
    ensures tree { IfOk result (λ node. (f : ℕ → Expression) → layer f (Some node) ≡ let_of span (only_name side.now.names.now) (variables_given copier.now side.now.names.now side.now.copied.given) (f side.now.copied.expr.0) (f body.0)) }
    ensures below { IfOk result (λ node. (n : ℕ) → side.now.copied.expr.0 < n → body.0 < n → PartsBelow node n) }
{
    let bound = side.copied.expr;
    match only_name(side.names) {
        Some(name) => Ok(Node::Let {
            span,
            name,
            bound,
            body,
        }),
        None => {
            let names = variables_given(copier, side)?;
            Ok(Node::LetSeveral {
                span,
                names,
                bound,
                body,
            })
        }
    }
}

/// Two sides, in front of their body.
///
/// # Errors
///
/// Want of memory, and of numbers.
pub fn par_node(
    copier: &Copier,
    span: Span,
    left: &CopiedSide,
    right: &CopiedSide,
    body: ExprId,
) -> Result<Node, Memory>
    requires left { AreMet copier.now left.now.copied.given }
    requires right { AreMet copier.now right.now.copied.given }
    ensures tree { IfOk result (λ node. (f : ℕ → Expression) → layer f (Some node) ≡ par_of span (only_name left.now.names.now) (variables_given copier.now left.now.names.now left.now.copied.given) (f left.now.copied.expr.0) (only_name right.now.names.now) (variables_given copier.now right.now.names.now right.now.copied.given) (f right.now.copied.expr.0) (f body.0)) }
    ensures below { IfOk result (λ node. (n : ℕ) → left.now.copied.expr.0 < n → right.now.copied.expr.0 < n → body.0 < n → PartsBelow node n) }
{
    match (only_name(left.names), only_name(right.names)) {
        (Some(left_name), Some(right_name)) => Ok(Node::LetPar {
            span,
            left_name,
            left: left.copied.expr,
            right_name,
            right: right.copied.expr,
            body,
        }),
        _ => {
            let left_names = variables_given(copier, left)?;
            let right_names = variables_given(copier, right)?;
            Ok(Node::ParSeveral {
                span,
                left_names,
                left: left.copied.expr,
                right_names,
                right: right.copied.expr,
                body,
            })
        }
    }
}
