//! What a binding says beside its terms, as tokens, the last one first.

ghost use Rattle.std.specs.Prelude.{◌≡◌, None, Some, OnOk};
ghost use Rattle.gib_local_parse.specs.{Tree.{PrimIn, ReachIn}, Grammar.{spell_arms, spell_between}};
ghost use Rattle.gib_types.specs.Operators.{operator_type};
ghost use Rattle.gib_local.specs.Building.{is_flat};
ghost use Rattle.gib_local_print.specs.{Printing.{ident, named, operand, type_text, con_text, way, arms_or}, LineTokens.{put_in, put_room, put_no_text}};
ghost use Rattle.gib_local_print.specs.LocatedText.{given};

use crate::put::{put_constructor, put_no_name, put_operand, put_operator, put_type, put_way};
use crate::spelled::{Spelled, put_location, put_sign, put_variable};
use gib_base::token::{Sign, Token};
use gib_base::{Memory, Name};
use gib_core::{Access, Atom, Variable};
use gib_local::is_flat;
use gib_types::{ConId, Operator, TypeTable};

/// The end of a case that no branch is left of.
pub fn put_no_branch(out: &mut Spelled) -> Result<(), Memory>
    ensures { OnOk result (out.new ≡ spell_arms (arms_or None) out.old) }
{
    put_sign(Sign::False, out)?;
    put_sign(Sign::Give, out)?;
    put_sign(Sign::Arrow, out)?;
    out.put(Token::Constructor(Name(0)))
}

/// The room of a head, before the rest of its line; that of a constructor without packed fields has no text of its own.
pub fn put_room(
    types: &TypeTable,
    at: u32,
    head: Variable,
    constructor: ConId,
    out: &mut Spelled,
) -> Result<(), Memory>
    ensures { OnOk result (out.new ≡ put_room (is_flat types.now constructor) given at head (con_text types.now constructor) out.old) }
{
    if is_flat(types, constructor) {
        return Ok(());
    }
    put_sign(Sign::In, out)?;
    put_constructor(types, constructor, out)?;
    put_sign(Sign::Plus, out)?;
    put_location(at, out)?;
    put_sign(Sign::Equals, out)?;
    put_location(head.0, out)?;
    put_sign(Sign::LetLocation, out)
}

/// In place of several variables, before the rest of their line.
pub fn put_no_text(at: u32, out: &mut Spelled) -> Result<(), Memory>
    ensures { OnOk result (out.new ≡ put_no_text given at out.old) }
{
    put_sign(Sign::In, out)?;
    put_no_name(out)?;
    put_sign(Sign::Plus, out)?;
    put_location(at, out)?;
    put_sign(Sign::Equals, out)?;
    put_location(0, out)?;
    put_sign(Sign::LetLocation, out)
}

/// An operation.
#[derive(Clone, Copy)]
pub struct Operation {
    pub variable: Variable,
    pub operator: Operator,
    pub left: Atom,
    pub right: Atom,
}

/// An operation, before the rest of its line.
pub fn put_operation(
    types: &TypeTable,
    operation: Operation,
    out: &mut Spelled,
) -> Result<(), Memory>
    ensures { OnOk result (out.new ≡ put_in (PrimIn (named given operation.variable) (type_text types.now (operator_type operation.operator)) (operand given operation.left) operation.operator (operand given operation.right)) out.old) }
{
    put_sign(Sign::In, out)?;
    put_sign(Sign::Close, out)?;
    put_operand(operation.right, out)?;
    put_operator(operation.operator, out)?;
    put_operand(operation.left, out)?;
    put_sign(Sign::Open, out)?;
    put_sign(Sign::Equals, out)?;
    put_type(types, operation.operator.result(), out)?;
    put_sign(Sign::Colon, out)?;
    put_variable(operation.variable, out)?;
    put_sign(Sign::Let, out)
}

/// How a field is reached, before the rest of its line.
pub fn put_reach(field: Variable, access: Access, out: &mut Spelled) -> Result<(), Memory>
    ensures { OnOk result (out.new ≡ put_in (ReachIn (named given field) (way given access)) out.old) }
{
    put_sign(Sign::In, out)?;
    put_way(access, out)?;
    put_sign(Sign::By, out)?;
    put_variable(field, out)?;
    put_sign(Sign::Reach, out)
}

/// Between two sides: the location of the right one's variable is behind the left one's.
pub fn put_between(right: Variable, left: Variable, out: &mut Spelled) -> Result<(), Memory>
    ensures { OnOk result (out.new ≡ spell_between (Some (ident (given.location right.0), ident (given.variable left.0))) out.old) }
{
    put_sign(Sign::In, out)?;
    put_variable(left, out)?;
    put_sign(Sign::After, out)?;
    put_sign(Sign::Equals, out)?;
    put_location(right.0, out)?;
    put_sign(Sign::LetLocation, out)
}
