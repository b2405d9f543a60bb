//! Cores as LoCal text.
//!
//! Tokens are put from the last one to the first: each part goes before what follows it.

ghost use Rattle.std.specs.Prelude.{◌≡◌, ◌<◌, None, Some, true, false, length, map, IfOk, OnOk};
ghost use Rattle.std.specs.List.{AllByRecursion};
ghost use Rattle.std.specs.Result.{IsErrOf};
ghost use Rattle.gib_core.specs.Arena.{IsBindingBelow, IsBranchBelow, IsEnd, term_of, side_from, bind_from, branches_from};
ghost use Rattle.gib_core.specs.{Parts.{IsFunctionInside, function_term, main_term, results_of, core_of}, Met.{result_place}};
ghost use Rattle.gib_types.specs.Table.{fields_at, merge};
ghost use Rattle.gib_core.specs.declared.node.BoundSide.TheVariants as side_of;
ghost use Rattle.gib_local_parse.specs.{Tree.{Made, LetIn}, Grammar.{spell_line, spell_arms, spell_bound}};
ghost use Rattle.gib_local_parse.specs.Texts.{spell_body, spell_function, spell_list, spell_main};
ghost use Rattle.gib_local.specs.Builds.{destination_of};
ghost use Rattle.gib_local_print.specs.Printing.{mark, operand, result_text, con_text, are_fields, side_number, side_text, branches_text, arms_or, text_of, function_text, results_mark};
ghost use Rattle.gib_local_print.specs.{LineTokens.{put_in, put_before, put_bind, put_sides, put_branch}, LineTokens.{main_text}};
ghost use Rattle.gib_local_print.specs.LocatedText.{given, located_text, located_tokens};

use crate::located_text::bytes_of;
use crate::print_fault::PrintFault;
use crate::put::{
    merged, put_before, put_call_mark, put_constructor, put_give, put_mark, put_name, put_no_name,
    put_operand, put_operands, put_point, put_result, put_results_mark, put_side_mark, put_type,
    put_variables, side_number,
};
use crate::put_binding::{
    Operation, put_between, put_no_branch, put_no_text, put_operation, put_reach, put_room,
};
use crate::put_declarations::{put_datas, put_offsets, put_parameter, put_parameters};
use crate::spelled::{Spelled, put_sign, put_variable};
use crate::target::{Printed, Target, are_fields, before_each, side_target};
use gib_base::token::{Sign, Token};
use gib_base::{Memory, Reversed, Texts};
use gib_core::{
    Atom, Binding, BoundSide, BoundTerm, Branch, Core, CoreFunction, CoreMain, CoreResult, Node,
    TermId, Variable,
};
use gib_loccheck::Destination;
use gib_types::ConId;
use std::alloc::Global;

/// A head is filled.
fn put_write(
    from: &Printed,
    at: u32,
    constructor: ConId,
    scalars: &[Atom],
    packed: &[Atom],
    out: &mut Spelled,
) -> Result<(), Memory>
    ensures { OnOk result (out.new ≡ spell_line (Made (con_text from.now.types.now constructor) (mark given at) (map (operand given) (merge (fields_at from.now.types.now constructor.0) scalars.now packed.now))) out.old) }
{
    let fields = merged(from.alloc, from.types.fields(constructor), scalars, packed)?;
    put_operands(&fields, out)?;
    put_mark(at, out)?;
    put_constructor(from.types, constructor, out)
}

/// A term at a target. This recurses as deep as terms are nested in bindings and branches, and not along a line.
#[cycle(terms)]
fn put_term(from: &Printed, target: &Target, id: TermId, out: &mut Spelled) -> Result<(), Memory>
    requires inside { id.0 < length from.now.terms.now }
    ensures { OnOk result (out.new ≡ spell_line (text_of given from.now.types.now (term_of from.now.terms.now id.0) (destination_of target.now.destination) target.now.at) out.old) }
{
    let (bindings, last) = from.terms.line(from.alloc, id)?;
    let mut destination = target.destination.copy()?;
    let befores = before_each(from, &mut destination, &bindings)?;
    let behind = Target {
        destination,
        at: target.at,
    };
    put_end(from, &behind, last, out)?;
    let mut i = bindings.len();
    'bindings: while i > 0 {
        i -= 1;
        put_binding(from, &befores[i], target.at, id, bindings[i], out)?;
    }
    Ok(())
}

/// The end of a line.
#[cycle(terms)]
fn put_end(from: &Printed, target: &Target, id: TermId, out: &mut Spelled) -> Result<(), Memory>
    requires inside { id.0 < length from.now.terms.now }
    requires last { IsEnd (term_of from.now.terms.now id.0) }
    ensures { OnOk result (out.new ≡ spell_line (text_of given from.now.types.now (term_of from.now.terms.now id.0) (destination_of target.now.destination) target.now.at) out.old) }
{
    match from.terms.node(id) {
        Node::Then(_, _) => unreachable!(),
        Node::Write {
            constructor,
            scalars,
            packed,
            ..
        } => put_write(from, target.at, *constructor, scalars, packed, out),
        Node::Point(atom) => put_point(*atom, target.at, out),
        Node::Call(name, arguments) => {
            put_call_mark(&target.destination, target.at, out)?;
            put_operands(arguments, out)?;
            out.put(Token::Variable(*name))
        }
        Node::Give(atom) => put_give(*atom, out),
        Node::Case { subject, branches } => {
            put_sign(Sign::CloseBrace, out)?;
            put_branches(from, target, id, branches, out)?;
            put_sign(Sign::OpenBrace, out)?;
            put_sign(Sign::Of, out)?;
            put_name(*subject, out)?;
            put_sign(Sign::Case, out)
        }
        Node::If {
            condition,
            then_part,
            else_part,
        } => {
            put_term(from, target, *else_part, out)?;
            put_sign(Sign::Else, out)?;
            put_term(from, target, *then_part, out)?;
            put_sign(Sign::Then, out)?;
            put_operand(*condition, out)?;
            put_sign(Sign::If, out)
        }
        Node::Tuple { .. } => {
            put_mark(target.at, out)?;
            put_no_name(out)
        }
    }
}

/// A binding of the term of a number, whose terms stand below it, with the destination before it.
#[cycle(terms)]
fn put_binding(
    from: &Printed,
    before: &Destination,
    at: u32,
    parent: TermId,
    binding: Binding,
    out: &mut Spelled,
) -> Result<(), Memory>
    requires inside { parent.0 < length from.now.terms.now }
    requires below { IsBindingBelow parent.0 binding }
    ensures { OnOk result (out.new ≡ put_bind given from.now.types.now (bind_from (term_of from.now.terms.now) binding) (destination_of before.now) at out.old) }
{
    match binding {
        Binding::Past { head, constructor } => put_room(from.types, at, head, constructor, out),
        Binding::One(BoundSide::One(side)) => put_one(from, before, parent, side, out),
        Binding::One(BoundSide::Several(_)) => put_no_text(at, out),
        Binding::Par { left, right, .. } => match (left, right) {
            (BoundSide::One(left), BoundSide::One(right)) => {
                put_par(from, before, parent, left, right, out)
            }
            _ => put_no_text(at, out),
        },
        Binding::Prim {
            variable,
            operator,
            left,
            right,
        } => {
            let operation = Operation {
                variable,
                operator,
                left,
                right,
            };
            put_operation(from.types, operation, out)
        }
        Binding::Reach { field, access } => put_reach(field, access, out),
    }
}

/// A side of the term of a number.
#[cycle(terms)]
fn put_one(
    from: &Printed,
    before: &Destination,
    parent: TermId,
    side: BoundTerm,
    out: &mut Spelled,
) -> Result<(), Memory>
    requires inside { parent.0 < length from.now.terms.now }
    requires below { side.term.0 < parent.0 }
    ensures { OnOk result (out.new ≡ put_before given (destination_of before.now) side.kind side.variable.0 (put_in (LetIn (side_text given from.now.types.now (side_from (term_of from.now.terms.now) (side_of.One side)) (side_number (destination_of before.now) side.kind side.variable.0))) out.old)) }
{
    let number = side_number(before, side.kind, side.variable);
    put_sign(Sign::In, out)?;
    put_side(from, side, number, out)?;
    put_sign(Sign::Let, out)?;
    put_before(before, side.kind, side.variable, out)
}

/// Two sides of the term of a number.
#[cycle(terms)]
fn put_par(
    from: &Printed,
    before: &Destination,
    parent: TermId,
    left: BoundTerm,
    right: BoundTerm,
    out: &mut Spelled,
) -> Result<(), Memory>
    requires inside { parent.0 < length from.now.terms.now }
    requires below { (left.term.0 < parent.0) × (right.term.0 < parent.0) }
    ensures { OnOk result (out.new ≡ put_sides (are_fields left.kind right.kind) given
        (destination_of before.now) left.kind left.variable.0 right.kind right.variable.0 (side_text given from.now.types.now (side_from
        (term_of from.now.terms.now) (side_of.One left))) (side_text given from.now.types.now (side_from (term_of from.now.terms.now)
        (side_of.One right))) out.old) }
{
    if are_fields(left.kind, right.kind) {
        put_fields(from, before, parent, left, right, out)
    } else {
        put_sides(from, before, parent, left, right, out)
    }
}

/// Two sides that are fields, of the term of a number.
#[cycle(terms)]
fn put_fields(
    from: &Printed,
    before: &Destination,
    parent: TermId,
    left: BoundTerm,
    right: BoundTerm,
    out: &mut Spelled,
) -> Result<(), Memory>
    requires inside { parent.0 < length from.now.terms.now }
    requires below { (left.term.0 < parent.0) × (right.term.0 < parent.0) }
    ensures { OnOk result (out.new ≡ put_sides true given (destination_of before.now) left.kind left.variable.0 right.kind right.variable.0
        (side_text given from.now.types.now (side_from (term_of from.now.terms.now) (side_of.One left))) (side_text given from.now.types.now
        (side_from (term_of from.now.terms.now) (side_of.One right))) out.old) }
{
    put_sign(Sign::In, out)?;
    put_side(from, right, right.variable.0, out)?;
    put_between(right.variable, left.variable, out)?;
    put_sign(Sign::And, out)?;
    put_side(
        from,
        left,
        side_number(before, left.kind, left.variable),
        out,
    )?;
    put_sign(Sign::Par, out)?;
    put_sign(Sign::Let, out)?;
    put_before(before, left.kind, left.variable, out)
}

/// Two other sides of the term of a number.
#[cycle(terms)]
fn put_sides(
    from: &Printed,
    before: &Destination,
    parent: TermId,
    left: BoundTerm,
    right: BoundTerm,
    out: &mut Spelled,
) -> Result<(), Memory>
    requires inside { parent.0 < length from.now.terms.now }
    requires below { (left.term.0 < parent.0) × (right.term.0 < parent.0) }
    ensures { OnOk result (out.new ≡ put_sides false given (destination_of before.now) left.kind left.variable.0 right.kind right.variable.0
        (side_text given from.now.types.now (side_from (term_of from.now.terms.now) (side_of.One left))) (side_text given from.now.types.now
        (side_from (term_of from.now.terms.now) (side_of.One right))) out.old) }
{
    put_sign(Sign::In, out)?;
    put_side(
        from,
        right,
        side_number(before, right.kind, right.variable),
        out,
    )?;
    put_sign(Sign::And, out)?;
    put_side(
        from,
        left,
        side_number(before, left.kind, left.variable),
        out,
    )?;
    put_sign(Sign::Par, out)?;
    put_sign(Sign::Let, out)?;
    put_before(before, right.kind, right.variable, out)?;
    put_before(before, left.kind, left.variable, out)
}

/// A variable with its type, its place, and the term that it is bound to.
#[cycle(terms)]
fn put_side(from: &Printed, side: BoundTerm, at: u32, out: &mut Spelled) -> Result<(), Memory>
    requires inside { side.term.0 < length from.now.terms.now }
    ensures { OnOk result (out.new ≡ spell_bound (side_text given from.now.types.now (side_from (term_of from.now.terms.now) (side_of.One side)) at) out.old) }
{
    put_term(from, &side_target(side.kind, at), side.term, out)?;
    put_sign(Sign::Equals, out)?;
    put_side_mark(side.kind, at, out)?;
    put_type(from.types, side.ty, out)?;
    put_sign(Sign::Colon, out)?;
    put_variable(side.variable, out)
}

/// A branch.
#[cycle(terms)]
fn put_branch(
    from: &Printed,
    target: &Target,
    branch: &Branch,
    out: &mut Spelled,
) -> Result<(), Memory>
    requires inside { branch.now.term.0 < length from.now.terms.now }
    ensures { OnOk result (out.new ≡ put_branch given from.now.types.now (term_of from.now.terms.now) branch.now (destination_of target.now.destination) target.now.at out.old) }
{
    put_term(from, target, branch.term, out)?;
    put_sign(Sign::Arrow, out)?;
    put_variables(&branch.variables, out)?;
    put_constructor(from.types, branch.constructor, out)
}

/// The branches of the case of a number, whose terms stand below it, with a semicolon between two.
#[cycle(terms)]
fn put_branches(
    from: &Printed,
    target: &Target,
    parent: TermId,
    branches: &[Branch],
    out: &mut Spelled,
) -> Result<(), Memory>
    requires inside { parent.0 < length from.now.terms.now }
    requires below { AllByRecursion (IsBranchBelow parent.0) branches.now }
    ensures { OnOk result (out.new ≡ spell_arms (arms_or (branches_text given from.now.types.now (branches_from (term_of from.now.terms.now) branches.now) (destination_of target.now.destination) target.now.at)) out.old) }
{
    if branches.is_empty() {
        return put_no_branch(out);
    }
    let mut i = branches.len();
    'branches: while i > 1 {
        i -= 1;
        put_branch(from, target, &branches[i], out)?;
        put_sign(Sign::Semicolon, out)?;
    }
    put_branch(from, target, &branches[0], out)
}

/// The type of a result, its place, and the body.
fn put_body(
    from: &Printed,
    gives: CoreResult,
    body: TermId,
    out: &mut Spelled,
) -> Result<(), Memory>
    requires inside { body.0 < length from.now.terms.now }
    ensures { OnOk result (out.new ≡ spell_body (result_text from.now.types.now (results_of gives)) (results_mark given (results_of gives)) (text_of given from.now.types.now (term_of from.now.terms.now body.0) (result_place (results_of gives)) 0) out.old) }
{
    let target = Target {
        destination: Destination::of_result(gives),
        at: 0,
    };
    put_sign(Sign::Semicolon, out)?;
    put_term(from, &target, body, out)?;
    put_sign(Sign::Equals, out)?;
    put_results_mark(gives, out)?;
    put_result(from.types, gives, out)?;
    put_sign(Sign::Colon, out)
}

fn put_function(from: &Printed, function: &CoreFunction, out: &mut Spelled) -> Result<(), Memory>
    requires inside { function.now.body.0 < length from.now.terms.now }
    ensures { OnOk result (out.new ≡ spell_function (function_text given from.now.types.now (function_term (term_of from.now.terms.now) function.now)) out.old) }
{
    put_body(from, function.result, function.body, out)?;
    put_parameters(from.types, &function.parameters, out)?;
    out.put(Token::Variable(function.name))?;
    put_sign(Sign::Fun, out)
}

fn put_functions(
    from: &Printed,
    functions: &[CoreFunction],
    out: &mut Spelled,
) -> Result<(), Memory>
    requires inside { AllByRecursion (IsFunctionInside (length from.now.terms.now)) functions.now }
    ensures { OnOk result (out.new ≡ spell_list spell_function (map (function_text given from.now.types.now) (map (function_term (term_of from.now.terms.now)) functions.now)) out.old) }
{
    let mut i = functions.len();
    'functions: while i > 0 {
        i -= 1;
        put_function(from, &functions[i], out)?;
    }
    Ok(())
}

fn put_main(from: &Printed, main: CoreMain, out: &mut Spelled) -> Result<(), Memory>
    requires inside { main.body.0 < length from.now.terms.now }
    ensures { OnOk result (out.new ≡ spell_main (main_text given from.now.types.now (main_term (term_of from.now.terms.now) main)) out.old) }
{
    put_body(from, CoreResult::One(main.result), main.body, out)?;
    put_parameter(from.types, Variable(0), main.parameter, out)?;
    put_sign(Sign::Main, out)
}

/// The tokens of a core's text.
fn tokens_of(alloc: Global, core: &Core) -> Result<Vec<Token>, Memory>
    ensures { IfOk result (λ tokens. tokens.items ≡ located_tokens (core_of core.now)) }
{
    let from = Printed {
        alloc,
        types: core.types(),
        terms: core.terms(),
    };
    let mut out = Reversed::new(alloc);
    put_main(&from, core.main(), &mut out)?;
    put_functions(&from, core.functions(), &mut out)?;
    put_offsets(core.types(), core.offsets(), &mut out)?;
    put_datas(core.types(), &mut out)?;
    Ok(out.into_vec())
}

/// The LoCal text of a core, with the names of its program.
///
/// # Errors
///
/// `NoText` where one of these names is none of LoCal text, or where several parts are bound or given; `Memory`.
pub fn print_located(alloc: Global, core: &Core, names: &Texts) -> Result<Vec<u8>, PrintFault>
    ensures text { IfOk result (λ out. located_text names.now.long (core_of core.now) ≡ Some out.items) }
    ensures none { IsErrOf result PrintFault.NoText → located_text names.now.long (core_of core.now) ≡ None }
{
    let tokens = tokens_of(alloc, core)?;
    bytes_of(alloc, &tokens, names)
}
