//! Terms, by recursive descent.

ghost use Rattle.std.specs.Prelude.{◌≡◌, ◌∷◌, suc, length, IfOk};
ghost use Rattle.gib_reads.specs.Answers.{Gives};
ghost use Rattle.gib_local_parse.specs.Grammar.{parse, line_at, in_at, binding_at, let_at, par_at, one_at, bound_at, bound_from, arm_at, next_arm_at, arms_at};
ghost use Rattle.gib_local_parse.specs.{LineArena.{binding_from, side_from, tree_of}, Sources.{case_from, if_from, places_at, terms_at}};
ghost use Rattle.gib_local_parse.specs.ReadingTerms.{Reads, ReadsArms, ReadsBinding, arm_text, arms_text};

use crate::leaves::{
    Typed, behind_open, call, give, make, new_place, new_region, operation, point, reach, too_deep,
};
use crate::lines::{BindingNode, LineArm, LineId, LineNode, Lines, Side};
use crate::phrases::{between, operand, optional_mark, type_name};
use crate::source::{Depth, Read};
use gib_base::token::{Sign, Token};
use gib_reads::phrases::{begins, constructor, named, span_at, variable, variables, want};
use gib_reads::stop::Stop;

/// A term, in so many levels.
#[cycle(terms)]
#[tactic(auto, using(crate::proofs::Calls::parse_some, crate::proofs::Calls::parse_none), unfolding(crate::specs::Grammar::parse))]
pub fn term<'a>(depth: &Depth, lines: &mut Lines, tokens: &'a [Token]) -> Read<'a, LineId>
    ensures kept { IfOk result (λ x. Reads lines.old lines.new x.0.0) }
    ensures read { Gives (λ x. (tree_of lines.new x.0.0, x.1.now)) result (parse (places_at depth.now) depth.now.level tokens.now) }
{
    if depth.level == 0 {
        return Err(too_deep(tokens));
    }
    let below = Depth {
        source: depth.source,
        level: depth.level - 1,
    };
    step(&below, lines, tokens)
}

/// A term whose parts have so many levels.
#[cycle(terms)]
fn step<'a>(depth: &Depth, lines: &mut Lines, tokens: &'a [Token]) -> Read<'a, LineId>
    ensures kept { IfOk result (λ x. Reads lines.old lines.new x.0.0) }
    ensures read { Gives (λ x. (tree_of lines.new x.0.0, x.1.now)) result (line_at (places_at depth.now) (terms_at depth.now) tokens.now) }
{
    let span = span_at(depth.source.spans, tokens.len());
    match tokens {
        [Token::Variable(name), rest @ ..] => {
            let function = named(depth.source.spans, *name, tokens.len());
            call(&depth.source, lines, function, rest)
        }
        [Token::Constructor(name), rest @ ..] => {
            let head = named(depth.source.spans, *name, tokens.len());
            make(&depth.source, lines, head, rest)
        }
        [Token::Sign(sign), rest @ ..] => match sign {
            Sign::LetRegion | Sign::LetLocation | Sign::Reach | Sign::Let => {
                line(depth, lines, tokens)
            }
            Sign::Give => give(depth.source.spans, lines, span, rest),
            Sign::Point => point(depth.source.spans, lines, span, rest),
            Sign::Case => case_of(depth, lines, tokens),
            Sign::If => if_then(depth, lines, tokens),
            _ => Err(Stop::At(tokens.len())),
        },
        _ => Err(Stop::At(tokens.len())),
    }
}

/// A binding, `in`, and the rest of the line.
#[cycle(terms)]
fn line<'a>(depth: &Depth, lines: &mut Lines, tokens: &'a [Token]) -> Read<'a, LineId>
    ensures kept { IfOk result (λ x. Reads lines.old lines.new x.0.0) }
    ensures read { Gives (λ x. (tree_of lines.new x.0.0, x.1.now)) result (in_at (terms_at depth.now) (places_at depth.now (length tokens.now)) (binding_at (places_at depth.now) (terms_at depth.now) tokens.now)) }
{
    let span = span_at(depth.source.spans, tokens.len());
    let (binding, tokens) = binding(depth, lines, tokens)?;
    let tokens = want(Sign::In, tokens)?;
    let (rest, tokens) = term(depth, lines, tokens)?;
    let id = lines.put(LineNode::In(span, binding, rest))?;
    Ok((id, tokens))
}

/// A binding.
#[cycle(terms)]
fn binding<'a>(depth: &Depth, lines: &mut Lines, tokens: &'a [Token]) -> Read<'a, BindingNode>
    ensures kept { IfOk result (λ x. ReadsBinding lines.old lines.new x.0) }
    ensures read { Gives (λ x. (binding_from (tree_of lines.new) x.0, x.1.now)) result (binding_at (places_at depth.now) (terms_at depth.now) tokens.now) }
{
    match tokens {
        [Token::Sign(sign), rest @ ..] => binding_by(depth, lines, *sign, tokens.len(), rest),
        _ => Err(Stop::At(tokens.len())),
    }
}

/// A binding behind its first sign, at which so many tokens are left.
#[cycle(terms)]
fn binding_by<'a>(
    depth: &Depth,
    lines: &mut Lines,
    sign: Sign,
    left: usize,
    tokens: &'a [Token],
) -> Read<'a, BindingNode>
    requires { left ≡ suc (length tokens.now) }
    ensures kept { IfOk result (λ x. ReadsBinding lines.old lines.new x.0) }
    ensures read { Gives (λ x. (binding_from (tree_of lines.new) x.0, x.1.now)) result
        (binding_at (places_at depth.now) (terms_at depth.now) (Token.Sign sign ∷ tokens.now)) }
{
    match sign {
        Sign::LetRegion => new_region(depth.source.spans, tokens),
        Sign::LetLocation => new_place(depth.source.spans, tokens),
        Sign::Reach => reach(depth.source.spans, tokens),
        Sign::Let => let_in(depth, lines, tokens),
        _ => Err(Stop::At(left)),
    }
}

/// Behind `let`.
#[cycle(terms)]
fn let_in<'a>(depth: &Depth, lines: &mut Lines, tokens: &'a [Token]) -> Read<'a, BindingNode>
    ensures kept { IfOk result (λ x. ReadsBinding lines.old lines.new x.0) }
    ensures read { Gives (λ x. (binding_from (tree_of lines.new) x.0, x.1.now)) result (let_at (places_at depth.now) (terms_at depth.now) tokens.now) }
{
    match tokens {
        [Token::Sign(sign), rest @ ..] => match sign {
            Sign::Par => let_par(depth, lines, rest),
            _ => let_one(depth, lines, tokens),
        },
        _ => let_one(depth, lines, tokens),
    }
}

/// Behind `let par`.
#[cycle(terms)]
fn let_par<'a>(depth: &Depth, lines: &mut Lines, tokens: &'a [Token]) -> Read<'a, BindingNode>
    ensures kept { IfOk result (λ x. ReadsBinding lines.old lines.new x.0) }
    ensures read { Gives (λ x. (binding_from (tree_of lines.new) x.0, x.1.now)) result (par_at (places_at depth.now) (terms_at depth.now) tokens.now) }
{
    let (left, tokens) = side(depth, lines, tokens)?;
    let tokens = want(Sign::And, tokens)?;
    let (names, tokens) = between(depth.source.spans, tokens)?;
    let (right, tokens) = side(depth, lines, tokens)?;
    Ok((BindingNode::Par(left, names, right), tokens))
}

/// Behind `let`, where it is not two sides.
#[cycle(terms)]
fn let_one<'a>(depth: &Depth, lines: &mut Lines, tokens: &'a [Token]) -> Read<'a, BindingNode>
    ensures kept { IfOk result (λ x. ReadsBinding lines.old lines.new x.0) }
    ensures read { Gives (λ x. (binding_from (tree_of lines.new) x.0, x.1.now)) result (one_at (places_at depth.now) (terms_at depth.now) tokens.now) }
{
    let (name, tokens) = variable(depth.source.spans, tokens)?;
    let tokens = want(Sign::Colon, tokens)?;
    let (ty, tokens) = type_name(depth.source.spans, tokens)?;
    let typed = Typed { name, ty };
    match behind_open(tokens) {
        Some(rest) => operation(depth.source.spans, typed, rest),
        None => {
            let (side, tokens) = side_rest(depth, lines, typed, tokens)?;
            Ok((BindingNode::Let(side), tokens))
        }
    }
}

/// A side: a variable with its type and place, and its term.
#[cycle(terms)]
fn side<'a>(depth: &Depth, lines: &mut Lines, tokens: &'a [Token]) -> Read<'a, Side>
    ensures kept { IfOk result (λ x. Reads lines.old lines.new x.0.line.0) }
    ensures read { Gives (λ x. (side_from (tree_of lines.new) x.0, x.1.now)) result (bound_at (places_at depth.now) (terms_at depth.now) tokens.now) }
{
    let (name, tokens) = variable(depth.source.spans, tokens)?;
    let tokens = want(Sign::Colon, tokens)?;
    let (ty, tokens) = type_name(depth.source.spans, tokens)?;
    side_rest(depth, lines, Typed { name, ty }, tokens)
}

/// Behind the type of a side: its place, and its term.
#[cycle(terms)]
fn side_rest<'a>(
    depth: &Depth,
    lines: &mut Lines,
    typed: Typed,
    tokens: &'a [Token],
) -> Read<'a, Side>
    ensures kept { IfOk result (λ x. Reads lines.old lines.new x.0.line.0) }
    ensures read { Gives (λ x. (side_from (tree_of lines.new) x.0, x.1.now)) result (bound_from (places_at depth.now) (terms_at depth.now) typed.name typed.ty tokens.now) }
{
    let (mark, tokens) = optional_mark(depth.source.spans, tokens)?;
    let tokens = want(Sign::Equals, tokens)?;
    let (line, tokens) = term(depth, lines, tokens)?;
    Ok((
        Side {
            name: typed.name,
            ty: typed.ty,
            mark,
            line,
        },
        tokens,
    ))
}

/// An `if`.
#[cycle(terms)]
fn if_then<'a>(depth: &Depth, lines: &mut Lines, tokens: &'a [Token]) -> Read<'a, LineId>
    ensures kept { IfOk result (λ x. Reads lines.old lines.new x.0.0) }
    ensures read { Gives (λ x. (tree_of lines.new x.0.0, x.1.now)) result (if_from depth.now tokens.now) }
{
    let span = span_at(depth.source.spans, tokens.len());
    let tokens = want(Sign::If, tokens)?;
    let (condition, tokens) = operand(depth.source.spans, tokens)?;
    let tokens = want(Sign::Then, tokens)?;
    let (then_part, tokens) = term(depth, lines, tokens)?;
    let tokens = want(Sign::Else, tokens)?;
    let (else_part, tokens) = term(depth, lines, tokens)?;
    let id = lines.put(LineNode::If(span, condition, then_part, else_part))?;
    Ok((id, tokens))
}

/// A `case`.
#[cycle(terms)]
fn case_of<'a>(depth: &Depth, lines: &mut Lines, tokens: &'a [Token]) -> Read<'a, LineId>
    ensures kept { IfOk result (λ x. Reads lines.old lines.new x.0.0) }
    ensures read { Gives (λ x. (tree_of lines.new x.0.0, x.1.now)) result (case_from depth.now tokens.now) }
{
    let span = span_at(depth.source.spans, tokens.len());
    let tokens = want(Sign::Case, tokens)?;
    let (variable, tokens) = variable(depth.source.spans, tokens)?;
    let tokens = want(Sign::Of, tokens)?;
    let tokens = want(Sign::OpenBrace, tokens)?;
    let (arms, tokens) = arms(depth, lines, tokens)?;
    let tokens = want(Sign::CloseBrace, tokens)?;
    let id = lines.put(LineNode::Case(span, variable, arms))?;
    Ok((id, tokens))
}

/// Arms, with a semicolon between two.
#[cycle(terms)]
fn arms<'a>(depth: &Depth, lines: &mut Lines, tokens: &'a [Token]) -> Read<'a, Vec<LineArm>>
    ensures kept { IfOk result (λ x. ReadsArms lines.old lines.new x.0.items) }
    ensures read { Gives (λ x. (arms_text (tree_of lines.new) x.0.items, x.1.now)) result (arms_at (places_at depth.now) (terms_at depth.now) tokens.now) }
{
    let mut arms = Vec::new(depth.source.alloc);
    let (first, mut rest) = arm(depth, lines, tokens)?;
    arms.push(first)?;
    'arms: while begins(Sign::Semicolon, rest) {
        let (next, after) = next_arm(depth, lines, rest)?;
        arms.push(next)?;
        rest = after;
    }
    Ok((arms, rest))
}

/// A semicolon, and an arm behind it.
#[cycle(terms)]
#[tactic(auto, unfolding(crate::specs::Grammar::next_arm_at))]
fn next_arm<'a>(depth: &Depth, lines: &mut Lines, tokens: &'a [Token]) -> Read<'a, LineArm>
    ensures kept { IfOk result (λ x. Reads lines.old lines.new x.0.line.0) }
    ensures read { Gives (λ x. (arm_text (tree_of lines.new) x.0, x.1.now)) result (next_arm_at (places_at depth.now) (terms_at depth.now) tokens.now) }
{
    let tokens = want(Sign::Semicolon, tokens)?;
    arm(depth, lines, tokens)
}

/// One arm.
#[cycle(terms)]
#[tactic(auto, unfolding(crate::specs::Grammar::arm_at))]
fn arm<'a>(depth: &Depth, lines: &mut Lines, tokens: &'a [Token]) -> Read<'a, LineArm>
    ensures kept { IfOk result (λ x. Reads lines.old lines.new x.0.line.0) }
    ensures read { Gives (λ x. (arm_text (tree_of lines.new) x.0, x.1.now)) result (arm_at (places_at depth.now) (terms_at depth.now) tokens.now) }
{
    let (constructor, tokens) = constructor(depth.source.spans, tokens)?;
    let (variables, tokens) = variables(depth.source.alloc, depth.source.spans, tokens)?;
    let tokens = want(Sign::Arrow, tokens)?;
    let (line, tokens) = term(depth, lines, tokens)?;
    Ok((
        LineArm {
            constructor,
            variables,
            line,
        },
        tokens,
    ))
}
