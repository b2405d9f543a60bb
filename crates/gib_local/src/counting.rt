//! The terms that a text makes, by their numbers; operations whose written type is not theirs; and the first broken
//! build rule of a text.

ghost use Rattle.std.specs.Prelude.{◌≡◌, ◌<◌, ◌+◌, Some, None, map, length, IfOk, IfErr, OnOk};
ghost use Rattle.std.specs.List.{AllByRecursion};
ghost use Rattle.gib_core.specs.Parts.{core_of};
ghost use Rattle.gib_loccheck.specs.Judging.{Says};
ghost use Rattle.gib_local.specs.{Building.{con, is_flat}, CountingSteps.{Adds, Goes, GoesOver, program_in, unlike_type}};
ghost use Rattle.gib_local.specs.Counting as rule;
ghost use Rattle.gib_local_parse.specs.{LineArena.{ArmsBelow, BindingBelow, binding_from, side_from, tree_of}, ReadingTerms.{arms_text}};
ghost use Rattle.gib_local_parse.specs.TextParts.{IsFunctionIn, function_text, text_of};

use crate::known::Known;
use gib_base::Memory;
use gib_core::law::built_is_unbroken;
use gib_core::{Checked, Core};
use gib_local_parse::{BindingNode, FunctionLines, LineArm, LineId, LineNode, Location, Side};
use gib_loccheck::{LocFault, loccheck};
use gib_syntax::{Ident, TypeName};
use gib_types::Operator;
use std::alloc::{AllocError, Global};

/// How many terms were made, and the first operation among them whose written type is not its own.
#[derive(Clone, Copy)]
pub struct Tally {
    pub terms: u64,
    pub unlike: Option<u64>,
}

/// So many terms more. More terms than a number counts are said to be want of memory.
fn more(tally: &mut Tally, count: u64) -> Result<(), Memory>
    ensures terms { OnOk result (tally.new.terms ≡ tally.old.terms + count) }
    ensures unlike { tally.new.unlike ≡ tally.old.unlike }
{
    match tally.terms.checked_add(count) {
        Some(terms) => {
            tally.terms = terms;
            Ok(())
        }
        None => Err(AllocError),
    }
}

/// One term more, an operation with this written type.
fn operation(
    known: &Known,
    tally: &mut Tally,
    operator: Operator,
    ty: TypeName,
) -> Result<(), Memory>
    ensures { OnOk result (Adds tally.old tally.new 1 (unlike_type (program_in known.now) operator ty tally.old.terms)) }
{
    if !operator.result().is(known.type_of(ty)) {
        if tally.unlike.is_none() {
            tally.unlike = Some(tally.terms);
        }
    }
    more(tally, 1)
}

/// The term that a location makes: the room for a head is one.
fn location(tally: &mut Tally, location: Location) -> Result<(), Memory>
    ensures terms { OnOk result (tally.new.terms ≡ tally.old.terms + rule.location_terms location) }
    ensures unlike { tally.new.unlike ≡ tally.old.unlike }
{
    match location {
        Location::Start(_) => Ok(()),
        Location::Plus(_, _) => more(tally, 1),
        Location::After(_) => Ok(()),
    }
}

/// The terms of a constructor's value: a head without packed fields is reserved and filled at once.
fn made(known: &Known, tally: &mut Tally, k: Ident) -> Result<(), Memory>
    ensures terms { OnOk result (tally.new.terms ≡ tally.old.terms + rule.made_terms (is_flat (program_in known.now).table (con (program_in known.now).table k))) }
    ensures unlike { tally.new.unlike ≡ tally.old.unlike }
{
    if known.is_flat(k) {
        more(tally, 2)
    } else {
        more(tally, 1)
    }
}

/// A line's terms.
#[cycle(counting)]
fn line(known: &Known, tally: &mut Tally, id: LineId) -> Result<(), Memory>
    requires { id.0 < length known.now.lines }
    ensures { OnOk result (Goes (program_in known.now) (tree_of known.now.lines id.0) tally.old tally.new) }
{
    let node = known.node(id);
    match node {
        LineNode::In(_, bound, rest) => {
            binding(known, tally, id, bound)?;
            line(known, tally, *rest)
        }
        LineNode::Give(_, _) => more(tally, 1),
        LineNode::Point(_, _, _) => more(tally, 1),
        LineNode::Call(_, _, _) => more(tally, 1),
        LineNode::Make(k, _, _) => made(known, tally, *k),
        LineNode::Case(_, _, cases) => {
            more(tally, 1)?;
            arms(known, tally, id, cases)
        }
        LineNode::If(_, _, yes, no) => {
            more(tally, 1)?;
            line(known, tally, *yes)?;
            line(known, tally, *no)
        }
    }
}

/// The terms of a side: what binds its variable, and those of its line.
#[cycle(counting)]
fn side(known: &Known, tally: &mut Tally, below: LineId, side: &Side) -> Result<(), Memory>
    requires side { side.now.line.0 < below.0 }
    requires below { below.0 < length known.now.lines }
    ensures { OnOk result (Adds tally.old tally.new (rule.bound_terms (program_in known.now) (side_from (tree_of known.now.lines) side.now)) (rule.unlike_bound (program_in known.now) (side_from (tree_of known.now.lines) side.now) tally.old.terms)) }
{
    more(tally, 1)?;
    line(known, tally, side.line)
}

/// A binding's terms.
#[cycle(counting)]
fn binding(
    known: &Known,
    tally: &mut Tally,
    below: LineId,
    bound: &BindingNode,
) -> Result<(), Memory>
    requires parts { BindingBelow bound.now below.0 }
    requires below { below.0 < length known.now.lines }
    ensures { OnOk result (Adds tally.old tally.new (rule.binding_terms (program_in known.now) (binding_from (tree_of known.now.lines) bound.now)) (rule.unlike_binding (program_in known.now) (binding_from (tree_of known.now.lines) bound.now) tally.old.terms)) }
{
    match bound {
        BindingNode::NewRegion(_) => Ok(()),
        BindingNode::NewPlace(_, place) => location(tally, *place),
        BindingNode::Let(bound) => side(known, tally, below, bound),
        BindingNode::Par(left, _, right) => {
            more(tally, 1)?;
            side(known, tally, below, left)?;
            side(known, tally, below, right)
        }
        BindingNode::Operation {
            name: _,
            ty,
            left: _,
            operator,
            right: _,
        } => operation(known, tally, *operator, *ty),
        BindingNode::Reach(_, _) => more(tally, 1),
    }
}

/// The terms of arms.
#[cycle(counting)]
fn arms(known: &Known, tally: &mut Tally, below: LineId, arms: &[LineArm]) -> Result<(), Memory>
    requires arms { ArmsBelow arms.now below.0 }
    requires below { below.0 < length known.now.lines }
    ensures { OnOk result (Adds tally.old tally.new (rule.arms_terms (program_in known.now) (arms_text (tree_of known.now.lines) arms.now)) (rule.unlike_arms (program_in known.now) (arms_text (tree_of known.now.lines) arms.now) tally.old.terms)) }
{
    let mut rest = arms;
    'arms: while let [arm, after @ ..] = rest {
        line(known, tally, arm.line)?;
        rest = after;
    }
    Ok(())
}

/// The terms of bodies, in the order of the text.
fn bodies(known: &Known, tally: &mut Tally, functions: &[FunctionLines]) -> Result<(), Memory>
    requires { AllByRecursion (IsFunctionIn (length known.now.lines)) functions.now }
    ensures { OnOk result (GoesOver (program_in known.now) (map (function_text (tree_of known.now.lines)) functions.now) tally.old tally.new) }
{
    let mut rest = functions;
    'functions: while let [function, after @ ..] = rest {
        line(known, tally, function.body)?;
        rest = after;
    }
    Ok(())
}

/// The number of the first operation of a text whose written type is not its own.
///
/// # Errors
///
/// Want of memory, where there are more terms than a number counts.
fn first_unlike(known: &Known) -> Result<Option<u64>, Memory>
    ensures { IfOk result (λ found. found ≡ rule.unlike_in (program_in known.now) (text_of known.now).functions (text_of known.now).main.body 0) }
{
    let mut tally = Tally {
        terms: 0,
        unlike: None,
    };
    let text = known.text();
    bodies(known, &mut tally, text.functions())?;
    line(known, &mut tally, text.main().body)?;
    Ok(tally.unlike)
}

/// The smaller of two terms; at the same term the smaller rule.
fn earlier(unlike: u64, broken: u8, place: u64) -> LocFault
    ensures { Says result (rule.with_unlike (Some unlike) (Some (broken, place))) }
{
    if place <= unlike {
        LocFault::Rule(broken, place)
    } else {
        LocFault::Rule(9, unlike)
    }
}

/// Checks a core that a text makes: it breaks no build rule, and each operation of the text has the type that is
/// written.
///
/// # Errors
///
/// The first broken build rule of the text, and want of memory.
pub fn check_core(alloc: Global, known: &Known, core: Core) -> Result<Checked, LocFault>
    ensures same { IfOk result (λ checked. checked ≡ core) }
    ensures unbroken { IfOk result (λ _. rule.broken_text (text_of known.now) (core_of core) ≡ None) }
    ensures broken { IfErr result (λ e. Says e (rule.broken_text (text_of known.now) (core_of core))) }
{
    built_is_unbroken();
    let unlike = first_unlike(known)?;
    match loccheck(alloc, core) {
        Ok(checked) => match unlike {
            None => Ok(checked),
            Some(term) => Err(LocFault::Rule(9, term)),
        },
        Err(LocFault::Memory) => Err(LocFault::Memory),
        Err(LocFault::Rule(broken, place)) => match unlike {
            None => Err(LocFault::Rule(broken, place)),
            Some(term) => Err(earlier(term, broken, place)),
        },
    }
}
