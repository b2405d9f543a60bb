//! The lines with one atom: `give`, `point`, and the condition of an `if`.

ghost use Rattle.std.specs.Prelude.{◌≡◌};
ghost use Rattle.gib_core.specs.{Parts.{core_of}, Rules.{least}};
ghost use Rattle.gib_loccheck.specs.{AtomLines.{atom_line, atom_fits, atom_rules, is_misplaced as misplaced}, Views.{setting_of, before_of, numbered}};
ghost use Rattle.gib_loccheck.specs.{declared.state.Walk.{Walk as State}, Judging.{one, Checks}};

use crate::fault::LocFault;
use crate::index::indexed::IndexedCore;
use crate::lines::judge;
use crate::state::Walk;
use crate::target::Target;
use gib_core::{Atom, Rule};
use gib_types::Ty;

/// What such a line does with its atom.
#[derive(Clone, Copy)]
pub enum AtomLine {
    /// It is a scalar result.
    Give,
    /// It is a packed value to which an indirection leads.
    Point,
    /// It is the condition of two branches.
    Condition,
}

/// Whether a packed value is put where none may stand.
fn is_misplaced(target: &Target, line: AtomLine) -> bool
    ensures { (w : State) → result ≡ misplaced (setting_of w target.now) line }
{
    match line {
        AtomLine::Give => false,
        AtomLine::Point => !target.destination.is_empty(),
        AtomLine::Condition => false,
    }
}

/// Whether an atom is of the type that the line asks.
fn fits(walk: &Walk, target: &Target, line: AtomLine, atom: Atom) -> bool
    ensures { result ≡ atom_fits (before_of walk.now) (setting_of walk.now target.now) line atom }
{
    match line {
        AtomLine::Give => target.destination.is_nowhere() && walk.has_type(atom, target.due),
        AtomLine::Point => walk.has_type(atom, target.due),
        AtomLine::Condition => walk.has_type(atom, Ty::Truth),
    }
}

/// The rule that such a line breaks first, or none.
#[tactic(auto, using(crate::proofs::Scoping::other_same, crate::proofs::Scoping::usable_same))]
fn atom_rule(walk: &Walk, target: &Target, line: AtomLine, atom: Atom) -> Option<Rule>
    ensures { numbered result ≡ least (atom_rules (before_of walk.now) (setting_of walk.now target.now) line atom) }
{
    if walk.is_other(atom) {
        return Some(Rule::Sides);
    }
    if is_misplaced(target, line) {
        return Some(Rule::Place);
    }
    if !walk.is_usable(atom) {
        return Some(Rule::Scope);
    }
    if !fits(walk, target, line, atom) {
        return Some(Rule::Types);
    }
    None
}

/// Judges such a line.
pub fn judge_atom(
    core: &IndexedCore,
    walk: &mut Walk,
    target: &Target,
    line: AtomLine,
    atom: Atom,
) -> Result<(), LocFault>
    ensures { Checks (core_of core.now) walk.old walk.new (one (setting_of walk.old target.now) (atom_line line atom)) result }
{
    let rule = atom_rule(walk, target, line, atom);
    judge(walk, rule)
}
