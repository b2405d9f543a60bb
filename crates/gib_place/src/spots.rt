//! Where a binding is placed among the fields of the head that its line fills.

ghost use Rattle.std.specs.Prelude.{◌≡◌, ◌<◌, ◌≤◌, ◌++◌, ℕ, suc, Bool, List, not, length, drop};
ghost use Rattle.std.specs.List.{list_any};
ghost use Rattle.gib_core.specs.{Arena.{IsBindingBelow, term_in, bind_from, side_from}, Reaching.{is_variable as is_this}};
ghost use Rattle.gib_core.specs.{Tree.{Term, One, Both, variables_of}, declared.atom.Variable.{Variable as X}};
ghost use Rattle.gib_place.specs.{declared.field.Field.{Field as Pointing}, Late.{is_late_or}};
ghost use Rattle.gib_place.specs.Placing.{cut_at as cut, are_there, are_none, place_at, place_side, place_right, place_too, place_bind};
ghost use Rattle.gib_place.specs.Filled.{once_by, cut_from, taken, side_at, side_placed, IsPlace, IsTaken, IsTakenBelow, IsFirst, placed_at, bind_placed, IsSpot, IsSpotBelow, AreLate};

use crate::field::Field;
use crate::line::{Spot, Taken};
use crate::several::binds;
use crate::times::is_bound_later;
use gib_core::{Atom, Binding, BoundSide, BoundTerm, Clock, Kind, Tally, Variable};

/// A moment of a run: which variables are used once, when variables were bound, and the time of the moment.
#[derive(Clone, Copy)]
pub struct Moment<'a> {
    pub once: &'a Tally,
    pub times: &'a Clock,
    pub time: u64,
}

/// Whether an atom is the variable.
pub fn is_variable(x: Variable, atom: Atom) -> bool
    ensures { result ≡ is_this x atom }
{
    match atom {
        Atom::Variable(y) => y.0 == x.0,
        Atom::Whole(_) => false,
        Atom::Truth(_) => false,
    }
}

/// The number of the field that points to a variable.
fn cut_at(x: Variable, fields: &[Field]) -> Option<usize>
    ensures cut { cut x fields.now ≡ cut_from fields.now result }
    ensures inside { IsPlace (length fields.now) result }
{
    let mut i = 0;
    'fields: while i < fields.len() {
        if is_variable(x, fields[i].target) {
            return Some(i);
        }
        i += 1;
    }
    None
}

/// A region at the place of the field that points to it.
fn taken_at(side: BoundTerm, fields: &[Field]) -> Option<Taken>
    ensures at { (f : ℕ → Term) (may : List Pointing → Bool) → place_at may side.variable side.ty (f side.term.0) (cut side.variable fields.now) ≡ side_at f may fields.now result }
    ensures inside { IsTaken (length fields.now) result }
    ensures below { (n : ℕ) → side.term.0 < n → IsTakenBelow n result }
{
    match cut_at(side.variable, fields) {
        None => None,
        Some(place) => Some(Taken {
            place,
            side: BoundTerm {
                kind: Kind::Here,
                ..side
            },
        }),
    }
}

/// The field whose part a side may take: that of which it is the value, where it is a region that is used by nothing else.
fn target_of(once: &Tally, side: BoundSide, fields: &[Field]) -> Option<Taken>
    ensures side { (f : ℕ → Term) (may : List Pointing → Bool) → place_side (once_by once.now) may (side_from f side) fields.now ≡ side_at f may fields.now result }
    ensures inside { IsTaken (length fields.now) result }
    ensures below { (n : ℕ) → (term_in side).0 < n → IsTakenBelow n result }
{
    let BoundSide::One(side) = side else {
        return None;
    };
    match side.kind {
        Kind::Here => None,
        Kind::Region => {
            if once.is_once(side.variable) {
                taken_at(side, fields)
            } else {
                None
            }
        }
        Kind::Scalar => None,
    }
}

/// Whether an atom is a variable that is bound later: one of this side, or one that is bound after a moment.
fn is_late(times: &Clock, moment: u64, also: Option<BoundSide>, atom: Atom) -> bool
    ensures { result ≡ is_late_or times.now moment also atom }
{
    match atom {
        Atom::Variable(y) => match also {
            None => is_bound_later(times, moment, y),
            Some(side) => binds(side, y) || is_bound_later(times, moment, y),
        },
        Atom::Whole(_) => false,
        Atom::Truth(_) => false,
    }
}

/// Whether a field points to a value that is bound later.
fn is_any_late(times: &Clock, moment: u64, also: Option<BoundSide>, fields: &[Field]) -> bool
    ensures { result ≡ list_any (λ (f : Pointing). is_late_or times.now moment also f.target) fields.now }
{
    fields
        .iter()
        .any(|field| is_late(times, moment, also, field.target))
}

/// The field whose part a side takes. The values of the fields before it are there already.
fn free_target(
    at: &Moment,
    also: Option<BoundSide>,
    side: BoundSide,
    fields: &[Field],
) -> Option<Taken>
    ensures side { (f : ℕ → Term) → place_side (once_by at.now.once.now) (λ fs. not (list_any (λ (g : Pointing). is_late_or at.now.times.now at.now.time also g.target) fs)) (side_from f side) fields.now ≡ side_placed f fields.now result }
    ensures inside { IsTaken (length fields.now) result }
    ensures below { (n : ℕ) → (term_in side).0 < n → IsTakenBelow n result }
{
    match target_of(at.once, side, fields) {
        None => None,
        Some(taken) => {
            if is_any_late(at.times, at.time, also, &fields[..taken.place]) {
                None
            } else {
                Some(taken)
            }
        }
    }
}

/// How a binding of one side is placed.
fn spot_of_one(at: &Moment, side: BoundSide, fields: &[Field]) -> Option<Spot>
    ensures bind { (f : ℕ → Term) (late : List X) → AreLate at.now.times.now at.now.time late → place_bind (once_by at.now.once.now) late (One (side_from f side)) fields.now ≡ bind_placed f fields.now result }
    ensures inside { IsSpot (length fields.now) result }
    ensures below { (n : ℕ) → (term_in side).0 < n → IsSpotBelow n result }
{
    match free_target(at, None, side, fields) {
        None => None,
        Some(taken) => Some(Spot {
            before: taken.place,
            binding: Binding::One(BoundSide::One(taken.side)),
            first: taken.side.variable,
            second: None,
            used: taken.place + 1,
        }),
    }
}

/// The side at the place of the first field that is left, where it takes that one's part.
fn takes_first(once: &Tally, side: BoundSide, fields: &[Field]) -> Option<Taken>
    ensures side { (f : ℕ → Term) → place_side (once_by once.now) are_none (side_from f side) fields.now ≡ side_placed f fields.now result }
    ensures inside { IsTaken (length fields.now) result }
    ensures first { IsFirst result }
    ensures below { (n : ℕ) → (term_in side).0 < n → IsTakenBelow n result }
{
    match target_of(once, side, fields) {
        None => None,
        Some(taken) => { if taken.place == 0 { Some(taken) } else { None } }
    }
}

/// How a par is placed whose left side takes the part of a field.
fn spot_of_both(once: &Tally, fork: bool, left: Taken, right: BoundSide, fields: &[Field]) -> Spot
    requires { left.place < length fields.now }
    ensures bind { (f : ℕ → Term) → place_too fork (side_from f right) (taken f fields.now left) (place_side (once_by once.now) are_none (side_from f right) (drop (suc left.place) fields.now)) ≡ placed_at f fields.now result }
    ensures before { result.before ≤ length fields.now }
    ensures used { result.used ≤ length fields.now }
    ensures below { (n : ℕ) → left.side.term.0 < n → (term_in right).0 < n → IsBindingBelow n result.binding }
{
    let rest = &fields[left.place + 1..];
    match takes_first(once, right, rest) {
        None => Spot {
            before: left.place,
            binding: Binding::Par {
                fork,
                left: BoundSide::One(left.side),
                right,
            },
            first: left.side.variable,
            second: None,
            used: left.place + 1,
        },
        Some(second) => Spot {
            before: left.place,
            binding: Binding::Par {
                fork,
                left: BoundSide::One(left.side),
                right: BoundSide::One(second.side),
            },
            first: left.side.variable,
            second: Some(second.side.variable),
            used: left.place + 2,
        },
    }
}

/// How a par is placed whose left side stays.
fn spot_of_right(at: &Moment, sides: (bool, BoundSide, BoundSide), fields: &[Field]) -> Option<Spot>
    ensures bind { (f : ℕ → Term) (late : List X) → AreLate at.now.times.now at.now.time late → place_right sides.0 (side_from f sides.1) (place_side (once_by at.now.once.now) (are_there (variables_of (side_from f sides.1) ++ late)) (side_from f sides.2) fields.now) ≡ bind_placed f fields.now result }
    ensures inside { IsSpot (length fields.now) result }
    ensures below { (n : ℕ) → (term_in sides.1).0 < n → (term_in sides.2).0 < n → IsSpotBelow n result }
{
    let (fork, left, right) = sides;
    match free_target(at, Some(left), right, fields) {
        None => None,
        Some(taken) => Some(Spot {
            before: taken.place,
            binding: Binding::Par {
                fork,
                left,
                right: BoundSide::One(taken.side),
            },
            first: taken.side.variable,
            second: None,
            used: taken.place + 1,
        }),
    }
}

/// How a par is placed: its left side, and then its right side.
fn spot_of_par(at: &Moment, sides: (bool, BoundSide, BoundSide), fields: &[Field]) -> Option<Spot>
    ensures bind { (f : ℕ → Term) (late : List X) → AreLate at.now.times.now at.now.time late → place_bind (once_by at.now.once.now) late (Both sides.0 (side_from f sides.1) (side_from f sides.2)) fields.now ≡ bind_placed f fields.now result }
    ensures inside { IsSpot (length fields.now) result }
    ensures below { (n : ℕ) → (term_in sides.1).0 < n → (term_in sides.2).0 < n → IsSpotBelow n result }
{
    let (fork, left, right) = sides;
    match free_target(at, Some(right), left, fields) {
        Some(taken) => Some(spot_of_both(at.once, fork, taken, right, fields)),
        None => spot_of_right(at, sides, fields),
    }
}

/// How a binding is placed before others, which bind what is bound after a moment.
pub fn spot_of(at: &Moment, binding: Binding, fields: &[Field]) -> Option<Spot>
    ensures bind { (f : ℕ → Term) (late : List X) → AreLate at.now.times.now at.now.time late → place_bind (once_by at.now.once.now) late (bind_from f binding) fields.now ≡ bind_placed f fields.now result }
    ensures inside { IsSpot (length fields.now) result }
    ensures below { (n : ℕ) → IsBindingBelow n binding → IsSpotBelow n result }
{
    match binding {
        Binding::Past { .. } => None,
        Binding::One(side) => spot_of_one(at, side, fields),
        Binding::Par { fork, left, right } => { spot_of_par(at, (fork, left, right), fields) }
        Binding::Prim { .. } => None,
        Binding::Reach { .. } => None,
    }
}
