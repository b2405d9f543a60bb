//! How often a body uses its variables.

ghost use Rattle.std.specs.Prelude.{◌<◌, [], length, OnOk, IfOk};
ghost use Rattle.gib_core.specs.{Arena.{term_of}, Counting.{count, count_atom, Adds}, Mentioned.{use_of, uses_in}};

use crate::atom::{Atom, Variable};
use crate::by_variable::{number_of, set_number};
use crate::mentions::{Mention, mentions_of};
use crate::node::{TermId, Terms};
use gib_base::{ByNumber, Memory};
use std::alloc::{AllocError, Global};
use std::marker::Model;

/// How often each variable was used.
#[derive(Drop)]
pub struct Tally {
    counts: ByNumber<u64>,
}

impl Model for Tally {
    ghost use Rattle.std.specs.Prelude.{ℕ, List, Option};

    ghost Value = { List (Option ℕ) };

    ghost view = { λ t. t.counts };
}

impl Tally {
    ghost use Rattle.std.specs.Prelude.{◌≡◌, ◌==◌, [], OnOk, if◌then◌else◌};
    ghost use Rattle.gib_core.specs.{ByVariable.{number_at}, Counting.{Adds}};

    /// No variable was used.
    fn new(alloc: Global) -> Tally
        ensures { result ≡ [] }
    {
        Tally {
            counts: ByNumber::new(alloc),
        }
    }

    /// A variable is used.
    fn add(&mut self, x: Variable) -> Result<(), Memory>
        ensures { OnOk result (Adds self.old self.new (λ y. if x.0 == y.0 then 1 else 0)) }
    {
        match number_of(&self.counts, x).checked_add(1) {
            Some(uses) => set_number(&mut self.counts, x, uses),
            None => Err(AllocError),
        }
    }

    /// Whether a variable was used once.
    pub fn is_once(&self, x: Variable) -> bool
        ensures { result ≡ (number_at self.now x.0 == 1) }
    {
        number_of(&self.counts, x) == 1
    }
}

/// An atom is used.
fn tally_atom(tally: &mut Tally, atom: Atom) -> Result<(), Memory>
    ensures { OnOk result (Adds tally.old tally.new (λ x. count_atom x atom)) }
{
    match atom {
        Atom::Variable(x) => tally.add(x),
        Atom::Whole(_) => Ok(()),
        Atom::Truth(_) => Ok(()),
    }
}

/// A variable may be used by what is said.
fn tally_mention(tally: &mut Tally, mention: Mention) -> Result<(), Memory>
    ensures { OnOk result (Adds tally.old tally.new (use_of mention)) }
{
    match mention {
        Mention::Bound(_) => Ok(()),
        Mention::Used(atom) => tally_atom(tally, atom),
    }
}

/// How often each variable is used by what is said.
fn tally_of(alloc: Global, mentions: &[Mention]) -> Result<Tally, Memory>
    ensures { IfOk result (λ tally. Adds [] tally (uses_in mentions.now)) }
{
    let mut tally = Tally::new(alloc);
    let mut i = mentions.len();
    'mentions: while i > 0 {
        i -= 1;
        tally_mention(&mut tally, mentions[i])?;
    }
    Ok(tally)
}

/// How often a body uses its variables.
///
/// # Errors
///
/// Want of memory, where a count is too great for a number too.
pub fn uses_of(alloc: Global, terms: &Terms, id: TermId) -> Result<Tally, Memory>
    requires { id.0 < length terms.now }
    ensures { IfOk result (λ tally. Adds [] tally (count (term_of terms.now id.0))) }
{
    let mentions = mentions_of(alloc, terms, id)?;
    tally_of(alloc, &mentions)
}
