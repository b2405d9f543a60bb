//! When variables were used.
//!
//! A clock goes up at each arm, and each variable keeps the time at which it was used last. So whether it is
//! used in an arm's term is told by one look, and not by a search of the term.

ghost use Rattle.std.specs.Prelude.{◌≡◌, ◌==◌, IfOk, OnOk};
ghost use Rattle.gib_core.specs.Reaching.{is_variable, has_variable};
ghost use Rattle.gib_access.specs.Used.{since, Marks, Enters};

use gib_base::Memory;
use gib_core::{Atom, Clock, Variable};

/// The time at which an arm begins.
#[tactic(auto, using(crate::proofs::Stamping::begun))]
pub fn enter(stamps: &mut Clock) -> Result<u64, Memory>
    ensures { IfOk result (λ start. Enters stamps.old stamps.new start) }
{
    let _before = stamps.time();
    stamps.tick()?;
    Ok(stamps.time())
}

/// A variable is used.
#[tactic(auto, using(crate::proofs::Stamping::noted))]
fn mark(stamps: &mut Clock, x: Variable) -> Result<(), Memory>
    ensures { OnOk result (Marks stamps.old stamps.new (λ y. x.0 == y.0)) }
{
    stamps.note(x)
}

/// Whether a variable was used since an arm began.
pub fn is_used_since(stamps: &Clock, start: u64, x: Variable) -> bool
    ensures { result ≡ since stamps.now start x }
{
    start <= stamps.last(x)
}

/// An atom is used.
pub fn mark_atom(stamps: &mut Clock, atom: Atom) -> Result<(), Memory>
    ensures { OnOk result (Marks stamps.old stamps.new (λ x. is_variable x atom)) }
{
    match atom {
        Atom::Variable(x) => mark(stamps, x),
        Atom::Whole(_) => Ok(()),
        Atom::Truth(_) => Ok(()),
    }
}

/// Atoms are used.
pub fn mark_atoms(stamps: &mut Clock, atoms: &[Atom]) -> Result<(), Memory>
    ensures { OnOk result (Marks stamps.old stamps.new (λ x. has_variable x atoms.now)) }
{
    let mut i = atoms.len();
    'atoms: while i > 0 {
        i -= 1;
        mark_atom(stamps, atoms[i])?;
    }
    Ok(())
}
