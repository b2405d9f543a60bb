//! When variables were bound last.
//!
//! A clock goes up at each binding of a run, and each variable keeps the time at which it was bound last. So whether a
//! variable is bound later in a run is told by one look, and not by a search of the run.

ghost use Rattle.std.specs.Prelude.{◌≡◌, IfOk, OnOk};
ghost use Rattle.gib_place.specs.Late.{is_late, Binds, Timed};

use crate::several::note_side;
use gib_base::Memory;
use gib_core::{Binding, Clock, Variable};

/// The variables of a binding are bound, one moment later.
fn bind(times: &mut Clock, binding: Binding) -> Result<(), Memory>
    ensures { OnOk result (Binds times.old times.new binding) }
{
    times.tick()?;
    match binding {
        Binding::Past { head, .. } => times.note(head),
        Binding::One(side) => note_side(times, side),
        Binding::Par { left, right, .. } => {
            note_side(times, left)?;
            note_side(times, right)
        }
        Binding::Prim { variable, .. } => times.note(variable),
        Binding::Reach { .. } => Ok(()),
    }
}

/// The bindings of a run are bound, one after another: the moment at which the run begins.
///
/// # Errors
///
/// Want of memory, where no further moment is left too.
pub fn bind_run(times: &mut Clock, run: &[Binding]) -> Result<u64, Memory>
    ensures { IfOk result (λ start. Timed start run.now times.new) }
{
    let start = times.time();
    let mut i = 0;
    'run: while i < run.len() {
        bind(times, run[i])?;
        i += 1;
    }
    Ok(start)
}

/// Whether a variable was bound after a moment.
pub fn is_bound_later(times: &Clock, moment: u64, x: Variable) -> bool
    ensures { result ≡ is_late times.now moment x }
{
    moment < times.last(x)
}
