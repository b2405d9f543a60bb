//! The pass that marks the pars whose sides may run at the same time.
#![tactic(auto)]

ghost use Rattle.std.specs.Prelude.{◌≡◌, ℕ, List};
ghost use Rattle.gib_types.specs.Tree.{Datum};
ghost use Rattle.gib_syntax.specs.Tree.{DataTree};
ghost use Rattle.gib_core.specs.{Parts.{core_of}, Meaning.{core_calls, core_run}, Erasing.{erase_core}, Marking.{mark_core}, Numbering.{AreNumbered}};
ghost use Rattle.gib_core.specs.Rules.{AreBuilt};

pub mod law;

use gib_core::{Checked, Core};
use law::marking_keeps;

/// A core whose pars are marked anew. All bodies share one arena of terms, so one walk marks them all.
fn marked(core: Core) -> Core
    ensures { core_of result ≡ mark_core (core_of core) }
{
    let (types, mut terms, functions, main, offsets, marked) = core.into_parts();
    terms.mark_pars();
    Core::new(types, terms, functions, main, offsets, marked)
}

/// The core with each par marked exactly where both its sides contain a call. Marks that it has are made anew, and all
/// else stays: types, offsets, the build rules, the numbers of variables. This takes no memory.
pub fn forks(core: Checked) -> Checked
    ensures core { core_of result ≡ mark_core (core_of core) }
    // The build rules hold, as before.
    ensures built { AreBuilt (core_of result) }
    // Variables that were numbered in the order of the text still are.
    ensures numbered { AreNumbered (core_of core) → AreNumbered (core_of result) }
    // What is left of the core without its places and marks stays.
    ensures erased { (datas : List DataTree) → erase_core datas (core_of result) ≡ erase_core datas (core_of core) }
    // So does what each call means, with any depth left.
    ensures calls { (n : ℕ) → core_calls (core_of result) n ≡ core_calls (core_of core) n }
    // And what main means, on any value.
    ensures run { (depth : ℕ) (v : Datum) → core_run (core_of result) depth v ≡ core_run (core_of core) depth v }
{
    marking_keeps();
    Checked::make(marked(core.into_core()))
}
