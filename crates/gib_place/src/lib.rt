//! The pass that places fields: what will stand in a field of a head is built there, where it can be.
#![tactic(auto)]

ghost use Rattle.std.specs.Prelude.{◌≡◌, ℕ, List, IfOk};
ghost use Rattle.gib_types.specs.Tree.{Datum};
ghost use Rattle.gib_syntax.specs.Tree.{DataTree};
ghost use Rattle.gib_core.specs.{Parts.{core_of}, Meaning.{core_calls, core_run}, Erasing.{erase_core}, Numbering.{AreNumbered}, Reachable.{AreReachable}};
ghost use Rattle.gib_place.specs.{Numbering.{place_core}, SameSource.{IsSameProgram}};

mod bodies;
mod examples;
mod field;
mod filling;
mod law;
mod laying;
mod line;
mod placing;
mod renumber;
mod several;
mod spots;
mod times;
mod walk;

use bodies::{place_functions, place_main};
use gib_base::Memory;
use gib_core::{Core, Terms};
pub use law::{placing_keeps_reachable, placing_keeps_the_meaning, placing_keeps_the_source};
use std::alloc::Global;

/// A core whose bodies are placed, with its variables numbered in the order of the text.
fn placed(alloc: Global, core: Core) -> Result<Core, Memory>
    ensures { IfOk result (λ made. core_of made ≡ place_core (core_of core)) }
{
    let (types, terms, functions, main, offsets, marked) = core.into_parts();
    let mut made = Terms::new(alloc);
    let main = place_main(alloc, &terms, &mut made, main)?;
    let functions = place_functions(alloc, &terms, &mut made, functions)?;
    Ok(Core::new(types, made, functions, main, offsets, marked))
}

/// A core in which each packed value that will stand in a field of a head is built at that field's place, where its region
/// can begin there; its variables are then numbered in the order of the text. A line of another form than infer gives is
/// left as it is. No clause says how long this takes.
///
/// # Errors
///
/// Want of memory, where no further number of a term, a variable or a moment is left too. So too where variables of several
/// parts would no longer stand one behind another, since they were bound before.
pub fn place(alloc: Global, core: Core) -> Result<Core, Memory>
    ensures core { IfOk result (λ made. core_of made ≡ place_core (core_of core)) }
    // Where the fields of the core only had to be reached, they still only have to be.
    ensures reachable { AreNumbered (core_of core) → AreReachable (core_of core) → IfOk result (λ made. AreReachable (core_of made)) }
    // Variables that were numbered in the order of the text are so again.
    ensures numbered { AreNumbered (core_of core) → IfOk result (λ made. AreNumbered (core_of made)) }
    // What is left of the core without its places stays, up to the names of variables.
    ensures source { AreNumbered (core_of core) → IfOk result (λ made. (datas : List DataTree) → IsSameProgram (erase_core datas (core_of core)) (erase_core datas (core_of made))) }
    // What each call means stays, with any depth left.
    ensures calls { AreNumbered (core_of core) → IfOk result (λ made. (n : ℕ) → core_calls (core_of made) n ≡ core_calls (core_of core) n) }
    // And what main means, on any value.
    ensures run { AreNumbered (core_of core) → IfOk result (λ made. (depth : ℕ) (v : Datum) → core_run (core_of made) depth v ≡ core_run (core_of core) depth v) }
{
    placing_keeps_reachable();
    placing_keeps_the_meaning();
    placing_keeps_the_source();
    placed(alloc, core)
}
