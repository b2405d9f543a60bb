//! The pass that reaches the fields of arms.
#![tactic(auto)]

ghost use Rattle.std.specs.Prelude.{◌≡◌, ℕ, List, IfOk};
ghost use Rattle.gib_types.specs.Tree.{Datum};
ghost use Rattle.gib_syntax.specs.Tree.{DataTree};
ghost use Rattle.gib_core.specs.{Parts.{core_of}, Meaning.{core_calls, core_run}, Erasing.{erase_core}, Reaching.{reach_core, tells_ends as tells}};
ghost use Rattle.gib_core.specs.{Numbering.{AreNumbered}, Reachable.{AreReachable}, Rules.{AreBuilt}};
ghost use Rattle.gib_access.specs.Bodies.{offsets_kept as kept};

mod bodies;
mod fields;
mod law;
mod planning;
mod source;
mod stamps;
mod walk;
mod work;

use bodies::{reach_functions, reach_main};
use gib_base::{Memory, Reversed};
use gib_core::law::reaching_makes_built;
use gib_core::{AccessMode, Core, ended_parameters};
use gib_types::ConId;
pub use law::{offsets_are_stored_where_read, reaching_keeps_numbers, reaching_keeps_the_meaning};
use source::Source;
use std::alloc::Global;
use work::Work;

/// The constructors whose heads store offsets: with walks in their place none does.
fn offsets_kept(alloc: Global, mode: AccessMode, offsets: Reversed<ConId>) -> Vec<ConId>
    ensures { result.items ≡ kept mode offsets }
{
    match mode {
        AccessMode::Skips => Vec::new(alloc),
        AccessMode::Offsets => offsets.into_vec(),
        AccessMode::Ends => offsets.into_vec(),
    }
}

/// Whether ends of values are told.
fn tells_ends(mode: AccessMode) -> bool
    ensures { result ≡ tells mode }
{
    match mode {
        AccessMode::Skips => false,
        AccessMode::Offsets => false,
        AccessMode::Ends => true,
    }
}

/// A core with the fields of all arms reached.
fn reached(alloc: Global, core: Core, mode: AccessMode) -> Result<Core, Memory>
    ensures { IfOk result (λ made. core_of made ≡ reach_core mode (core_of core)) }
{
    let marked = tells_ends(mode);
    let ended = ended_parameters(alloc, &core, marked)?;
    let (types, terms, functions, main, _, _) = core.into_parts();
    let source = Source {
        alloc,
        mode,
        types: &types,
        terms: &terms,
        ended: &ended,
    };
    let mut work = Work::new(alloc);
    let main = reach_main(&source, &mut work, main)?;
    let functions = reach_functions(&source, &mut work, functions)?;
    let offsets = offsets_kept(alloc, mode, work.offsets);
    Ok(Core::new(types, work.terms, functions, main, offsets, marked))
}

/// A core with the fields of all arms reached, where an arm's term uses them: each from the end of the field
/// directly before it, or each by the offset that its head stores; or each at the end of the field directly before it, where
/// a call told that end before in its line, else by its offset. In this last mode ends are told in the core.
///
/// # Errors
///
/// Want of memory, where no further number of a term or an arm is left too.
pub fn reach(alloc: Global, core: Core, mode: AccessMode) -> Result<Core, Memory>
    ensures core { IfOk result (λ made. core_of made ≡ reach_core mode (core_of core)) }
    // Where the fields of the core only had to be reached, the build rules hold now.
    ensures built { AreReachable (core_of core) → IfOk result (λ made. AreBuilt (core_of made)) }
    // Variables that were numbered in the order of the text still are.
    ensures numbered { AreNumbered (core_of core) → IfOk result (λ made. AreNumbered (core_of made)) }
    // What is left of the core without its places stays.
    ensures erased { IfOk result (λ made. (datas : List DataTree) → erase_core datas (core_of made) ≡ erase_core datas (core_of core)) }
    // So does what each call means, with any depth left.
    ensures calls { IfOk result (λ made. (n : ℕ) → core_calls (core_of made) n ≡ core_calls (core_of core) n) }
    // And what main means, on any value.
    ensures run { IfOk result (λ made. (depth : ℕ) (v : Datum) → core_run (core_of made) depth v ≡ core_run (core_of core) depth v) }
{
    reaching_keeps_the_meaning();
    reaching_makes_built();
    reaching_keeps_numbers();
    reached(alloc, core, mode)
}
