//! The location checker: which cores meet the build rules, and else which rule is broken first.
#![tactic(auto)]

ghost use Rattle.std.specs.Prelude.{◌≡◌, ℕ, None, Some, IfOk, IfErr, MatchResult};
ghost use Rattle.gib_core.specs.{declared.atom.AccessMode.{AccessMode as Mode}, Tree.{CoreTree}, Parts.{core_of}, Reaching.{reach_core}};
ghost use Rattle.gib_core.specs.{Reachable.{AreReachable}, Rules.{AreBuilt, first_broken}};
ghost use Rattle.gib_loccheck.specs.Answers.{IsMemory, IsMemoryOr, IsFirst};

mod atoms;
mod bodies;
mod destination;
mod examples;
mod fault;
mod index;
mod law;
mod lines;
mod state;
mod table;
mod target;
mod walk;

use bodies::check_bodies;
pub use destination::Destination;
pub use fault::LocFault;
use gib_core::law::{built_is_unbroken, reaching_makes_built};
use gib_core::{Checked, Core};
use index::indexed::IndexedCore;
pub use law::first_rule_is_smallest;
use std::alloc::Global;
pub use table::packed_count;

/// A core that breaks no build rule.
fn unbroken(alloc: Global, core: Core) -> Result<Core, LocFault>
    ensures same { IfOk result (λ same. same ≡ core) }
    ensures unbroken { IfOk result (λ _. first_broken (core_of core) ≡ None) }
    ensures broken { IfErr result (IsFirst (core_of core)) }
{
    let indexed = IndexedCore::make(alloc, core)?;
    check_bodies(alloc, &indexed)?;
    Ok(indexed.into_core())
}

/// Checks a core: which build rule it breaks first, or none. Variables are found by their numbers, so memory goes by the
/// greatest number of a variable, and not by how many there are; in a numbered core the two are the same. So it is with
/// names of functions and with constructors whose heads store offsets.
///
/// # Errors
///
/// The first broken build rule: that of the smallest term, there the smallest rule. Want of memory, where no
/// further number of a term is left too.
pub fn loccheck(alloc: Global, core: Core) -> Result<Checked, LocFault>
    ensures checked { IfOk result (λ checked. checked ≡ core) }
    ensures built { IfOk result (λ _. AreBuilt (core_of core)) }
    // What is built is refused for want of memory alone.
    ensures only { AreBuilt (core_of core) → IfErr result IsMemory }
    // So is what the pass that reaches fields gives, where they only had to be reached.
    ensures reached { (mode : Mode) (c : CoreTree) → AreReachable c → core_of core ≡ reach_core mode c → IfErr result IsMemory }
    // Each other refusal is the first broken rule.
    ensures exact { IfErr result (IsFirst (core_of core)) }
    // Where a rule is broken, the first one is answered.
    ensures told { (rule place : ℕ) → first_broken (core_of core) ≡ Some (rule, place) → MatchResult result (λ _. ⊥) (IsMemoryOr rule place) }
{
    built_is_unbroken();
    reaching_makes_built();
    let unbroken = unbroken(alloc, core)?;
    Ok(Checked::make(unbroken))
}
