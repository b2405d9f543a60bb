//! From typed programs to cores.
#![tactic(auto)]

ghost use Rattle.std.specs.Prelude.{◌≡◌, ℕ, IfOk};
ghost use Rattle.gib_types.specs.Tree.{Datum};
ghost use Rattle.gib_syntax.specs.{Parts.{program_of}, Meaning.{calls, run}};
ghost use Rattle.gib_core.specs.{Parts.{core_of}, Meaning.{core_calls, core_run}, Erasing.{erase_core}, Inferring.{infer_program}, Numbering.{AreNumbered}};
ghost use Rattle.gib_core.specs.Reachable.{AreReachable};

mod bodies;
mod fields;
pub mod law;
mod names;
mod parts;
mod steps;
mod walk;
mod work;

use bodies::{make_functions, make_main};
use gib_base::Memory;
use gib_check::Typed;
use gib_core::{Core, Terms};
use law::{
    infer_gives_reachable, infer_keeps_the_meaning, infer_leaves_the_meaning,
    infer_numbers_variables,
};
use std::alloc::Global;
use work::Work;

/// The core of a typed program.
fn make_core(alloc: Global, typed: &Typed) -> Result<Core, Memory>
    ensures { IfOk result (λ core. core_of core ≡ infer_program (program_of typed.now)) }
{
    let mut work = Work {
        alloc,
        terms: Terms::new(alloc),
        scope: Vec::new(alloc),
        fresh: 0,
    };
    let functions = make_functions(typed, &mut work)?;
    let main = make_main(typed, &mut work)?;
    let types = typed.types().copy(alloc)?;
    let core = Core::new(types, work.terms, functions, main, Vec::new(alloc), false);
    Ok(core)
}

/// The core of a typed program: what is packed gets a place, and scalars are bound before they are used.
///
/// # Errors
///
/// Want of memory, where no further number of a term or variable is left too.
pub fn infer(alloc: Global, typed: &Typed) -> Result<Core, Memory>
    ensures core { IfOk result (λ core. core_of core ≡ infer_program (program_of typed.now)) }
    // The core breaks no build rule but that its fields are not reached yet.
    ensures reachable { IfOk result (λ core. AreReachable (core_of core)) }
    // Its variables are numbered in the order of the text.
    ensures numbered { IfOk result (λ core. AreNumbered (core_of core)) }
    // It means what the program means: each call, with any depth left.
    ensures meaning { IfOk result (λ core. (n : ℕ) → core_calls (core_of core) n ≡ calls (program_of typed.now) n) }
    // So does main, on any value.
    ensures main { IfOk result (λ core. (depth : ℕ) (v : Datum) → core_run (core_of core) depth v ≡ run (program_of typed.now) depth v) }
    // What is left of the core without its places means what the program means: each call, with any depth left.
    ensures calls { IfOk result (λ core. (n : ℕ) → calls (erase_core (program_of typed.now).datas (core_of core)) n ≡ calls (program_of typed.now) n) }
    // So does main, on any value.
    ensures run { IfOk result (λ core. (depth : ℕ) (v : Datum) → run (erase_core (program_of typed.now).datas (core_of core)) depth v ≡ run (program_of typed.now) depth v) }
{
    let _typed = typed.program();
    typed.types().rules();
    infer_keeps_the_meaning();
    infer_leaves_the_meaning();
    infer_gives_reachable();
    infer_numbers_variables();
    make_core(alloc, typed)
}
