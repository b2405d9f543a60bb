//! A typed program to code.

ghost use Rattle.std.specs.Prelude.{◌≡◌, ℕ, IfOk};
ghost use Rattle.gib_types.specs.Tree.{Datum};
ghost use Rattle.gib_syntax.specs.{Parts.{program_of}, Meaning.{run}};
ghost use Rattle.gib_core.specs.{Meaning.{core_run}, Numbering.{AreNumbered}, Parts.{core_of}, Reachable.{AreReachable}};
ghost use Rattle.gib_lower.specs.Lowering.{lower_program};
ghost use Rattle.gib_app.specs.Cores.{core_after, layouts_of, placed_program};
ghost use Rattle.gib_app.specs.Cores as spec;

use gib_access::reach;
use gib_base::Memory;
use gib_check::Typed;
use gib_core::{AccessMode, Checked, Core, Lowered};
use gib_forks::forks;
use gib_infer::infer;
use gib_lower::lower;
use gib_place::place;
use gib_types::FieldAccess;
use std::alloc::Global;

/// The core of a program whose values are built where they belong. It breaks no build rule but that its fields are not reached yet.
///
/// # Errors
///
/// Want of memory.
pub fn placed_core(alloc: Global, typed: &Typed) -> Result<Core, Memory>
    ensures core { IfOk result (λ core. core_of core ≡ placed_program (program_of typed.now)) }
    ensures reachable { IfOk result (λ core. AreReachable (core_of core)) }
    ensures numbered { IfOk result (λ core. AreNumbered (core_of core)) }
    ensures means { IfOk result (λ core. (depth : ℕ) (v : Datum) → core_run (core_of core) depth v ≡ run (program_of typed.now) depth v) }
{
    let core = infer(alloc, typed)?;
    match place(alloc, core) {
        Ok(placed) => Ok(placed),
        Err(memory) => Err(memory),
    }
}

/// How fields are reached outside each `par`.
fn mode_of(access: FieldAccess) -> AccessMode
    ensures { result ≡ spec.mode_of access }
{
    match access {
        FieldAccess::Ends => AccessMode::Ends,
        FieldAccess::Skips => AccessMode::Skips,
    }
}

/// The core of a program whose values are built where they belong, with its fields reached. It meets the build rules.
///
/// # Errors
///
/// Want of memory.
pub fn checked_core(alloc: Global, typed: &Typed, access: FieldAccess) -> Result<Checked, Memory>
    ensures core { IfOk result (λ core. core_of core ≡ core_after access 3 (program_of typed.now)) }
    ensures numbered { IfOk result (λ core. AreNumbered (core_of core)) }
    ensures means { IfOk result (λ core. (depth : ℕ) (v : Datum) → core_run (core_of core) depth v ≡ run (program_of typed.now) depth v) }
{
    let core = placed_core(alloc, typed)?;
    match reach(alloc, core, mode_of(access)) {
        Ok(reached) => Ok(Checked::make(reached)),
        Err(memory) => Err(memory),
    }
}

/// The core of a program with each `par` marked whose sides may run at the same time. It meets the build rules.
///
/// # Errors
///
/// Want of memory.
pub fn marked_core(alloc: Global, typed: &Typed, access: FieldAccess) -> Result<Checked, Memory>
    ensures core { IfOk result (λ core. core_of core ≡ core_after access 4 (program_of typed.now)) }
    ensures numbered { IfOk result (λ core. AreNumbered (core_of core)) }
    ensures means { IfOk result (λ core. (depth : ℕ) (v : Datum) → core_run (core_of core) depth v ≡ run (program_of typed.now) depth v) }
{
    match checked_core(alloc, typed, access) {
        Ok(checked) => Ok(forks(checked)),
        Err(memory) => Err(memory),
    }
}

/// The core of a program after all passes, and its code. It means what the program means.
///
/// # Errors
///
/// Want of memory.
pub fn lowered(alloc: Global, typed: &Typed, access: FieldAccess) -> Result<Lowered, Memory>
    ensures core { IfOk result (λ made. core_of made.core ≡ core_after access 4 (program_of typed.now)) }
    ensures means { IfOk result (λ made. (depth : ℕ) (v : Datum) → core_run (core_of made.core) depth v ≡ run (program_of typed.now) depth v) }
    ensures code { IfOk result (λ made. made.code ≡ lower_program (core_after access 4 (program_of typed.now))) }
    ensures laid { IfOk result (λ made. made.code.laid ≡ layouts_of access (program_of typed.now)) }
{
    let marked = marked_core(alloc, typed, access)?;
    match lower(alloc, marked) {
        Ok(made) => {
            let _code = made.code();
            Ok(made)
        }
        Err(memory) => Err(memory),
    }
}
