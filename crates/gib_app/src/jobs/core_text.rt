//! `core`: prints the core of a program after a pass.

ghost use Rattle.std.specs.Prelude.{◌≡◌, IfOk, IfErr, None};
ghost use Rattle.gib_syntax.specs.Parts.{program_of};
ghost use Rattle.gib_core.specs.{Parts.{core_of}, CoreText.{core_text as text_of_core}};
ghost use Rattle.gib_app.specs.{Cores.{core_after}, Jobs.{OnlyPrints}, Kept.{EndsBy, file_of, names_in, tree_in}};

use crate::lowering::{checked_core, marked_core, placed_core};
use crate::made::Made;
use crate::printing::only_prints;
use crate::request::Request;
use crate::stop::Stop;
use gib_base::Memory;
use gib_check::Typed;
use gib_core::{Core, print_core};
use gib_infer::infer;
use gib_words::plan::Options;
use std::alloc::Global;

/// The core of a program after a pass.
fn core_after(alloc: Global, typed: &Typed, options: Options) -> Result<Core, Memory>
    ensures { IfOk result (λ core. core_of core ≡ core_after options.access options.pass (program_of typed.now)) }
{
    if options.pass < 2 {
        return infer(alloc, typed);
    }
    if options.pass < 3 {
        return placed_core(alloc, typed);
    }
    let made = if options.pass < 4 {
        checked_core(alloc, typed, options.access)
    } else {
        marked_core(alloc, typed, options.access)
    };
    match made {
        Ok(checked) => Ok(checked.into_core()),
        Err(memory) => Err(memory),
    }
}

/// The text of the core of a program after a pass.
fn print_after(alloc: Global, request: Request<'_>) -> Result<Vec<u8>, Memory>
    ensures { IfOk result (λ text. text.items ≡ text_of_core (names_in request.entry).long
        (core_after request.entry.options.access request.entry.options.pass (tree_in request.entry))) }
{
    let core = core_after(alloc, &request.compiled.typed, request.options)?;
    print_core(alloc, &core, &request.compiled.names)
}

/// What is printed of the core of a program after a pass.
///
/// # Errors
///
/// Want of memory alone.
pub fn core_text(alloc: Global, request: Request<'_>) -> Result<Made, Stop<'static>>
    ensures made { IfOk result (λ made. EndsBy (file_of made) made.end
        (OnlyPrints (λ text. text ≡ text_of_core (names_in request.entry).long
        (core_after request.entry.options.access request.entry.options.pass (tree_in request.entry))))) }
    ensures memory { IfErr result (λ e. e ≡ Stop.Memory) }
    ensures alone { IfOk result (λ made. made.packed ≡ None) }
{
    match print_after(alloc, request) {
        Ok(text) => Ok(only_prints(text)),
        Err(_) => Err(Stop::Memory),
    }
}
