//! `code`: prints the code of a program.

ghost use Rattle.std.specs.Prelude.{◌≡◌, IfOk, IfErr, None};
ghost use Rattle.gib_code.specs.ListingText.{listing_text};
ghost use Rattle.gib_lower.specs.Lowering.{lower_program};
ghost use Rattle.gib_app.specs.{Cores.{core_asked}, Jobs.{OnlyPrints}, Kept.{EndsBy, file_of, names_in, tree_in}};

use crate::lowering::lowered;
use crate::made::Made;
use crate::printing::only_prints;
use crate::request::Request;
use crate::stop::Stop;
use gib_base::Memory;
use gib_code::listing;
use std::alloc::Global;

/// The listing of the code of a program.
fn print_code(alloc: Global, request: Request<'_>) -> Result<Vec<u8>, Memory>
    ensures { IfOk result (λ text. text.items ≡ listing_text (names_in request.entry).long
        (lower_program (core_asked request.entry.options (tree_in request.entry)))) }
{
    let lowered = lowered(alloc, &request.compiled.typed, request.options.access)?;
    listing(alloc, lowered.code(), &request.compiled.names)
}

/// What is printed of the code of a program.
///
/// # Errors
///
/// Want of memory alone.
pub fn code_text(alloc: Global, request: Request<'_>) -> Result<Made, Stop<'static>>
    ensures made { IfOk result (λ made. EndsBy (file_of made) made.end
        (OnlyPrints (λ text. text ≡ listing_text (names_in request.entry).long (lower_program (core_asked request.entry.options (tree_in request.entry)))))) }
    ensures memory { IfErr result (λ e. e ≡ Stop.Memory) }
    ensures alone { IfOk result (λ made. made.packed ≡ None) }
{
    match print_code(alloc, request) {
        Ok(text) => Ok(only_prints(text)),
        Err(_) => Err(Stop::Memory),
    }
}
