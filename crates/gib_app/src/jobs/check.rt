//! `check`: says that a source is a typed program.

ghost use Rattle.std.specs.Prelude.{◌≡◌, IfOk, IfErr, None};
ghost use Rattle.gib_app.specs.{Jobs.{OnlyPrints}, Rows.{ok_line}, Kept.{EndsBy, file_of}};

use crate::made::Made;
use crate::printing::{ok_answer, only_prints};
use crate::stop::Stop;
use std::alloc::Global;

/// What is printed of a source that is a typed program.
///
/// # Errors
///
/// Want of memory alone.
pub fn check(alloc: Global) -> Result<Made, Stop<'static>>
    ensures made { IfOk result (λ made. EndsBy (file_of made) made.end (OnlyPrints (λ text. text ≡ ok_line))) }
    ensures memory { IfErr result (λ e. e ≡ Stop.Memory) }
    ensures alone { IfOk result (λ made. made.packed ≡ None) }
{
    match ok_answer(alloc) {
        Ok(text) => Ok(only_prints(text)),
        Err(_) => Err(Stop::Memory),
    }
}
