//! The bytes of an image to their value.

ghost use Rattle.gib_base.specs.Texts.{TextsView};
ghost use Rattle.std.specs.Prelude.{◌≡◌, ◌≤◌, ◌↔◌, IsTrue, length, IfOk, IfErr};
ghost use Rattle.gib_print.specs.ImageReading.{IsRead};
ghost use Rattle.gib_syntax.specs.{Parts.{program_of}, Declarations.{output_type}};
ghost use Rattle.gib_app.specs.{Cores.{layouts_asked}, InputFaults.{HasImageSign}, PassFaults.{image_stop}, Stops.{IsShowStop}};

use crate::input_fault::{ImageFault, InputFault};
use crate::lowering::lowered;
use crate::stop::Stop;
use gib_check::Typed;
use gib_print::law::a_value_is_not_refused;
use gib_print::{ImageFault as ReadFault, read_image};
use gib_value::Value;
use gib_words::plan::Options;
use std::alloc::Global;

/// Whether the bytes begin with `GIBI`, as each image does.
pub fn has_image_sign(bytes: &[u8]) -> bool
    ensures { IsTrue result ↔ HasImageSign bytes.now }
{
    matches!(bytes, [b'G', b'I', b'B', b'I', ..])
}

/// Why a call stops at a second file that is no image.
fn of_image(fault: ReadFault) -> Stop<'static>
    ensures { result ≡ image_stop fault }
{
    match fault {
        ReadFault::Memory => Stop::Memory,
        ReadFault::Head => Stop::Input(InputFault::Image(ImageFault::Header)),
        ReadFault::Bad(at) => Stop::Input(InputFault::Image(ImageFault::Item(at))),
        ReadFault::Long => Stop::Input(InputFault::Image(ImageFault::Long)),
    }
}

/// The value of the type of main's result of which the bytes are an image, written by a run with these options.
///
/// # Errors
///
/// `Input` with the first fault in reading order; `Memory`.
pub fn read_image_of(
    alloc: Global,
    typed: &Typed,
    options: Options,
    bytes: &[u8],
) -> Result<Value, Stop<'static>>
    requires sign { HasImageSign bytes.now }
    requires short { length bytes.now ≤ 268435480 }
    ensures read { IfOk result (λ v. IsRead (layouts_asked options (program_of typed.now)) (output_type (program_of typed.now)) bytes.now v) }
    ensures stop { (names : TextsView) → IfErr result (IsShowStop (program_of typed.now) names (layouts_asked options (program_of typed.now)) bytes.now) }
{
    a_value_is_not_refused();
    let lowered = match lowered(alloc, typed, options.access) {
        Ok(lowered) => lowered,
        Err(_) => return Err(Stop::Memory),
    };
    let layouts = lowered.code().layouts();
    match read_image(alloc, layouts.types(), layouts, typed.output_type(), bytes) {
        Ok(value) => Ok(value),
        Err(fault) => Err(of_image(fault)),
    }
}
