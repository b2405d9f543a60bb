//! `local`: prints what a program means that writes its places out.

ghost use Rattle.std.specs.Prelude.{◌≡◌, ◌≤◌, Some, length, IfOk, IfErr, None};
ghost use Rattle.gib_core.specs.{Numbering.{AreNumbered}, Parts.{core_of}};
ghost use Rattle.gib_app.specs.{Jobs.{RunsLocated}, Kept.{EndsBy, file_of}, MachineRun.{RunsFor}, Remains.{ComesOfCore}, Running.{Program}, Stops.{IsRunStop}};

use crate::located::LocatedCore;
use crate::machine_run::{RunEnd, run_located};
use crate::made::{End, Made, Valued};
use crate::printing::no_value;
use crate::runtime::Runtime;
use crate::stop::Stop;
use gib_base::limits::FILE_BYTES;
use gib_edge::outside::Gate;
use gib_words::plan::Options;
use std::alloc::Global;
use std::sync::Wait;
use std::thread::Threads;

/// What a core that is written out means on the bytes of an input, within the depth, in memory of so many chunks, by so many workers.
///
/// # Errors
///
/// `Input` where the bytes are no packed file of a value of the type of main's parameter.
pub fn local<R: Threads + Wait + Sync, G: Gate + Sync>(
    alloc: Global,
    runtime: Runtime<'_, R, G>,
    located: LocatedCore,
    options: Options,
    input: &[u8],
) -> Result<Made, Stop<'static>>
    requires short { length input.now ≤ FILE_BYTES }
    requires numbered { AreNumbered (core_of located.core) }
    ensures made { (p : Program) → p.located ≡ Some (core_of located.core) → RunsFor (core_of located.core) p.tree located.names
        → IfOk result (λ made. EndsBy (file_of made) made.end (RunsLocated p located.names options input.now)) }
    // The value is printed from the region memory that the code of this very core left, in no more chunks than are asked for.
    ensures region { (p : Program) → p.located ≡ Some (core_of located.core) → RunsFor (core_of located.core) p.tree located.names
        → IfOk result (λ made. ComesOfCore p located.names options input.now made.end) }
    ensures stop { (p : Program) → p.located ≡ Some (core_of located.core) → RunsFor (core_of located.core) p.tree located.names
        → IfErr result (IsRunStop p.tree located.names input.now) }
    ensures alone { IfOk result (λ made. made.packed ≡ None) }
{
    let LocatedCore { core, names } = located;
    let end = match run_located(alloc, runtime, core, &names, input, options) {
        Ok(end) => end,
        Err(stop) => return Err(stop),
    };
    match end {
        RunEnd::Value(ran) => Ok(Made {
            file: None,
            packed: None,
            end: End::Value(Valued { ran, names }),
        }),
        RunEnd::NoValue(reason) => Ok(no_value(reason)),
    }
}
