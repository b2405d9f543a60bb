//! `replay`: prints the value to which the events of a journal lead.

ghost use Rattle.std.specs.Prelude.{◌≡◌, ◌≤◌, [], ◌∷◌, length, IfOk, IfErr, None};
ghost use Rattle.gib_syntax.specs.Parts.{program_of};
ghost use Rattle.gib_app.specs.{Jobs.{Replays}, Kept.{EndsBy, file_of}, Stops.{IsReady, IsReplayStop}};

use crate::compile::Compiled;
use crate::imaging::shown;
use crate::machine_run::ran_of;
use crate::made::{Made, Reason};
use crate::printing::{no_value, of_stop};
use crate::replaying::{ReplayedRun, replay_packed};
use crate::stop::Stop;
use gib_base::limits::FILE_BYTES;
use gib_locked::Replayed;
use std::alloc::Global;

/// The value to which the events of a journal lead, on the bytes of an input, and the image of the memory then, where that is asked for.
///
/// # Errors
///
/// `Input` where the bytes are no packed file of a value of the type of main's parameter, or no journal whose events lead to an end.
pub fn replay(
    alloc: Global,
    compiled: &Compiled,
    image: bool,
    file: &[u8],
    journal: &[u8],
) -> Result<Made, Stop<'static>>
    requires ready { IsReady (program_of compiled.now.typed) compiled.now.names }
    requires short { length file.now ≤ FILE_BYTES }
    requires few { length journal.now ≤ FILE_BYTES }
    ensures made { IfOk result (λ made. EndsBy (file_of made) made.end
        (Replays (program_of compiled.now.typed) compiled.now.names image (record { second = file.now; further = journal.now ∷ [] }))) }
    ensures stop { IfErr result (IsReplayStop (program_of compiled.now.typed) compiled.now.names (record { second = file.now; further = journal.now ∷ [] })) }
    ensures alone { IfOk result (λ made. made.packed ≡ None) }
{
    let ReplayedRun { lowered, replayed } = match replay_packed(
        alloc,
        &compiled.typed,
        &compiled.names,
        file,
        journal,
    ) {
        Ok(run) => run,
        Err(stop) => return of_stop(stop),
    };
    let Replayed { answer, memory } = replayed;
    let ran = match ran_of(lowered, memory, answer) {
        Ok(ran) => ran,
        Err(why) => return Ok(no_value(Reason::Meant(why))),
    };
    ran.memory.owns_all();
    match shown(alloc, ran, &compiled.names, image) {
        Ok(made) => Ok(made),
        Err(_) => Err(Stop::Memory),
    }
}
