//! The jobs, one file each.

ghost use Rattle.std.specs.Prelude.{◌≡◌, ◌≤◌, false, length, None, Ok, Err, IfOk, IfErr, IfSome};
ghost use Rattle.gib_syntax.specs.Parts.{program_of};
ghost use Rattle.gib_app.specs.{Formats.{most_of}, Jobs.{Does, DoesAll, Replays, packs_of}};
ghost use Rattle.gib_app.specs.{Kept.{EndsBy, EndsByBoth, contents_of, file_of, inputs_in, names_in, packed_of, tree_in}, Remains.{ComesOfRun, SumsMemory}};
ghost use Rattle.gib_app.specs.{Rows.{row}, Running.{sourced}, Stops.{IsReady, IsReplayStop, FailsTo}};
ghost use Rattle.gib_words.specs.Ranges.{AreInRange};

mod check;
mod code_text;
mod core_text;
pub(crate) mod local;
mod made_run;
mod pack;
mod plain;
mod replay;
mod run;
mod show;
mod trace;

use crate::compile::Compiled;
use crate::made::Made;
use crate::request::Request;
use crate::runtime::Runtime;
use crate::stop::Stop;
use gib_base::limits::FILE_BYTES;
use gib_edge::outside::Gate;
use gib_words::plan::{Job, Options};
use std::alloc::Global;
use std::sync::Wait;
use std::thread::Threads;

/// The bytes of the inputs of a job.
#[derive(Clone, Copy)]
pub struct Given<'a> {
    pub second: &'a [u8],
    pub journal: Option<&'a [u8]>,
}

/// What a journal and an input are replayed to.
fn do_replay(alloc: Global, request: Request<'_>) -> Result<Made, Stop<'static>>
    requires ready { IsReady (tree_in request) (names_in request) }
    requires most { length request.input.now ≤ FILE_BYTES }
    requires short { IfSome request.journal (λ j. length j.now ≤ FILE_BYTES) }
    ensures made { IfOk result (λ made. EndsBy (file_of made) made.end
        (Replays (tree_in request.entry) (names_in request.entry) request.entry.options.image (inputs_in request.entry))) }
    ensures stop { IfErr result (IsReplayStop (tree_in request.entry) (names_in request.entry) (inputs_in request.entry)) }
    ensures alone { IfOk result (λ made. made.packed ≡ None) }
{
    let Request {
        compiled,
        options,
        input,
        journal,
    } = request;
    match journal {
        Some(journal) => replay::replay(alloc, compiled, options.image, input, journal),
        None => replay::replay(alloc, compiled, options.image, input, &[]),
    }
}

/// What a job other than `run`, which takes the program apart, makes of the bytes of its inputs.
fn do_beside<R: Threads + Wait + Sync, G: Gate + Sync>(
    alloc: Global,
    runtime: Runtime<'_, R, G>,
    job: Job,
    request: Request<'_>,
) -> Result<Made, Stop<'static>>
    requires other { job ≡ Job.Run → ⊥ }
    requires here { job ≡ Job.Local → ⊥ }
    requires ready { IsReady (tree_in request) (names_in request) }
    requires most { length request.input.now ≤ most_of job }
    requires short { IfSome request.journal (λ j. length j.now ≤ 16777216) }
    requires range { AreInRange job request.options }
    ensures made { IfOk result (λ made. EndsBy (file_of made) made.end
        (Does job request.entry.options (sourced (tree_in request.entry)) (names_in request.entry) (inputs_in request.entry))) }
    ensures stop { IfErr result (FailsTo job request.entry.options (sourced (tree_in request.entry)) (names_in request.entry) (inputs_in request.entry)) }
    ensures region { job ≡ Job.Gen → IfOk result (λ made. SumsMemory
        (tree_in request.entry) (names_in request.entry) request.entry.options request.entry.input.now made.end) }
    ensures beside { packs_of (row job) request.entry.options ≡ false }
    ensures alone { IfOk result (λ made. made.packed ≡ None) }
{
    match job {
        Job::Run => unreachable!(),
        Job::Plain => plain::plain(alloc, request),
        Job::Check => check::check(alloc),
        Job::Core => core_text::core_text(alloc, request),
        Job::Code => code_text::code_text(alloc, request),
        Job::Pack => pack::pack(alloc, request),
        Job::Show => show::show(alloc, request),
        Job::Gen => made_run::made_run(alloc, runtime, request),
        Job::Trace => trace::trace(alloc, runtime, request),
        Job::Replay => do_replay(alloc, request),
        Job::Local => unreachable!(),
    }
}

/// What a job makes, for a program whose places are left to the passes, of the bytes of its inputs.
///
/// # Errors
///
/// `Input` where the inputs are none that the job accepts; `Memory`.
pub fn do_job<R: Threads + Wait + Sync, G: Gate + Sync>(
    alloc: Global,
    runtime: Runtime<'_, R, G>,
    compiled: Compiled,
    job: Job,
    options: Options,
    given: Given<'_>,
) -> Result<Made, Stop<'static>>
    requires ready { IsReady (program_of compiled.typed) compiled.names }
    requires here { job ≡ Job.Local → ⊥ }
    requires most { length given.second.now ≤ most_of job }
    requires short { IfSome given.journal (λ j. length j.now ≤ 16777216) }
    requires range { AreInRange job options }
    ensures made { IfOk result (λ made. EndsByBoth (file_of made) (packed_of made) made.end
        (DoesAll job options (sourced (program_of compiled.typed)) compiled.names (contents_of given.entry))) }
    // Where it ran in region memory, what it made comes from there.
    ensures region { IfOk result (λ made. ComesOfRun (row job) (sourced (program_of compiled.typed)) compiled.names options given.entry.second.now
        (file_of made) made.end) }
    ensures stop { IfErr result (FailsTo job options (sourced (program_of compiled.typed)) compiled.names (contents_of given.entry)) }
{
    match job {
        Job::Run => run::run(alloc, runtime, compiled, options, given.second),
        _ => {
            let request = Request {
                compiled: &compiled,
                options,
                input: given.second,
                journal: given.journal,
            };
            do_beside(alloc, runtime, job, request)
        }
    }
}
