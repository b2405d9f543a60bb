//! The top call.

ghost use Rattle.std.specs.Prelude.{◌≤◌, ℕ, List, OnOk, IfErr};
ghost use Rattle.gib_edge.specs.Causes.{AppendsPart};
ghost use Rattle.gib_app.specs.Statuses;
ghost use Rattle.gib_app.specs.{declared.status.Status.{Status as Statuses}, Calls.{calls_asked}, Lines.{IsPut}};
ghost use Rattle.gib_app.specs.Headline.{IsRun, IsResult, IsTooDeep, TellsWhatIsMeant, IsOrScarce, NoneFailed};
ghost use Rattle.gib_app.specs.{Ending.{IsEnding, FilesStay, ReadsStay, WritesStay, OutStays, IsDue, IsDueOrScarce}, Performing.{IsAnswered, IsUnanswered}};
ghost use Rattle.gib_words.specs.{Words.{bytes_of}, declared.plan.Options.{Options as OptionValues}};

use crate::answer::answer_to;
use crate::lines::put_line;
use crate::made::End;
use crate::perform::perform;
use crate::printing::put_value;
use crate::runtime::Runtime;
use crate::status::Status;
use crate::stop::Stop;
use gib_edge::outside::{Gate, Shelf, Sink, put_all};
use gib_file::one_file;
use gib_lex::laws::{one_reading, one_reading_in};
use gib_local_parse::law::one_text;
use gib_parse::law::one_program;
use gib_print::PrintFault;
use gib_words::words::read_words;
use std::alloc::Global;
use std::sync::Wait;
use std::thread::Threads;

/// Does what the words ask for, and puts what is printed.
fn call<'a, R: Threads + Wait + Sync, S: Shelf, O: Sink, G: Gate + Sync>(
    alloc: Global,
    runtime: Runtime<'_, R, G>,
    words: &'a [String],
    shelf: &mut S,
    out: &mut O,
) -> Result<(), Stop<'a>>
    ensures done { OnOk result (IsAnswered S.tells (bytes_of words.now)
        (record { shelf = S.view shelf.old; out = O.view out.old }) (record { shelf = S.view shelf.new; out = O.view out.new })) }
    ensures stop { IfErr result (IsUnanswered S.tells (bytes_of words.now)
        (record { shelf = S.view shelf.old; out = O.view out.old }) (record { shelf = S.view shelf.new; out = O.view out.new })) }
{
    let plan = match read_words(alloc, words) {
        Ok(plan) => plan,
        Err(_) => return Err(Stop::Memory),
    };
    let Some(plan) = plan else {
        return Err(Stop::Usage);
    };
    match perform(alloc, runtime, shelf, plan) {
        Ok(End::Prints(text)) => match put_all(out, &text) {
            Ok(()) => Ok(()),
            Err(_) => Err(Stop::Unput),
        },
        Ok(End::Value(value)) => match put_value(alloc, value, out) {
            Ok(()) => Ok(()),
            Err(PrintFault::Write) => Err(Stop::Unput),
            Err(PrintFault::Memory) => Err(Stop::Memory),
        },
        Ok(End::NoValue(reason)) => Err(Stop::NoValue(reason)),
        Err(stop) => Err(stop),
    }
}

/// Does what the words of a command line ask for: reads the files that they name, writes the one that they name
/// for that, puts what is printed on `out`, and for every status but `Done` puts one line about it on `err`.
///
/// `words` begin with the program's name, which is not looked at.
pub fn gib<R: Threads + Wait + Sync, S: Shelf, O: Sink, E: Sink, G: Gate + Sync>(
    rt: &R,
    alloc: Global,
    words: &[String],
    shelf: &mut S,
    out: &mut O,
    err: &mut E,
    gate: &G,
) -> Status
    // Each status comes only by its cause, and one line about it is put on `err`, or a front of the line where the count of `err` rose.
    // `Done` comes only where what the words ask for was made and put: for `run` the text of the value that the program means on the
    // input within the depth, for `pack` also its file was written, for `trace` the journal of its run.
    ensures ends { (said : List ℕ) × IsEnding S.tells (bytes_of words.now) (S.view shelf.old) (S.view shelf.new) (O.view out.old) (O.view out.new) result said
        × IsPut (E.view err.old) (E.view err.new) said }

    // Where the files are told and no count on the way rises, the status that is due is answered, unless memory runs out, or in a run
    // chunks of region memory do, which has its cause.
    ensures complete { (due : Statuses) → IsDue S.tells (bytes_of words.now) (S.view shelf.old) (S.view shelf.new) (O.view out.old) (O.view out.new) due → IsDueOrScarce (bytes_of words.now) due result }

    // The headline. Of a call that asks to run the program of one document on another: at 0 exactly the text of the value that the program
    // means on that input within the depth was put, and at 3 its meaning runs out of depth. (`ends` speaks of all calls, and
    // `headline.rt` of all that it says of these.)
    ensures runs { (source input : List ℕ) (options : OptionValues) (front : List ℕ) → IsRun (bytes_of words.now) (S.view shelf.old) (O.view out.old) source input options front
        → TellsWhatIsMeant source input options.depth front (O.view out.new) result }
    // The other way round: where no read, no write and no put failed, the status is 0 where the program means a value, and 3 where its
    // meaning runs out of depth, unless memory or its chunks run out.
    ensures runs_done { (source input output : List ℕ) (options : OptionValues) (front : List ℕ) → (r : IsRun (bytes_of words.now) (S.view shelf.old) (O.view out.old) source input options front)
        → NoneFailed r.program r.packed r.image (S.view shelf.old) (S.view shelf.new) (O.view out.old) (O.view out.new) → IsResult source input options.depth output → IsOrScarce Statuses.Done result }
    ensures runs_deep { (source input : List ℕ) (options : OptionValues) (front : List ℕ) → (r : IsRun (bytes_of words.now) (S.view shelf.old) (O.view out.old) source input options front)
        → NoneFailed r.program r.packed r.image (S.view shelf.old) (S.view shelf.new) (O.view out.old) (O.view out.new) → IsTooDeep source input options.depth → IsOrScarce Statuses.Depth result }

    // What files hold stays, but for those that are written, whose writes `ends` tells in their order; counts of faults never
    // fall, and rise only with the status that tells of them; but at `Done` and `WriteFault` nothing is put.
    ensures same { FilesStay S.tells (bytes_of words.now) (S.view shelf.old).kept (S.view shelf.new).kept result }
    ensures reads_later { (name : List ℕ) → (S.view shelf.old).reads name ≤ (S.view shelf.new).reads name }
    ensures reads { ReadsStay (S.view shelf.old).reads (S.view shelf.new).reads result }
    ensures writes_later { (name : List ℕ) → (S.view shelf.old).writes name ≤ (S.view shelf.new).writes name }
    ensures writes { WritesStay (S.view shelf.old).writes (S.view shelf.new).writes result }
    ensures quiet { OutStays (O.view out.old) (O.view out.new) result }

    // Each file is read or written once at most, in this order, with one byte more than its limit asked for, and no
    // file is touched that the words do not name.
    ensures calls { AppendsPart (S.view shelf.old).calls (S.view shelf.new).calls (calls_asked (bytes_of words.now)) }
{
    one_reading();
    one_program();
    one_reading_in();
    one_text();
    one_file();
    let runtime = Runtime { threads: rt, gate };
    let answer = match call(alloc, runtime, words, shelf, out) {
        Ok(()) => return Status::Done,
        Err(stop) => answer_to(stop),
    };
    let _ = put_line(err, answer.said);
    answer.status
}
