//! From the words of a command line to the LoCal text of a source's core.

ghost use Rattle.std.specs.Prelude.{◌≡◌, ◌≤◌, ◌∷◌, [], ℕ, List, None, Some, OnOk, IfOk, IfErr, MatchOption};
ghost use Rattle.std.specs.Result.{IsErrOf};
ghost use Rattle.gib_edge.specs.Causes.{AppendsPart, IsFrontOf};
ghost use Rattle.gib_app.specs.{Ending.{ReadsStay, OutStays}, Lines.{IsPut}, Stopping.{answer_of}, Cores.{core_after}};
ghost use Rattle.gib_words.specs.Words.{bytes_of};
ghost use Rattle.gib_syntax.specs.{Fine.{IsFineProgram}, Parts.{program_of}};
ghost use Rattle.gib_types.specs.declared.access.FieldAccess.TheVariants as access;
ghost use Rattle.gib_local_print.specs.LocatedText.{located_text};
ghost use Rattle.gib_located.specs.LocatedSource.{IsMadeAgain, HasCoreText, IsFault, IsUnreadSource, IsPrinted};
ghost use Rattle.gib_located.specs.LocatedSource.{IsCallFault, IsEnd, answer_for_fault, located_calls};
ghost use Rattle.gib_located.specs.LocatedScript.{read_script, read_ended, ended, Runs, IsRun};
ghost use Rattle.gib_script.specs.Script.{OnShelf};

use gib_app::Status;
use gib_app::answer::{Answer, Detail, Said, answer_to};
use gib_app::compile::compile;
use gib_app::lines::put_line;
use gib_app::lowering::checked_core;
use gib_app::stop::Stop;
use gib_base::Texts;
use gib_check::Typed;
use gib_edge::command_line::WordsFault;
use gib_edge::outside::{Shelf, ShelfFault, Sink};
use gib_infer::law::infer_numbers_variables;
use gib_local_print::law::printed_text_makes_its_core;
use gib_local_print::{PrintFault, print_located};
use gib_script::calls::{put_bytes, read_file};
use gib_types::FieldAccess;
use std::alloc::Global;

/// One byte more than a source may have.
const MOST: u64 = 1_048_577;

/// Why no text is put, or not all of it.
#[derive(Clone, Copy)]
pub enum Fault<'a> {
    /// As a call of the product stops.
    Stopped(Stop<'a>),
    /// The source is a program, and a name of its core is none of LoCal text.
    NoText,
}

/// The text of the core of a program that the grammar has. The tree whose tokens it has makes that core again, in which ends of values are told.
fn text_of_program(alloc: Global, typed: &Typed, names: &Texts) -> Result<Vec<u8>, PrintFault>
    requires fine { IsFineProgram (program_of typed.now) }
    ensures text { IfOk result (λ text. located_text names.now.long (core_after access.Ends 3 (program_of typed.now)) ≡ Some text.items) }
    ensures again { IfOk result (λ text. IsMadeAgain (core_after access.Ends 3 (program_of typed.now)) (Some text.items)) }
    ensures none { IsErrOf result PrintFault.NoText → located_text names.now.long (core_after access.Ends 3 (program_of typed.now)) ≡ None }
{
    let _typed = typed.program();
    typed.types().rules();
    infer_numbers_variables();
    printed_text_makes_its_core();
    let Ok(checked) = checked_core(alloc, typed, FieldAccess::Ends) else {
        return Err(PrintFault::Memory);
    };
    let core = checked.into_core();
    core.types_declared();
    core.literals_fit();
    match print_located(alloc, &core, names) {
        Ok(text) => Ok(text),
        Err(fault) => Err(fault),
    }
}

/// The text of the core of a source.
fn text_of(alloc: Global, source: &[u8]) -> Result<Vec<u8>, Fault<'static>>
    ensures text { IfOk result (λ text. HasCoreText source.now (Some text.items)) }
    ensures fault { IfErr result (IsFault source.now) }
{
    let compiled = match compile(alloc, source) {
        Ok(compiled) => compiled,
        Err(stop) => return Err(Fault::Stopped(stop)),
    };
    match text_of_program(alloc, &compiled.typed, &compiled.names) {
        Ok(text) => Ok(text),
        Err(PrintFault::NoText) => Err(Fault::NoText),
        Err(PrintFault::Memory) => Err(Fault::Stopped(Stop::Memory)),
    }
}

/// The one name that stands behind the program's.
fn source_name(words: &[String]) -> Option<&str>
    ensures { MatchOption result ((program name : List ℕ) → bytes_of words.now ≡ program ∷ name ∷ [] → ⊥)
        (λ name. (program : List ℕ) × (bytes_of words.now ≡ program ∷ name.now ∷ [])) }
{
    match words {
        [_, name] => Some(name.as_str()),
        _ => None,
    }
}

/// The bytes of a source, or the first of them.
fn read_source<'a, S: Shelf>(
    alloc: Global,
    shelf: &mut S,
    name: &'a str,
) -> Result<Vec<u8>, Fault<'a>>
    ensures bytes { IfOk result (λ bytes. IsFrontOf ((S.view shelf.old).kept name.now) 1048577 bytes.items) }
    ensures fault { IfErr result (IsUnreadSource name.now (S.view shelf.old) (S.view shelf.new)) }
    ensures follows { OnShelf S.tells (read_script name.now) (S.view shelf.old) (S.view shelf.new) (read_ended result) }
{
    match read_file(alloc, shelf, name, MOST) {
        Ok(bytes) => Ok(bytes),
        Err(ShelfFault::Failed) => Err(Fault::Stopped(Stop::Unread(name))),
        Err(ShelfFault::Memory) => Err(Fault::Stopped(Stop::Memory)),
    }
}

/// Puts the text of the core of the source that the words name.
fn call<'a, S: Shelf, O: Sink>(
    alloc: Global,
    words: &'a [String],
    shelf: &mut S,
    out: &mut O,
) -> Result<(), Fault<'a>>
    ensures printed { OnOk result (IsPrinted (bytes_of words.now) (S.view shelf.old).kept (O.view out.old).taken (O.view out.new).taken) }
    ensures fault { IfErr result (IsCallFault (bytes_of words.now) (S.view shelf.old) (S.view shelf.new) (O.view out.old) (O.view out.new)) }
    ensures follows { Runs S.tells (bytes_of words.now) (S.view shelf.old) (S.view shelf.new) (O.view out.old) (O.view out.new) (ended result) }
{
    let Some(name) = source_name(words) else {
        return Err(Fault::Stopped(Stop::Usage));
    };
    let source = match read_source(alloc, shelf, name) {
        Ok(source) => source,
        Err(fault) => return Err(fault),
    };
    let text = match text_of(alloc, &source) {
        Ok(text) => text,
        Err(fault) => return Err(fault),
    };
    match put_bytes(out, &text) {
        Ok(()) => Ok(()),
        Err(_) => Err(Fault::Stopped(Stop::Unput)),
    }
}

/// What is answered to a fault.
fn answer(fault: Fault<'_>) -> Answer<'_>
    ensures { answer_of result ≡ answer_for_fault fault.entry }
{
    match fault {
        Fault::Stopped(stop) => answer_to(stop),
        Fault::NoText => Answer {
            status: Status::Source,
            said: Said {
                words: b"source: no LoCal text",
                detail: Detail::Nothing,
            },
        },
    }
}

/// Puts the line of words that could not be taken from the system.
pub fn refuse<E: Sink>(err: &mut E, fault: WordsFault) -> Status {
    let stop = match fault {
        WordsFault::NoText => Stop::Usage,
        WordsFault::Memory => Stop::Memory,
    };
    let answer = answer_to(stop);
    let _ = put_line(err, answer.said);
    answer.status
}

/// Reads the source that the words name, puts the LoCal text of its core on `out`, and for every status but `Done` puts one line about it on `err`.
///
/// `words` begin with the program's name, which is not looked at.
pub fn located<S: Shelf, O: Sink, E: Sink>(
    alloc: Global,
    words: &[String],
    shelf: &mut S,
    out: &mut O,
    err: &mut E,
) -> Status
    // Each status comes only by its cause, and its line is put on `err`, or a front of the line where the count of `err` rose. `Done` comes
    // only where exactly the text of the core of the source was put.
    ensures ends { (said : List ℕ) × IsEnd (bytes_of words.now) (S.view shelf.old) (S.view shelf.new) (O.view out.old) (O.view out.new) result said
        × IsPut (E.view err.old) (E.view err.new) said }

    // The calls follow the script of the words, and the status tells how it ended. The clauses below are what that leaves.
    ensures follows { IsRun S.tells (bytes_of words.now) (S.view shelf.old) (S.view shelf.new) (O.view out.old) (O.view out.new) result }

    // What files hold stays, and so do the counts of writes; those of reads never fall, and rise only with the status that tells of
    // them; but at `Done` and `WriteFault` nothing is put.
    ensures same { (name : List ℕ) → (S.view shelf.new).kept name ≡ (S.view shelf.old).kept name }
    ensures reads_later { (name : List ℕ) → (S.view shelf.old).reads name ≤ (S.view shelf.new).reads name }
    ensures reads { ReadsStay (S.view shelf.old).reads (S.view shelf.new).reads result }
    ensures writes { (name : List ℕ) → (S.view shelf.new).writes name ≡ (S.view shelf.old).writes name }
    ensures quiet { OutStays (O.view out.old) (O.view out.new) result }

    // The source is read once at most, with one byte more than its limit asked for, and no other file is touched.
    ensures calls { AppendsPart (S.view shelf.old).calls (S.view shelf.new).calls (located_calls (bytes_of words.now)) }
{
    let answer = match call(alloc, words, shelf, out) {
        Ok(()) => return Status::Done,
        Err(fault) => answer(fault),
    };
    let _ = put_line(err, answer.said);
    answer.status
}
