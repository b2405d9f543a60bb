//! What a plan's job makes of its files.

ghost use Rattle.std.specs.Prelude.{◌≡◌, ◌≤◌, [], length, Some, IfOk, IfErr, IfSome, OnOk, option_map, option_to_list};
ghost use Rattle.gib_base.specs.{declared.token.Dialect.TheVariants.{Source as Sources, Located as Locateds}, Texts.{TextsView}};
ghost use Rattle.gib_syntax.specs.Parts.{program_of};
ghost use Rattle.gib_core.specs.{Numbering.{AreNumbered}, Parts.{core_of}};
ghost use Rattle.gib_app.specs.{Formats.{dialect_of, most_of, inputs_of}, Causes.{AreFurther, AreGiven, OnSource, first_of, further_of}};
ghost use Rattle.gib_app.specs.{Calls.{read_calls, input_calls, reads_of}, Readings.{HasRead, HasStopped}, Kept.{contents_of, file_of, packed_of}};
ghost use Rattle.gib_app.specs.{FromSource.{StandsFor, IsTaken, IsTakingStop, IsFinished}, MachineRun.{RunsFor}, Running.{Program, sourced}};
ghost use Rattle.gib_app.specs.{Stops.{IsReady, IsSourceStop, IsInputStop, IsFurtherStop, IsInputsStop, IsMakeStop}, Performing.{IsDone, IsOfRun}};
ghost use Rattle.gib_words.specs.{Kept.{document_of, plan_of}, Ranges.{AreInRange}};

use crate::compile::{Compiled, compile};
use crate::documents::read_document;
use crate::input_fault::InputFault;
use crate::inputs::{dialect_of, second_input, third_input};
use crate::jobs::local::local;
use crate::jobs::{Given, do_job};
use crate::located::{LocatedCore, locate};
use crate::made::Made;
use crate::packed::survey_input;
use crate::runtime::Runtime;
use crate::source_fault::SourceFault;
use crate::stop::Stop;
use gib_base::Texts;
use gib_base::limits::SOURCE_BYTES;
use gib_base::token::Dialect;
use gib_check::Typed;
use gib_edge::outside::{Gate, Shelf};
use gib_words::plan::{Document, Plan};
use std::alloc::Global;
use std::sync::Wait;
use std::thread::Threads;

/// The bytes of the inputs of a plan.
#[derive(Drop)]
struct Inputs {
    second: Vec<u8>,
    journal: Option<Vec<u8>>,
}

/// What a source leaves: its program, whose places are left to the passes, or the core that it writes out.
#[derive(Drop)]
enum Taken {
    Program(Compiled),
    Core(LocatedCore),
}

/// What the bytes of a source leave.
fn taken_from(alloc: Global, dialect: Dialect, source: &[u8]) -> Result<Taken, Stop<'static>>
    ensures taken { IfOk result (λ taken. IsTaken dialect taken source.now) }
    ensures stop { IfErr result (IsTakingStop dialect source.now) }
{
    match dialect {
        Dialect::Source => match compile(alloc, source) {
            Ok(compiled) => Ok(Taken::Program(compiled)),
            Err(stop) => Err(stop),
        },
        Dialect::Located => match locate(alloc, source) {
            Ok(located) => Ok(Taken::Core(located)),
            Err(stop) => Err(stop),
        },
    }
}

/// What a source leaves that is read in a dialect.
///
/// # Errors
///
/// `Source` where it is no program of that dialect; `Unread`, `Memory`.
fn take_source<'a, S: Shelf>(
    alloc: Global,
    shelf: &mut S,
    dialect: Dialect,
    document: Document<'a>,
) -> Result<Taken, Stop<'a>>
    ensures taken { IfOk result (λ taken. OnSource (S.view shelf.old).kept (document_of document.entry) (IsTaken dialect taken)) }
    ensures stop { IfErr result (IsSourceStop dialect (S.view shelf.old) (S.view shelf.new) (document_of document.entry)) }
    ensures read { OnOk result (HasRead (S.view shelf.old) (S.view shelf.new) (read_calls (document_of document.entry) 1048576)) }
    ensures stopped { IfErr result (HasStopped (S.view shelf.old) (S.view shelf.new) (read_calls (document_of document.entry) 1048576)) }
{
    let source = match read_document(shelf, alloc, document, SOURCE_BYTES) {
        Ok(Some(source)) => source,
        Ok(None) => return Err(Stop::Source(SourceFault::Long)),
        Err(stop) => return Err(stop),
    };
    match taken_from(alloc, dialect, &source) {
        Ok(taken) => Ok(taken),
        Err(stop) => Err(stop),
    }
}

/// The bytes of the second file; none where a plan has one file alone.
fn read_second<'a, S: Shelf>(
    alloc: Global,
    shelf: &mut S,
    plan: Plan<'a>,
) -> Result<Vec<u8>, Stop<'a>>
    ensures bytes { IfOk result (λ bytes. AreGiven (S.view shelf.old).kept (first_of (inputs_of (plan_of plan.entry)))
        (record { second = bytes.items; further = [] })) }
    ensures most { IfOk result (λ bytes. length bytes.items ≤ most_of plan.entry.job) }
    ensures stop { IfErr result (IsInputStop (S.view shelf.old) (S.view shelf.new) (plan_of plan.entry)) }
    ensures read { OnOk result (HasRead (S.view shelf.old) (S.view shelf.new) (input_calls (first_of (inputs_of (plan_of plan.entry))))) }
    ensures stopped { IfErr result (HasStopped (S.view shelf.old) (S.view shelf.new) (input_calls (first_of (inputs_of (plan_of plan.entry))))) }
{
    let Some(input) = second_input(plan) else {
        return Ok(Vec::new(alloc));
    };
    match read_document(shelf, alloc, input.document, input.most) {
        Ok(Some(bytes)) => Ok(bytes),
        Ok(None) => Err(Stop::Input(InputFault::Long(input.most))),
        Err(stop) => Err(stop),
    }
}

/// The bytes of the third file; none where a plan has none. The second file is looked over first.
///
/// # Errors
///
/// `Input` where the second file is no packed file of a value of the type of main's parameter, or else the third has too many bytes;
/// `Unread`, `Memory`.
fn read_third<'a, S: Shelf>(
    alloc: Global,
    shelf: &mut S,
    plan: Plan<'a>,
    typed: &Typed,
    names: &Texts,
    second: &[u8],
) -> Result<Option<Vec<u8>>, Stop<'a>>
    requires most { length second.now ≤ most_of plan.job }
    ensures bytes { IfOk result (λ found. AreFurther (S.view shelf.old).kept (further_of (inputs_of (plan_of plan.entry)))
        (option_to_list (option_map (λ bytes. bytes.items) found))) }
    ensures most { IfOk result (λ found. IfSome found (λ bytes. length bytes.items ≤ 16777216)) }
    ensures stop { IfErr result (IsFurtherStop (S.view shelf.old) (S.view shelf.new) (plan_of plan.entry)
        (sourced (program_of typed.now)) names.now second.now) }
    ensures read { OnOk result (HasRead (S.view shelf.old) (S.view shelf.new) (input_calls (further_of (inputs_of (plan_of plan.entry))))) }
    ensures stopped { IfErr result (HasStopped (S.view shelf.old) (S.view shelf.new) (input_calls (further_of (inputs_of (plan_of plan.entry))))) }
{
    let Some(third) = third_input(plan) else {
        return Ok(None);
    };
    let survey = match survey_input(alloc, typed, names, second) {
        Ok(survey) => survey,
        Err(stop) => return Err(stop),
    };
    let _packed = survey.payload();
    match read_document(shelf, alloc, third.document, third.most) {
        Ok(Some(bytes)) => Ok(Some(bytes)),
        Ok(None) => Err(Stop::Input(InputFault::Long(third.most))),
        Err(stop) => Err(stop),
    }
}

/// The bytes of all inputs of a plan, in their order.
///
/// # Errors
///
/// As `read_second`, else as `read_third`.
fn read_inputs<'a, S: Shelf>(
    alloc: Global,
    shelf: &mut S,
    plan: Plan<'a>,
    compiled: &Compiled,
) -> Result<Inputs, Stop<'a>>
    ensures bytes { IfOk result (λ inputs. AreGiven (S.view shelf.old).kept (inputs_of (plan_of plan.entry))
        (record { second = inputs.second.items; further = option_to_list (option_map (λ bytes. bytes.items) inputs.journal) })) }
    ensures most { IfOk result (λ inputs. length inputs.second.items ≤ most_of plan.entry.job) }
    ensures short { IfOk result (λ inputs. IfSome inputs.journal (λ bytes. length bytes.items ≤ 16777216)) }
    ensures stop { IfErr result (IsInputsStop (S.view shelf.old) (S.view shelf.new) (plan_of plan.entry)
        (sourced (program_of compiled.now.typed)) compiled.now.names) }
    ensures read { OnOk result (HasRead (S.view shelf.old) (S.view shelf.new) (input_calls (inputs_of (plan_of plan.entry)))) }
    ensures stopped { IfErr result (HasStopped (S.view shelf.old) (S.view shelf.new) (input_calls (inputs_of (plan_of plan.entry)))) }
{
    let second = match read_second(alloc, shelf, plan) {
        Ok(second) => second,
        Err(stop) => return Err(stop),
    };
    match read_third(
        alloc,
        shelf,
        plan,
        &compiled.typed,
        &compiled.names,
        &second,
    ) {
        Ok(journal) => Ok(Inputs { second, journal }),
        Err(stop) => Err(stop),
    }
}

/// The bytes of the inputs as a job takes them.
fn given(inputs: &Inputs) -> Given<'_>
    requires short { IfSome inputs.now.journal (λ bytes. length bytes.items ≤ 16777216) }
    ensures contents { contents_of result ≡ record {
      second = inputs.now.second.items;
      further = option_to_list (option_map (λ bytes. bytes.items) inputs.now.journal);
    } }
    ensures second { result.second.now ≡ inputs.now.second.items }
    ensures short { IfSome result.journal (λ bytes. length bytes.now ≤ 16777216) }
{
    match &inputs.journal {
        Some(journal) => Given {
            second: &inputs.second,
            journal: Some(journal.as_slice()),
        },
        None => Given {
            second: &inputs.second,
            journal: None,
        },
    }
}

/// What a plan's job makes of a program whose places are left to the passes, and of its further files.
///
/// # Errors
///
/// As `finish`.
fn finish_program<'a, R: Threads + Wait + Sync, S: Shelf, G: Gate + Sync>(
    alloc: Global,
    runtime: Runtime<'_, R, G>,
    shelf: &mut S,
    plan: Plan<'a>,
    compiled: Compiled,
) -> Result<Made, Stop<'a>>
    requires dialect { dialect_of plan.job ≡ Sources }
    requires range { AreInRange plan.job plan.options }
    requires ready { IsReady (program_of compiled.typed) compiled.names }
    ensures made { IfOk result (λ made. IsFinished (S.view shelf.old).kept (plan_of plan.entry) (sourced (program_of compiled.typed)) compiled.names made) }
    ensures stop { IfErr result (IsInputsStop (S.view shelf.old) (S.view shelf.new) (plan_of plan.entry) (sourced (program_of compiled.typed)) compiled.names) }
    ensures read { OnOk result (HasRead (S.view shelf.old) (S.view shelf.new) (input_calls (inputs_of (plan_of plan.entry)))) }
    ensures stopped { IfErr result (HasStopped (S.view shelf.old) (S.view shelf.new) (input_calls (inputs_of (plan_of plan.entry)))) }
{
    let inputs = match read_inputs(alloc, shelf, plan, &compiled) {
        Ok(inputs) => inputs,
        Err(stop) => return Err(stop),
    };
    match do_job(
        alloc,
        runtime,
        compiled,
        plan.job,
        plan.options,
        given(&inputs),
    ) {
        Ok(made) => Ok(made),
        Err(stop) => Err(stop),
    }
}

/// What a plan's job makes of a core that a source writes out, and of its further file.
///
/// # Errors
///
/// As `finish`.
fn finish_core<'a, R: Threads + Wait + Sync, S: Shelf, G: Gate + Sync>(
    alloc: Global,
    runtime: Runtime<'_, R, G>,
    shelf: &mut S,
    plan: Plan<'a>,
    located: LocatedCore,
) -> Result<Made, Stop<'a>>
    requires dialect { dialect_of plan.job ≡ Locateds }
    requires numbered { AreNumbered (core_of located.core) }
    ensures made { (p : Program) → p.located ≡ Some (core_of located.core) → RunsFor (core_of located.core) p.tree located.names
        → IfOk result (λ made. IsFinished (S.view shelf.old).kept (plan_of plan.entry) p located.names made) }
    ensures stop { (p : Program) → p.located ≡ Some (core_of located.core) → RunsFor (core_of located.core) p.tree located.names
        → IfErr result (IsInputsStop (S.view shelf.old) (S.view shelf.new) (plan_of plan.entry) p located.names) }
    ensures read { OnOk result (HasRead (S.view shelf.old) (S.view shelf.new) (input_calls (inputs_of (plan_of plan.entry)))) }
    ensures stopped { IfErr result (HasStopped (S.view shelf.old) (S.view shelf.new) (input_calls (inputs_of (plan_of plan.entry)))) }
{
    let second = match read_second(alloc, shelf, plan) {
        Ok(second) => second,
        Err(stop) => return Err(stop),
    };
    match local(alloc, runtime, located, plan.options, &second) {
        Ok(made) => Ok(made),
        Err(stop) => Err(stop),
    }
}

/// What a plan's job makes of what its source left, and of its further files.
///
/// # Errors
///
/// `Input` where the inputs are none that the job accepts; `Unread`, `Memory`.
fn finish<'a, R: Threads + Wait + Sync, S: Shelf, G: Gate + Sync>(
    alloc: Global,
    runtime: Runtime<'_, R, G>,
    shelf: &mut S,
    plan: Plan<'a>,
    taken: Taken,
) -> Result<Made, Stop<'a>>
    requires stands { (p : Program) × (names : TextsView) × StandsFor (dialect_of plan.job) taken p names }
    requires range { AreInRange plan.job plan.options }
    ensures made { (p : Program) (names : TextsView) → StandsFor (dialect_of plan.entry.job) taken p names
        → IfOk result (λ made. IsFinished (S.view shelf.old).kept (plan_of plan.entry) p names made) }
    ensures stop { (p : Program) (names : TextsView) → StandsFor (dialect_of plan.entry.job) taken p names
        → IfErr result (IsInputsStop (S.view shelf.old) (S.view shelf.new) (plan_of plan.entry) p names) }
    ensures read { OnOk result (HasRead (S.view shelf.old) (S.view shelf.new) (input_calls (inputs_of (plan_of plan.entry)))) }
    ensures stopped { IfErr result (HasStopped (S.view shelf.old) (S.view shelf.new) (input_calls (inputs_of (plan_of plan.entry)))) }
{
    match taken {
        Taken::Program(compiled) => finish_program(alloc, runtime, shelf, plan, compiled),
        Taken::Core(located) => finish_core(alloc, runtime, shelf, plan, located),
    }
}

/// What a plan's job makes of its files.
///
/// # Errors
///
/// The first cause in this order: the source is not read, or is no program; the second file is not read; where there is a third, the
/// second is refused, or the third is not read; they are refused.
pub fn make<'a, R: Threads + Wait + Sync, S: Shelf, G: Gate + Sync>(
    alloc: Global,
    runtime: Runtime<'_, R, G>,
    shelf: &mut S,
    plan: Plan<'a>,
) -> Result<Made, Stop<'a>>
    requires range { AreInRange plan.job plan.options }
    ensures made { IfOk result (λ made. IsDone (S.view shelf.old).kept (plan_of plan.entry) (file_of made) (packed_of made) made.end) }
    // Where the job ran in region memory, what it made comes from there.
    ensures region { IfOk result (λ made. IsOfRun (S.view shelf.old).kept (plan_of plan.entry) (file_of made) made.end) }
    ensures stop { IfErr result (IsMakeStop (S.view shelf.old) (S.view shelf.new) (plan_of plan.entry)) }
    ensures read { OnOk result (HasRead (S.view shelf.old) (S.view shelf.new) (reads_of (plan_of plan.entry))) }
    ensures stopped { IfErr result (HasStopped (S.view shelf.old) (S.view shelf.new) (reads_of (plan_of plan.entry))) }
{
    let taken = match take_source(alloc, shelf, dialect_of(plan.job), plan.source) {
        Ok(taken) => taken,
        Err(stop) => return Err(stop),
    };
    match finish(alloc, runtime, shelf, plan, taken) {
        Ok(made) => Ok(made),
        Err(stop) => Err(stop),
    }
}
