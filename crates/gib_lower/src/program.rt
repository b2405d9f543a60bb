//! The code of whole cores.

ghost use Rattle.std.specs.Prelude.{◌≡◌, ◌<◌, ◌^◌, ◌∷◌, [], Some, length, map, reverse, IfOk, OnOk};
ghost use Rattle.std.specs.List.{AllByRecursion};
ghost use Rattle.gib_core.specs.{Arena.{term_of}, Parts.{IsFunctionInside, core_of, function_term, results_of}};
ghost use Rattle.gib_core.specs.{Ending.{within_function, within_main, main_ended}, Low.{laid_of, Returns, answer_type as answer_spec}};
ghost use Rattle.gib_core.specs.{Numbering.{AreNumbered}, Fits.{AllFit, EachFits}};
ghost use Rattle.gib_code.specs.Instruction.{instruction_of};
ghost use Rattle.gib_code.specs.declared.instruction.AnswerType.TheVariants as of;
ghost use Rattle.gib_lower.specs.{Ends.{within_of}, Counting.{variables_of}};
ghost use Rattle.gib_lower.specs.Lowering.{label_in, entry_in, entry_of, numbered, lowered, lowered_functions, begun, lower_program};

use crate::atoms::answer_type;
use crate::counts::{Counts, count_of, plus};
use crate::emitted::Emitted;
use crate::ending::{Around, Overs};
use crate::fields::Fields;
use crate::law::lowering_gives_its_code;
use crate::numbering::{label_in, number_all};
use crate::source::Source;
use crate::telling::has_telling;
use crate::walk::{Lowering, lower_term};
use gib_base::Memory;
use gib_code::{AnswerType, Code, Entry, Instr};
use gib_core::known::is_known;
use gib_core::law::{built_fits, code_that_fits_can_be_run};
use gib_core::{Checked, CoreFunction, Lowered, TermId, Variable};
use gib_types::Ty;
use std::alloc::Global;

/// The code of a body, before the code that is there; its label.
fn lower_body(
    source: &Source,
    around: Around,
    body: TermId,
    out: &mut Lowering,
) -> Result<u32, Memory>
    requires inside { body.0 < length source.now.terms }
    requires outside { out.old.fields ≡ [] }
    requires none { out.old.overs ≡ [] }
    ensures code { IfOk result (λ _. out.new.code ≡ lowered (core_of source.now) (within_of around) [] (term_of source.now.terms body.0) (Returns []) out.old.code) }
    ensures outside { IfOk result (λ _. out.new.fields ≡ []) }
    ensures none { IfOk result (λ _. out.new.overs ≡ []) }
    ensures label { IfOk result (λ label. label ≡ length out.new.code) }
{
    lower_term(source, body, around.returning(), out)?;
    Ok(out.code.label())
}

/// Whether a function tells ends: it has an ended parameter, or calls that give ends.
fn around_function(
    alloc: Global,
    source: &Source,
    function: &CoreFunction,
) -> Result<Around, Memory>
    requires { function.now.body.0 < length source.now.terms }
    ensures { IfOk result (λ around. within_of around ≡ within_function (core_of source.now) (function_term (term_of source.now.terms) function.now)) }
{
    if source.ended().has_some(function.name) {
        return Ok(Around {
            ends: true,
            par: false,
        });
    }
    let ends = has_telling(alloc, source.terms(), source.ended(), function.body)?;
    Ok(Around { ends, par: false })
}

/// The code of a function, before the code that is there; the function as it stands there.
fn lower_function(
    source: &Source,
    counts: &Counts,
    function: &CoreFunction,
    out: &mut Lowering,
) -> Result<Entry, Memory>
    requires inside { function.now.body.0 < length source.now.terms }
    requires counts { counts.now ≡ record { terms = source.now.terms; upto = length source.now.terms } }
    requires outside { out.old.fields ≡ [] }
    requires none { out.old.overs ≡ [] }
    ensures code { IfOk result (λ _. out.new.code ≡ lowered (core_of source.now) (within_function (core_of source.now) (function_term (term_of source.now.terms) function.now)) [] (term_of source.now.terms function.now.body.0) (Returns []) out.old.code) }
    ensures outside { IfOk result (λ _. out.new.fields ≡ []) }
    ensures none { IfOk result (λ _. out.new.overs ≡ []) }
    ensures entry { IfOk result (λ entry. entry ≡ entry_of (Some function.now.name) (answer_spec (results_of function.now.result)) (length out.new.code) (length function.now.parameters.items) (term_of source.now.terms function.now.body.0)) }
{
    let around = around_function(out.alloc, source, function)?;
    let start = lower_body(source, around, function.body, out)?;
    let parameters = count_of(&function.parameters)?;
    let slots = plus(parameters, counts.of(function.body))?;
    Ok(Entry {
        name: Some(function.name),
        start,
        slots,
        result: answer_type(function.result),
    })
}

/// Whether main's parameter is ended.
fn is_main_ended(source: &Source) -> bool
    ensures { result ≡ main_ended (core_of source.now) }
{
    if !source.marked() {
        return false;
    }
    let main = source.main();
    match main.parameter {
        Ty::Whole | Ty::Truth => false,
        Ty::Tree(_) => {
            is_known(
                source.types(),
                source.terms(),
                source.ended(),
                main.body,
                Variable(0),
            )
        }
    }
}

/// Whether main tells ends: its parameter is ended, or it has calls that give ends.
fn around_main(alloc: Global, source: &Source) -> Result<Around, Memory>
    ensures { IfOk result (λ around. within_of around ≡ within_main (core_of source.now)) }
{
    if is_main_ended(source) {
        return Ok(Around {
            ends: true,
            par: false,
        });
    }
    let main = source.main();
    let ends = has_telling(alloc, source.terms(), source.ended(), main.body)?;
    Ok(Around { ends, par: false })
}

/// The code of main, which stands behind all others; main as it stands there.
fn lower_main(source: &Source, counts: &Counts, out: &mut Lowering) -> Result<Entry, Memory>
    requires counts { counts.now ≡ record { terms = source.now.terms; upto = length source.now.terms } }
    requires outside { out.old.fields ≡ [] }
    requires none { out.old.overs ≡ [] }
    requires last { out.old.code ≡ [] }
    ensures code { IfOk result (λ _. out.new.code ≡ lowered_functions (core_of source.now) []) }
    ensures outside { IfOk result (λ _. out.new.fields ≡ []) }
    ensures none { IfOk result (λ _. out.new.overs ≡ []) }
    ensures entry { IfOk result (λ entry. entry ∷ [] ≡ begun (core_of source.now) []) }
{
    let main = source.main();
    let around = around_main(out.alloc, source)?;
    let start = lower_body(source, around, main.body, out)?;
    let slots = plus(1, counts.of(main.body))?;
    Ok(Entry {
        name: None,
        start,
        slots,
        result: AnswerType::One(main.result),
    })
}

/// The code of functions, before main's, and the functions as they stand there, the last one first.
fn lower_functions(
    source: &Source,
    counts: &Counts,
    entries: &mut Vec<Entry>,
    out: &mut Lowering,
) -> Result<(), Memory>
    requires counts { counts.now ≡ record { terms = source.now.terms; upto = length source.now.terms } }
    requires outside { out.old.fields ≡ [] }
    requires none { out.old.overs ≡ [] }
    requires code { out.old.code ≡ lowered_functions (core_of source.now) [] }
    requires entries { reverse entries.old.items ≡ begun (core_of source.now) [] }
    ensures code { OnOk result (out.new.code ≡ lowered_functions (core_of source.now) (core_of source.now).functions) }
    ensures entries { OnOk result (reverse entries.new.items ≡ begun (core_of source.now) (core_of source.now).functions) }
{
    let functions = source.functions();
    let mut i = functions.len();
    'functions: while i > 0 {
        i -= 1;
        let entry = lower_function(source, counts, &functions[i], out)?;
        entries.push(entry)?;
    }
    Ok(())
}

/// The code of main and of the functions, and these as they stand there, main first.
fn lower_bodies(source: &Source, out: &mut Lowering) -> Result<Vec<Entry>, Memory>
    requires outside { out.old.fields ≡ [] }
    requires none { out.old.overs ≡ [] }
    requires empty { out.old.code ≡ [] }
    ensures code { IfOk result (λ _. out.new.code ≡ lowered_functions (core_of source.now) (core_of source.now).functions) }
    ensures entries { IfOk result (λ entries. reverse entries.items ≡ begun (core_of source.now) (core_of source.now).functions) }
{
    let counts = Counts::make(out.alloc, source.terms())?;
    let mut entries = Vec::new(out.alloc);
    let main = lower_main(source, &counts, out)?;
    entries.push(main)?;
    lower_functions(source, &counts, &mut entries, out)?;
    Ok(entries)
}

/// Entries in their order, with their labels as numbers of instructions.
fn number_entries(alloc: Global, count: u32, reversed: Vec<Entry>) -> Result<Vec<Entry>, Memory>
    ensures { IfOk result (λ entries. entries.items ≡ map (entry_in count) (reverse reversed.items)) }
{
    let mut left = reversed;
    let mut entries = Vec::new(alloc);
    'entries: while let Some(entry) = left.pop() {
        entries.push(Entry {
            name: entry.name,
            start: label_in(count, entry.start),
            slots: entry.slots,
            result: entry.result,
        })?;
    }
    Ok(entries)
}

/// The instructions and the functions of a core's code.
fn lower_core(alloc: Global, source: &Source) -> Result<(Vec<Instr>, Vec<Entry>), Memory>
    ensures instructions { IfOk result (λ made. map instruction_of made.0.items ≡ (lower_program (core_of source.now)).instructions) }
    ensures functions { IfOk result (λ made. made.1.items ≡ (lower_program (core_of source.now)).functions) }
    ensures few { IfOk result (λ made. length (map instruction_of made.0.items) < 2 ^ 32) }
{
    let mut out = Lowering {
        alloc,
        fields: Fields::new(alloc),
        overs: Overs::new(alloc),
        code: Emitted::new(alloc),
    };
    let reversed = lower_bodies(source, &mut out)?;
    let count = out.code.label();
    let instructions = number_all(alloc, out.code)?;
    let functions = number_entries(alloc, count, reversed)?;
    Ok((instructions, functions))
}

/// Each body of the core fits.
fn all_fits(checked: &Checked)
    requires { AreNumbered (core_of checked.now) }
    ensures named { AllFit (core_of checked.now) }
    ensures each { EachFits (core_of checked.now) }
{
    built_fits();
    let core = checked.core();
    core.types().rules();
    core.literals_fit();
}

/// A core with its code.
///
/// # Errors
///
/// Want of memory, which also stands for code of 2^32 instructions or more.
pub fn lower(alloc: Global, checked: Checked) -> Result<Lowered, Memory>
    requires { AreNumbered (core_of checked) }
    ensures core { IfOk result (λ lowered. lowered.core ≡ checked) }
    ensures code { IfOk result (λ lowered. lowered.code ≡ lower_program (core_of checked)) }
{
    lowering_gives_its_code();
    code_that_fits_can_be_run();
    all_fits(&checked);
    let source = Source::make(alloc, checked.into_core())?;
    let (instructions, functions) = lower_core(alloc, &source)?;
    let (core, layouts) = source.into_parts();
    let code = Code::new(layouts, instructions, functions);
    Ok(Lowered::make(Checked::make(core), code))
}
