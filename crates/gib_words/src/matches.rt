//! What the matches of a command ask for.

ghost use Rattle.std.specs.Prelude.{◌≡◌, None, Some, codes, is_some, option_map, option_and_then};
ghost use Rattle.clap.specs.{Walk.{rows_of}, Simple.{subcommand_rows_of}, Matches.{found_of}};
ghost use Rattle.gib_words.specs.Words.{access_of, file_of, flag_of, number_of, number_or as number_asked, byte_or as byte_asked, made_requested, options_of, planned, read_requested, requested, usual as usual_options, word_of};
ghost use Rattle.gib_words.specs.{Words.{NoTarget, file_in, pack_in, target_in}, Kept.{document_of, plan_of, target_of}};

use crate::plan::{Document, Job, MadeNames, Options, Plan};
use clap::ArgMatches;
use gib_types::FieldAccess;

/// The options where none is given.
pub fn usual() -> Options
    ensures { result ≡ usual_options }
{
    Options {
        workers: 1,
        depth: 10_000,
        chunks: 1_024,
        fork: 4,
        pass: 4,
        image: false,
        packs: false,
        access: FieldAccess::Ends,
        number: 0,
        levels: 0,
        repacks: false,
        first_version: false,
    }
}

/// The word of a positional argument.
fn word<'a>(matches: &ArgMatches<'a>, id: &str) -> Option<&'a str>
    ensures { option_map (λ text. text.now) result ≡ word_of id.now (rows_of (found_of matches.now)) }
{
    matches.get_str(id)
}

/// The file that the word of a positional argument names.
fn file<'a>(matches: &ArgMatches<'a>, id: &str) -> Option<Document<'a>>
    ensures { option_map document_of result ≡ file_of id.now (rows_of (found_of matches.now)) }
{
    word(matches, id).map(Document::Named)
}

/// Whether there is a word.
fn is_given(matches: &ArgMatches<'_>, id: &str) -> bool
    ensures { result ≡ is_some (word_of id.now (rows_of (found_of matches.now))) }
{
    word(matches, id).is_some()
}

/// The number of an option.
fn number(matches: &ArgMatches<'_>, id: &str) -> Option<u32>
    ensures { result ≡ number_of id.now (rows_of (found_of matches.now)) }
{
    matches.get_one::<u32>(id)
}

/// The number of an option, or what stands where it is left out.
fn number_or(matches: &ArgMatches<'_>, id: &str, default: u32) -> u32
    ensures { result ≡ number_asked id.now default (rows_of (found_of matches.now)) }
{
    match number(matches, id) {
        Some(number) => number,
        None => default,
    }
}

/// The number of an option that 8 bits hold, or what stands where there is none.
fn byte_or(matches: &ArgMatches<'_>, id: &str, default: u8) -> u8
    ensures { result ≡ byte_asked id.now default (rows_of (found_of matches.now)) }
{
    match number(matches, id) {
        Some(number) => {
            if number < 256 {
                return number as u8;
            }
            default
        }
        None => default,
    }
}

/// Whether a flag is given.
fn flag(matches: &ArgMatches<'_>, id: &str) -> bool
    ensures { result ≡ flag_of id.now (rows_of (found_of matches.now)) }
{
    match word(matches, id) {
        Some(value) => value == "true",
        None => false,
    }
}

/// How fields are reached, by whether `--skips` is given.
fn access(matches: &ArgMatches<'_>) -> FieldAccess
    ensures { result ≡ access_of (rows_of (found_of matches.now)) }
{
    if flag(matches, "skips") {
        FieldAccess::Skips
    } else {
        FieldAccess::Ends
    }
}

/// All options.
fn options(matches: &ArgMatches<'_>) -> Options
    ensures { result ≡ options_of (rows_of (found_of matches.now)) }
{
    let usual = usual();
    Options {
        workers: number_or(matches, "workers", usual.workers),
        depth: number_or(matches, "depth", usual.depth),
        chunks: number_or(matches, "chunks", usual.chunks),
        fork: number_or(matches, "fork", usual.fork),
        pass: number_or(matches, "pass", usual.pass),
        image: is_given(matches, "image"),
        packs: is_given(matches, "pack"),
        access: access(matches),
        number: number_or(matches, "number", usual.number),
        levels: byte_or(matches, "levels", usual.levels),
        repacks: flag(matches, "from"),
        first_version: flag(matches, "v1"),
    }
}

/// A job on a source alone.
fn on_source<'a>(matches: &ArgMatches<'a>, job: Job) -> Option<Plan<'a>>
    ensures { option_map plan_of result ≡ planned job None None NoTarget None (rows_of (found_of matches.now)) }
{
    Some(Plan {
        first: None,
        source: file(matches, "source")?,
        second: None,
        third: None,
        target: None,
        pack: None,
        job,
        options: options(matches),
    })
}

/// What names the file that a command writes: nothing, since there is none; the word of a place; or an option, which may be left out.
#[derive(Clone, Copy)]
enum Target<'s> {
    Nothing,
    AtPlace(&'s str),
    ByOption(&'s str),
}

/// The name of the file that is written, where there is one.
fn target_in<'a>(matches: &ArgMatches<'a>, target: Target<'_>) -> Option<Option<&'a str>>
    ensures { option_map (option_map (λ text. text.now)) result ≡ target_in (target_of target.entry) (rows_of (found_of matches.now)) }
{
    match target {
        Target::Nothing => Some(None),
        Target::AtPlace(id) => Some(Some(word(matches, id)?)),
        Target::ByOption(id) => Some(word(matches, id)),
    }
}

/// The file at a place, where a command has one there.
fn file_in<'a>(matches: &ArgMatches<'a>, id: Option<&str>) -> Option<Option<Document<'a>>>
    ensures { option_map (option_map document_of) result ≡ file_in (option_map (λ text. text.now) id.entry) (rows_of (found_of matches.now)) }
{
    match id {
        None => Some(None),
        Some(id) => Some(Some(file(matches, id)?)),
    }
}

/// The name under which the packed file of a result is written, where a command has an option for it.
fn pack_in<'a>(matches: &ArgMatches<'a>, id: Option<&str>) -> Option<&'a str>
    ensures { option_map (λ text. text.now) result ≡ pack_in (option_map (λ text. text.now) id.entry) (rows_of (found_of matches.now)) }
{
    word(matches, id?)
}

/// What names the files of a command behind its source.
#[derive(Clone, Copy)]
struct Form<'s> {
    second: &'s str,
    third: Option<&'s str>,
    target: Target<'s>,
    pack: Option<&'s str>,
}

/// A second file alone.
fn second_alone(second: &str) -> Form<'_>
    ensures { result ≡ record { second = second.entry; third = None; target = Target.Nothing; pack = None } }
{
    Form {
        second,
        third: None,
        target: Target::Nothing,
        pack: None,
    }
}

/// A job on a source, a second file and what else a form names.
fn on_form<'a>(matches: &ArgMatches<'a>, job: Job, form: Form<'_>) -> Option<Plan<'a>>
    ensures { option_map plan_of result ≡ planned job (Some form.entry.second.now) (option_map (λ text. text.now) form.entry.third)
        (target_of form.entry.target) (option_map (λ text. text.now) form.entry.pack) (rows_of (found_of matches.now)) }
{
    Some(Plan {
        first: None,
        source: file(matches, "source")?,
        second: Some(file(matches, form.second)?),
        third: file_in(matches, form.third)?,
        target: target_in(matches, form.target)?,
        pack: pack_in(matches, form.pack),
        job,
        options: options(matches),
    })
}

/// To make a source and an input, to write both and to run what was made.
fn to_make<'a>(matches: &ArgMatches<'a>) -> Option<Plan<'a>>
    ensures { option_map plan_of result ≡ made_requested (rows_of (found_of matches.now)) }
{
    let options = options(matches);
    Some(Plan {
        first: Some(MadeNames {
            source: word(matches, "source")?,
            input: word(matches, "input")?,
        }),
        source: Document::MadeSource(options.number),
        second: Some(Document::MadeInput(options.number, options.levels)),
        third: None,
        target: None,
        pack: None,
        job: Job::Gen,
        options,
    })
}

const RUN: Form = Form {
    second: "input",
    third: None,
    target: Target::ByOption("image"),
    pack: Some("pack"),
};

const PACK: Form = Form {
    second: "text",
    third: None,
    target: Target::AtPlace("target"),
    pack: None,
};

const TRACE: Form = Form {
    second: "input",
    third: None,
    target: Target::AtPlace("journal"),
    pack: None,
};

const REPLAY: Form = Form {
    second: "input",
    third: Some("journal"),
    target: Target::ByOption("image"),
    pack: None,
};

/// What the matches of a command whose files are read ask for, by its name.
fn read_plan<'a>(name: &str, matches: &ArgMatches<'a>) -> Option<Plan<'a>>
    ensures { option_map plan_of result ≡ read_requested name.now (rows_of (found_of matches.now)) }
{
    match name {
        "run" => on_form(matches, Job::Run, RUN),
        "plain" => on_form(matches, Job::Plain, second_alone("input")),
        "check" => on_source(matches, Job::Check),
        "core" => on_source(matches, Job::Core),
        "code" => on_source(matches, Job::Code),
        "pack" => on_form(matches, Job::Pack, PACK),
        "show" => on_form(matches, Job::Show, second_alone("file")),
        "trace" => on_form(matches, Job::Trace, TRACE),
        "replay" => on_form(matches, Job::Replay, REPLAY),
        "local" => on_form(matches, Job::Local, second_alone("input")),
        _ => None,
    }
}

/// What the matches of the command with this name ask for.
fn command_plan<'a>(name: &str, matches: &ArgMatches<'a>) -> Option<Plan<'a>>
    ensures { option_map plan_of result ≡ requested name.now (rows_of (found_of matches.now)) }
{
    match name {
        "gen" => to_make(matches),
        _ => read_plan(name, matches),
    }
}

/// What the command that a parse entered asks for.
pub fn entered_plan<'a>(matches: &ArgMatches<'a>) -> Option<Plan<'a>>
    ensures { option_map plan_of result
        ≡ option_and_then (λ entered. requested entered.0 entered.1) (subcommand_rows_of matches.now) }
{
    let (name, inner) = matches.subcommand()?;
    command_plan(name, inner)
}
