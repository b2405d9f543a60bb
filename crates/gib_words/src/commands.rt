//! The commands of the program with their arguments, as `clap` takes them.

ghost use Rattle.std.specs.Prelude.{◌≡◌, [], ◌∷◌, IfOk, Some, codes, false, true, fold};
ghost use Rattle.clap.specs.declared.builder.value_parser.ValueParser.TheVariants.{Unsigned};
ghost use Rattle.clap.specs.{Walk.{rule_of}, Simple.{App, app_of, new_app, with_rule, with_subcommand}};
ghost use Rattle.gib_words.specs.Words.{app_for, bare_program, chunks, command_set, depth, flag, fork, gen_app, number, numeral, positional, skips, word, workers};
ghost use Rattle.gib_words.specs.Words.{check_form, code_form, core_form, local_form, pack_form, plain_form, replay_form, run_form, show_form, trace_form};

use clap::builder::ValueParser;
use clap::{Arg, ArgAction, Command};
use std::alloc::{AllocError, Global};

/// A word by its place, which has to be there.
fn positional<'a>(alloc: Global, id: &'a str) -> Arg<'a>
    ensures rule { rule_of result ≡ positional id.entry.now }
    ensures local { result.global ≡ false }
{
    Arg::new(alloc, id).required(true)
}

/// `--name WORD`, which may be left out.
fn word<'a>(alloc: Global, name: &'a str) -> Arg<'a>
    ensures rule { rule_of result ≡ word name.entry.now }
    ensures local { result.global ≡ false }
{
    Arg::new(alloc, name).long(name)
}

/// An argument whose word is a number from `least` to `most`.
fn ranged<'a>(arg: Arg<'a>, least: u64, most: u64) -> Arg<'a>
    ensures rule { rule_of result ≡ record (rule_of arg.entry) { parser = Some (Unsigned least most) } }
    ensures local { result.global ≡ arg.entry.global }
{
    arg.value_parser(ValueParser::unsigned(least, most))
}

/// `--name N`, a number from `least` to `most`, which may be left out.
fn number<'a>(alloc: Global, name: &'a str, least: u64, most: u64) -> Arg<'a>
    ensures rule { rule_of result ≡ number name.entry.now least most }
    ensures local { result.global ≡ false }
{
    ranged(word(alloc, name), least, most)
}

/// `--name`, which may be left out.
fn flag<'a>(alloc: Global, name: &'a str) -> Arg<'a>
    ensures rule { rule_of result ≡ flag name.entry.now }
    ensures local { result.global ≡ false }
{
    word(alloc, name).action(ArgAction::SetTrue)
}

/// `--depth N`, how deep calls may go.
fn depth<'a>(alloc: Global) -> Arg<'a>
    ensures rule { rule_of result ≡ depth }
    ensures local { result.global ≡ false }
{
    number(alloc, "depth", 1, 1_000_000)
}

/// A command of this name on a source.
fn on_source<'a>(alloc: Global, name: &'a str) -> Result<Command<'a>, AllocError>
    ensures { IfOk result (λ command. app_of command ≡ with_rule (new_app name.entry.now) (positional (codes "source"))) }
{
    Command::new(alloc, name).arg(positional(alloc, "source"))
}

/// A command of this name on a source and a second file.
fn on_both<'a>(alloc: Global, name: &'a str, second: &'a str) -> Result<Command<'a>, AllocError>
    ensures { IfOk result (λ command. app_of command ≡ with_rule (with_rule (new_app name.entry.now) (positional (codes "source"))) (positional second.entry.now)) }
{
    on_source(alloc, name)?.arg(positional(alloc, second))
}

/// A command with the options of a run by workers.
fn with_worker_options<'a>(alloc: Global, command: Command<'a>) -> Result<Command<'a>, AllocError>
    ensures { IfOk result (λ c. app_of c ≡ fold with_rule (app_of command.entry) (workers ∷ depth ∷ chunks ∷ fork ∷ [])) }
{
    command
        .arg(number(alloc, "workers", 1, 64))?
        .arg(depth(alloc))?
        .arg(number(alloc, "chunks", 16, 65_536))?
        .arg(number(alloc, "fork", 0, 64))
}

/// A command with the options of a run.
fn with_run_options<'a>(alloc: Global, command: Command<'a>) -> Result<Command<'a>, AllocError>
    ensures { IfOk result (λ c. app_of c ≡ fold with_rule (app_of command.entry) (workers ∷ depth ∷ chunks ∷ fork ∷ skips ∷ [])) }
{
    with_worker_options(alloc, command)?.arg(flag(alloc, "skips"))
}

/// `run SOURCE INPUT [--workers N] [--depth N] [--chunks N] [--fork N] [--skips] [--image FILE] [--pack FILE]`.
fn run_command<'a>(alloc: Global) -> Result<Command<'a>, AllocError>
    ensures { IfOk result (λ command. app_of command ≡ app_for run_form) }
{
    with_run_options(alloc, on_both(alloc, "run", "input")?)?
        .arg(word(alloc, "image"))?
        .arg(word(alloc, "pack"))
}

/// `plain SOURCE INPUT [--depth N]`.
fn plain_command<'a>(alloc: Global) -> Result<Command<'a>, AllocError>
    ensures { IfOk result (λ command. app_of command ≡ app_for plain_form) }
{
    on_both(alloc, "plain", "input")?.arg(depth(alloc))
}

/// `check SOURCE`.
fn check_command<'a>(alloc: Global) -> Result<Command<'a>, AllocError>
    ensures { IfOk result (λ command. app_of command ≡ app_for check_form) }
{
    on_source(alloc, "check")
}

/// `core SOURCE [--pass P] [--skips]`.
fn core_command<'a>(alloc: Global) -> Result<Command<'a>, AllocError>
    ensures { IfOk result (λ command. app_of command ≡ app_for core_form) }
{
    on_source(alloc, "core")?
        .arg(number(alloc, "pass", 1, 4))?
        .arg(flag(alloc, "skips"))
}

/// `code SOURCE [--skips]`.
fn code_command<'a>(alloc: Global) -> Result<Command<'a>, AllocError>
    ensures { IfOk result (λ command. app_of command ≡ app_for code_form) }
{
    on_source(alloc, "code")?.arg(flag(alloc, "skips"))
}

/// `pack SOURCE TEXT TARGET [--from] [--v1]`.
fn pack_command<'a>(alloc: Global) -> Result<Command<'a>, AllocError>
    ensures { IfOk result (λ command. app_of command ≡ app_for pack_form) }
{
    on_both(alloc, "pack", "text")?
        .arg(positional(alloc, "target"))?
        .arg(flag(alloc, "from"))?
        .arg(flag(alloc, "v1"))
}

/// `show SOURCE FILE [--skips]`.
fn show_command<'a>(alloc: Global) -> Result<Command<'a>, AllocError>
    ensures { IfOk result (λ command. app_of command ≡ app_for show_form) }
{
    on_both(alloc, "show", "file")?.arg(flag(alloc, "skips"))
}

/// `trace SOURCE INPUT JOURNAL [--workers N] [--depth N] [--chunks N] [--fork N] [--skips]`.
fn trace_command<'a>(alloc: Global) -> Result<Command<'a>, AllocError>
    ensures { IfOk result (λ command. app_of command ≡ app_for trace_form) }
{
    with_run_options(
        alloc,
        on_both(alloc, "trace", "input")?.arg(positional(alloc, "journal"))?,
    )
}

/// `replay SOURCE INPUT JOURNAL [--image FILE]`.
fn replay_command<'a>(alloc: Global) -> Result<Command<'a>, AllocError>
    ensures { IfOk result (λ command. app_of command ≡ app_for replay_form) }
{
    on_both(alloc, "replay", "input")?
        .arg(positional(alloc, "journal"))?
        .arg(word(alloc, "image"))
}

/// `local SOURCE INPUT [--workers N] [--depth N] [--chunks N] [--fork N]`.
fn local_command<'a>(alloc: Global) -> Result<Command<'a>, AllocError>
    ensures { IfOk result (λ command. app_of command ≡ app_for local_form) }
{
    with_worker_options(alloc, on_both(alloc, "local", "input")?)
}

/// A number from `least` to `most` by its place, which has to be there.
fn numeral<'a>(alloc: Global, id: &'a str, least: u64, most: u64) -> Arg<'a>
    ensures rule { rule_of result ≡ numeral id.entry.now least most }
    ensures local { result.global ≡ false }
{
    ranged(positional(alloc, id), least, most)
}

/// `gen` on what has to be there: a number, levels, and the names of a source and an input.
fn on_made<'a>(alloc: Global) -> Result<Command<'a>, AllocError>
    ensures { IfOk result (λ command. app_of command ≡ with_rule (with_rule (with_rule (with_rule (new_app (codes "gen")) (numeral (codes "number") 0 2147483647)) (numeral (codes "levels") 0 18)) (positional (codes "source"))) (positional (codes "input"))) }
{
    Command::new(alloc, "gen")
        .arg(numeral(alloc, "number", 0, 2_147_483_647))?
        .arg(numeral(alloc, "levels", 0, 18))?
        .arg(positional(alloc, "source"))?
        .arg(positional(alloc, "input"))
}

/// `gen NUMBER LEVELS SOURCE INPUT [--workers N] [--depth N] [--chunks N] [--fork N] [--skips]`.
fn gen_command<'a>(alloc: Global) -> Result<Command<'a>, AllocError>
    ensures { IfOk result (λ command. app_of command ≡ gen_app) }
{
    with_run_options(alloc, on_made(alloc)?)
}

/// The program before its commands. All that `clap` refuses is one answer here, so nothing asks for help.
fn bare_program<'a>(alloc: Global) -> Command<'a>
    ensures { app_of result ≡ bare_program }
{
    Command::new(alloc, "gib")
        .disable_help_flag(true)
        .disable_help_subcommand(true)
        .subcommand_required(true)
}

/// A program with one more command, where there are both. Each step is a call, since a way out at each would drop all that was made.
fn add_command<'a>(
    program: Result<Command<'a>, AllocError>,
    command: Result<Command<'a>, AllocError>,
) -> Result<Command<'a>, AllocError>
    ensures { (old added : App) → IfOk program.entry (λ p. app_of p ≡ old) → IfOk command.entry (λ c. app_of c ≡ added) → added.top.is_plain ≡ true
        → IfOk result (λ p. app_of p ≡ with_subcommand old added.top) }
{
    program?.subcommand(command?)
}

/// The program with its commands.
pub fn command_set<'a>(alloc: Global) -> Result<Command<'a>, AllocError>
    ensures { IfOk result (λ command. app_of command ≡ command_set) }
{
    let program = add_command(Ok(bare_program(alloc)), run_command(alloc));
    let program = add_command(program, plain_command(alloc));
    let program = add_command(program, check_command(alloc));
    let program = add_command(program, core_command(alloc));
    let program = add_command(program, code_command(alloc));
    let program = add_command(program, pack_command(alloc));
    let program = add_command(program, show_command(alloc));
    let program = add_command(program, trace_command(alloc));
    let program = add_command(program, replay_command(alloc));
    let program = add_command(program, local_command(alloc));
    add_command(program, gen_command(alloc))
}
