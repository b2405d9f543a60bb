//! Words of command lines with what they ask for.

use crate::harness::words_of;
use gib_types::FieldAccess;
use gib_words::matches::usual;
use gib_words::plan::{Document, Job, Options, Plan};
use gib_words::sample::{SAMPLE_INPUT, SAMPLE_SOURCE};
use gib_words::words::read_words;
use std::alloc::{AllocError, Global};
use std::test::Fail;

/// The name of a document's file.
fn name<'a>(document: Document<'a>) -> &'a str {
    match document {
        Document::BuiltIn(_) => "(built in)",
        Document::Named(name) => name,
        Document::MadeSource(_) => "(a source)",
        Document::MadeInput(_, _) => "(an input)",
    }
}

/// The name of a job's command.
fn command(job: Job) -> &'static str {
    match job {
        Job::Run => "run",
        Job::Plain => "plain",
        Job::Check => "check",
        Job::Core => "core",
        Job::Code => "code",
        Job::Pack => "pack",
        Job::Show => "show",
        Job::Gen => "gen",
        Job::Trace => "trace",
        Job::Replay => "replay",
        Job::Local => "local",
    }
}

/// Puts the options of a line that are not the usual ones.
fn push_options(line: &mut String, alloc: Global, options: &Options) -> Result<(), AllocError> {
    let numbers = [
        ("workers", options.workers, 1),
        ("fork", options.fork, 4),
        ("depth", options.depth, 10_000),
        ("chunks", options.chunks, 1_024),
        ("pass", options.pass, 4),
    ];
    for (option, value, usual) in numbers {
        if value != usual {
            line.push_str(&format!(in alloc; " {option} {value}")?)?;
        }
    }
    let set = [
        (" image", options.image),
        (" packs", options.packs),
        (" skips", options.access == FieldAccess::Skips),
    ];
    for (option, set) in set {
        if set {
            line.push_str(option)?;
        }
    }
    Ok(())
}

/// A plan as one line: its job, its files, and the options that are not the usual ones; or `not taken`.
fn shown(alloc: Global, plan: Option<Plan<'_>>) -> Result<String, AllocError> {
    let Some(plan) = plan else {
        return String::from_str(alloc, "not taken");
    };
    let mut line = String::from_str(alloc, command(plan.job))?;
    for document in [Some(plan.source), plan.second, plan.third] {
        if let Some(document) = document {
            line.push_str(" ")?;
            line.push_str(name(document))?;
        }
    }
    for name in [plan.target, plan.pack] {
        if let Some(name) = name {
            line.push_str(" ")?;
            line.push_str(name)?;
        }
    }
    push_options(&mut line, alloc, &plan.options)?;
    Ok(line)
}

/// Whether the words of a line, behind the program's name, ask for what another line says.
fn ask_for(alloc: Global, words: &str, line: &str) -> Result<bool, AllocError> {
    let words = words_of(alloc, words)?;
    let plan = read_words(alloc, words.as_slice())?;
    let asked = shown(alloc, plan)?;
    Ok(asked.as_str() == line)
}

/// Whether a plan is to run the product's own program on its own input, with the usual options.
fn is_sample(plan: Option<Plan<'_>>) -> bool {
    let Some(plan) = plan else {
        return false;
    };
    match (plan.source, plan.second) {
        (Document::BuiltIn(source), Some(Document::BuiltIn(input))) => {
            source == SAMPLE_SOURCE
                && input == SAMPLE_INPUT
                && plan.job == Job::Run
                && plan.options == usual()
        }
        _ => false,
    }
}

/// Whether so many words ask for this: none, or one, which is the program's name though it is that of a command.
fn ask_for_sample(alloc: Global, count: usize) -> Result<bool, AllocError> {
    let mut words = Vec::new(alloc);
    for _ in 0..count {
        words.push(String::from_str(alloc, "run")?)?;
    }
    Ok(is_sample(read_words(alloc, words.as_slice())?))
}

#[test]
fn no_words_ask_for_the_sample(rt: HostRuntime) -> Result<(), Fail> {
    assert!(rt; ask_for_sample(rt.alloc(), 0)?);
    assert!(rt; ask_for_sample(rt.alloc(), 1)?);
    Ok(())
}

/// Words, and what they ask for.
const COMMANDS: [(&str, &str); 62] = [
    ("run s i", "run s i"),
    ("plain s i", "plain s i"),
    ("check s", "check s"),
    ("code s", "code s"),
    ("code s --pass 1", "not taken"),
    ("pack s t o", "pack s t o"),
    ("show s f", "show s f"),
    // The depth of calls, on both sides of its range.
    ("run s i --depth 5", "run s i depth 5"),
    ("plain s i --depth=5", "plain s i depth 5"),
    ("run --depth 5 s i", "run s i depth 5"),
    ("run s --depth 5 i", "run s i depth 5"),
    ("run s i --depth 1", "run s i depth 1"),
    ("run s i --depth 1000000", "run s i depth 1000000"),
    ("run s i --depth 0", "not taken"),
    ("run s i --depth 1000001", "not taken"),
    ("run s i --depth 18446744073709551617", "not taken"),
    ("run s i --depth +5", "run s i depth 5"),
    ("run s i --depth 007", "run s i depth 7"),
    ("run s i --depth -0", "not taken"),
    ("run s i --depth=-0", "not taken"),
    ("run s i --depth five", "not taken"),
    ("run s i --depth 5 --depth 5", "not taken"),
    ("run s i --depth", "not taken"),
    ("run s i --depth=", "not taken"),
    ("run s i --dep 5", "not taken"),
    ("check s --depth 5", "not taken"),
    ("run s i -d 5", "not taken"),
    ("--depth 5 run s i", "not taken"),
    ("code s --depth 5", "not taken"),
    // Chunks of memory, on both sides of their range.
    ("run s i --chunks 16", "run s i chunks 16"),
    ("run s i --chunks=65536", "run s i chunks 65536"),
    ("run s i --chunks 15", "not taken"),
    ("run s i --chunks 65537", "not taken"),
    ("plain s i --chunks 16", "not taken"),
    ("code s --chunks 16", "not taken"),
    ("run --chunks 20 s i --depth 3", "run s i depth 3 chunks 20"),
    // The packed file of the result, alone and behind an image.
    ("run s i --pack o", "run s i o packs"),
    ("run --pack=o s i --image m", "run s i m o image packs"),
    ("run s i --pack", "not taken"),
    ("run s i --pack o --pack o", "not taken"),
    ("plain s i --pack o", "not taken"),
    // The image of memory.
    ("run s i --image m", "run s i m image"),
    ("run --image=m s i", "run s i m image"),
    ("run s i --image", "not taken"),
    ("run s i --image m --image n", "not taken"),
    ("plain s i --image m", "not taken"),
    // The pass, on both sides of its range.
    ("core s", "core s"),
    ("core s --pass 1", "core s pass 1"),
    ("core --pass=4 s", "core s"),
    ("core s --pass 0", "not taken"),
    ("core s --pass 5", "not taken"),
    ("core s --pass 1 --pass 1", "not taken"),
    ("check s --pass 1", "not taken"),
    // How fields are reached.
    ("run --skips s i", "run s i skips"),
    ("core s --pass 3 --skips", "core s pass 3 skips"),
    ("code s --skips", "code s skips"),
    ("show s --skips f", "show s f skips"),
    ("show s f --skips --skips", "not taken"),
    ("run s i --skips=1", "not taken"),
    ("plain s i --skips", "not taken"),
    ("check s --skips", "not taken"),
    ("pack s t o --skips", "not taken"),
];

/// Words of runs by workers and of journals, and what they ask for.
const WORKERS: [(&str, &str); 18] = [
    ("run s i --workers 2", "run s i workers 2"),
    ("run s i --workers=64", "run s i workers 64"),
    ("run s i --workers 0", "not taken"),
    ("run s i --workers 65", "not taken"),
    ("run s i --fork 0", "run s i fork 0"),
    ("run --fork=64 s i", "run s i fork 64"),
    ("run s i --fork 65", "not taken"),
    ("core s --fork 1", "not taken"),
    ("trace s i j", "trace s i j"),
    (
        "trace s i --workers 8 j --fork=0",
        "trace s i j workers 8 fork 0",
    ),
    (
        "trace s i j --depth=3 --chunks=16",
        "trace s i j depth 3 chunks 16",
    ),
    ("trace s i j --skips", "trace s i j skips"),
    ("trace s i j --image m", "not taken"),
    ("replay s i j", "replay s i j"),
    ("replay s i j --image m", "replay s i j m image"),
    ("replay s i j --depth 3", "not taken"),
    ("replay s i j --workers 2", "not taken"),
    ("replay s i j --skips", "not taken"),
];

/// Words that name files, and what they ask for.
const FILES: [(&str, &str); 13] = [
    ("check -", "check -"),
    ("check ", "check "),
    ("check check", "check check"),
    ("check help", "check help"),
    ("check a=b", "check a=b"),
    ("check -- -s", "check -s"),
    ("check -- --", "check --"),
    ("run -- --depth 5", "run --depth 5"),
    ("run s -- -i", "run s -i"),
    ("run --depth 5 -- s i", "run s i depth 5"),
    ("run -- s i --depth 5", "not taken"),
    ("check -s", "not taken"),
    ("check --s", "not taken"),
];

/// Words that are not taken.
const OTHERS: [&str; 33] = [
    "",
    "--",
    "-",
    "run",
    "run s",
    "run s i x",
    "plain s",
    "check",
    "check s x",
    "core",
    "core s x",
    "code",
    "code s x",
    "pack s t",
    "pack s t o x",
    "show s",
    "show s f x",
    "run s i --fast",
    "plain s i --workers 2",
    "trace s i",
    "replay s i",
    "replay s i j x",
    "walk s i",
    "Run s i",
    "ru s i",
    "-- run s i",
    "help",
    "help run",
    "--help",
    "-h",
    "--version",
    "run --help",
    "run s i -h",
];

#[test]
fn words_ask_for_what_they_say_or_are_not_taken(rt: HostRuntime) -> Result<(), Fail> {
    let tables: [&[(&str, &str)]; 3] = [&COMMANDS, &WORKERS, &FILES];
    for table in tables {
        for (words, line) in table {
            assert!(rt; ask_for(rt.alloc(), words, line)?, "{words}");
        }
    }
    for words in &OTHERS {
        assert!(rt; ask_for(rt.alloc(), words, "not taken")?, "{words}");
    }
    Ok(())
}
