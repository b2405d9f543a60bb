//! Bytes to a program whose places are written out.

ghost use Rattle.std.specs.Prelude.{◌≡◌, None, IfOk, IfErr};
ghost use Rattle.gib_base.specs.Lexed.{IsLexedIn, Lexed};
ghost use Rattle.gib_types.specs.Table.{IsTable};
ghost use Rattle.gib_syntax.specs.Spelling.{places_of};
ghost use Rattle.gib_reads.specs.{declared.stop.Stop.{Stop as Reason}, Faults.{fault_of}, Answers.{Fails as Stops}};
ghost use Rattle.gib_check.specs.{Answers.{IsFaultOf}, Faults.{Checked as CheckedNames}};
ghost use Rattle.gib_loccheck.specs.Judging.{Says};
ghost use Rattle.gib_core.specs.{Rules.{Broken}, Parts.{core_of}, Marking.{mark_core}, Tree.{CoreTree}};
ghost use Rattle.gib_local.specs.{Building.{Placed, build_core as core_made}, Builds.{Fails, program_in}, Counting.{broken_text}};
ghost use Rattle.gib_local.specs.Judged.{Answers, AreTokensOf, Blames, IsUnlexed, Judges, Refuses};
ghost use Rattle.gib_local.specs.{Local.{Local, judged as judged_core, named as named_text, placed as placed_text}, LocalFaults.{IsLocalFault}};
ghost use Rattle.gib_local.specs.Naming.{check_text};
ghost use Rattle.gib_local_parse.specs.{TextParts.{text_of}, Texts.{whole_text}, Tree.{LocalTree}};

use crate::bodies::build_core;
use crate::build_fault::BuildFault;
use crate::counting::check_core;
use crate::fault::LocalFault;
use crate::known::Known;
use crate::law::{answered_is_local, texts_are_answered};
use crate::names::check_names;
use crate::source::Source;
use gib_base::Names;
use gib_base::token::Dialect;
use gib_check::TypeFault;
use gib_core::{Checked, Core};
use gib_forks::forks;
use gib_lex::laws::{one_reading_in, one_refusal_in};
use gib_lex::{LexFault, Tokens, lex_in};
use gib_local_parse::{LocalText, read};
use gib_loccheck::LocFault;
use gib_reads::ParseFault;
use std::alloc::Global;

/// A program whose places are written out: its core, which meets the build rules, with its pars marked that may run at the same time, and
/// the texts of its names.
#[derive(Drop)]
pub struct Located {
    pub core: Checked,
    pub names: Names,
}

/// A broken build rule.
fn of_rules(fault: LocFault) -> LocalFault
    ensures { (core : CoreTree) (broken : Broken) → Says fault broken → Blames result (judged_core core broken) }
{
    match fault {
        LocFault::Memory => LocalFault::Memory,
        LocFault::Rule(rule, term) => LocalFault::Rule(rule, term),
    }
}

/// A place that is not due.
fn of_places(fault: BuildFault) -> LocalFault
    ensures { (t : LocalTree) (core : Placed CoreTree) → Fails fault core → Blames result (placed_text t core) }
{
    match fault {
        BuildFault::Memory => LocalFault::Memory,
        BuildFault::Place(place) => LocalFault::Place(place),
    }
}

/// A broken rule of names, counts and limits.
fn of_names(fault: TypeFault) -> LocalFault
    ensures { (t : LocalTree) (names : CheckedNames (Unit {0})) → IsFaultOf fault names → Blames result (named_text t names) }
{
    match fault {
        TypeFault::Memory => LocalFault::Memory,
        TypeFault::Broken(fault) => LocalFault::Broken(fault),
    }
}

/// A token that may not stand where it stands, or a term that is nested too deep.
fn of_reading(fault: ParseFault) -> LocalFault
    ensures { (l : Lexed) (stop : Reason) → fault ≡ fault_of l.spans l.len stop → Stops stop (whole_text (places_of l.spans) l.tokens) → Refuses l result }
{
    match fault {
        ParseFault::Memory => LocalFault::Memory,
        ParseFault::At(place) => LocalFault::Syntax(place),
        ParseFault::Nested(place) => LocalFault::Nested(place),
    }
}

/// A core that breaks no build rule, with its marks.
fn judged(alloc: Global, source: &Source, core: Core) -> Result<Checked, LocalFault>
    ensures { Judges result (judged_core (core_of core) (broken_text (text_of source.now) (core_of core))) }
{
    match check_core(alloc, source.known(), core) {
        Ok(checked) => Ok(forks(checked)),
        Err(fault) => Err(of_rules(fault)),
    }
}

/// The core that a text makes, judged.
fn built(alloc: Global, source: &Source) -> Result<Checked, LocalFault>
    ensures { Judges result (placed_text (text_of source.now) (core_made (text_of source.now))) }
{
    match build_core(alloc, source) {
        Ok(core) => judged(alloc, source, core),
        Err(fault) => Err(of_places(fault)),
    }
}

/// The core of a text whose names are in order.
fn placed(alloc: Global, known: Known) -> Result<Checked, LocalFault>
    requires { IsTable (program_in known).table }
    ensures { Judges result (placed_text (text_of known) (core_made (text_of known))) }
{
    match Source::make(alloc, known) {
        Ok(source) => built(alloc, &source),
        Err(_) => Err(LocalFault::Memory),
    }
}

/// The core of a text.
fn named(alloc: Global, text: LocalText) -> Result<Checked, LocalFault>
    ensures { Judges result (named_text (text_of text) (check_text (text_of text))) }
{
    let _main = text.main();
    match check_names(alloc, text) {
        Ok(known) => placed(alloc, known),
        Err(fault) => Err(of_names(fault)),
    }
}

/// The core that tokens spell.
fn answered(alloc: Global, tokens: &Tokens) -> Result<Checked, LocalFault>
    ensures { Answers tokens.now result }
{
    match read(alloc, tokens) {
        Ok(text) => named(alloc, text),
        Err(fault) => Err(of_reading(fault)),
    }
}

/// The tokens of a text keep the limits on bytes and names.
fn limited(bytes: &[u8], tokens: &Tokens)
    requires { IsLexedIn Dialect.Located bytes.now tokens.now }
    ensures { AreTokensOf bytes.now tokens.now }
{
    let _bytes = bytes.len();
    let known = tokens.tokens();
    let _count = known.len();
}

/// The tokens of a text whose places are written out.
fn tokens_of(alloc: Global, bytes: &[u8]) -> Result<Tokens, LocalFault>
    ensures lexed { IfOk result (λ tokens. AreTokensOf bytes.now tokens) }
    ensures refused { IfErr result (IsUnlexed bytes.now) }
{
    match lex_in(alloc, Dialect::Located, bytes) {
        Ok(tokens) => {
            limited(bytes, &tokens);
            Ok(tokens)
        }
        Err(LexFault::Memory) => Err(LocalFault::Memory),
        Err(LexFault::Long) => Err(LocalFault::Long),
        Err(LexFault::At(place)) => Err(LocalFault::At(place)),
        Err(LexFault::Big(place)) => Err(LocalFault::Big(place)),
        Err(LexFault::Many) => Err(LocalFault::Many),
    }
}

/// The program of a text.
///
/// # Errors
///
/// The first fault, in the order of lexing, parsing, names, places and build rules; `Memory`.
pub fn local(alloc: Global, bytes: &[u8]) -> Result<Located, LocalFault>
    // The bytes have this core, none of its build rules is broken, and this is it with its marks.
    ensures made { IfOk result (λ p. (core : CoreTree) × (l : Local bytes.now core) × (broken_text l.tree core ≡ None) × (core_of p.core ≡ mark_core core) × (p.names ≡ l.lexed.names)) }
    ensures refused { IfErr result (IsLocalFault bytes.now) }
    // Where a core has the bytes and breaks no rule, want of memory alone is refused.
    ensures only { (core : CoreTree) (l : Local bytes.now core) → broken_text l.tree core ≡ None → IfErr result (λ f. f ≡ LocalFault.Memory) }
{
    answered_is_local();
    texts_are_answered();
    one_reading_in();
    one_refusal_in();
    let tokens = match tokens_of(alloc, bytes) {
        Ok(tokens) => tokens,
        Err(fault) => return Err(fault),
    };
    let core = match answered(alloc, &tokens) {
        Ok(core) => core,
        Err(fault) => return Err(fault),
    };
    Ok(Located {
        core,
        names: tokens.into_names(),
    })
}
