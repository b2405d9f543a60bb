//! The laws of refusals, and of replays. Each function does nothing: its contract is the law.

ghost use Rattle.gib_base.specs.{Texts.{TextsView}, declared.token.Dialect.{Dialect}};
ghost use Rattle.std.specs.Prelude.{◌≡◌, ◌≤◌, ℕ, List, [], ◌∷◌, length, Option, None, Some};
ghost use Rattle.gib_syntax.specs.Parts.{program_of};
ghost use Rattle.gib_app.specs.{declared.input_fault.InputFault.{InputFault}, declared.source_fault.SourceFault.{SourceFault}, Formats.{Accepts, Refuses}};
ghost use Rattle.gib_app.specs.{Jobs.{Does, End, without_image}, Running.{Program, IsNoProgramIn, sourced}, SourceFaults.{IsSourceFaultIn}, Stops.{IsReady}};
ghost use Rattle.gib_words.specs.{declared.plan.Job.{Job}, declared.plan.Job.TheVariants.{Replay, Trace}, declared.plan.Options.{Options}, Plan.{Contents}};

use crate::compile::Compiled;
use gib_check::laws::faults_are_exact;
use gib_file::{one_file, refused_description, refused_file, refused_header};
use gib_lex::laws::{one_reading, one_reading_in, one_refusal, one_refusal_in};
use gib_local::law::texts_are_answered;
use gib_parse::law::{one_blame, one_text};
use gib_print::law::{a_value_is_not_refused, one_fault};
use gib_value::law::{refusals_hold, texts_differ};

/// A source is refused for one fault, at one place, and a source that is refused is no program; whether its places are left to the passes
/// or written out.
pub fn one_source_fault()
    ensures one { (dialect : Dialect) (source : List ℕ) (f g : SourceFault) → IsSourceFaultIn dialect source f → IsSourceFaultIn dialect source g → f ≡ g }
    ensures none { (dialect : Dialect) (source : List ℕ) (f : SourceFault) → IsSourceFaultIn dialect source f → IsNoProgramIn dialect source }
{
    one_refusal();
    one_refusal_in();
    one_reading();
    one_reading_in();
    texts_are_answered();
    one_text();
    one_blame();
    faults_are_exact();
}

/// The inputs of a job are refused for one fault, at one place, and inputs that are refused are not accepted.
pub fn one_input_fault(compiled: &Compiled)
    requires ready { IsReady (program_of compiled.now.typed) compiled.now.names }
    ensures one { (job : Job) (options : Options) (given : Contents) (f g : InputFault)
        → Refuses job options (sourced (program_of compiled.now.typed)) compiled.now.names given f
        → Refuses job options (sourced (program_of compiled.now.typed)) compiled.now.names given g → f ≡ g }
    ensures none { (job : Job) (options : Options) (given : Contents) (f : InputFault)
        → Refuses job options (sourced (program_of compiled.now.typed)) compiled.now.names given f
        → Accepts job options (sourced (program_of compiled.now.typed)) compiled.now.names given → ⊥ }
{
    refused_header();
    refused_description();
    refused_file();
    one_file();
    let types = compiled.typed.types();
    texts_differ(types, &compiled.names);
    refusals_hold(types, &compiled.names);
    one_fault();
    a_value_is_not_refused();
}

/// A replay repeats its trace: the journal that a trace writes, where it is not too long, is accepted by a replay on the same input,
/// which ends with the same text, or without a value for the same reason.
pub fn a_replay_repeats_its_trace()
    ensures same { (options others : Options) (p : Program) (names : TextsView) (given : Contents) (journal : List ℕ) (file : Option (List ℕ))
        (ended again : End) → length journal ≤ 16777216
        → Does Trace options p names given (Some journal) ended
        → Does Replay others p names (record { second = given.second; further = journal ∷ [] }) file again → ended ≡ again }
    ensures accepted { (options others : Options) (p : Program) (names : TextsView) (given : Contents) (journal : List ℕ) (ended : End)
        → length journal ≤ 16777216
        → Does Trace options p names given (Some journal) ended
        → Does Replay (without_image others) p names (record { second = given.second; further = journal ∷ [] }) None ended }
{
    one_file();
}
