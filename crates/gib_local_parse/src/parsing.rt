//! From the tokens of a LoCal text to its tree.

ghost use Rattle.std.specs.Prelude.{◌≡◌, [], Ok, IfOk, IfErr};
ghost use Rattle.gib_syntax.specs.Spelling.{places_of};
ghost use Rattle.gib_reads.specs.{declared.stop.Stop.{Stop as Reason}, Faults.{fault_of}, Answers.{Fails}};
ghost use Rattle.gib_local_parse.specs.{Texts.{whole_text}, TextParts.{text_of}};

use crate::declarations::whole;
use crate::text::LocalText;
use gib_lex::Tokens;
use gib_reads::ParseFault;
use gib_reads::fault::fault;
use std::alloc::Global;

/// The text that tokens spell.
pub fn read(alloc: Global, tokens: &Tokens) -> Result<LocalText, ParseFault>
    ensures read { IfOk result (λ t. whole_text (places_of tokens.now.spans) tokens.now.tokens ≡ Ok (text_of t, [])) }

    // The first fault is answered.
    ensures refused { IfErr result (λ e. (stop : Reason) × (e ≡ fault_of tokens.now.spans tokens.now.len stop) × Fails stop (whole_text (places_of tokens.now.spans) tokens.now.tokens)) }
{
    match whole(alloc, tokens.spans(), tokens.tokens()) {
        Ok(text) => Ok(text),
        Err(stop) => Err(fault(stop, tokens.spans(), tokens.len())),
    }
}
