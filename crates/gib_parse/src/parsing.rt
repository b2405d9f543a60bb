//! Parsing: from the tokens of a text to its program.

ghost use Rattle.std.specs.Prelude.{◌≡◌, ◌≤◌, ℕ, Err, IfOk, IfErr};
ghost use Rattle.gib_syntax.specs.{GenericTree.{GenericProgramTree}, Spelling.{Derives, IsPlacedProgram, places_of, levels_program}};
ghost use Rattle.gib_syntax.specs.GenericParts.{generic_program_of};
ghost use Rattle.gib_parse.specs.{Answers.{AnswersRead, AnswersOnly, AnswersFault}, Blaming.{IsBlamedAt, IsTooDeepAt}};

use crate::declarations::whole;
use gib_lex::Tokens;
use gib_reads::fault::{ParseFault, fault};
use gib_syntax::GenericProgram;
use std::alloc::Global;

/// The program that the tokens of a text spell.
pub fn parse(alloc: Global, tokens: &Tokens) -> Result<GenericProgram, ParseFault>
    // What is read is a program of the grammar, in 200 levels, whose parts carry the spans of their tokens.
    ensures found { IfOk result (λ p. Derives tokens.now.tokens (generic_program_of p)) }
    ensures placed { IfOk result (λ p. IsPlacedProgram (places_of tokens.now.spans) (generic_program_of p)) }
    ensures levels { IfOk result (λ p. levels_program (generic_program_of p) ≤ 200) }

    // A program of the grammar in 200 levels is read, unless memory runs out.
    ensures accepted { (g : GenericProgramTree) → Derives tokens.now.tokens g → levels_program g ≤ 200
        → IfErr result (λ e. e ≡ ParseFault.Memory) }
    ensures only { (g : GenericProgramTree) → Derives tokens.now.tokens g → levels_program g ≤ 200
        → IsPlacedProgram (places_of tokens.now.spans) g → AnswersOnly result g }

    // The fault is answered; tokens have one, or they are a program's. Which one, by reading:
    ensures at { (place : ℕ) → result ≡ Err (ParseFault.At place) → IsBlamedAt tokens.now place }
    ensures nested { (place : ℕ) → result ≡ Err (ParseFault.Nested place) → IsTooDeepAt tokens.now place }
    ensures blamed { (place : ℕ) → IsBlamedAt tokens.now place → AnswersFault result (ParseFault.At place) }
    ensures too_deep { (place : ℕ) → IsTooDeepAt tokens.now place → AnswersFault result (ParseFault.Nested place) }
    ensures exact { AnswersRead tokens.now result }
{
    match whole(alloc, tokens.spans(), tokens.tokens()) {
        Ok(program) => Ok(program),
        Err(stop) => Err(fault(stop, tokens.spans(), tokens.len())),
    }
}
