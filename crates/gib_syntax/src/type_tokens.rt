//! Tokens of types, by their words from the first to the last.

ghost use Rattle.std.specs.Prelude.{◌≡◌, IfOk};
ghost use Rattle.gib_syntax.specs.TypeTokens.{unspelled, all_spelled};

use crate::written::Word;
use gib_base::token::{Sign, Token};
use gib_base::{Memory, Name};
use std::alloc::Global;
use std::marker::Model;

/// Tokens of types. Types nest without a bound, so of each type that stands open in parentheses it is kept how many
/// arguments are due.
#[derive(Drop)]
struct TypeTokens {
    tokens: Vec<Token>,
    /// The innermost type last.
    due: Vec<u32>,
}

impl Model for TypeTokens {
    ghost use Rattle.std.specs.Prelude.{reverse};
    ghost use Rattle.gib_syntax.specs.TypeTokens.{TypesSpelled};

    ghost Value = { TypesSpelled };

    ghost view = { λ p. record { tokens = p.tokens.items; due = reverse p.due.items } };
}

impl TypeTokens {
    ghost use Rattle.std.specs.Prelude.{◌≡◌, [], ◌∷◌, ◌++◌, OnOk, IfSome, IfNone};
    ghost use Rattle.gib_syntax.specs.TypeTokens.{unspelled, closed, alone, opened, declared, spelled};

    /// No tokens.
    fn new(alloc: Global) -> TypeTokens
        ensures { result ≡ unspelled }
    {
        TypeTokens {
            tokens: Vec::new(alloc),
            due: Vec::new(alloc),
        }
    }

    /// One more word.
    fn put(&mut self, word: Word) -> Result<(), Memory>
        ensures { OnOk result (self.new ≡ spelled self.old word) }
    {
        match word {
            Word::Whole(_) => self.put_alone(Token::Sign(Sign::Int)),
            Word::Truth(_) => self.put_alone(Token::Sign(Sign::Bool)),
            Word::Variable(name) => self.put_alone(Token::Variable(name.name)),
            Word::Data(_, name, arguments) => self.put_declared(name.name, arguments),
        }
    }

    /// A declared type with so many arguments, which follow.
    fn put_declared(&mut self, name: Name, arguments: u32) -> Result<(), Memory>
        ensures { OnOk result (self.new ≡ declared self.old name arguments) }
    {
        if arguments == 0 {
            return self.put_alone(Token::Constructor(name));
        }
        self.put_token(Token::Sign(Sign::Open))?;
        self.put_token(Token::Constructor(name))?;
        self.push(arguments)
    }

    /// A token that is a type by itself.
    fn put_alone(&mut self, token: Token) -> Result<(), Memory>
        ensures { OnOk result (self.new ≡ alone self.old token) }
    {
        self.put_token(token)?;
        self.close()
    }

    /// One more token.
    fn put_token(&mut self, token: Token) -> Result<(), Memory>
        ensures { OnOk result (self.new ≡ record { tokens = self.old.tokens ++ token ∷ []; due = self.old.due }) }
    {
        self.tokens.push(token)?;
        Ok(())
    }

    /// One more type stands open, of which so many arguments are due.
    fn push(&mut self, arguments: u32) -> Result<(), Memory>
        ensures { OnOk result (self.new ≡ record { tokens = self.old.tokens; due = arguments ∷ self.old.due }) }
    {
        self.due.push(arguments)?;
        Ok(())
    }

    /// How many arguments are due of the innermost type, which is taken away.
    fn pop(&mut self) -> Option<u32>
        ensures some { IfSome result (λ arguments. self.old.due ≡ arguments ∷ self.new.due) }
        ensures none { IfNone result ((self.old.due ≡ []) × (self.new ≡ self.old)) }
        ensures tokens { self.new.tokens ≡ self.old.tokens }
    {
        self.due.pop()
    }

    /// An argument of the innermost type has ended, and so has each type whose last one that is.
    #[tactic(auto, using(crate::proofs::TypesPrinted::close_goes, crate::proofs::TypesPrinted::close_keeps, crate::proofs::TypesPrinted::close_ends))]
    fn close(&mut self) -> Result<(), Memory>
        ensures { OnOk result (self.new ≡ closed self.old.tokens self.old.due) }
    {
        'open: while let Some(arguments) = self.pop() {
            if arguments > 1 {
                return self.push(arguments - 1);
            }
            self.put_token(Token::Sign(Sign::Close))?;
        }
        Ok(())
    }

    /// The tokens.
    fn into_tokens(self) -> Vec<Token>
        ensures { result.items ≡ self.tokens }
    {
        self.tokens
    }
}

/// The tokens of the types that words spell.
pub(crate) fn type_tokens(alloc: Global, words: &[Word]) -> Result<Vec<Token>, Memory>
    ensures { IfOk result (λ tokens. tokens.items ≡ (all_spelled unspelled words.now).tokens) }
{
    let mut found = TypeTokens::new(alloc);
    let mut rest = words;
    'words: while let [word, after @ ..] = rest {
        found.put(*word)?;
        rest = after;
    }
    Ok(found.into_tokens())
}
