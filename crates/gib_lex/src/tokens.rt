//! The tokens of a text.

ghost use Rattle.std.specs.Prelude.{◌≡◌, length};
ghost use Rattle.gib_base.specs.Lexed.{AreTokens};

use gib_base::token::Token;
use gib_base::{Names, Span};
use std::marker::Model;

/// The tokens of a text with their spans, its names, and its length.
#[derive(Drop)]
pub struct Tokens {
    names: Names,
    tokens: Vec<Token>,
    spans: Vec<Span>,
    len: u32,
}

impl Model for Tokens {
    ghost use Rattle.gib_base.specs.Lexed.{Lexed, AreTokens as AreTheTokens};

    ghost Value = { Lexed };

    ghost view = { λ t. record { names = t.names; tokens = t.tokens.items; spans = t.spans.items; len = t.len } };

    ghost invariant = { λ t. AreTheTokens (record { names = t.names; tokens = t.tokens.items; spans = t.spans.items; len = t.len }) };
}

impl Tokens {
    /// What was read of a text.
    pub(crate) fn new(names: Names, tokens: Vec<Token>, spans: Vec<Span>, len: u32) -> Tokens
        requires { AreTokens (record { names = names; tokens = tokens.items; spans = spans.items; len = len }) }
        ensures { result ≡ record { names = names; tokens = tokens.items; spans = spans.items; len = len } }
    {
        Tokens {
            names,
            tokens,
            spans,
            len,
        }
    }

    /// The tokens, in the order of the text.
    pub fn tokens(&self) -> &[Token]
        ensures value { result.now ≡ self.now.tokens }
        ensures whole { AreTokens self.now }
    {
        self.tokens.as_slice()
    }

    /// The span of each token.
    pub fn spans(&self) -> &[Span]
        ensures value { result.now ≡ self.now.spans }
        ensures same { length self.now.spans ≡ length self.now.tokens }
    {
        self.spans.as_slice()
    }

    /// The names of the tokens.
    pub fn names(&self) -> &Names
        ensures { result.now ≡ self.now.names }
    {
        &self.names
    }

    /// How many bytes the text has.
    pub fn len(&self) -> u32
        ensures { result ≡ self.now.len }
    {
        self.len
    }

    /// The names alone.
    pub fn into_names(self) -> Names
        ensures { result ≡ self.names }
    {
        self.names
    }
}
