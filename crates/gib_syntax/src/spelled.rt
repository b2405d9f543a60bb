//! Tokens that are put down from the last one to the first.

use gib_base::token::{Sign, Token};
use gib_base::{Memory, Reversed};
use std::alloc::Global;
use std::marker::Model;

/// Tokens, each put before all that were put earlier.
#[derive(Drop)]
pub(crate) struct Spelled {
    alloc: Global,
    tokens: Reversed<Token>,
}

impl Model for Spelled {
    ghost use Rattle.std.specs.Prelude.{List};
    ghost use Rattle.gib_base.specs.declared.token.Token.{Token as Item};

    ghost Value = { List Item };

    ghost view = { λ s. s.tokens };
}

impl Spelled {
    ghost use Rattle.std.specs.Prelude.{◌≡◌, [], ◌∷◌, OnOk};

    /// No tokens.
    pub(crate) fn new(alloc: Global) -> Spelled
        ensures { result ≡ [] }
    {
        Spelled {
            alloc,
            tokens: Reversed::new(alloc),
        }
    }

    /// The allocator of the tokens.
    pub(crate) fn alloc(&self) -> Global {
        self.alloc
    }

    /// One more token, before the others.
    pub(crate) fn put(&mut self, token: Token) -> Result<(), Memory>
        ensures { OnOk result (self.new ≡ token ∷ self.old) }
    {
        self.tokens.put(token)
    }

    /// A word or sign, before the others.
    pub(crate) fn put_sign(&mut self, sign: Sign) -> Result<(), Memory>
        ensures { OnOk result (self.new ≡ Token.Sign sign ∷ self.old) }
    {
        self.put(Token::Sign(sign))
    }

    /// The tokens, in their order.
    pub(crate) fn into_tokens(self) -> Vec<Token>
        ensures { result.items ≡ self }
    {
        self.tokens.into_vec()
    }
}
