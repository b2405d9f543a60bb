//! The tokens of a text, put down from the last one to the first, with the names that the text gives.

ghost use Rattle.std.specs.Prelude.{◌≡◌, ◌<◌, ◌+◌, ◌^◌, ◌∷◌, OnOk};
ghost use Rattle.gib_local_print.specs.{Printing.{ident, named}, LocatedText.{first_given, given}};
ghost use Rattle.gib_local_parse.specs.Grammar.{lower};

use gib_base::token::{Sign, Token};
use gib_base::{Memory, Name, Reversed};
use gib_core::Variable;
use std::alloc::AllocError;

/// The number of the first name that a text gives. Those of a program have smaller ones.
pub const FIRST_GIVEN: u32 = 2_147_483_648;

/// Tokens, each put before all that were put earlier.
pub(crate) type Spelled = Reversed<Token>;

/// A word or sign, before the others.
pub(crate) fn put_sign(sign: Sign, out: &mut Spelled) -> Result<(), Memory>
    ensures { OnOk result (out.new ≡ Token.Sign sign ∷ out.old) }
{
    out.put(Token::Sign(sign))
}

/// A name that the text gives, before the others.
fn put_given(number: u64, out: &mut Spelled) -> Result<(), Memory>
    requires { number < 2 ^ 40 }
    ensures { OnOk result (out.new ≡ Token.Variable (record { 0 = first_given + number }) ∷ out.old) }
{
    let Ok(number) = u32::try_from(u64::from(FIRST_GIVEN) + number) else {
        return Err(AllocError);
    };
    out.put(Token::Variable(Name(number)))
}

/// The name of a variable.
pub(crate) fn put_variable(variable: Variable, out: &mut Spelled) -> Result<(), Memory>
    ensures { OnOk result (out.new ≡ lower (named given variable) ∷ out.old) }
{
    put_given(3 * u64::from(variable.0), out)
}

/// The name of the location of a number.
pub(crate) fn put_location(number: u32, out: &mut Spelled) -> Result<(), Memory>
    ensures { OnOk result (out.new ≡ lower (ident (given.location number)) ∷ out.old) }
{
    put_given(3 * u64::from(number) + 1, out)
}

/// The name of the region of a number.
pub(crate) fn put_region(number: u32, out: &mut Spelled) -> Result<(), Memory>
    ensures { OnOk result (out.new ≡ lower (ident (given.region number)) ∷ out.old) }
{
    put_given(3 * u64::from(number) + 2, out)
}
