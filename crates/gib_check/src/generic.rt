//! Programs with type parameters that are typed.

ghost use Rattle.std.specs.Prelude.{◌≡◌};

use gib_syntax::GenericProgram;
use std::marker::Model;

/// A typed program with type parameters.
#[derive(Drop)]
pub struct Generic {
    program: GenericProgram,
}

impl Model for Generic {
    ghost use Rattle.gib_syntax.specs.{GenericParts.{GenericParts}, GenericParts.{generic_program_of}, GenericTyping.{IsTypedGeneric}};

    ghost Value = { GenericParts };

    ghost view = { λ g. g.program };

    ghost invariant = { λ g. IsTypedGeneric (generic_program_of g.program) };
}

impl Generic {
    ghost use Rattle.gib_syntax.specs.{GenericParts.{generic_program_of}, GenericTyping.{IsTypedGeneric}};

    /// A program that is typed.
    pub(crate) fn new(program: GenericProgram) -> Generic
        requires { IsTypedGeneric (generic_program_of program) }
        ensures { result ≡ program }
    {
        Generic { program }
    }

    /// The program, which is typed.
    pub fn program(&self) -> &GenericProgram
        ensures value { result.now ≡ self.now }
        ensures typed { IsTypedGeneric (generic_program_of self.now) }
    {
        &self.program
    }

    /// The program alone.
    pub fn into_program(self) -> GenericProgram
        ensures value { result ≡ self }
        ensures typed { IsTypedGeneric (generic_program_of self) }
    {
        self.program
    }
}
