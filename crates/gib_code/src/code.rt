//! The code of a program.

use crate::instruction::{Entry, Instr};
use gib_types::Layouts;
use std::marker::Model;

/// The code of a program.
#[derive(Drop)]
pub struct Code {
    /// How the heads of its constructors lie in memory.
    layouts: Layouts,
    instructions: Vec<Instr>,
    /// In the order of the text, main last.
    functions: Vec<Entry>,
}

impl Model for Code {
    ghost use Rattle.std.specs.Prelude.{map};
    ghost use Rattle.gib_code.specs.{Instruction.{instruction_of}, Program.{CodeTree}};

    ghost Value = { CodeTree };

    ghost view = { λ c. record { laid = c.layouts; instructions = map instruction_of c.instructions.items; functions = c.functions.items } };
}

impl Code {
    ghost use Rattle.std.specs.Prelude.{◌≡◌, map};
    ghost use Rattle.gib_code.specs.Instruction.{instruction_of};

    /// Code of these parts: how heads lie in memory, the instructions from label 0 on, and the functions in the order of
    /// the text, main last.
    pub fn new(layouts: Layouts, instructions: Vec<Instr>, functions: Vec<Entry>) -> Code
        ensures { result ≡ record { laid = layouts; instructions = map instruction_of instructions.items; functions = functions.items } }
    {
        Code {
            layouts,
            instructions,
            functions,
        }
    }

    /// How the heads of its constructors lie in memory.
    pub fn layouts(&self) -> &Layouts
        ensures { result.now ≡ self.now.laid }
    {
        &self.layouts
    }

    /// The instructions; one that stands at a label has it as its index.
    pub fn instructions(&self) -> &[Instr]
        ensures { map instruction_of result.now ≡ self.now.instructions }
    {
        &self.instructions
    }

    /// The functions in the order of the text, main last.
    pub fn functions(&self) -> &[Entry]
        ensures { result.now ≡ self.now.functions }
    {
        &self.functions
    }
}
