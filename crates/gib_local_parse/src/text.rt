//! A LoCal text as it was read.

ghost use Rattle.std.specs.Prelude.{◌≡◌};

use crate::lines::{LineId, Lines};
use crate::tree::Mark;
use gib_syntax::{DataDecl, Ident, Parameter, TypeName};
use std::marker::Model;

/// A function.
#[derive(Drop)]
pub struct FunctionLines {
    pub name: Ident,
    pub parameters: Vec<Parameter>,
    pub result: TypeName,
    pub place: Option<Mark>,
    pub body: LineId,
}

/// Main.
#[derive(Clone, Copy)]
pub struct MainLines {
    pub parameter: Parameter,
    pub result: TypeName,
    pub place: Option<Mark>,
    pub body: LineId,
}

/// A program with its places written out: the terms of all bodies, and the declarations.
#[derive(Drop)]
pub struct LocalText {
    lines: Lines,
    datas: Vec<DataDecl>,
    offsets: Vec<Ident>,
    functions: Vec<FunctionLines>,
    main: MainLines,
}

impl Model for LocalText {
    ghost use Rattle.gib_local_parse.specs.TextParts.{TextParts, AreInside};

    ghost Value = { TextParts };

    ghost view = { λ t. record { lines = t.lines; datas = t.datas.items; offsets = t.offsets.items; functions = t.functions.items; main = t.main } };

    ghost invariant = { λ t. AreInside (record { lines = t.lines; datas = t.datas.items; offsets = t.offsets.items; functions = t.functions.items; main = t.main }) };
}

impl LocalText {
    ghost use Rattle.gib_local_parse.specs.TextParts.{TextParts, AreInside};

    /// A text of these parts.
    pub(crate) fn new(
        lines: Lines,
        datas: Vec<DataDecl>,
        offsets: Vec<Ident>,
        functions: Vec<FunctionLines>,
        main: MainLines,
    ) -> LocalText
        requires { AreInside (record { lines = lines; datas = datas.items; offsets = offsets.items; functions = functions.items; main = main }) }
        ensures { result ≡ record { lines = lines; datas = datas.items; offsets = offsets.items; functions = functions.items; main = main } }
    {
        LocalText {
            lines,
            datas,
            offsets,
            functions,
            main,
        }
    }

    /// The terms of all bodies.
    pub fn lines(&self) -> &Lines
        ensures value { result.now ≡ self.now.lines }
        ensures inside { AreInside self.now }
    {
        &self.lines
    }

    /// The data declarations, in the order of the text.
    pub fn datas(&self) -> &[DataDecl]
        ensures { result.now ≡ self.now.datas }
    {
        &self.datas
    }

    /// The constructors whose heads store offsets.
    pub fn offsets(&self) -> &[Ident]
        ensures { result.now ≡ self.now.offsets }
    {
        &self.offsets
    }

    /// The functions but main, in the order of the text.
    pub fn functions(&self) -> &[FunctionLines]
        ensures value { result.now ≡ self.now.functions }
        ensures inside { AreInside self.now }
    {
        &self.functions
    }

    /// Main.
    pub fn main(&self) -> MainLines
        ensures value { result ≡ self.now.main }
        ensures inside { AreInside self.now }
    {
        self.main
    }
}
