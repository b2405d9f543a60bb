//! Programs with type parameters: declarations, and whole programs.

ghost use Rattle.std.specs.Prelude.{◌≡◌};

use crate::exprs::ExprId;
use crate::generic::GenericExprs;
use crate::tree::Ident;
use crate::written::{ResultRuns, Run};
use std::marker::Model;

/// A parameter with its type, a run of one type.
#[derive(Clone, Copy, PartialEq, Eq)]
pub struct GenericParameter {
    pub name: Ident,
    pub ty: Run,
}

/// A constructor of a data declaration, with the types of its fields, a run of as many types.
#[derive(Clone, Copy)]
pub struct GenericConstructor {
    pub name: Ident,
    pub fields: Run,
}

/// A data declaration with its type variables.
#[derive(Drop)]
pub struct GenericData {
    pub name: Ident,
    pub variables: Vec<Ident>,
    pub constructors: Vec<GenericConstructor>,
}

/// A function declaration with its type variables.
#[derive(Drop)]
pub struct GenericFunction {
    pub name: Ident,
    pub variables: Vec<Ident>,
    pub parameters: Vec<GenericParameter>,
    pub result: ResultRuns,
    pub body: ExprId,
}

/// The declaration of main, which has no type variables.
#[derive(Clone, Copy)]
pub struct GenericMain {
    pub parameter: GenericParameter,
    pub result: Run,
    pub body: ExprId,
}

/// A program with type parameters: its declarations, and the expressions in which their bodies stand, with the words
/// of all types.
#[derive(Drop)]
pub struct GenericProgram {
    exprs: GenericExprs,
    datas: Vec<GenericData>,
    functions: Vec<GenericFunction>,
    main: GenericMain,
}

impl Model for GenericProgram {
    ghost use Rattle.gib_syntax.specs.GenericParts.{GenericParts, AreInside};

    ghost Value = { GenericParts };

    ghost view = { λ p. record { exprs = p.exprs; datas = p.datas.items; functions = p.functions.items; main = p.main } };

    ghost invariant = { λ p. AreInside (record { exprs = p.exprs; datas = p.datas.items; functions = p.functions.items; main = p.main }) };
}

impl GenericProgram {
    ghost use Rattle.gib_syntax.specs.GenericParts.{GenericParts, AreInside};

    /// A program of these parts.
    pub fn new(
        exprs: GenericExprs,
        datas: Vec<GenericData>,
        functions: Vec<GenericFunction>,
        main: GenericMain,
    ) -> GenericProgram
        requires { AreInside (record { exprs = exprs; datas = datas.items; functions = functions.items; main = main }) }
        ensures { result ≡ record { exprs = exprs; datas = datas.items; functions = functions.items; main = main } }
    {
        GenericProgram {
            exprs,
            datas,
            functions,
            main,
        }
    }

    /// The expressions of all bodies, with the words of all types.
    pub fn exprs(&self) -> &GenericExprs
        ensures value { result.now ≡ self.now.exprs }
        ensures inside { AreInside self.now }
    {
        &self.exprs
    }

    /// The expressions alone.
    pub fn into_exprs(self) -> GenericExprs
        ensures value { result ≡ self.exprs }
        ensures inside { AreInside self }
    {
        self.exprs
    }

    /// The data declarations, in the order of the text.
    pub fn datas(&self) -> &[GenericData]
        ensures value { result.now ≡ self.now.datas }
        ensures inside { AreInside self.now }
    {
        &self.datas
    }

    /// The functions but main, in the order of the text.
    pub fn functions(&self) -> &[GenericFunction]
        ensures value { result.now ≡ self.now.functions }
        ensures inside { AreInside self.now }
    {
        &self.functions
    }

    /// The declaration of main.
    pub fn main(&self) -> GenericMain
        ensures value { result ≡ self.now.main }
        ensures inside { AreInside self.now }
    {
        self.main
    }
}
