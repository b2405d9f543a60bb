//! Declarations and whole programs.

ghost use Rattle.std.specs.Prelude.{◌≡◌};

use crate::exprs::{ExprId, Exprs};
use gib_base::{Name, Span};
use std::marker::Model;

/// A name where it stands in the text.
#[derive(Clone, Copy, PartialEq, Eq)]
pub struct Ident {
    pub name: Name,
    pub span: Span,
}

/// A type as it is written: `Int`, `Bool` or the name of a declared type.
#[derive(Clone, Copy, PartialEq, Eq)]
pub enum TypeName {
    Whole(Span),
    Truth(Span),
    Declared(Ident),
}

/// A constructor of a data declaration, with the types of its fields.
#[derive(Drop)]
pub struct ConstructorDecl {
    pub name: Ident,
    pub fields: Vec<TypeName>,
}

/// A data declaration.
#[derive(Drop)]
pub struct DataDecl {
    pub name: Ident,
    pub constructors: Vec<ConstructorDecl>,
}

/// A parameter with its type.
#[derive(Clone, Copy, PartialEq, Eq)]
pub struct Parameter {
    pub name: Ident,
    pub ty: TypeName,
}

/// What a function gives: a value of one type, or several parts.
#[derive(Drop)]
pub enum ResultTypes {
    One(TypeName),
    Several(Vec<TypeName>),
}

/// A function declaration.
#[derive(Drop)]
pub struct FunctionDecl {
    pub name: Ident,
    pub parameters: Vec<Parameter>,
    pub result: ResultTypes,
    pub body: ExprId,
}

/// The declaration of main.
#[derive(Clone, Copy)]
pub struct MainDecl {
    pub parameter: Parameter,
    pub result: TypeName,
    pub body: ExprId,
}

/// A program: its declarations, and the expressions in which their bodies stand.
#[derive(Drop)]
pub struct Program {
    exprs: Exprs,
    data_decls: Vec<DataDecl>,
    functions: Vec<FunctionDecl>,
    main: MainDecl,
}

impl Model for Program {
    ghost use Rattle.gib_syntax.specs.Parts.{Parts, AreInside};

    ghost Value = { Parts };

    ghost view = { λ p. record { exprs = p.exprs; data_decls = p.data_decls.items; functions = p.functions.items; main = p.main } };

    ghost invariant = { λ p. AreInside (record { exprs = p.exprs; data_decls = p.data_decls.items; functions = p.functions.items; main = p.main }) };
}

impl Program {
    ghost use Rattle.gib_syntax.specs.Parts.{Parts, AreInside};

    /// A program of these parts.
    pub fn new(
        exprs: Exprs,
        data_decls: Vec<DataDecl>,
        functions: Vec<FunctionDecl>,
        main: MainDecl,
    ) -> Program
        requires { AreInside (record { exprs = exprs; data_decls = data_decls.items; functions = functions.items; main = main }) }
        ensures { result ≡ record { exprs = exprs; data_decls = data_decls.items; functions = functions.items; main = main } }
    {
        Program {
            exprs,
            data_decls,
            functions,
            main,
        }
    }

    /// The expressions of all bodies.
    pub fn exprs(&self) -> &Exprs
        ensures value { result.now ≡ self.now.exprs }
        ensures inside { AreInside self.now }
    {
        &self.exprs
    }

    /// The data declarations, in the order of the text.
    pub fn data_decls(&self) -> &[DataDecl]
        ensures { result.now ≡ self.now.data_decls }
    {
        &self.data_decls
    }

    /// The functions but main, in the order of the text.
    pub fn functions(&self) -> &[FunctionDecl]
        ensures value { result.now ≡ self.now.functions }
        ensures inside { AreInside self.now }
    {
        &self.functions
    }

    /// The declaration of main.
    pub fn main(&self) -> MainDecl
        ensures value { result ≡ self.now.main }
        ensures inside { AreInside self.now }
    {
        self.main
    }
}
