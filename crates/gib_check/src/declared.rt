//! What a program declares, beside the program.

ghost use Rattle.std.specs.Prelude.{◌≡◌, ◌<◌, length, slice_get, Some, None, IfOk, MatchOption};
ghost use Rattle.gib_syntax.specs.{Declarations.{type_written, type_of_name, constructor_named, function_named}, Tree.{FunctionTree}};
ghost use Rattle.gib_check.specs.{Functions.{IsNumberOf, IsHeadOf}, Origins.{made_type, result_if, fields_named}};
ghost use Rattle.gib_check.specs.Views.{IsDeclared, table_in, types_in, functions_in};
ghost use Rattle.gib_types.specs.Table.{IsTable};

use crate::functions::{FunctionHead, FunctionId, list_heads};
use crate::names::{Called, NameList, list_names};
use crate::tables::make_table;
use gib_base::{Memory, Name};
use gib_syntax::{ExprId, FunctionDecl, Ident, MainDecl, Node, Program, TypeName};
use gib_types::{ConId, Ty, TyId, TypeTable};
use std::alloc::Global;
use std::marker::Model;

/// A program, the table of its types, and the names of its types, constructors and functions.
#[derive(Drop)]
pub struct Declared {
    program: Program,
    table: TypeTable,
    types: NameList,
    constructors: NameList,
    functions: NameList,
    heads: Vec<FunctionHead>,
}

impl Model for Declared {
    ghost use Rattle.gib_syntax.specs.Parts.{Parts};
    ghost use Rattle.gib_check.specs.Views.{IsDeclared};

    ghost Value = { Parts };

    ghost view = { λ d. d.program };

    ghost invariant = { λ d. IsDeclared d.program d.table d.types d.constructors d.functions d.heads.items };
}

impl Called for FunctionDecl {
    ghost called = { λ d. d.name.name.0 };

    /// The name of the function.
    fn name(&self) -> Name {
        self.name.name
    }
}

/// What a program declares, beside the program and the names of its types.
#[derive(Drop)]
struct Listed {
    table: TypeTable,
    constructors: NameList,
    functions: NameList,
    heads: Vec<FunctionHead>,
}

/// All of it. The program is owned by the caller, which has one way out: each way out that owns it would drop all of it.
fn list_all(alloc: Global, program: &Program, types: &NameList) -> Result<Listed, Memory>
    requires types { types.now ≡ types_in program.now }
    requires table { IsTable (table_in program.now) }
    ensures { IfOk result (λ l. IsDeclared program.now l.table types.now l.constructors l.functions l.heads.items) }
{
    let heads = list_heads(alloc, types, program.functions())?;
    let functions = list_names(alloc, program.functions())?;
    let (table, constructors) = make_table(alloc, types, program.data_decls())?;
    Ok(Listed {
        table,
        constructors,
        functions,
        heads,
    })
}

impl Declared {
    ghost use Rattle.gib_syntax.specs.{Arena.{Opens}, Parts.{IsFunctionInside}};
    ghost use Rattle.std.specs.List.{AllByRecursion};

    /// A program with the names of its types.
    pub fn make(alloc: Global, program: Program, types: NameList) -> Result<Declared, Memory>
        requires types { types ≡ types_in program }
        requires table { IsTable (table_in program) }
        ensures { IfOk result (λ declared. declared ≡ program) }
    {
        let Listed {
            table,
            constructors,
            functions,
            heads,
        } = list_all(alloc, &program, &types)?;
        Ok(Declared {
            program,
            table,
            types,
            constructors,
            functions,
            heads,
        })
    }

    /// The functions but main, in the order of the text.
    pub fn functions(&self) -> &[FunctionDecl]
        ensures value { result.now ≡ self.now.functions }
        ensures inside { AllByRecursion (IsFunctionInside (length self.now.exprs)) result.now }
    {
        self.program.functions()
    }

    /// Main.
    pub fn main(&self) -> MainDecl
        ensures value { result ≡ self.now.main }
        ensures inside { result.body.0 < length self.now.exprs }
    {
        self.program.main()
    }

    /// The program.
    pub fn program(&self) -> &Program
        ensures { result.now ≡ self.now }
    {
        &self.program
    }

    /// The table of the program's types and constructors.
    pub fn table(&self) -> &TypeTable
        ensures { result.now ≡ table_in self.now }
    {
        &self.table
    }

    /// The expression of a number.
    pub fn node(&self, id: ExprId) -> &Node
        requires { id.0 < length self.now.exprs }
        ensures { Opens self.now.exprs id.0 result.now }
    {
        self.program.exprs().node(id)
    }

    /// How many expressions there are.
    pub fn expr_count(&self) -> usize
        ensures { result ≡ length self.now.exprs }
    {
        self.program.exprs().len()
    }

    /// The number of the constructor of a name.
    pub fn number(&self, name: Name) -> Option<u32>
        ensures { result ≡ constructor_named (table_in self.now) name.0 }
    {
        self.constructors.place(name)
    }

    /// The type that the constructor of a name makes, `Int` where it is not declared.
    pub fn made_type(&self, name: Name) -> Ty
        ensures { result ≡ made_type (table_in self.now) (constructor_named (table_in self.now) name.0) }
    {
        match self.constructors.place(name) {
            Some(place) => Ty::Tree(self.table.type_of(ConId(place))),
            None => Ty::Whole,
        }
    }

    /// The number of the function of a name.
    pub fn function_id(&self, name: Name) -> Option<FunctionId>
        ensures { MatchOption result (function_named (functions_in self.now) name.0 ≡ None) (λ id. IsNumberOf (functions_in self.now) name.0 id.0) }
    {
        match self.functions.place(name) {
            Some(place) => Some(FunctionId(place)),
            None => None,
        }
    }

    /// The types of the parameters and of the result of a function.
    pub fn head(&self, id: FunctionId) -> &FunctionHead
        requires { id.0 < length (functions_in self.now) }
        ensures { (function : FunctionTree) → slice_get (functions_in self.now) id.0 ≡ Some function → IsHeadOf (table_in self.now) function result.now }
    {
        &self.heads[id.0 as usize]
    }

    /// The type that the function of a name gives, `Int` where it is not declared or gives several parts.
    pub fn given_type(&self, name: Name) -> Ty
        ensures { result ≡ result_if (table_in self.now) (function_named (functions_in self.now) name.0) }
    {
        match self.function_id(name) {
            Some(id) => self.head(id).result,
            None => Ty::Whole,
        }
    }

    /// The types of the fields of the constructor of a name, none where it is not declared.
    pub fn fields_named(&self, k: Ident) -> &[Ty]
        ensures { result.now ≡ fields_named (table_in self.now) k }
    {
        match self.constructors.place(k.name) {
            Some(place) => self.table.fields(ConId(place)),
            None => &[],
        }
    }

    /// The type that is written.
    pub fn type_named(&self, written: TypeName) -> Ty
        ensures { result ≡ type_of_name (types_in self.now) written }
    {
        type_of_name(&self.types, written)
    }
}

/// The type that is written, where the declared types have these names.
pub fn type_written(types: &NameList, written: TypeName) -> Option<Ty>
    ensures { result ≡ type_written types.now written }
{
    match written {
        TypeName::Whole(_) => Some(Ty::Whole),
        TypeName::Truth(_) => Some(Ty::Truth),
        TypeName::Declared(x) => match types.place(x.name) {
            Some(place) => Some(Ty::Tree(TyId(place))),
            None => None,
        },
    }
}

/// The type that is written, `Int` where it is not declared.
pub fn type_of_name(types: &NameList, written: TypeName) -> Ty
    ensures { result ≡ type_of_name types.now written }
{
    match type_written(types, written) {
        Some(ty) => ty,
        None => Ty::Whole,
    }
}
