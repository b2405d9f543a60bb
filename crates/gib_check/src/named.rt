//! A program with type parameters, and the places of its names.

ghost use Rattle.std.specs.Prelude.{◌≡◌, ◌<◌, ◌+◌, ◌++◌, Some, None, map, length, IfOk};
ghost use Rattle.gib_syntax.specs.{Declarations.{place_of}, GenericParts.{generic_program_of, function_in}, GenericTree.{data_named}, Words.{run_words, stack_of}};
ghost use Rattle.gib_check.specs.Answers.{Gives};
ghost use Rattle.gib_check.specs.NameViews.{IsNamed, generic_globals, data_number, function_number, row_decl, all_rows, row_in, row_option};
ghost use Rattle.gib_check.specs.NameViews.{arity_of, variables_at, count_of};
ghost use Rattle.gib_check.specs.Faults as rule;

use crate::fault::{Kind, TypeFault};
use crate::names::{Called, NameList, list_names};
use crate::reading::type_places;
use crate::rules::broken;
use gib_base::{Memory, Name};
use gib_syntax::{
    ExprId, GenericData, GenericExprs, GenericFunction, GenericNode, GenericProgram, Ident, Run,
    Word,
};
use std::alloc::{AllocError, Global};
use std::marker::Model;

/// A constructor: its name and its type's, the place of the type's declaration, the run of its fields' types, and how
/// many these are.
#[derive(Clone, Copy)]
pub struct RowDecl {
    pub name: Name,
    pub owner: Name,
    pub declaration: u32,
    pub fields: Run,
    pub count: usize,
}

/// A program with type parameters, with the places of its names.
#[derive(Drop)]
pub struct Named {
    alloc: Global,
    program: GenericProgram,
    types: NameList,
    constructors: NameList,
    functions: NameList,
    rows: Vec<RowDecl>,
}

impl Model for Named {
    ghost use Rattle.gib_syntax.specs.GenericParts.{GenericParts};
    ghost use Rattle.gib_check.specs.NameViews.{IsNamed};

    ghost Value = { GenericParts };

    ghost view = { λ n. n.program };

    ghost invariant = { λ n. IsNamed n.program n.types n.constructors n.functions n.rows.items };
}

/// What stands around the expressions of a body: the program, and the type variables of the body's function.
#[derive(Drop)]
pub struct Around<'a> {
    pub named: &'a Named,
    pub variables: &'a [Ident],
}

impl Called for RowDecl {
    ghost called = { λ d. d.name.0 };

    /// The name of the constructor.
    fn name(&self) -> Name {
        self.name
    }
}

impl Called for GenericData {
    ghost called = { λ d. d.name.name.0 };

    /// The name of the declared type.
    fn name(&self) -> Name {
        self.name.name
    }
}

impl Called for GenericFunction {
    ghost called = { λ d. d.name.name.0 };

    /// The name of the function.
    fn name(&self) -> Name {
        self.name.name
    }
}

/// The names of the declared types, in their order.
///
/// # Errors
///
/// Want of memory.
pub fn type_names(alloc: Global, program: &GenericProgram) -> Result<NameList, Memory>
    ensures { IfOk result (λ names. names ≡ map data_number (generic_program_of program.now).datas) }
{
    list_names(alloc, program.datas())
}

/// The names of the functions, in their order.
///
/// # Errors
///
/// Want of memory.
pub fn function_names(alloc: Global, program: &GenericProgram) -> Result<NameList, Memory>
    ensures { IfOk result (λ names. names ≡ map function_number (generic_program_of program.now).functions) }
{
    list_names(alloc, program.functions())
}

/// How many types a run is.
fn count_types(alloc: Global, exprs: &GenericExprs, run: Run) -> Result<usize, Memory>
    ensures { IfOk result (λ count. count ≡ length (stack_of (run_words exprs.now.words run))) }
{
    let places = type_places(alloc, exprs.words(run))?;
    Ok(places.len())
}

/// Puts the constructors of the declaration of a place behind others.
fn push_rows(
    alloc: Global,
    rows: &mut Vec<RowDecl>,
    exprs: &GenericExprs,
    place: u32,
    declaration: &GenericData,
) -> Result<(), Memory>
    ensures { IfOk result (λ _. rows.new.items ≡ rows.old.items ++ map (row_decl exprs.now.words place declaration.now) declaration.now.constructors.items) }
{
    let mut rest = declaration.constructors.as_slice();
    'constructors: while let [constructor, after @ ..] = rest {
        let count = count_types(alloc, exprs, constructor.fields)?;
        rows.push(RowDecl {
            name: constructor.name.name,
            owner: declaration.name.name,
            declaration: place,
            fields: constructor.fields,
            count,
        })?;
        rest = after;
    }
    Ok(())
}

/// All constructors, in the order of the text.
fn list_rows(alloc: Global, program: &GenericProgram) -> Result<Vec<RowDecl>, Memory>
    ensures { IfOk result (λ rows. rows.items ≡ all_rows program.now.exprs.words 0 program.now.datas) }
{
    let mut rows = Vec::new(alloc);
    let mut place = 0_u32;
    let mut rest = program.datas();
    'datas: while let [declaration, after @ ..] = rest {
        push_rows(alloc, &mut rows, program.exprs(), place, declaration)?;
        let Some(next) = place.checked_add(1) else {
            return Err(AllocError);
        };
        place = next;
        rest = after;
    }
    Ok(rows)
}

/// The names that a program declares, and its constructors.
#[derive(Drop)]
struct Listed {
    types: NameList,
    constructors: NameList,
    functions: NameList,
    rows: Vec<RowDecl>,
}

/// All of them. The program is owned by the caller, which has one way out: each way out that owns it would drop all of it.
fn list_all(alloc: Global, program: &GenericProgram) -> Result<Listed, Memory>
    ensures { IfOk result (λ l. IsNamed program.now l.types l.constructors l.functions l.rows.items) }
{
    let rows = list_rows(alloc, program)?;
    let constructors = list_names(alloc, &rows)?;
    let types = type_names(alloc, program)?;
    let functions = function_names(alloc, program)?;
    Ok(Listed {
        types,
        constructors,
        functions,
        rows,
    })
}

impl Named {
    ghost use Rattle.gib_syntax.specs.GenericArena.{Opens, IsRunWithin};

    /// A program with the places of its names.
    ///
    /// # Errors
    ///
    /// Want of memory.
    pub fn make(alloc: Global, program: GenericProgram) -> Result<Named, Memory>
        ensures { IfOk result (λ named. named ≡ program) }
    {
        let Listed {
            types,
            constructors,
            functions,
            rows,
        } = list_all(alloc, &program)?;
        Ok(Named {
            alloc,
            program,
            types,
            constructors,
            functions,
            rows,
        })
    }

    /// The allocator of the names.
    pub fn alloc(&self) -> Global {
        self.alloc
    }

    /// The program.
    pub fn program(&self) -> &GenericProgram
        ensures { result.now ≡ self.now }
    {
        &self.program
    }

    /// The program alone.
    pub fn into_program(self) -> GenericProgram
        ensures { result ≡ self }
    {
        self.program
    }

    /// The words of a run.
    pub fn words(&self, run: Run) -> &[Word]
        ensures { result.now ≡ run_words self.now.exprs.words run }
    {
        self.program.exprs().words(run)
    }

    /// The expression of a number.
    pub fn node(&self, id: ExprId) -> &GenericNode
        requires { id.0 < length self.now.exprs.nodes }
        ensures opens { Opens self.now.exprs id.0 result.now }
        ensures within { IsRunWithin result.now self.now.exprs.words }
    {
        self.program.exprs().node(id)
    }

    /// The place of the declared type of a name.
    pub fn type_place(&self, name: Name) -> Option<u32>
        ensures { result ≡ place_of (map data_number (generic_globals self.now).datas) name.0 }
    {
        self.types.place(name)
    }

    /// The place of the function of a name.
    pub fn function_place(&self, name: Name) -> Option<u32>
        ensures { result ≡ place_of (map function_number (generic_globals self.now).functions) name.0 }
    {
        self.functions.place(name)
    }

    /// How many type variables the declared type of a name has; None where there is none.
    pub fn arity(&self, name: Name) -> Option<usize>
        ensures { result ≡ arity_of (data_named (generic_globals self.now).datas name.0) }
    {
        match self.types.place(name) {
            Some(place) => Some(self.program.datas()[place as usize].variables.len()),
            None => None,
        }
    }

    /// The constructor of a name; None where there is none.
    pub fn row(&self, name: Name) -> Option<RowDecl>
        ensures row { row_option self.now result ≡ rule.row_named (generic_globals self.now).rows name.0 }
        ensures count { rule.field_count (row_option self.now result) ≡ count_of result }
    {
        match self.constructors.place(name) {
            Some(place) => Some(self.rows[place as usize]),
            None => None,
        }
    }

    /// The constructor of a name.
    pub fn constructor(&self, k: Ident) -> Result<RowDecl, TypeFault>
        ensures row { Gives (λ r. row_in self.now r) result (rule.constructor (generic_globals self.now).rows k) }
        ensures count { IfOk result (λ r. r.count ≡ length (row_in self.now r).fields) }
    {
        match self.row(k.name) {
            Some(row) => Ok(row),
            None => Err(broken(Kind::Unknown, k.span)),
        }
    }

    /// All constructors, in the order of the text.
    pub fn rows(&self) -> &[RowDecl]
        ensures { map (row_in self.now) result.now ≡ (generic_globals self.now).rows }
    {
        &self.rows
    }

    /// The type variables of the declaration of a place.
    pub fn variables(&self, place: u32) -> &[Ident]
        ensures { result.now ≡ variables_at self.now.datas place }
    {
        match self.program.datas().get(place as usize) {
            Some(declaration) => &declaration.variables,
            None => &[],
        }
    }

    /// The function of a name.
    pub fn function(&self, f: Ident) -> Result<&GenericFunction, TypeFault>
        ensures { Gives (λ d. function_in self.now.exprs d.now) result (rule.function (generic_globals self.now).functions f) }
    {
        match self.functions.place(f.name) {
            Some(place) => Ok(&self.program.functions()[place as usize]),
            None => Err(broken(Kind::Unknown, f.span)),
        }
    }
}
