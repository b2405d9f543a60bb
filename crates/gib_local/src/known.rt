//! The declarations round the bodies of a text, each found by its name.

ghost use Rattle.std.specs.Prelude.{◌≡◌, ◌++◌, [], map, IfOk};
ghost use Rattle.gib_syntax.specs.{Plain.{written_of}, Declarations.{type_of_name as type_of_written}};
ghost use Rattle.gib_check.specs.Answers.{Gives};
ghost use Rattle.gib_check.specs.Faults as generic;
ghost use Rattle.gib_local.specs.Knowing.{datas_of, declared_of, function_number, kept_in, all_kept, no_tree, constructor_of, function_of};
ghost use Rattle.gib_local.specs.Building.{con, is_flat};
ghost use Rattle.gib_local.specs.Naming as rule;

use gib_base::{Memory, Name, Span};
use gib_check::{
    Called, Fault, Kind, NameList, TypeFault, list_names, list_types, make_table, type_of_name,
};
use gib_local_parse::{FunctionLines, LineId, LineNode, Lines, LocalText};
use gib_syntax::{ConstructorDecl, DataDecl, Ident, TypeName};
use gib_types::{ConId, Ty, TypeTable};
use std::alloc::Global;
use std::marker::Model;

/// A constructor: its name, how many fields it has, and whether none of them is packed.
#[derive(Clone, Copy)]
pub struct Kept {
    pub name: Name,
    pub count: usize,
    pub flat: bool,
}

impl Called for Kept {
    ghost use Rattle.gib_local.specs.Knowing.{kept_name};

    ghost called = { kept_name };

    /// The name of the constructor.
    fn name(&self) -> Name {
        self.name
    }
}

/// A text, with the places of the names that it declares.
#[derive(Drop)]
pub struct Known {
    text: LocalText,
    types: NameList,
    constructors: NameList,
    functions: NameList,
    rows: Vec<Kept>,
}

impl Model for Known {
    ghost use Rattle.gib_local_parse.specs.TextParts.{TextParts};
    ghost use Rattle.gib_local.specs.Knowing.{IsKnown};

    ghost Value = { TextParts };

    ghost view = { λ k. k.text };

    ghost invariant = { λ k. IsKnown k.text k.types k.constructors k.functions k.rows.items };
}

/// A broken rule.
pub fn broken(kind: Kind, span: Span) -> TypeFault
    ensures { result ≡ TypeFault.Broken (record { kind = kind; span = span }) }
{
    TypeFault::Broken(Fault { kind, span })
}

/// As many as there have to be.
fn as_many(count: usize, due: usize, at: Ident) -> Result<(), TypeFault>
    ensures { Gives (λ _. tt {0}) result (rule.as_many count due at) }
{
    if count == due {
        Ok(())
    } else {
        Err(broken(Kind::Count, at.span))
    }
}

/// The names of functions.
fn list_functions(alloc: Global, functions: &[FunctionLines]) -> Result<NameList, Memory>
    ensures { IfOk result (λ names. names ≡ map function_number functions.now) }
{
    let mut names = NameList::new(alloc);
    let mut rest = functions;
    'functions: while let [function, after @ ..] = rest {
        names.push(function.name.name)?;
        rest = after;
    }
    Ok(names)
}

/// Whether none of these types is packed.
fn are_scalars(types: &NameList, fields: &[TypeName]) -> bool
    ensures { result ≡ no_tree (map (type_of_written types.now) fields.now) }
{
    let mut rest = fields;
    'fields: while let [field, after @ ..] = rest {
        if !type_of_name(types, *field).is_scalar() {
            return false;
        }
        rest = after;
    }
    true
}

/// What is kept of a constructor.
fn kept_of(types: &NameList, constructor: &ConstructorDecl) -> Kept
    ensures { result ≡ kept_in types.now constructor.now }
{
    Kept {
        name: constructor.name.name,
        count: constructor.fields.len(),
        flat: are_scalars(types, &constructor.fields),
    }
}

/// Puts the constructors of a type behind the others.
fn push_rows(
    rows: &mut Vec<Kept>,
    types: &NameList,
    constructors: &[ConstructorDecl],
) -> Result<(), Memory>
    ensures { IfOk result (λ _. rows.new.items ≡ rows.old.items ++ map (kept_in types.now) constructors.now) }
{
    let mut rest = constructors;
    'constructors: while let [constructor, after @ ..] = rest {
        rows.push(kept_of(types, constructor))?;
        rest = after;
    }
    Ok(())
}

/// All constructors, in the order of the text.
fn list_rows(alloc: Global, types: &NameList, datas: &[DataDecl]) -> Result<Vec<Kept>, Memory>
    ensures { IfOk result (λ rows. rows.items ≡ all_kept types.now datas.now) }
{
    let mut rows = Vec::new(alloc);
    let mut rest = datas;
    'datas: while let [data, after @ ..] = rest {
        push_rows(&mut rows, types, &data.constructors)?;
        rest = after;
    }
    Ok(rows)
}

impl Known {
    ghost use Rattle.std.specs.Prelude.{◌<◌, length};
    ghost use Rattle.gib_local_parse.specs.LineArena.{Opens};
    ghost use Rattle.gib_types.specs.Table.{IsTable};

    /// A text, with the places of its names.
    ///
    /// # Errors
    ///
    /// Want of memory.
    pub fn make(alloc: Global, text: LocalText) -> Result<Known, Memory>
        ensures { IfOk result (λ known. known ≡ text) }
    {
        let types = list_types(alloc, text.datas())?;
        let rows = list_rows(alloc, &types, text.datas())?;
        let constructors = list_names(alloc, &rows)?;
        let functions = list_functions(alloc, text.functions())?;
        Ok(Known {
            text,
            types,
            constructors,
            functions,
            rows,
        })
    }

    /// The text.
    pub fn text(&self) -> &LocalText
        ensures { result.now ≡ self.now }
    {
        &self.text
    }

    /// The terms of all bodies.
    pub fn lines(&self) -> &Lines
        ensures { result.now ≡ self.now.lines }
    {
        self.text.lines()
    }

    /// The term of a number.
    pub fn node(&self, id: LineId) -> &LineNode
        requires { id.0 < length self.now.lines }
        ensures { Opens self.now.lines id.0 result.now }
    {
        self.text.lines().node(id)
    }

    /// A written type is declared.
    pub fn type_named(&self, ty: TypeName) -> Result<(), TypeFault>
        // As a type of a program that may have type parameters.
        ensures written { Gives (λ _. tt {0}) result (generic.known (datas_of self.now) [] (written_of ty)) }
        ensures named { Gives (λ _. tt {0}) result (rule.known (declared_of self.now).table.types ty) }
    {
        match ty {
            TypeName::Whole(_) => Ok(()),
            TypeName::Truth(_) => Ok(()),
            TypeName::Declared(x) => match self.types.place(x.name) {
                Some(_) => Ok(()),
                None => Err(broken(Kind::Unknown, x.span)),
            },
        }
    }

    /// A constructor is declared.
    pub fn constructor(&self, k: Ident) -> Result<u32, TypeFault>
        ensures { Gives (λ c. c) result (rule.constructor (declared_of self.now).table k) }
    {
        match self.constructors.place(k.name) {
            Some(number) => Ok(number),
            None => Err(broken(Kind::Unknown, k.span)),
        }
    }

    /// A constructor is declared and has so many fields.
    pub fn constructor_of(&self, k: Ident, count: usize) -> Result<(), TypeFault>
        ensures { Gives (λ _. tt {0}) result (constructor_of (declared_of self.now).table k count) }
    {
        let number = self.constructor(k)?;
        as_many(count, self.rows[number as usize].count, k)
    }

    /// A function is declared and has so many parameters.
    pub fn function_of(&self, f: Ident, count: usize) -> Result<(), TypeFault>
        ensures { Gives (λ _. tt {0}) result (function_of (declared_of self.now).functions f count) }
    {
        match self.functions.place(f.name) {
            Some(number) => {
                let function = &self.text.functions()[number as usize];
                as_many(count, function.parameters.len(), f)
            }
            None => Err(broken(Kind::Unknown, f.span)),
        }
    }

    /// The type that is written, `Int` where it is not declared.
    pub fn type_of(&self, ty: TypeName) -> Ty
        ensures { result ≡ type_of_written (declared_of self.now).table.types ty }
    {
        type_of_name(&self.types, ty)
    }

    /// Whether the constructor of a number has no packed field; so it is where there is none.
    fn is_flat_at(&self, number: u32) -> bool
        ensures { result ≡ is_flat (declared_of self.now).table (record { 0 = number }) }
    {
        match self.rows.get(number as usize) {
            Some(row) => row.flat,
            None => true,
        }
    }

    /// The constructor of a name; of an unknown one, the first.
    pub(crate) fn con(&self, k: Ident) -> ConId
        ensures { result ≡ con (declared_of self.now).table k }
    {
        match self.constructors.place(k.name) {
            Some(number) => ConId(number),
            None => ConId(0),
        }
    }

    /// Whether a constructor has no packed fields.
    pub fn is_flat(&self, k: Ident) -> bool
        ensures { result ≡ is_flat (declared_of self.now).table (con (declared_of self.now).table k) }
    {
        self.is_flat_at(self.con(k).0)
    }

    /// The table of the text's types and constructors.
    ///
    /// # Errors
    ///
    /// Want of memory.
    pub(crate) fn table(&self, alloc: Global) -> Result<TypeTable, Memory>
        requires { IsTable (declared_of self.now).table }
        ensures { IfOk result (λ table. table ≡ (declared_of self.now).table) }
    {
        let (table, _names) = make_table(alloc, &self.types, self.text.datas())?;
        Ok(table)
    }

    /// The constructors that are said to have offsets are declared.
    pub fn offsets(&self) -> Result<(), TypeFault>
        ensures { Gives (λ _. tt {0}) result (rule.check_offsets (declared_of self.now).table self.now.offsets) }
    {
        let mut rest = self.text.offsets();
        'offsets: while let [k, after @ ..] = rest {
            self.constructor(*k)?;
            rest = after;
        }
        Ok(())
    }
}
