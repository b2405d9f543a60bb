//! Types at uses of functions and constructors.

ghost use Rattle.std.specs.Prelude.{◌≡◌, ◌<◌, map, length, IfOk};
ghost use Rattle.gib_types.specs.Types.{forms_at, AreBelow};
ghost use Rattle.gib_syntax.specs.{Forms.{formed, formed_all, assign}, GenericTree.{GenericParameterTree}};
ghost use Rattle.gib_syntax.specs.{GenericTyping.{variable_numbers, opaque, field_forms}, GenericParts.{function_in, parameter_in, results_in}};
ghost use Rattle.gib_syntax.specs.{Results.{map_results}, Words.{IsTypesRun, type_in, types_in}};
ghost use Rattle.gib_check.specs.{Answers.{Gives}, Judging.{forms, in_scope, listed, forms_given, parts_in, ArePartsMet, Met, Keeps, meant_by, IsMeaningBelow}};
ghost use Rattle.gib_check.specs.NameViews.{generic_globals, row_in};
ghost use Rattle.gib_check.specs.Faults as rule;

use crate::fault::TypeFault;
use crate::known::all_known;
use crate::named::{Around, Named, RowDecl};
use crate::reading::Meaning;
use crate::rules::{Part, ResultIds, all_wanted, as_many};
use crate::state::State;
use gib_base::{Memory, Name};
use gib_syntax::{GenericFunction, GenericParameter, Ident, ResultRuns, Run};
use gib_types::types::{TypeId, TypeNode};

/// A called function or a constructor, with its type arguments.
#[derive(Clone, Copy)]
pub struct Use {
    pub name: Ident,
    pub types: Run,
}

impl Use {
    /// A name with its type arguments.
    pub fn new(name: Ident, types: Run) -> Use
        ensures { result ≡ record { name = name; types = types } }
    {
        Use { name, types }
    }
}

/// How many type arguments and arguments a use has to have.
#[derive(Clone, Copy)]
pub struct Due {
    pub types: usize,
    pub arguments: usize,
}

/// The type arguments at a use, of which there have to be as many as type variables: their number, their names.
fn type_arguments(
    around: &Around,
    state: &mut State,
    due: usize,
    used: Use,
) -> Result<Vec<TypeId>, TypeFault>
    requires { IsTypesRun around.now.named.now.exprs.words used.types }
    ensures read { Gives (λ _. tt {0}) result
        (rule.use_types (generic_globals around.now.named.now) (variable_numbers around.now.variables.now) used.name (types_in around.now.named.now.exprs.words used.types) due) }
    ensures types { IfOk result (λ ids. forms_at (forms state.new) ids.items ≡ formed_all opaque (types_in around.now.named.now.exprs.words used.types)) }
    ensures below { IfOk result (λ ids. AreBelow (length state.new.types) ids.items) }
    ensures keeps { Keeps state.old state.new }
{
    let ids = state.read(&Meaning::Opaque, around.named.words(used.types))?;
    as_many(ids.len(), due, used.name)?;
    all_known(around.named, around.variables, used.types)?;
    Ok(ids)
}

/// The type arguments at a use with so many arguments, before these are looked at.
pub fn use_types(
    around: &Around,
    state: &mut State,
    used: Use,
    count: usize,
    due: Due,
) -> Result<Vec<TypeId>, TypeFault>
    requires { IsTypesRun around.now.named.now.exprs.words used.types }
    ensures read { Gives (λ _. tt {0}) result
        (rule.use_fits (generic_globals around.now.named.now) (variable_numbers around.now.variables.now) used.name (types_in around.now.named.now.exprs.words used.types) count due.types due.arguments) }
    ensures types { IfOk result (λ ids. forms_at (forms state.new) ids.items ≡ formed_all opaque (types_in around.now.named.now.exprs.words used.types)) }
    ensures below { IfOk result (λ ids. AreBelow (length state.new.types) ids.items) }
    ensures keeps { Keeps state.old state.new }
{
    let types = type_arguments(around, state, due.types, used)?;
    as_many(count, due.arguments, used.name)?;
    Ok(types)
}

/// What these type variables stand for.
fn given(state: &State, variables: &[Ident], types: &[TypeId]) -> Result<Meaning, Memory>
    requires { AreBelow (length state.now.types) types.now }
    ensures meant { IfOk result (λ meaning. meant_by (forms state.now) meaning ≡ assign variables.now (forms_at (forms state.now) types.now)) }
    ensures below { IfOk result (λ meaning. IsMeaningBelow (length state.now.types) meaning) }
{
    let names = Vec::from_slice(state.alloc(), variables)?;
    let ids = Vec::from_slice(state.alloc(), types)?;
    Ok(Meaning::Given(names, ids))
}

/// The types of a constructor's fields, where its type's variables stand for these types.
fn row_fields(
    named: &Named,
    state: &mut State,
    row: RowDecl,
    types: &[TypeId],
) -> Result<Vec<TypeId>, Memory>
    requires { AreBelow (length state.old.types) types.now }
    ensures types { IfOk result (λ ids. listed (forms state.new) ids.items ≡ field_forms (row_in named.now row) (forms_at (forms state.old) types.now)) }
    ensures below { IfOk result (λ ids. AreBelow (length state.new.types) ids.items) }
    ensures keeps { Keeps state.old state.new }
{
    let meaning = given(state, named.variables(row.declaration), types)?;
    let ids = state.read(&meaning, named.words(row.fields))?;
    Ok(ids)
}

/// The types of the fields of the constructor of a name, none where it is not declared.
pub fn fields_named(
    named: &Named,
    state: &mut State,
    name: Name,
    types: &[TypeId],
) -> Result<Vec<TypeId>, Memory>
    requires { AreBelow (length state.old.types) types.now }
    ensures types { IfOk result (λ ids. listed (forms state.new) ids.items ≡ rule.fields_if (rule.row_named (generic_globals named.now).rows name.0) (forms_at (forms state.old) types.now)) }
    ensures below { IfOk result (λ ids. AreBelow (length state.new.types) ids.items) }
    ensures keeps { Keeps state.old state.new }
{
    match named.row(name) {
        Some(row) => {
            let ids = row_fields(named, state, row, types)?;
            Ok(ids)
        }
        None => Ok(Vec::new(state.alloc())),
    }
}

/// The types of parameters.
fn parameter_types(
    named: &Named,
    state: &mut State,
    meaning: &Meaning,
    parameters: &[GenericParameter],
) -> Result<Vec<TypeId>, Memory>
    requires { IsMeaningBelow (length state.old.types) meaning.now }
    ensures types { IfOk result (λ ids. listed (forms state.new) ids.items ≡ map (λ (q : GenericParameterTree). formed (meant_by (forms state.old) meaning.now) q.ty) (map (parameter_in named.now.exprs.words) parameters.now)) }
    ensures below { IfOk result (λ ids. AreBelow (length state.new.types) ids.items) }
    ensures keeps { IfOk result (λ _. Keeps state.old state.new) }
{
    let mut ids = Vec::new(state.alloc());
    let mut rest = parameters;
    'parameters: while let [parameter, after @ ..] = rest {
        let id = state.read_first(meaning, named.words(parameter.ty))?;
        ids.push(id)?;
        rest = after;
    }
    Ok(ids)
}

/// The types of the parts that a function gives.
fn part_types(
    named: &Named,
    state: &mut State,
    meaning: &Meaning,
    runs: &[Run],
) -> Result<Vec<TypeId>, Memory>
    requires { IsMeaningBelow (length state.old.types) meaning.now }
    ensures types { IfOk result (λ ids. listed (forms state.new) ids.items ≡ map (formed (meant_by (forms state.old) meaning.now)) (map (type_in named.now.exprs.words) runs.now)) }
    ensures below { IfOk result (λ ids. AreBelow (length state.new.types) ids.items) }
    ensures keeps { IfOk result (λ _. Keeps state.old state.new) }
{
    let mut ids = Vec::new(state.alloc());
    let mut rest = runs;
    'runs: while let [run, after @ ..] = rest {
        let id = state.read_first(meaning, named.words(*run))?;
        ids.push(id)?;
        rest = after;
    }
    Ok(ids)
}

/// What a function gives, by what its type variables stand for.
pub fn result_types(
    named: &Named,
    state: &mut State,
    meaning: &Meaning,
    gives: &ResultRuns,
) -> Result<ResultIds, Memory>
    requires { IsMeaningBelow (length state.old.types) meaning.now }
    ensures forms { IfOk result (λ given. forms_given state.new given ≡ map_results (formed (meant_by (forms state.old) meaning.now)) (results_in named.now.exprs.words gives.now)) }
    ensures met { IfOk result (λ given. Met state.old state.new given) }
    ensures counts { IfOk result (λ _. state.new.counts ≡ state.old.counts) }
    ensures scope { IfOk result (λ _. (in_scope state.new) ≡ (in_scope state.old)) }
{
    match gives {
        ResultRuns::One(run) => {
            let id = state.read_first(meaning, named.words(*run))?;
            Ok(ResultIds::One(id))
        }
        ResultRuns::Several(runs) => {
            let ids = part_types(named, state, meaning, runs)?;
            let given = state.put_parts(&ids)?;
            Ok(given)
        }
    }
}

/// What a call gives at these types, with these arguments.
pub fn call_results(
    named: &Named,
    state: &mut State,
    function: &GenericFunction,
    types: &[TypeId],
    parts: &[Part],
) -> Result<ResultIds, TypeFault>
    requires types { AreBelow (length state.old.types) types.now }
    requires parts { ArePartsMet state.old parts.now }
    ensures read { Gives (λ r. forms_given state.new r) result
        (rule.called (function_in named.now.exprs function.now) (forms_at (forms state.old) types.now) (parts_in state.old parts.now)) }
    ensures met { IfOk result (λ r. Met state.old state.new r) }
    ensures counts { IfOk result (λ _. state.new.counts ≡ state.old.counts) }
    ensures scope { IfOk result (λ _. (in_scope state.new) ≡ (in_scope state.old)) }
{
    let meaning = given(state, &function.variables, types)?;
    let due = parameter_types(named, state, &meaning, &function.parameters)?;
    all_wanted(state, parts, &due)?;
    let results = result_types(named, state, &meaning, &function.result)?;
    Ok(results)
}

/// What a constructor gives at these types, with these arguments.
pub fn make_result(
    named: &Named,
    state: &mut State,
    row: RowDecl,
    types: Vec<TypeId>,
    parts: &[Part],
) -> Result<ResultIds, TypeFault>
    requires types { AreBelow (length state.old.types) types.items }
    requires parts { ArePartsMet state.old parts.now }
    ensures read { Gives (λ r. forms_given state.new r) result
        (rule.made (row_in named.now row) (forms_at (forms state.old) types.items) (parts_in state.old parts.now)) }
    ensures met { IfOk result (λ r. Met state.old state.new r) }
    ensures counts { IfOk result (λ _. state.new.counts ≡ state.old.counts) }
    ensures scope { IfOk result (λ _. (in_scope state.new) ≡ (in_scope state.old)) }
{
    let fields = row_fields(named, state, row, &types)?;
    all_wanted(state, parts, &fields)?;
    let ty = state.put(TypeNode::Data(row.owner.0, types))?;
    Ok(ResultIds::One(ty))
}
