//! The types that runs of words spell, by their numbers.

ghost use Rattle.std.specs.Prelude.{◌≡◌, ◌<◌, List, [], ◌∷◌, length, map, IfOk, IfSome, OnOk};
ghost use Rattle.gib_types.specs.Types.{form_at, forms_of, form_from, forms_at, AreBelow, ArgumentsBelow};
ghost use Rattle.gib_syntax.specs.{Declarations.{number_of}, Forms.{WrittenType, assign, formed, written_place}, Words.{stack_of, first_type, read_word}};
ghost use Rattle.gib_check.specs.{Judging.{Grows, Meets, Reads, meant_by, IsMeaningBelow}, ReadingSteps.{ReadsOn, read_one, put_form, data_form}};

use crate::stack::Stack;
use gib_base::{Memory, Span};
use gib_syntax::{Ident, Word};
use gib_types::types::{TypeId, TypeNode, Types};
use std::alloc::Global;

/// What type variables stand for.
#[derive(Drop)]
pub enum Meaning {
    /// Each for itself.
    Opaque,
    /// These type variables for these types; any other name for `Int`.
    Given(Vec<Ident>, Vec<TypeId>),
}

/// The number of `Int` where it was the first type that was met, and of `Bool` where it was the second: no search is needed then.
fn plain_type(types: &Types, node: &TypeNode) -> Option<TypeId>
    ensures below { IfSome result (λ id. id.0 < length types.now) }
    ensures form { IfSome result (λ id. form_at (forms_of types.now) id.0 ≡ form_from (forms_of types.now) node.now) }
{
    match node {
        TypeNode::Whole => {
            if types.len() < 1 {
                return None;
            }
            match types.node(TypeId(0)) {
                TypeNode::Whole => Some(TypeId(0)),
                _ => None,
            }
        }
        TypeNode::Truth => {
            if types.len() < 2 {
                return None;
            }
            match types.node(TypeId(1)) {
                TypeNode::Truth => Some(TypeId(1)),
                _ => None,
            }
        }
        _ => None,
    }
}

/// The number of a type.
///
/// # Errors
///
/// Want of memory.
pub fn put_type(types: &mut Types, node: TypeNode) -> Result<TypeId, Memory>
    requires { ArgumentsBelow (length types.old) node }
    ensures met { IfOk result (λ id. Meets types.old types.new id (form_from (forms_of types.old) node)) }
    ensures grows { Grows types.old types.new }
{
    if let Some(id) = plain_type(types, &node) {
        return Ok(id);
    }
    types.put(node)
}

/// The type that one of these type variables stands for; `Int` for any other name.
///
/// # Errors
///
/// Want of memory.
pub fn given_type(
    types: &mut Types,
    variables: &[Ident],
    meant: &[TypeId],
    x: Ident,
) -> Result<TypeId, Memory>
    requires { AreBelow (length types.old) meant.now }
    ensures met { IfOk result (λ id. Meets types.old types.new id (assign variables.now (forms_at (forms_of types.old) meant.now) (number_of x))) }
    ensures grows { Grows types.old types.new }
{
    let mut names = variables;
    let mut ids = meant;
    'names: while let [name, further_names @ ..] = names {
        let [id, further_ids @ ..] = ids else {
            return put_type(types, TypeNode::Whole);
        };
        if name.name.0 == x.name.0 {
            return Ok(*id);
        }
        names = further_names;
        ids = further_ids;
    }
    put_type(types, TypeNode::Whole)
}

/// The type that a type variable stands for.
fn variable_type(types: &mut Types, meaning: &Meaning, x: Ident) -> Result<TypeId, Memory>
    requires { IsMeaningBelow (length types.old) meaning.now }
    ensures met { IfOk result (λ id. Meets types.old types.new id (meant_by (forms_of types.old) meaning.now (number_of x))) }
    ensures grows { Grows types.old types.new }
{
    match meaning {
        Meaning::Opaque => put_type(types, TypeNode::Variable(x.name.0)),
        Meaning::Given(variables, meant) => given_type(types, variables, meant, x),
    }
}

/// A type is read that has no arguments.
fn read_plain(types: &mut Types, stack: &mut Stack<TypeId>, node: TypeNode) -> Result<(), Memory>
    requires node { ArgumentsBelow (length types.old) node }
    requires below { AreBelow (length types.old) stack.old }
    ensures read { IfOk result (λ _. ReadsOn types.old types.new stack.old stack.new (put_form (form_from (forms_of types.old) node))) }
    ensures grows { Grows types.old types.new }
{
    let id = put_type(types, node)?;
    stack.put(id)?;
    Ok(())
}

/// A type variable is read.
fn read_variable(
    types: &mut Types,
    meaning: &Meaning,
    stack: &mut Stack<TypeId>,
    x: Ident,
) -> Result<(), Memory>
    requires meaning { IsMeaningBelow (length types.old) meaning.now }
    requires below { AreBelow (length types.old) stack.old }
    ensures read { IfOk result (λ _. ReadsOn types.old types.new stack.old stack.new (put_form (meant_by (forms_of types.old) meaning.now (number_of x)))) }
    ensures grows { Grows types.old types.new }
{
    let id = variable_type(types, meaning, x)?;
    stack.put(id)?;
    Ok(())
}

/// The name of a declared type is read, behind its arguments.
fn read_data(
    alloc: Global,
    types: &mut Types,
    stack: &mut Stack<TypeId>,
    name: Ident,
    count: u32,
) -> Result<(), Memory>
    requires { AreBelow (length types.old) stack.old }
    ensures read { IfOk result (λ _. ReadsOn types.old types.new stack.old stack.new (data_form name count)) }
    ensures grows { Grows types.old types.new }
{
    let arguments = stack.take(alloc, count)?;
    let id = put_type(types, TypeNode::Data(name.name.0, arguments))?;
    stack.put(id)?;
    Ok(())
}

/// One word is read, before those that were read.
fn read_word(
    alloc: Global,
    types: &mut Types,
    meaning: &Meaning,
    stack: &mut Stack<TypeId>,
    word: Word,
) -> Result<(), Memory>
    requires meaning { IsMeaningBelow (length types.old) meaning.now }
    requires below { AreBelow (length types.old) stack.old }
    ensures read { IfOk result (λ _. ReadsOn types.old types.new stack.old stack.new (read_one (meant_by (forms_of types.old) meaning.now) word)) }
    ensures grows { Grows types.old types.new }
{
    match word {
        Word::Whole(_) => read_plain(types, stack, TypeNode::Whole),
        Word::Truth(_) => read_plain(types, stack, TypeNode::Truth),
        Word::Variable(x) => read_variable(types, meaning, stack, x),
        Word::Data(_, x, count) => read_data(alloc, types, stack, x, count),
    }
}

/// The types that words spell, in the order of the text.
///
/// # Errors
///
/// Want of memory.
pub fn read(
    alloc: Global,
    types: &mut Types,
    meaning: &Meaning,
    words: &[Word],
) -> Result<Vec<TypeId>, Memory>
    requires { IsMeaningBelow (length types.old) meaning.now }
    ensures read { IfOk result (λ ids. Reads types.old types.new (meant_by (forms_of types.old) meaning.now) words.now ids.items) }
    ensures grows { Grows types.old types.new }
{
    let mut stack = Stack::new(alloc);
    let mut at = words.len();
    'from_last: while at > 0 {
        at -= 1;
        read_word(alloc, types, meaning, &mut stack, words[at])?;
    }
    Ok(stack.into_vec())
}

/// The type that one word spells alone.
fn read_alone(
    alloc: Global,
    types: &mut Types,
    meaning: &Meaning,
    word: Word,
) -> Result<TypeId, Memory>
    requires { IsMeaningBelow (length types.old) meaning.now }
    ensures met { IfOk result (λ id. Meets types.old types.new id (formed (meant_by (forms_of types.old) meaning.now) (first_type (stack_of (word ∷ []))))) }
    ensures grows { Grows types.old types.new }
{
    match word {
        Word::Whole(_) => put_type(types, TypeNode::Whole),
        Word::Truth(_) => put_type(types, TypeNode::Truth),
        Word::Variable(x) => variable_type(types, meaning, x),
        Word::Data(_, x, _) => put_type(types, TypeNode::Data(x.name.0, Vec::new(alloc))),
    }
}

/// The one type that words spell.
///
/// # Errors
///
/// Want of memory.
pub fn read_first(
    alloc: Global,
    types: &mut Types,
    meaning: &Meaning,
    words: &[Word],
) -> Result<TypeId, Memory>
    requires { IsMeaningBelow (length types.old) meaning.now }
    ensures met { IfOk result (λ id. Meets types.old types.new id (formed (meant_by (forms_of types.old) meaning.now) (first_type (stack_of words.now)))) }
    ensures grows { Grows types.old types.new }
{
    if let [word] = words {
        return read_alone(alloc, types, meaning, *word);
    }
    let ids = read(alloc, types, meaning, words)?;
    match ids.as_slice() {
        [] => put_type(types, TypeNode::Whole),
        [first, ..] => Ok(*first),
    }
}

/// The place of one more type is put before those that follow.
fn push_place(stack: &mut Stack<Span>, word: Word) -> Result<(), Memory>
    ensures { OnOk result ((types : List WrittenType) → stack.old ≡ map written_place types → stack.new ≡ map written_place (read_word word types)) }
{
    match word {
        Word::Whole(span) => stack.put(span),
        Word::Truth(span) => stack.put(span),
        Word::Variable(x) => stack.put(x.span),
        Word::Data(span, _, count) => {
            stack.skip(count);
            stack.put(span)
        }
    }
}

/// Where the one type stands that words spell.
///
/// # Errors
///
/// Want of memory.
pub fn type_place(alloc: Global, words: &[Word]) -> Result<Span, Memory>
    ensures { IfOk result (λ place. place ≡ written_place (first_type (stack_of words.now))) }
{
    let places = type_places(alloc, words)?;
    match places.as_slice() {
        [] => Ok(Span { start: 0, end: 0 }),
        [first, ..] => Ok(*first),
    }
}

/// Where the types stand that words spell, in the order of the text.
///
/// # Errors
///
/// Want of memory.
pub fn type_places(alloc: Global, words: &[Word]) -> Result<Vec<Span>, Memory>
    ensures { IfOk result (λ places. places.items ≡ map written_place (stack_of words.now)) }
{
    let mut stack = Stack::new(alloc);
    let mut at = words.len();
    'from_last: while at > 0 {
        at -= 1;
        push_place(&mut stack, words[at])?;
    }
    Ok(stack.into_vec())
}
