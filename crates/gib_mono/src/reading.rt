//! The types that runs of words spell, by their numbers, and the uses of declared types in them.

ghost use Rattle.std.specs.Prelude.{◌<◌, ◌≤◌, length, IfOk};
ghost use Rattle.gib_types.specs.Types.{forms_of, form_from, forms_at, AreBelow, ArgumentsBelow};
ghost use Rattle.gib_syntax.specs.{Declarations.{number_of}, Forms.{assign}};
ghost use Rattle.gib_mono.specs.Reading.{IsReadBelow, ReadsOn, read_one, put_form, read_data, HasRead};

use gib_base::{Memory, Name, Span};
use gib_check::{Stack, given_type, put_type};
use gib_syntax::{Ident, Word};
use gib_types::types::{TypeId, TypeNode, Types};
use std::alloc::Global;

/// A use of a declared type with types for its type variables, and where its name stands.
#[derive(Drop)]
pub struct Use {
    pub name: Name,
    pub types: Vec<TypeId>,
    pub span: Span,
}

/// What was read of a run, from its last word on: the types that are no arguments yet, where they are written, and the
/// uses, each with the first one on top.
#[derive(Drop)]
pub struct Reading {
    pub types: Stack<TypeId>,
    pub places: Stack<Span>,
    pub uses: Stack<Use>,
}

/// A type is read that has no arguments.
fn read_plain(
    types: &mut Types,
    reading: &mut Reading,
    node: TypeNode,
    span: Span,
) -> Result<(), Memory>
    requires node { ArgumentsBelow (length types.old) node }
    requires below { IsReadBelow (length types.old) reading.old }
    ensures read { IfOk result (λ _. ReadsOn types.old types.new reading.old reading.new (put_form (form_from (forms_of types.old) node) span)) }
    ensures longer { length types.old ≤ length types.new }
{
    let id = put_type(types, node)?;
    reading.types.put(id)?;
    reading.places.put(span)?;
    Ok(())
}

/// A type variable is read.
fn read_variable(
    types: &mut Types,
    variables: &[Ident],
    meant: &[TypeId],
    reading: &mut Reading,
    x: Ident,
) -> Result<(), Memory>
    requires meant { AreBelow (length types.old) meant.now }
    requires below { IsReadBelow (length types.old) reading.old }
    ensures read { IfOk result (λ _. ReadsOn types.old types.new reading.old reading.new (put_form (assign variables.now (forms_at (forms_of types.old) meant.now) (number_of x)) x.span)) }
    ensures longer { length types.old ≤ length types.new }
{
    let id = given_type(types, variables, meant, x)?;
    reading.types.put(id)?;
    reading.places.put(x.span)?;
    Ok(())
}

/// The name of a declared type is read, behind its arguments.
fn read_data(
    alloc: Global,
    types: &mut Types,
    reading: &mut Reading,
    span: Span,
    name: Ident,
    count: u32,
) -> Result<(), Memory>
    requires { IsReadBelow (length types.old) reading.old }
    ensures read { IfOk result (λ _. ReadsOn types.old types.new reading.old reading.new (read_data span name count)) }
    ensures longer { length types.old ≤ length types.new }
{
    let arguments = reading.types.take(alloc, count)?;
    let copied = Vec::from_slice(alloc, &arguments)?;
    let id = put_type(types, TypeNode::Data(name.name.0, copied))?;
    reading.types.put(id)?;
    reading.places.skip(count);
    reading.places.put(span)?;
    reading.uses.put(Use {
        name: name.name,
        types: arguments,
        span: name.span,
    })?;
    Ok(())
}

/// One word is read, before those that were read.
fn read_word(
    alloc: Global,
    types: &mut Types,
    variables: &[Ident],
    meant: &[TypeId],
    reading: &mut Reading,
    word: Word,
) -> Result<(), Memory>
    requires meant { AreBelow (length types.old) meant.now }
    requires below { IsReadBelow (length types.old) reading.old }
    ensures read { IfOk result (λ _. ReadsOn types.old types.new reading.old reading.new (read_one (assign variables.now (forms_at (forms_of types.old) meant.now)) word)) }
    ensures longer { length types.old ≤ length types.new }
{
    match word {
        Word::Whole(span) => read_plain(types, reading, TypeNode::Whole, span),
        Word::Truth(span) => read_plain(types, reading, TypeNode::Truth, span),
        Word::Variable(x) => read_variable(types, variables, meant, reading, x),
        Word::Data(span, x, count) => read_data(alloc, types, reading, span, x, count),
    }
}

/// The types that words spell, where type variables stand for these types, and the uses in them.
pub fn read(
    alloc: Global,
    types: &mut Types,
    variables: &[Ident],
    meant: &[TypeId],
    words: &[Word],
) -> Result<Reading, Memory>
    requires { AreBelow (length types.old) meant.now }
    ensures read { IfOk result (λ reading. HasRead types.old types.new (assign variables.now (forms_at (forms_of types.old) meant.now)) words.now reading) }
    ensures longer { length types.old ≤ length types.new }
{
    let mut reading = Reading {
        types: Stack::new(alloc),
        places: Stack::new(alloc),
        uses: Stack::new(alloc),
    };
    let mut at = words.len();
    'from_last: while at > 0 {
        at -= 1;
        let word = words[at];
        read_word(alloc, types, variables, meant, &mut reading, word)?;
    }
    Ok(reading)
}
