//! The texts of a source's names and of its copies'.

ghost use Rattle.std.specs.Prelude.{◌≡◌, ◌<◌, ◌≤◌, ◌++◌, length, map, IfOk, OnOk};
ghost use Rattle.gib_base.specs.Texts.{short_of, long_of, AreOfSource};
ghost use Rattle.gib_types.specs.{Form.{DataForm}, Types.{forms_of, form_at, forms_at, AreBelow}};
ghost use Rattle.gib_mono.specs.{Entries.{item_of, items_of, AreEntriesBelow}, Pieces.{form_pieces, types_pieces, further_pieces}};
ghost use Rattle.gib_mono.specs.{Showing.{short_texts, long_texts, short_name, long_name}, Naming.{AreItemsBelow}};

use crate::copy_names::CopyNames;
use crate::entries::Entry;
use gib_base::{Copied, Memory, Name, Names, TextPiece, Texts};
use gib_types::types::{TypeId, TypeNode, Types};
use std::alloc::Global;

/// Writes a type, with those in it in brackets.
#[cycle(types)]
fn push_form(out: &mut Vec<TextPiece>, types: &Types, id: TypeId) -> Result<(), Memory>
    requires { id.0 < length types.now }
    ensures { OnOk result (out.new.items ≡ out.old.items ++ form_pieces (form_at (forms_of types.now) id.0)) }
{
    match types.node(id) {
        TypeNode::Whole => out.push(TextPiece::Whole)?,
        TypeNode::Truth => out.push(TextPiece::Truth)?,
        TypeNode::Variable(_) => {}
        TypeNode::Data(name, arguments) => push_data(out, types, id.0 as usize, *name, arguments)?,
    }
    Ok(())
}

/// Writes a declared type with its arguments, whose numbers are below a number.
#[cycle(types)]
fn push_data(
    out: &mut Vec<TextPiece>,
    types: &Types,
    below: usize,
    name: u32,
    arguments: &[TypeId],
) -> Result<(), Memory>
    requires inside { below ≤ length types.now }
    requires below { AreBelow below arguments.now }
    ensures { OnOk result (out.new.items ≡ out.old.items ++ form_pieces (DataForm name (forms_at (forms_of types.now) arguments.now))) }
{
    out.push(TextPiece::Word(Name(name)))?;
    push_types(out, types, below, arguments)
}

/// Writes types, whose numbers are below a number, in brackets, where there are some.
#[cycle(types)]
fn push_types(
    out: &mut Vec<TextPiece>,
    types: &Types,
    below: usize,
    arguments: &[TypeId],
) -> Result<(), Memory>
    requires inside { below ≤ length types.now }
    requires below { AreBelow below arguments.now }
    ensures { OnOk result (out.new.items ≡ out.old.items ++ types_pieces (forms_at (forms_of types.now) arguments.now)) }
{
    match arguments {
        [] => Ok(()),
        [first, rest @ ..] => {
            out.push(TextPiece::Open)?;
            push_form(out, types, *first)?;
            push_further(out, types, below, rest)
        }
    }
}

/// Writes types behind the first one, each behind a space, and the closing bracket.
#[cycle(types)]
fn push_further(
    out: &mut Vec<TextPiece>,
    types: &Types,
    below: usize,
    arguments: &[TypeId],
) -> Result<(), Memory>
    requires inside { below ≤ length types.now }
    requires below { AreBelow below arguments.now }
    ensures { OnOk result (out.new.items ≡ out.old.items ++ further_pieces (forms_at (forms_of types.now) arguments.now)) }
{
    let mut rest = arguments;
    'arguments: while let [argument, after @ ..] = rest {
        out.push(TextPiece::Space)?;
        push_form(out, types, *argument)?;
        rest = after;
    }
    out.push(TextPiece::Close)?;
    Ok(())
}

/// What a name with types is called.
fn called(alloc: Global, types: &Types, entry: &Entry) -> Result<Copied, Memory>
    requires { AreBelow (length types.now) entry.now.types.items }
    ensures origin { IfOk result (λ c. c.origin.0 ≡ entry.now.name) }
    ensures types { IfOk result (λ c. c.types.items ≡ types_pieces (forms_at (forms_of types.now) entry.now.types.items)) }
{
    let mut pieces = Vec::new(alloc);
    push_types(&mut pieces, types, types.len(), &entry.types)?;
    Ok(Copied {
        origin: Name(entry.name),
        types: pieces,
    })
}

/// What all of these are called.
fn list(
    alloc: Global,
    names: &Names,
    types: &Types,
    entries: &[Entry],
) -> Result<Vec<Copied>, Memory>
    requires below { AreEntriesBelow (length types.now) entries.now }
    requires held { AreItemsBelow (length names.now) (map (item_of (forms_of types.now)) entries.now) }
    ensures short { IfOk result (λ list. map (short_of names.now) list.items ≡ map (short_name names.now) (map (item_of (forms_of types.now)) entries.now)) }
    ensures long { IfOk result (λ list. map (long_of names.now) list.items ≡ map (long_name names.now) (map (item_of (forms_of types.now)) entries.now)) }
    ensures source { IfOk result (λ list. AreOfSource (length names.now) list.items) }
{
    let mut list = Vec::new(alloc);
    let mut rest = entries;
    'entries: while let [entry, after @ ..] = rest {
        let copied = called(alloc, types, entry)?;
        list.push(copied)?;
        rest = after;
    }
    Ok(list)
}

/// The texts of a source's names, and behind them those of its copies' names.
///
/// # Errors
///
/// Want of memory.
pub fn texts(alloc: Global, names: Names, copies: &CopyNames) -> Result<Texts, Memory>
    requires { AreItemsBelow (length names) (items_of copies.now) }
    ensures short { IfOk result (λ t. t.short ≡ short_texts names (items_of copies.now)) }
    ensures long { IfOk result (λ t. t.long ≡ long_texts names (items_of copies.now)) }
{
    let (types, entries) = copies.parts();
    let list = list(alloc, &names, types, entries)?;
    Ok(Texts::with(names, list))
}
