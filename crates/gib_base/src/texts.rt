//! Texts of names, by number, with those of names with types.

ghost use Rattle.std.specs.Prelude.{◌≡◌, ◌<◌, [], ◌++◌, ℕ, length, slice_get, unwrap_or, Some, IfSome, IfNone, OnOk};
ghost use Rattle.gib_base.specs.Texts.{plain_texts, piece_text, pieces_text, long_of, view_of, IsBracketed, AreOfSource, HasBracket};

use crate::Memory;
use crate::name::{Name, Names};
use std::alloc::Global;
use std::marker::Model;

/// A piece of types that stand behind a name.
#[derive(Clone, Copy)]
pub enum TextPiece {
    Word(Name),
    Whole,
    Truth,
    Open,
    Space,
    Close,
}

/// A name with types. It has no bytes of its own: a name of the source may be long, and stand in many types.
#[derive(Drop)]
pub struct Copied {
    /// The name without the types.
    pub origin: Name,
    /// The types in brackets, where there are some.
    pub types: Vec<TextPiece>,
}

/// Texts of names, each by its number: those of a source, and behind them those of its names with types. Each has two: the
/// short one, by which values are written and read, is that of the source's name; the long one tells the types too.
#[derive(Drop)]
pub struct Texts {
    names: Names,
    copies: Vec<Copied>,
}

impl Model for Texts {
    ghost use Rattle.std.specs.Prelude.{length};
    ghost use Rattle.gib_base.specs.Texts.{TextsView, view_of, AreOfSource};

    ghost Value = { TextsView };

    ghost view = { λ t. view_of t.names t.copies.items };

    ghost invariant = { λ t. AreOfSource (length t.names) t.copies.items };
}

/// The text of a piece.
fn piece_text(names: &Names, piece: TextPiece) -> &[u8]
    ensures { result.now ≡ piece_text names.now piece }
{
    match piece {
        TextPiece::Word(name) => names.text_or_none(name),
        TextPiece::Whole => b"Int",
        TextPiece::Truth => b"Bool",
        TextPiece::Open => b"[",
        TextPiece::Space => b" ",
        TextPiece::Close => b"]",
    }
}

/// Writes pieces.
fn push_pieces(out: &mut Vec<u8>, names: &Names, pieces: &[TextPiece]) -> Result<(), Memory>
    ensures { OnOk result (out.new.items ≡ out.old.items ++ pieces_text names.now pieces.now) }
{
    let mut rest = pieces;
    'pieces: while let [piece, after @ ..] = rest {
        out.extend_from_slice(piece_text(names, *piece))?;
        rest = after;
    }
    Ok(())
}

/// Writes the long text of a name with types.
fn push_copied(out: &mut Vec<u8>, names: &Names, copied: &Copied) -> Result<(), Memory>
    ensures { OnOk result (out.new.items ≡ out.old.items ++ long_of names.now copied.now) }
{
    out.extend_from_slice(names.text_or_none(copied.origin))?;
    push_pieces(out, names, &copied.types)?;
    Ok(())
}

/// The long text of a name where no types stand behind it.
fn text_of<'a>(names: &'a Names, copied: &'a Copied) -> Option<&'a [u8]>
    requires { IsBracketed copied.now.types.items }
    ensures text { IfSome result (λ text. text.now ≡ long_of names.now copied.now) }
    ensures types { IfNone result (HasBracket (long_of names.now copied.now)) }
{
    if copied.types.is_empty() {
        Some(names.text_or_none(copied.origin))
    } else {
        None
    }
}

impl Texts {
    /// Those of a source alone, which are its names.
    pub fn new(alloc: Global, names: Names) -> Texts
        ensures { result ≡ plain_texts names }
    {
        Texts {
            names,
            copies: Vec::new(alloc),
        }
    }

    /// Those of a source and of its names with types.
    pub fn with(names: Names, copies: Vec<Copied>) -> Texts
        requires { AreOfSource (length names) copies.items }
        ensures { result ≡ view_of names copies.items }
    {
        Texts { names, copies }
    }

    /// The short text of a name.
    pub fn short(&self, name: Name) -> &[u8]
        requires { name.0 < length self.now.short }
        ensures { slice_get self.now.short name.0 ≡ Some result.now }
    {
        let count = self.names.len();
        if name.0 < count {
            self.names.text(name)
        } else {
            let copied = &self.copies[(name.0 - count) as usize];
            self.names.text(copied.origin)
        }
    }

    /// Writes the long text of a name; of a number that no name has, no text.
    ///
    /// # Errors
    ///
    /// Want of memory.
    pub fn push_long(&self, out: &mut Vec<u8>, name: Name) -> Result<(), Memory>
        ensures { OnOk result (out.new.items ≡ out.old.items ++ unwrap_or (slice_get self.now.long name.0) []) }
    {
        let count = self.names.len();
        if name.0 < count {
            out.extend_from_slice(self.names.text(name))?;
            return Ok(());
        }
        let place = (name.0 - count) as usize;
        if place < self.copies.len() {
            push_copied(out, &self.names, &self.copies[place])?;
        }
        Ok(())
    }

    /// The long text of a name without types; none where types stand behind it in brackets. Of a number that no name has, no text.
    pub fn without_types(&self, name: Name) -> Option<&[u8]>
        ensures text { IfSome result (λ text. text.now ≡ unwrap_or (slice_get self.now.long name.0) []) }
        ensures types { IfNone result (HasBracket (unwrap_or (slice_get self.now.long name.0) [])) }
    {
        let count = self.names.len();
        if name.0 < count {
            return Some(self.names.text(name));
        }
        let place = (name.0 - count) as usize;
        if place >= self.copies.len() {
            return Some(&[]);
        }
        text_of(&self.names, &self.copies[place])
    }

    /// A name with the short text, where there is one.
    pub fn find(&self, text: &[u8]) -> Option<Name>
        ensures held { IfSome result (λ name. slice_get self.now.short name.0 ≡ Some text.now) }
        ensures absent { IfNone result ((number : ℕ) → slice_get self.now.short number ≡ Some text.now → ⊥) }
    {
        self.names.find(text)
    }
}
