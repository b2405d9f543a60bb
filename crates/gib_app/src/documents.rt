//! The bytes of a document, whole.

ghost use Rattle.std.specs.Prelude.{◌≡◌, ◌<◌, ◌≤◌, ◌^◌, ℕ, List, length, IfOk, IfErr, MatchOption, OnOk, OnErr};
ghost use Rattle.gib_edge.specs.Causes.{Appends, AppendsPart};
ghost use Rattle.gib_app.specs.{Calls.{read_calls}, Ending.{ReadsStay}, Causes.{Holds, OnSource}, Stopping.{answer_for}, Stops.{IsReadStop}};
ghost use Rattle.gib_words.specs.Kept.{document_of};

use crate::stop::Stop;
use gib_edge::outside::{Shelf, ShelfFault};
use gib_gen::make;
use gib_words::plan::Document;
use std::alloc::Global;

/// The bytes, where they are at most so many.
fn at_most(bytes: Vec<u8>, most: u64) -> Option<Vec<u8>>
    ensures { MatchOption result (most < length bytes.items) (λ found. (found.items ≡ bytes.items) × (length found.items ≤ most)) }
{
    if bytes.len() as u64 > most {
        return None;
    }
    Some(bytes)
}

/// All bytes of a document that has at most so many; none where it has more.
///
/// # Errors
///
/// `Unread` where the file could not be read; `Memory`.
pub fn read_document<'a, S: Shelf>(
    shelf: &mut S,
    alloc: Global,
    document: Document<'a>,
    most: u64,
) -> Result<Option<Vec<u8>>, Stop<'a>>
    requires { most < 2 ^ 40 }
    ensures bytes { IfOk result (λ found. MatchOption found (OnSource (S.view shelf.old).kept (document_of document.entry) (λ bytes. most < length bytes))
        (λ bytes. Holds (S.view shelf.old).kept (document_of document.entry) bytes.items × (length bytes.items ≤ most))) }
    ensures stop { IfErr result (IsReadStop (S.view shelf.old) (S.view shelf.new) (document_of document.entry)) }
    ensures same { (name : List ℕ) → (S.view shelf.new).kept name ≡ (S.view shelf.old).kept name }
    ensures later { (name : List ℕ) → (S.view shelf.old).reads name ≤ (S.view shelf.new).reads name }
    ensures writes { (name : List ℕ) → (S.view shelf.new).writes name ≡ (S.view shelf.old).writes name }
    ensures quiet { IfOk result (λ _. (name : List ℕ) → (S.view shelf.new).reads name ≡ (S.view shelf.old).reads name) }
    ensures reads { IfErr result (λ stop. ReadsStay (S.view shelf.old).reads (S.view shelf.new).reads (answer_for stop).status) }
    ensures called { OnOk result (Appends (S.view shelf.old).calls (S.view shelf.new).calls (read_calls (document_of document.entry) most)) }
    ensures once { OnErr result (AppendsPart (S.view shelf.old).calls (S.view shelf.new).calls (read_calls (document_of document.entry) most)) }
{
    match document {
        Document::BuiltIn(bytes) => {
            if bytes.len() as u64 > most {
                return Ok(None);
            }
            match Vec::from_slice(alloc, bytes) {
                Ok(copy) => Ok(Some(copy)),
                Err(_) => Err(Stop::Memory),
            }
        }
        Document::Named(name) => match shelf.read(alloc, name, most + 1) {
            Ok(bytes) => {
                if bytes.len() as u64 > most {
                    return Ok(None);
                }
                Ok(Some(bytes))
            }
            Err(ShelfFault::Failed) => Err(Stop::Unread(name)),
            Err(ShelfFault::Memory) => Err(Stop::Memory),
        },
        Document::MadeSource(number) => match make(alloc, number, 0) {
            Ok(made) => Ok(at_most(made.source, most)),
            Err(_) => Err(Stop::Memory),
        },
        Document::MadeInput(number, levels) => match make(alloc, number, levels) {
            Ok(made) => Ok(at_most(made.input, most)),
            Err(_) => Err(Stop::Memory),
        },
    }
}
