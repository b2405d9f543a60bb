//! The line of what a weave was started with, read.

ghost use Rattle.std.specs.Prelude.{◌≡◌, ◌<◌, ◌^◌, ◌++◌, ◌∷◌, ℕ, List, true, MatchOption};
ghost use Rattle.std.specs.Fmt.{decimal};
ghost use Rattle.gib_types.specs.declared.access.FieldAccess.{FieldAccess as Accesses};
ghost use Rattle.gib_locked.specs.{Cuts.{lacks}, JournalText.{access_text, settings_text}, declared.settings.Settings.{Settings}};

use crate::cut::{cut, read_number};
use crate::settings::{Settings, are_settings};
use gib_types::FieldAccess;

/// A number that stands behind a word, and what is behind both.
#[derive(Clone, Copy)]
struct Named<'a> {
    number: u64,
    rest: &'a [u8],
}

/// The number behind the word at the front.
fn read_named<'a>(text: &'a [u8], word: &[u8]) -> Option<Named<'a>>
    requires { lacks 32 word.now ≡ true }
    ensures { MatchOption result
        ((n : ℕ) (rest : List ℕ) → n < 2 ^ 64 → text.now ≡ word.now ++ 32 ∷ (decimal n ++ 32 ∷ rest) → ⊥)
        (λ x. text.now ≡ word.now ++ 32 ∷ (decimal x.number ++ 32 ∷ x.rest.now)) }
{
    let Some(parts) = cut(text, b' ') else {
        return None;
    };
    if parts.front != word {
        return None;
    }
    let Some(behind) = cut(parts.rest, b' ') else {
        return None;
    };
    let Some(number) = read_number(behind.front) else {
        return None;
    };
    Some(Named {
        number,
        rest: behind.rest,
    })
}

/// How fields are reached.
fn read_access(text: &[u8]) -> Option<FieldAccess>
    ensures { MatchOption result ((access : Accesses) → text.now ≡ access_text access → ⊥) (λ access. text.now ≡ access_text access) }
{
    if text == b"skips 0".as_slice() {
        Some(FieldAccess::Ends)
    } else if text == b"skips 1".as_slice() {
        Some(FieldAccess::Skips)
    } else {
        None
    }
}

/// What a weave was started with, of which this is the text, without its line feed.
pub(crate) fn read_settings(text: &[u8]) -> Option<Settings>
    ensures { MatchOption result ((s : Settings) → text.now ≡ settings_text s → ⊥) (λ s. text.now ≡ settings_text s) }
{
    let Some(depth) = read_named(text, b"depth") else {
        return None;
    };
    let Some(chunks) = read_named(depth.rest, b"chunks") else {
        return None;
    };
    let Some(fork) = read_named(chunks.rest, b"fork") else {
        return None;
    };
    let Some(access) = read_access(fork.rest) else {
        return None;
    };
    if !are_settings(depth.number, chunks.number, fork.number) {
        return None;
    }
    Some(Settings {
        depth: depth.number as u32,
        chunks: chunks.number as u32,
        fork: fork.number as u32,
        access,
    })
}
