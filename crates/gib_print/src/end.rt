//! Passes a value whose text becomes an item.

ghost use Rattle.std.specs.Prelude.{◌≡◌, ◌<◌, ◌≤◌, ◌+◌, ◌∷◌, ℕ, length, drop, vec_len, vec_capacity, IsTrue, IsFalse, IfSome, IfNone, suc};
ghost use Rattle.gib_types.specs.{Tree.{Datum}, declared.table.TyId.{TyId}};
ghost use Rattle.gib_packed.specs.Decoding.{Dec, Decodes};
ghost use Rattle.gib_print.specs.Cut.{HasNext, ComesNext};

use crate::frame::passed;
use crate::item::Item;
use crate::turn::Progress;
use gib_mem::Mem;
use gib_packed::skip;
use gib_types::{Layouts, Ty};

/// Whether the next of these fields is a value that stands apart from the head.
fn is_due(fields: &[Ty], next: usize) -> bool
    ensures { IsTrue result → (t : TyId) × (drop next fields.now ≡ Ty.Tree t ∷ drop (suc next) fields.now) }
{
    if next >= fields.len() {
        return false;
    }
    match fields[next] {
        Ty::Tree(_) => true,
        _ => false,
    }
}

/// Whether a field is the last of so many, and its frame the last of all: then nothing but parentheses is left behind it.
fn is_last(frames: usize, fields: usize, next: usize) -> bool
    requires { next < fields }
    ensures { IsTrue result → (frames ≡ 0) × (fields ≤ next + 1) }
{
    if frames > 0 {
        return false;
    }
    next + 1 >= fields
}

/// Where the walk goes on behind the value at an address. The value is not walked over where nothing stands behind it.
fn behind<M: Mem>(mem: &mut M, layouts: &Layouts, at: u64, last: bool) -> u64
    requires { Decodes layouts.now (M.view mem.old).cells at }
    ensures end { IsFalse last → (t : ℕ) (v : Datum) (z : ℕ) → Dec layouts.now (M.view mem.old).cells at t v z → result ≡ z }
    ensures same { M.view mem.new ≡ M.view mem.old }
{
    if last {
        return at;
    }
    skip(mem, layouts, at)
}

/// Passes the value that is due next, if one is. Answers where it stands.
pub(crate) fn pass_part<M: Mem>(
    progress: &mut Progress,
    mem: &mut M,
    layouts: &Layouts,
) -> Option<u64>
    requires left { HasNext layouts.now (M.view mem.old).cells progress.old }
    ensures none { IfNone result ((progress.new.frames.items ≡ progress.old.frames.items) × (progress.new.end ≡ progress.old.end)) }
    ensures some { IfSome result (λ at. ComesNext layouts.now (M.view mem.old).cells progress.old progress.new (Item.Part at)) }
    ensures same { M.view mem.new ≡ M.view mem.old }
{
    let frame = match progress.frames.pop() {
        Some(frame) => frame,
        None => return None,
    };
    let fields = layouts.fields(frame.con);
    if !is_due(fields, frame.next) {
        progress.frames.push_reserved(frame);
        return None;
    }
    let at = progress.end;
    let last = is_last(progress.frames.len(), fields.len(), frame.next);
    progress.end = behind(mem, layouts, at, last);
    progress.frames.push_reserved(passed(frame, 0));
    Some(at)
}
