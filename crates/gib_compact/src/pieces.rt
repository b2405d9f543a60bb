//! How many bytes pieces have, and these bytes.

ghost use Rattle.std.specs.Prelude.{◌≡◌, ◌<◌, ◌≤◌, ◌+◌, ◌^◌, ◌++◌, ℕ, List, length, IfOk, OnOk};
ghost use Rattle.gib_compact.specs.{Counts.{IsCount}, Cut.{IsPiece, Cut, IsFew}};

use crate::count::count_at;
use crate::packing::Packing;
use crate::piece::Piece;
use crate::write::{write_at, write_head};
use gib_base::Memory;
use gib_mem::Mem;
use std::alloc::AllocError;

/// How many bytes a piece has; None where these are more than there may be.
fn count_one<M: Mem>(packing: Packing<'_>, mem: &mut M, piece: Piece) -> Result<Option<u64>, Memory>
    requires most { packing.most < 2 ^ 63 }
    requires is { (bytes : List ℕ) × IsPiece packing.layouts.now (M.view mem.old).cells piece bytes }
    ensures count { (bytes : List ℕ) → IsPiece packing.entry.layouts.now (M.view mem.old).cells piece bytes
        → IfOk result (λ n. IsCount (length bytes) packing.entry.most n) }
    ensures same { M.view mem.new ≡ M.view mem.old }
{
    match piece {
        Piece::Head(head) => {
            let bytes = packing.layouts.layout(head.con).scalars as u64 + 1;
            if bytes > packing.most {
                Ok(None)
            } else {
                Ok(Some(bytes))
            }
        }
        Piece::Part(at) => {
            let count = count_at(packing, mem, at)?;
            Ok(count)
        }
    }
}

/// How many bytes the pieces have; None where these are more than there may be.
pub(crate) fn count_pieces<M: Mem>(
    packing: Packing<'_>,
    mem: &mut M,
    pieces: &[Piece],
) -> Result<Option<u64>, Memory>
    requires most { packing.most < 2 ^ 63 }
    requires cut { (bytes : List ℕ) × Cut packing.layouts.now (M.view mem.old).cells pieces.now bytes }
    ensures count { (bytes : List ℕ) → Cut packing.entry.layouts.now (M.view mem.old).cells pieces.now bytes
        → IfOk result (λ n. IsCount (length bytes) packing.entry.most n) }
    ensures same { M.view mem.new ≡ M.view mem.old }
{
    let mut bytes = 0u64;
    let mut i = 0;
    'pieces: while i < pieces.len() {
        let left = Packing {
            most: packing.most - bytes,
            ..packing
        };
        match count_one(left, mem, pieces[i])? {
            None => return Ok(None),
            Some(count) => {
                bytes += count;
                i += 1;
            }
        }
    }
    Ok(Some(bytes))
}

/// Writes a piece, which has no more bytes than there may be.
fn write_one<M: Mem>(
    packing: Packing<'_>,
    mem: &mut M,
    piece: Piece,
    out: &mut Vec<u8>,
) -> Result<(), Memory>
    requires few { (bytes : List ℕ) × IsPiece packing.layouts.now (M.view mem.old).cells piece bytes × (length bytes ≤ packing.most) }
    ensures out { (bytes : List ℕ) → IsPiece packing.entry.layouts.now (M.view mem.old).cells piece bytes
        → OnOk result (out.new.items ≡ out.old.items ++ bytes) }
    ensures same { M.view mem.new ≡ M.view mem.old }
{
    match piece {
        Piece::Head(head) => {
            write_head(mem, packing.layouts, head, out)?;
            Ok(())
        }
        Piece::Part(at) => {
            match write_at(packing, mem, at, out) {
                Ok(()) => Ok(()),
                Err(_) => Err(AllocError),
            }
        }
    }
}

/// Writes the bytes of the pieces, of which there are no more than there may be.
pub(crate) fn write_pieces<M: Mem>(
    packing: Packing<'_>,
    mem: &mut M,
    pieces: &[Piece],
    out: &mut Vec<u8>,
) -> Result<(), Memory>
    requires few { IsFew packing.layouts.now (M.view mem.old).cells pieces.now packing.most }
    ensures out { (bytes : List ℕ) → Cut packing.entry.layouts.now (M.view mem.old).cells pieces.now bytes
        → OnOk result (out.new.items ≡ out.old.items ++ bytes) }
    ensures same { M.view mem.new ≡ M.view mem.old }
{
    let mut i = 0;
    'pieces: while i < pieces.len() {
        write_one(packing, mem, pieces[i], out)?;
        i += 1;
    }
    Ok(())
}
