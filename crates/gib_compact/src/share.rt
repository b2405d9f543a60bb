//! Pieces shared out among workers, each with a pass of its own.

ghost use Rattle.std.specs.Prelude.{◌≡◌, ◌<◌, ◌≤◌, ◌+◌, ◌^◌, ◌++◌, [], ℕ, List, length, IfOk};
ghost use Rattle.std.specs.Thread.{IsSync};
ghost use Rattle.gib_arena.specs.Passes.{view, cells, IsOf};
ghost use Rattle.gib_compact.specs.{Cut.{Cut, IsFew}, Counts.{IsCount}, Back.{IsBack, IsSplit, Parts}, Gathered.{gathered}};

use crate::packing::Packing;
use crate::parts::{alone, in_front};
use crate::piece::Piece;
use crate::pieces::{count_pieces, write_pieces};
use gib_arena::{ArenaMem, Pass, names_tell};
use gib_base::Memory;
use std::thread::{Threads, join};

/// Writes the bytes of pieces behind what is written, by one worker.
fn write_alone(
    packing: Packing<'_>,
    pass: Pass,
    pieces: &[Piece],
    out: Vec<u8>,
) -> (Result<Vec<u8>, Memory>, Pass)
    requires own { IsOf packing.arena.now pass }
    requires few { IsFew packing.layouts.now (cells pass) pieces.now packing.most }
    ensures out { (bytes : List ℕ) → Cut packing.entry.layouts.now (cells pass) pieces.entry.now bytes → IfOk result.0 (λ all. all.items ≡ out.items ++ bytes) }
    ensures back { IsBack packing.entry.arena.now pass result.1 }
{
    let mut mem = ArenaMem::make(packing.arena, pass);
    let mut all = out;
    let wrote = write_pieces(packing, &mut mem, pieces, &mut all);
    let (_arena, pass) = mem.into_pass();
    names_tell();
    match wrote {
        Err(memory) => (Err(memory), pass),
        Ok(()) => (Ok(all), pass),
    }
}

/// Splits a pass off for all pieces behind the first so many.
fn deal<'p>(
    packing: Packing<'_>,
    pass: Pass,
    pieces: &'p [Piece],
    count: usize,
) -> (Pass, Pass, &'p [Piece], &'p [Piece])
    requires own { IsOf packing.arena.now pass }
    requires within { count ≤ length pieces.now }
    requires cut { (bytes : List ℕ) × Cut packing.layouts.now (cells pass) pieces.now bytes }
    ensures own { IsOf packing.entry.arena.now result.0 × IsOf packing.entry.arena.now result.1 }
    ensures none_out { (view result.1).branch.out ≡ [] }
    ensures first { (bytes : List ℕ) × Cut packing.entry.layouts.now (cells result.0) result.2.now bytes }
    ensures rest { (bytes : List ℕ) × Cut packing.entry.layouts.now (cells result.1) result.3.now bytes }
    ensures few { (most : ℕ) → IsFew packing.entry.layouts.now (cells pass) pieces.entry.now most → IsFew packing.entry.layouts.now (cells result.0) result.2.now most × IsFew packing.entry.layouts.now (cells result.1) result.3.now most }
    ensures parts { (bytes : List ℕ) → Cut packing.entry.layouts.now (cells pass) pieces.entry.now bytes → Parts packing.entry.layouts.now result.0 result.1 result.2.now result.3.now bytes }
    ensures split { IsSplit pass result.0 result.1 }
{
    let mut mine = pass;
    let other = mine.split(packing.arena);
    let (first, rest) = pieces.split_at(count);
    (mine, other, first, rest)
}

/// How many bytes pieces have, by one worker; None where these are more than there may be.
fn count_alone(
    packing: Packing<'_>,
    pass: Pass,
    pieces: &[Piece],
) -> (Result<Option<u64>, Memory>, Pass)
    requires own { IsOf packing.arena.now pass }
    requires most { packing.most < 2 ^ 63 }
    requires cut { (bytes : List ℕ) × Cut packing.layouts.now (cells pass) pieces.now bytes }
    ensures count { (bytes : List ℕ) → Cut packing.entry.layouts.now (cells pass) pieces.entry.now bytes → IfOk result.0 (λ n. IsCount (length bytes) packing.entry.most n) }
    ensures back { IsBack packing.entry.arena.now pass result.1 }
{
    let mut mem = ArenaMem::make(packing.arena, pass);
    let count = count_pieces(packing, &mut mem, pieces);
    let (_arena, pass) = mem.into_pass();
    names_tell();
    (count, pass)
}

/// The sum of two counts; None where one of these is, or where it is more than so many.
fn sum(first: Option<u64>, second: Option<u64>, most: u64) -> Option<u64>
    requires { most < 2 ^ 63 }
    ensures { (x y : ℕ) → IsCount x most first → IsCount y most second → IsCount (x + y) most result }
{
    match (first, second) {
        (Some(x), Some(y)) => {
            if x > most {
                return None;
            }
            if y > most - x {
                return None;
            }
            Some(x + y)
        }
        _ => None,
    }
}

/// The same of what counting answered.
fn sum_of(
    first: Result<Option<u64>, Memory>,
    second: Result<Option<u64>, Memory>,
    most: u64,
) -> Result<Option<u64>, Memory>
    requires { most < 2 ^ 63 }
    ensures { (x y : ℕ) → IfOk first (λ n. IsCount x most n) → IfOk second (λ n. IsCount y most n) → IfOk result (λ n. IsCount (x + y) most n) }
{
    let x = first?;
    let y = second?;
    Ok(sum(x, y, most))
}

/// How many bytes pieces have, by so many workers; None where these are more than there may be.
pub(crate) fn count_by<R: Threads + Sync>(
    rt: &R,
    packing: Packing<'_>,
    pass: Pass,
    pieces: &[Piece],
    workers: u32,
) -> (Result<Option<u64>, Memory>, Pass)
    requires own { IsOf packing.arena.now pass }
    requires none_out { (view pass).branch.out ≡ [] }
    requires most { packing.most < 2 ^ 63 }
    requires cut { (bytes : List ℕ) × Cut packing.layouts.now (cells pass) pieces.now bytes }
    ensures count { (bytes : List ℕ) → Cut packing.entry.layouts.now (cells pass) pieces.entry.now bytes → IfOk result.0 (λ n. IsCount (length bytes) packing.entry.most n) }
    ensures back { IsBack packing.entry.arena.now pass result.1 }
{
    if workers <= 1 {
        return count_alone(packing, pass, pieces);
    }
    let Packing {
        alloc,
        arena,
        layouts,
        most,
    } = packing;
    let (mine, other, first, rest) = deal(packing, pass, pieces, pieces.len() / workers as usize);
    let ((a, mut last), (b, other)) = join(
        rt,
        move || -> (Result<Option<u64>, Memory>, Pass)
            requires own { IsOf arena.now mine }
            requires most { most < 2 ^ 63 }
            requires cut { (bytes : List ℕ) × Cut layouts.now (cells mine) first.now bytes }
            ensures count { (bytes : List ℕ) → Cut layouts.entry.now (cells mine) first.entry.now bytes → IfOk result.0 (λ n. IsCount (length bytes) most n) }
            ensures back { IsBack arena.entry.now mine result.1 }
        { count_alone(Packing::of(alloc, arena, layouts, most), mine, first) },
        move || -> (Result<Option<u64>, Memory>, Pass)
            requires some { 0 < workers }
            requires own { IsOf arena.now other }
            requires none_out { (view other).branch.out ≡ [] }
            requires most { most < 2 ^ 63 }
            requires cut { (bytes : List ℕ) × Cut layouts.now (cells other) rest.now bytes }
            ensures count { (bytes : List ℕ) → Cut layouts.entry.now (cells other) rest.entry.now bytes → IfOk result.0 (λ n. IsCount (length bytes) most n) }
            ensures back { IsBack arena.entry.now other result.1 }
        {
            let packing = Packing::of(alloc, arena, layouts, most);
            count_by(rt, packing, other, rest, workers - 1)
        },
    );
    last.join(packing.arena, other);
    (sum_of(a, b, packing.most), last)
}

/// The bytes of pieces behind what is written, by so many workers, the first of which is the caller's thread: a buffer for each worker, the
/// first one's last. A worker whose thread cannot be started does its part in the caller's thread.
pub(crate) fn write_by<R: Threads + Sync>(
    rt: &R,
    packing: Packing<'_>,
    pass: Pass,
    pieces: &[Piece],
    out: Vec<u8>,
    workers: u32,
) -> (Result<Vec<Vec<u8>>, Memory>, Pass)
    requires own { IsOf packing.arena.now pass }
    requires none_out { (view pass).branch.out ≡ [] }
    requires few { IsFew packing.layouts.now (cells pass) pieces.now packing.most }
    ensures out { (bytes : List ℕ) → Cut packing.entry.layouts.now (cells pass) pieces.entry.now bytes → IfOk result.0 (λ parts. gathered parts.items ≡ out.items ++ bytes) }
    ensures back { IsBack packing.entry.arena.now pass result.1 }
{
    if workers <= 1 {
        let (all, pass) = write_alone(packing, pass, pieces, out);
        return (alone(packing.alloc, all), pass);
    }
    let Packing {
        alloc,
        arena,
        layouts,
        most,
    } = packing;
    let (mine, other, first, rest) = deal(packing, pass, pieces, pieces.len() / workers as usize);
    let ((a, mut last), (b, other)) = join(
        rt,
        move || -> (Result<Vec<u8>, Memory>, Pass)
            requires own { IsOf arena.now mine }
            requires few { IsFew layouts.now (cells mine) first.now most }
            ensures out { (bytes : List ℕ) → Cut layouts.entry.now (cells mine) first.entry.now bytes → IfOk result.0 (λ all. all.items ≡ out.items ++ bytes) }
            ensures back { IsBack arena.entry.now mine result.1 }
        {
            let packing = Packing::of(alloc, arena, layouts, most);
            write_alone(packing, mine, first, out)
        },
        move || -> (Result<Vec<Vec<u8>>, Memory>, Pass)
            requires some { 0 < workers }
            requires own { IsOf arena.now other }
            requires none_out { (view other).branch.out ≡ [] }
            requires few { IsFew layouts.now (cells other) rest.now most }
            ensures out { (bytes : List ℕ) → Cut layouts.entry.now (cells other) rest.entry.now bytes → IfOk result.0 (λ parts. gathered parts.items ≡ bytes) }
            ensures back { IsBack arena.entry.now other result.1 }
        {
            let packing = Packing::of(alloc, arena, layouts, most);
            write_by(rt, packing, other, rest, Vec::new(alloc), workers - 1)
        },
    );
    last.join(packing.arena, other);
    (in_front(a, b), last)
}
