//! Two threads over one arena.
ghost use Rattle.std.specs.Prelude.{◌≡◌, ◌+◌, ◌<◌, ◌≤◌, ℕ, length, IfOk, IfSome};
ghost use Rattle.gib_mem.specs.Memory.{fresh, byte, after_put};
ghost use Rattle.gib_arena.specs.{Rule.{first_view}, Steps.{split_left, split_right}, Passes.{view, cells, IsOf}};

use gib_arena::{Arena, ArenaMem, Pass, SoleMem, arena, close};
use gib_mem::{Mem, PlainMem};
use std::alloc::{AllocError, Global};
use std::test::*;
use std::thread::{Threads, join};

// Draws until no chunk is left, and lists what it drew.
fn draw_all(alloc: Global, arena: &Arena, pass: Pass) -> Result<(Pass, Vec<u32>), AllocError>
    requires { IsOf arena.now pass }
    ensures { IfOk result (λ r. IsOf arena.now r.0 × ((view r.0).branch ≡ (view pass).branch)) }
{
    let mut mine = pass;
    let mut drawn = Vec::new(alloc);
    'draws: while let Some(chunk) = mine.draw(arena) {
        drawn.push(chunk)?;
    }
    Ok((mine, drawn))
}

// The chunks that two threads draw, and how many there are in the end.
fn draw_by_two<R: Threads + Sync>(
    rt: &R,
    alloc: Global,
    chunks: u32,
) -> Result<(Vec<u32>, Vec<u32>, u32), AllocError> {
    let (shared, mut pass) = arena(alloc, chunks)?;
    let other = pass.split(&shared);
    let memory = &shared;
    let (a, b) = join(
        rt,
        || -> Result<(Pass, Vec<u32>), AllocError>
            requires { IsOf memory.now pass }
            ensures { IfOk result (λ r. IsOf memory.entry.now r.0 × ((view r.0).branch ≡ (view pass).branch)) }
        { draw_all(alloc, memory, pass) },
        || -> Result<(Pass, Vec<u32>), AllocError>
            requires { IsOf memory.now other }
            ensures { IfOk result (λ r. IsOf memory.entry.now r.0 × ((view r.0).branch ≡ (view other).branch)) }
        { draw_all(alloc, memory, other) },
    );
    let (mut whole, left) = a?;
    let (rest, right) = b?;
    whole.join(&shared, rest);
    Ok((left, right, close(shared, whole)))
}

// Whether each of so many chunks is in one of two lists and not in the other.
fn is_in_one(left: &[u32], right: &[u32], chunks: u32) -> bool {
    for chunk in 0..chunks {
        if left.contains(&chunk) == right.contains(&chunk) {
            return false;
        }
    }
    true
}

// Whether two threads draw each of so many chunks once.
fn each_is_drawn_once<R: Threads + Sync>(
    rt: &R,
    alloc: Global,
    chunks: u32,
) -> Result<bool, AllocError> {
    let (left, right, drawn) = draw_by_two(rt, alloc, chunks)?;
    Ok(
        drawn == chunks
            && left.len() + right.len() == chunks as usize
            && is_in_one(&left, &right, chunks),
    )
}

#[test]
fn two_threads_draw_each_chunk_once(rt: HostRuntime) -> Result<(), Fail> {
    assert!(rt; each_is_drawn_once(&rt, rt.alloc(), 16)?);
    Ok(())
}

// Draws a chunk and puts its first byte: where. The next address, of the same word, is fresh still.
fn write<M: Mem>(mem: &mut M, value: u8) -> Option<u64>
    ensures known { IfSome result (λ at. (M.view mem.new).cells at ≡ byte value) }
    ensures free { IfSome result (λ at. (M.view mem.new).cells (at + 1) ≡ fresh) }
    ensures holder { (M.view mem.new).holder ≡ (M.view mem.old).holder }
{
    match mem.draw() {
        None => None,
        Some(chunk) => {
            let at = 4096 * chunk as u64;
            mem.put(at, value);
            Some(at)
        }
    }
}

// The same with a pass.
fn write_once(arena: &Arena, pass: Pass, value: u8) -> Option<(Pass, u64)>
    requires { IsOf arena.now pass }
    ensures same { IfSome result (λ r. IsOf arena.now r.0 × ((view r.0).branch ≡ (view pass).branch)) }
    ensures known { IfSome result (λ r. cells r.0 r.1 ≡ byte value) }
    ensures free { IfSome result (λ r. cells r.0 (r.1 + 1) ≡ fresh) }
{
    let mut mem = ArenaMem::make(arena, pass);
    let at = write(&mut mem, value)?;
    let (_, pass) = mem.into_pass();
    Some((pass, at))
}

// Puts a byte at a fresh address and reads it.
fn put_and_get<M: Mem>(mem: &mut M, at: u64, value: u8) -> u8
    requires { (M.view mem.old).cells at ≡ fresh }
    ensures { M.view mem.new ≡ after_put (M.view mem.old) at value }
{
    mem.put(at, value);
    mem.get(at)
}

/// Three bytes that were read, and the number of chunks.
type Seen = (u8, u8, u8, u32);

// Each of two threads puts a byte. After the join: what the one pass reads of both, a third byte that it puts behind that of
// the other thread, and the number of chunks.
fn exchange<R: Threads + Sync>(rt: &R, shared: Arena, pass: Pass, one: u8, two: u8) -> Option<Seen>
    requires { IsOf shared pass × (view pass ≡ first_view 2) }
{
    let mut pass = pass;
    let other = pass.split(&shared);
    let memory = &shared;
    let (a, b) = join(
        rt,
        || -> Option<(Pass, u64)>
            requires { IsOf memory.now pass }
            ensures { IfSome result (λ r. IsOf memory.entry.now r.0 × ((view r.0).branch ≡ (view pass).branch) × (cells r.0 r.1 ≡ byte one)) }
        { write_once(memory, pass, one) },
        || -> Option<(Pass, u64)>
            requires { IsOf memory.now other }
            ensures { IfSome result (λ r. IsOf memory.entry.now r.0 × ((view r.0).branch ≡ (view other).branch) × (cells r.0 r.1 ≡ byte two) × (cells r.0 (r.1 + 1) ≡ fresh)) }
        { write_once(memory, other, two) },
    );
    let (mut whole, left) = a?;
    let (rest, right) = b?;
    whole.join(&shared, rest);
    let first = whole.get(&shared, left);
    let second = whole.get(&shared, right);
    let mut mem = ArenaMem::make(&shared, whole);
    let third = put_and_get(&mut mem, right + 1, 7);
    let (_, whole) = mem.into_pass();
    Some((first, second, third, close(shared, whole)))
}

// Puts a byte at a fresh address.
fn put_known<M: Mem>(mem: &mut M, at: u64, value: u8)
    requires { (M.view mem.old).cells at ≡ fresh }
    ensures known { (M.view mem.new).cells at ≡ byte value }
    ensures holder { (M.view mem.new).holder ≡ (M.view mem.old).holder }
{
    mem.put(at, value);
}

// The same with a pass.
fn put_by(arena: &Arena, pass: Pass, at: u64, value: u8) -> Pass
    requires of { IsOf arena.now pass }
    requires free { cells pass at ≡ fresh }
    ensures same { IsOf arena.now result × ((view result).branch ≡ (view pass).branch) }
    ensures known { cells result at ≡ byte value }
{
    let mut mem = ArenaMem::make(arena, pass);
    put_known(&mut mem, at, value);
    let (_, pass) = mem.into_pass();
    pass
}

// Reads a byte with a pass.
fn get_by(arena: &Arena, pass: Pass, at: u64, value: u8) -> (Pass, u8)
    requires of { IsOf arena.now pass }
    requires known { cells pass at ≡ byte value }
    ensures { IsOf arena.now result.0 × (view result.0 ≡ view pass) }
{
    let mut mine = pass;
    let got = mine.get(arena, at);
    (mine, got)
}

// Splits a pass that knows one byte and may put another: the first pass may put it still, the second one knows the byte.
fn split_beside(arena: &Arena, pass: Pass, at: u64, value: u8, next: u64) -> (Pass, Pass)
    requires of { IsOf arena.now pass }
    requires known { cells pass at ≡ byte value }
    requires free { cells pass next ≡ fresh }
    ensures of { IsOf arena.now result.0 × IsOf arena.now result.1 }
    ensures left { view result.0 ≡ split_left (view pass) }
    ensures right { view result.1 ≡ split_right (view pass) }
    ensures free { cells result.0 next ≡ fresh }
    ensures known { cells result.1 at ≡ byte value }
{
    let mut mine = pass;
    let other = mine.split(arena);
    (mine, other)
}

// Two passes share a word: byte 0 is put before a split, then byte 1 in one thread while the other reads byte 0. What it read, and
// after the join both bytes and the number of chunks.
fn share_a_word<R: Threads + Sync>(
    rt: &R,
    shared: Arena,
    pass: Pass,
    one: u8,
    two: u8,
) -> Option<Seen>
    requires { IsOf shared pass × (view pass ≡ first_view 1) }
{
    let (pass, at) = write_once(&shared, pass, one)?;
    let next = at + 1;
    let (left, right) = split_beside(&shared, pass, at, one, next);
    let memory = &shared;
    let (a, b) = join(
        rt,
        || -> Pass
            requires { IsOf memory.now left × (cells left next ≡ fresh) }
            ensures { IsOf memory.entry.now result × ((view result).branch ≡ (view left).branch) × (cells result next ≡ byte two) }
        { put_by(memory, left, next, two) },
        || -> (Pass, u8)
            requires { IsOf memory.now right × (cells right at ≡ byte one) }
            ensures { IsOf memory.entry.now result.0 × (view result.0 ≡ view right) }
        { get_by(memory, right, at, one) },
    );
    let mut whole = a;
    let (rest, read) = b;
    whole.join(&shared, rest);
    let first = whole.get(&shared, at);
    let second = whole.get(&shared, next);
    Some((read, first, second, close(shared, whole)))
}

// A value that may go to another thread.
fn sends<T: Send>(_: &T) {}

// Whether two threads read each other's bytes, of which one is this.
fn reads_across<R: Threads + Sync>(rt: &R, alloc: Global, byte: u8) -> Result<bool, AllocError> {
    let (shared, pass) = arena(alloc, 2)?;
    sends(&pass);
    Ok(exchange(rt, shared, pass, byte, 255 - byte) == Some((byte, 255 - byte, 7, 2)))
}

#[test]
fn two_threads_read_each_others_bytes(rt: HostRuntime) -> Result<(), Fail> {
    for round in 0..1_000u32 {
        assert!(rt; reads_across(&rt, rt.alloc(), (round % 256) as u8)?);
    }
    Ok(())
}

// Whether two threads share a word of which one byte is this.
fn shares_a_word<R: Threads + Sync>(rt: &R, alloc: Global, byte: u8) -> Result<bool, AllocError> {
    let (shared, pass) = arena(alloc, 1)?;
    Ok(share_a_word(rt, shared, pass, byte, 255 - byte) == Some((byte, byte, 255 - byte, 1)))
}

#[test]
fn two_threads_share_a_word(rt: HostRuntime) -> Result<(), Fail> {
    for round in 0..1_000u32 {
        assert!(rt; shares_a_word(&rt, rt.alloc(), (round % 256) as u8)?);
    }
    Ok(())
}

// Draws a chunk and puts a run in its first word, from a place on: its first byte, its last one, and the run that is got.
fn put_run_and_get<M: Mem>(mem: &mut M, place: u64, bytes: &[u8]) -> Option<(u8, u8, u64)>
    requires some { 0 < length bytes.now }
    requires one_word { place + length bytes.now ≤ 8 }
{
    match mem.draw() {
        None => None,
        Some(chunk) => {
            let at = 4096 * chunk as u64 + place;
            mem.put_run(at, bytes);
            let first = mem.get(at);
            let last = mem.get(at + bytes.len() as u64 - 1);
            let run = mem.get_run(at, bytes.len() as u8);
            Some((first, last, run))
        }
    }
}

// Puts a run at each place of a word, up to the word's end, each in a chunk of its own: whether each is the bytes, the lowest first.
fn runs_are_bytes<M: Mem>(mem: &mut M, bytes: &[u8], number: u64) -> bool
    requires { length bytes.now ≡ 8 }
{
    'places: for place in 0..8u64 {
        let run = &bytes[place as usize..];
        let expected = Some((run[0], bytes[7], number >> (8 * place)));
        if put_run_and_get(mem, place, run) != expected {
            return false;
        }
    }
    true
}

// The same in the memory of one owner, of a pass, and of a pass that is alone.
fn runs_in_plain(alloc: Global, bytes: &[u8; 8], number: u64) -> Result<bool, AllocError> {
    let mut mem = PlainMem::make(alloc, 8)?;
    Ok(runs_are_bytes(&mut mem, bytes, number))
}

fn runs_in_an_arena(alloc: Global, bytes: &[u8; 8], number: u64) -> Result<bool, AllocError> {
    let (shared, pass) = arena(alloc, 8)?;
    let mut mem = ArenaMem::make(&shared, pass);
    Ok(runs_are_bytes(&mut mem, bytes, number))
}

fn runs_in_sole(alloc: Global, bytes: &[u8; 8], number: u64) -> Result<bool, AllocError> {
    let mut mem = SoleMem::make(alloc, 8)?;
    Ok(runs_are_bytes(&mut mem, bytes, number))
}

#[test]
fn runs_are_the_bytes_of_a_word(rt: HostRuntime) -> Result<(), Fail> {
    let bytes = [1, 2, 3, 4, 5, 6, 7, 8];
    let number = 0x0807_0605_0403_0201;
    assert!(rt; runs_in_plain(rt.alloc(), &bytes, number)?);
    assert!(rt; runs_in_an_arena(rt.alloc(), &bytes, number)?);
    assert!(rt; runs_in_sole(rt.alloc(), &bytes, number)?);
    Ok(())
}

// What one owner draws of two chunks, and how many are drawn in the end.
fn drawn_alone(alloc: Global) -> Result<([Option<u64>; 3], u32), AllocError> {
    let mut mem = SoleMem::make(alloc, 2)?;
    let first = write(&mut mem, 7);
    let second = write(&mut mem, 8);
    mem.owns_all();
    let third = write(&mut mem, 9);
    Ok(([first, second, third], mem.chunks()))
}

#[test]
fn one_owner_draws_and_puts(rt: HostRuntime) -> Result<(), Fail> {
    assert!(rt; drawn_alone(rt.alloc())? == ([Some(0), Some(4096), None], 2));
    Ok(())
}
