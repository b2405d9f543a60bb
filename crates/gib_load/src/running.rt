//! Bytes of a payload that are put one behind another.

ghost use Rattle.std.specs.Prelude.{◌≡◌, ◌<◌, ◌≤◌, ◌+◌, ◌*◌, ◌-◌, ◌^◌, ℕ, List, length, take, drop, IfSome};
ghost use Rattle.gib_mem.specs.Memory.{Memory, Owned};
ghost use Rattle.gib_region.specs.Stream.{streamed, MayWait};
ghost use Rattle.gib_load.specs.{Gaps.{noted}, Runs.{carried, with_head, Carries}};

use crate::run::Run;
use gib_mem::Mem;
use gib_region::{Stream, put_number};

/// Goes past gaps of eight bytes each, in which nothing is put.
fn skip<M: Mem>(stream: &mut Stream, mem: &mut M, at: u64, count: u8)
    requires at { stream.old.at ≡ at }
    requires may { MayWait (M.view mem.old).cells stream.old }
    requires small { at + 2048 < 2 ^ 64 }
    ensures at { stream.new.at ≡ at + 8 * count }
    ensures same { streamed (M.view mem.new) stream.new ≡ streamed (M.view mem.old) stream.old }
    ensures may { MayWait (M.view mem.new).cells stream.new }
{
    if count == 0 {
        return;
    }
    stream.finish(mem);
    *stream = Stream::begin(at + 8 * count as u64);
}

/// Puts a head with gaps at a place, but for these. The item is its tag and its scalars.
fn put_apart<M: Mem>(stream: &mut Stream, mem: &mut M, item: &[u8], at: u64, gaps: u8)
    requires tag { 0 < length item.now }
    requires at { stream.old.at ≡ at }
    requires may { MayWait (M.view mem.old).cells stream.old }
    requires small { at + 4096 < 2 ^ 64 }
    requires owned { Owned (streamed (M.view mem.old) stream.old).cells at (length item.now + 8 * gaps) }
    ensures at { stream.new.at ≡ at + (length item.now + 8 * gaps) }
    ensures put { streamed (M.view mem.new) stream.new ≡ with_head (streamed (M.view mem.old) stream.old) at gaps item.now }
    ensures may { MayWait (M.view mem.new).cells stream.new }
{
    stream.put(mem, 1, item[0] as u64);
    skip(stream, mem, at + 1, gaps);
    stream.put_bytes(mem, &item[1..]);
}

impl Run {
    /// Nothing waits, and the payload's byte at a place goes next, to an address.
    pub(crate) fn begin(at: u64, place: usize) -> Run
        ensures at { result.at ≡ at }
        ensures to { result.to ≡ place }
        ensures none { (m : Memory) (payload : List ℕ) → carried m payload result ≡ m }
        ensures carries { (m : Memory) (payload : List ℕ) → place ≤ length payload → Carries m payload result }
    {
        Run {
            stream: Stream::begin(at),
            at,
            from: place,
            to: place,
        }
    }

    /// Goes on at another address, where nothing waits.
    pub(crate) fn restart(&mut self, at: u64)
        ensures at { self.new.at ≡ at }
        ensures to { self.new.to ≡ self.old.to }
        ensures none { (m : Memory) (payload : List ℕ) → carried m payload self.new ≡ m }
        ensures carries { (m : Memory) (payload : List ℕ) → self.old.to ≤ length payload → Carries m payload self.new }
    {
        *self = Run::begin(at, self.to);
    }

    /// The stream takes all bytes of the payload that wait.
    fn take_all<M: Mem>(&mut self, mem: &mut M, payload: &[u8])
        requires { Carries (M.view mem.old) payload.now self.old }
        ensures at { self.new.at ≡ self.old.at }
        ensures stream { self.new.stream.at ≡ self.old.at }
        ensures from { self.new.from ≡ self.old.to }
        ensures to { self.new.to ≡ self.old.to }
        ensures put { streamed (M.view mem.new) self.new.stream ≡ carried (M.view mem.old) payload.now self.old }
        ensures may { MayWait (M.view mem.new).cells self.new.stream }
    {
        if self.from == self.to {
            return;
        }
        self.stream.put_bytes(mem, &payload[self.from..self.to]);
        self.from = self.to;
    }

    /// Puts all that waits. Nothing can be put then before the run goes on at another address.
    pub(crate) fn finish<M: Mem>(&mut self, mem: &mut M, payload: &[u8])
        requires { Carries (M.view mem.old) payload.now self.old }
        ensures at { self.new.at ≡ self.old.at }
        ensures to { self.new.to ≡ self.old.to }
        ensures put { M.view mem.new ≡ carried (M.view mem.old) payload.now self.old }
    {
        self.take_all(mem, payload);
        self.stream.finish(mem);
    }

    /// Notes in a gap where a value starts.
    pub(crate) fn note<M: Mem>(&mut self, mem: &mut M, payload: &[u8], gap: Option<u64>, start: u64)
        requires carries { Carries (M.view mem.old) payload.now self.old }
        requires gap { IfSome gap (λ gap. Owned (carried (M.view mem.old) payload.now self.old).cells gap 8) }
        ensures at { self.new.at ≡ self.old.at }
        ensures to { self.new.to ≡ self.old.to }
        ensures noted { carried (M.view mem.new) payload.now self.new ≡ noted (carried (M.view mem.old) payload.now self.old) gap start }
        ensures carries { Carries (M.view mem.new) payload.now self.new }
    {
        match gap {
            Some(gap) => {
                self.finish(mem, payload);
                put_number(mem, gap, start);
                self.restart(self.at);
            }
            None => {}
        }
    }

    /// The head of so many bytes that stands next in the payload goes next, but for its gaps.
    pub(crate) fn put_head<M: Mem>(&mut self, mem: &mut M, payload: &[u8], bytes: usize, gaps: u8)
        requires some { 0 < bytes }
        requires within { self.old.to + bytes ≤ length payload.now }
        requires carries { Carries (M.view mem.old) payload.now self.old }
        requires small { self.old.at + bytes + 4096 < 2 ^ 64 }
        requires owned { Owned (carried (M.view mem.old) payload.now self.old).cells self.old.at (bytes + 8 * gaps) }
        ensures at { self.new.at ≡ self.old.at + (bytes + 8 * gaps) }
        ensures to { self.new.to ≡ self.old.to + bytes }
        ensures put { carried (M.view mem.new) payload.now self.new
            ≡ with_head (carried (M.view mem.old) payload.now self.old) self.old.at gaps (take bytes (drop self.old.to payload.now)) }
        ensures carries { Carries (M.view mem.new) payload.now self.new }
    {
        if gaps == 0 {
            self.at += bytes as u64;
            self.to += bytes;
            return;
        }
        self.take_all(mem, payload);
        let item = &payload[self.to..self.to + bytes];
        put_apart(&mut self.stream, mem, item, self.at, gaps);
        self.at += bytes as u64 + 8 * gaps as u64;
        self.to += bytes;
        self.from = self.to;
    }
}
