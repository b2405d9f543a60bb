//! Programs that fork, their input, a gate at which two workers meet, and one that counts how many are at work.

use gib_edge::outside::{Gate, Point};
use std::sync::atomic::{AtomicBool, AtomicU32, Ordering};
use std::thread::{sleep, yield_now};
use std::time::{Clock, Duration};

/// (Node (Leaf 1) (Leaf 2))
pub const TWO_LEAVES: &[u8] = &[1, 0, 1, 0, 0, 0, 0, 0, 0, 0, 0, 2, 0, 0, 0, 0, 0, 0, 0];

pub const ADD_ONE: &str =
    "data Tree = Leaf Int | Node Tree Tree ; fun add1 (t : Tree) : Tree = case t of { Leaf n -> Leaf (n + 1) ; Node l r -> let par a = add1 l and b = add1 r in Node a b } ; main (t : Tree) : Tree = add1 t ;";

/// A program whose sides give a tree and a number each, which the branch behind them puts together.
pub const BOTH: &str =
    "data Tree = Leaf Int | Node Tree Tree ; fun both (t : Tree) : (Tree, Int) = case t of { Leaf n -> (Leaf (n + 1), n) ; Node l r -> let par (a, x) = both l and (b, y) = both r in (Node a b, (x + y)) } ; main (t : Tree) : Tree = let (u, s) = both t in Node u (Leaf s) ;";

/// The journal of a run of the first one in which a task takes its own right side back.
pub const TAKEN: &str =
    "gibj 3\ndepth 10000 chunks 1024 fork 4 skips 0\nstep 0 7\nfork 0\nstep 0 11\ntake 0\nstep 0 16\nfinish 0\nend\n";

/// Waits until so much has been counted, one look a turn, and for so many turns at most: whether it was.
fn waits_for(counted: &AtomicU32, count: u32) -> bool {
    for _ in 0..10_000_000u64 {
        if counted.load(Ordering::SeqCst) >= count {
            return true;
        }
        yield_now();
    }
    false
}

/// A gate where the first worker waits at a fork until another one answered, and who steals until the first one forked. Each other worker has
/// to steal, then to fork what it forks, and then to answer.
#[derive(Drop)]
pub struct Meeting {
    forked: AtomicU32,
    answered: AtomicU32,
    failed: AtomicBool,
    /// A bit for each worker that is at a side which it stole.
    at_sides: AtomicU32,
}

impl Meeting {
    pub fn new() -> Meeting {
        Meeting {
            forked: AtomicU32::new(0),
            answered: AtomicU32::new(0),
            failed: AtomicBool::new(false),
            at_sides: AtomicU32::new(0),
        }
    }

    /// Whether both came to each point, in turn, each side that was stolen was answered, and none waited in vain.
    pub fn is_held(&self) -> bool {
        self.forked.load(Ordering::SeqCst) > 0
            && self.answered.load(Ordering::SeqCst) > 0
            && self.at_sides.load(Ordering::SeqCst) == 0
            && !self.failed.load(Ordering::SeqCst)
    }

    /// Where this is not so it has failed.
    fn wants(&self, is_so: bool) {
        if !is_so {
            self.failed.store(true, Ordering::SeqCst);
        }
    }
}

impl Gate for Meeting {
    fn at(&self, worker: u32, point: Point) {
        let bit = 1u32.wrapping_shl(worker);
        match (worker, point) {
            (0, Point::Forked) => {
                self.forked.fetch_add(1, Ordering::SeqCst);
                self.wants(waits_for(&self.answered, 1));
            }
            (0, _) => {}
            (_, Point::Forked) => self.wants(self.at_sides.load(Ordering::SeqCst) & bit != 0),
            (_, Point::Stolen) => {
                self.wants(self.at_sides.fetch_or(bit, Ordering::SeqCst) & bit == 0);
                self.wants(waits_for(&self.forked, 1));
            }
            (_, Point::Answered) => {
                self.wants(self.at_sides.fetch_and(!bit, Ordering::SeqCst) & bit != 0);
                self.answered.fetch_add(1, Ordering::SeqCst);
            }
        }
    }
}

/// A gate where the first worker, at work all the while, waits at its third fork until three sides were answered. Who steals a side waits until
/// as many are at sides as should be, and a tenth of a second more, in which one too many comes. It counts how many are at once.
#[derive(Drop)]
pub struct Counting<'a, C: Clock> {
    clock: &'a C,
    /// How many should be at sides at once.
    wanted: u32,
    forked: AtomicU32,
    stolen: AtomicU32,
    answered: AtomicU32,
    at_sides: AtomicU32,
    most: AtomicU32,
}

impl<'a, C: Clock> Counting<'a, C> {
    pub fn new(clock: &'a C, wanted: u32) -> Counting<'a, C> {
        Counting {
            clock,
            wanted,
            forked: AtomicU32::new(0),
            stolen: AtomicU32::new(0),
            answered: AtomicU32::new(0),
            at_sides: AtomicU32::new(0),
            most: AtomicU32::new(0),
        }
    }

    /// Whether three sides were answered, and just as many workers as should be were at sides at once.
    pub fn is_held(&self) -> bool {
        self.answered.load(Ordering::SeqCst) == 3 && self.most.load(Ordering::SeqCst) == self.wanted
    }
}

impl<'a, C: Clock> Gate for Counting<'a, C> {
    fn at(&self, worker: u32, point: Point) {
        match (worker, point) {
            (0, Point::Forked) => {
                if self.forked.fetch_add(1, Ordering::SeqCst) == 2 {
                    waits_for(&self.answered, 3);
                }
            }
            (_, Point::Stolen) => {
                let others = self.at_sides.fetch_add(1, Ordering::SeqCst);
                self.most
                    .fetch_max(others.wrapping_add(1), Ordering::SeqCst);
                if self.stolen.fetch_add(1, Ordering::SeqCst) < self.wanted {
                    waits_for(&self.stolen, self.wanted);
                    sleep(self.clock, Duration::from_millis(100));
                }
            }
            (_, Point::Answered) => {
                self.at_sides.fetch_sub(1, Ordering::SeqCst);
                self.answered.fetch_add(1, Ordering::SeqCst);
            }
            (_, Point::Forked) => {}
        }
    }
}

/// A gate where the first worker goes on from a fork once another one stole its side, which waits for a tenth of a second then: so the first
/// one is at the join, and sleeps, before the side is begun.
#[derive(Drop)]
pub struct Sleeping<'a, C: Clock> {
    clock: &'a C,
    stolen: AtomicU32,
}

impl<'a, C: Clock> Sleeping<'a, C> {
    pub fn new(clock: &'a C) -> Sleeping<'a, C> {
        Sleeping {
            clock,
            stolen: AtomicU32::new(0),
        }
    }

    /// Whether a side was stolen.
    pub fn is_held(&self) -> bool {
        self.stolen.load(Ordering::SeqCst) > 0
    }
}

impl<'a, C: Clock> Gate for Sleeping<'a, C> {
    fn at(&self, worker: u32, point: Point) {
        match (worker, point) {
            (0, Point::Forked) => {
                waits_for(&self.stolen, 1);
            }
            (_, Point::Stolen) => {
                self.stolen.fetch_add(1, Ordering::SeqCst);
                sleep(self.clock, Duration::from_millis(100));
            }
            (_, Point::Forked) | (_, Point::Answered) => {}
        }
    }
}
