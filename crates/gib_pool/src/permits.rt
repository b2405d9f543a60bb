//! How many workers run at a time.

ghost use Rattle.gib_frame.specs.{Answers.{Delivers}, Dues.{frame_due}};

use gib_arena::Pass;
use gib_frame::{Ending, Frame, wait_answer};
use std::sync::{Condvar, Mutex, Wait};

/// The permits of a run. A worker runs while it has one and gives it up where it waits, so that as many run at a time as there are permits.
#[derive(Drop)]
pub(crate) struct Permits {
    free: Mutex<u32>,
    freed: Condvar,
}

/// A permit that a worker has acquired. It can't be dropped, and to release it takes it: so it is released once.
pub(crate) struct Permit<'a> {
    of: &'a Permits,
}

impl Permits {
    /// So many permits, all of them free.
    pub(crate) fn new(count: u32) -> Permits {
        Permits {
            free: Mutex::new(count),
            freed: Condvar::new(),
        }
    }

    /// Acquires a permit, and sleeps until one is free.
    pub(crate) fn acquire<R: Wait>(&self, rt: &R) -> Permit<'_> {
        self.lose_one(rt);
        Permit { of: self }
    }

    /// One free permit fewer. It sleeps until there is one.
    fn lose_one<R: Wait>(&self, rt: &R) {
        let free = self.free.lock(rt);
        let mut free = self.freed.wait_while(rt, free, |free| *free == 0);
        *free -= 1;
    }

    /// One free permit more: wakes one worker that sleeps until there is one.
    fn gain_one<R: Wait>(&self, rt: &R) {
        let mut free = self.free.lock(rt);
        *free = free.saturating_add(1);
        self.freed.notify_one();
    }
}

impl Permit<'_> {
    /// Releases the permit, to whoever sleeps until one is free.
    pub(crate) fn release<R: Wait>(self, rt: &R) {
        let Permit { of } = self;
        of.gain_one(rt);
    }

    /// Waits for what comes to a frame. Meanwhile another worker may run with the permit.
    pub(crate) fn wait_answer<R: Wait>(&mut self, rt: &R, frame: &Frame) -> (Ending, Pass)
        ensures { Delivers (frame_due frame.now) result.0 result.1 }
    {
        self.of.gain_one(rt);
        let given = wait_answer(rt, frame);
        self.of.lose_one(rt);
        given
    }
}
