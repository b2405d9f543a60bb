//! What a worker has of its run beside its task.

use crate::permits::Permits;
use crate::sleep::Sleep;
use gib_edge::outside::{Gate, Point};
use std::alloc::Global;

/// What a worker has of its run beside its task: where it takes memory for what it forks, where workers sleep, their permits, and the gate,
/// with the number of the worker.
#[derive(Drop)]
pub(crate) struct Hooks<'a, G: Gate> {
    pub(crate) alloc: Global,
    pub(crate) sleep: &'a Sleep,
    pub(crate) permits: &'a Permits,
    pub(crate) gate: &'a G,
    pub(crate) number: u32,
}

impl<'a, G: Gate> Hooks<'a, G> {
    /// A fork was made, and its left side was not begun.
    pub(crate) fn forked(&self) {
        self.sleep.notify();
        self.gate.at(self.number, Point::Forked);
    }

    /// A fork was stolen, and not begun.
    pub(crate) fn stolen(&self) {
        self.gate.at(self.number, Point::Stolen);
    }

    /// How a stolen fork ended was told to its frame.
    pub(crate) fn answered(&self) {
        self.gate.at(self.number, Point::Answered);
    }
}
