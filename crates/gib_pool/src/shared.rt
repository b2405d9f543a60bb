//! What the workers of a run share.

use crate::permits::Permits;
use crate::sleep::Sleep;
use gib_arena::Arena;
use gib_edge::outside::Gate;
use gib_weave::Runnable;

/// What all workers of a run share: the arena of their passes, the code, where they sleep, the permits with
/// which they run, and the gate.
#[derive(Drop)]
pub(crate) struct Shared<'a, G: Gate> {
    pub(crate) arena: &'a Arena,
    pub(crate) lowered: &'a Runnable<'a>,
    pub(crate) sleep: &'a Sleep,
    pub(crate) permits: &'a Permits,
    pub(crate) gate: &'a G,
}
