//! Bytes that go one behind another.

ghost use Rattle.std.specs.Prelude.{◌≡◌, ◌≤◌, ◌+◌, ◌-◌};

use gib_region::Stream;

/// Where the next byte goes, and what waits before it: the bytes that wait in a stream, and behind them those of the payload from
/// a place on up to another one. So heads that stand in memory as in the payload are put together, and not one by one.
#[derive(Drop)]
pub(crate) struct Run {
    pub(crate) stream: Stream,
    pub(crate) at: u64,
    pub(crate) from: usize,
    pub(crate) to: usize,
    ghost order: { from ≤ to },
    ghost behind: { at ≡ stream.at + (to - from) },
}
