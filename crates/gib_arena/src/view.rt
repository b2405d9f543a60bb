//! What a pass knows, as plain data. No value of these types is made at run time.
use std::collections::LinkedList;

/// What a pass holds: the bytes that it put in chunks of its own, those that it learned from other passes, the chunks that
/// it owns, and the counter as it saw it last. Nothing is ever taken out of the lists.
pub struct Holding {
    pub own: LinkedList<(u64, u8)>,
    pub learned: LinkedList<(u64, u8)>,
    pub chunks: LinkedList<u64>,
    pub seen: u64,
}

/// Where a pass stands among the passes: its path (empty for the first one, and for one that was split off the path of the
/// other with the number of the split behind), how often it was split, and the paths that were split off, by it or by a pass
/// that it joined, and not joined yet.
pub struct Branch {
    pub live: bool,
    pub limit: u64,
    pub path: LinkedList<u64>,
    pub next: u64,
    pub out: LinkedList<LinkedList<u64>>,
}

/// What the rule sees of a pass.
pub struct View {
    pub holding: Holding,
    pub branch: Branch,
}
