//! What a weave is started with.

ghost use Rattle.std.specs.Prelude.{◌≡◌, true, false, MatchOption};
ghost use Rattle.gib_locked.specs.Limits.{are_settings};

use gib_types::FieldAccess;

/// What a weave is started with, beside its program and input: how many calls may be nested (1 to 1,000,000), how many chunks there are
/// (16 to 65,536), how many forks may be nested (0 to 64), and how fields are reached.
#[derive(Clone, Copy, PartialEq, Eq)]
pub struct Settings {
    pub depth: u32,
    pub chunks: u32,
    pub fork: u32,
    pub access: FieldAccess,
    pub ghost within: { are_settings depth chunks fork ≡ true },
}

/// Whether so many calls may be nested, so many chunks are there, and so many forks may be nested.
pub(crate) fn are_settings(depth: u64, chunks: u64, fork: u64) -> bool
    ensures { result ≡ are_settings depth chunks fork }
{
    1 <= depth && depth <= 1_000_000 && 16 <= chunks && chunks <= 65_536 && fork <= 64
}

impl Settings {
    /// These settings; none where a number is past its limits.
    pub fn make(depth: u32, chunks: u32, fork: u32, access: FieldAccess) -> Option<Settings>
        ensures { MatchOption result (are_settings depth chunks fork ≡ false)
            (λ s. (s.depth ≡ depth) × (s.chunks ≡ chunks) × (s.fork ≡ fork) × (s.access ≡ access)) }
    {
        if !are_settings(depth as u64, chunks as u64, fork as u64) {
            return None;
        }
        Some(Settings {
            depth,
            chunks,
            fork,
            access,
        })
    }
}
