//! What workers run on.

/// What workers run on: threads, and the gate at which they meet.
#[derive(Drop)]
pub struct Runtime<'a, R, G> {
    pub threads: &'a R,
    pub gate: &'a G,
}
