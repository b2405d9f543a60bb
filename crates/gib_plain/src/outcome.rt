//! What a run gives.

use gib_types::Reason;
use gib_value::Value;

/// What a run gives: a value, or why there is none.
#[derive(Drop)]
pub enum Outcome {
    Gives(Value),
    NoValue(Reason),
}
