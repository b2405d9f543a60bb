//! A frame carries one answer from the thread that runs a right side to the one that runs the left side, with the pass of the
//! task that gave it.
#![tactic(auto)]

mod due;
mod ends;
mod frame;
mod law;
mod sends;

pub use due::{Due, Ending};
pub use ends::{Frame, Reply, Task};
pub use frame::{make, put_answer, wait_answer};
pub use law::what_is_paid_is_bound;
pub use sends::{frame_sends, task_sends};
