//! Which types may cross threads: these functions compile only where they may.

use crate::ends::{Frame, Task};

fn sends<T: Send>(_value: &T) {}

/// A frame may be held by another thread than the one that made it.
pub fn frame_sends(frame: &Frame) {
    sends(frame);
}

/// A task may be run by another thread than the one that made it.
pub fn task_sends(task: &Task<'_>) {
    sends(task);
}
