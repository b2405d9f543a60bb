//! Workers that run sides and steal them from one another: what each of them keeps, and how a fork begins and ends.
#![tactic(auto)]

mod active;
mod back;
mod drain;
mod forking;
mod forks;
mod going;
mod helping;
mod hooks;
mod joining;
mod law;
mod leaving;
mod offer;
mod permits;
mod run;
mod running;
mod shared;
mod sleep;
mod stealer;
mod threads;
mod worker;
mod working;
mod workspace;

pub use law::{
    a_side_begins, a_wider_pass_keeps, each_turn_keeps, passes_come_back, tasks_are_sound_together,
    there_is_room_for_a_frame,
};
pub use run::{Loaded, run_by};
pub use threads::Config;
