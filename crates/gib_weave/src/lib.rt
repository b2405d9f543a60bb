//! Tasks over one memory, and what holds of each: whatever the memory answers, it gets only what is known, puts only its own fresh
//! bytes, pays for what it does, and ends with what the source means. A weave is such tasks with the events that happen to them.
#![tactic(auto)]

mod call_law;
mod event;
mod law;
mod open_tasks;
mod root_run;
mod runnable;
mod sides;
mod steps;
mod task;
mod tasks;
mod weave;
mod weave_law;

pub use call_law::{
    a_step_can_be_made, each_call_of_step_keeps, the_made_machine_is_the_roots, the_root_is_a_task,
    the_root_runs, without_levels_nothing_stands,
};
pub use event::Event;
pub use law::{
    a_core_with_ends_is_lowered_and_fits, an_answer_stands, bills_are_kept,
    bills_bound_what_is_drawn, each_step_keeps, each_step_keeps_over_a_memory,
    loading_leaves_the_balance, others_keep, owned_tails_are_places, sides_at_a_fork,
    the_example_is_lowered_and_fits, the_root_is_sound,
};
pub use open_tasks::OpenTasks;
pub use root_run::{RunFault, root_machine, run};
pub use runnable::Runnable;
pub use steps::run_for;
pub use task::WeaveFault;
pub use weave::{Nesting, Weave};
pub use weave_law::{
    a_sound_weave_can_go, a_start_is_sound, a_step_is_careful, all_events_keep,
    an_enabled_event_applies, an_ended_root_answers, an_event_is_picked,
    an_event_leads_to_one_weave, each_byte_is_put_once, each_event_keeps, events_keep_the_widths,
    full_is_tight, picks_are_enabled, the_journals_by_ends_are_legal,
    the_worked_journals_are_legal,
};
