//! Scripts of calls and answers: what a program may ask of its shelf and its sink, and in which order.
#![tactic(auto)]

pub mod calls;
