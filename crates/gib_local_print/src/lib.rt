//! The printer of LoCal text: a core as the text that makes it.
#![tactic(auto)]

pub mod law;
mod located_text;
mod print;
mod print_fault;
mod put;
mod put_binding;
mod put_declarations;
mod spelled;
mod target;

pub use print::print_located;
pub use print_fault::PrintFault;
