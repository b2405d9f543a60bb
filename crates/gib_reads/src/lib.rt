//! Reading tokens: readers of signs and names, why reading stops, and the laws of readers.
#![tactic(auto)]

pub mod fault;
pub mod phrases;
pub mod stop;

pub use fault::ParseFault;
pub use stop::Stop;
