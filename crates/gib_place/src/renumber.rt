//! Variables are numbered anew, in the order in which the text binds them.

mod copying;
mod numbers;

pub use copying::copy_term;
pub use numbers::numbers_of;
