//! The declared types of a program, and the values of these types.
#![tactic(auto)]

mod access;
mod copy;
mod fields;
mod law;
mod layouts;
mod operator;
mod reason;
mod table;
pub mod types;

pub use access::FieldAccess;
pub use fields::{first_type, further_types, items_at};
pub use law::layouts_are_of_the_set;
pub use layouts::{Layout, Layouts};
pub use operator::Operator;
pub use reason::Reason;
pub use table::{ConId, Constructor, Ty, TyId, TypeTable};
