//! What value texts are read and written by.

use gib_base::Texts;
use gib_types::TypeTable;
use std::alloc::Global;

/// Where memory comes from, the types of the values, and the names of their constructors.
#[derive(Drop)]
pub(crate) struct Context<'a> {
    pub(crate) alloc: Global,
    pub(crate) types: &'a TypeTable,
    pub(crate) names: &'a Texts,
}
