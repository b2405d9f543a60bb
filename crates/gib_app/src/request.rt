//! What a job is done on.

use crate::compile::Compiled;
use gib_words::plan::Options;

/// What a job is done on: a program, options, the bytes of its second file, which are none where it has no such file, and those of its third.
#[derive(Clone, Copy)]
pub struct Request<'a> {
    pub compiled: &'a Compiled,
    pub options: Options,
    pub input: &'a [u8],
    pub journal: Option<&'a [u8]>,
}
