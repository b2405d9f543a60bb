//! Types as they are written: runs of words.

use crate::tree::Ident;
use gib_base::Span;

/// One word of a written type. Behind the name of a declared type stand its arguments, each a run of words.
#[derive(Clone, Copy, PartialEq, Eq)]
pub enum Word {
    Whole(Span),
    Truth(Span),
    Variable(Ident),
    /// A declared type: the span of its first token, its name, and how many arguments it has.
    Data(Span, Ident, u32),
}

/// A run of words in a program's vector of words: one type, or several behind each other.
#[derive(Clone, Copy, PartialEq, Eq)]
pub struct Run {
    pub start: u32,
    pub end: u32,
}

/// What a function gives: a run of one type, or one for each of several parts.
#[derive(Drop)]
pub enum ResultRuns {
    One(Run),
    Several(Vec<Run>),
}
