//! What all readers of a text share.

use gib_base::Span;
use gib_base::token::Token;
use gib_reads::stop::Stop;
use std::alloc::Global;

/// Where memory comes from, and the spans of all tokens.
#[derive(Clone, Copy)]
pub struct Source<'s> {
    pub alloc: Global,
    pub spans: &'s [Span],
}

/// The same for terms, with how many levels are left for their parts.
#[derive(Clone, Copy)]
pub struct Depth<'s> {
    pub source: Source<'s>,
    pub level: u32,
}

/// What was read, and the tokens behind it.
pub type Read<'a, T> = Result<(T, &'a [Token]), Stop>;
