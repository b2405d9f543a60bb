//! Why a text's tokens could not be read, and where.

ghost use Rattle.std.specs.Prelude.{◌≡◌};
ghost use Rattle.gib_reads.specs.Faults.{place_in, fault_of};

use crate::phrases::span_at;
use crate::stop::Stop;
use gib_base::Span;
use thiserror::Error;

/// Why tokens could not be parsed. A place counts bytes of the text from 0.
#[derive(Clone, Copy, Debug, PartialEq, Eq, Error)]
pub enum ParseFault {
    #[error("out of memory")]
    Memory,
    /// The token at this place: nothing that is read so begins with the tokens up to and including it. The text's length where tokens
    /// are missing.
    #[error("token not expected at byte {0}")]
    At(u32),
    /// What begins at this place stands on a level past the last.
    #[error("expression nested too deep at byte {0}")]
    Nested(u32),
}

/// The place of the token from which so many are left; the text's length with none left.
fn place(spans: &[Span], len: u32, left: usize) -> u32
    ensures { result ≡ place_in spans.now len left }
{
    if left == 0 {
        len
    } else {
        span_at(spans, left).start
    }
}

/// The fault of a stop.
pub fn fault(stop: Stop, spans: &[Span], len: u32) -> ParseFault
    ensures { result ≡ fault_of spans.now len stop }
{
    match stop {
        Stop::Memory => ParseFault::Memory,
        Stop::At(left) => ParseFault::At(place(spans, len, left)),
        Stop::Nested(left) => ParseFault::Nested(place(spans, len, left)),
    }
}
