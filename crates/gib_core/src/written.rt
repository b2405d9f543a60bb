//! Pieces of the core's text that are put down from the last one to the first.

ghost use Rattle.std.specs.Prelude.{◌≡◌, ◌∷◌, OnOk};

use crate::piece::{Keyword, Piece};
use gib_base::{Memory, Reversed};

/// Pieces, the last one put first.
pub(crate) type Written = Reversed<Piece>;

/// The start of a line, before the others.
pub(crate) fn put_line(level: u64, keyword: Keyword, out: &mut Written) -> Result<(), Memory>
    ensures { OnOk result (out.new ≡ Piece.Line level keyword ∷ out.old) }
{
    out.put(Piece::Line(level, keyword))
}
