//! The text of the program.

ghost use Rattle.std.specs.Prelude.{◌≡◌, IfOk};
ghost use Rattle.gib_gen.specs.Made.{source_text};

use gib_base::{Memory, push_decimal};
use std::alloc::Global;

const FRONT: &str =
    "data Tree = Leaf Int | Node Tree Tree ; fun work ( t : Tree ) : Tree = case t of { Leaf n -> Leaf ( ( n * 3 ) + ";

const BACK: &str =
    " ) ; Node l r -> let par a = work l and b = work r in Node a b } ; main ( t : Tree ) : Tree = work t ;\n";

/// The text of the program with this literal.
pub(crate) fn text(alloc: Global, literal: u32) -> Result<Vec<u8>, Memory>
    ensures { IfOk result (λ text. text.items ≡ source_text literal) }
{
    let mut out = Vec::from_slice(alloc, FRONT.as_bytes())?;
    push_decimal(alloc, &mut out, u64::from(literal))?;
    out.extend_from_slice(BACK.as_bytes())?;
    Ok(out)
}
