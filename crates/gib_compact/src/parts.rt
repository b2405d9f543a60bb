//! Buffers that are put together.

ghost use Rattle.std.specs.Prelude.{◌≡◌, ◌++◌, [], ℕ, List, IfOk, OnOk};
ghost use Rattle.gib_compact.specs.Gathered.{gathered};

use gib_base::Memory;
use std::alloc::Global;

/// A buffer in front of others, of which the last one comes first.
pub fn in_front(
    first: Result<Vec<u8>, Memory>,
    others: Result<Vec<Vec<u8>>, Memory>,
) -> Result<Vec<Vec<u8>>, Memory>
    ensures { (xs ys : List ℕ) → IfOk first (λ out. out.items ≡ xs) → IfOk others (λ parts. gathered parts.items ≡ ys) → IfOk result (λ parts. gathered parts.items ≡ xs ++ ys) }
{
    let part = first?;
    let mut parts = others?;
    parts.push(part)?;
    Ok(parts)
}

/// A buffer alone.
pub fn alone(alloc: Global, part: Result<Vec<u8>, Memory>) -> Result<Vec<Vec<u8>>, Memory>
    ensures { (xs : List ℕ) → IfOk part (λ out. out.items ≡ xs) → IfOk result (λ parts. gathered parts.items ≡ xs) }
{
    let part = part?;
    let mut parts = Vec::new(alloc);
    parts.push(part)?;
    Ok(parts)
}

/// Adds the bytes of buffers, of which the last one comes first, one after another. Each is given back once it was copied.
fn add_all(out: &mut Vec<u8>, parts: &mut Vec<Vec<u8>>) -> Result<(), Memory>
    ensures { OnOk result (out.new.items ≡ out.old.items ++ gathered parts.old.items) }
{
    'parts: while let Some(part) = parts.pop() {
        out.extend_from_slice(&part)?;
    }
    Ok(())
}

/// The bytes of buffers, of which the last one comes first, one after another.
pub fn gather(alloc: Global, parts: Vec<Vec<u8>>) -> Result<Vec<u8>, Memory>
    ensures { IfOk result (λ out. out.items ≡ gathered parts.items) }
{
    let mut parts = parts;
    let Some(mut out) = parts.pop() else {
        return Ok(Vec::new(alloc));
    };
    add_all(&mut out, &mut parts)?;
    Ok(out)
}
