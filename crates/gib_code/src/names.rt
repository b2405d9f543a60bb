//! Names as text.

ghost use Rattle.std.specs.Prelude.{◌≡◌, ◌++◌, ◌∷◌, OnOk};
ghost use Rattle.gib_code.specs.ListingText.{name_text};

use gib_base::{Memory, Name, Texts};

/// Writes the long text of a name; a number that no name has stands for no text.
///
/// # Errors
///
/// Want of memory.
pub fn push_name(out: &mut Vec<u8>, names: &Texts, name: Name) -> Result<(), Memory>
    ensures { OnOk result (out.new.items ≡ out.old.items ++ name_text names.now.long name.0) }
{
    names.push_long(out, name)
}

/// Writes it behind a space.
///
/// # Errors
///
/// Want of memory.
pub fn push_name_behind_space(out: &mut Vec<u8>, names: &Texts, name: Name) -> Result<(), Memory>
    ensures { OnOk result (out.new.items ≡ out.old.items ++ 32 ∷ name_text names.now.long name.0) }
{
    out.push(b' ')?;
    push_name(out, names, name)
}

/// Writes bytes behind a space.
///
/// # Errors
///
/// Want of memory.
pub fn push_behind_space(out: &mut Vec<u8>, bytes: &[u8]) -> Result<(), Memory>
    ensures { OnOk result (out.new.items ≡ out.old.items ++ 32 ∷ bytes.now) }
{
    out.push(b' ')?;
    out.extend_from_slice(bytes)?;
    Ok(())
}
