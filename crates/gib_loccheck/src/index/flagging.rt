//! Constructors that are found by their numbers in constant time.

ghost use Rattle.std.specs.Prelude.{◌≡◌, ◌==◌, ◌||◌, ℕ, IfOk, OnOk};
ghost use Rattle.gib_base.specs.Entries.{entry_at};
ghost use Rattle.gib_loccheck.specs.{Found.{is_found}, Indexing.{AreFlagged}};

use gib_base::{ByNumber, Memory};
use gib_types::ConId;
use std::alloc::Global;

/// Flags a number.
fn put_flag(flags: &mut ByNumber<bool>, number: u32) -> Result<(), Memory>
    ensures { OnOk result ((other : ℕ) → is_found (entry_at flags.new other) ≡ (number == other || is_found (entry_at flags.old other))) }
{
    flags.set(number, Some(true))?;
    Ok(())
}

/// The flags of constructors.
pub fn list_flags(alloc: Global, constructors: &[ConId]) -> Result<ByNumber<bool>, Memory>
    ensures { IfOk result (λ flags. AreFlagged constructors.now flags) }
{
    let mut flags = ByNumber::new(alloc);
    let mut left = constructors;
    'constructors: while let [constructor, after @ ..] = left {
        put_flag(&mut flags, constructor.0)?;
        left = after;
    }
    Ok(flags)
}
