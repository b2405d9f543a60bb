//! Items in the order in which they come, each with an entry at a number.

ghost use Rattle.std.specs.Prelude.{◌≡◌, ◌==◌, ◌++◌, ◌∷◌, [], ℕ, Some, if◌then◌else◌, OnOk, OnErr};
ghost use Rattle.gib_base.specs.Entries.{entry_at};

use gib_base::{ByNumber, Memory};

/// One more item, and what stands at a number from then on.
///
/// # Errors
///
/// Want of memory; all stays as it was.
pub fn push_entry<A: Copy + Drop, T: Copy + Drop>(
    items: &mut Vec<A>,
    item: A,
    entries: &mut ByNumber<T>,
    number: u32,
    entry: T,
) -> Result<(), Memory>
    ensures items { OnOk result (items.new.items ≡ items.old.items ++ item ∷ []) }
    ensures entries { OnOk result ((other : ℕ) → entry_at entries.new other ≡ (if number == other then Some entry else entry_at entries.old other)) }
    ensures items_stay { OnErr result (items.new.items ≡ items.old.items) }
    ensures entries_stay { OnErr result (entries.new ≡ entries.old) }
{
    items.push(item)?;
    match entries.set(number, Some(entry)) {
        Ok(()) => Ok(()),
        Err(fault) => {
            let _ = items.pop();
            Err(fault)
        }
    }
}
