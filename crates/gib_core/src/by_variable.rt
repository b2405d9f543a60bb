//! Numbers by variables, 0 where none was set.

ghost use Rattle.std.specs.Prelude.{◌≡◌, ◌==◌, ℕ, if◌then◌else◌, OnOk, OnErr};
ghost use Rattle.gib_core.specs.ByVariable.{number_at};

use crate::atom::Variable;
use gib_base::{ByNumber, Memory};

/// The number of a variable; 0 where none was set.
pub fn number_of(numbers: &ByNumber<u64>, x: Variable) -> u64
    ensures { result ≡ number_at numbers.now x.0 }
{
    match numbers.get(x.0) {
        Some(number) => number,
        None => 0,
    }
}

/// Writes down the number of a variable, in place of what stood there.
///
/// # Errors
///
/// Want of memory; all stays as it was.
pub fn set_number(numbers: &mut ByNumber<u64>, x: Variable, number: u64) -> Result<(), Memory>
    ensures set { OnOk result ((other : ℕ) → number_at numbers.new other ≡ (if x.0 == other then number else number_at numbers.old other)) }
    ensures same { OnErr result (numbers.new ≡ numbers.old) }
{
    numbers.set(x.0, Some(number))
}
