//! Why a core has no text.

ghost use Rattle.std.specs.Prelude.{◌≡◌};

use gib_base::Memory;
use thiserror::Error;

/// Why the text of a core is not printed.
#[derive(Clone, Copy, Debug, PartialEq, Eq, Error)]
pub enum PrintFault {
    #[error("out of memory")]
    Memory,
    /// A type, a constructor or a function has a name that is none in LoCal text: that of a copy, as `List[Int]`, or a word of
    /// LoCal text, as `point`.
    #[error("no text")]
    NoText,
}

impl From<Memory> for PrintFault {
    ghost use Rattle.gib_local_print.specs.declared.print_fault.PrintFault.TheVariants.{Memory};

    ghost from_gives = { λ _ e. e ≡ Memory };

    fn from(_failed: Memory) -> PrintFault {
        PrintFault::Memory
    }
}
