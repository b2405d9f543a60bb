//! What a program breaks.

use gib_base::{Memory, Span};
use std::alloc::AllocFailed;
use thiserror::Error;

/// The kinds of broken rules.
#[derive(Clone, Copy, Debug, PartialEq, Eq, Error)]
pub enum Kind {
    /// A name that is not declared, or not in scope.
    #[error("unknown name")]
    Unknown,
    /// A name that is declared twice, or bound where it is in scope already.
    #[error("name declared or bound twice")]
    Twice,
    /// An expression of another type than is due there.
    #[error("another type is due")]
    Shape,
    /// Arms that are not one for each constructor of the type.
    #[error("not one arm for each constructor")]
    Arms,
    /// Too few or too many arguments, or variables of an arm.
    #[error("too few or too many arguments or variables")]
    Count,
    /// A constructor, field, function, variable or expression past its limit.
    #[error("past a limit")]
    Limit,
}

/// A broken rule, and where the thing that breaks it stands.
#[derive(Clone, Copy, Debug, PartialEq, Eq, Error)]
#[error("{kind} at byte {}", .span.start)]
pub struct Fault {
    pub kind: Kind,
    pub span: Span,
}

/// Why a program was not checked to its end, or is not typed.
#[derive(Clone, Copy, Debug, PartialEq, Eq, Drop, Error)]
pub enum TypeFault {
    #[error("out of memory")]
    Memory,
    /// The first broken rule.
    #[error("{0}")]
    Broken(Fault),
}

impl From<Memory> for TypeFault {
    ghost use Rattle.std.specs.Prelude.{◌≡◌};
    ghost use Rattle.gib_check.specs.declared.fault.TypeFault.TheVariants as fault;

    ghost from_gives = { λ _ e. e ≡ fault.Memory };

    fn from(_error: Memory) -> TypeFault {
        TypeFault::Memory
    }
}

impl<T: Drop> From<AllocFailed<T>> for TypeFault {
    ghost use Rattle.std.specs.Prelude.{◌≡◌};
    ghost use Rattle.gib_check.specs.declared.fault.TypeFault.TheVariants as fault;

    ghost from_gives = { λ _ e. e ≡ fault.Memory };

    fn from(_failed: AllocFailed<T>) -> TypeFault {
        TypeFault::Memory
    }
}
