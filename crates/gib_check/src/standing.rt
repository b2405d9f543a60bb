//! Where expressions stand, by the tuples that may stand there.

ghost use Rattle.std.specs.Prelude.{◌≡◌, List};
ghost use Rattle.gib_types.specs.Form.{Meant};
ghost use Rattle.gib_syntax.specs.{Forms.{formed}, GenericParts.{results_in}, Results.{map_results}, declared.written.Word.{Word}};
ghost use Rattle.gib_check.specs.Answers.{Gives};
ghost use Rattle.gib_check.specs.Faults as rule;

use crate::fault::{Kind, TypeFault};
use crate::rules::broken;
use gib_base::Span;
use gib_syntax::{Ident, ResultRuns};

/// Which tuples may stand where an expression stands.
#[derive(Clone, Copy)]
pub enum Standing {
    /// None.
    NoTuple,
    /// Any, as there are several variables for the parts.
    AnyTuple,
    /// Those of so many parts, as a function gives.
    TupleOf(usize),
}

/// Where the right side for these variables stands.
pub fn standing_for(names: &[Ident]) -> Standing
    ensures { result ≡ rule.standing_for names.now }
{
    match names {
        [_] => Standing::NoTuple,
        _ => Standing::AnyTuple,
    }
}

/// Where the body of a function that gives this stands.
pub fn standing_of(gives: &ResultRuns) -> Standing
    ensures { (words : List Word) (meant : Meant) → result ≡ rule.standing_of (map_results (formed meant) (results_in words gives.now)) }
{
    match gives {
        ResultRuns::One(_) => Standing::NoTuple,
        ResultRuns::Several(runs) => Standing::TupleOf(runs.len()),
    }
}

/// A tuple of so many parts may stand there.
pub fn may_stand(standing: Standing, count: usize, at: Span) -> Result<(), TypeFault>
    ensures { Gives (λ _. tt {0}) result (rule.may_stand standing count at) }
{
    match standing {
        Standing::NoTuple => Err(broken(Kind::Shape, at)),
        Standing::AnyTuple => Ok(()),
        Standing::TupleOf(due) => {
            if count == due {
                Ok(())
            } else {
                Err(broken(Kind::Count, at))
            }
        }
    }
}
