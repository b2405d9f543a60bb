//! The law of lowering: a function whose contract is the law.

ghost use Rattle.gib_core.specs.{Tree.{CoreTree}, Low.{IsLowered}};
ghost use Rattle.gib_lower.specs.Lowering.{lower_program};

/// The code that is made of a core is its code, label by label.
#[tactic(auto, using(crate::proofs::Lowers::is_lowered))]
pub fn lowering_gives_its_code()
    ensures { (core : CoreTree) → IsLowered core (lower_program core) }
{}
