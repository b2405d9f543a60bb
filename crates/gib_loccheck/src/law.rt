//! Laws of build rules: functions whose contracts are the laws.

ghost use Rattle.std.specs.Prelude.{◌≡◌, ℕ, Some};
ghost use Rattle.gib_core.specs.{Tree.{CoreTree}, Met.{Setting, Line}, Rules.{Before, least, rules}};
ghost use Rattle.gib_loccheck.specs.RuleOrder.{NoneBelow};

/// The rule that is found broken at a term is the smallest that is broken there.
#[tactic(auto, using(crate::proofs::Smallest::least_is_smallest))]
pub fn first_rule_is_smallest()
    ensures { (core : CoreTree) (b : Before) (s : Setting) (line : Line) (rule : ℕ) → least (rules core b s line) ≡ Some rule → NoneBelow rule (rules core b s line) }
{}
