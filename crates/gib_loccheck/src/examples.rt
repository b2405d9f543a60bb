//! Examples of build rules, beside those of `gib_core::rule_examples`: cores that break one half of a rule alone. Main's terms
//! count from 1.

ghost use Rattle.std.specs.Prelude.{◌≡◌, ◌∷◌, [], true, Some};
ghost use Rattle.gib_types.specs.declared.table.Ty.TheVariants as ty;
ghost use Rattle.gib_core.specs.declared.atom.Atom.TheVariants as a;
ghost use Rattle.gib_core.specs.declared.atom.Kind.TheVariants as kind;
ghost use Rattle.gib_core.specs.{Tree.{Then, Write, Give, CaseTerm, Past, NoBranch, BranchThen, var}, Rules.{first_broken}};
ghost use Rattle.gib_core.specs.SampleCores.{tree, leaf, node, v, sample, zero_term, points};

/// Halves of the rules on `write`, on `case` and on types.
pub fn halves()
    // A truth value is no packed field of a `write`.
    ensures field { first_broken (sample tree tree (Then (Past (v 1) node) (Then (points kind.Here 2 0) (Then (points kind.Here 3 0) (Write (v 1) node [] (var 2 ∷ a.Truth true ∷ [])))))) ≡ Some (5, 6) }
    // A `case` is on no variable that nothing before binds.
    ensures subject { first_broken (sample tree ty.Whole (CaseTerm (var 1) NoBranch)) ≡ Some (7, 1) }
    // Arms in another order have other constructors, also where each has as many variables as are due there.
    ensures order { first_broken (sample tree ty.Whole (CaseTerm (var 0) (BranchThen node (v 1 ∷ []) zero_term (BranchThen leaf (v 2 ∷ v 3 ∷ []) zero_term NoBranch)))) ≡ Some (7, 1) }
    // What is of the type that is due is still not given at a place.
    ensures given { first_broken (sample tree tree (Give (var 0))) ≡ Some (9, 1) }
{}
