//! Laws that join the first broken rule to the definition of typing.

ghost use Rattle.std.specs.Prelude.{◌≡◌, ◌+◌, ◌≤◌, ℕ, List, None, Ok};
ghost use Rattle.gib_types.specs.Form.{Form, Meant};
ghost use Rattle.gib_syntax.specs.{Results.{Results}, GenericTree.{GenericExpression, GenericGlobals, GenericProgramTree}};
ghost use Rattle.gib_syntax.specs.GenericTyping.{FormScope, HasForm, generic_expressions, generic_bindings, IsTypedGeneric};
ghost use Rattle.gib_check.specs.{declared.counts.Counts.{Counts}, declared.standing.Standing.{Standing}, Faults.{MayGive, infer}};
ghost use Rattle.gib_check.specs.FirstFault.{IsCountedOn, first_fault};

/// An expression gives what is inferred, and it was counted whole.
pub fn inferred_types_are_had()
    ensures has { (g : GenericGlobals) (vars : List ℕ) (meant : Meant) (scope : FormScope) (n m : Counts) (e : GenericExpression) (r : Results Form) (st : Standing) → infer g vars meant st scope n e ≡ Ok (r, m) → HasForm g vars meant scope e r }
    ensures counts { (g : GenericGlobals) (vars : List ℕ) (meant : Meant) (scope : FormScope) (n m : Counts) (e : GenericExpression) (r : Results Form) (st : Standing) → infer g vars meant st scope n e ≡ Ok (r, m) → IsCountedOn n e m }
{}

/// What an expression gives is inferred where it may stand, within the limits.
pub fn had_types_are_inferred()
    ensures { (g : GenericGlobals) (vars : List ℕ) (meant : Meant) (scope : FormScope) (n : Counts) (e : GenericExpression) (r : Results Form) (st : Standing) → HasForm g vars meant scope e r → MayGive st r → n.expressions + generic_expressions e ≤ 2000 → n.variables + generic_bindings e ≤ 200 → (m : Counts) × (infer g vars meant st scope n e ≡ Ok (r, m)) }
{}

/// A program breaks no rule exactly where it is typed.
pub fn faults_are_exact()
    ensures typed { (p : GenericProgramTree) → first_fault p ≡ None → IsTypedGeneric p }
    ensures none { (p : GenericProgramTree) → IsTypedGeneric p → first_fault p ≡ None }
{}
