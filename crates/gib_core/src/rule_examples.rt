//! Examples of build rules: cores that break one alone, each beside the core that breaks none.

ghost use Rattle.std.specs.Prelude.{◌≡◌, List, ◌∷◌, [], pos, true, false, None, Some};
ghost use Rattle.gib_types.specs.declared.table.Ty.TheVariants as ty;
ghost use Rattle.gib_types.specs.declared.operator.Operator.TheVariants as o;
ghost use Rattle.gib_types.specs.declared.table.Ty.{Ty};
ghost use Rattle.gib_core.specs.{declared.atom.Variable.{Variable}, declared.atom.Atom.{Atom}};
ghost use Rattle.gib_core.specs.Tree.{Term, Then, Write, Point, CallTerm, Give, CaseTerm, IfTerm, Tuple, NoPart, PartThen, Past, One, Both, Prim, Reach, On, Several, NoBranch, BranchThen, CoreTree, var};
ghost use Rattle.gib_core.specs.Rules.{first_broken};
ghost use Rattle.gib_core.specs.SampleCores.{tree, empty, triple, leaf, node, nil, three, v, same, sample, size, sized, zero_term, points, arms, sizes, told as core_told, pair, pair_types, pair_bound, split, parted};
ghost use Rattle.gib_core.specs.Ending.{ended};
ghost use Rattle.gib_core.specs.declared.atom.Atom.TheVariants as a;
ghost use Rattle.gib_core.specs.declared.atom.Access.TheVariants as by;
ghost use Rattle.gib_core.specs.declared.atom.Kind.TheVariants as kind;

/// Rules 1, 2, 3, 5 and 6: where values are put. Main's terms count from 1.
pub fn places()
    // A head is of a constructor of the type that is due, at an empty place.
    ensures head { let t : Term = Then (Past (v 1) nil) (Write (v 1) nil [] []) in
        (first_broken (sample tree empty t) ≡ None)
        × (first_broken (sample tree tree t) ≡ Some (1, 1))
        × (first_broken (sample tree empty (Then (Past (v 1) nil) (Then (Past (v 2) nil) (Write (v 2) nil [] [])))) ≡ Some (1, 2)) }
    // A `here` has an open head with room; a `region` is of a packed type.
    ensures room { (first_broken (sample tree tree (Then (points kind.Here 1 0) (Point (var 1)))) ≡ Some (2, 1))
        × (first_broken (sample tree tree (Then (Past (v 1) node) (Then (points kind.Here 2 0) (Then (points kind.Here 3 0) (Then (points kind.Here 4 0) (Write (v 1) node [] (var 2 ∷ var 3 ∷ []))))))) ≡ Some (2, 6))
        × (first_broken (sample tree ty.Whole (Then (points kind.Here 1 0) zero_term)) ≡ Some (2, 1))
        × (first_broken (sample tree tree (Then (points kind.Region 1 0) (Point (var 1)))) ≡ None)
        × (first_broken (sample tree tree (Then (One (On kind.Region (v 1) ty.Whole zero_term)) (Point (var 0)))) ≡ Some (3, 1)) }
    // A head is filled once all fields stand, by its own constructor and name; but for the first, no `case` stands
    // before on a field.
    ensures filled { let fields : Term → Term = λ t. Then (Past (v 1) node) (Then (points kind.Here 2 0) (Then (points kind.Here 3 0) t)) in
        let all : Term = Write (v 1) node [] (var 2 ∷ var 3 ∷ []) in
        (first_broken (sample tree tree (fields all)) ≡ None)
        × (first_broken (sample tree tree (Write (v 1) node [] (var 0 ∷ var 0 ∷ []))) ≡ Some (5, 1))
        × (first_broken (sample tree ty.Whole (Write (v 1) node [] (var 0 ∷ var 0 ∷ []))) ≡ Some (5, 1))
        × (first_broken (sample tree tree (Then (Past (v 1) node) (Then (points kind.Here 2 0) (Write (v 1) node [] (var 2 ∷ []))))) ≡ Some (5, 4))
        × (first_broken (sample tree tree (fields (Write (v 1) node [] (var 3 ∷ var 2 ∷ [])))) ≡ Some (5, 6))
        × (first_broken (sample tree tree (fields (Write (v 1) node [] (var 2 ∷ var 0 ∷ [])))) ≡ Some (5, 6))
        × (first_broken (sample tree tree (fields (Write (v 1) node [] (var 2 ∷ a.Whole (pos 3) ∷ [])))) ≡ Some (5, 6))
        × (first_broken (sample tree tree (fields (Write (v 1) node [] (var 2 ∷ var 3 ∷ var 0 ∷ [])))) ≡ Some (5, 6))
        × (first_broken (sample tree tree (fields (Write (v 1) node [] (var 2 ∷ [])))) ≡ Some (5, 6))
        × (first_broken (sample tree tree (fields (Write (v 1) three [] (var 2 ∷ var 3 ∷ [])))) ≡ Some (5, 6))
        × (first_broken (sample tree tree (Then (points kind.Region 4 0) (fields (Write (v 4) node [] (var 2 ∷ var 3 ∷ []))))) ≡ Some (5, 8))
        × (first_broken (sample tree tree (fields (Then (One (On kind.Scalar (v 4) ty.Whole (CaseTerm (var 2) (arms (v 5 ∷ []) zero_term (v 6 ∷ v 7 ∷ []) zero_term)))) all))) ≡ None)
        × (first_broken (sample tree tree (fields (Then (One (On kind.Scalar (v 4) ty.Whole (CaseTerm (var 3) (arms (v 5 ∷ []) zero_term (v 6 ∷ v 7 ∷ []) zero_term)))) all))) ≡ Some (5, 10)) }
    // To point, and to call for a packed value, is at an empty place, and not where a scalar is due.
    ensures ends { (first_broken (sample tree tree (CallTerm same (var 0 ∷ []))) ≡ None)
        × (first_broken (sample tree ty.Whole (CallTerm same (var 0 ∷ []))) ≡ Some (6, 1))
        × (first_broken (sample ty.Whole ty.Whole (Point (var 0))) ≡ Some (6, 1))
        × (first_broken (sample tree tree (Then (Past (v 1) node) (CallTerm same (var 0 ∷ [])))) ≡ Some (6, 2))
        × (first_broken (sample tree tree (Then (Past (v 1) node) (Point (var 0)))) ≡ Some (6, 2)) }
{}

/// Rules 4, 7 and 8: which variables may be used, and where they are bound.
pub fn scopes()
    // No side of a par uses the other one's variable.
    ensures sides { (first_broken (sample tree tree (Then (Both false (On kind.Region (v 1) tree (Point (var 0))) (On kind.Region (v 2) tree (Point (var 0)))) (Point (var 2)))) ≡ None)
        × (first_broken (sample tree tree (Then (Both false (On kind.Region (v 1) tree (Point (var 2))) (On kind.Region (v 2) tree (Point (var 0)))) (Point (var 2)))) ≡ Some (4, 3))
        × (first_broken (sample tree tree (Then (Both true (On kind.Region (v 1) tree (Point (var 0))) (On kind.Region (v 2) tree (Point (var 1)))) (Point (var 2)))) ≡ Some (4, 5)) }
    // So it is with each kind of line; the first one of the right side is the term 5.
    ensures others { let whole : Term → Term = λ t. Then (Both false (On kind.Scalar (v 1) ty.Whole zero_term) (On kind.Scalar (v 2) ty.Whole t)) (Give (var 2)) in
        let add : Atom → Atom → Term = λ y z. Then (Prim (v 3) o.Add y z) (Give (var 3)) in
        let made : Term → Term = λ t. Then (Both false (On kind.Region (v 1) tree (Point (var 0))) (On kind.Region (v 2) tree t)) (Point (var 2)) in
        (first_broken (sample ty.Whole ty.Whole (whole (add (var 0) (var 0)))) ≡ None)
        × (first_broken (sample ty.Whole ty.Whole (whole (add (var 1) (var 0)))) ≡ Some (4, 5))
        × (first_broken (sample ty.Whole ty.Whole (whole (add (var 0) (var 1)))) ≡ Some (4, 5))
        × (first_broken (sample ty.Whole ty.Whole (whole (Give (var 1)))) ≡ Some (4, 5))
        × (first_broken (sample ty.Whole ty.Whole (Then (Both false (On kind.Scalar (v 1) ty.Truth (Give (a.Truth true))) (On kind.Scalar (v 2) ty.Whole (IfTerm (var 1) zero_term zero_term))) (Give (var 2)))) ≡ Some (4, 5))
        × (first_broken (sample tree tree (made (CallTerm same (var 0 ∷ [])))) ≡ None)
        × (first_broken (sample tree tree (made (CallTerm same (var 1 ∷ [])))) ≡ Some (4, 5))
        × (first_broken (sample tree tree (made (CaseTerm (var 1) (arms (v 3 ∷ []) (Point (var 0)) (v 4 ∷ v 5 ∷ []) (Point (var 0)))))) ≡ Some (4, 5))
        × (first_broken (sample tree tree (made (Then (Reach (v 1) (by.Skip (v 0))) (Point (var 0))))) ≡ Some (4, 5))
        × (first_broken (sample tree tree (made (Then (Past (v 3) node) (Then (points kind.Here 4 0) (Then (points kind.Here 5 0) (Write (v 3) node [] (var 4 ∷ var 1 ∷ []))))))) ≡ Some (4, 10))
        × (first_broken (sample tree tree (Then (Both false (On kind.Scalar (v 1) ty.Whole zero_term) (On kind.Region (v 2) tree (Then (Past (v 3) leaf) (Write (v 3) leaf (var 1 ∷ []) [])))) (Point (var 2)))) ≡ Some (4, 6)) }
    // A `case` has one arm for each constructor, in their order, with a variable for each field.
    ensures arms { (first_broken (sample tree ty.Whole (CaseTerm (var 0) (arms (v 1 ∷ []) zero_term (v 2 ∷ v 3 ∷ []) zero_term))) ≡ None)
        × (first_broken (sample tree ty.Whole (CaseTerm (var 0) (arms (v 1 ∷ []) zero_term (v 2 ∷ []) zero_term))) ≡ Some (7, 1))
        × (first_broken (sample tree ty.Whole (CaseTerm (var 0) (arms (v 1 ∷ v 4 ∷ []) zero_term (v 2 ∷ v 3 ∷ []) zero_term))) ≡ Some (7, 1))
        × (first_broken (sample tree ty.Whole (CaseTerm (var 0) (BranchThen leaf (v 1 ∷ []) zero_term NoBranch))) ≡ Some (7, 1))
        × (first_broken (sample tree ty.Whole (CaseTerm (var 0) (BranchThen node (v 2 ∷ v 3 ∷ []) zero_term (BranchThen leaf (v 1 ∷ []) zero_term NoBranch)))) ≡ Some (7, 1))
        × (first_broken (sample tree ty.Whole (CaseTerm (var 0) (BranchThen leaf (v 1 ∷ []) zero_term (BranchThen node (v 2 ∷ v 3 ∷ []) zero_term (BranchThen nil [] zero_term NoBranch))))) ≡ Some (7, 1))
        × (first_broken (sample ty.Whole ty.Whole (CaseTerm (var 0) NoBranch)) ≡ Some (7, 1))
        × (first_broken (sample ty.Truth ty.Whole (CaseTerm (var 0) NoBranch)) ≡ Some (7, 1)) }
    // A field is reached once, from the field directly before it.
    ensures fields { let of_three : Term → Term = λ t. CaseTerm (var 0) (BranchThen three (v 1 ∷ v 2 ∷ v 3 ∷ []) t NoBranch) in
        let second : Term → Term = λ t. Then (Reach (v 2) (by.Skip (v 1))) t in
        (first_broken (sample triple ty.Whole (of_three (second (Then (Reach (v 3) (by.Skip (v 2))) zero_term)))) ≡ None)
        × (first_broken (sample triple ty.Whole (of_three (second (Then (Reach (v 3) (by.Skip (v 1))) zero_term)))) ≡ Some (8, 3))
        × (first_broken (sample triple ty.Whole (of_three (second (second zero_term)))) ≡ Some (8, 3))
        × (first_broken (sample triple ty.Whole (of_three (Then (Reach (v 3) (by.Skip (v 2))) zero_term))) ≡ Some (8, 2))
        × (first_broken (sample triple ty.Whole (of_three (Then (Reach (v 2) by.Offset) zero_term))) ≡ Some (8, 2))
        × (first_broken (sample triple tree (of_three (second (Point (var 2))))) ≡ None)
        × (first_broken (sample triple tree (of_three (Point (var 2)))) ≡ Some (8, 2)) }
    // A field but the first one is reached by the offset that its head stores.
    ensures offsets { let of_node : Term → Term = λ t. CaseTerm (var 0) (arms (v 1 ∷ []) zero_term (v 2 ∷ v 3 ∷ []) t) in
        (first_broken (sample tree ty.Whole (of_node (Then (Reach (v 3) by.Offset) zero_term))) ≡ None)
        × (first_broken (sample tree ty.Whole (of_node (Then (Reach (v 2) by.Offset) zero_term))) ≡ Some (8, 3)) }
    // A field is reached by no skip of one that a `case` was on; nor is what is no field, or not in scope.
    ensures skipped { let of_node : Term → Term = λ t. CaseTerm (var 0) (arms (v 1 ∷ []) zero_term (v 2 ∷ v 3 ∷ []) t) in
        let look : Term → Term = λ t. Then (One (On kind.Scalar (v 4) ty.Whole (CaseTerm (var 2) (arms (v 5 ∷ []) zero_term (v 6 ∷ v 7 ∷ []) zero_term)))) t in
        let skip : Term → Term = λ t. Then (Reach (v 3) (by.Skip (v 2))) t in
        (first_broken (sample tree ty.Whole (of_node (skip (look zero_term)))) ≡ None)
        × (first_broken (sample tree ty.Whole (of_node (look (skip zero_term)))) ≡ Some (8, 7))
        × (first_broken (sample tree ty.Whole (Then (Reach (v 0) by.Offset) zero_term)) ≡ Some (8, 1))
        × (first_broken (sample tree ty.Whole (Then (Reach (v 1) by.Offset) zero_term)) ≡ Some (8, 1)) }
    // A field that is not reached is used in no line.
    ensures unreached { let of_node : Term → Term = λ t. CaseTerm (var 0) (arms (v 1 ∷ []) (Point (var 0)) (v 2 ∷ v 3 ∷ []) t) in
        let on : Atom → Term = λ x. CaseTerm x (arms (v 4 ∷ []) (Point (var 0)) (v 5 ∷ v 6 ∷ []) (Point (var 0))) in
        (first_broken (sample tree tree (of_node (CallTerm same (var 2 ∷ [])))) ≡ None)
        × (first_broken (sample tree tree (of_node (CallTerm same (var 3 ∷ [])))) ≡ Some (8, 3))
        × (first_broken (sample tree tree (of_node (on (var 2)))) ≡ None)
        × (first_broken (sample tree tree (of_node (on (var 3)))) ≡ Some (8, 3)) }
    // Nor is what was bound in another term, %2 here; the first line behind it is the term 4.
    ensures outside { let number : Term → Term = λ t. Then (One (On kind.Scalar (v 1) ty.Whole (Then (Prim (v 2) o.Add (var 0) (a.Whole (pos 1))) (Give (var 2))))) t in
        let truth : Term → Term = λ t. Then (One (On kind.Scalar (v 1) ty.Truth (Then (Prim (v 2) o.Less (var 0) (a.Whole (pos 1))) (Give (var 2))))) t in
        let add : Atom → Atom → Term = λ y z. Then (Prim (v 3) o.Add y z) (Give (var 3)) in
        let filled : Atom → Term = λ x. Then (Past (v 3) leaf) (Write (v 3) leaf (x ∷ []) []) in
        (first_broken (sample ty.Whole ty.Whole (number (add (var 0) (var 1)))) ≡ None)
        × (first_broken (sample ty.Whole ty.Whole (number (add (var 2) (var 1)))) ≡ Some (8, 4))
        × (first_broken (sample ty.Whole ty.Whole (number (add (var 0) (var 2)))) ≡ Some (8, 4))
        × (first_broken (sample ty.Whole ty.Whole (number (Give (var 2)))) ≡ Some (8, 4))
        × (first_broken (sample ty.Whole ty.Whole (truth (IfTerm (var 1) zero_term zero_term))) ≡ None)
        × (first_broken (sample ty.Whole ty.Whole (truth (IfTerm (var 2) zero_term zero_term))) ≡ Some (8, 4))
        × (first_broken (sample ty.Whole tree (number (filled (var 1)))) ≡ None)
        × (first_broken (sample ty.Whole tree (number (filled (var 2)))) ≡ Some (8, 5)) }
    // A head is no value.
    ensures heads { let node_of : Term → Term = λ t. Then (Past (v 1) node) (Then (One (On kind.Here (v 2) tree t)) (Then (points kind.Here 3 0) (Write (v 1) node [] (var 2 ∷ var 3 ∷ [])))) in
        (first_broken (sample tree tree (node_of (Point (var 0)))) ≡ None)
        × (first_broken (sample tree tree (node_of (Point (var 1)))) ≡ Some (8, 3)) }
    // Each variable is bound once, in whatever line, and used behind where it is bound.
    ensures bound { (first_broken (sample tree ty.Whole (CaseTerm (var 0) (arms (v 1 ∷ []) zero_term (v 1 ∷ v 2 ∷ []) zero_term))) ≡ Some (8, 1))
        × (first_broken (sample tree ty.Whole (CaseTerm (var 0) (arms (v 0 ∷ []) zero_term (v 1 ∷ v 2 ∷ []) zero_term))) ≡ Some (8, 1))
        × (first_broken (sample tree tree (Then (points kind.Region 1 1) (Point (var 1)))) ≡ Some (8, 2))
        × (first_broken (sample tree tree (Then (points kind.Region 0 0) (Point (var 0)))) ≡ Some (8, 1))
        × (first_broken (sample tree tree (Then (Both false (On kind.Region (v 1) tree (Point (var 0))) (On kind.Region (v 1) tree (Point (var 0)))) (Point (var 1)))) ≡ Some (8, 4))
        × (first_broken (sample tree tree (Then (Past (v 1) node) (Then (points kind.Here 0 0) (Then (points kind.Here 2 0) (Write (v 1) node [] (var 0 ∷ var 2 ∷ [])))))) ≡ Some (8, 2))
        × (first_broken (sample tree tree (Then (Past (v 0) leaf) (Write (v 0) leaf (a.Whole (pos 1) ∷ []) []))) ≡ Some (8, 1))
        × (first_broken (sample ty.Whole ty.Whole (Then (One (On kind.Scalar (v 0) ty.Whole zero_term)) zero_term)) ≡ Some (8, 1))
        × (first_broken (sample ty.Whole ty.Whole (Then (Prim (v 0) o.Add (var 0) (a.Whole (pos 1))) zero_term)) ≡ Some (8, 1))
        × (first_broken (sample tree tree (Point (var 1))) ≡ Some (8, 1)) }
{}

/// Rule 9: types.
pub fn types()
    // A call has its function's arguments, in number and type; its result is of the type that is due.
    ensures calls { (first_broken (sample tree tree (CallTerm same [])) ≡ Some (9, 1))
        × (first_broken (sample tree tree (CallTerm same (var 0 ∷ var 0 ∷ []))) ≡ Some (9, 1))
        × (first_broken (sample empty tree (CallTerm same (var 0 ∷ []))) ≡ Some (9, 1))
        × (first_broken (sample tree empty (CallTerm same (var 0 ∷ []))) ≡ Some (9, 1)) }
    // There is a function of the name.
    ensures unknown { first_broken (sample tree tree (CallTerm size (var 0 ∷ []))) ≡ Some (9, 1) }
    // A scalar call is the whole right side of a `scalar`.
    ensures scalar_calls { let call : Term = CallTerm size (var 0 ∷ []) in
        let bound : Term → Term = λ t. Then (One (On kind.Scalar (v 1) ty.Whole t)) (Give (var 1)) in
        (first_broken (sized tree ty.Whole (bound call)) ≡ None)
        × (first_broken (sized tree ty.Whole call) ≡ Some (9, 1))
        × (first_broken (sized tree ty.Whole (bound (Then (points kind.Region 2 0) call))) ≡ Some (9, 4))
        × (first_broken (sized tree ty.Whole (bound (CaseTerm (var 0) (arms (v 2 ∷ []) call (v 3 ∷ v 4 ∷ []) zero_term)))) ≡ Some (9, 3)) }
    // An `if` is on a truth value, an operation on numbers.
    ensures scalars { (first_broken (sample ty.Truth ty.Whole (IfTerm (var 0) zero_term zero_term)) ≡ None)
        × (first_broken (sample ty.Whole ty.Whole (IfTerm (var 0) zero_term zero_term)) ≡ Some (9, 1))
        × (first_broken (sample ty.Whole ty.Whole (Then (Prim (v 1) o.Add (var 0) (a.Whole (pos 1))) (Give (var 1)))) ≡ None)
        × (first_broken (sample ty.Truth ty.Whole (Then (Prim (v 1) o.Add (var 0) (a.Whole (pos 1))) (Give (var 1)))) ≡ Some (9, 1))
        × (first_broken (sample ty.Truth ty.Whole (Then (Prim (v 1) o.Add (a.Whole (pos 1)) (var 0)) (Give (var 1)))) ≡ Some (9, 1)) }
    // What is given is due, and at no place; what is pointed to is of the type that is due.
    ensures ends { (first_broken (sample tree tree zero_term) ≡ Some (9, 1))
        × (first_broken (sample tree ty.Truth zero_term) ≡ Some (9, 1))
        × (first_broken (sample tree empty (Point (var 0))) ≡ Some (9, 1)) }
    // A head is filled with its constructor's scalars; a `here` is of the field's type, a `scalar` of a scalar type.
    ensures fields { (first_broken (sample tree tree (Then (Past (v 1) leaf) (Write (v 1) leaf (a.Whole (pos 1) ∷ []) []))) ≡ None)
        × (first_broken (sample tree tree (Then (Past (v 1) leaf) (Write (v 1) leaf [] []))) ≡ Some (9, 2))
        × (first_broken (sample tree tree (Then (Past (v 1) leaf) (Write (v 1) leaf (a.Whole (pos 1) ∷ a.Whole (pos 1) ∷ []) []))) ≡ Some (9, 2))
        × (first_broken (sample tree tree (Then (Past (v 1) leaf) (Write (v 1) leaf (a.Truth true ∷ []) []))) ≡ Some (9, 2))
        × (first_broken (sample empty tree (Then (Past (v 1) node) (Then (One (On kind.Here (v 2) empty (Point (var 0)))) (Write (v 1) node [] (var 2 ∷ []))))) ≡ Some (9, 2))
        × (first_broken (sample tree ty.Whole (Then (One (On kind.Scalar (v 1) tree (Point (var 0)))) zero_term)) ≡ Some (9, 1)) }
{}

/// A field is reached at the end that a call told before in the same line, outside each par.
pub fn told()
    // Both fields are summed, one after the other: so the parameter is ended.
    ensures both { let rest : Term = Then (Reach (v 3) (by.End (v 2))) (Then (sizes 5 3) (Then (Prim (v 6) o.Add (var 4) (var 5)) (Give (var 6)))) in
        let core = core_told (Then (sizes 4 2) rest) in
        (ended core ≡ record { function = 8; place = 0 } ∷ []) × (first_broken core ≡ None)
        × (ended (record core { marked = false }) ≡ []) × (first_broken (record core { marked = false }) ≡ Some (8, 4)) }
    // It was told neither before it is told, nor by a side of a par.
    ensures early { let reach : Term → Term = λ t. Then (Reach (v 3) (by.End (v 2))) t in
        let last : Term = Then (sizes 5 3) (Give (var 5)) in
        (first_broken (core_told (reach (Then (sizes 4 2) last))) ≡ Some (8, 2))
        × (first_broken (core_told (Then (Both false (On kind.Scalar (v 4) ty.Whole (CallTerm size (var 2 ∷ []))) (On kind.Scalar (v 7) ty.Whole zero_term)) (reach last))) ≡ Some (8, 7))
        × (first_broken (core_told (Then (sizes 4 2) (Then (One (On kind.Scalar (v 7) ty.Whole (reach last))) (Give (var 7))))) ≡ Some (8, 5)) }
    // A function that reads its parameter not to the end tells none.
    ensures first_alone { let core = core_told (Then (sizes 4 2) (Give (var 4))) in
        (ended core ≡ []) × (first_broken core ≡ None) }
{}

/// Results of several parts. Main's terms count from 1, or from 3 behind the function `split`.
pub fn parts()
    // A tuple gives its parts where parts are due: as many of each kind, and of their types.
    ensures tuples { let zero : Atom = a.Whole (pos 0) in
        let main : Term = Then (pair_bound (CallTerm split (var 0 ∷ []))) (Point (var 1)) in
        (first_broken (parted (pair zero) main) ≡ None)
        × (first_broken (sample tree tree (pair zero)) ≡ Some (10, 1))
        × (first_broken (sample tree ty.Whole (pair zero)) ≡ Some (10, 1))
        × (first_broken (parted (pair (a.Truth true)) main) ≡ Some (9, 0))
        × (first_broken (parted (pair (var 3)) main) ≡ Some (8, 0))
        × (first_broken (parted (Tuple pair_types (zero ∷ []) NoPart) main) ≡ Some (9, 0))
        × (first_broken (parted (Tuple pair_types [] (PartThen (Point (var 0)) NoPart)) main) ≡ Some (9, 0))
        × (first_broken (parted (Tuple (ty.Whole ∷ tree ∷ []) (zero ∷ []) (PartThen (Point (var 0)) NoPart)) main) ≡ Some (9, 0))
        × (first_broken (parted (Tuple pair_types (zero ∷ []) (PartThen zero_term NoPart)) main) ≡ Some (9, 2)) }
    // Nothing else but a call that gives these parts stands there; such a call stands nowhere else.
    ensures due { let bound : Term → Term = λ t. Then (pair_bound t) (Point (var 1)) in
        (first_broken (sample tree tree (bound (Point (var 0)))) ≡ Some (6, 2))
        × (first_broken (sample tree tree (bound (CallTerm same (var 0 ∷ [])))) ≡ Some (6, 2))
        × (first_broken (sample tree tree (bound zero_term)) ≡ Some (9, 2))
        × (first_broken (sized tree tree (bound (CallTerm size (var 0 ∷ [])))) ≡ Some (9, 2))
        × (first_broken (sample tree tree (bound (Then (Past (v 3) nil) (Write (v 3) nil [] [])))) ≡ Some (1, 2))
        × (first_broken (parted (pair (a.Whole (pos 0))) (CallTerm split (var 0 ∷ []))) ≡ Some (9, 3)) }
    // From two to eight new variables are bound, each with a type.
    ensures several { let zero : Atom = a.Whole (pos 0) in
        let bound : List Variable → Term = λ xs. Then (One (Several xs pair_types (pair zero))) (Point (var 0)) in
        let numbers : List Variable → List Ty → List Atom → Term = λ xs tys ss. Then (One (Several xs tys (Tuple tys ss NoPart))) (Point (var 0)) in
        let eight : List Variable = v 1 ∷ v 2 ∷ v 3 ∷ v 4 ∷ v 5 ∷ v 6 ∷ v 7 ∷ v 8 ∷ [] in
        let types : List Ty = ty.Whole ∷ ty.Whole ∷ ty.Whole ∷ ty.Whole ∷ ty.Whole ∷ ty.Whole ∷ ty.Whole ∷ ty.Whole ∷ [] in
        let zeros : List Atom = zero ∷ zero ∷ zero ∷ zero ∷ zero ∷ zero ∷ zero ∷ zero ∷ [] in
        (first_broken (sample tree tree (bound (v 1 ∷ v 2 ∷ []))) ≡ None)
        × (first_broken (sample tree tree (bound (v 1 ∷ v 1 ∷ []))) ≡ Some (8, 1))
        × (first_broken (sample tree tree (bound (v 1 ∷ v 0 ∷ []))) ≡ Some (8, 1))
        × (first_broken (sample tree tree (bound (v 1 ∷ []))) ≡ Some (11, 1))
        × (first_broken (sample tree tree (bound (v 1 ∷ v 2 ∷ v 3 ∷ []))) ≡ Some (11, 1))
        × (first_broken (sample tree tree (numbers (v 1 ∷ []) (ty.Whole ∷ []) (zero ∷ []))) ≡ Some (11, 1))
        × (first_broken (sample tree tree (numbers eight types zeros)) ≡ None)
        × (first_broken (sample tree tree (numbers (v 9 ∷ eight) (ty.Whole ∷ types) (zero ∷ zeros))) ≡ Some (11, 1)) }
    // No side of a par uses one of the other one's variables.
    ensures sides { let call : Term = CallTerm split (var 0 ∷ []) in
        let main : Term → Term = λ t. Then (Both false (Several (v 1 ∷ v 2 ∷ []) pair_types call) (Several (v 3 ∷ v 4 ∷ []) pair_types t)) (Point (var 3)) in
        let core : Term → CoreTree = λ t. parted (pair (a.Whole (pos 0))) (main t) in
        (first_broken (core call) ≡ None)
        × (first_broken (core (pair (var 2))) ≡ Some (4, 7))
        × (first_broken (core (Tuple pair_types (a.Whole (pos 0) ∷ []) (PartThen (Point (var 1)) NoPart))) ≡ Some (4, 9)) }
{}
