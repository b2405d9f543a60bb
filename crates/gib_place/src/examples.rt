//! Examples of what is placed.

ghost use Rattle.std.specs.Prelude.{◌≡◌, ◌∷◌, [], pos, false};
ghost use Rattle.gib_types.specs.{declared.table.Ty.{Ty as FieldType}, declared.table.ConId.{ConId as Con}};
ghost use Rattle.gib_types.specs.declared.table.Ty.TheVariants as ty;
ghost use Rattle.gib_types.specs.declared.operator.Operator.TheVariants as o;
ghost use Rattle.gib_core.specs.declared.atom.Atom.TheVariants as a;
ghost use Rattle.gib_core.specs.declared.atom.Kind.TheVariants as kind;
ghost use Rattle.gib_core.specs.{declared.atom.Variable.{Variable as X}, SampleCores.{tree, leaf, node, three, v as x}};
ghost use Rattle.gib_core.specs.Tree.{Term, Then, Write, Point, CallTerm, Tuple, NoPart, PartThen, Past, One, Both, Prim, Side, On, Several, var};
ghost use Rattle.gib_base.specs.declared.name.Name.{Name as Fun};
ghost use Rattle.gib_place.specs.{Placing.{place_body}, Numbering.{number_anew}};

/// Fields over `data Tree = Leaf Int | Node Tree Tree`.
pub fn examples()
    // `Node (Leaf n) (Leaf 7)`: both leaves stand directly behind the head.
    ensures leaves { number_anew 1 (place_body (
        Then (One (On kind.Region (x 1) tree (Then (Past (x 2) leaf) (Write (x 2) leaf (var 0 ∷ []) []))))
        (Then (One (On kind.Region (x 3) tree (Then (Past (x 4) leaf) (Write (x 4) leaf (a.Whole (pos 7) ∷ []) []))))
        (Then (Past (x 5) node) (Then (One (On kind.Here (x 6) tree (Point (var 1)))) (Then (One (On kind.Here (x 7) tree (Point (var 3))))
        (Write (x 5) node [] (var 6 ∷ var 7 ∷ []))))))))
        ≡ Then (Past (x 1) node)
        (Then (One (On kind.Here (x 2) tree (Then (Past (x 3) leaf) (Write (x 3) leaf (var 0 ∷ []) []))))
        (Then (One (On kind.Here (x 4) tree (Then (Past (x 5) leaf) (Write (x 5) leaf (a.Whole (pos 7) ∷ []) []))))
        (Write (x 1) node [] (var 2 ∷ var 4 ∷ [])))) }
    // `let x = f v in Node x x`: a value that two fields point to stays in its region.
    ensures shared { let f : Fun = record { 0 = 3 } in
        let t : Term = Then (One (On kind.Region (x 1) tree (CallTerm f (var 0 ∷ []))))
        (Then (Past (x 2) node) (Then (One (On kind.Here (x 3) tree (Point (var 1)))) (Then (One (On kind.Here (x 4) tree (Point (var 1))))
        (Write (x 2) node [] (var 3 ∷ var 4 ∷ []))))) in
        number_anew 1 (place_body t) ≡ t }
    // `let par a = f v and b = f v in Node a b`: both sides are placed, behind the head in front of the par.
    ensures par { let call : Term = CallTerm (record { 0 = 3 }) (var 0 ∷ []) in
        number_anew 1 (place_body (
        Then (Both false (On kind.Region (x 1) tree call) (On kind.Region (x 2) tree call))
        (Then (Past (x 3) node) (Then (One (On kind.Here (x 4) tree (Point (var 1)))) (Then (One (On kind.Here (x 5) tree (Point (var 2))))
        (Write (x 3) node [] (var 4 ∷ var 5 ∷ [])))))))
        ≡ Then (Past (x 1) node) (Then (Both false (On kind.Here (x 2) tree call) (On kind.Here (x 3) tree call)) (Write (x 1) node [] (var 2 ∷ var 3 ∷ []))) }
    // `let par a = f v and b = f v in Three a v b`: no field is put before a side whose left side is placed, so the right one stays.
    ensures right_stays { let call : Term = CallTerm (record { 0 = 3 }) (var 0 ∷ []) in
        number_anew 1 (place_body (
        Then (Both false (On kind.Region (x 1) tree call) (On kind.Region (x 2) tree call))
        (Then (Past (x 3) three) (Then (One (On kind.Here (x 4) tree (Point (var 1)))) (Then (One (On kind.Here (x 5) tree (Point (var 0))))
        (Then (One (On kind.Here (x 6) tree (Point (var 2)))) (Write (x 3) three [] (var 4 ∷ var 5 ∷ var 6 ∷ []))))))))
        ≡ Then (Past (x 1) three) (Then (Both false (On kind.Here (x 2) tree call) (On kind.Region (x 3) tree call))
        (Then (One (On kind.Here (x 4) tree (Point (var 0)))) (Then (One (On kind.Here (x 5) tree (Point (var 3))))
        (Write (x 1) three [] (var 2 ∷ var 4 ∷ var 5 ∷ []))))) }
    // `let par a = f v and b = f v in Three v b a`: the right side alone is placed, behind the field in front of it.
    ensures right_alone { let call : Term = CallTerm (record { 0 = 3 }) (var 0 ∷ []) in
        number_anew 1 (place_body (
        Then (Both false (On kind.Region (x 1) tree call) (On kind.Region (x 2) tree call))
        (Then (Past (x 3) three) (Then (One (On kind.Here (x 4) tree (Point (var 0)))) (Then (One (On kind.Here (x 5) tree (Point (var 2))))
        (Then (One (On kind.Here (x 6) tree (Point (var 1)))) (Write (x 3) three [] (var 4 ∷ var 5 ∷ var 6 ∷ []))))))))
        ≡ Then (Past (x 1) three) (Then (One (On kind.Here (x 2) tree (Point (var 0))))
        (Then (Both false (On kind.Region (x 3) tree call) (On kind.Here (x 4) tree call))
        (Then (One (On kind.Here (x 5) tree (Point (var 3)))) (Write (x 1) three [] (var 2 ∷ var 4 ∷ var 5 ∷ []))))) }
{}

/// `let l = f v in Cons (7 quot 0) l` over `data List = Nil | Cons Int List`.
pub fn division()
    // The head's room comes before the call. The division, which has no value, still stands behind it, so the reason is that
    // of the call where there is no depth left.
    ensures { let cons : Con = record { 0 = 1 } in
        let list : FieldType = ty.Tree (record { 0 = 0 }) in
        let call : Term = CallTerm (record { 0 = 3 }) (var 0 ∷ []) in
        number_anew 1 (place_body (
        Then (One (On kind.Region (x 1) list call)) (Then (Prim (x 2) o.Quotient (a.Whole (pos 7)) (a.Whole (pos 0)))
        (Then (Past (x 3) cons) (Then (One (On kind.Here (x 4) list (Point (var 1)))) (Write (x 3) cons (var 2 ∷ []) (var 4 ∷ [])))))))
        ≡ Then (Past (x 1) cons) (Then (One (On kind.Here (x 2) list call)) (Then (Prim (x 3) o.Quotient (a.Whole (pos 7)) (a.Whole (pos 0)))
        (Write (x 1) cons (var 3 ∷ []) (var 2 ∷ [])))) }
{}

/// Results of several parts. `g` gives two trees, `f` one.
pub fn parts()
    // `let par (a, b) = g v and c = f v in Node c a`: the side of several variables stays, the other one is placed.
    ensures beside { let two : X → X → Side = λ a b. Several (a ∷ b ∷ []) (tree ∷ tree ∷ []) (CallTerm (record { 0 = 4 }) (var 0 ∷ [])) in
        let call : Term = CallTerm (record { 0 = 3 }) (var 0 ∷ []) in
        number_anew 1 (place_body (
        Then (Both false (two (x 1) (x 2)) (On kind.Region (x 3) tree call))
        (Then (Past (x 4) node) (Then (One (On kind.Here (x 5) tree (Point (var 3)))) (Then (One (On kind.Here (x 6) tree (Point (var 1))))
        (Write (x 4) node [] (var 5 ∷ var 6 ∷ [])))))))
        ≡ Then (Past (x 1) node) (Then (Both false (two (x 2) (x 3)) (On kind.Here (x 4) tree call))
        (Then (One (On kind.Here (x 5) tree (Point (var 2)))) (Write (x 1) node [] (var 4 ∷ var 5 ∷ [])))) }
    // `let par c = f v and (a, b) = g v in Node b c`: the value of the field before `c` is bound beside it, so `c` stays.
    ensures late { let two : Side = Several (x 2 ∷ x 3 ∷ []) (tree ∷ tree ∷ []) (CallTerm (record { 0 = 4 }) (var 0 ∷ [])) in
        let t : Term = Then (Both false (On kind.Region (x 1) tree (CallTerm (record { 0 = 3 }) (var 0 ∷ []))) two)
        (Then (Past (x 4) node) (Then (One (On kind.Here (x 5) tree (Point (var 3)))) (Then (One (On kind.Here (x 6) tree (Point (var 1))))
        (Write (x 4) node [] (var 5 ∷ var 6 ∷ []))))) in
        number_anew 1 (place_body t) ≡ t }
    // `let (a, n) = (let c = f v in Node c v, 7) in a`: fields are placed in a part, and in the term of several variables.
    ensures inside { let call : Term = CallTerm (record { 0 = 3 }) (var 0 ∷ []) in
        let bound : Term → Term = λ part. Then (One (Several (x 1 ∷ x 2 ∷ []) (tree ∷ ty.Whole ∷ []) (Tuple (tree ∷ ty.Whole ∷ []) (a.Whole (pos 7) ∷ []) (PartThen part NoPart)))) (Point (var 1)) in
        number_anew 1 (place_body (bound (
        Then (One (On kind.Region (x 3) tree call)) (Then (Past (x 4) node) (Then (One (On kind.Here (x 5) tree (Point (var 3))))
        (Then (One (On kind.Here (x 6) tree (Point (var 0)))) (Write (x 4) node [] (var 5 ∷ var 6 ∷ []))))))))
        ≡ bound (Then (Past (x 3) node) (Then (One (On kind.Here (x 4) tree call)) (Then (One (On kind.Here (x 5) tree (Point (var 0))))
        (Write (x 3) node [] (var 4 ∷ var 5 ∷ []))))) }
{}
