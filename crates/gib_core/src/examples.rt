//! Examples of what a program becomes, and of build rules.

ghost use Rattle.std.specs.Prelude.{◌≡◌, ◌∷◌, [], ℕ, pos, false, None, Some};
ghost use Rattle.gib_base.specs.declared.Span.{Span};
ghost use Rattle.gib_types.specs.{declared.table.Ty.{Ty as FieldType}, declared.table.ConId.{ConId as Con}, Row.{Table}};
ghost use Rattle.gib_types.specs.declared.table.Ty.TheVariants as ty;
ghost use Rattle.gib_syntax.specs.{declared.tree.Ident.{Ident}, Tree.{Num, Op, Paren, ProgramTree, Var}};
ghost use Rattle.gib_syntax.specs.declared.tree.TypeName.TheVariants as written;
ghost use Rattle.gib_types.specs.declared.operator.Operator.TheVariants as o;
ghost use Rattle.gib_core.specs.declared.atom.Atom.TheVariants as a;
ghost use Rattle.gib_core.specs.declared.atom.Access.TheVariants as by;
ghost use Rattle.gib_core.specs.declared.atom.Kind.TheVariants as kind;
ghost use Rattle.gib_core.specs.declared.atom.Variable.{Variable as X};
ghost use Rattle.gib_core.specs.Tree.{Term, Then, Write, Point, Give, CaseTerm, Past, One, Prim, Reach, On, NoBranch, BranchThen, var, CoreTree};
ghost use Rattle.gib_core.specs.{Inferring.{infer_program}, Rules.{first_broken}};

/// What `main (n : Int) : Int = ((n + 1))` becomes; and which rule cores over
/// `data Tree = Leaf Int | Node Tree Tree` break first, with the number of the term.
pub fn examples()
    // The operation is bound, and its variable given.
    ensures sum { (p : Span) →
        let n : Ident = record { name = record { 0 = 0 }; span = p } in
        let program : ProgramTree = record { datas = []; functions = []; main = record { parameter = record { name = n; ty = written.Whole p }; result = written.Whole p; body = Paren p (Op p o.Add (Var n) (Num p 1)) } } in
        (infer_program program).main.body ≡ Then (Prim (record { 0 = 1 }) o.Add (var 0) (a.Whole (pos 1))) (Give (var 1)) }
    // The fields of a head are named in the order in which they stand: the rule on `write` is the fifth.
    ensures order { let leaf : Con = record { 0 = 0 } in
        let node : Con = record { 0 = 1 } in
        let tree : FieldType = ty.Tree (record { 0 = 0 }) in
        let x : ℕ → X = λ n. record { 0 = n } in
        let table : Table = record { types = 0 ∷ []; rows = record { name = 1; owner = 0; fields = ty.Whole ∷ [] } ∷ record { name = 2; owner = 0; fields = tree ∷ tree ∷ [] } ∷ [] } in
        let core : Term → CoreTree = λ t. record { table = table; functions = []; main = record { parameter = tree; result = tree; body = t }; offsets = []; marked = false } in
        let fields : Term → Term = λ t. Then (Past (x 1) node) (Then (One (On kind.Here (x 2) tree (Point (var 0)))) (Then (One (On kind.Here (x 3) tree (Point (var 0)))) t)) in
        (first_broken (core (fields (Write (x 1) node [] (var 2 ∷ var 3 ∷ [])))) ≡ None)
        × (first_broken (core (fields (Write (x 1) node [] (var 3 ∷ var 2 ∷ [])))) ≡ Some (5, 5)) }
    // A field is not reached by a skip of one that a `case` was on.
    ensures skip { let leaf : Con = record { 0 = 0 } in
        let node : Con = record { 0 = 1 } in
        let tree : FieldType = ty.Tree (record { 0 = 0 }) in
        let x : ℕ → X = λ n. record { 0 = n } in
        let table : Table = record { types = 0 ∷ []; rows = record { name = 1; owner = 0; fields = ty.Whole ∷ [] } ∷ record { name = 2; owner = 0; fields = tree ∷ tree ∷ [] } ∷ [] } in
        let core : Term → CoreTree = λ t. record { table = table; functions = []; main = record { parameter = tree; result = ty.Whole; body = CaseTerm (var 0) (BranchThen leaf (x 1 ∷ []) (Give (var 1)) (BranchThen node (x 2 ∷ x 3 ∷ []) t NoBranch)) }; offsets = []; marked = false } in
        let zero : Term = Give (a.Whole (pos 0)) in
        let look : Term → Term = λ t. Then (One (On kind.Scalar (x 4) ty.Whole (CaseTerm (var 2) (BranchThen leaf (x 5 ∷ []) zero (BranchThen node (x 6 ∷ x 7 ∷ []) zero NoBranch))))) t in
        (first_broken (core (Then (Reach (x 3) (by.Skip (x 2))) (look (Give (var 4))))) ≡ None)
        × (first_broken (core (look (Then (Reach (x 3) (by.Skip (x 2))) (Give (var 4))))) ≡ Some (8, 6)) }
{}
