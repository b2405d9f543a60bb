//! Examples of what runs cost.

ghost use Rattle.std.specs.Prelude.{◌≡◌, ◌∷◌, [], ℕ, pos, true, false, Bool, List};
ghost use Rattle.gib_base.specs.declared.name.Name.{Name};
ghost use Rattle.gib_types.specs.{declared.table.Ty.{Ty as FieldType}, declared.table.ConId.{ConId as Con}, Row.{Table}};
ghost use Rattle.gib_types.specs.Tree.{Datum, whole, con, Data, none as no_fields, more as field};
ghost use Rattle.gib_types.specs.declared.table.Ty.TheVariants as ty;
ghost use Rattle.gib_types.specs.declared.operator.Operator.TheVariants as o;
ghost use Rattle.gib_core.specs.declared.atom.Atom.TheVariants as a;
ghost use Rattle.gib_core.specs.declared.atom.Access.TheVariants as by;
ghost use Rattle.gib_core.specs.{declared.atom.Kind.{Kind as HowBound}, declared.atom.Variable.{Variable as X}};
ghost use Rattle.gib_core.specs.Tree.{Term, Then, Write, Point, CallTerm, CaseTerm, IfTerm, Past, One, Both, Prim, Reach, Side, On, NoBranch, BranchThen, var, CoreTree};
ghost use Rattle.gib_core.specs.{Cost.{Cost, run_cost}, SampleCores.{tree, v, same, sample, zero_term}, Tight.{Tight}};
ghost use Rattle.gib_core.specs.declared.atom.Kind.TheVariants as kind;
ghost use Rattle.gib_syntax.specs.Results as results;

/// What it costs to add 1 to each leaf of `(Node (Leaf 1) (Leaf 2))`, both sides of each node in a marked `par`: with the
/// sides in regions of their own; in their fields' places; in their places with no level of forks left;
/// and where the depth ends at both sides, which still count.
pub fn adding_one()
    ensures once { let leaf : Con = record { 0 = 0 } in
        let node : Con = record { 0 = 1 } in
        let tree : FieldType = ty.Tree (record { 0 = 0 }) in
        let x : ℕ → X = λ n. record { 0 = n } in
        let f : Name = record { 0 = 5 } in
        let table : Table = record { types = 0 ∷ []; rows = record { name = 1; owner = 0; fields = ty.Whole ∷ [] } ∷ record { name = 2; owner = 0; fields = tree ∷ tree ∷ [] } ∷ [] } in
        let at_leaf : Term = Then (Prim (x 4) o.Add (var 1) (a.Whole (pos 1))) (Then (Past (x 5) leaf) (Write (x 5) leaf (var 4 ∷ []) [])) in
        let both : HowBound → Term → Term = λ k t. Then (Both true (On k (x 6) tree (CallTerm f (var 2 ∷ []))) (On k (x 7) tree (CallTerm f (var 3 ∷ [])))) t in
        let apart : Term = both kind.Region (Then (Past (x 8) node) (Then (One (On kind.Here (x 9) tree (Point (var 6)))) (Then (One (On kind.Here (x 10) tree (Point (var 7)))) (Write (x 8) node [] (var 9 ∷ var 10 ∷ []))))) in
        let placed : Term = Then (Past (x 8) node) (both kind.Here (Write (x 8) node [] (var 6 ∷ var 7 ∷ []))) in
        let core : Term → CoreTree = λ t. record {
          table = table;
          functions = record { name = f; parameters = tree ∷ []; result = results.One tree; body = CaseTerm (var 0) (BranchThen leaf (x 1 ∷ []) at_leaf (BranchThen node (x 2 ∷ x 3 ∷ []) (Then (Reach (x 3) (by.Skip (x 2))) t) NoBranch)) } ∷ [];
          main = record { parameter = tree; result = tree; body = CallTerm f (var 0 ∷ []) };
          offsets = [];
          marked = false;
        } in
        let leaf_of : ℕ → Datum = λ n. con 0 (field (whole (pos n)) no_fields) in
        let input : Datum = con 1 (field (leaf_of 1) (field (leaf_of 2) no_fields)) in
        (run_cost (core apart) 100 4 input ≡ record { regions = 2; items = 8 })
        × (run_cost (core placed) 100 4 input ≡ record { regions = 1; items = 7 })
        × (run_cost (core placed) 100 0 input ≡ record { regions = 0; items = 6 })
        × (run_cost (core placed) 1 4 input ≡ record { regions = 1; items = 5 }) }
    // Forks nest: of a tree of four leaves the first level of forks pays one region and one indirection, the second
    // two of each, and no third one is there.
    ensures nested { let leaf : Con = record { 0 = 0 } in
        let node : Con = record { 0 = 1 } in
        let tree : FieldType = ty.Tree (record { 0 = 0 }) in
        let x : ℕ → X = λ n. record { 0 = n } in
        let f : Name = record { 0 = 5 } in
        let at_leaf : Term = Then (Prim (x 4) o.Add (var 1) (a.Whole (pos 1))) (Then (Past (x 5) leaf) (Write (x 5) leaf (var 4 ∷ []) [])) in
        let at_node : Term = Then (Reach (x 3) (by.Skip (x 2))) (Then (Past (x 8) node)
        (Then (Both true (On kind.Here (x 6) tree (CallTerm f (var 2 ∷ []))) (On kind.Here (x 7) tree (CallTerm f (var 3 ∷ [])))) (Write (x 8) node [] (var 6 ∷ var 7 ∷ [])))) in
        let core : CoreTree = record {
          table = record { types = 0 ∷ []; rows = record { name = 1; owner = 0; fields = ty.Whole ∷ [] } ∷ record { name = 2; owner = 0; fields = tree ∷ tree ∷ [] } ∷ [] };
          functions = record { name = f; parameters = tree ∷ []; result = results.One tree; body = CaseTerm (var 0) (BranchThen leaf (x 1 ∷ []) at_leaf (BranchThen node (x 2 ∷ x 3 ∷ []) at_node NoBranch)) } ∷ [];
          main = record { parameter = tree; result = tree; body = CallTerm f (var 0 ∷ []) };
          offsets = [];
          marked = false;
        } in
        let leaf_of : ℕ → Datum = λ n. con 0 (field (whole (pos n)) no_fields) in
        let node_of : Datum → Datum → Datum = λ l r. con 1 (field l (field r no_fields)) in
        let input : Datum = node_of (node_of (leaf_of 1) (leaf_of 2)) (node_of (leaf_of 3) (leaf_of 4)) in
        (run_cost core 100 0 input ≡ record { regions = 0; items = 14 })
        × (run_cost core 100 1 input ≡ record { regions = 1; items = 15 })
        × (run_cost core 100 2 input ≡ record { regions = 3; items = 17 })
        × (run_cost core 100 3 input ≡ record { regions = 3; items = 17 }) }
{}

/// What sides of each kind cost where nothing is forked, where a fork may be made, and where one of them has no value: over
/// `Tree`, a side in a region of its own beside a scalar one, and then a region. With no depth left the first side has no
/// value: the other one counts, and nothing behind the two.
pub fn sides()
    ensures { let region : ℕ → Side = λ n. On kind.Region (v n) tree (CallTerm same (var 0 ∷ [])) in
        let number : Side = On kind.Scalar (v 2) ty.Whole zero_term in
        let core : Bool → CoreTree = λ fork. sample tree tree (Then (Both fork (region 1) number) (Then (One (region 3)) (Point (var 3)))) in
        let swapped : CoreTree = sample tree tree (Then (Both true number (region 1)) (Then (One (region 3)) (Point (var 3)))) in
        let input : Datum = con 0 (field (whole (pos 1)) no_fields) in
        (run_cost (core false) 100 4 input ≡ record { regions = 2; items = 4 })
        × (run_cost (core true) 100 4 input ≡ record { regions = 2; items = 4 })
        × (run_cost swapped 100 0 input ≡ record { regions = 2; items = 4 })
        × (run_cost (core false) 0 4 input ≡ record { regions = 1; items = 1 }) }
{}

/// For how many chunks a run is tight: as long as there are no more than one for each 32 items, one for each region, and
/// 3 more.
pub fn tight()
    // A list of 8000 cells that is built in place has 8001 items: 253 chunks may not be enough, 254 are.
    ensures in_place { let c : Cost = record { regions = 0; items = 8001 } in Tight 253 c × (Tight 254 c → ⊥) }
    // Where the rest of each cell is built in a region of its own, there is an indirection too in each cell.
    ensures apart { let c : Cost = record { regions = 8000; items = 16001 } in Tight 8503 c × (Tight 8504 c → ⊥) }
    // By one item: 64 chunks are enough for 1951 items, and may not be for 1952.
    ensures by_item { (Tight 64 (record { regions = 0; items = 1951 }) → ⊥) × Tight 64 (record { regions = 0; items = 1952 }) }
    // By one region: 64 chunks are enough for 60 regions, and may not be for 61.
    ensures by_region { (Tight 64 (record { regions = 60; items = 0 }) → ⊥) × Tight 64 (record { regions = 61; items = 0 }) }
{}

/// What it costs to build a list of 3 cells in place, each after the one before.
pub fn building()
    ensures { let nil : Con = record { 0 = 0 } in
        let cons : Con = record { 0 = 1 } in
        let list : FieldType = ty.Tree (record { 0 = 0 }) in
        let x : ℕ → X = λ n. record { 0 = n } in
        let f : Name = record { 0 = 5 } in
        let table : Table = record { types = 0 ∷ []; rows = record { name = 1; owner = 0; fields = [] } ∷ record { name = 2; owner = 0; fields = ty.Whole ∷ list ∷ [] } ∷ [] } in
        let empty : Term = Then (Past (x 2) nil) (Write (x 2) nil [] []) in
        let cell : Term = Then (Past (x 3) cons) (Then (Prim (x 4) o.Subtract (var 0) (a.Whole (pos 1))) (Then (One (On kind.Here (x 5) list (CallTerm f (var 4 ∷ [])))) (Write (x 3) cons (var 0 ∷ []) (var 5 ∷ [])))) in
        let core : CoreTree = record {
          table = table;
          functions = record { name = f; parameters = ty.Whole ∷ []; result = results.One list; body = Then (Prim (x 1) o.Less (var 0) (a.Whole (pos 1))) (IfTerm (var 1) empty cell) } ∷ [];
          main = record { parameter = ty.Whole; result = list; body = CallTerm f (var 0 ∷ []) };
          offsets = [];
          marked = false;
        } in
        run_cost core 100 4 (whole (pos 3)) ≡ record { regions = 0; items = 4 } }
{}
