//! Examples of what divisions mean, and of what runs cost that end at one.

ghost use Rattle.std.specs.Prelude.{◌≡◌, ◌∷◌, [], ℕ, ℤ, pos, negsuc, true, false};
ghost use Rattle.gib_base.specs.declared.name.Name.{Name};
ghost use Rattle.gib_types.specs.{declared.table.Ty.{Ty as FieldType}, declared.table.ConId.{ConId as Con}, Tree.{whole}};
ghost use Rattle.gib_types.specs.declared.operator.Operator.{Operator};
ghost use Rattle.gib_types.specs.declared.table.Ty.TheVariants as ty;
ghost use Rattle.gib_types.specs.declared.operator.Operator.TheVariants as o;
ghost use Rattle.gib_syntax.specs.Meaning.{Gives, Stops, Deep, Trap};
ghost use Rattle.gib_core.specs.declared.atom.Atom.TheVariants as a;
ghost use Rattle.gib_core.specs.declared.atom.Kind.TheVariants as kind;
ghost use Rattle.gib_core.specs.declared.atom.Variable.{Variable as X};
ghost use Rattle.gib_core.specs.{Tree.{Term, Then, Write, CallTerm, Give, Past, One, Both, Prim, Side, On, var, CoreTree}, Meaning.{core_run}, Cost.{run_cost}};
ghost use Rattle.gib_syntax.specs.Results as results;

/// What `prim %1 = z quot %0` and `prim %1 = z rem %0` mean, for a number z.
pub fn dividing()
    // A quotient is cut towards zero, what is left has the sign of the left operand, and by 0 there is neither.
    ensures values { let core : Operator → ℤ → CoreTree = λ f z. record {
      table = record { types = []; rows = [] };
      functions = [];
      main = record { parameter = ty.Whole; result = ty.Whole; body = Then (Prim (record { 0 = 1 }) f (a.Whole z) (var 0)) (Give (var 1)) };
      offsets = [];
      marked = false;
    } in
        (core_run (core o.Quotient (negsuc 6)) 0 (whole (pos 2)) ≡ Gives (whole (negsuc 2)))
        × (core_run (core o.Remainder (negsuc 6)) 0 (whole (pos 2)) ≡ Gives (whole (negsuc 0)))
        × (core_run (core o.Remainder (pos 7)) 0 (whole (negsuc 1)) ≡ Gives (whole (pos 1)))
        × (core_run (core o.Quotient (negsuc 9223372036854775807)) 0 (whole (negsuc 0)) ≡ Gives (whole (negsuc 9223372036854775807)))
        × (core_run (core o.Remainder (negsuc 9223372036854775807)) 0 (whole (negsuc 0)) ≡ Gives (whole (pos 0)))
        × (core_run (core o.Quotient (pos 7)) 0 (whole (pos 0)) ≡ Stops Trap)
        × (core_run (core o.Remainder (pos 7)) 0 (whole (pos 0)) ≡ Stops Trap) }
    // Of two sides without a value the left one's reason counts, and of two lines the first one's.
    ensures reasons { let x : ℕ → X = λ n. record { 0 = n } in
        let f : Name = record { 0 = 5 } in
        let core : Term → CoreTree = λ t. record {
          table = record { types = []; rows = [] };
          functions = record { name = f; parameters = ty.Whole ∷ []; result = results.One ty.Whole; body = Give (var 0) } ∷ [];
          main = record { parameter = ty.Whole; result = ty.Whole; body = t };
          offsets = [];
          marked = false;
        } in
        let deep : ℕ → Side = λ n. On kind.Scalar (x n) ty.Whole (CallTerm f (var 0 ∷ [])) in
        let trap : ℕ → Side = λ n. On kind.Scalar (x n) ty.Whole (Then (Prim (x 9) o.Quotient (a.Whole (pos 7)) (a.Whole (pos 0))) (Give (var 9))) in
        (core_run (core (Then (Both true (deep 1) (trap 2)) (Give (var 0)))) 0 (whole (pos 0)) ≡ Stops Deep)
        × (core_run (core (Then (Both true (trap 1) (deep 2)) (Give (var 0)))) 0 (whole (pos 0)) ≡ Stops Trap)
        × (core_run (core (Then (Both true (trap 1) (deep 2)) (Give (var 0)))) 1 (whole (pos 0)) ≡ Stops Trap)
        × (core_run (core (Then (One (deep 1)) (Then (One (trap 2)) (Give (var 0))))) 0 (whole (pos 0)) ≡ Stops Deep)
        × (core_run (core (Then (One (trap 1)) (Then (One (deep 2)) (Give (var 0))))) 0 (whole (pos 0)) ≡ Stops Trap) }
{}

/// What it costs to build `(Leaf (7 quot n))`, and a node of it and a leaf in a marked `par` with its sides in their
/// places, where n is 1, and where it is 0.
pub fn trapped()
    // Nothing is paid behind a division by 0.
    ensures behind { let leaf : Con = record { 0 = 0 } in
        let tree : FieldType = ty.Tree (record { 0 = 0 }) in
        let x : ℕ → X = λ n. record { 0 = n } in
        let core : CoreTree = record {
          table = record { types = 0 ∷ []; rows = record { name = 1; owner = 0; fields = ty.Whole ∷ [] } ∷ record { name = 2; owner = 0; fields = tree ∷ tree ∷ [] } ∷ [] };
          functions = [];
          main = record { parameter = ty.Whole; result = tree; body = Then (Prim (x 1) o.Quotient (a.Whole (pos 7)) (var 0)) (Then (Past (x 2) leaf) (Write (x 2) leaf (var 1 ∷ []) [])) };
          offsets = [];
          marked = false;
        } in
        (run_cost core 100 4 (whole (pos 1)) ≡ record { regions = 0; items = 1 })
        × (run_cost core 100 4 (whole (pos 0)) ≡ record { regions = 0; items = 0 }) }
    // The right side of a `par` still counts whole where the left one has no value.
    ensures sides { let leaf : Con = record { 0 = 0 } in
        let node : Con = record { 0 = 1 } in
        let tree : FieldType = ty.Tree (record { 0 = 0 }) in
        let x : ℕ → X = λ n. record { 0 = n } in
        let left : Side = On kind.Here (x 2) tree (Then (Prim (x 3) o.Quotient (a.Whole (pos 7)) (var 0)) (Then (Past (x 4) leaf) (Write (x 4) leaf (var 3 ∷ []) []))) in
        let right : Side = On kind.Here (x 5) tree (Then (Past (x 6) leaf) (Write (x 6) leaf (var 0 ∷ []) [])) in
        let core : CoreTree = record {
          table = record { types = 0 ∷ []; rows = record { name = 1; owner = 0; fields = ty.Whole ∷ [] } ∷ record { name = 2; owner = 0; fields = tree ∷ tree ∷ [] } ∷ [] };
          functions = [];
          main = record { parameter = ty.Whole; result = tree; body = Then (Past (x 1) node) (Then (Both true left right) (Write (x 1) node [] (var 2 ∷ var 5 ∷ []))) };
          offsets = [];
          marked = false;
        } in
        (run_cost core 100 4 (whole (pos 1)) ≡ record { regions = 1; items = 4 })
        × (run_cost core 100 4 (whole (pos 0)) ≡ record { regions = 1; items = 3 }) }
{}
