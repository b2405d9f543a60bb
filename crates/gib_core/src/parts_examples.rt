//! Examples of results of several parts: what programs become, what cores mean, and what their runs cost.

ghost use Rattle.std.specs.Prelude.{◌≡◌, ◌∷◌, [], ℕ, pos, None};
ghost use Rattle.gib_types.specs.{Tree.{Datum, whole, con, none, more}, declared.operator.Operator.TheVariants.{Quotient}};
ghost use Rattle.gib_syntax.specs.Meaning.{Gives, Stops, Deep, Trap};
ghost use Rattle.gib_core.specs.{declared.atom.AccessMode.TheVariants.{Offsets}, Tree.{Then, Point, CallTerm, Tuple, NoPart, PartThen, Prim, CoreTree, var}};
ghost use Rattle.gib_core.specs.{Inferring.{infer_program}, Reaching.{reach_core}, Marking.{mark_core}, Meaning.{core_run}, Cost.{body_cost}};
ghost use Rattle.gib_core.specs.{Rules.{first_broken}, SampleCores.{v, tree, same, sample, pair_types, pair_bound, next_to, summed}, SamplePrograms.{summing}};
ghost use Rattle.gib_core.specs.declared.atom.Atom.TheVariants as a;

/// A leaf of a number and the next number, put into a node.
pub fn of_a_number()
    ensures built { first_broken next_to ≡ None }
    ensures value { core_run next_to 1 (whole (pos 5)) ≡ Gives (con 1 (more (con 0 (more (whole (pos 5)) none)) (more (con 0 (more (whole (pos 6)) none)) none))) }
    ensures deep { core_run next_to 0 (whole (pos 5)) ≡ Stops Deep }
    // The tree that is given stands in a region of its own, and so does the leaf of main.
    ensures cost { body_cost next_to 1 0 (whole (pos 5)) ≡ record { regions = 2; items = 5 } }
{}

/// A tree whose leaves are one greater and the sum of the tree, both sides of each node in a marked `par`.
pub fn of_a_tree()
    ensures made { mark_core (reach_core Offsets (infer_program summing)) ≡ summed }
    ensures built { first_broken summed ≡ None }
    ensures value { let leaf : ℕ → Datum = λ n. con 0 (more (whole (pos n)) none) in
        core_run summed 2 (con 1 (more (leaf 1) (more (leaf 2) none))) ≡ Gives (con 1 (more (con 1 (more (leaf 2) (more (leaf 3) none))) (more (leaf 3) none))) }
    ensures deep { let leaf : ℕ → Datum = λ n. con 0 (more (whole (pos n)) none) in
        core_run summed 1 (con 1 (more (leaf 1) (more (leaf 2) none))) ≡ Stops Deep }
    ensures cost { let leaf : ℕ → Datum = λ n. con 0 (more (whole (pos n)) none) in
        body_cost summed 3 2 (con 1 (more (leaf 1) (more (leaf 2) none))) ≡ record { regions = 4; items = 9 } }
{}

/// The scalar parts of a tuple come first, wherever they are written: the operation stands before the call.
pub fn scalars_before_trees()
    ensures { let core : ℕ → CoreTree = λ n. sample tree tree (Then (pair_bound (Then (Prim (v 3) Quotient (a.Whole (pos 1)) (a.Whole (pos n))) (Tuple pair_types (var 3 ∷ []) (PartThen (CallTerm same (var 0 ∷ [])) NoPart)))) (Point (var 1))) in
        (core_run (core 0) 0 (con 0 (more (whole (pos 5)) none)) ≡ Stops Trap)
        × (core_run (core 1) 0 (con 0 (more (whole (pos 5)) none)) ≡ Stops Deep)
        × (core_run (core 1) 1 (con 0 (more (whole (pos 5)) none)) ≡ Gives (con 0 (more (whole (pos 5)) none))) }
{}
