//! Examples of value texts.

ghost use Rattle.std.specs.Prelude.{◌≡◌, ◌∷◌, [], pos, negsuc, true, codes};
ghost use Rattle.gib_types.specs.{declared.table.Ty.TheVariants.{Whole, Tree}, Table.{Table}, Tree.{whole, truth, con, none, more}};
ghost use Rattle.gib_value.specs.Text.{text};

/// Texts of values of `data Tree = Leaf Int | Node Tree Tree ;`, of `data List = Nil | Cons Int List ;`, and
/// of scalars.
pub fn examples()
    // A tree of two leaves.
    ensures tree { let tree = Tree (record { 0 = 0 }) in
        let table : Table = record { types = 0 ∷ []; rows = record { name = 1; owner = 0; fields = Whole ∷ [] } ∷ record { name = 2; owner = 0; fields = tree ∷ tree ∷ [] } ∷ [] } in
        text table (codes "Tree" ∷ codes "Leaf" ∷ codes "Node" ∷ []) (con 1 (more (con 0 (more (whole (pos 1)) none)) (more (con 0 (more (whole (pos 2)) none)) none)))
        ≡ codes "(Node (Leaf 1) (Leaf 2))" }
    // A list of one number below zero: the constructor without fields stands without parentheses.
    ensures list { let list = Tree (record { 0 = 0 }) in
        let table : Table = record { types = 0 ∷ []; rows = record { name = 1; owner = 0; fields = [] } ∷ record { name = 2; owner = 0; fields = Whole ∷ list ∷ [] } ∷ [] } in
        text table (codes "List" ∷ codes "Nil" ∷ codes "Cons" ∷ []) (con 1 (more (whole (negsuc 0)) (more (con 0 none) none)))
        ≡ codes "(Cons -1 Nil)" }
    // The least number.
    ensures least { (table : Table) → text table [] (whole (negsuc 9223372036854775807)) ≡ codes "-9223372036854775808" }
    // A truth value.
    ensures truth { (table : Table) → text table [] (truth true) ≡ codes "True" }
{}
