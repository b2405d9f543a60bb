//! The laws of what is made: functions whose contracts are the laws.

ghost use Rattle.std.specs.Prelude.{◌≡◌, ℕ, ◌<◌, ◌≤◌, ◌^◌, ◌%◌};
ghost use Rattle.std.specs.Int.{w64, int_wrap};
ghost use Rattle.gib_types.specs.{Table.{Table}, Tree.{HasType}};
ghost use Rattle.gib_print.specs.Numbers.{numbers, count_of, total_of};
ghost use Rattle.gib_gen.specs.{Made.{source_text, grown, file_of, IsProgramWith}, NumberTree.{NumberTree, value_of, tree_type, height, leaves, sum, worked}};

/// The text with a literal below 1,000 is that of a typed program, and a full tree of up to 18 levels below its root,
/// packed, is an input for it, whatever the number it grows from.
pub fn made_is_program()
    ensures { (literal levels number : ℕ) → literal < 1000 → levels ≤ 18 → IsProgramWith literal (source_text literal) (file_of (grown levels number).tree) (grown levels number).tree }
{}

/// A full tree has its levels and two leaves for each leaf of one with a level less; what a program makes of a tree has as many.
pub fn full_trees()
    ensures height { (levels number : ℕ) → height (grown levels number).tree ≡ levels }
    ensures leaves { (levels number : ℕ) → leaves (grown levels number).tree ≡ 2 ^ levels }
    ensures worked { (literal : ℕ) (t : NumberTree) → leaves (worked literal t) ≡ leaves t }
{}

/// What the line says of a tree: its leaves modulo 2^64, and the sum of their numbers, wrapped to 64 bits with a sign.
pub fn tree_summary()
    ensures leaves { (t : NumberTree) → count_of (numbers (value_of t)) ≡ leaves t % 2 ^ 64 }
    ensures sum { (table : Table) (t : NumberTree) → HasType table (value_of t) tree_type → total_of (numbers (value_of t)) ≡ int_wrap w64 (sum t) }
{}
