//! An example of what a core becomes.

ghost use Rattle.gib_syntax.specs.Results as results;
ghost use Rattle.std.specs.Prelude.{◌≡◌, ◌∷◌, [], pos, true, false, Some, None};
ghost use Rattle.gib_types.specs.{declared.table.ConId.{ConId as Con}, Row.{Table}};
ghost use Rattle.gib_types.specs.declared.table.Ty.TheVariants as ty;
ghost use Rattle.gib_base.specs.declared.name.Name.{Name as FunctionName};
ghost use Rattle.gib_types.specs.declared.operator.Operator.TheVariants as o;
ghost use Rattle.gib_core.specs.declared.atom.Atom.TheVariants as a;
ghost use Rattle.gib_core.specs.declared.atom.Access.TheVariants as by;
ghost use Rattle.gib_core.specs.declared.atom.Kind.TheVariants as kind;
ghost use Rattle.gib_core.specs.SampleCores.{tree, leaf, node, v as x, sample_table};
ghost use Rattle.gib_core.specs.Tree.{Term, Then, Write, Point, CallTerm, Give, CaseTerm, Tuple, NoPart, PartThen, Past, One, Both, Prim, Reach, On, Several, NoBranch, BranchThen, var, CoreTree};
ghost use Rattle.gib_code.specs.declared.instruction.Operand.TheVariants.{Slot, Number};
ghost use Rattle.gib_code.specs.declared.instruction.AnswerType.TheVariants as of;
ghost use Rattle.gib_code.specs.declared.instruction.Kind.TheVariants as side;
ghost use Rattle.gib_code.specs.Instruction as i;
ghost use Rattle.gib_lower.specs.Lowering.{lower_program};

/// The code of
///
///     fun add1 (t : Tree) : Tree =
///       case t of { Leaf n -> Leaf (n + 1) ; Node l r -> let par a = add1 l and b = add1 r in Node a b } ;
///     main (t : Tree) : Tree = add1 t ;
///
/// over `data Tree = Leaf Int | Node Tree Tree`, with its sides at their places and marked.
pub fn examples()
    ensures { let add1 : FunctionName = record { 0 = 3 } in
        let first : Term = Then (Prim (x 2) o.Add (var 1) (a.Whole (pos 1))) (Then (Past (x 3) leaf) (Write (x 3) leaf (var 2 ∷ []) [])) in
        let second : Term = Then (Reach (x 5) by.Offset) (Then (Past (x 6) node) (Then (Both true (On kind.Here (x 7) tree (CallTerm add1 (var 4 ∷ []))) (On kind.Here (x 8) tree (CallTerm add1 (var 5 ∷ [])))) (Write (x 6) node [] (var 7 ∷ var 8 ∷ [])))) in
        let core : CoreTree = record {
          table = sample_table;
          functions = record { name = add1; parameters = tree ∷ []; result = results.One tree; body = CaseTerm (var 0) (BranchThen leaf (x 1 ∷ []) first (BranchThen node (x 4 ∷ x 5 ∷ []) second NoBranch)) } ∷ [];
          main = record { parameter = tree; result = tree; body = CallTerm add1 (var 0 ∷ []) };
          offsets = node ∷ [];
          marked = false;
        } in
        lower_program core ≡ record {
          laid = record { table = sample_table; with_offsets = 1 ∷ [] };
          instructions =
              i.Switch 0 (record { constructor = 0; label = 1 } ∷ record { constructor = 1; label = 6 } ∷ [])
              ∷ i.Whole 1 0 1
              ∷ i.Operate 2 o.Add (Slot 1) (Number 1)
              ∷ i.Past 3 0
              ∷ i.Fill 3 0 (Slot 2 ∷ []) []
              ∷ i.Return
              ∷ i.First 4 0 9
              ∷ i.Offset 5 0 1
              ∷ i.Past 6 1
              ∷ i.Fork 14 18 side.Here (8 ∷ []) (of.One tree)
              ∷ i.Here 7
              ∷ i.Call 0 (Slot 4 ∷ [])
              ∷ i.Jump 13
              ∷ i.Join
              ∷ i.Here 8
              ∷ i.Call 0 (Slot 5 ∷ [])
              ∷ i.Jump 17
              ∷ i.Back
              ∷ i.Fill 6 1 [] (7 ∷ 8 ∷ [])
              ∷ i.Return
              ∷ i.Call 0 (Slot 0 ∷ [])
              ∷ i.Return
              ∷ [];
          functions = record { name = Some add1; start = 0; slots = 9; result = of.One tree } ∷ record { name = None; start = 20; slots = 1; result = of.One tree } ∷ [];
        } }
{}

/// The code of
///
///     fun sum (t : Tree) : Int = case t of { Leaf n -> n ; Node l r -> (sum l + sum r) } ;
///     main (t : Tree) : Int = sum t ;
///
/// over the same type, by ends: each call tells where its argument ends, where the second tree begins.
pub fn examples_by_ends()
    ensures { let sum : FunctionName = record { 0 = 3 } in
        let second : Term = Then (One (On kind.Scalar (x 4) ty.Whole (CallTerm sum (var 2 ∷ [])))) (Then (Reach (x 3) (by.End (x 2))) (Then (One (On kind.Scalar (x 5) ty.Whole (CallTerm sum (var 3 ∷ [])))) (Then (Prim (x 6) o.Add (var 4) (var 5)) (Give (var 6))))) in
        let core : CoreTree = record {
          table = sample_table;
          functions = record { name = sum; parameters = tree ∷ []; result = results.One ty.Whole; body = CaseTerm (var 0) (BranchThen leaf (x 1 ∷ []) (Give (var 1)) (BranchThen node (x 2 ∷ x 3 ∷ []) second NoBranch)) } ∷ [];
          main = record { parameter = tree; result = ty.Whole; body = Then (One (On kind.Scalar (x 1) ty.Whole (CallTerm sum (var 0 ∷ [])))) (Give (var 1)) };
          offsets = [];
          marked = true;
        } in
        lower_program core ≡ record {
          laid = record { table = sample_table; with_offsets = [] };
          instructions =
              i.Switch 0 (record { constructor = 0; label = 1 } ∷ record { constructor = 1; label = 4 } ∷ [])
              ∷ i.Whole 1 0 1
              ∷ i.LeafEnd 0 9
              ∷ i.Give (Slot 1)
              ∷ i.First 2 0 1
              ∷ i.CallScalar 4 0 (Slot 2 ∷ [])
              ∷ i.Got 2 0
              ∷ i.EndOf 3 2
              ∷ i.CallScalar 5 0 (Slot 3 ∷ [])
              ∷ i.Got 3 0
              ∷ i.Operate 6 o.Add (Slot 4) (Slot 5)
              ∷ i.OverEnd 0 3
              ∷ i.Give (Slot 6)
              ∷ i.CallScalar 1 0 (Slot 0 ∷ [])
              ∷ i.Got 0 0
              ∷ i.Give (Slot 1)
              ∷ [];
          functions = record { name = Some sum; start = 0; slots = 7; result = of.One ty.Whole } ∷ record { name = None; start = 13; slots = 2; result = of.One ty.Whole } ∷ [];
        } }
{}

/// The code of
///
///     data T = A ;
///     main (t : T) : Int = case t of { A -> 7 } ;
///
/// by ends: main's parameter is ended, though nothing calls main.
pub fn example_of_main()
    ensures { let only : Con = record { 0 = 0 } in
        let table : Table = record { types = 0 ∷ []; rows = record { name = 1; owner = 0; fields = [] } ∷ [] } in
        let core : CoreTree = record {
          table = table;
          functions = [];
          main = record { parameter = tree; result = ty.Whole; body = CaseTerm (var 0) (BranchThen only [] (Give (a.Whole (pos 7))) NoBranch) };
          offsets = [];
          marked = true;
        } in
        lower_program core ≡ record {
          laid = record { table = table; with_offsets = [] };
          instructions = i.Switch 0 (record { constructor = 0; label = 1 } ∷ []) ∷ i.LeafEnd 0 1 ∷ i.Give (Number 7) ∷ [];
          functions = record { name = None; start = 0; slots = 1; result = of.One ty.Whole } ∷ [];
        } }
{}

/// The code of
///
///     fun one (t : Tree) : (Tree, Int) = t, 1 ;
///     main (t : Tree) : Tree = let (u, n) = one t in let (v, m) = u, n in v ;
///
/// over the same type as above: a call gives its scalar part, a part list sets it.
pub fn example_of_parts()
    ensures { let one : FunctionName = record { 0 = 3 } in
        let rest : Term = Then (One (Several (x 3 ∷ x 4 ∷ []) (tree ∷ ty.Whole ∷ []) (Tuple (tree ∷ ty.Whole ∷ []) (var 2 ∷ []) (PartThen (Point (var 1)) NoPart)))) (Point (var 3)) in
        let core : CoreTree = record {
          table = sample_table;
          functions = record { name = one; parameters = tree ∷ []; result = results.Several (tree ∷ ty.Whole ∷ []); body = Tuple (tree ∷ ty.Whole ∷ []) (a.Whole (pos 1) ∷ []) (PartThen (Point (var 0)) NoPart) } ∷ [];
          main = record { parameter = tree; result = tree; body = Then (One (Several (x 1 ∷ x 2 ∷ []) (tree ∷ ty.Whole ∷ []) (CallTerm one (var 0 ∷ [])))) rest };
          offsets = [];
          marked = false;
        } in
        lower_program core ≡ record {
          laid = record { table = sample_table; with_offsets = [] };
          instructions =
              i.Into 0 1
              ∷ i.Point 0
              ∷ i.Jump 3
              ∷ i.Out 0 1
              ∷ i.GiveParts (Number 1 ∷ [])
              ∷ i.Begin 1
              ∷ i.Call 0 (Slot 0 ∷ [])
              ∷ i.Part 2 0
              ∷ i.Jump 9
              ∷ i.Done
              ∷ i.Begin 3
              ∷ i.Into 0 1
              ∷ i.Point 1
              ∷ i.Jump 14
              ∷ i.Out 0 1
              ∷ i.Move 4 (Slot 2)
              ∷ i.Jump 17
              ∷ i.Done
              ∷ i.Point 3
              ∷ i.Return
              ∷ [];
          functions = record { name = Some one; start = 0; slots = 1; result = of.Parts } ∷ record { name = None; start = 5; slots = 5; result = of.One tree } ∷ [];
        } }
{}
