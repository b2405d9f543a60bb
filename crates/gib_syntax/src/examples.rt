//! Examples of spelling, levels and meaning.

ghost use Rattle.std.specs.Prelude.{◌≡◌, ◌∷◌, [], pos, negsuc};
ghost use Rattle.gib_base.specs.declared.Span.{Span};
ghost use Rattle.gib_base.specs.declared.token.Sign.TheVariants as s;
ghost use Rattle.gib_base.specs.declared.token.Token.TheVariants as t;
ghost use Rattle.gib_types.specs.Tree.{whole, con, none, more};
ghost use Rattle.gib_syntax.specs.{declared.tree.Ident.{Ident}, declared.tree.Parameter.{Parameter}, declared.tree.TypeName.{TypeName}};
ghost use Rattle.gib_syntax.specs.Tree.{Expression, Var, Num, Op, Call, Make, Par, If, Tuple, LetSeveral, NoArgument, Argument, ProgramTree};
ghost use Rattle.gib_syntax.specs.{Results.{One, Several}, Forms.{WholeAt, VariableAt, DataAt, NoType, MoreTypes}};
ghost use Rattle.gib_syntax.specs.GenericTree.{GenericVar, GenericNum, GenericParen, GenericOp, GenericCall, GenericLet, GenericTuple, GenericNoArgument, GenericArgument};
ghost use Rattle.gib_syntax.specs.{Spelling.{levels, spell}, Meaning.{Gives, Stops, Deep, Trap, run}};
ghost use Rattle.gib_syntax.specs.declared.tree.TypeName.TheVariants as ty;
ghost use Rattle.gib_types.specs.declared.operator.Operator.TheVariants as o;

/// Expressions of these programs, and what the programs mean: `main (n : Int) : Int = (n + 1) ;`, and
/// `fun down (n : Int) : Int = if (n < 1) then 0 else down (n - 1) ; main (n : Int) : Int = down n ;`.
pub fn examples()
    // In `let m = ((n + 1)) in down m` the deeper part has three levels: parentheses, sum, and `n`.
    ensures levels { (p : Span) (down m n : Ident) → levels (GenericLet p (m ∷ []) (GenericParen p (GenericOp p o.Add (GenericVar n) (GenericNum p 1)))
        (GenericCall down NoType (GenericArgument (GenericVar m) GenericNoArgument))) ≡ 4 }
    // `(n + 1)` is five tokens.
    ensures spelling { (p : Span) (n : Ident) → spell (GenericOp p o.Add (GenericVar n) (GenericNum p 1)) []
        ≡ t.Sign s.Open ∷ t.Variable n.name ∷ t.Sign s.Plus ∷ t.Number 1 ∷ t.Sign s.Close ∷ [] }
    // `len [Int (List a)] n` is nine tokens.
    ensures types { (p : Span) (len list a n : Ident) → spell (GenericCall len (MoreTypes (WholeAt p) (MoreTypes (DataAt p list (MoreTypes (VariableAt a) NoType)) NoType)) (GenericArgument (GenericVar n) GenericNoArgument)) []
        ≡ t.Variable len.name ∷ t.Sign s.OpenBracket ∷ t.Sign s.Int ∷ t.Sign s.Open ∷ t.Constructor list.name ∷ t.Variable a.name ∷ t.Sign s.Close ∷ t.Sign s.CloseBracket ∷ t.Variable n.name ∷ [] }
    // The first program calls nothing, so it needs no depth; its sum wraps.
    ensures sum { (p : Span) →
        let n : Ident = record { name = record { 0 = 0 }; span = p } in
        let program : ProgramTree = record { datas = []; functions = []; main = record { parameter = record { name = n; ty = ty.Whole p }; result = ty.Whole p; body = Op p o.Add (Var n) (Num p 1) } } in
        (run program 0 (whole (pos 5)) ≡ Gives (whole (pos 6))) × (run program 0 (whole (pos 9223372036854775807)) ≡ Gives (whole (negsuc 9223372036854775807))) }
    // On 1 the calls of the second one stand two deep: a depth of 1 is too small, and one of 2 is enough.
    ensures depth { (p : Span) →
        let down : Ident = record { name = record { 0 = 0 }; span = p } in
        let n : Ident = record { name = record { 0 = 1 }; span = p } in
        let body = If p (Op p o.Less (Var n) (Num p 1)) (Num p 0) (Call down (Argument (Op p o.Subtract (Var n) (Num p 1)) NoArgument)) in
        let parameter : Parameter = record { name = n; ty = ty.Whole p } in
        let program : ProgramTree = record {
          datas = [];
          functions = record { name = down; parameters = parameter ∷ []; result = One (ty.Whole p); body = body } ∷ [];
          main = record { parameter = parameter; result = ty.Whole p; body = Call down (Argument (Var n) NoArgument) };
        } in
        (run program 1 (whole (pos 1)) ≡ Stops Deep) × (run program 2 (whole (pos 1)) ≡ Gives (whole (pos 0))) }
{}

/// What divisions mean: main's body stands at each program, and its parameter is `n`.
pub fn divisions()
    // `(n quot 2)` and `(n rem 2)` on -7: the quotient is cut towards zero, and what is left has the sign of -7.
    ensures towards_zero { (p : Span) →
        let n : Ident = record { name = record { 0 = 0 }; span = p } in
        let main : Expression → ProgramTree = λ e. record { datas = []; functions = []; main = record { parameter = record { name = n; ty = ty.Whole p }; result = ty.Whole p; body = e } } in
        (run (main (Op p o.Quotient (Var n) (Num p 2))) 0 (whole (negsuc 6)) ≡ Gives (whole (negsuc 2))) × (run (main (Op p o.Remainder (Var n) (Num p 2))) 0 (whole (negsuc 6)) ≡ Gives (whole (negsuc 0))) }
    // `(7 quot n)` and `(7 rem n)` on -2.
    ensures by_negative { (p : Span) →
        let n : Ident = record { name = record { 0 = 0 }; span = p } in
        let main : Expression → ProgramTree = λ e. record { datas = []; functions = []; main = record { parameter = record { name = n; ty = ty.Whole p }; result = ty.Whole p; body = e } } in
        (run (main (Op p o.Quotient (Num p 7) (Var n))) 0 (whole (negsuc 1)) ≡ Gives (whole (negsuc 2))) × (run (main (Op p o.Remainder (Num p 7) (Var n))) 0 (whole (negsuc 1)) ≡ Gives (whole (pos 1))) }
    // `(n quot (0 - 1))` and `(n rem (0 - 1))` on -2^63: the quotient wraps, and nothing is left.
    ensures least { (p : Span) →
        let n : Ident = record { name = record { 0 = 0 }; span = p } in
        let main : Expression → ProgramTree = λ e. record { datas = []; functions = []; main = record { parameter = record { name = n; ty = ty.Whole p }; result = ty.Whole p; body = e } } in
        let minus_one = Op p o.Subtract (Num p 0) (Num p 1) in
        (run (main (Op p o.Quotient (Var n) minus_one)) 0 (whole (negsuc 9223372036854775807)) ≡ Gives (whole (negsuc 9223372036854775807)))
        × (run (main (Op p o.Remainder (Var n) minus_one)) 0 (whole (negsuc 9223372036854775807)) ≡ Gives (whole (pos 0))) }
    // `(1 quot n)` and `(1 rem n)` on 0 have no value.
    ensures by_zero { (p : Span) →
        let n : Ident = record { name = record { 0 = 0 }; span = p } in
        let main : Expression → ProgramTree = λ e. record { datas = []; functions = []; main = record { parameter = record { name = n; ty = ty.Whole p }; result = ty.Whole p; body = e } } in
        (run (main (Op p o.Quotient (Num p 1) (Var n))) 0 (whole (pos 0)) ≡ Stops Trap) × (run (main (Op p o.Remainder (Num p 1) (Var n))) 0 (whole (pos 0)) ≡ Stops Trap) }
    // With no depth left, `f (1 quot n)` on 0 has the reason of its argument, and `f n` that of the call; and of two operands without a value the left one's counts.
    ensures first { (p : Span) (f : Ident) →
        let n : Ident = record { name = record { 0 = 0 }; span = p } in
        let main : Expression → ProgramTree = λ e. record { datas = []; functions = []; main = record { parameter = record { name = n; ty = ty.Whole p }; result = ty.Whole p; body = e } } in
        let division = Op p o.Quotient (Num p 1) (Var n) in
        let call = Call f (Argument (Var n) NoArgument) in
        (run (main (Call f (Argument division NoArgument))) 0 (whole (pos 0)) ≡ Stops Trap) × (run (main call) 0 (whole (pos 0)) ≡ Stops Deep)
        × (run (main (Op p o.Add division call)) 0 (whole (pos 0)) ≡ Stops Trap) × (run (main (Op p o.Add call division)) 0 (whole (pos 0)) ≡ Stops Deep) }
    // `let par a = div n and b = down 5 in (a + b)` with `fun div (n : Int) : Int = (1 quot n) ;` on 0 with a depth of 3: both sides have no value, and the left one's reason counts.
    ensures sides { (p : Span) →
        let down : Ident = record { name = record { 0 = 0 }; span = p } in
        let n : Ident = record { name = record { 0 = 1 }; span = p } in
        let div : Ident = record { name = record { 0 = 2 }; span = p } in
        let a : Ident = record { name = record { 0 = 3 }; span = p } in
        let b : Ident = record { name = record { 0 = 4 }; span = p } in
        let body = If p (Op p o.Less (Var n) (Num p 1)) (Num p 0) (Call down (Argument (Op p o.Subtract (Var n) (Num p 1)) NoArgument)) in
        let parameter : Parameter = record { name = n; ty = ty.Whole p } in
        let main : Expression → Expression → ProgramTree = λ left right. record {
          datas = [];
          functions = record { name = down; parameters = parameter ∷ []; result = One (ty.Whole p); body = body }
              ∷ record { name = div; parameters = parameter ∷ []; result = One (ty.Whole p); body = Op p o.Quotient (Num p 1) (Var n) } ∷ [];
          main = record { parameter = parameter; result = ty.Whole p; body = Par p a left b right (Op p o.Add (Var a) (Var b)) };
        } in
        let divided = Call div (Argument (Var n) NoArgument) in
        let deep = Call down (Argument (Num p 5) NoArgument) in
        (run (main divided deep) 3 (whole (pos 0)) ≡ Stops Trap) × (run (main deep divided) 3 (whole (pos 0)) ≡ Stops Deep) }
{}

/// Results of several parts, with `data Tree = Leaf Int | Node Tree Tree ;`.
pub fn parts()
    // `(a, b)` is five tokens, and its parts stand one level deeper.
    ensures spelling { (p : Span) (a b : Ident) →
        let both = GenericTuple p (GenericArgument (GenericVar a) (GenericArgument (GenericVar b) GenericNoArgument)) in
        (spell both [] ≡ t.Sign s.Open ∷ t.Variable a.name ∷ t.Sign s.Comma ∷ t.Variable b.name ∷ t.Sign s.Close ∷ []) × (levels both ≡ 2) }
    // `let (a, b) = f n in a` is eleven tokens.
    ensures binding { (p : Span) (a b f n : Ident) → spell (GenericLet p (a ∷ b ∷ []) (GenericCall f NoType (GenericArgument (GenericVar n) GenericNoArgument)) (GenericVar a)) []
        ≡ t.Sign s.Let ∷ t.Sign s.Open ∷ t.Variable a.name ∷ t.Sign s.Comma ∷ t.Variable b.name ∷ t.Sign s.Close ∷ t.Sign s.Equals ∷ t.Variable f.name ∷ t.Variable n.name ∷ t.Sign s.In ∷ t.Variable a.name ∷ [] }
    // `fun split (n : Int) : (Tree, Int) = (Leaf n, (n + 1)) ; main (n : Int) : Tree = let (t, m) = split n in Node t (Leaf m) ;` on 5.
    ensures split { (p : Span) →
        let tree : Ident = record { name = record { 0 = 0 }; span = p } in
        let leaf : Ident = record { name = record { 0 = 1 }; span = p } in
        let node : Ident = record { name = record { 0 = 2 }; span = p } in
        let split : Ident = record { name = record { 0 = 3 }; span = p } in
        let n : Ident = record { name = record { 0 = 4 }; span = p } in
        let u : Ident = record { name = record { 0 = 5 }; span = p } in
        let m : Ident = record { name = record { 0 = 6 }; span = p } in
        let parameter : Parameter = record { name = n; ty = ty.Whole p } in
        let program : ProgramTree = record {
          datas = record {
            name = tree;
            constructors = record { name = leaf; fields = ty.Whole p ∷ [] } ∷ record { name = node; fields = ty.Declared tree ∷ ty.Declared tree ∷ [] } ∷ [];
          } ∷ [];
          functions = record {
            name = split;
            parameters = parameter ∷ [];
            result = Several (ty.Declared tree ∷ ty.Whole p ∷ []);
            body = Tuple p (ty.Declared tree ∷ ty.Whole p ∷ []) (Argument (Make leaf (Argument (Var n) NoArgument)) (Argument (Op p o.Add (Var n) (Num p 1)) NoArgument));
          } ∷ [];
          main = record {
            parameter = parameter;
            result = ty.Declared tree;
            body = LetSeveral p (record { name = u; ty = ty.Declared tree } ∷ record { name = m; ty = ty.Whole p } ∷ []) (Call split (Argument (Var n) NoArgument))
                (Make node (Argument (Var u) (Argument (Make leaf (Argument (Var m) NoArgument)) NoArgument)));
          };
        } in
        run program 1 (whole (pos 5)) ≡ Gives (con 1 (more (con 0 (more (whole (pos 5)) none)) (more (con 0 (more (whole (pos 6)) none)) none))) }
    // `let (u, m) = (deep n, (1 quot n)) in m` on 0 with `fun deep (n : Int) : Tree = deep n ;`: the scalar part comes first; where `deep` gives an `Int`, it does.
    ensures order { (p : Span) →
        let tree : Ident = record { name = record { 0 = 0 }; span = p } in
        let leaf : Ident = record { name = record { 0 = 1 }; span = p } in
        let deep : Ident = record { name = record { 0 = 2 }; span = p } in
        let n : Ident = record { name = record { 0 = 3 }; span = p } in
        let u : Ident = record { name = record { 0 = 4 }; span = p } in
        let m : Ident = record { name = record { 0 = 5 }; span = p } in
        let parameter : Parameter = record { name = n; ty = ty.Whole p } in
        let call = Call deep (Argument (Var n) NoArgument) in
        let program : TypeName → ProgramTree = λ first. record {
          datas = record { name = tree; constructors = record { name = leaf; fields = ty.Whole p ∷ [] } ∷ [] } ∷ [];
          functions = record { name = deep; parameters = parameter ∷ []; result = One first; body = call } ∷ [];
          main = record {
            parameter = parameter;
            result = ty.Whole p;
            body = LetSeveral p (record { name = u; ty = first } ∷ record { name = m; ty = ty.Whole p } ∷ [])
                (Tuple p (first ∷ ty.Whole p ∷ []) (Argument call (Argument (Op p o.Quotient (Num p 1) (Var n)) NoArgument))) (Var m);
          };
        } in
        (run (program (ty.Declared tree)) 3 (whole (pos 0)) ≡ Stops Trap) × (run (program (ty.Whole p)) 3 (whole (pos 0)) ≡ Stops Deep) }
{}
