//! Laws of the kinds of faults: where each rule is broken, with which kind and at which place. In which order the
//! rules are looked at, `first_fault` says.

ghost use Rattle.std.specs.Prelude.{◌≡◌, ◌≤◌, ℕ, List, ◌∷◌, None, Some, Ok, Err, length, slice_get};
ghost use Rattle.gib_base.specs.declared.Span.{Span};
ghost use Rattle.gib_types.specs.Form.{Form, Forms, DataForm};
ghost use Rattle.gib_syntax.specs.{declared.tree.Ident.{Ident}, Results.{Results, Several}, Declarations.{number_of, place_of}};
ghost use Rattle.gib_syntax.specs.Forms.{WrittenType, WrittenTypes, VariableAt, DataAt, written_place};
ghost use Rattle.gib_syntax.specs.GenericTree.{GenericDataTree, GenericFunctionTree, GenericRow, data_named, generic_named};
ghost use Rattle.gib_syntax.specs.GenericTyping.{FormScope, form_in, CoversType};
ghost use Rattle.gib_check.specs.{declared.counts.Counts.{Counts}, declared.standing.Standing.{Standing}};
ghost use Rattle.gib_check.specs.{declared.standing.Standing.TheVariants.{NoTuple, TupleOf}, Kinds.{fault, IsBrokenWhere}};
ghost use Rattle.gib_check.specs.declared.fault.Kind.TheVariants as kind;
ghost use Rattle.gib_check.specs.Faults as rule;
ghost use Rattle.gib_check.specs.FirstFault as first;

/// `Unknown`: a variable that is not in scope, a function, a constructor or a type that is not declared, a type variable
/// that the declaration has not; at the name.
pub fn unknown()
    ensures variable { (scope : FormScope) (x : Ident) → IsBrokenWhere (rule.variable scope x) (form_in scope (number_of x) ≡ None) (fault kind.Unknown x.span) }
    ensures function { (functions : List GenericFunctionTree) (f : Ident) → IsBrokenWhere (rule.function functions f) (generic_named functions (number_of f) ≡ None) (fault kind.Unknown f.span) }
    ensures constructor { (rows : List GenericRow) (k : Ident) → IsBrokenWhere (rule.constructor rows k) (rule.row_named rows (number_of k) ≡ None) (fault kind.Unknown k.span) }
    ensures type_variable { (datas : List GenericDataTree) (vars : List ℕ) (x : Ident) → IsBrokenWhere (rule.known datas vars (VariableAt x)) (place_of vars (number_of x) ≡ None) (fault kind.Unknown x.span) }
    ensures declared { (datas : List GenericDataTree) (vars : List ℕ) (p : Span) (x : Ident) (ws : WrittenTypes) → data_named datas (number_of x) ≡ None → rule.known datas vars (DataAt p x ws) ≡ Err (fault kind.Unknown x.span) }
{}

/// `Twice`: a name that is declared already, a type variable that is bound already, a variable that is in scope already;
/// at the later name.
pub fn twice()
    ensures name { (names : List ℕ) (x : Ident) → IsBrokenWhere (first.new_name names x) ((i : ℕ) × (place_of names (number_of x) ≡ Some i)) (fault kind.Twice x.span) }
    ensures variable { (scope : FormScope) (x : Ident) → IsBrokenWhere (rule.unbound scope x) ((t : Form) × (form_in scope (number_of x) ≡ Some t)) (fault kind.Twice x.span) }
{}

/// `Shape`: a part of another type than is due, and one of several parts where one thing is, at the part; a tuple where none may
/// stand, at the tuple; a `case` of a variable whose type is not declared, at the variable.
pub fn shape()
    ensures part { (due : Results Form) (part : rule.FormPart) → IsBrokenWhere (rule.wanted due part) (part.ty ≡ due → ⊥) (fault kind.Shape part.place) }
    ensures single { (part : rule.FormPart) → IsBrokenWhere (rule.single part) ((ts : List Form) × (part.ty ≡ Several ts)) (fault kind.Shape part.place) }
    ensures tuple { (st : Standing) (n : ℕ) (at : Span) → st ≡ NoTuple → rule.may_stand st n at ≡ Err (fault kind.Shape at) }
    ensures case { (t : Form) (x : Ident) → IsBrokenWhere (rule.declared_type t x) ((i : ℕ) (ts : Forms) → t ≡ DataForm i ts → ⊥) (fault kind.Shape x.span) }
{}

/// `Arms`: arms that are not one for each constructor of the type, at the `case`.
pub fn arms()
    ensures { (rows : List GenericRow) (ty : ℕ) (names : List ℕ) (at : Span) → IsBrokenWhere (rule.covered rows ty names at) (CoversType rows ty names → ⊥) (fault kind.Arms at) }
{}

/// `Count`: more or fewer arguments, type arguments, variables of an arm, or variables for parts, than are due, at the name; a
/// tuple of more or fewer parts than the function gives, at the tuple.
pub fn count()
    ensures tuple { (due n : ℕ) (at : Span) → IsBrokenWhere (rule.may_stand (TupleOf due) n at) (n ≡ due → ⊥) (fault kind.Count at) }
    ensures number { (n due : ℕ) (x : Ident) → IsBrokenWhere (rule.as_many n due x) (n ≡ due → ⊥) (fault kind.Count x.span) }
{}

/// `Limit`: a type variable, constructor, parameter or function behind so many, a ninth field, a ninth variable for parts or
/// type of a part, a 2,001st expression, a 201st variable.
pub fn limit()
    ensures name { (most : ℕ) (names : List ℕ) (x : Ident) → IsBrokenWhere (first.fewer most names x) (most ≤ length names) (fault kind.Limit x.span) }
    ensures field { (fields : List WrittenType) (ninth : WrittenType) → slice_get fields 8 ≡ Some ninth → first.few_fields fields ≡ Err (fault kind.Limit (written_place ninth)) }
    ensures eight { (fields : List WrittenType) → slice_get fields 8 ≡ None → first.few_fields fields ≡ Ok (tt {0}) }
    ensures part { (i : ℕ) (scope : FormScope) (n : Counts) (x : Ident) → form_in scope (number_of x) ≡ None → 8 ≤ i → rule.part_variable i scope n x ≡ Err (fault kind.Limit x.span) }
    ensures result { (datas : List GenericDataTree) (vars : List ℕ) (i : ℕ) (w : WrittenType) (ws : List WrittenType) → 8 ≤ i → first.check_parts datas vars i (w ∷ ws) ≡ Err (fault kind.Limit (written_place w)) }
    ensures expression { (n : Counts) (at : Span) → IsBrokenWhere (rule.one_more n at) (2000 ≤ n.expressions) (fault kind.Limit at) }
    ensures variable { (n : Counts) (x : Ident) → IsBrokenWhere (rule.counted n x) (200 ≤ n.variables) (fault kind.Limit x.span) }
{}
