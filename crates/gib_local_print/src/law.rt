//! Laws of the text of a core: functions that do nothing, whose contracts say what holds of every core.

ghost use Rattle.std.specs.Prelude.{◌≡◌, [], ℕ, List, Ok, Some};
ghost use Rattle.gib_core.specs.{Tree.{CoreTree, Term as CoreTerm}, Marking.{mark_core}, Reaching.{reach, reach_core}, Literals.{AllLiteralsFit}};
ghost use Rattle.gib_core.specs.{declared.atom.Ended.{Ended}, declared.atom.AccessMode.{AccessMode as Mode}, Numbering.{AreNumbered}};
ghost use Rattle.gib_core.specs.{TypesNamed.{SignaturesDeclared, AllTypesDeclared}, Ordered.{AreNatural, AreOrdered, IsFound}, Rules.{AreBuilt}};
ghost use Rattle.gib_core.specs.Inferring.{Scope, infer, infer_program};
ghost use Rattle.gib_local.specs.Building.{build_core, declared};
ghost use Rattle.gib_syntax.specs.{Tree.{DataTree}, Declarations.{table_of_program}, Fine.{IsFineProgram}, Typing.{Globals, IsTypedProgram}};
ghost use Rattle.gib_syntax.specs.Tree.{Expression, ProgramTree};
ghost use Rattle.gib_local_print.specs.{Printing.{Naming, Apart, local_of}, HasText.{HasCore, with_ends}};
ghost use Rattle.gib_local_print.specs.{LocatedText.{numbered, given, datas_of, located_tree, located_text}, HasShape.{IsWrite, AreShaped}};
ghost use Rattle.gib_local_print.specs.{HasForm.{FillsNext, HasForm, AreFormed, AreSingle}, Covered.{Covered, IsCovered}};
ghost use Rattle.std.specs.List.{AllByRecursion};
ghost use Rattle.gib_types.specs.Table.{Table, IsTable};
ghost use Rattle.gib_place.specs.Numbering.{place_core};

use gib_core::law::{built_fits, built_is_ordered, types_of_a_built_core_are_declared};

/// The text of a core makes that core, in which ends of values are told.
#[tactic(auto, using(crate::proofs::Returned::core_back))]
pub fn printed_core_is_made()
    ensures { (nm : Naming) (datas : List DataTree) (core : CoreTree) → Apart nm → HasCore nm datas core → build_core (local_of nm datas core) ≡ Ok (with_ends core) }
{}

/// The text of a core that meets the build rules makes that core, in which ends of values are told, where the core is numbered in the order of the text, has
/// no negative literal and no marks, gives and binds no several parts, fills a head without packed fields at once, and names declared types alone.
#[tactic(auto, using(crate::proofs::Having::built_is_made))]
pub fn built_core_is_made()
    ensures { (nm : Naming) (datas : List DataTree) (core : CoreTree) → Apart nm → IsTable core.table → table_of_program (declared (local_of nm datas core)) ≡ core.table
        → SignaturesDeclared core → AllTypesDeclared core → AreNumbered core → AreNatural core → AreShaped core → AllByRecursion (IsFound core.table) core.offsets → AreBuilt core
        → build_core (local_of nm datas core) ≡ Ok (with_ends core) }
{}

/// The names that a printed text gives are told apart.
#[tactic(auto, using(crate::proofs::NamedApart::numbered_apart))]
pub fn given_names_are_apart()
    ensures { (base : ℕ) → Apart (numbered base) }
{}

/// The data declarations of a table declare that table.
pub fn declarations_are_the_tables()
    ensures { (nm : Naming) (core : CoreTree) → IsTable core.table → table_of_program (declared (local_of nm (datas_of core.table) core)) ≡ core.table }
{}

/// The tree whose tokens are printed of a core makes that core, in which ends of values are told, where the core meets the build rules, is numbered in the
/// order of the text, has no negative literal and no marks, gives and binds no several parts, fills a head without packed fields at once, and names declared
/// types alone.
pub fn located_core_is_made()
    ensures text { (core : CoreTree) → HasCore given (datas_of core.table) core → build_core (located_tree core) ≡ Ok (with_ends core) }
    ensures built { (core : CoreTree) → IsTable core.table → SignaturesDeclared core → AllTypesDeclared core → AreNumbered core → AreNatural core → AreShaped core
        → AllByRecursion (IsFound core.table) core.offsets → AreBuilt core → build_core (located_tree core) ≡ Ok (with_ends core) }
{
    given_names_are_apart();
    declarations_are_the_tables();
    printed_core_is_made();
    built_core_is_made();
}

/// A core has the text that it has with its marks.
pub fn marks_have_no_text()
    ensures { (nm : Naming) (datas : List DataTree) (core : CoreTree) → local_of nm datas (mark_core core) ≡ local_of nm datas core }
{}

/// To reach the fields of arms keeps the form of a term: a head without packed fields is filled behind fields that it takes at most.
#[tactic(auto, using(crate::proofs::Shapes::reach_form))]
pub fn reaching_keeps_the_form()
    ensures { (mode : Mode) (tb : Table) (es : List Ended) (t : CoreTerm) → HasForm IsWrite tb t → HasForm FillsNext tb (reach mode tb es [] t) }
{}

/// The arms of typed programs are of declared constructors.
pub fn typed_is_covered()
    ensures { (p : ProgramTree) → IsFineProgram p → IsTypedProgram p → IsCovered p }
{}

/// The line of core terms that an expression becomes has the form, where its arms are of declared constructors.
#[tactic(auto, using(crate::proofs::Inferred::infer_shape))]
pub fn inferring_makes_the_form()
    ensures { (g : Globals) → IsTable g.table → (e : Expression) → Covered g e
        → (sc : Scope) (n : ℕ) → HasForm IsWrite g.table ((infer g e).line sc n).term }
{}

/// The core that the passes make of a program has the form, however its fields are reached.
pub fn passes_make_the_form()
    ensures { (mode : Mode) (p : ProgramTree) → IsTable (table_of_program p) → IsCovered p
        → AreFormed (reach_core mode (place_core (infer_program p))) }
{}

/// A core of the form that meets the build rules, in which no several parts are bound or given, has a text's form.
pub fn formed_is_shaped()
    ensures { (core : CoreTree) → IsTable core.table → AreNumbered core → AllLiteralsFit core → AreBuilt core
        → AreFormed core → AreSingle core → AreShaped core }
{
    built_fits();
}

/// A core whose variables are used behind where they are bound has no negative literal, and no pass makes one.
pub fn passes_make_no_negative_literal()
    ensures none { (core : CoreTree) → AreOrdered core → AreNatural core }
    ensures kept { (mode : Mode) (core : CoreTree) → AreNatural core → AreNatural (reach_core mode (place_core core)) }
{}

/// The constructors that store offsets in a core whose fields are reached are found by their names.
#[tactic(auto, using(crate::proofs::Offsetting::offsets_found))]
pub fn offsets_are_found()
    ensures { (mode : Mode) (core : CoreTree) → AreOrdered (reach_core mode core)
        → AllByRecursion (IsFound (reach_core mode core).table) (reach_core mode core).offsets }
{}

/// In a core that has a text no several parts are bound or given.
pub fn printed_core_is_single()
    ensures { (names : List (List ℕ)) (core : CoreTree) (text : List ℕ) → located_text names core ≡ Some text → AreSingle core }
{}

/// The tree whose tokens are printed of the core that the passes make of a typed program makes that core, in which ends of values
/// are told, where it has a text.
pub fn printed_text_makes_its_core()
    ensures { (mode : Mode) (p : ProgramTree) → IsTable (table_of_program p) → IsFineProgram p → IsTypedProgram p → AreOrdered (infer_program p)
        → (core : CoreTree) → core ≡ reach_core mode (place_core (infer_program p))
        → SignaturesDeclared core → AllLiteralsFit core → AreNumbered core → AreBuilt core
        → (names : List (List ℕ)) (text : List ℕ) → located_text names core ≡ Some text → build_core (located_tree core) ≡ Ok (with_ends core) }
{
    types_of_a_built_core_are_declared();
    built_is_ordered();
    typed_is_covered();
    passes_make_the_form();
    formed_is_shaped();
    passes_make_no_negative_literal();
    offsets_are_found();
    printed_core_is_single();
    located_core_is_made();
}
