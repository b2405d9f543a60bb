//! Laws of cores: functions whose contracts are the laws.

ghost use Rattle.std.specs.Prelude.{◌≡◌, ◌<◌, ◌≤◌, ◌^◌, ◌↔◌, ℕ, List, None, Some, length};
ghost use Rattle.gib_types.specs.{Table.{Table, IsTable}, Tree.{Datum}};
ghost use Rattle.gib_syntax.specs.{Tree.{DataTree}, Declarations.{table_of_program}, Meaning.{Environment, calls, run}};
ghost use Rattle.gib_core.specs.{Tree.{Bind, FunctionTerm, Term, prepend, CoreTree}, Meaning.{Calls, function_at, run_all, core_calls, core_run}};
ghost use Rattle.gib_core.specs.{declared.atom.AccessMode.{AccessMode as Mode}, Erasing.{erase_core}, Reaching.{reach_core}, Rules.{AreBuilt, first_broken}};
ghost use Rattle.gib_core.specs.{Reachable.{AreReachable}, Numbering.{AreNumbered}, Ordered.{AreOrdered, AreNatural}, Literals.{AllLiteralsFit}};
ghost use Rattle.gib_core.specs.{Fits.{AllFit, EachFits}, TypesNamed.{AllTypesDeclared, SignaturesDeclared}};
ghost use Rattle.gib_core.specs.{Cost.{Costs, IsAtMost, plus, cost_from, cost, cost_all, run_cost}, Low.{IsLowered, HasCode, HasMain, function_number}};
ghost use Rattle.gib_code.specs.Program.{CodeTree, Runs};

/// A core meets the build rules exactly where none is the first broken one.
pub fn built_is_unbroken()
    ensures { (core : CoreTree) → (first_broken core ≡ None) ↔ AreBuilt core }
{}

/// What is left of a core without its places means what the core means, each call, with any depth left, and main; so it
/// is where the data declarations are those of its table, and variables are bound in rising order.
pub fn erasing_keeps_the_meaning()
    ensures calls { (datas : List DataTree) (core : CoreTree) → table_of_program (erase_core datas core) ≡ core.table → AreOrdered core → (n : ℕ) → calls (erase_core datas core) n ≡ core_calls core n }
    ensures run { (datas : List DataTree) (core : CoreTree) → table_of_program (erase_core datas core) ≡ core.table → AreOrdered core → (depth : ℕ) (v : Datum) → run (erase_core datas core) depth v ≡ core_run core depth v }
{}

/// A core whose fields only have to be reached meets the build rules once they are reached.
pub fn reaching_makes_built()
    ensures { (mode : Mode) (core : CoreTree) → AreReachable core → AreBuilt (reach_core mode core) }
{}

/// A core that meets the build rules, is numbered in the order of the text, and has no negative literal, binds its variables
/// in rising order. So what is left of it without its places means what it means.
#[tactic(auto, using(crate::proofs::Orders::built_ordered))]
pub fn built_is_ordered()
    ensures { (core : CoreTree) → IsTable core.table → AreNumbered core → AreNatural core → AreBuilt core → AreOrdered core }
{}

/// Each body of a core fits that meets the build rules, is numbered in the order of the text, and has literals of 64 bits.
#[tactic(auto, using(crate::proofs::Bodies::built_fits, crate::proofs::Bodies::each_fits))]
pub fn built_fits()
    ensures named { (core : CoreTree) → IsTable core.table → AreNumbered core → AllLiteralsFit core → AreBuilt core → AllFit core }
    ensures each { (core : CoreTree) → IsTable core.table → AreNumbered core → AllLiteralsFit core → AreBuilt core → EachFits core }
{}

/// In a core that meets the build rules, is numbered in the order of the text, and has literals of 64 bits, each type that a
/// variable is bound with is declared, where the types of functions and of main are.
#[tactic(auto, using(crate::proofs::TypesKnown::types_known))]
pub fn types_of_a_built_core_are_declared()
    ensures { (core : CoreTree) → IsTable core.table → SignaturesDeclared core → AreNumbered core → AllLiteralsFit core → AreBuilt core → AllTypesDeclared core }
{}

/// A machine can run the code of a core of which each body fits, if it has fewer than 2^32 instructions.
#[tactic(auto, using(crate::proofs::Fine::code_runs))]
pub fn code_that_fits_can_be_run()
    ensures { (core : CoreTree) (code : CodeTree) → IsLowered core code → AllFit core → EachFits core → length code.instructions < 2 ^ 32 → Runs code }
{}

/// Each function of a core has its code at the entry of its number, and main has its at the last entry.
#[tactic(auto, using(crate::proofs::FunctionCode::function_has_code, crate::proofs::FunctionCode::main_has_code))]
pub fn functions_have_their_code()
    ensures main { (core : CoreTree) (code : CodeTree) → IsLowered core code → HasMain core code code.functions (length core.functions) }
    ensures functions { (core : CoreTree) (code : CodeTree) (f : ℕ) (g : FunctionTerm) → IsLowered core code → function_at core.functions f ≡ Some g → HasCode core code code.functions (function_number core.functions f) g }
{}

/// A core has one code.
#[tactic(auto, using(crate::proofs::OneCode::one_code))]
pub fn a_core_has_one_code()
    ensures { (core : CoreTree) (code other : CodeTree) → IsLowered core code → IsLowered core other → code ≡ other }
{}

/// What a run costs does not fall with the levels of forks that it may nest.
pub fn costs_rise_with_the_forks()
    ensures { (core : CoreTree) (depth fewer forks : ℕ) (v : Datum) → fewer ≤ forks → IsAtMost (run_cost core depth fewer v) (run_cost core depth forks v) }
{}

/// A line costs what its bindings cost and, where they come to an environment, what follows.
pub fn costs_add_up()
    ensures { (tb : Table) (call : Calls) (costs : Costs) (n : ℕ) (bs : List Bind) (t : Term) (env : Environment)
        → cost tb call costs n (prepend bs t) env ≡ plus (cost_all tb call costs n bs env) (cost_from (run_all tb call bs env) (λ e. cost tb call costs n t e)) }
{}
