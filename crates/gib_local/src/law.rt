//! Laws of the core that a text makes: functions that do nothing, whose contracts say what holds of every tree.

ghost use Rattle.std.specs.Prelude.{◌≡◌, ◌≤◌, ℕ, List, length, Ok, Err, None, Some};
ghost use Rattle.gib_core.specs.{Tree.{CoreTree}, Marking.{mark_core}, Met.{Setting, met}, Numbering.{AreNumbered}, TypesNamed.{SignaturesDeclared}};
ghost use Rattle.gib_core.specs.{Ordered.{AreNatural}, Rules.{AreBuilt, first_broken}, Meaning.{core_run}, Erasing.{erase_core}};
ghost use Rattle.gib_local.specs.{Counting.{broken_text, terms}, Local.{Local, answer}, Building.{Around, Passed, Termed, Program, build, build_core}};
ghost use Rattle.gib_local.specs.{Naming.{check_text}, Sample.{text, fields, made, boxed, core, filled}};
ghost use Rattle.gib_local_parse.specs.{Tree.{LocalTree}, Tree.{Line as Term}};
ghost use Rattle.gib_types.specs.{Table.{IsTable}, Tree.{Datum}};
ghost use Rattle.gib_syntax.specs.{Declarations.{table_of_program, input_type, output_type}, Spelling.{places_of}, Meaning.{run as mean}};
ghost use Rattle.gib_base.specs.{Lexed.{Lexed, IsLexedIn}, declared.token.Dialect.TheVariants.{Located}};

use gib_core::law::{built_is_ordered, erasing_keeps_the_meaning};
use gib_lex::laws::one_reading_in;

/// A tree makes one core at most.
pub fn one_core()
    ensures { (t : LocalTree) (c d : CoreTree) → build_core t ≡ Ok c → build_core t ≡ Ok d → c ≡ d }
{}

/// Bytes make one core at most.
pub fn one_core_of_bytes()
    ensures { (bytes : List ℕ) (c d : CoreTree) → Local bytes c → Local bytes d → c ≡ d }
{
    one_reading_in();
}

/// To a text that breaks no build rule its core is answered, with its pars marked that may run at the same time.
#[tactic(auto, using(crate::proofs::OneLocal::text_is_answered))]
pub fn texts_are_answered()
    ensures { (bytes : List ℕ) (core : CoreTree) (h : Local bytes core) → broken_text h.tree core ≡ None → answer (places_of h.lexed.spans) h.lexed.tokens ≡ Ok (mark_core core) }
{}

/// What is answered to the tokens of bytes is the core of a text of these bytes that breaks no build rule, with its pars marked that may run at the same time.
#[tactic(auto, using(crate::proofs::OneLocal::answered))]
pub fn answered_is_local()
    ensures { (bytes : List ℕ) (lexed : Lexed) (marked : CoreTree) → IsLexedIn Located bytes lexed → length bytes ≤ 1048576 → length lexed.names ≤ 65535
        → answer (places_of lexed.spans) lexed.tokens ≡ Ok marked
        → (core : CoreTree) × (h : Local bytes core) × (broken_text h.tree core ≡ None) × (marked ≡ mark_core core) × (h.lexed ≡ lexed) }
{}

/// The variables of a core that is made of a tree are numbered in the order of the text.
#[tactic(auto, using(crate::proofs::Numbered::made_numbered))]
pub fn made_is_numbered()
    ensures { (t : LocalTree) (core : CoreTree) → build_core t ≡ Ok core → AreNumbered core }
{}

/// A core that is made of a tree has no negative literal.
#[tactic(auto, using(crate::proofs::Naturals::made_natural))]
pub fn made_is_natural()
    ensures { (t : LocalTree) (core : CoreTree) → build_core t ≡ Ok core → AreNatural core }
{}

/// What is left of a text's core without its places is a program that means what the core means, where the core meets the
/// build rules.
pub fn made_means()
    ensures { (t : LocalTree) (core : CoreTree) → build_core t ≡ Ok core → IsTable core.table → AreBuilt core → (depth : ℕ) (v : Datum) → mean (erase_core t.datas core) depth v ≡ core_run core depth v }
{
    built_is_ordered();
    erasing_keeps_the_meaning();
}

/// What is left of a text's core without its places has the core's table, and reads and gives values of the types of its main.
pub fn made_has_types()
    ensures table { (t : LocalTree) (core : CoreTree) → build_core t ≡ Ok core → table_of_program (erase_core t.datas core) ≡ core.table }
    ensures types { (t : LocalTree) (core : CoreTree) → build_core t ≡ Ok core → IsTable core.table → SignaturesDeclared core
        → (input_type (erase_core t.datas core) ≡ core.main.parameter) × (output_type (erase_core t.datas core) ≡ core.main.result) }
{}

/// A line makes as many terms as are counted, whatever they are met with.
#[tactic(auto, using(crate::proofs::Counted::line_counts))]
pub fn terms_are_counted()
    ensures { (p : Program) (t : Term) (h : Around) (v : Passed) (r : Termed) (s : Setting) → build p t h v ≡ Ok r → length (met p.table s r.term) ≡ terms p t }
{}

/// What small texts make.
#[tactic(auto, using(crate::proofs::Samples::twice, crate::proofs::Samples::crossed, crate::proofs::Samples::elsewhere, crate::proofs::Samples::again, crate::proofs::Samples::named))]
pub fn examples()
    // The two fields of a head, each at its place.
    ensures twice { (build_core (text (fields (made 5 7 9))) ≡ Ok (core (filled 2 3))) × (first_broken (core (filled 2 3)) ≡ None) }
    // The fields exchanged: a core is made that breaks the fifth rule.
    ensures crossed { (build_core (text (fields (made 5 9 7))) ≡ Ok (core (filled 3 2))) × (first_broken (core (filled 3 2)) ≡ Some (5, 5)) }
    // A head is filled at another place than its own.
    ensures elsewhere { build_core (text (fields (made 6 7 9))) ≡ Err 59 }
    // Its names are in order.
    ensures named { check_text (text (fields (made 5 7 9))) ≡ Ok tt }
    // A region is used once.
    ensures again { build_core (text boxed) ≡ Err 46 }
{}
