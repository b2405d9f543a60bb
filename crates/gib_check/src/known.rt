//! The names of written types.

ghost use Rattle.std.specs.Prelude.{◌≡◌, is_some};
ghost use Rattle.gib_syntax.specs.{Declarations.{place_of}, GenericTyping.{variable_numbers}};
ghost use Rattle.gib_syntax.specs.Words.{IsTypeRun, IsTypesRun, type_in, types_in, run_words, stack_of};
ghost use Rattle.gib_check.specs.{Answers.{Gives}, Knowing.{known_word, known_words}, NameViews.{generic_globals}};
ghost use Rattle.gib_check.specs.Faults as rule;
ghost use Rattle.gib_check.specs.FirstFault as first;

use crate::fault::{Kind, TypeFault};
use crate::named::Named;
use crate::rules::{as_many, broken};
use gib_base::Name;
use gib_syntax::{Ident, Run, Word};

/// Whether a name is one of these type variables.
fn is_variable(variables: &[Ident], name: Name) -> bool
    ensures { result ≡ is_some (place_of (variable_numbers variables.now) name.0) }
{
    let mut rest = variables;
    'variables: while let [variable, after @ ..] = rest {
        if variable.name.0 == name.0 {
            return true;
        }
        rest = after;
    }
    false
}

/// One word of a written type: its name, and how many arguments it has.
fn known_word(named: &Named, variables: &[Ident], word: Word) -> Result<(), TypeFault>
    ensures { Gives (λ _. tt {0}) result (known_word (generic_globals named.now).datas (variable_numbers variables.now) word) }
{
    match word {
        Word::Whole(_) => Ok(()),
        Word::Truth(_) => Ok(()),
        Word::Variable(x) => {
            if is_variable(variables, x.name) {
                Ok(())
            } else {
                Err(broken(Kind::Unknown, x.span))
            }
        }
        Word::Data(_, x, count) => match named.arity(x.name) {
            Some(arity) => as_many(count as usize, arity, x),
            None => Err(broken(Kind::Unknown, x.span)),
        },
    }
}

/// Words of written types, from left to right.
fn known_words(named: &Named, variables: &[Ident], words: &[Word]) -> Result<(), TypeFault>
    ensures { Gives (λ _. tt {0}) result (known_words (generic_globals named.now).datas (variable_numbers variables.now) words.now) }
{
    let mut rest = words;
    'words: while let [word, after @ ..] = rest {
        known_word(named, variables, *word)?;
        rest = after;
    }
    Ok(())
}

/// The names of a written type, from left to right.
pub fn known(named: &Named, variables: &[Ident], run: Run) -> Result<(), TypeFault>
    requires { IsTypeRun named.now.exprs.words run }
    ensures { Gives (λ _. tt {0}) result (rule.known (generic_globals named.now).datas (variable_numbers variables.now) (type_in named.now.exprs.words run)) }
{
    known_words(named, variables, named.words(run))
}

/// The names of written types, from left to right.
pub fn all_known(named: &Named, variables: &[Ident], run: Run) -> Result<(), TypeFault>
    requires { IsTypesRun named.now.exprs.words run }
    ensures all { Gives (λ _. tt {0}) result (rule.all_known (generic_globals named.now).datas (variable_numbers variables.now) (types_in named.now.exprs.words run)) }
    ensures each { Gives (λ _. tt {0}) result (first.check_types (generic_globals named.now).datas (variable_numbers variables.now) (stack_of (run_words named.now.exprs.words run))) }
{
    known_words(named, variables, named.words(run))
}
