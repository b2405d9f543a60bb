//! The search for copies: uses are asked for, one after another.

ghost use Rattle.std.specs.Prelude.{◌≡◌, ◌≤◌, Bool, Result, Some, None, length, true, false, ◌∷◌, IfOk};
ghost use Rattle.gib_types.specs.Types.{forms_at, AreBelow};
ghost use Rattle.gib_syntax.specs.{Declarations.{number_of}, Forms.{formed_all}, GenericTree.{GenericGlobals, place_named}, Words.{all_types, stack_of}};
ghost use Rattle.gib_mono.specs.{Copying.{owner_named}, Walk.{types_asks, writtens_asks}, Contexts.{forms}, Reading.{use_ask, AreUsesBelow}};
ghost use Rattle.gib_mono.specs.{Sources.{globals_in}, Searching.{AddsKey, AsksOne, AsksUses, Asks, GoesOn}};

use crate::context::Context;
use crate::found::{CopyKey, Found, MonoFault};
use crate::reading::Use;
use crate::source::Source;
use gib_base::{Memory, Span};
use gib_check::Stack;
use gib_syntax::{Ident, Word};
use std::alloc::{AllocError, Global};

/// The copies that were asked for, with the types that were met, and the first use that is over a limit: what comes
/// behind it is not asked for any more.
#[derive(Drop)]
pub struct Search {
    pub alloc: Global,
    pub context: Context,
    pub found: Found,
    pub limit: Option<Span>,
}

/// A copy is asked for whose types are short.
pub fn add(search: &mut Search, key: CopyKey, constructors: u32, span: Span) -> Result<(), Memory>
    requires few { constructors ≤ 200 }
    requires on { search.old.limit ≡ None }
    ensures { IfOk result (λ _. AddsKey search.old search.new key constructors span) }
{
    match search.found.add(key, constructors, span) {
        Ok(()) => Ok(()),
        Err(MonoFault::Memory) => Err(AllocError),
        Err(MonoFault::Limit(place)) => {
            search.limit = Some(place);
            Ok(())
        }
    }
}

/// Whether a use is over a limit: one before it was, or its types are long.
fn is_over(search: &mut Search, used: &Use) -> bool
    requires { AreBelow (length search.old.context.types) used.now.types.items }
    ensures over { result ≡ true → (g : GenericGlobals) (function : Bool) → AsksOne g search.old search.new (record { function = function; name = used.now.name.0; types = forms_at (forms search.old.context) used.now.types.items; span = used.now.span }) }
    ensures short { result ≡ false → GoesOn search.old search.new (forms_at (forms search.old.context) used.now.types.items) }
{
    if search.limit.is_some() {
        return true;
    }
    let met = search.context.types();
    let _count = met.len();
    if met.has_long(&used.types) {
        search.limit = Some(used.span);
        return true;
    }
    false
}

/// A declared type is used.
fn ask_type(search: &mut Search, source: &Source, used: Use) -> Result<(), Memory>
    requires { AreBelow (length search.old.context.types) used.types.items }
    ensures { IfOk result (λ _. AsksOne (globals_in source.now) search.old search.new (use_ask (forms search.old.context) used)) }
{
    if is_over(search, &used) {
        return Ok(());
    }
    let Some(place) = source.type_place(used.name) else {
        return Ok(());
    };
    let constructors = source.constructors_of(place);
    let key = CopyKey::Data(place, used.types);
    add(search, key, constructors, used.span)
}

/// A function is used.
fn ask_function(search: &mut Search, source: &Source, used: Use) -> Result<(), Memory>
    requires { AreBelow (length search.old.context.types) used.types.items }
    ensures { IfOk result (λ _. AsksOne (globals_in source.now) search.old search.new (record { function = true; name = used.name.0; types = forms_at (forms search.old.context) used.types.items; span = used.span })) }
{
    if is_over(search, &used) {
        return Ok(());
    }
    let Some(place) = source.function_place(used.name) else {
        return Ok(());
    };
    add(search, CopyKey::Function(place, used.types), 0, used.span)
}

/// Declared types are used, the first one on top.
fn ask_uses(search: &mut Search, source: &Source, mut uses: Stack<Use>) -> Result<(), Memory>
    requires { AreUsesBelow (length search.old.context.types) uses }
    ensures { IfOk result (λ _. AsksUses (globals_in source.now) search.old search.new uses) }
{
    'uses: while let Some(used) = uses.pop() {
        ask_type(search, source, used)?;
    }
    Ok(())
}

/// Types that words spell are used.
pub fn ask_types(search: &mut Search, source: &Source, words: &[Word]) -> Result<(), Memory>
    ensures { IfOk result (λ _. Asks (globals_in source.now) search.old search.new (λ m. types_asks m (stack_of words.now))) }
{
    let reading = search.context.read(search.alloc, words)?;
    ask_uses(search, source, reading.uses)
}

/// A function is called with these type arguments.
pub fn ask_call(
    search: &mut Search,
    source: &Source,
    f: Ident,
    words: &[Word],
) -> Result<(), Memory>
    ensures { IfOk result (λ _. Asks (globals_in source.now) search.old search.new (λ m. record { function = true; name = number_of f; types = formed_all m (all_types (stack_of words.now)); span = f.span } ∷ writtens_asks m (all_types (stack_of words.now)))) }
{
    let reading = search.context.read(search.alloc, words)?;
    let used = Use {
        name: f.name,
        types: reading.types.into_vec(),
        span: f.span,
    };
    ask_function(search, source, used)?;
    ask_uses(search, source, reading.uses)
}

/// A constructor is used with these type arguments, and with it its type.
pub fn ask_make(
    search: &mut Search,
    source: &Source,
    k: Ident,
    words: &[Word],
) -> Result<(), Memory>
    ensures { IfOk result (λ _. Asks (globals_in source.now) search.old search.new (λ m. record {
      function = false;
      name = owner_named
          (globals_in source.now).rows (place_named (globals_in source.now).rows (number_of k));
      types = formed_all m (all_types
          (stack_of words.now));
      span = k.span;
    } ∷ writtens_asks m (all_types (stack_of words.now)))) }
{
    let reading = search.context.read(search.alloc, words)?;
    let used = Use {
        name: source.owner(k.name),
        types: reading.types.into_vec(),
        span: k.span,
    };
    ask_type(search, source, used)?;
    ask_uses(search, source, reading.uses)
}
