//! What stands one after another.

ghost use Rattle.std.specs.Prelude.{◌≡◌, [], ◌∷◌, map, IfOk};
ghost use Rattle.std.specs.List.{AllByRecursion};
ghost use Rattle.gib_base.specs.declared.token.Sign.{Sign as Mark};
ghost use Rattle.gib_syntax.specs.{GenericArena.{Arena}, Spelling.{Places, places_of}};
ghost use Rattle.gib_parse.specs.{Reading.{Reader, is_sign, many}, Parsing.{Gives, Stands, AllStand, Takes, Stays, with_front}};

use gib_base::token::{Sign, Token};
use gib_base::{Memory, Span};
use gib_reads::Stop;
use gib_reads::phrases::begins;
use gib_syntax::GenericExprs;
use std::alloc::Global;

/// What stands one after another, as long as a sign is next.
pub(crate) trait Repeated: Sized + Drop {
    // What it is in the grammar, and how it is read.
    ghost Tree: { Type 0 };

    ghost mark: { Mark };

    ghost reader: { Places → Reader Tree };
    // What it is in an arena, and whether all of it stands there.
    ghost tree: { Arena → Self → Tree };

    ghost inside: { Arena → Self → Type 0 };

    /// The sign that each begins with.
    fn sign() -> Sign
        ensures { result ≡ mark };

    /// The next one.
    fn read<'a>(
        alloc: Global,
        spans: &[Span],
        exprs: &mut GenericExprs,
        tokens: &'a [Token],
    ) -> Result<(Self, &'a [Token]), Stop>
        ensures kept { IfOk result (λ x. Stands inside exprs.old exprs.new x.0) }
        ensures read { Gives (λ x. (tree exprs.new x.0, x.1.now)) result (reader (places_of spans.now) tokens.now) };

    /// Reading one takes tokens, and what is read stays as more is.
    fn laws()
        ensures takes { (at : Places) → Takes (reader at) }
        ensures stays { Stays inside tree };
}

/// As many as there are, behind others.
fn more<'a, T: Repeated>(
    alloc: Global,
    spans: &[Span],
    exprs: &mut GenericExprs,
    first: Vec<T>,
    tokens: &'a [Token],
) -> Result<(Vec<T>, &'a [Token]), Stop>
    requires { AllByRecursion (T.inside exprs.old) first.items }
    ensures kept { IfOk result (λ x. AllStand T.inside exprs.old exprs.new x.0.items) }
    ensures read { Gives (λ x. (map (T.tree exprs.new) x.0.items, x.1.now)) result (with_front (map (T.tree exprs.old) first.items) (many (is_sign T.mark) (T.reader (places_of spans.now)) tokens.now)) }
{
    T::laws();
    let mut found = first;
    let mut rest = tokens;
    'items: while begins(T::sign(), rest) {
        let (next, after) = T::read(alloc, spans, exprs, rest)?;
        found.push(next)?;
        rest = after;
    }
    Ok((found, rest))
}

/// This one, and as many as there are behind it.
pub(crate) fn and_more<'a, T: Repeated>(
    alloc: Global,
    spans: &[Span],
    exprs: &mut GenericExprs,
    first: T,
    tokens: &'a [Token],
) -> Result<(Vec<T>, &'a [Token]), Stop>
    requires { T.inside exprs.old first }
    ensures kept { IfOk result (λ x. AllStand T.inside exprs.old exprs.new x.0.items) }
    ensures read { Gives (λ x. (map (T.tree exprs.new) x.0.items, x.1.now)) result (with_front (T.tree exprs.old first ∷ []) (many (is_sign T.mark) (T.reader (places_of spans.now)) tokens.now)) }
{
    let mut found = Vec::new(alloc);
    found.push(first)?;
    more(alloc, spans, exprs, found, tokens)
}

/// As many as there are.
pub(crate) fn all<'a, T: Repeated>(
    alloc: Global,
    spans: &[Span],
    exprs: &mut GenericExprs,
    tokens: &'a [Token],
) -> Result<(Vec<T>, &'a [Token]), Stop>
    ensures kept { IfOk result (λ x. AllStand T.inside exprs.old exprs.new x.0.items) }
    ensures read { Gives (λ x. (map (T.tree exprs.new) x.0.items, x.1.now)) result (many (is_sign T.mark) (T.reader (places_of spans.now)) tokens.now) }
{
    more(alloc, spans, exprs, Vec::new(alloc), tokens)
}

/// Two of a kind and further ones.
pub(crate) fn two_and<T: Copy>(
    alloc: Global,
    first: T,
    second: T,
    further: &[T],
) -> Result<Vec<T>, Memory>
    ensures { IfOk result (λ found. found.items ≡ first ∷ second ∷ further.now) }
{
    let mut found = Vec::new(alloc);
    found.push(first)?;
    found.push(second)?;
    found.extend_from_slice(further)?;
    Ok(found)
}
