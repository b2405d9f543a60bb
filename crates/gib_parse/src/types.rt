//! Types: words, read from left to right with a stack of what stands open, since types nest without a bound.

ghost use Rattle.std.specs.Prelude.{◌≡◌, ◌<◌, [], ◌∷◌, length, IfOk, IfErr};
ghost use Rattle.gib_syntax.specs.{Forms.{DataAt, NoType}, GenericParts.{results_in}, Spelling.{places_of}, Words.{stack_of, run_words, types_in, type_in}};
ghost use Rattle.gib_parse.specs.Reading.{then_at, inside, type_at, bracket_at, type_arguments_at, next_type_at, further_types_at, one_type_at, declared_at, open_results_at, results_at, starts_type, next_is, many};
ghost use Rattle.gib_parse.specs.OpenTypes.{counted};
ghost use Rattle.gib_parse.specs.Parsing.{Fails, Gives, Follows, FailsHere, ReadsWords, ReadsAllWords, Stands, IsTypeIn, AreTypesIn, AreResultsIn};

use crate::repeated::{Repeated, all, two_and};
use gib_base::token::{Sign, Token};
use gib_base::{Memory, Span};
use gib_reads::Stop;
use gib_reads::phrases::{named, span_at, want};
use gib_syntax::{GenericExprs, Ident, ResultRuns, Run, Word};
use std::alloc::Global;
use std::marker::Model;

/// What stands next in a type.
#[derive(Clone, Copy)]
pub(crate) enum Next {
    /// A word that is a type by itself.
    Word(Word),
    /// A parenthesis, whose span this is, and the name of a declared type.
    Open(Span, Ident),
    /// A closing parenthesis.
    Close,
}

/// A declared type in parentheses that is not closed: where its word stands among the words, the span of its
/// parenthesis, its name, and how many arguments it has so far.
#[derive(Clone, Copy)]
pub(crate) struct OpenType {
    place: usize,
    span: Span,
    name: Ident,
    arguments: u32,
}

/// Declared types inside one another that are not closed, the innermost first.
#[derive(Drop)]
struct OpenTypes {
    /// The innermost last.
    types: Vec<OpenType>,
}

impl Model for OpenTypes {
    ghost use Rattle.std.specs.Prelude.{List, reverse};
    ghost use Rattle.gib_parse.specs.declared.types.OpenType.{OpenType as Item};

    ghost Value = { List Item };

    ghost view = { λ o. reverse o.types.items };
}

impl OpenTypes {
    ghost use Rattle.std.specs.Prelude.{◌≡◌, [], ◌∷◌, OnOk, OnErr, IfSome, IfNone};

    fn new(alloc: Global) -> OpenTypes
        ensures { result ≡ [] }
    {
        OpenTypes {
            types: Vec::new(alloc),
        }
    }

    /// One more, inside all others.
    fn put(&mut self, ty: OpenType) -> Result<(), Memory>
        ensures more { OnOk result (self.new ≡ ty ∷ self.old) }
        ensures same { OnErr result (self.new ≡ self.old) }
    {
        self.types.push(ty)?;
        Ok(())
    }

    /// The innermost one, taken away.
    fn pop(&mut self) -> Option<OpenType>
        ensures some { IfSome result (λ ty. self.old ≡ ty ∷ self.new) }
        ensures none { IfNone result ((self.old ≡ []) × (self.new ≡ [])) }
    {
        self.types.pop()
    }
}

/// A parenthesis and the name behind it.
fn opening<'a>(
    spans: &[Span],
    tokens: &'a [Token],
    rest: &'a [Token],
) -> Result<(Next, &'a [Token]), Stop>
    requires { tokens.now ≡ Token.Sign Sign.Open ∷ rest.now }
    ensures follows { IfOk result (λ x. Follows (places_of spans.now) tokens.now x.0 x.1.now) }
    ensures shorter { IfOk result (λ x. length x.1.now < length tokens.now) }
    ensures fails { IfErr result (λ e. FailsHere (places_of spans.now) tokens.now e) }
{
    match rest {
        [Token::Constructor(name), after @ ..] => {
            let ident = named(spans, *name, rest.len());
            Ok((Next::Open(span_at(spans, tokens.len()), ident), after))
        }
        _ => Err(Stop::At(rest.len())),
    }
}

/// What stands next in a type, by the first token.
fn next_of<'a>(
    spans: &[Span],
    tokens: &'a [Token],
    first: Token,
    rest: &'a [Token],
) -> Result<(Next, &'a [Token]), Stop>
    requires { tokens.now ≡ first ∷ rest.now }
    ensures follows { IfOk result (λ x. Follows (places_of spans.now) tokens.now x.0 x.1.now) }
    ensures shorter { IfOk result (λ x. length x.1.now < length tokens.now) }
    ensures fails { IfErr result (λ e. FailsHere (places_of spans.now) tokens.now e) }
{
    let span = span_at(spans, tokens.len());
    match first {
        Token::Constructor(name) => {
            let ident = named(spans, name, tokens.len());
            Ok((Next::Word(Word::Data(span, ident, 0)), rest))
        }
        Token::Variable(name) => {
            let ident = named(spans, name, tokens.len());
            Ok((Next::Word(Word::Variable(ident)), rest))
        }
        Token::Number(_) => Err(Stop::At(tokens.len())),
        Token::Sign(sign) => match sign {
            Sign::Int => Ok((Next::Word(Word::Whole(span)), rest)),
            Sign::Bool => Ok((Next::Word(Word::Truth(span)), rest)),
            Sign::Open => opening(spans, tokens, rest),
            Sign::Close => Ok((Next::Close, rest)),
            _ => Err(Stop::At(tokens.len())),
        },
    }
}

/// What stands next in a type.
fn next_in_type<'a>(spans: &[Span], tokens: &'a [Token]) -> Result<(Next, &'a [Token]), Stop>
    ensures follows { IfOk result (λ x. Follows (places_of spans.now) tokens.now x.0 x.1.now) }
    ensures shorter { IfOk result (λ x. length x.1.now < length tokens.now) }
    ensures fails { IfErr result (λ e. FailsHere (places_of spans.now) tokens.now e) }
{
    match tokens {
        [] => Err(Stop::At(0)),
        [first, rest @ ..] => next_of(spans, tokens, *first, rest),
    }
}

/// An open type with one argument more.
fn counted(ty: OpenType) -> Result<OpenType, Stop>
    ensures more { IfOk result (λ more. more ≡ counted ty) }
    ensures memory { IfErr result (λ e. e ≡ Stop.Memory) }
{
    let Some(arguments) = ty.arguments.checked_add(1) else {
        return Err(Stop::Memory);
    };
    Ok(OpenType { arguments, ..ty })
}

/// A type in parentheses as far as it is read: all words, the innermost type that is open, and those round it.
#[derive(Drop)]
struct TypeReader {
    words: Vec<Word>,
    here: OpenType,
    outer: OpenTypes,
}

impl Model for TypeReader {
    ghost use Rattle.gib_parse.specs.OpenTypes.{TypeState, AreThere};

    ghost Value = { TypeState };

    ghost view = { λ r. record { words = r.words.items; here = r.here; outer = r.outer } };

    ghost invariant = { λ r. AreThere (record { words = r.words.items; here = r.here; outer = r.outer }) };
}

impl TypeReader {
    ghost use Rattle.std.specs.Prelude.{◌≡◌, [], ◌∷◌, ◌++◌, false, List, length, IfOk, IfErr};
    ghost use Rattle.gib_base.specs.declared.token.Token.{Token as Piece};
    ghost use Rattle.gib_syntax.specs.{Forms.{WrittenType}, Spelling.{Places, places_of}, declared.written.Word.{Word as TheWord}};
    ghost use Rattle.gib_parse.specs.{Reading.{Read}, Parsing.{Fails, Follows, ReadsWords}, OpenTypes.{TypeState, open_type, counted, InType, AfterToken}};

    /// A declared type begins.
    fn new(alloc: Global, words: Vec<Word>, span: Span, name: Ident) -> Result<TypeReader, Stop>
        ensures made { IfOk result (λ r. r ≡ record { words = words.items ++ Word.Data span name 0 ∷ []; here = open_type words.items span name; outer = [] }) }
        ensures memory { IfErr result (λ e. e ≡ Stop.Memory) }
    {
        let mut words = words;
        let place = words.len();
        words.push(Word::Data(span, name, 0))?;
        Ok(TypeReader {
            words,
            here: OpenType {
                place,
                span,
                name,
                arguments: 0,
            },
            outer: OpenTypes::new(alloc),
        })
    }

    /// An argument of one word.
    #[tactic(auto, using(crate::proofs::Opening::there_word, crate::proofs::Opening::there_more))]
    fn word(&mut self, word: Word) -> Result<bool, Stop>
        ensures taken { IfOk result (λ closed. (closed ≡ false) × (self.new ≡ record { words = self.old.words ++ word ∷ []; here = counted self.old.here; outer = self.old.outer })) }
        ensures memory { IfErr result (λ e. e ≡ Stop.Memory) }
    {
        let here = counted(self.here)?;
        self.words.push(word)?;
        self.here = here;
        Ok(false)
    }

    /// An argument that opens.
    #[tactic(auto, using(crate::proofs::Opening::there_within, crate::proofs::Opening::there_kept, crate::proofs::Opening::there_more))]
    fn open(&mut self, span: Span, name: Ident) -> Result<bool, Stop>
        ensures taken { IfOk result (λ closed. (closed ≡ false)
            × (self.new ≡ record { words = self.old.words ++ Word.Data span name 0 ∷ []; here = open_type self.old.words span name; outer = self.old.here ∷ self.old.outer })) }
        ensures memory { IfErr result (λ e. e ≡ Stop.Memory) }
    {
        let place = self.words.len();
        self.words.push(Word::Data(span, name, 0))?;
        self.outer.put(self.here)?;
        self.here = OpenType {
            place,
            span,
            name,
            arguments: 0,
        };
        Ok(false)
    }

    /// The innermost type is closed, which needs an argument: whether it was the outermost one.
    fn close(&mut self, left: usize) -> Result<bool, Stop>
        ensures goes { (at : Places) (all : Read WrittenType) (base : List TheWord) (ts rest : List Piece) → ts ≡ Token.Sign Sign.Close ∷ rest → InType at all base self.old ts
            → IfOk result (λ closed. AfterToken closed at all base self.new rest) }
        ensures fails { (at : Places) (all : Read WrittenType) (base : List TheWord) (ts rest : List Piece) → ts ≡ Token.Sign Sign.Close ∷ rest → InType at all base self.old ts → length ts ≡ left
            → IfErr result (λ e. Fails e all) }
    {
        let here = self.here;
        if here.arguments == 0 {
            return Err(Stop::At(left));
        }
        self.words[here.place] = Word::Data(here.span, here.name, here.arguments);
        let Some(above) = self.outer.pop() else {
            return Ok(true);
        };
        self.here = counted(above)?;
        Ok(false)
    }

    /// What stands next is taken: whether the outermost type was closed by it.
    fn take(&mut self, next: Next, left: usize) -> Result<bool, Stop>
        ensures goes { (at : Places) (all : Read WrittenType) (base : List TheWord) (ts rest : List Piece) → Follows at ts next rest → InType at all base self.old ts
            → IfOk result (λ closed. AfterToken closed at all base self.new rest) }
        ensures fails { (at : Places) (all : Read WrittenType) (base : List TheWord) (ts rest : List Piece) → Follows at ts next rest → InType at all base self.old ts → length ts ≡ left
            → IfErr result (λ e. Fails e all) }
    {
        match next {
            Next::Word(word) => self.word(word),
            Next::Open(span, name) => self.open(span, name),
            Next::Close => self.close(left),
        }
    }

    /// All is taken up to the closing parenthesis of the outermost type.
    fn read_on<'a>(&mut self, spans: &[Span], tokens: &'a [Token]) -> Result<&'a [Token], Stop>
        ensures goes { (all : Read WrittenType) (base : List TheWord) → InType (places_of spans.now) all base self.old tokens.now
            → IfOk result (λ rest. ReadsWords all base self.new.words rest.now) }
        ensures fails { (all : Read WrittenType) (base : List TheWord) → InType (places_of spans.now) all base self.old tokens.now → IfErr result (λ e. Fails e all) }
    {
        let mut rest = tokens;
        let mut closed = false;
        'tokens: while !closed {
            let (next, after) = next_in_type(spans, rest)?;
            closed = self.take(next, rest.len())?;
            rest = after;
        }
        Ok(rest)
    }

    /// The words.
    fn into_words(self) -> Vec<Word>
        ensures { result.items ≡ self.words }
    {
        self.words
    }
}

/// Behind the parenthesis and the name of a declared type: the whole type. Its words go behind the others.
fn parenthesized<'a>(
    alloc: Global,
    spans: &[Span],
    words: Vec<Word>,
    span: Span,
    name: Ident,
    tokens: &'a [Token],
) -> Result<(Vec<Word>, &'a [Token]), Stop>
    ensures read { IfOk result (λ x. ReadsWords (inside (places_of spans.now) span name [] [] tokens.now) words.items x.0.items x.1.now) }
    ensures fails { IfErr result (λ e. Fails e (inside (places_of spans.now) span name [] [] tokens.now)) }
{
    let mut reader = TypeReader::new(alloc, words, span, name)?;
    let rest = reader.read_on(spans, tokens)?;
    Ok((reader.into_words(), rest))
}

/// A type. Its words go behind the others.
fn type_words<'a>(
    alloc: Global,
    spans: &[Span],
    words: Vec<Word>,
    tokens: &'a [Token],
) -> Result<(Vec<Word>, &'a [Token]), Stop>
    ensures read { IfOk result (λ x. ReadsWords (type_at (places_of spans.now) tokens.now) words.items x.0.items x.1.now) }
    ensures fails { IfErr result (λ e. Fails e (type_at (places_of spans.now) tokens.now)) }
{
    let (next, rest) = next_in_type(spans, tokens)?;
    match next {
        Next::Word(word) => {
            let mut words = words;
            words.push(word)?;
            Ok((words, rest))
        }
        Next::Open(span, name) => parenthesized(alloc, spans, words, span, name, rest),
        Next::Close => Err(Stop::At(tokens.len())),
    }
}

/// Whether a type begins here.
fn begins_type(tokens: &[Token]) -> bool
    ensures { result ≡ next_is starts_type tokens.now }
{
    match tokens {
        [Token::Variable(_), ..] => true,
        [Token::Constructor(_), ..] => true,
        [Token::Sign(sign), ..] => matches!(sign, Sign::Int | Sign::Bool | Sign::Open),
        _ => false,
    }
}

/// Types, as many as there are. Their words go behind the others.
fn more_words<'a>(
    alloc: Global,
    spans: &[Span],
    words: Vec<Word>,
    tokens: &'a [Token],
) -> Result<(Vec<Word>, &'a [Token]), Stop>
    ensures read { IfOk result (λ x. ReadsAllWords (many starts_type (type_at (places_of spans.now)) tokens.now) words.items x.0.items x.1.now) }
    ensures fails { IfErr result (λ e. Fails e (many starts_type (type_at (places_of spans.now)) tokens.now)) }
{
    let mut found = words;
    let mut rest = tokens;
    'types: while begins_type(rest) {
        let (more, after) = type_words(alloc, spans, found, rest)?;
        found = more;
        rest = after;
    }
    Ok((found, rest))
}

/// A type.
pub(crate) fn one_type<'a>(
    alloc: Global,
    spans: &[Span],
    exprs: &mut GenericExprs,
    tokens: &'a [Token],
) -> Result<(Run, &'a [Token]), Stop>
    ensures kept { IfOk result (λ x. Stands IsTypeIn exprs.old exprs.new x.0) }
    ensures read { Gives (λ x. (type_in exprs.new.words x.0, x.1.now)) result (type_at (places_of spans.now) tokens.now) }
{
    let (words, rest) = type_words(alloc, spans, Vec::new(alloc), tokens)?;
    let run = exprs.put_words(&words)?;
    Ok((run, rest))
}

/// Types, as many as there are.
pub(crate) fn types<'a>(
    alloc: Global,
    spans: &[Span],
    exprs: &mut GenericExprs,
    tokens: &'a [Token],
) -> Result<(Run, &'a [Token]), Stop>
    ensures kept { IfOk result (λ x. Stands AreTypesIn exprs.old exprs.new x.0) }
    ensures read { Gives (λ x. (stack_of (run_words exprs.new.words x.0), x.1.now)) result (many starts_type (type_at (places_of spans.now)) tokens.now) }
{
    let (words, rest) = more_words(alloc, spans, Vec::new(alloc), tokens)?;
    let run = exprs.put_words(&words)?;
    Ok((run, rest))
}

impl Repeated for Run {
    ghost use Rattle.gib_base.specs.declared.token.Sign.TheVariants as s;
    ghost use Rattle.gib_syntax.specs.{Forms.{WrittenType}, Words.{type_in}};
    ghost use Rattle.gib_parse.specs.{Reading.{next_type_at}, Parsing.{IsTypeIn}};

    ghost Tree = { WrittenType };

    ghost mark = { s.Comma };

    ghost reader = { next_type_at };

    ghost tree = { λ a run. type_in a.words run };

    ghost inside = { IsTypeIn };

    /// A comma.
    fn sign() -> Sign {
        Sign::Comma
    }

    /// A comma, and a type behind it.
    #[tactic(auto, unfolding(crate::specs::Reading::next_type_at))]
    fn read<'a>(
        alloc: Global,
        spans: &[Span],
        exprs: &mut GenericExprs,
        tokens: &'a [Token],
    ) -> Result<(Run, &'a [Token]), Stop> {
        let tokens = want(Sign::Comma, tokens)?;
        one_type(alloc, spans, exprs, tokens)
    }

    /// What its reader and the arena promise.
    #[tactic(auto, using(crate::proofs::WholeLaws::next_types_take, crate::proofs::DeclarationsStay::type_stays))]
    fn laws() {}
}

/// Behind an opening parenthesis and the first type of a result of several parts: the further ones, and the end.
#[tactic(auto, unfolding(crate::specs::Reading::further_types_at))]
fn part_types<'a>(
    alloc: Global,
    spans: &[Span],
    exprs: &mut GenericExprs,
    first: Run,
    tokens: &'a [Token],
) -> Result<(ResultRuns, &'a [Token]), Stop>
    requires { IsTypeIn exprs.old first }
    ensures kept { IfOk result (λ x. Stands AreResultsIn exprs.old exprs.new x.0) }
    ensures read { Gives (λ x. (results_in exprs.new.words x.0, x.1.now)) result (further_types_at (places_of spans.now) (type_in exprs.old.words first) tokens.now) }
{
    let (second, tokens) = Run::read(alloc, spans, exprs, tokens)?;
    let (further, tokens) = all(alloc, spans, exprs, tokens)?;
    let tokens = want(Sign::Close, tokens)?;
    let types = two_and(alloc, first, second, &further)?;
    Ok((ResultRuns::Several(types), tokens))
}

/// One type, as what a function gives.
#[tactic(auto, unfolding(crate::specs::Reading::one_type_at))]
fn one_result<'a>(
    alloc: Global,
    spans: &[Span],
    exprs: &mut GenericExprs,
    tokens: &'a [Token],
) -> Result<(ResultRuns, &'a [Token]), Stop>
    ensures kept { IfOk result (λ x. Stands AreResultsIn exprs.old exprs.new x.0) }
    ensures read { Gives (λ x. (results_in exprs.new.words x.0, x.1.now)) result (one_type_at (type_at (places_of spans.now)) tokens.now) }
{
    let (ty, tokens) = one_type(alloc, spans, exprs, tokens)?;
    Ok((ResultRuns::One(ty), tokens))
}

/// Behind an opening parenthesis and the name of a declared type: its arguments, as the one type that a function gives.
#[tactic(auto, unfolding(crate::specs::Reading::one_type_at))]
fn applied_result<'a>(
    alloc: Global,
    spans: &[Span],
    exprs: &mut GenericExprs,
    span: Span,
    name: Ident,
    tokens: &'a [Token],
) -> Result<(ResultRuns, &'a [Token]), Stop>
    ensures kept { IfOk result (λ x. Stands AreResultsIn exprs.old exprs.new x.0) }
    ensures read { Gives (λ x. (results_in exprs.new.words x.0, x.1.now)) result (one_type_at (inside (places_of spans.now) span name [] []) tokens.now) }
{
    let (words, rest) = parenthesized(alloc, spans, Vec::new(alloc), span, name, tokens)?;
    let run = exprs.put_words(&words)?;
    Ok((ResultRuns::One(run), rest))
}

/// A declared type without arguments, as the first of several.
fn first_declared(exprs: &mut GenericExprs, name: Ident) -> Result<Run, Memory>
    ensures kept { IfOk result (λ run. Stands IsTypeIn exprs.old exprs.new run) }
    ensures ty { IfOk result (λ run. type_in exprs.new.words run ≡ DataAt name.span name NoType) }
{
    let run = exprs.put_words(&[Word::Data(name.span, name, 0)])?;
    Ok(run)
}

/// Behind an opening parenthesis and the name of a declared type without arguments: further types.
fn several_declared<'a>(
    alloc: Global,
    spans: &[Span],
    exprs: &mut GenericExprs,
    name: Ident,
    tokens: &'a [Token],
) -> Result<(ResultRuns, &'a [Token]), Stop>
    ensures kept { IfOk result (λ x. Stands AreResultsIn exprs.old exprs.new x.0) }
    ensures read { Gives (λ x. (results_in exprs.new.words x.0, x.1.now)) result (further_types_at (places_of spans.now) (DataAt name.span name NoType) tokens.now) }
{
    let first = first_declared(exprs, name)?;
    part_types(alloc, spans, exprs, first, tokens)
}

/// Behind an opening parenthesis: types of several parts.
fn several_types<'a>(
    alloc: Global,
    spans: &[Span],
    exprs: &mut GenericExprs,
    tokens: &'a [Token],
) -> Result<(ResultRuns, &'a [Token]), Stop>
    ensures kept { IfOk result (λ x. Stands AreResultsIn exprs.old exprs.new x.0) }
    ensures read { Gives (λ x. (results_in exprs.new.words x.0, x.1.now)) result (then_at (type_at (places_of spans.now) tokens.now) (λ a ts. further_types_at (places_of spans.now) a ts)) }
{
    let (first, tokens) = one_type(alloc, spans, exprs, tokens)?;
    part_types(alloc, spans, exprs, first, tokens)
}

/// Behind an opening parenthesis and the name of a declared type: further types, or its arguments.
fn declared_results<'a>(
    alloc: Global,
    spans: &[Span],
    exprs: &mut GenericExprs,
    span: Span,
    name: Ident,
    tokens: &'a [Token],
) -> Result<(ResultRuns, &'a [Token]), Stop>
    ensures kept { IfOk result (λ x. Stands AreResultsIn exprs.old exprs.new x.0) }
    ensures read { Gives (λ x. (results_in exprs.new.words x.0, x.1.now)) result (declared_at (places_of spans.now) span name tokens.now) }
{
    match tokens {
        [Token::Sign(sign), ..] => match sign {
            Sign::Comma => several_declared(alloc, spans, exprs, name, tokens),
            _ => applied_result(alloc, spans, exprs, span, name, tokens),
        },
        _ => applied_result(alloc, spans, exprs, span, name, tokens),
    }
}

/// Behind an opening parenthesis, whose span this is.
fn open_results<'a>(
    alloc: Global,
    spans: &[Span],
    exprs: &mut GenericExprs,
    span: Span,
    tokens: &'a [Token],
) -> Result<(ResultRuns, &'a [Token]), Stop>
    ensures kept { IfOk result (λ x. Stands AreResultsIn exprs.old exprs.new x.0) }
    ensures read { Gives (λ x. (results_in exprs.new.words x.0, x.1.now)) result (open_results_at (places_of spans.now) span tokens.now) }
{
    match tokens {
        [Token::Constructor(name), rest @ ..] => {
            let name = named(spans, *name, tokens.len());
            declared_results(alloc, spans, exprs, span, name, rest)
        }
        _ => several_types(alloc, spans, exprs, tokens),
    }
}

/// What a function gives: a type, or those of several parts in parentheses.
pub(crate) fn results<'a>(
    alloc: Global,
    spans: &[Span],
    exprs: &mut GenericExprs,
    tokens: &'a [Token],
) -> Result<(ResultRuns, &'a [Token]), Stop>
    ensures kept { IfOk result (λ x. Stands AreResultsIn exprs.old exprs.new x.0) }
    ensures read { Gives (λ x. (results_in exprs.new.words x.0, x.1.now)) result (results_at (places_of spans.now) tokens.now) }
{
    let span = span_at(spans, tokens.len());
    match tokens {
        [Token::Sign(sign), rest @ ..] => match sign {
            Sign::Open => open_results(alloc, spans, exprs, span, rest),
            _ => one_result(alloc, spans, exprs, tokens),
        },
        _ => one_result(alloc, spans, exprs, tokens),
    }
}

/// Behind an opening bracket: types, one at least, and the closing bracket.
fn bracket<'a>(
    alloc: Global,
    spans: &[Span],
    exprs: &mut GenericExprs,
    tokens: &'a [Token],
) -> Result<(Run, &'a [Token]), Stop>
    ensures kept { IfOk result (λ x. Stands AreTypesIn exprs.old exprs.new x.0) }
    ensures read { Gives (λ x. (types_in exprs.new.words x.0, x.1.now)) result (bracket_at (places_of spans.now) tokens.now) }
{
    let (words, rest) = type_words(alloc, spans, Vec::new(alloc), tokens)?;
    let (words, rest) = more_words(alloc, spans, words, rest)?;
    let rest = want(Sign::CloseBracket, rest)?;
    let run = exprs.put_words(&words)?;
    Ok((run, rest))
}

/// Type arguments, where a bracket is next; else none.
#[tactic(auto, using(crate::proofs::PartsSoFar::none_stand, crate::proofs::PartsSoFar::no_bracket))]
pub(crate) fn type_arguments<'a>(
    alloc: Global,
    spans: &[Span],
    exprs: &mut GenericExprs,
    tokens: &'a [Token],
) -> Result<(Run, &'a [Token]), Stop>
    ensures kept { IfOk result (λ x. Stands AreTypesIn exprs.old exprs.new x.0) }
    ensures read { Gives (λ x. (types_in exprs.new.words x.0, x.1.now)) result (type_arguments_at (places_of spans.now) tokens.now) }
{
    let none = Run { start: 0, end: 0 };
    match tokens {
        [Token::Sign(sign), rest @ ..] => match sign {
            Sign::OpenBracket => bracket(alloc, spans, exprs, rest),
            _ => Ok((none, tokens)),
        },
        _ => Ok((none, tokens)),
    }
}
