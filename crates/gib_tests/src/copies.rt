//! The copies that sources with type parameters ask for, in their order, or the place of the first use over a limit. The
//! answers are worked out by hand.

use crate::programs::parse_source;
use gib_base::Span;
use gib_check::check;
use gib_mono::find::{Asked, find_copies};
use gib_mono::found::{CopyKey, MonoFault};
use gib_mono::source::Source;
use std::alloc::{AllocError, Global};
use std::test::Fail;

/// The text of a copy: its kind, the place of its declaration, and the numbers of its types.
fn key_text(alloc: Global, key: &CopyKey) -> Result<String, AllocError> {
    let (kind, place, types) = match key {
        CopyKey::Data(place, types) => ("data", *place, types),
        CopyKey::Function(place, types) => ("fun", *place, types),
    };
    let mut text = format!(in alloc; "{kind} {place}")?;
    for id in types {
        let number = format!(in alloc; " {}", id.0)?;
        text.push_str(&number)?;
    }
    text.push_str(";")?;
    Ok(text)
}

/// The texts of all copies.
fn copies_text(alloc: Global, asked: &Asked) -> Result<String, AllocError> {
    let mut text = String::new(alloc);
    for place in 0..asked.found.len() {
        let key = asked.found.copy_key(alloc, place)?;
        let one = key_text(alloc, &key)?;
        text.push_str(&one)?;
    }
    Ok(text)
}

/// The text of what the search answers.
fn answer_text(alloc: Global, answer: Result<Asked, MonoFault>) -> Result<String, AllocError> {
    match answer {
        Ok(asked) => copies_text(alloc, &asked),
        Err(MonoFault::Limit(Span { start, .. })) => format!(in alloc; "limit {start}"),
        Err(MonoFault::Memory) => Err(AllocError),
    }
}

/// What the search says of a source.
fn told(alloc: Global, source: &str) -> Result<String, AllocError> {
    let Some(parsed) = parse_source(alloc, source) else {
        return format!(in alloc; "no program");
    };
    let Ok(generic) = check(alloc, parsed.program) else {
        return format!(in alloc; "not typed");
    };
    let source = Source::make(alloc, generic.into_program())?;
    answer_text(alloc, find_copies(alloc, &source))
}

/// Sources with their copies.
const SOURCES: [(&str, &str); 6] = [
    // A list of any type, and its length.
    (
        "data List a = Nil | Cons a (List a) ; fun len [a] (l : (List a)) : Int = case l of { Nil -> 0 ; Cons x r -> (1 + len [a] r) } ; main (n : Int) : Int = len [Int] (Cons [Int] n Nil [Int]) ;",
        "fun 0 0;data 0 0;",
    ),
    // Declarations without type parameters are copies of their own, the types before the functions.
    (
        "data Bit = Zero | One ; fun g (b : Bit) : Int = case b of { Zero -> 0 ; One -> 1 } ; main (n : Int) : Int = n ;",
        "data 0;fun 0;",
    ),
    // The same types in another order.
    (
        "data P a b = P a b ; fun swap [a b] (p : (P a b)) : (P b a) = case p of { P x y -> P [b a] y x } ; fun second [a b] (p : (P a b)) : b = case p of { P x y -> y } ; main (n : Int) : Int = second [Bool Int] (swap [Int Bool] (P [Int Bool] n True)) ;",
        "fun 1 1 0;fun 0 0 1;data 0 0 1;data 0 1 0;",
    ),
    // A type that is met only in another one's fields.
    (
        "data Tree a = Leaf | Fork (Tree (Pair a)) ; data Pair a = Pair a a ; main (n : (Tree Int)) : Int = 1 ;",
        "limit 27",
    ),
    // Copies without end: a type of more than 64 words.
    (
        "data List a = Nil | Cons a (List a) ; fun f [a] (x : a) : Int = f [(List a)] (Cons [a] x Nil [a]) ; main (n : Int) : Int = f [Int] n ;",
        "limit 64",
    ),
    // More than 1000 functions, at the second call.
    (
        "data L a = L a ; fun f [a b] (x : a) (y : b) : Int = (f [(L a) b] (L [a] x) y + f [a (L b)] x (L [b] y)) ; main (n : Int) : Int = f [Int Int] n n ;",
        "limit 80",
    ),
];

#[test]
fn copies_of_sources(rt: HostRuntime) -> Result<(), Fail> {
    for (source, answer) in &SOURCES {
        assert_eq!(rt; told(rt.alloc(), source)?.as_str(), *answer, "{source}");
    }
    Ok(())
}

/// A source that uses a type of so many constructors at two types.
fn wide(alloc: Global, constructors: u32) -> Result<String, AllocError> {
    let mut text = format!(in alloc; "data W a = K0")?;
    for number in 1..constructors {
        let constructor = format!(in alloc; " | K{number}")?;
        text.push_str(&constructor)?;
    }
    text.push_str(
        " ; fun u [a] (x : (W a)) : Int = 1 ; main (n : Int) : Int = (u [Int] K0 [Int] + u [Bool] K0 [Bool]) ;",
    )?;
    Ok(text)
}

#[test]
fn constructors_of_copies(rt: HostRuntime) -> Result<(), Fail> {
    let alloc = rt.alloc();
    assert_eq!(rt;
        told(alloc, &wide(alloc, 100)?)?.as_str(),
        "fun 0 0;data 0 0;fun 0 1;data 0 1;"
    );
    assert_eq!(rt; told(alloc, &wide(alloc, 101)?)?.as_str(), "limit 694");
    Ok(())
}
