//! Texts with their tokens and names; texts that are refused stand in `examples/rows`. The values are those of a second implementation.

use gib_base::limits::{NAMES, SOURCE_BYTES};
use gib_base::token::Dialect;
use gib_base::{Name, Names};
use gib_lex::{Tokens, lex, lex_in};
use std::alloc::{AllocError, Global};
use std::test::Fail;

// The span and the token, one after another.
fn shown(alloc: Global, tokens: &Tokens) -> Result<String, AllocError> {
    let mut line = String::new(alloc);
    for (token, span) in tokens.tokens().iter().zip(tokens.spans()) {
        let start = span.start;
        let end = span.end;
        line.push_str(format!(in alloc; "{start}-{end} {token:?}; ")?.as_str())?;
    }
    Ok(line)
}

/// Texts, and their tokens with their spans.
const TEXTS: [(Dialect, &[u8], &str); 16] = [
    (
        Dialect::Source,
        b"data Tree = Leaf Int | Node Tree Tree ;",
        "0-4 Sign(Data); 5-9 Constructor(Name(0)); 10-11 Sign(Equals); 12-16 Constructor(Name(1)); 17-20 Sign(Int); 21-22 Sign(Bar); 23-27 Constructor(Name(2)); 28-32 Constructor(Name(0)); 33-37 Constructor(Name(0)); 38-39 Sign(Semicolon); ",
    ),
    (
        Dialect::Source,
        b"let par a_1=(b+c)in a_1",
        "0-3 Sign(Let); 4-7 Sign(Par); 8-11 Variable(Name(0)); 11-12 Sign(Equals); 12-13 Sign(Open); 13-14 Variable(Name(1)); 14-15 Sign(Plus); 15-16 Variable(Name(2)); 16-17 Sign(Close); 17-19 Sign(In); 20-23 Variable(Name(0)); ",
    ),
    (
        Dialect::Source,
        b"iff if If True true Bool_ fun_ and",
        "0-3 Variable(Name(0)); 4-6 Sign(If); 7-9 Constructor(Name(1)); 10-14 Sign(True); 15-19 Variable(Name(2)); 20-25 Constructor(Name(3)); 26-30 Variable(Name(4)); 31-34 Sign(And); ",
    ),
    (
        Dialect::Source,
        b"then else case of main par False data fun Int Bool in",
        "0-4 Sign(Then); 5-9 Sign(Else); 10-14 Sign(Case); 15-17 Sign(Of); 18-22 Sign(Main); 23-26 Sign(Par); 27-32 Sign(False); 33-37 Sign(Data); 38-41 Sign(Fun); 42-45 Sign(Int); 46-50 Sign(Bool); 51-53 Sign(In); ",
    ),
    (
        Dialect::Source,
        b"quot rem quotient remainder quo Rem rem1",
        "0-4 Sign(Quotient); 5-8 Sign(Remainder); 9-17 Variable(Name(0)); 18-27 Variable(Name(1)); 28-31 Variable(Name(2)); 32-35 Constructor(Name(3)); 36-40 Variable(Name(4)); ",
    ),
    (
        Dialect::Source,
        b"---> -- x\n->-->\r\n5",
        "10-12 Sign(Arrow); 17-18 Number(5); ",
    ),
    (
        Dialect::Source,
        b"===<=:{}*a-b",
        "0-2 Sign(Same); 2-3 Sign(Equals); 3-4 Sign(Less); 4-5 Sign(Equals); 5-6 Sign(Colon); 6-7 Sign(OpenBrace); 7-8 Sign(CloseBrace); 8-9 Sign(Times); 9-10 Variable(Name(0)); 10-11 Sign(Minus); 11-12 Variable(Name(1)); ",
    ),
    (
        Dialect::Source,
        b"(a,b , 1)--,\n,",
        "0-1 Sign(Open); 1-2 Variable(Name(0)); 2-3 Sign(Comma); 3-4 Variable(Name(1)); 5-6 Sign(Comma); 7-8 Number(1); 8-9 Sign(Close); 13-14 Sign(Comma); ",
    ),
    (
        Dialect::Source,
        b"007 9223372036854775807 00009223372036854775807",
        "0-3 Number(7); 4-23 Number(9223372036854775807); 24-47 Number(9223372036854775807); ",
    ),
    (
        Dialect::Source,
        b"12ab",
        "0-2 Number(12); 2-4 Variable(Name(0)); ",
    ),
    (
        Dialect::Source,
        b"aB Ab ab AB aB",
        "0-2 Variable(Name(0)); 3-5 Constructor(Name(1)); 6-8 Variable(Name(2)); 9-11 Constructor(Name(3)); 12-14 Variable(Name(0)); ",
    ),
    (Dialect::Source, b"", ""),
    (Dialect::Source, b" \t\r\n", ""),
    (Dialect::Source, b"--", ""),
    (Dialect::Source, b"-- a\tb\r\nx", "8-9 Variable(Name(0)); "),
    // Words of programs whose places are written out.
    (
        Dialect::Located,
        b"letregion letloc reach by offset skip end give point start after offsets @d",
        "0-9 Sign(LetRegion); 10-16 Sign(LetLocation); 17-22 Sign(Reach); 23-25 Sign(By); 26-32 Sign(Offset); 33-37 Sign(Skip); 38-41 Sign(End); 42-46 Sign(Give); 47-52 Sign(Point); 53-58 Sign(Start); 59-64 Sign(After); 65-72 Sign(Offsets); 73-74 Sign(At); 74-75 Variable(Name(0)); ",
    ),
];

/// Whether a text has these tokens with their spans.
fn has_tokens(alloc: Global, dialect: Dialect, text: &[u8], want: &str) -> Result<bool, Fail> {
    let tokens = lex_in(alloc, dialect, text)?;
    let line = shown(alloc, &tokens)?;
    Ok(line.as_str() == want)
}

#[test]
fn tokens_with_their_spans(rt: HostRuntime) -> Result<(), Fail> {
    for (dialect, text, want) in &TEXTS {
        assert!(rt; has_tokens(rt.alloc(), *dialect, text, want)?, "{want}");
    }
    Ok(())
}

/// The names of a text, and a word that is none.
const NUMBERS: [(&[u8], Option<Name>); 5] = [
    (b"b", Some(Name(0))),
    (b"A", Some(Name(1))),
    (b"a", Some(Name(2))),
    (b"c", Some(Name(3))),
    (b"if", None),
];

/// Whether names are found by these numbers.
fn are_found(names: &Names) -> bool {
    for (text, number) in &NUMBERS {
        if names.find(text) != *number {
            return false;
        }
    }
    names.len() == 4
}

/// Whether the names of a text are.
fn are_numbered(alloc: Global, text: &[u8]) -> Result<bool, Fail> {
    let names = lex(alloc, text)?.into_names();
    Ok(are_found(&names))
}

#[test]
fn names_in_the_order_of_first_use(rt: HostRuntime) -> Result<(), Fail> {
    assert!(rt; are_numbered(rt.alloc(), b"b A a if b c A")?);
    Ok(())
}

/// A text of so many names.
fn many_names(alloc: Global, count: u32) -> Result<String, AllocError> {
    let mut text = String::new(alloc);
    for number in 0..count {
        let name = format!(in alloc; "n{number} ")?;
        text.push_str(&name)?;
    }
    Ok(text)
}

/// How many names and tokens a text has.
fn counted(alloc: Global, text: &[u8]) -> Result<(u32, usize), Fail> {
    let tokens = lex(alloc, text)?;
    Ok((tokens.names().len(), tokens.tokens().len()))
}

#[test]
fn the_most_names_and_tokens(rt: HostRuntime) -> Result<(), Fail> {
    let most = many_names(rt.alloc(), NAMES)?;
    assert!(rt; counted(rt.alloc(), most.as_bytes())? == (65_535, 65_535));
    let longest = vec![in rt.alloc(); b';'; SOURCE_BYTES as usize]?;
    assert!(rt; counted(rt.alloc(), &longest)? == (0, 1_048_576));
    Ok(())
}
