//! What copied programs declare, by the names of copies. The answers are worked out by hand.

use crate::programs::compile;
use gib_base::{Name, Texts};
use gib_syntax::tree::{ConstructorDecl, DataDecl, FunctionDecl, Program, ResultTypes, TypeName};
use std::alloc::{AllocError, Global};
use std::test::Fail;

/// A word, behind a space.
fn put(out: &mut Vec<u8>, word: &[u8]) -> Result<(), AllocError> {
    out.push(b' ')?;
    out.extend_from_slice(word)?;
    Ok(())
}

/// A name, with its types.
fn put_name(out: &mut Vec<u8>, texts: &Texts, name: Name) -> Result<(), AllocError> {
    out.push(b' ')?;
    texts.push_long(out, name)
}

/// A type.
fn put_type(out: &mut Vec<u8>, texts: &Texts, ty: TypeName) -> Result<(), AllocError> {
    match ty {
        TypeName::Whole(_) => put(out, b"Int"),
        TypeName::Truth(_) => put(out, b"Bool"),
        TypeName::Declared(x) => put_name(out, texts, x.name),
    }
}

/// A constructor, with the types of its fields.
fn put_constructor(
    out: &mut Vec<u8>,
    texts: &Texts,
    constructor: &ConstructorDecl,
) -> Result<(), AllocError> {
    put(out, b"|")?;
    put_name(out, texts, constructor.name.name)?;
    for field in &constructor.fields {
        put_type(out, texts, *field)?;
    }
    Ok(())
}

/// A declared type.
fn put_data(out: &mut Vec<u8>, texts: &Texts, data: &DataDecl) -> Result<(), AllocError> {
    put(out, b"data")?;
    put_name(out, texts, data.name.name)?;
    for constructor in &data.constructors {
        put_constructor(out, texts, constructor)?;
    }
    Ok(())
}

/// The types of several parts.
fn put_parts(out: &mut Vec<u8>, texts: &Texts, types: &[TypeName]) -> Result<(), AllocError> {
    put(out, b"(")?;
    for ty in types {
        put_type(out, texts, *ty)?;
    }
    put(out, b")")
}

/// What a function gives.
fn put_results(out: &mut Vec<u8>, texts: &Texts, results: &ResultTypes) -> Result<(), AllocError> {
    match results {
        ResultTypes::One(ty) => put_type(out, texts, *ty),
        ResultTypes::Several(types) => put_parts(out, texts, types),
    }
}

/// The head of a function.
fn put_head(out: &mut Vec<u8>, texts: &Texts, function: &FunctionDecl) -> Result<(), AllocError> {
    put(out, b"fun")?;
    put_name(out, texts, function.name.name)?;
    for parameter in &function.parameters {
        put_type(out, texts, parameter.ty)?;
    }
    put(out, b":")?;
    put_results(out, texts, &function.result)
}

/// What a program declares.
fn put_program(out: &mut Vec<u8>, texts: &Texts, program: &Program) -> Result<(), AllocError> {
    for data in program.data_decls() {
        put_data(out, texts, data)?;
    }
    for function in program.functions() {
        put_head(out, texts, function)?;
    }
    let main = program.main();
    put(out, b"main")?;
    put_type(out, texts, main.parameter.ty)?;
    put(out, b":")?;
    put_type(out, texts, main.result)
}

/// What the copy of a source declares; nothing where it has none.
fn declared(alloc: Global, source: &str) -> Result<Vec<u8>, AllocError> {
    let mut out = Vec::new(alloc);
    if let Some(compiled) = compile(alloc, source) {
        put_program(&mut out, &compiled.names, compiled.typed.program())?;
    }
    Ok(out)
}

/// Sources with what their copies declare.
const SOURCES: [(&str, &str); 6] = [
    // A copied type's fields are of the copy.
    (
        "data List a = Nil | Cons a (List a) ; fun len [a] (l : (List a)) : Int = case l of { Nil -> 0 ; Cons x r -> (1 + len [a] r) } ; main (n : Int) : Int = len [Int] (Cons [Int] n Nil [Int]) ;",
        " data List[Int] | Nil[Int] | Cons[Int] Int List[Int] fun len[Int] List[Int] : Int main Int : Int",
    ),
    // Declarations without type parameters stay as they are, whether anything uses them or not.
    (
        "data Bit = Zero | One ; fun g (b : Bit) (t : Bool) : Int = case b of { Zero -> 0 ; One -> 1 } ; main (n : Int) : Int = n ;",
        " data Bit | Zero | One fun g Bit Bool : Int main Int : Int",
    ),
    // Each list of types makes a copy, in the order in which they are first asked for.
    (
        "data P a b = P a b ; fun swap [a b] (p : (P a b)) : (P b a) = case p of { P x y -> P [b a] y x } ; fun second [a b] (p : (P a b)) : b = case p of { P x y -> y } ; main (n : Int) : Int = second [Bool Int] (swap [Int Bool] (P [Int Bool] n True)) ;",
        " data P[Int Bool] | P[Int Bool] Int Bool data P[Bool Int] | P[Bool Int] Bool Int fun second[Bool Int] P[Bool Int] : Int fun swap[Int Bool] P[Int Bool] : P[Bool Int] main Int : Int",
    ),
    // A type is asked for before the types in it.
    (
        "data Box a = Box a ; data Pair a b = Pair a b ; main (p : (Pair (Box Int) Bool)) : Bool = case p of { Pair b t -> t } ;",
        " data Pair[Box[Int] Bool] | Pair[Box[Int] Bool] Box[Int] Bool data Box[Int] | Box[Int] Int main Pair[Box[Int] Bool] : Bool",
    ),
    // Each part of a result has its own type.
    (
        "data Box a = Box a ; fun swap [a b] (x : (Box a)) (y : b) : (b, (Box a)) = (y, x) ; main (n : Int) : Int = let (t, b) = swap [Int Bool] (Box [Int] n) True in n ;",
        " data Box[Int] | Box[Int] Int fun swap[Int Bool] Box[Int] Bool : ( Bool Box[Int] ) main Int : Int",
    ),
    // What nobody asks for has no copy.
    (
        "data Box a = Box a ; fun id [a] (x : a) : a = x ; main (n : Int) : Int = n ;",
        " main Int : Int",
    ),
];

#[test]
fn copies_declare(rt: HostRuntime) -> Result<(), Fail> {
    for (source, answer) in &SOURCES {
        assert_eq!(rt;
            declared(rt.alloc(), source)?.as_slice(),
            answer.as_bytes(),
            "{source}"
        );
    }
    Ok(())
}
