//! Programs as their tokens, one space between two.

use crate::programs::parse_source;
use gib_syntax::print_program;
use std::alloc::Global;
use std::test::Fail;

/// The tokens of a source, printed, where it is a program.
fn printed(alloc: Global, source: &str) -> Option<Vec<u8>> {
    let Some(parsed) = parse_source(alloc, source) else {
        return None;
    };
    print_program(alloc, &parsed.program, &parsed.names).ok()
}

/// Sources, and how they are printed.
const SOURCES: [(&str, &str); 2] = [
    (
        "data Tree = Leaf Int | Node Tree Tree ;--comment
fun add1(t:Tree):Tree=case t of{Leaf n->Leaf(n+1);Node l r->let par a=add1 l and b=add1 r in Node a b};
main (t : Tree) : Tree = if True then add1 t else let u = (t) in u ;",
        "data Tree = Leaf Int | Node Tree Tree ; fun add1 ( t : Tree ) : Tree = case t of { Leaf n -> Leaf ( n + 1 ) ; Node l r -> let par a = add1 l and b = add1 r in Node a b } ; main ( t : Tree ) : Tree = if True then add1 t else let u = ( t ) in u ;",
    ),
    (
        "fun three(n:Int):(Int,Bool,Int)=(n,(n<1),(n+1));
main(n:Int):Int=let(a,b,c)=three n in let par(d,e,f)=three a and g=c in let par h=g and(i,j)=(d,(1,2))in a;",
        "fun three ( n : Int ) : ( Int , Bool , Int ) = ( n , ( n < 1 ) , ( n + 1 ) ) ; main ( n : Int ) : Int = let ( a , b , c ) = three n in let par ( d , e , f ) = three a and g = c in let par h = g and ( i , j ) = ( d , ( 1 , 2 ) ) in a ;",
    ),
];

/// Whether a source is printed so.
fn is_printed(alloc: Global, source: &str, want: &str) -> bool {
    match printed(alloc, source) {
        Some(text) => text.as_slice() == want.as_bytes(),
        None => false,
    }
}

#[test]
fn a_program_is_printed_by_its_tokens(rt: HostRuntime) -> Result<(), Fail> {
    for (source, want) in &SOURCES {
        assert!(rt; is_printed(rt.alloc(), source, want), "{source}");
    }
    Ok(())
}
