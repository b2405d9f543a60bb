//! What the check answers: the program that it was given, or the first fault with its whole place.

use crate::programs::parse_source;
use gib_base::Span;
use gib_check::{Fault, Kind, TypeFault, check};
use std::alloc::Global;
use std::test::Fail;

/// A program that declares nothing but main.
const TYPED: &str = "main (n : Int) : Int = n ;";

const UNKNOWN: &str = "main (n : Int) : Int = other ;";

/// Whether the program of a source is typed, and declares nothing but main.
fn is_main_alone(alloc: Global, source: &str) -> bool {
    let Some(parsed) = parse_source(alloc, source) else {
        return false;
    };
    match check(alloc, parsed.program) {
        Ok(typed) => typed.program().datas().len() == 0 && typed.program().functions().len() == 0,
        Err(_) => false,
    }
}

/// What is wrong with the program of a source; nothing also where it is none.
fn fault_of(alloc: Global, source: &str) -> Option<TypeFault> {
    let Some(parsed) = parse_source(alloc, source) else {
        return None;
    };
    check(alloc, parsed.program).err()
}

#[test]
fn a_typed_program_is_accepted_and_an_unknown_variable_refused(
    rt: HostRuntime,
) -> Result<(), Fail> {
    assert!(rt; is_main_alone(rt.alloc(), TYPED));
    let fault = Fault {
        kind: Kind::Unknown,
        span: Span { start: 23, end: 28 },
    };
    assert_eq!(rt;
        fault_of(rt.alloc(), UNKNOWN),
        Some(TypeFault::Broken(fault))
    );
    Ok(())
}
