//! What the location checker says of the cores of programs.

use crate::forking::{ADD_ONE, BOTH};
use crate::programs::compile;
use gib_access::reach;
use gib_core::{AccessMode, Core};
use gib_infer::infer;
use gib_loccheck::{LocFault, loccheck};
use std::alloc::Global;
use std::test::Fail;

/// A program with each construct: an arm before another in the text but not in the declaration, fields out of
/// their order in memory, scalars and packed values in each place where an expression may stand.
const EACH: &str = "data Mark = Mark Bool Row Int | Bare ;
data Row = End | Cell Int Row Row ;
fun sum (r : Row) (n : Int) (up : Bool) : Int =
  if up then case r of {
    Cell k left right ->
      let par a = sum left (n + k) True and b = sum right n (k < 9223372036854775807) in (a * (b - n)) ;
    End -> n
  } else let c = sum r 0 True in (c - 1) ;
fun both (b : Bool) : Bool =
  let c = (1 == 2) in
  let par d = both False and e = if b then c else True in
  if d then e else both b ;
fun turn (r : Row) (f : Bool) : Row = case r of {
    End -> let e = End in Cell (0 - 1) e r ;
    Cell n a b ->
      let par left = turn b True and n2 = (n + sum a 1 f) in
      let right = if f then turn (turn a (n < n2)) False else a in
      Cell (n2 + n2) left right
  } ;
fun deep (m : Mark) : Row = case m of {
    Bare -> turn (Cell 1 End End) False ;
    Mark b r n -> if b then Cell n r (deep Bare) else case r of { End -> r ; Cell k l q -> turn q (k == n) }
  } ;
main (m : Mark) : Mark = let r = deep m in Mark (both (sum r 2 False < 0)) r (sum r (1 + 1) True) ;";

const RIGHT: &str =
    "data Tree = Leaf Int | Node Tree Tree ; fun right (t : Tree) : Int = case t of { Leaf n -> n ; Node l r -> right r } ; main (t : Tree) : Int = right t ;";

/// A function that walks both fields: the end of the first one, which its call tells, is where the second begins.
const SUM: &str =
    "data Tree = Leaf Int | Node Tree Tree ; fun sum (t : Tree) : Int = case t of { Leaf n -> n ; Node l r -> (sum l + sum r) } ; main (t : Tree) : Int = sum t ;";

/// The core of a source, where it is a typed program.
fn inferred(alloc: Global, source: &str) -> Option<Core> {
    let Some(compiled) = compile(alloc, source) else {
        return None;
    };
    infer(alloc, &compiled.typed).ok()
}

/// Whether the core of a source is accepted once its fields are reached.
fn is_built(alloc: Global, source: &str, mode: AccessMode) -> bool {
    let Some(core) = inferred(alloc, source) else {
        return false;
    };
    let Ok(reached) = reach(alloc, core, mode) else {
        return false;
    };
    loccheck(alloc, reached).is_ok()
}

/// Whether the core of a source is refused by this rule at this term.
fn is_broken_at(alloc: Global, source: &str, rule: u8, term: u64) -> bool {
    let Some(core) = inferred(alloc, source) else {
        return false;
    };
    match loccheck(alloc, core) {
        Err(LocFault::Rule(broken, at)) => broken == rule && at == term,
        _ => false,
    }
}

#[test]
fn cores_whose_fields_are_reached_meet_the_build_rules(rt: HostRuntime) -> Result<(), Fail> {
    for source in &[ADD_ONE, RIGHT, SUM, EACH, BOTH] {
        assert!(rt; is_built(rt.alloc(), source, AccessMode::Skips), "{source}");
        assert!(rt; is_built(rt.alloc(), source, AccessMode::Ends), "{source}");
    }
    Ok(())
}

#[test]
fn a_field_that_is_used_and_not_reached_is_refused_at_its_use(rt: HostRuntime) -> Result<(), Fail> {
    assert!(rt; is_broken_at(rt.alloc(), ADD_ONE, 8, 8));
    assert!(rt; is_broken_at(rt.alloc(), RIGHT, 8, 3));
    Ok(())
}
