//! Vectors by number, reversed lists and numbers as text, at concrete types.

use gib_base::{ByNumber, Memory, Reversed, push_decimal, push_signed};
use std::alloc::Global;
use std::test::*;

/// Sets three entries at two numbers.
fn set_marks(marks: &mut ByNumber<u32>) -> Result<(), Memory> {
    marks.set(3, Some(7))?;
    marks.set(1, Some(9))?;
    marks.set(3, None)
}

/// What stands then at two numbers that were set and at two others.
fn found_marks(alloc: Global) -> Result<[Option<u32>; 4], Memory> {
    let mut marks: ByNumber<u32> = ByNumber::new(alloc);
    set_marks(&mut marks)?;
    Ok([marks.get(0), marks.get(1), marks.get(3), marks.get(9)])
}

#[test]
fn what_stands_at_numbers_is_found(rt: HostRuntime) -> Result<(), Fail> {
    assert!(rt; found_marks(rt.alloc())? == [None, Some(9), None, None]);
    Ok(())
}

/// Puts three numbers, from the last to the first.
fn put_numbers(numbers: &mut Reversed<i64>) -> Result<(), Memory> {
    numbers.put(i64::MIN)?;
    numbers.put(-40)?;
    numbers.put(0)
}

/// Writes numbers, each behind a space.
fn push_numbers(alloc: Global, out: &mut Vec<u8>, numbers: &[i64]) -> Result<(), Memory> {
    for number in numbers {
        out.push(b' ')?;
        push_signed(alloc, out, *number)?;
    }
    Ok(())
}

/// The largest number without a sign, and the three, in their order.
fn written(alloc: Global) -> Result<Vec<u8>, Memory> {
    let mut numbers: Reversed<i64> = Reversed::new(alloc);
    put_numbers(&mut numbers)?;
    let mut out = Vec::new(alloc);
    push_decimal(alloc, &mut out, u64::MAX)?;
    push_numbers(alloc, &mut out, &numbers.into_vec())?;
    Ok(out)
}

#[test]
fn numbers_are_written_from_the_last_to_the_first(rt: HostRuntime) -> Result<(), Fail> {
    let want = b"18446744073709551615 0 -40 -9223372036854775808".as_slice();
    assert!(rt; written(rt.alloc())?.as_slice() == want);
    Ok(())
}
