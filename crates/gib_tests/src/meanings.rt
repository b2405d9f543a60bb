//! What programs give where no call may be made; `examples/rows` has the others. The values are those of a second implementation.

use crate::programs::meaning;
use std::test::Fail;

/// Sources, payloads and what the programs give, or `deep`.
const ROWS: [(&str, &[u8], &str); 4] = [
    (
        "fun f (n : Int) : Int = (n + 1) ; main (n : Int) : Int = f (f n) ;",
        b"\x05\0\0\0\0\0\0\0",
        "deep",
    ),
    (
        "fun two (n : Int) : (Int, Int) = (n, (n + 1)) ; main (n : Int) : Int = let (a, b) = two n in (a + b) ;",
        b"\x05\0\0\0\0\0\0\0",
        "deep",
    ),
    (
        "main (n : Int) : Int = n ;",
        b"\xf9\xff\xff\xff\xff\xff\xff\xff",
        "-7",
    ),
    (
        "fun loop (n : Int) : Int = loop n ; main (n : Int) : Int = if (n < 2) then n else loop n ;",
        b"\x01\0\0\0\0\0\0\0",
        "1",
    ),
];

#[test]
fn calls_take_depth(rt: HostRuntime) -> Result<(), Fail> {
    for (source, payload, text) in &ROWS {
        let given = meaning(rt.alloc(), source, payload, 0)?;
        assert!(rt; given.as_slice() == text.as_bytes(), "{source}");
    }
    Ok(())
}
