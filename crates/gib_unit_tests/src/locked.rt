//! Texts of journals that are read and written; the lines at which others are refused stand in `examples/rows`.

use gib_locked::{JournalFault, read_journal, write_journal};
use std::alloc::Global;
use std::test::Fail;

/// Reads a text and writes the journal that was read.
fn there_and_back(alloc: Global, text: &[u8]) -> Result<Vec<u8>, JournalFault> {
    let journal = read_journal(alloc, text)?;
    match write_journal(alloc, &journal) {
        Ok(written) => Ok(written),
        Err(_) => Err(JournalFault::Memory),
    }
}

/// Whether a text comes back.
fn comes_back(alloc: Global, text: &[u8]) -> bool {
    match there_and_back(alloc, text) {
        Ok(back) => back.as_slice() == text,
        Err(_) => false,
    }
}

const TEXTS: [&str; 8] = [
    "gibj 3\ndepth 1 chunks 16 fork 0 skips 0\nend\n",
    "gibj 3\ndepth 1000000 chunks 65536 fork 64 skips 1\nend\n",
    "gibj 3\ndepth 10000 chunks 1024 fork 4 skips 0\nstep 0 2\nfinish 0\nend\n",
    "gibj 3\ndepth 10000 chunks 1024 fork 4 skips 0\nstep 0 7\nfork 0\nsteal 0\nstep 1 13\nfinish 1\nstep 0 11\njoin 0\nstep 0 6\nfinish 0\nend\n",
    "gibj 3\ndepth 2 chunks 17 fork 1 skips 1\nfork 0\ntake 0\nfork 0\nfork 0\nend\n",
    // Steps of one task follow one another where the line before has as many as a line may have.
    "gibj 3\ndepth 2 chunks 17 fork 1 skips 1\nstep 7 9223372036854775807\nstep 7 9223372036854775807\nstep 7 1\nend\n",
    "gibj 3\ndepth 2 chunks 17 fork 1 skips 1\nstep 0 1\nstep 1 1\nstep 0 1\nend\n",
    "gibj 3\ndepth 2 chunks 17 fork 1 skips 1\nstep 4294967295 1\nsteal 4294967295\nend\n",
];

#[test]
fn journals_come_back(rt: HostRuntime) -> Result<(), Fail> {
    for text in &TEXTS {
        assert!(rt; comes_back(rt.alloc(), text.as_bytes()), "{text}");
    }
    Ok(())
}
