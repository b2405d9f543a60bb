//! Bytes that tests are given.

use std::alloc::{AllocError, Global};

/// The packed file of a payload.
pub fn packed(alloc: Global, payload: &[u8]) -> Result<Vec<u8>, AllocError> {
    let mut bytes = Vec::from_slice(alloc, b"GIBP\x01\x00\x00\x00")?;
    bytes.extend_from_slice(&(payload.len() as u64).to_le_bytes())?;
    bytes.extend_from_slice(payload)?;
    Ok(bytes)
}

/// Puts bytes so many times.
pub fn push_times(bytes: &mut Vec<u8>, piece: &[u8], count: usize) -> Result<(), AllocError> {
    for _ in 0..count {
        bytes.extend_from_slice(piece)?;
    }
    Ok(())
}

/// Texts, one behind another.
pub fn joined(alloc: Global, texts: &[&str]) -> Result<Vec<u8>, AllocError> {
    let mut bytes = Vec::new(alloc);
    for text in texts {
        bytes.extend_from_slice(text.as_bytes())?;
    }
    Ok(bytes)
}

/// Bytes so many times, and an end.
pub fn repeated(
    alloc: Global,
    piece: &[u8],
    count: usize,
    end: &[u8],
) -> Result<Vec<u8>, AllocError> {
    let mut bytes = Vec::new(alloc);
    push_times(&mut bytes, piece, count)?;
    bytes.extend_from_slice(end)?;
    Ok(bytes)
}
