//! What a shelf or a sink makes of a reader or a writer.

ghost use Rattle.std.specs.Prelude.{◌≡◌, ◌≤◌, ◌<◌, ◌+◌, ℕ, List, length, take, vec_len, IfOk, OnOk, OnErr, IfSome, IsOk, IsErrOf};
ghost use Rattle.gib_edge.specs.{Causes.{Rose, Appends, AppendsPart, raised}, Moving.{Moves}};

use crate::outside::{Failed, ShelfFault};
use std::alloc::Global;
use std::io;
use std::io::{Read, Write};

// How many bytes one read asks for at most.
const READ_BYTES: u64 = 65_536;

/// Reads until `most` bytes have come, or none come.
pub(crate) fn read_front<F: Read>(
    file: &mut F,
    alloc: Global,
    most: u64,
) -> Result<Vec<u8>, ShelfFault>
    ensures most { IfOk result (λ bytes. length bytes.items ≤ most) }
    ensures bytes { IfOk result (λ bytes. IfSome (F.remaining file.old) (λ all. bytes.items ≡ take most all)) }
{
    let mut bytes = Vec::new(alloc);
    while (bytes.len() as u64) < most {
        let room = most - bytes.len() as u64;
        match read_more(file, &mut bytes, room) {
            Ok(count) => {
                if count == 0 {
                    return Ok(bytes);
                }
            }
            Err(fault) => return Err(fault),
        }
    }
    Ok(bytes)
}

// One read of at most `most` bytes, which are put at the end.
fn read_more<F: Read>(file: &mut F, bytes: &mut Vec<u8>, most: u64) -> Result<usize, ShelfFault>
    requires { 0 < most }
    ensures most { IfOk result (λ count. count ≤ most) }
    ensures moves { IfOk result (λ count. Moves (F.remaining file.old) (F.remaining file.new) bytes.old.items bytes.new.items count) }
    ensures len { IfOk result (λ count. vec_len bytes.new ≡ vec_len bytes.old + count) }
{
    let mut buffer = [0u8; READ_BYTES as usize];
    let room = most.min(READ_BYTES) as usize;
    let piece = &mut buffer[..room];
    let Ok(count) = file.read(piece) else {
        return Err(ShelfFault::Failed);
    };
    if bytes.extend_from_slice(&piece[..count]).is_err() {
        return Err(ShelfFault::Memory);
    }
    Ok(count)
}

/// Writes all bytes. A write that takes none is a failure.
pub(crate) fn write_whole<W: Write>(writer: &mut W, bytes: &[u8]) -> Result<(), Failed>
    ensures ok { OnOk result (Appends (W.contents writer.old) (W.contents writer.new) bytes.now) }
    ensures part { OnErr result (AppendsPart (W.contents writer.old) (W.contents writer.new) bytes.now) }
{
    let mut at = 0;
    while at < bytes.len() {
        let Ok(count) = writer.write(&bytes[at..]) else {
            return Err(Failed);
        };
        if count == 0 {
            return Err(Failed);
        }
        at += count;
    }
    Ok(())
}

/// The bytes of a file that was opened, or the first `most` of them.
pub(crate) fn read_opened<F: Read + Drop>(
    opened: io::Result<F>,
    alloc: Global,
    most: u64,
) -> Result<Vec<u8>, ShelfFault>
    ensures most { IfOk result (λ bytes. length bytes.items ≤ most) }
    ensures bytes { IfOk opened (λ file. IfOk result (λ bytes. IfSome (F.remaining file) (λ all. bytes.items ≡ take most all))) }
    ensures closed { OnErr opened (IsErrOf result ShelfFault.Failed) }
{
    match opened {
        Ok(mut file) => read_front(&mut file, alloc, most),
        Err(_) => Err(ShelfFault::Failed),
    }
}

/// Writes all bytes into a file that was opened.
pub(crate) fn write_opened<W: Write>(
    opened: &mut io::Result<W>,
    bytes: &[u8],
) -> Result<(), ShelfFault>
    ensures bytes { OnOk result (IfOk opened.old (λ old. IfOk opened.new (λ new. Appends (W.contents old) (W.contents new) bytes.now))) }
    ensures open { OnOk opened.old (IsOk opened.new) }
    ensures closed { OnErr opened.old (IsErrOf result ShelfFault.Failed) }
    ensures failed { OnErr result (IsErrOf result ShelfFault.Failed) }
{
    match opened {
        Ok(file) => match write_whole(file, bytes) {
            Ok(()) => Ok(()),
            Err(_) => Err(ShelfFault::Failed),
        },
        Err(_) => Err(ShelfFault::Failed),
    }
}

/// The bytes of a file that was opened, or the first `most` of them; a failure is counted.
pub(crate) fn read_file<F: Read + Drop>(
    faults: &mut u64,
    opened: io::Result<F>,
    alloc: Global,
    most: u64,
) -> Result<Vec<u8>, ShelfFault>
    ensures most { IfOk result (λ bytes. length bytes.items ≤ most) }
    ensures bytes { IfOk opened (λ file. IfOk result (λ bytes. IfSome (F.remaining file) (λ all. bytes.items ≡ take most all))) }
    ensures closed { OnErr opened (IsErrOf result ShelfFault.Failed) }
    ensures failed { IsErrOf result ShelfFault.Failed → faults.new ≡ raised faults.old 1 }
    ensures cause { IsErrOf result ShelfFault.Failed → Rose faults.old faults.new }
    ensures quiet { (IsErrOf result ShelfFault.Failed → ⊥) → faults.new ≡ faults.old }
    ensures later { faults.old ≤ faults.new }
{
    let read = read_opened(opened, alloc, most);
    counted(faults, read)
}

/// Writes all bytes into a file that was opened; a failure is counted.
pub(crate) fn write_file<W: Write>(
    faults: &mut u64,
    opened: &mut io::Result<W>,
    bytes: &[u8],
) -> Result<(), ShelfFault>
    ensures bytes { OnOk result (IfOk opened.old (λ old. IfOk opened.new (λ new. Appends (W.contents old) (W.contents new) bytes.now))) }
    ensures open { OnOk opened.old (IsOk opened.new) }
    ensures closed { OnErr opened.old (IsErrOf result ShelfFault.Failed) }
    ensures failed { IsErrOf result ShelfFault.Failed → faults.new ≡ raised faults.old 1 }
    ensures cause { IsErrOf result ShelfFault.Failed → Rose faults.old faults.new }
    ensures quiet { (IsErrOf result ShelfFault.Failed → ⊥) → faults.new ≡ faults.old }
    ensures later { faults.old ≤ faults.new }
{
    let written = write_opened(opened, bytes);
    counted(faults, written)
}

/// The same answer; where it is `Failed`, the count of faults goes up by one, up to its end.
pub(crate) fn counted<T>(faults: &mut u64, answer: Result<T, ShelfFault>) -> Result<T, ShelfFault>
    ensures same { result ≡ answer }
    ensures failed { IsErrOf result ShelfFault.Failed → faults.new ≡ raised faults.old 1 }
    ensures cause { IsErrOf result ShelfFault.Failed → Rose faults.old faults.new }
    ensures quiet { (IsErrOf result ShelfFault.Failed → ⊥) → faults.new ≡ faults.old }
    ensures later { faults.old ≤ faults.new }
{
    if let Err(ShelfFault::Failed) = answer {
        *faults = faults.saturating_add(1);
    }
    answer
}
