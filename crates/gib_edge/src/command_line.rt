//! The words of the command line.

ghost use Rattle.std.specs.Prelude.{◌≡◌, ◌≢◌, IfOk, IfErr, OnOk, IsErrOf};
ghost use Rattle.std.specs.Vec.Iter.{into_iter_items};
ghost use Rattle.std.specs.IoError.{error_kind};

use std::alloc::{AllocError, Global};
use std::env::Args;
use std::io;
use std::io::ErrorKind;
use thiserror::Error;

/// Why the words of a command line cannot be taken.
#[derive(Clone, Copy, Debug, PartialEq, Eq, Error)]
pub enum WordsFault {
    /// One of them is no UTF-8.
    #[error("a word is no UTF-8")]
    NoText,
    #[error("out of memory")]
    Memory,
}

/// All words that the system told of, in their order, the program's name first.
pub fn taken_words(alloc: Global, told: io::Result<Args>) -> Result<Vec<String>, WordsFault>
    ensures words { IfOk told (λ args. IfOk result (λ words. words.items ≡ into_iter_items args)) }
    ensures kept { OnOk told (IsErrOf result WordsFault.NoText → ⊥) }
    ensures memory { IfErr told (λ fault. error_kind fault ≡ ErrorKind.OutOfMemory → IsErrOf result WordsFault.Memory) }
    ensures text { IfErr told (λ fault. error_kind fault ≢ ErrorKind.OutOfMemory → IsErrOf result WordsFault.NoText) }
{
    match told {
        Ok(args) => match collected(alloc, args) {
            Ok(words) => Ok(words),
            Err(_) => Err(WordsFault::Memory),
        },
        Err(fault) => Err(fault_of(&fault)),
    }
}

// The words that are still to come.
fn collected(alloc: Global, args: Args) -> Result<Vec<String>, AllocError>
    ensures { IfOk result (λ words. words.items ≡ into_iter_items args) }
{
    args.collect(alloc)
}

// What an error of the system that told of the words stands for.
fn fault_of(fault: &io::Error) -> WordsFault
    ensures memory { error_kind fault.now ≡ ErrorKind.OutOfMemory → result ≡ WordsFault.Memory }
    ensures text { error_kind fault.now ≢ ErrorKind.OutOfMemory → result ≡ WordsFault.NoText }
{
    if fault.kind() == ErrorKind::OutOfMemory {
        WordsFault::Memory
    } else {
        WordsFault::NoText
    }
}
