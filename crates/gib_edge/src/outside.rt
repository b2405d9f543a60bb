//! What a shelf of files, a sink of bytes and a gate are.

ghost use Rattle.std.specs.Prelude.{◌≡◌, ◌≢◌, ℕ, ◌≤◌, Bool, List, ◌∷◌, [], length, OnOk, OnErr, IfOk, IsErrOf};
ghost use Rattle.gib_edge.specs.Views.{ShelfView, SinkView, ReadOf, WriteOf};
ghost use Rattle.gib_edge.specs.Causes.{Rose, HasCause, told, IsFrontOf, IsUntold, Appends, AppendsPart, HasPut, PutsPieces, PutsSomePieces};

use std::alloc::Global;
use thiserror::Error;

/// A sink did not take all bytes.
#[derive(Clone, Copy, Debug, PartialEq, Eq, Error)]
#[error("not all bytes were taken")]
pub struct Failed;

/// Why a shelf refuses.
#[derive(Clone, Copy, Debug, PartialEq, Eq, Error)]
pub enum ShelfFault {
    /// The file could not be read or written; a read of a name that is not there is such a failure.
    #[error("the file could not be read or written")]
    Failed,
    #[error("out of memory")]
    Memory,
}

/// Files by name.
pub trait Shelf {
    // Whether this kind of shelf tells what its files hold. One that does not keeps `Hidden` under each name.
    ghost tells: { Bool };
    // What is told of it.
    ghost view: { Self → ShelfView };

    /// The bytes under a name, or the first `most` of them; never `Ok` for a name that is not there.
    fn read(&mut self, alloc: Global, name: &str, most: u64) -> Result<Vec<u8>, ShelfFault>
        ensures bytes { IfOk result (λ bytes. IsFrontOf ((view self.old).kept name.now) most bytes.items) }
        ensures most { IfOk result (λ bytes. length bytes.items ≤ most) }
        ensures cause { IsErrOf result ShelfFault.Failed → Rose ((view self.old).reads name.now) ((view self.new).reads name.now) }
        ensures same { (other : List ℕ) → (view self.new).kept other ≡ (view self.old).kept other }
        ensures later { (other : List ℕ) → (view self.old).reads other ≤ (view self.new).reads other }
        ensures quiet { (IsErrOf result ShelfFault.Failed → ⊥) → (other : List ℕ) → (view self.new).reads other ≡ (view self.old).reads other }
        ensures writes { (other : List ℕ) → (view self.new).writes other ≡ (view self.old).writes other }
        ensures called { OnOk result (Appends (view self.old).calls (view self.new).calls (ReadOf name.now most ∷ [])) }
        ensures once { OnErr result (AppendsPart (view self.old).calls (view self.new).calls (ReadOf name.now most ∷ [])) };

    /// Puts these bytes under a name, in place of what it held.
    /// After `Failed` it is not told what the name holds.
    fn write(&mut self, alloc: Global, name: &str, bytes: &[u8]) -> Result<(), ShelfFault>
        ensures ok { OnOk result ((view self.new).kept name.now ≡ told tells bytes.now) }
        ensures failed { IsErrOf result ShelfFault.Failed → IsUntold ((view self.new).kept name.now) }
        ensures memory { IsErrOf result ShelfFault.Memory → (other : List ℕ) → (view self.new).kept other ≡ (view self.old).kept other }
        ensures others { (other : List ℕ) → other ≢ name.now → (view self.new).kept other ≡ (view self.old).kept other }
        ensures cause { IsErrOf result ShelfFault.Failed → Rose ((view self.old).writes name.now) ((view self.new).writes name.now) }
        ensures later { (other : List ℕ) → (view self.old).writes other ≤ (view self.new).writes other }
        ensures quiet { (IsErrOf result ShelfFault.Failed → ⊥) → (other : List ℕ) → (view self.new).writes other ≡ (view self.old).writes other }
        ensures reads { (other : List ℕ) → (view self.new).reads other ≡ (view self.old).reads other }
        ensures called { OnOk result (Appends (view self.old).calls (view self.new).calls (WriteOf name.now ∷ [])) }
        ensures once { OnErr result (AppendsPart (view self.old).calls (view self.new).calls (WriteOf name.now ∷ [])) };
}

/// Takes bytes.
pub trait Sink {
    // What is told of it.
    ghost view: { Self → SinkView };

    /// Takes these bytes, or a front of them and fails.
    fn put(&mut self, bytes: &[u8]) -> Result<(), Failed>
        ensures ok { OnOk result (Appends (view self.old).taken (view self.new).taken bytes.now) }
        ensures part { OnErr result (AppendsPart (view self.old).taken (view self.new).taken bytes.now) }
        ensures cause { HasCause (view self.old).faults (view self.new).faults result }
        ensures called { HasPut (view self.old) (view self.new) (length bytes.now) };
}

/// The size of the pieces of `put_all`, in bytes.
pub const PIECE_BYTES: usize = 4096;

/// Puts these bytes, or a front of them and fails: in pieces of `PIECE_BYTES` bytes and a last one that may be shorter, none
/// of them empty.
pub fn put_all<O: Sink>(out: &mut O, bytes: &[u8]) -> Result<(), Failed>
    ensures ok { OnOk result (Appends (O.view out.old).taken (O.view out.new).taken bytes.now) }
    ensures part { OnErr result (AppendsPart (O.view out.old).taken (O.view out.new).taken bytes.now) }
    ensures cause { HasCause (O.view out.old).faults (O.view out.new).faults result }
    ensures pieces { OnOk result (PutsPieces (O.view out.old) (O.view out.new) (length bytes.now)) }
    ensures some { OnErr result (PutsSomePieces (O.view out.old) (O.view out.new) (length bytes.now)) }
{
    let mut at = 0;
    while at < bytes.len() {
        let end = if bytes.len() - at < PIECE_BYTES {
            bytes.len()
        } else {
            at + PIECE_BYTES
        };
        out.put(&bytes[at..end])?;
        at = end;
    }
    Ok(())
}

/// A place in the life of a fork.
#[derive(Clone, Copy, PartialEq, Eq)]
pub enum Point {
    /// A worker has made a fork, and has not begun its left side.
    Forked,
    /// A worker has stolen a fork, and has not begun its branch.
    Stolen,
    /// A worker has put an answer.
    Answered,
}

/// Where workers call at each point.
///
/// The rule for implementors, which no clause says: a gate tells nothing, and returns. For who writes workers:
/// no lock is held at a call.
///
/// A worker's number is that of its thread, and 0 is the caller's own. Where so many workers share one lock the numbers are less than
/// their count; where they steal from each other they are less than twice that, since there are twice as many threads as run at a
/// time. A gate returns for every number.
pub trait Gate {
    fn at(&self, worker: u32, point: Point);
}

/// A gate that returns at once.
#[derive(Clone, Copy, PartialEq, Eq)]
pub struct FreeGate;

impl Gate for FreeGate {
    fn at(&self, worker: u32, point: Point) {}
}
