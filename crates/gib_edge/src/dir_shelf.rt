//! The files of the current folder.

ghost use Rattle.std.specs.Prelude.{◌≡◌, ◌≢◌, ℕ, List, ◌∷◌, [], ◌≤◌, length, OnOk, OnErr, IfOk, IsErrOf, IfErr, IfSome, None, false};

use crate::outside::{Shelf, ShelfFault};
use crate::streams::{read_file, write_file};
use std::alloc::Global;
use std::fs;
use std::rt::Files;

/// The files of the current folder. What they hold is not told, since others may change them, and no more is told of
/// its calls than how often they failed.
#[derive(Drop)]
pub struct DirShelf<'a, R: Files> {
    rt: &'a R,
    read_faults: u64,
    write_faults: u64,
}

impl<'a, R: Files> DirShelf<'a, R> {
    /// The current folder of this runtime.
    pub fn new(rt: &'a R) -> Self
        ensures reads { (name : List ℕ) → (⟦<DirShelf<'a, R> as Shelf>⟧.view result).reads name ≡ 0 }
        ensures writes { (name : List ℕ) → (⟦<DirShelf<'a, R> as Shelf>⟧.view result).writes name ≡ 0 }
    {
        DirShelf {
            rt,
            read_faults: 0,
            write_faults: 0,
        }
    }
}

impl<R: Files> Shelf for DirShelf<'_, R> {
    ghost use Rattle.gib_edge.specs.{Views.{Hidden, ReadOf, WriteOf}, Causes.{Rose, raised, told, IsFrontOf, Appends, AppendsPart}};

    ghost tells = { false };

    ghost view = { λ shelf. record { kept = λ name. Hidden; reads = λ name. shelf.read_faults; writes = λ name. shelf.write_faults; calls = None } };

    fn read(&mut self, alloc: Global, name: &str, most: u64) -> Result<Vec<u8>, ShelfFault>
        ensures bytes { IfOk result (λ bytes. IsFrontOf Hidden most bytes.items) }
        ensures most { IfOk result (λ bytes. length bytes.items ≤ most) }
        ensures cause { IsErrOf result ShelfFault.Failed → Rose self.old.read_faults self.new.read_faults }
        ensures later { (other : List ℕ) → self.old.read_faults ≤ self.new.read_faults }
        ensures quiet { (IsErrOf result ShelfFault.Failed → ⊥) → (other : List ℕ) → self.new.read_faults ≡ self.old.read_faults }
        ensures writes { (other : List ℕ) → self.new.write_faults ≡ self.old.write_faults }
        ensures called { OnOk result (Appends None None (ReadOf name.now most ∷ [])) }
        ensures once { OnErr result (AppendsPart None None (ReadOf name.now most ∷ [])) }
        ensures counted { IsErrOf result ShelfFault.Failed → self.new.read_faults ≡ raised self.old.read_faults 1 }
    {
        read_file(&mut self.read_faults, fs::open(self.rt, name), alloc, most)
    }

    fn write(&mut self, _alloc: Global, name: &str, bytes: &[u8]) -> Result<(), ShelfFault>
        ensures ok { OnOk result (Hidden ≡ told false bytes.now) }
        ensures cause { IsErrOf result ShelfFault.Failed → Rose self.old.write_faults self.new.write_faults }
        ensures later { (other : List ℕ) → self.old.write_faults ≤ self.new.write_faults }
        ensures quiet { (IsErrOf result ShelfFault.Failed → ⊥) → (other : List ℕ) → self.new.write_faults ≡ self.old.write_faults }
        ensures reads { (other : List ℕ) → self.new.read_faults ≡ self.old.read_faults }
        ensures called { OnOk result (Appends None None (WriteOf name.now ∷ [])) }
        ensures once { OnErr result (AppendsPart None None (WriteOf name.now ∷ [])) }
        ensures counted { IsErrOf result ShelfFault.Failed → self.new.write_faults ≡ raised self.old.write_faults 1 }
    {
        write_file(
            &mut self.write_faults,
            &mut fs::create(self.rt, name),
            bytes,
        )
    }
}
