//! A shelf in memory, which fails when it is told to.

ghost use Rattle.std.specs.Prelude.{if◌then◌else◌, bytes_eq, ◌≡◌, ◌≢◌, ◌+◌, ◌≤◌, ◌++◌, ◌∷◌, ℕ, [], List, length, take, map, Some, None, IfOk, OnOk, OnErr, IsErr, vec_capacity, vec_len, MatchOption, IsErrOf, IsTrue, true, false};
ghost use Rattle.gib_edge.specs.{Views.{Missing, Has, ReadOf, WriteOf}, Causes.{Rose, raised, IsFrontOf, IsUntold, Appends, AppendsPart}};
ghost use Rattle.gib_edge.specs.InMemory.{kept_by, failed_reads, failed_writes, call_of, calls_of, shelf_view, is_due, ShelfTurned, IsNewShelf};
ghost use Rattle.gib_edge.specs.Files.{held, held_or_missing, others};

use crate::Memory;
use crate::mem_sink::prefix;
use crate::outside::{Shelf, ShelfFault};
use std::alloc::{AllocError, Global};

/// A call of a shelf.
#[derive(Drop)]
pub enum KeptCall {
    /// A read of this name, which asks for so many bytes.
    Read(String, u64),
    /// A write of this name.
    Write(String),
}

/// A shelf that keeps its files.
#[derive(Drop)]
pub struct MemShelf {
    files: Vec<(String, Vec<u8>)>,
    fails: Vec<u64>,
    calls: u64,
    called: Vec<KeptCall>,
    read_faults: u64,
    write_faults: u64,
}

impl MemShelf {
    /// A shelf with these files; of two with one name it has the first.
    /// It fails at the calls, reads and writes together, whose numbers (from 0) are listed.
    pub fn make(
        alloc: Global,
        files: Vec<(String, Vec<u8>)>,
        fails: Vec<u64>,
    ) -> Result<MemShelf, Memory>
        ensures files { IfOk result (λ shelf. (name : List ℕ) → kept_by shelf name ≡ held_or_missing (held files.items name)) }
        ensures new { IfOk result (IsNewShelf fails.items) }
    {
        Ok(MemShelf {
            files,
            fails,
            calls: 0,
            called: Vec::new(alloc),
            read_faults: 0,
            write_faults: 0,
        })
    }

    /// What a name holds.
    pub fn file(&self, name: &str) -> Option<&[u8]>
        ensures { MatchOption result (kept_by self.now name.now ≡ Missing) (λ bytes. kept_by self.now name.now ≡ Has bytes.now) }
    {
        find(&self.files, name)
    }

    /// How often a read has failed.
    pub fn read_faults(&self) -> u64
        ensures { result ≡ failed_reads self.now }
    {
        self.read_faults
    }

    /// How often a write has failed.
    pub fn write_faults(&self) -> u64
        ensures { result ≡ failed_writes self.now }
    {
        self.write_faults
    }

    /// How many calls there were.
    pub fn calls(&self) -> usize
        ensures { result ≡ length (calls_of self.now) }
    {
        self.called.len()
    }

    // Whether this call fails; one more was made.
    fn fails_now(&mut self) -> bool
        ensures due { result ≡ is_due self.old }
        ensures turn { ShelfTurned self.old self.new }
        ensures files { self.new.files ≡ self.old.files }
        ensures called { self.new.called ≡ self.old.called }
        ensures reads { self.new.read_faults ≡ self.old.read_faults }
        ensures writes { self.new.write_faults ≡ self.old.write_faults }
    {
        let call = self.calls;
        self.calls = call.saturating_add(1);
        self.fails.contains(&call)
    }
}

impl Shelf for MemShelf {
    ghost tells = { true };

    ghost view = { shelf_view };

    // It fails at the listed calls, and where the name is not there.
    fn read(&mut self, alloc: Global, name: &str, most: u64) -> Result<Vec<u8>, ShelfFault>
        ensures bytes { IfOk result (λ bytes. IsFrontOf (kept_by self.old name.now) most bytes.items) }
        ensures most { IfOk result (λ bytes. length bytes.items ≤ most) }
        ensures cause { IsErrOf result ShelfFault.Failed → Rose (failed_reads self.old) (failed_reads self.new) }
        ensures same { (other : List ℕ) → kept_by self.new other ≡ kept_by self.old other }
        ensures later { (other : List ℕ) → failed_reads self.old ≤ failed_reads self.new }
        ensures quiet { (IsErrOf result ShelfFault.Failed → ⊥) → (other : List ℕ) → failed_reads self.new ≡ failed_reads self.old }
        ensures writes { (other : List ℕ) → failed_writes self.new ≡ failed_writes self.old }
        ensures called { OnOk result (Appends (Some (calls_of self.old)) (Some (calls_of self.new)) (ReadOf name.now most ∷ [])) }
        ensures once { OnErr result (AppendsPart (Some (calls_of self.old)) (Some (calls_of self.new)) (ReadOf name.now most ∷ [])) }
        ensures due { IsTrue (is_due self.old) → IsErr result }
        ensures sure { is_due self.old ≡ false → (kept_by self.old name.now ≡ Missing → ⊥) → IsErrOf result ShelfFault.Failed → ⊥ }
        ensures counted { IsErrOf result ShelfFault.Failed → failed_reads self.new ≡ raised (failed_reads self.old) 1 }
        ensures turn { ShelfTurned self.old self.new }
    {
        let fails = self.fails_now();
        if note_read(&mut self.called, alloc, name, most).is_err() {
            return Err(ShelfFault::Memory);
        }
        if !fails {
            if let Some(bytes) = find(&self.files, name) {
                return match Vec::from_slice(alloc, prefix(bytes, most)) {
                    Ok(bytes) => Ok(bytes),
                    Err(_) => Err(ShelfFault::Memory),
                };
            }
        }
        self.read_faults = self.read_faults.saturating_add(1);
        Err(ShelfFault::Failed)
    }

    // It fails at the listed calls alone. A write that fails loses the file.
    fn write(&mut self, alloc: Global, name: &str, bytes: &[u8]) -> Result<(), ShelfFault>
        ensures ok { OnOk result (kept_by self.new name.now ≡ Has bytes.now) }
        ensures failed { IsErrOf result ShelfFault.Failed → IsUntold (kept_by self.new name.now) }
        ensures memory { IsErrOf result ShelfFault.Memory → (other : List ℕ) → kept_by self.new other ≡ kept_by self.old other }
        ensures others { (other : List ℕ) → other ≢ name.now → kept_by self.new other ≡ kept_by self.old other }
        ensures cause { IsErrOf result ShelfFault.Failed → Rose (failed_writes self.old) (failed_writes self.new) }
        ensures later { (other : List ℕ) → failed_writes self.old ≤ failed_writes self.new }
        ensures quiet { (IsErrOf result ShelfFault.Failed → ⊥) → (other : List ℕ) → failed_writes self.new ≡ failed_writes self.old }
        ensures reads { (other : List ℕ) → failed_reads self.new ≡ failed_reads self.old }
        ensures called { OnOk result (Appends (Some (calls_of self.old)) (Some (calls_of self.new)) (WriteOf name.now ∷ [])) }
        ensures once { OnErr result (AppendsPart (Some (calls_of self.old)) (Some (calls_of self.new)) (WriteOf name.now ∷ [])) }
        ensures due { IsTrue (is_due self.old) → IsErr result }
        ensures sure { is_due self.old ≡ false → IsErrOf result ShelfFault.Failed → ⊥ }
        ensures counted { IsErrOf result ShelfFault.Failed → failed_writes self.new ≡ raised (failed_writes self.old) 1 }
        ensures turn { ShelfTurned self.old self.new }
    {
        let fails = self.fails_now();
        if note_write(&mut self.called, alloc, name).is_err() {
            return Err(ShelfFault::Memory);
        }
        if fails {
            remove(&mut self.files, name);
            self.write_faults = self.write_faults.saturating_add(1);
            return Err(ShelfFault::Failed);
        }
        match store(&mut self.files, alloc, name, bytes) {
            Ok(()) => Ok(()),
            Err(_) => Err(ShelfFault::Memory),
        }
    }
}

// Puts a read at the end of the calls.
fn note_read(
    called: &mut Vec<KeptCall>,
    alloc: Global,
    name: &str,
    most: u64,
) -> Result<(), AllocError>
    ensures ok { OnOk result (map call_of called.new.items ≡ map call_of called.old.items ++ ReadOf name.now most ∷ []) }
    ensures err { OnErr result (called.new.items ≡ called.old.items) }
{
    let name = String::from_str(alloc, name)?;
    called.push(KeptCall::Read(name, most))?;
    Ok(())
}

// Puts a write at the end of the calls.
fn note_write(called: &mut Vec<KeptCall>, alloc: Global, name: &str) -> Result<(), AllocError>
    ensures ok { OnOk result (map call_of called.new.items ≡ map call_of called.old.items ++ WriteOf name.now ∷ []) }
    ensures err { OnErr result (called.new.items ≡ called.old.items) }
{
    let name = String::from_str(alloc, name)?;
    called.push(KeptCall::Write(name))?;
    Ok(())
}

// The bytes of the first file of a name.
fn find<'a>(files: &'a [(String, Vec<u8>)], name: &str) -> Option<&'a [u8]>
    ensures { MatchOption result (held files.now name.now ≡ None) (λ bytes. held files.now name.now ≡ Some bytes.now) }
{
    for (file, bytes) in files {
        if file.as_str() == name {
            return Some(bytes.as_slice());
        }
    }
    None
}

// Leaves out every file of a name.
fn remove(files: &mut Vec<(String, Vec<u8>)>, name: &str)
    ensures items { files.new.items ≡ others name.now files.old.items }
    ensures left { (other : List ℕ) → held files.new.items other ≡ (if bytes_eq name.now other then None else held files.old.items other) }
    ensures fewer { vec_len files.new ≤ vec_len files.old }
    ensures capacity { vec_capacity files.new ≡ vec_capacity files.old }
{
    files.retain(|file| file.0.as_str() != name);
}

// Puts a file in the place of those of its name.
fn store(
    files: &mut Vec<(String, Vec<u8>)>,
    alloc: Global,
    name: &str,
    bytes: &[u8],
) -> Result<(), AllocError>
    ensures ok { OnOk result ((other : List ℕ) → held files.new.items other ≡ (if bytes_eq name.now other then Some bytes.now else held files.old.items other)) }
    ensures err { OnErr result (files.new.items ≡ files.old.items) }
{
    let file = (
        String::from_str(alloc, name)?,
        Vec::from_slice(alloc, bytes)?,
    );
    files.reserve(1)?;
    remove(files, name);
    files.push_reserved(file);
    Ok(())
}
