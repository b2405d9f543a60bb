//! What a job makes.

use crate::machine_run::Ran;
use gib_arena::SoleMem;
use gib_base::Texts;

/// Why a job ends without a value.
#[derive(Clone, Copy, PartialEq, Eq)]
pub enum Reason {
    /// The program means none on the input, for this reason.
    Meant(gib_types::Reason),
    /// So many chunks of region memory may not be enough for what the run costs; in a replay they are not.
    Full,
    /// The packed file of the value, which is asked for, would be too long.
    Long,
}

/// A value in region memory, with the names of its program.
#[derive(Drop)]
pub struct Valued {
    pub ran: Ran<SoleMem>,
    pub names: Texts,
}

/// How a job ends.
#[derive(Drop)]
pub enum End {
    /// With these bytes, which are printed.
    Prints(Vec<u8>),
    /// With a value in region memory, whose text is printed.
    Value(Valued),
    NoValue(Reason),
}

/// What a job made: a file that is to be written, or none; the packed file of its result, where that is asked for, which is written behind the
/// other one; and its end.
#[derive(Drop)]
pub struct Made {
    pub file: Option<Vec<u8>>,
    pub packed: Option<Vec<u8>>,
    pub end: End,
}
