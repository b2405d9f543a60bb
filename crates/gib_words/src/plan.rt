//! What the words of a command line ask to do.

use gib_types::FieldAccess;

/// Where bytes come from.
#[derive(Clone, Copy)]
pub enum Document<'a> {
    /// They are part of the product.
    BuiltIn(&'a [u8]),
    /// They stand in the file of this name.
    Named(&'a str),
    /// They are the text of the program that is made of this number.
    MadeSource(u32),
    /// They are the packed file of the tree of so many levels that grows from this number.
    MadeInput(u32, u8),
}

/// What is done with a source and a second file.
#[derive(Clone, Copy, PartialEq, Eq)]
pub enum Job {
    /// Prints the value of a program on a packed input, within a depth of calls.
    Run,
    /// Prints the same by the plain evaluator.
    Plain,
    /// Says that a source is a typed program.
    Check,
    /// Prints the core of a program after a pass.
    Core,
    /// Prints the code of a program.
    Code,
    /// Makes a packed file of a value that is given as text, or by a packed file.
    Pack,
    /// Prints the value of a packed file.
    Show,
    /// Prints a line about the value of a program that was made, on an input that was made.
    Gen,
    /// Prints the value of a program on a packed input by workers over one lock, and writes the journal of what happened.
    Trace,
    /// Prints the value to which the events of a journal lead.
    Replay,
    /// Prints the value of a program that writes its places out on a packed input, within a depth of calls.
    Local,
}

/// The options of all jobs; a job looks at its own.
#[derive(Clone, Copy, PartialEq, Eq)]
pub struct Options {
    /// How many workers run.
    pub workers: u32,
    /// How deep calls may go.
    pub depth: u32,
    /// How many chunks of memory a run may draw.
    pub chunks: u32,
    /// How many forks may be nested, where there is more than one worker or a journal.
    pub fork: u32,
    /// After which pass the core is printed, from 1 to 4.
    pub pass: u32,
    /// Whether the image of region memory is written.
    pub image: bool,
    /// Whether the packed file of the result is written.
    pub packs: bool,
    /// How fields are reached.
    pub access: FieldAccess,
    /// What a program and its input are made of.
    pub number: u32,
    /// How many levels the input that is made has below its root.
    pub levels: u8,
    /// Whether what is packed is a packed file, and not the text of a value.
    pub repacks: bool,
    /// Whether a packed file of version 1 is written, and not of version 2.
    pub first_version: bool,
}

/// The names under which a source and an input that are made are written.
#[derive(Clone, Copy)]
pub struct MadeNames<'a> {
    pub source: &'a str,
    pub input: &'a str,
}

/// What to do: a source and an input are made and written, where they have names; the source is read, then the second file and the
/// third; the job is done with them; the file that it makes is written under the target's name, and then the packed file of its result
/// under the name `pack`.
#[derive(Clone, Copy)]
pub struct Plan<'a> {
    pub first: Option<MadeNames<'a>>,
    pub source: Document<'a>,
    pub second: Option<Document<'a>>,
    pub third: Option<Document<'a>>,
    pub target: Option<&'a str>,
    pub pack: Option<&'a str>,
    pub job: Job,
    pub options: Options,
}
