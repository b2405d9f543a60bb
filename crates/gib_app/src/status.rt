//! How a call ends.

ghost use Rattle.std.specs.Prelude.{◌≡◌};
ghost use Rattle.gib_app.specs.Codes.{reason_code, code_of};

use gib_types::Reason;

/// How a call ends.
#[derive(Clone, Copy, PartialEq, Eq)]
pub enum Status {
    /// The output was put whole.
    Done,
    /// The source is too long, spells no program, or is not typed.
    Source,
    /// The words are not taken.
    Usage,
    /// The program means no value on the input, for this reason.
    NoValue(Reason),
    /// So many chunks of region memory may not be enough for what the run costs; in a replay they are not.
    Full,
    /// Want of memory.
    Memory,
    /// A file could not be read.
    ReadFault,
    /// A file, or the output, could not be written.
    WriteFault,
    /// The input is refused.
    Input,
    /// The packed file of the result would be too long.
    Long,
}

/// The exit status of the process where a program means no value, for this reason.
fn reason_code(why: Reason) -> u8
    ensures { result ≡ reason_code why }
{
    match why {
        Reason::Deep => 3,
        Reason::Trap => 9,
    }
}

impl Status {
    /// The exit status of the process.
    pub fn code(self) -> u8
        ensures { result ≡ code_of self }
    {
        match self {
            Status::Done => 0,
            Status::Source => 1,
            Status::Usage => 2,
            Status::NoValue(why) => reason_code(why),
            Status::Full => 4,
            Status::Memory => 5,
            Status::ReadFault => 6,
            Status::WriteFault => 7,
            Status::Input => 8,
            Status::Long => 10,
        }
    }
}
