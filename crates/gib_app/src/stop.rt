//! Why a call puts no output, or not all of it.

ghost use Rattle.std.specs.Prelude.{◌≡◌};

use crate::input_fault::InputFault;
use crate::made::Reason;
use crate::source_fault::SourceFault;

/// Why a call puts no output, or not all of it.
#[derive(Clone, Copy)]
pub enum Stop<'a> {
    /// The words are not taken.
    Usage,
    /// The source is no program.
    Source(SourceFault),
    /// The file of this name could not be read.
    Unread(&'a str),
    /// The inputs are refused.
    Input(InputFault),
    /// There is no value to print.
    NoValue(Reason),
    Memory,
    /// The file of this name could not be written.
    Unwritten(&'a str),
    /// The sink did not take all of the output.
    Unput,
}

impl<'a> Stop<'a> {
    ghost use Rattle.gib_app.specs.Stops.{reason_of};

    /// Why there is no value, where that is the stop.
    pub fn reason(self) -> Option<Reason>
        ensures { result ≡ reason_of self.entry }
    {
        match self {
            Stop::NoValue(reason) => Some(reason),
            _ => None,
        }
    }
}
