//! Why the inputs of a command are refused.

use gib_file::HeadFault;
use thiserror::Error;

/// Why the inputs of a command are refused.
#[derive(Clone, Copy, Debug, PartialEq, Eq, Error)]
pub enum InputFault {
    /// It, or the file that would be made of it, has more bytes than this.
    #[error("longer than {0} bytes")]
    Long(u64),
    /// It is no packed file of a value of the type that is due.
    #[error("no packed file of a value of the type")]
    Packed(PackedFault),
    /// It is no image of a value of the type that is due.
    #[error("no image of a value of the type")]
    Image(ImageFault),
    /// The token at this place of a text, in bytes from 0, cannot stand there.
    #[error("the token at byte {0} cannot stand there")]
    Text(u64),
    /// It is no journal whose events lead to an end.
    #[error("no journal that leads to an end")]
    Journal(JournalFault),
}

/// Why bytes are no packed file of a value of a type: the first fault of the header, else of the description, else of the payload;
/// a place counts the bytes of the one that it is in from 0.
#[derive(Clone, Copy, Debug, PartialEq, Eq, Error)]
pub enum PackedFault {
    /// It has no header of a packed file with its payload.
    #[error("no header of a packed file")]
    Header(HeadFault),
    /// What it says of its types differs from the type's description first at this byte of it.
    #[error("other types at byte {0}")]
    Types(u64),
    /// The tag, number or truth value at this place does not fit in what is left.
    #[error("bytes are missing at byte {0}")]
    Short(u64),
    /// The byte at this place is no tag of a constructor of the type that is due.
    #[error("no tag of the type at byte {0}")]
    Tag(u64),
    /// The byte at this place stands for a truth value, and is neither 0 nor 1.
    #[error("no truth value at byte {0}")]
    Truth(u64),
    /// The value ends at this place, before the end of the payload.
    #[error("the value ends before byte {0}")]
    Trailing(u64),
}

/// Why bytes that begin as an image does are no image of a value of a type.
#[derive(Clone, Copy, Debug, PartialEq, Eq, Error)]
pub enum ImageFault {
    /// The header is not that of an image with a value of the type, or the length is not that of its chunks.
    #[error("no header of an image")]
    Header,
    /// The item that begins at this address is cut or has no tag of the type, or the truth value there is past 1.
    #[error("no item at address {0}")]
    Item(u64),
    /// Reading meets more than 16,777,216 items.
    #[error("more than 16777216 items")]
    Long,
}

/// Why a journal is not replayed. Lines are counted from 1.
#[derive(Clone, Copy, Debug, PartialEq, Eq, Error)]
pub enum JournalFault {
    /// The line of this number is the first that cannot stand in a journal.
    #[error("bad journal at line {0}")]
    Line(u64),
    /// An event of the line of this number is not enabled.
    #[error("event not enabled at line {0}")]
    NotEnabled(u64),
    /// All events happened, and the root has not ended.
    #[error("journal not ended")]
    NotEnded,
}
