//! What a call answers to a stop: its status, and what its line says.

ghost use Rattle.std.specs.Prelude.{◌≡◌, ◌++◌, codes};
ghost use Rattle.std.specs.Fmt.{decimal};
ghost use Rattle.gib_app.specs.Lines.{rule_text, source_text, reason_text, header_text, packed_text, image_text, journal_text, input_text, said_text};
ghost use Rattle.gib_app.specs.Stopping.{answer_for, answer_of};

use crate::input_fault::{ImageFault, InputFault, JournalFault, PackedFault};
use crate::made::Reason;
use crate::source_fault::SourceFault;
use crate::status::Status;
use crate::stop::Stop;
use gib_check::Kind;
use gib_file::HeadFault;

/// What a line says: words, and what stands behind them.
#[derive(Clone, Copy)]
pub struct Said<'a> {
    pub words: &'a [u8],
    pub detail: Detail<'a>,
}

/// What stands behind the words of a line.
#[derive(Clone, Copy)]
pub enum Detail<'a> {
    Nothing,
    /// A number, in decimal.
    Number(u64),
    /// The number of a rule, and that of a term.
    AtTerm(u64, u64),
    /// So many bytes.
    Bytes(u64),
    /// The name of a file.
    Name(&'a str),
}

/// What a call answers to a stop.
#[derive(Clone, Copy)]
pub struct Answer<'a> {
    pub status: Status,
    pub said: Said<'a>,
}

impl<'a> Answer<'a> {
    fn new(status: Status, said: Said<'a>) -> Answer<'a>
        ensures status { result.status ≡ status }
        ensures said { result.said ≡ said.entry }
    {
        Answer { status, said }
    }
}

/// Words alone.
fn only(words: &'static [u8]) -> Said<'static>
    ensures { said_text result ≡ words.now }
{
    Said {
        words,
        detail: Detail::Nothing,
    }
}

/// Words and a number.
fn numbered(words: &'static [u8], number: u64) -> Said<'static>
    ensures { said_text result ≡ words.now ++ decimal number }
{
    Said {
        words,
        detail: Detail::Number(number),
    }
}

/// Words and the name of a file.
fn named<'a>(words: &'static [u8], name: &'a str) -> Said<'a>
    ensures { said_text result ≡ words.now ++ name.now }
{
    Said {
        words,
        detail: Detail::Name(name),
    }
}

/// What is said of a broken rule of typing, before its place.
fn rule_words(kind: Kind) -> &'static [u8]
    ensures { result.now ≡ codes "source: " ++ rule_text kind }
{
    match kind {
        Kind::Unknown => b"source: unknown name at ",
        Kind::Twice => b"source: name bound twice at ",
        Kind::Shape => b"source: wrong type at ",
        Kind::Arms => b"source: wrong arms at ",
        Kind::Count => b"source: wrong count at ",
        Kind::Limit => b"source: over a limit at ",
    }
}

/// What is said of a source that is no program.
fn of_source(fault: SourceFault) -> Said<'static>
    ensures { said_text result ≡ source_text fault }
{
    match fault {
        SourceFault::Long => only(b"source: longer than 1048576 bytes"),
        SourceFault::BadCharacter(place) => numbered(b"source: bad character at ", place as u64),
        SourceFault::BigNumber(place) => numbered(b"source: number too large at ", place as u64),
        SourceFault::ManyNames => only(b"source: more than 65535 names"),
        SourceFault::Syntax(place) => numbered(b"source: syntax at ", place as u64),
        SourceFault::Nested(place) => numbered(b"source: nested too deep at ", place as u64),
        SourceFault::Broken(kind, place) => numbered(rule_words(kind), place as u64),
        SourceFault::OverLimit(place) => numbered(b"source: over a limit at ", place as u64),
        SourceFault::Misplaced(place) => numbered(b"source: wrong place at ", place as u64),
        SourceFault::BreaksRule(rule, term) => Said {
            words: b"source: location rule ",
            detail: Detail::AtTerm(rule as u64, term),
        },
    }
}

/// What is said of a program that means no value.
fn of_reason(why: gib_types::Reason) -> Said<'static>
    ensures { said_text result ≡ reason_text why }
{
    match why {
        gib_types::Reason::Deep => only(b"depth"),
        gib_types::Reason::Trap => only(b"division by zero"),
    }
}

/// What is said of the header of a packed file.
fn of_header(fault: HeadFault) -> Said<'static>
    ensures { said_text result ≡ codes "input: " ++ header_text fault }
{
    match fault {
        HeadFault::Magic => only(b"input: not a packed file"),
        HeadFault::Version(version) => numbered(b"input: version ", version as u64),
        HeadFault::Reserved => only(b"input: reserved bytes"),
        HeadFault::Length => only(b"input: wrong length"),
    }
}

/// What is said of a file that is no packed one.
fn of_packed(fault: PackedFault) -> Said<'static>
    ensures { said_text result ≡ codes "input: " ++ packed_text fault }
{
    match fault {
        PackedFault::Header(fault) => of_header(fault),
        PackedFault::Types(place) => numbered(b"input: other types at ", place),
        PackedFault::Short(place) => numbered(b"input: short at ", place),
        PackedFault::Tag(place) => numbered(b"input: bad tag at ", place),
        PackedFault::Truth(place) => numbered(b"input: bad truth value at ", place),
        PackedFault::Trailing(place) => numbered(b"input: trailing bytes at ", place),
    }
}

/// What is said of a file that is no image.
fn of_image(fault: ImageFault) -> Said<'static>
    ensures { said_text result ≡ codes "input: " ++ image_text fault }
{
    match fault {
        ImageFault::Header => only(b"input: bad image header"),
        ImageFault::Item(at) => numbered(b"input: bad image at ", at),
        ImageFault::Long => only(b"input: image too long"),
    }
}

/// What is said of a journal that is refused.
fn of_journal(fault: JournalFault) -> Said<'static>
    ensures { said_text result ≡ codes "input: " ++ journal_text fault }
{
    match fault {
        JournalFault::Line(number) => numbered(b"input: bad journal at line ", number),
        JournalFault::NotEnabled(number) => {
            numbered(b"input: event not enabled at line ", number)
        }
        JournalFault::NotEnded => only(b"input: journal not ended"),
    }
}

/// What is said of inputs that are refused.
fn of_input(fault: InputFault) -> Said<'static>
    ensures { said_text result ≡ input_text fault }
{
    match fault {
        InputFault::Long(most) => Said {
            words: b"input: longer than ",
            detail: Detail::Bytes(most),
        },
        InputFault::Packed(fault) => of_packed(fault),
        InputFault::Image(fault) => of_image(fault),
        InputFault::Text(place) => numbered(b"input: bad text at ", place),
        InputFault::Journal(fault) => of_journal(fault),
    }
}

/// What a call answers to a job without a value.
fn without_value(reason: Reason) -> Answer<'static>
    ensures { answer_of result ≡ answer_for (Stop.NoValue reason) }
{
    match reason {
        Reason::Meant(why) => Answer::new(Status::NoValue(why), of_reason(why)),
        Reason::Full => Answer::new(Status::Full, only(b"chunks")),
        Reason::Long => Answer::new(Status::Long, only(b"result longer than 16777216 bytes")),
    }
}

/// What a call answers to a stop.
pub fn answer_to(stop: Stop<'_>) -> Answer<'_>
    ensures answer { answer_of result ≡ answer_for stop.entry }
    ensures status { result.status ≡ (answer_for stop.entry).status }
{
    match stop {
        Stop::Usage => Answer::new(Status::Usage, only(b"usage")),
        Stop::Source(fault) => Answer::new(Status::Source, of_source(fault)),
        Stop::Unread(name) => Answer::new(Status::ReadFault, named(b"cannot read ", name)),
        Stop::Input(fault) => Answer::new(Status::Input, of_input(fault)),
        Stop::NoValue(reason) => without_value(reason),
        Stop::Memory => Answer::new(Status::Memory, only(b"memory")),
        Stop::Unwritten(name) => Answer::new(Status::WriteFault, named(b"cannot write ", name)),
        Stop::Unput => Answer::new(Status::WriteFault, only(b"cannot write")),
    }
}
