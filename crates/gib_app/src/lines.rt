//! Puts a line, in pieces that take no memory.

ghost use Rattle.std.specs.Prelude.{◌≡◌, ◌<◌, ◌≤◌, ◌+◌, ◌++◌, ◌∷◌, length, drop, codes, OnOk, OnErr};
ghost use Rattle.std.specs.Fmt.{decimal};
ghost use Rattle.gib_edge.specs.Causes.{HasCause, Appends, AppendsPart};
ghost use Rattle.gib_app.specs.Lines.{line, said_text};

use crate::answer::{Detail, Said};
use gib_edge::outside::{Failed, Sink, put_all};

/// The greatest number of digits of a `u64`.
const DIGITS: usize = 20;

/// Writes a digit into a buffer.
fn write_digit(buffer: &mut [u8], at: usize, digit: u64)
    requires inside { at < length buffer.old }
    requires digit { digit < 10 }
    ensures written { drop at buffer.new ≡ (48 + digit) ∷ drop (at + 1) buffer.old }
    ensures length { length buffer.new ≡ length buffer.old }
{
    buffer[at] = b'0' + digit as u8;
}

/// Writes a number in decimal at the end of a buffer, and gives the place of its first digit.
fn write_decimal(buffer: &mut [u8], number: u64) -> usize
    requires { length buffer.old ≡ DIGITS }
    ensures within { result ≤ length buffer.new }
    ensures digits { drop result buffer.new ≡ decimal number }
{
    let mut at = buffer.len();
    let mut rest = number;
    'digits: while rest >= 10 {
        at -= 1;
        write_digit(buffer, at, rest % 10);
        rest /= 10;
    }
    at -= 1;
    write_digit(buffer, at, rest);
    at
}

/// Puts a number in decimal.
fn put_number<E: Sink>(err: &mut E, number: u64) -> Result<(), Failed>
    ensures ok { OnOk result (Appends (E.view err.old).taken (E.view err.new).taken (decimal number)) }
    ensures part { OnErr result (AppendsPart (E.view err.old).taken (E.view err.new).taken (decimal number)) }
    ensures cause { HasCause (E.view err.old).faults (E.view err.new).faults result }
{
    let mut buffer = [0; DIGITS];
    let start = write_decimal(&mut buffer, number);
    let (_, digits) = buffer.split_at(start);
    match put_all(err, digits) {
        Ok(()) => Ok(()),
        Err(failed) => Err(failed),
    }
}

/// Puts words, and then a name.
fn put_named<E: Sink>(err: &mut E, words: &[u8], name: &str) -> Result<(), Failed>
    ensures ok { OnOk result (Appends (E.view err.old).taken (E.view err.new).taken (words.now ++ name.now)) }
    ensures part { OnErr result (AppendsPart (E.view err.old).taken (E.view err.new).taken (words.now ++ name.now)) }
    ensures cause { HasCause (E.view err.old).faults (E.view err.new).faults result }
{
    put_all(err, words)?;
    put_all(err, name.as_bytes())?;
    Ok(())
}

/// Puts words, and then a number.
fn put_numbered<E: Sink>(err: &mut E, words: &[u8], number: u64) -> Result<(), Failed>
    ensures ok { OnOk result (Appends (E.view err.old).taken (E.view err.new).taken (words.now ++ decimal number)) }
    ensures part { OnErr result (AppendsPart (E.view err.old).taken (E.view err.new).taken (words.now ++ decimal number)) }
    ensures cause { HasCause (E.view err.old).faults (E.view err.new).faults result }
{
    put_all(err, words)?;
    put_number(err, number)?;
    Ok(())
}

/// Puts words, and then how many bytes.
fn put_sized<E: Sink>(err: &mut E, words: &[u8], count: u64) -> Result<(), Failed>
    ensures ok { OnOk result (Appends (E.view err.old).taken (E.view err.new).taken (words.now ++ (decimal count ++ codes " bytes"))) }
    ensures part { OnErr result (AppendsPart (E.view err.old).taken (E.view err.new).taken (words.now ++ (decimal count ++ codes " bytes"))) }
    ensures cause { HasCause (E.view err.old).faults (E.view err.new).faults result }
{
    put_all(err, words)?;
    put_count(err, count)?;
    Ok(())
}

/// Puts how many bytes.
fn put_count<E: Sink>(err: &mut E, count: u64) -> Result<(), Failed>
    ensures ok { OnOk result (Appends (E.view err.old).taken (E.view err.new).taken (decimal count ++ codes " bytes")) }
    ensures part { OnErr result (AppendsPart (E.view err.old).taken (E.view err.new).taken (decimal count ++ codes " bytes")) }
    ensures cause { HasCause (E.view err.old).faults (E.view err.new).faults result }
{
    put_number(err, count)?;
    put_all(err, b" bytes")?;
    Ok(())
}

/// Puts words, and then the number of a rule and that of a term.
fn put_rule<E: Sink>(err: &mut E, words: &[u8], rule: u64, term: u64) -> Result<(), Failed>
    ensures ok { OnOk result (Appends (E.view err.old).taken (E.view err.new).taken (words.now ++ (decimal rule ++ (codes " at term " ++ decimal term)))) }
    ensures part { OnErr result (AppendsPart (E.view err.old).taken (E.view err.new).taken
        (words.now ++ (decimal rule ++ (codes " at term " ++ decimal term)))) }
    ensures cause { HasCause (E.view err.old).faults (E.view err.new).faults result }
{
    put_all(err, words)?;
    put_term(err, rule, term)?;
    Ok(())
}

/// Puts the number of a rule and that of a term.
fn put_term<E: Sink>(err: &mut E, rule: u64, term: u64) -> Result<(), Failed>
    ensures ok { OnOk result (Appends (E.view err.old).taken (E.view err.new).taken (decimal rule ++ (codes " at term " ++ decimal term))) }
    ensures part { OnErr result (AppendsPart (E.view err.old).taken (E.view err.new).taken (decimal rule ++ (codes " at term " ++ decimal term))) }
    ensures cause { HasCause (E.view err.old).faults (E.view err.new).faults result }
{
    put_number(err, rule)?;
    put_numbered(err, b" at term ", term)?;
    Ok(())
}

/// Puts what is said.
fn put_said<E: Sink>(err: &mut E, said: Said<'_>) -> Result<(), Failed>
    ensures ok { OnOk result (Appends (E.view err.old).taken (E.view err.new).taken (said_text said.entry)) }
    ensures part { OnErr result (AppendsPart (E.view err.old).taken (E.view err.new).taken (said_text said.entry)) }
    ensures cause { HasCause (E.view err.old).faults (E.view err.new).faults result }
{
    match said.detail {
        Detail::Nothing => put_all(err, said.words),
        Detail::Number(number) => put_numbered(err, said.words, number),
        Detail::AtTerm(rule, term) => put_rule(err, said.words, rule, term),
        Detail::Bytes(count) => put_sized(err, said.words, count),
        Detail::Name(name) => put_named(err, said.words, name),
    }
}

/// Puts the line that says this.
pub fn put_line<E: Sink>(err: &mut E, said: Said<'_>) -> Result<(), Failed>
    ensures ok { OnOk result (Appends (E.view err.old).taken (E.view err.new).taken (line (said_text said.entry))) }
    ensures part { OnErr result (AppendsPart (E.view err.old).taken (E.view err.new).taken (line (said_text said.entry))) }
    ensures cause { HasCause (E.view err.old).faults (E.view err.new).faults result }
{
    put_all(err, b"gib: ")?;
    put_said(err, said)?;
    put_all(err, b"\n")?;
    Ok(())
}
