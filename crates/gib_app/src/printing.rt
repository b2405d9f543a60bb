//! The bytes that are printed.

ghost use Rattle.std.specs.Prelude.{◌≡◌, ℕ, List, length, None, Some, IfOk, IfErr, OnOk, IsErrOf};
ghost use Rattle.gib_types.specs.Tree.{IsTyped};
ghost use Rattle.gib_syntax.specs.{Parts.{program_of}, Declarations.{table_of_program}};
ghost use Rattle.gib_app.specs.{Rows.{ok_line}, Kept.{IsTextOf}, Running.{text_line}, declared.made.Reason.{Reason as Reasons}, Stops.{IsReady, reason_of}};
ghost use Rattle.gib_edge.specs.Causes.{Rose, Appends, AppendsPart, PutsPieces, PutsSomePieces};

use crate::compile::Compiled;
use crate::machine_run::print_ran;
use crate::made::{End, Made, Reason, Valued};
use crate::stop::Stop;
use gib_base::Memory;
use gib_edge::outside::Sink;
use gib_print::PrintFault;
use gib_value::{Value, write_text};
use std::alloc::Global;

/// The text of a value of a program, with a line feed.
pub fn value_line(alloc: Global, compiled: &Compiled, value: &Value) -> Result<Vec<u8>, Memory>
    requires ready { IsReady (program_of compiled.now.typed) compiled.now.names }
    requires typed { IsTyped (table_of_program (program_of compiled.now.typed)) value.now }
    ensures { IfOk result (λ line. line.items ≡ text_line (program_of compiled.now.typed) compiled.now.names value.now) }
{
    let mut line = write_text(alloc, compiled.typed.types(), &compiled.names, value)?;
    line.push(b'\n')?;
    Ok(line)
}

/// What a job made that makes no file and ends so.
fn only(end: End) -> Made
    ensures file { result.file ≡ None }
    ensures packed { result.packed ≡ None }
    ensures end { result.end ≡ end }
{
    Made {
        file: None,
        packed: None,
        end,
    }
}

/// What a job made that makes no file and ends with a text.
pub fn only_prints(text: Vec<u8>) -> Made
    ensures file { result.file ≡ None }
    ensures packed { result.packed ≡ None }
    ensures end { result.end ≡ End.Prints text }
{
    only(End::Prints(text))
}

/// What a job made that makes no file and ends without a value.
pub fn no_value(reason: Reason) -> Made
    ensures file { result.file ≡ None }
    ensures packed { result.packed ≡ None }
    ensures end { result.end ≡ End.NoValue reason }
{
    only(End::NoValue(reason))
}

/// What a job makes that stopped: there is no value, where that is why.
///
/// # Errors
///
/// The stop, where there is another cause.
pub fn of_stop(stop: Stop<'static>) -> Result<Made, Stop<'static>>
    ensures made { IfOk result (λ made. (reason : Reasons) × (reason_of stop.entry ≡ Some reason) × (made.file ≡ None) × (made.end ≡ End.NoValue reason)) }
    ensures alone { IfOk result (λ made. made.packed ≡ None) }
    ensures stop { IfErr result (λ other. (other ≡ stop.entry) × (reason_of stop.entry ≡ None)) }
{
    match stop.reason() {
        Some(reason) => Ok(no_value(reason)),
        None => Err(stop),
    }
}

/// What is printed where all is well and nothing else is to be said.
pub fn ok_answer(alloc: Global) -> Result<Vec<u8>, Memory>
    ensures { IfOk result (λ line. line.items ≡ ok_line) }
{
    Ok(Vec::from_slice(alloc, b"ok\n")?)
}

/// Puts the text of a value in region memory, with a line feed.
///
/// # Errors
///
/// `Memory`, and the sink was not called; `Write` where the sink failed, which took a front of the text.
pub fn put_value<O: Sink>(alloc: Global, mut value: Valued, out: &mut O) -> Result<(), PrintFault>
    requires { (text : List ℕ) × IsTextOf value text }
    ensures done { (text : List ℕ) → IsTextOf value text
        → OnOk result (Appends (O.view out.old).taken (O.view out.new).taken text × PutsPieces (O.view out.old) (O.view out.new) (length text)) }
    ensures part { (text : List ℕ) → IsTextOf value text → IsErrOf result PrintFault.Write
        → AppendsPart (O.view out.old).taken (O.view out.new).taken text × PutsSomePieces (O.view out.old) (O.view out.new) (length text) }
    ensures cause { IsErrOf result PrintFault.Write → Rose (O.view out.old).faults (O.view out.new).faults }
    ensures quiet { (IsErrOf result PrintFault.Write → ⊥) → (O.view out.new).faults ≡ (O.view out.old).faults }
    ensures still { IsErrOf result PrintFault.Memory → O.view out.new ≡ O.view out.old }
{
    print_ran(alloc, &mut value.ran, &value.names, out)
}
