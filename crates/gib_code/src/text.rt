//! Code as text.

ghost use Rattle.std.specs.Prelude.{◌≡◌, ◌++◌, [], ◌∷◌, ◌==◌, ◌<◌, ◌≤◌, length, drop, slice_get, unwrap_or, codes, true, false, Some, None, IfOk, OnOk, ℕ, List};
ghost use Rattle.std.specs.List.{flat_map};
ghost use Rattle.std.specs.Fmt.{decimal, signed_decimal};
ghost use Rattle.std.specs.Int.{w64, cast_signed};
ghost use Rattle.gib_code.specs.{Instruction.{instruction_of, target_slots}, Program.{CodeTree}};
ghost use Rattle.gib_code.specs.Families.{family_of, Setting, Putting, Jumping, Calling, Forking, Telling, Parting};
ghost use Rattle.gib_code.specs.ListingText.{name_text, number_text, slot_text, operand_text, operation_text, kind_text, constructor_text, called, function_text, label_text, instruction_text, line_text, title, head_text, head_at, later_than, lines_text, listing_text};

use crate::code::Code;
use crate::instruction::{Arm, Entry, Instr, Kind, Operand, Targets};
use crate::names::{push_name, push_name_behind_space};
use gib_base::{Memory, Name, Texts, push_decimal, push_signed};
use gib_types::{ConId, Operator, TypeTable};
use std::alloc::Global;

/// What the lines of a listing are written with.
#[derive(Clone, Copy, Drop)]
struct Given<'a> {
    alloc: Global,
    names: &'a Texts,
    code: &'a Code,
}

/// The name of a function; of a number that no function has, main.
fn called(functions: &[Entry], function: u32) -> Option<Name>
    ensures { result ≡ called (slice_get functions.now function) }
{
    let place = function as usize;
    if place < functions.len() {
        functions[place].name
    } else {
        None
    }
}

/// Writes what a function is called.
fn push_title(out: &mut Vec<u8>, names: &Texts, name: Option<Name>) -> Result<(), Memory>
    ensures { OnOk result (out.new.items ≡ out.old.items ++ title names.now.long name) }
{
    match name {
        None => push_bytes(out, b"main"),
        Some(name) => push_name(out, names, name),
    }
}

fn push_bytes(out: &mut Vec<u8>, bytes: &[u8]) -> Result<(), Memory>
    ensures { OnOk result (out.new.items ≡ out.old.items ++ bytes.now) }
{
    out.extend_from_slice(bytes)?;
    Ok(())
}

fn push_number(alloc: Global, out: &mut Vec<u8>, number: u32) -> Result<(), Memory>
    ensures { OnOk result (out.new.items ≡ out.old.items ++ number_text number) }
{
    out.push(b' ')?;
    push_decimal(alloc, out, u64::from(number))
}

/// A slot by its number, which may be more than any that code has.
fn push_slot_at(alloc: Global, out: &mut Vec<u8>, slot: u64) -> Result<(), Memory>
    ensures { OnOk result (out.new.items ≡ out.old.items ++ slot_text slot) }
{
    out.push(b' ')?;
    out.push(b'%')?;
    push_decimal(alloc, out, slot)
}

fn push_slot(alloc: Global, out: &mut Vec<u8>, slot: u32) -> Result<(), Memory>
    ensures { OnOk result (out.new.items ≡ out.old.items ++ slot_text slot) }
{
    push_slot_at(alloc, out, u64::from(slot))
}

fn push_whole(alloc: Global, out: &mut Vec<u8>, value: i64) -> Result<(), Memory>
    ensures { OnOk result (out.new.items ≡ out.old.items ++ 32 ∷ signed_decimal value) }
{
    out.push(b' ')?;
    push_signed(alloc, out, value)
}

fn push_operand(alloc: Global, out: &mut Vec<u8>, operand: Operand) -> Result<(), Memory>
    ensures { OnOk result (out.new.items ≡ out.old.items ++ operand_text operand) }
{
    match operand {
        Operand::Slot(slot) => push_slot(alloc, out, slot),
        Operand::Number(word) => push_whole(alloc, out, word.cast_signed()),
    }
}

fn push_operands(alloc: Global, out: &mut Vec<u8>, operands: &[Operand]) -> Result<(), Memory>
    ensures { OnOk result (out.new.items ≡ out.old.items ++ flat_map operand_text operands.now) }
{
    let mut rest = operands;
    'operands: while let [operand, after @ ..] = rest {
        push_operand(alloc, out, *operand)?;
        rest = after;
    }
    Ok(())
}

fn push_slots(alloc: Global, out: &mut Vec<u8>, slots: &[u32]) -> Result<(), Memory>
    ensures { OnOk result (out.new.items ≡ out.old.items ++ flat_map slot_text slots.now) }
{
    let mut rest = slots;
    'slots: while let [slot, after @ ..] = rest {
        push_slot(alloc, out, *slot)?;
        rest = after;
    }
    Ok(())
}

/// The slots that the value of a right side sets.
fn push_targets(alloc: Global, out: &mut Vec<u8>, targets: Targets) -> Result<(), Memory>
    ensures { OnOk result (out.new.items ≡ out.old.items ++ flat_map slot_text (target_slots targets)) }
{
    let mut slot = u64::from(targets.first);
    let behind = slot + u64::from(targets.count);
    'slots: while slot < behind {
        push_slot_at(alloc, out, slot)?;
        slot += 1;
    }
    Ok(())
}

fn push_labels(alloc: Global, out: &mut Vec<u8>, arms: &[Arm]) -> Result<(), Memory>
    ensures { OnOk result (out.new.items ≡ out.old.items ++ flat_map label_text arms.now) }
{
    let mut rest = arms;
    'arms: while let [arm, after @ ..] = rest {
        push_number(alloc, out, arm.label)?;
        rest = after;
    }
    Ok(())
}

fn operation_text(operator: Operator) -> &'static [u8]
    ensures { result.now ≡ operation_text operator }
{
    match operator {
        Operator::Add => b" add",
        Operator::Subtract => b" sub",
        Operator::Multiply => b" mul",
        Operator::Equal => b" eq",
        Operator::Less => b" lt",
        Operator::Quotient => b" quot",
        Operator::Remainder => b" rem",
    }
}

fn kind_text(kind: Kind) -> &'static [u8]
    ensures { result.now ≡ kind_text kind }
{
    match kind {
        Kind::Here => b" here",
        Kind::Region => b" region",
        Kind::Scalar => b" scalar",
        Kind::Several => b" several",
    }
}

fn push_constructor(
    out: &mut Vec<u8>,
    names: &Texts,
    types: &TypeTable,
    con: u32,
) -> Result<(), Memory>
    ensures { OnOk result (out.new.items ≡ out.old.items ++ constructor_text names.now.long types.now con) }
{
    push_name_behind_space(out, names, types.name_of(ConId(con)))
}

fn push_function(
    out: &mut Vec<u8>,
    names: &Texts,
    functions: &[Entry],
    function: u32,
) -> Result<(), Memory>
    ensures { OnOk result (out.new.items ≡ out.old.items ++ function_text names.now.long functions.now function) }
{
    out.push(b' ')?;
    push_title(out, names, called(functions, function))
}

/// A word, a slot that is set, a slot that is read, and a number.
fn push_read(
    alloc: Global,
    out: &mut Vec<u8>,
    word: &[u8],
    to: u32,
    from: u32,
    place: u8,
) -> Result<(), Memory>
    ensures { OnOk result (out.new.items ≡ out.old.items ++ (word.now ++ (slot_text to ++ (slot_text from ++ number_text place)))) }
{
    push_bytes(out, word)?;
    push_slot(alloc, out, to)?;
    push_slot(alloc, out, from)?;
    push_number(alloc, out, u32::from(place))
}

/// A word, and a slot.
fn push_one(alloc: Global, out: &mut Vec<u8>, word: &[u8], slot: u32) -> Result<(), Memory>
    ensures { OnOk result (out.new.items ≡ out.old.items ++ (word.now ++ slot_text slot)) }
{
    push_bytes(out, word)?;
    push_slot(alloc, out, slot)
}

/// Writes an instruction that sets a slot.
fn push_setting(alloc: Global, out: &mut Vec<u8>, instr: &Instr) -> Result<(), Memory>
    requires { family_of (instruction_of instr.now) ≡ Setting }
    ensures { (names : List (List ℕ)) (code : CodeTree) → OnOk result (out.new.items ≡ out.old.items ++ instruction_text names code (instruction_of instr.now)) }
{
    match instr {
        Instr::Move { to, from } => {
            push_one(alloc, out, b" move", *to)?;
            push_operand(alloc, out, *from)
        }
        Instr::Operate {
            to,
            operator,
            left,
            right,
        } => {
            push_one(alloc, out, operation_text(*operator), *to)?;
            push_operand(alloc, out, *left)?;
            push_operand(alloc, out, *right)
        }
        Instr::Whole { to, tree, place } => push_read(alloc, out, b" whole", *to, *tree, *place),
        Instr::Truth { to, tree, place } => push_read(alloc, out, b" truth", *to, *tree, *place),
        Instr::First { to, tree, place } => push_read(alloc, out, b" first", *to, *tree, *place),
        Instr::Offset { to, tree, place } => push_read(alloc, out, b" offset", *to, *tree, *place),
        Instr::Skip { to, from } => {
            push_one(alloc, out, b" skip", *to)?;
            push_slot(alloc, out, *from)
        }
        _ => unreachable!(),
    }
}

/// Writes an instruction that puts a value.
fn push_putting(given: &Given<'_>, out: &mut Vec<u8>, instr: &Instr) -> Result<(), Memory>
    requires { family_of (instruction_of instr.now) ≡ Putting }
    ensures { OnOk result (out.new.items ≡ out.old.items ++ instruction_text given.now.names.now.long given.now.code.now (instruction_of instr.now)) }
{
    match instr {
        Instr::Begin(slot) => push_one(given.alloc, out, b" begin", *slot),
        Instr::Done => push_bytes(out, b" done"),
        Instr::Here(slot) => push_one(given.alloc, out, b" here", *slot),
        Instr::Past { head, constructor } => {
            push_one(given.alloc, out, b" past", *head)?;
            push_constructor(out, given.names, given.code.layouts().types(), *constructor)
        }
        Instr::Fill {
            head,
            constructor,
            scalars,
            packed,
        } => {
            push_one(given.alloc, out, b" fill", *head)?;
            push_constructor(out, given.names, given.code.layouts().types(), *constructor)?;
            push_operands(given.alloc, out, scalars)?;
            push_slots(given.alloc, out, packed)
        }
        Instr::Point(slot) => push_one(given.alloc, out, b" point", *slot),
        _ => unreachable!(),
    }
}

/// Writes an instruction that goes to a label.
fn push_jumping(alloc: Global, out: &mut Vec<u8>, instr: &Instr) -> Result<(), Memory>
    requires { family_of (instruction_of instr.now) ≡ Jumping }
    ensures { (names : List (List ℕ)) (code : CodeTree) → OnOk result (out.new.items ≡ out.old.items ++ instruction_text names code (instruction_of instr.now)) }
{
    match instr {
        Instr::Jump(label) => {
            push_bytes(out, b" jump")?;
            push_number(alloc, out, *label)
        }
        Instr::Unless { test, label } => {
            push_bytes(out, b" unless")?;
            push_operand(alloc, out, *test)?;
            push_number(alloc, out, *label)
        }
        Instr::Switch { tree, arms } => {
            push_one(alloc, out, b" switch", *tree)?;
            push_labels(alloc, out, arms)
        }
        _ => unreachable!(),
    }
}

/// Writes an instruction that begins or ends a call.
fn push_calling(given: &Given<'_>, out: &mut Vec<u8>, instr: &Instr) -> Result<(), Memory>
    requires { family_of (instruction_of instr.now) ≡ Calling }
    ensures { OnOk result (out.new.items ≡ out.old.items ++ instruction_text given.now.names.now.long given.now.code.now (instruction_of instr.now)) }
{
    match instr {
        Instr::Call {
            function,
            arguments,
        } => {
            push_bytes(out, b" call")?;
            push_function(out, given.names, given.code.functions(), *function)?;
            push_operands(given.alloc, out, arguments)
        }
        Instr::CallScalar {
            to,
            function,
            arguments,
        } => {
            push_one(given.alloc, out, b" callv", *to)?;
            push_function(out, given.names, given.code.functions(), *function)?;
            push_operands(given.alloc, out, arguments)
        }
        Instr::Return => push_bytes(out, b" ret"),
        Instr::Give(operand) => {
            push_bytes(out, b" give")?;
            push_operand(given.alloc, out, *operand)
        }
        _ => unreachable!(),
    }
}

/// Writes an instruction that begins or ends a side.
fn push_forking(alloc: Global, out: &mut Vec<u8>, instr: &Instr) -> Result<(), Memory>
    requires { family_of (instruction_of instr.now) ≡ Forking }
    ensures { (names : List (List ℕ)) (code : CodeTree) → OnOk result (out.new.items ≡ out.old.items ++ instruction_text names code (instruction_of instr.now)) }
{
    match instr {
        Instr::Fork(fork) => {
            push_bytes(out, b" fork")?;
            push_number(alloc, out, fork.right)?;
            push_number(alloc, out, fork.joint)?;
            push_bytes(out, kind_text(fork.kind))?;
            push_targets(alloc, out, fork.targets)
        }
        Instr::Join => push_bytes(out, b" join"),
        Instr::Back => push_bytes(out, b" back"),
        _ => unreachable!(),
    }
}

/// Writes an instruction on where the value of a variable ends.
fn push_telling(alloc: Global, out: &mut Vec<u8>, instr: &Instr) -> Result<(), Memory>
    requires { family_of (instruction_of instr.now) ≡ Telling }
    ensures { (names : List (List ℕ)) (code : CodeTree) → OnOk result (out.new.items ≡ out.old.items ++ instruction_text names code (instruction_of instr.now)) }
{
    match instr {
        Instr::Got { to, parameter } => {
            push_one(alloc, out, b" got", *to)?;
            push_number(alloc, out, *parameter)
        }
        Instr::OverEnd { to, from } => {
            push_one(alloc, out, b" over", *to)?;
            push_slot(alloc, out, *from)
        }
        Instr::LeafEnd { to, size } => {
            push_one(alloc, out, b" leafend", *to)?;
            push_number(alloc, out, u32::from(*size))
        }
        Instr::EndOf { to, from } => {
            push_one(alloc, out, b" end", *to)?;
            push_slot(alloc, out, *from)
        }
        _ => unreachable!(),
    }
}

/// Writes an instruction on a part of a result.
fn push_parting(alloc: Global, out: &mut Vec<u8>, instr: &Instr) -> Result<(), Memory>
    requires { family_of (instruction_of instr.now) ≡ Parting }
    ensures { (names : List (List ℕ)) (code : CodeTree) → OnOk result (out.new.items ≡ out.old.items ++ instruction_text names code (instruction_of instr.now)) }
{
    match instr {
        Instr::Into { part, .. } => {
            push_bytes(out, b" into")?;
            push_number(alloc, out, u32::from(*part))
        }
        Instr::Out { .. } => push_bytes(out, b" out"),
        Instr::GiveParts(scalars) => {
            push_bytes(out, b" gives")?;
            push_operands(alloc, out, scalars)
        }
        Instr::Part { to, part } => {
            push_one(alloc, out, b" part", *to)?;
            push_number(alloc, out, u32::from(*part))
        }
        _ => unreachable!(),
    }
}

/// Writes an instruction.
fn push_instruction(given: &Given<'_>, out: &mut Vec<u8>, instr: &Instr) -> Result<(), Memory>
    ensures { OnOk result (out.new.items ≡ out.old.items ++ instruction_text given.now.names.now.long given.now.code.now (instruction_of instr.now)) }
{
    match instr {
        Instr::Begin(_)
        | Instr::Done
        | Instr::Here(_)
        | Instr::Past { .. }
        | Instr::Fill { .. }
        | Instr::Point(_) => push_putting(given, out, instr),
        Instr::Jump(_) | Instr::Unless { .. } | Instr::Switch { .. } => {
            push_jumping(given.alloc, out, instr)
        }
        Instr::Call { .. } | Instr::CallScalar { .. } | Instr::Return | Instr::Give(_) => {
            push_calling(given, out, instr)
        }
        Instr::Fork(_) | Instr::Join | Instr::Back => push_forking(given.alloc, out, instr),
        Instr::Got { .. } | Instr::OverEnd { .. } | Instr::LeafEnd { .. } | Instr::EndOf { .. } =>
            push_telling(given.alloc, out, instr),
        Instr::Into { .. } | Instr::Out { .. } | Instr::GiveParts(_) | Instr::Part { .. } => {
            push_parting(given.alloc, out, instr)
        }
        _ => push_setting(given.alloc, out, instr),
    }
}

/// Writes the line of an instruction.
fn push_line(
    given: &Given<'_>,
    out: &mut Vec<u8>,
    number: usize,
    instr: &Instr,
) -> Result<(), Memory>
    ensures { OnOk result (out.new.items ≡ out.old.items ++ line_text given.now.names.now.long given.now.code.now number (instruction_of instr.now)) }
{
    push_decimal(given.alloc, out, number as u64)?;
    push_instruction(given, out, instr)?;
    out.push(b'\n')?;
    Ok(())
}

/// Writes the line of a function.
fn push_head(
    alloc: Global,
    out: &mut Vec<u8>,
    names: &Texts,
    function: &Entry,
) -> Result<(), Memory>
    ensures { OnOk result (out.new.items ≡ out.old.items ++ head_text names.now.long function.now) }
{
    push_title(out, names, function.name)?;
    push_number(alloc, out, function.slots)?;
    out.push(b'\n')?;
    Ok(())
}

/// Writes the line of the next function, where it begins at an instruction.
fn push_head_at(
    alloc: Global,
    out: &mut Vec<u8>,
    names: &Texts,
    functions: &[Entry],
    number: usize,
) -> Result<(), Memory>
    ensures { OnOk result (out.new.items ≡ out.old.items ++ head_at names.now.long number functions.now) }
{
    match functions {
        [] => Ok(()),
        [function, ..] => {
            if function.start as usize == number {
                push_head(alloc, out, names, function)
            } else {
                Ok(())
            }
        }
    }
}

/// The functions that begin later.
fn later_than(functions: &[Entry], number: usize) -> &[Entry]
    ensures { result.now ≡ later_than number functions.now }
{
    match functions {
        [] => functions,
        [function, further @ ..] => {
            if function.start as usize == number {
                further
            } else {
                functions
            }
        }
    }
}

/// The listing of code, with the names of its program.
///
/// # Errors
///
/// Want of memory.
pub fn listing(alloc: Global, code: &Code, names: &Texts) -> Result<Vec<u8>, Memory>
    ensures { IfOk result (λ out. out.items ≡ listing_text names.now.long code.now) }
{
    let given = Given { alloc, names, code };
    let mut out = Vec::new(alloc);
    let instructions = code.instructions();
    let mut functions = code.functions();
    let mut number = 0;
    'instructions: while number < instructions.len() {
        push_head_at(alloc, &mut out, names, functions, number)?;
        push_line(&given, &mut out, number, &instructions[number])?;
        functions = later_than(functions, number);
        number += 1;
    }
    Ok(out)
}
