//! The text of a value.

ghost use Rattle.std.specs.Prelude.{◌≡◌, ◌<◌, ◌+◌, ◌++◌, ◌∷◌, [], reverse, length, map, OnOk, IfOk};
ghost use Rattle.std.specs.Fmt.{signed_decimal};
ghost use Rattle.std.specs.List.{AllByRecursion};
ghost use Rattle.gib_types.specs.Tree.{IsTyped};
ghost use Rattle.gib_value.specs.{declared.write.Due.TheVariants.{Field as field_due}, Heap.{value_of, IsWithin}};
ghost use Rattle.gib_value.specs.{Text.{spell, text, truth_text, con_text, AreHeld}, Tags.{HasTags}, Writing.{due_text, due_size, size, IsDue}};

use crate::context::Context;
use crate::heap::Heap;
use crate::node::Node;
use crate::value::Value;
use gib_base::{Memory, Texts};
use gib_types::{ConId, TypeTable};
use itoa::Buffer;
use std::alloc::Global;

/// What is still to be written: a field after its space, or a closing parenthesis.
#[derive(Clone, Copy)]
enum Due {
    Field(Node),
    Close,
}

/// Writes a number.
fn push_number(out: &mut Vec<u8>, z: i64) -> Result<(), Memory>
    ensures { OnOk result (out.new.items ≡ out.old.items ++ signed_decimal z) }
{
    let mut digits = Buffer::new();
    out.extend_from_slice(digits.format(z).as_bytes())?;
    Ok(())
}

/// Writes a truth value.
fn push_truth(out: &mut Vec<u8>, b: bool) -> Result<(), Memory>
    ensures { OnOk result (out.new.items ≡ out.old.items ++ truth_text b) }
{
    if b {
        out.extend_from_slice(b"True")?;
    } else {
        out.extend_from_slice(b"False")?;
    }
    Ok(())
}

/// Writes the name of a constructor.
fn push_name(out: &mut Vec<u8>, context: &Context<'_>, con: ConId) -> Result<(), Memory>
    requires con { con.0 < length context.now.types.now.rows }
    requires names { AreHeld context.now.types.now context.now.names.now.short }
    ensures { OnOk result (out.new.items ≡ out.old.items ++ con_text context.now.types.now context.now.names.now.short con.0) }
{
    out.extend_from_slice(context.names.short(context.types.name_of(con)))?;
    Ok(())
}

/// Puts the fields of a constructor on the stack of what is due, the first one on top.
fn push_fields(due: &mut Vec<Due>, fields: &[Node]) -> Result<(), Memory>
    ensures { OnOk result (reverse due.new.items ≡ map field_due fields.now ++ reverse due.old.items) }
{
    let mut i = fields.len();
    'fields: while i > 0 {
        i -= 1;
        due.push(Due::Field(fields[i]))?;
    }
    Ok(())
}

/// A text as far as it is written, and what is still to be written.
#[derive(Drop)]
struct Writer {
    out: Vec<u8>,
    due: Vec<Due>,
}

impl Writer {
    /// Writes the front of a constructor's text, and puts what is left of it on the stack.
    fn push_con(&mut self, context: &Context<'_>, con: ConId, fields: &[Node]) -> Result<(), Memory>
        requires con { con.0 < length context.now.types.now.rows }
        requires names { AreHeld context.now.types.now context.now.names.now.short }
        ensures text { OnOk result (self.new.out.items ≡ (self.old.out.items ++ 40 ∷ []) ++ con_text context.now.types.now context.now.names.now.short con.0) }
        ensures due { OnOk result (reverse self.new.due.items ≡ map field_due fields.now ++ Due.Close ∷ reverse self.old.due.items) }
    {
        self.out.push(40)?;
        push_name(&mut self.out, context, con)?;
        self.due.push(Due::Close)?;
        push_fields(&mut self.due, fields)?;
        Ok(())
    }

    /// Writes the front of a node's text, and puts what is left of it on the stack.
    fn push_node(&mut self, context: &Context<'_>, heap: &Heap, node: Node) -> Result<(), Memory>
        requires names { AreHeld context.now.types.now context.now.names.now.short }
        requires within { IsWithin (length heap.now) node }
        requires tags { HasTags (length context.now.types.now.rows) (value_of heap.now node) }
        requires due { AllByRecursion (IsDue (length context.now.types.now.rows) heap.now) (reverse self.old.due.items) }
        ensures text { OnOk result (self.new.out.items ++ due_text context.now.types.now context.now.names.now.short heap.now (reverse self.new.due.items)
            ≡ self.old.out.items ++ spell context.now.types.now context.now.names.now.short (value_of heap.now node) (due_text context.now.types.now context.now.names.now.short heap.now (reverse self.old.due.items))) }
        ensures due { OnOk result (AllByRecursion (IsDue (length context.now.types.now.rows) heap.now) (reverse self.new.due.items)) }
        ensures less { OnOk result (due_size heap.now (reverse self.new.due.items) < size (value_of heap.now node) + due_size heap.now (reverse self.old.due.items)) }
    {
        match node {
            Node::Whole(z) => push_number(&mut self.out, z),
            Node::Truth(b) => push_truth(&mut self.out, b),
            Node::Con { con, count, first } => {
                if count == 0 {
                    return push_name(&mut self.out, context, con);
                }
                self.push_con(context, con, heap.fields(first, count))?;
                Ok(())
            }
        }
    }
}

/// The text of the value that a node is in a heap.
fn write_node(context: &Context<'_>, heap: &Heap, root: Node) -> Result<Vec<u8>, Memory>
    requires names { AreHeld context.now.types.now context.now.names.now.short }
    requires within { IsWithin (length heap.now) root }
    requires tags { HasTags (length context.now.types.now.rows) (value_of heap.now root) }
    ensures { IfOk result (λ out. out.items ≡ text context.now.types.now context.now.names.now.short (value_of heap.now root)) }
{
    let mut writer = Writer {
        out: Vec::new(context.alloc),
        due: Vec::new(context.alloc),
    };
    writer.push_node(context, heap, root)?;
    'due: while let Some(next) = writer.due.pop() {
        match next {
            Due::Close => writer.out.push(41)?,
            Due::Field(node) => {
                writer.out.push(32)?;
                writer.push_node(context, heap, node)?;
            }
        }
    }
    Ok(writer.out)
}

/// The text of a value.
///
/// # Errors
///
/// Want of memory.
pub fn write_text(
    alloc: Global,
    types: &TypeTable,
    names: &Texts,
    value: &Value,
) -> Result<Vec<u8>, Memory>
    requires typed { IsTyped types.now value.now }
    requires names { AreHeld types.now names.now.short }
    ensures { IfOk result (λ out. out.items ≡ text types.now names.now.short value.now) }
{
    let (heap, root) = value.parts();
    let context = Context {
        alloc,
        types,
        names,
    };
    write_node(&context, heap, root)
}
