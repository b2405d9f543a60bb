//! The items that the text of a value is cut into.

ghost use Rattle.std.specs.Prelude.{◌≡◌, ℕ, List, OnOk};
ghost use Rattle.gib_value.specs.Text.{AreHeld};
ghost use Rattle.gib_print.specs.{Cut.{IsItem}, Framing.{printed_text, IsPrintable}, Sending.{Sent}};

use crate::fault::PrintFault;
use crate::piece::{Piece, put_piece};
use crate::printed::{put_closes, put_truth, put_whole};
use crate::turn::Printed;
use crate::waiting::Waiting;
use crate::walk::walk_once;
use gib_base::Texts;
use gib_edge::outside::{Failed, Sink};
use gib_mem::Mem;
use gib_types::{ConId, Layouts};
use std::alloc::Global;

/// What all items of a text share.
#[derive(Clone, Copy)]
pub struct Printing<'a> {
    pub alloc: Global,
    pub layouts: &'a Layouts,
    pub names: &'a Texts,
}

/// An item of the text of a value: the front of all of it; what a turn prints; after a space the text of a value that stands at
/// an address; or the line feed behind all.
#[derive(Clone, Copy)]
pub enum Item {
    First(ConId),
    Turn(Printed),
    Part(u64),
    Line,
}

/// Puts what a turn prints, without the fronts that a walk keeps.
fn put_turn<O: Sink>(
    waiting: &mut Waiting,
    sink: &mut O,
    printing: Printing<'_>,
    printed: Printed,
) -> Result<(), Failed>
    requires known { IsPrintable printing.layouts.now.table printed }
    requires names { AreHeld printing.layouts.now.table printing.names.now.short }
    ensures { OnOk result (Sent (O.view sink.old) (O.view sink.new) waiting.old waiting.new
        (printed_text printing.entry.layouts.now.table printing.entry.names.now.short printed)) }
{
    match printed {
        Printed::Whole(z) => put_whole(waiting, sink, z),
        Printed::Truth(b) => put_truth(waiting, sink, b),
        Printed::Front(con) => {
            let types = printing.layouts.types();
            put_piece(waiting, sink, types, printing.names, Piece::Field(con))
        }
        Printed::Closes(count) => put_closes(waiting, sink, count),
    }
}

/// Puts an item; before the text of a part a space.
pub(crate) fn put_item<M: Mem, O: Sink>(
    mem: &mut M,
    printing: Printing<'_>,
    item: Item,
    waiting: &mut Waiting,
    sink: &mut O,
) -> Result<(), PrintFault>
    requires names { AreHeld printing.layouts.now.table printing.names.now.short }
    requires is { (bytes : List ℕ) × IsItem printing.layouts.now printing.names.now.short (M.view mem.old).cells item bytes }
    ensures done { (bytes : List ℕ) → IsItem printing.entry.layouts.now printing.entry.names.now.short (M.view mem.old).cells item bytes
        → OnOk result (Sent (O.view sink.old) (O.view sink.new) waiting.old waiting.new bytes) }
    ensures same { M.view mem.new ≡ M.view mem.old }
{
    match item {
        Item::First(con) => {
            let types = printing.layouts.types();
            put_piece(waiting, sink, types, printing.names, Piece::First(con))?;
            Ok(())
        }
        Item::Turn(printed) => {
            put_turn(waiting, sink, printing, printed)?;
            Ok(())
        }
        Item::Part(at) => {
            waiting.put_byte(sink, b' ')?;
            walk_once(mem, printing, at, waiting, sink)
        }
        Item::Line => {
            waiting.put_byte(sink, b'\n')?;
            Ok(())
        }
    }
}
