//! What an arm begins with.

ghost use Rattle.std.specs.Prelude.{◌≡◌, ◌≤◌, ◌+◌, ◌*◌, ◌++◌, length, map, IfOk, OnOk};
ghost use Rattle.gib_types.specs.Layout.{layout_at};
ghost use Rattle.gib_code.specs.Instruction.{instruction_of};
ghost use Rattle.gib_core.specs.Low.{scalar_reads, arm_opening};

use crate::fields::first_packed;
use gib_base::Memory;
use gib_code::Instr;
use gib_core::Variable;
use gib_types::{ConId, Layouts, Ty};
use std::alloc::Global;

/// The scalar fields are read, from a place of the head on.
fn read_scalars(
    instrs: &mut Vec<Instr>,
    tree: u32,
    first: u8,
    mut types: &[Ty],
    mut variables: &[Variable],
) -> Result<(), Memory>
    requires { first + 8 * length types.now ≤ 255 }
    ensures { OnOk result (map instruction_of instrs.new.items ≡ map instruction_of instrs.old.items ++ scalar_reads tree first types.entry.now variables.entry.now) }
{
    let mut place = first;
    'types: while let [ty, types_after @ ..] = types {
        match variables {
            [] => return Ok(()),
            [variable, after @ ..] => {
                let to = variable.0;
                match ty {
                    Ty::Whole => {
                        instrs.push(Instr::Whole { to, tree, place })?;
                        place += 8;
                    }
                    Ty::Truth => {
                        instrs.push(Instr::Truth { to, tree, place })?;
                        place += 1;
                    }
                    Ty::Tree(_) => {}
                }
                types = types_after;
                variables = after;
            }
        }
    }
    Ok(())
}

/// What an arm begins with: its scalar fields are read, and its first packed field is reached.
pub(crate) fn opening(
    alloc: Global,
    layouts: &Layouts,
    tree: u32,
    constructor: ConId,
    variables: &[Variable],
) -> Result<Vec<Instr>, Memory>
    ensures { IfOk result (λ instrs. map instruction_of instrs.items ≡ arm_opening layouts.now tree constructor.0 variables.now) }
{
    layouts.rules();
    let layout = layouts.layout(constructor);
    let types = layouts.fields(constructor);
    let mut instrs = Vec::new(alloc);
    read_scalars(&mut instrs, tree, 1 + layout.offsets, types, variables)?;
    match first_packed(types, variables) {
        None => Ok(instrs),
        Some(first) => {
            instrs.push(Instr::First {
                to: first.variable.0,
                tree,
                place: layout.head,
            })?;
            Ok(instrs)
        }
    }
}
