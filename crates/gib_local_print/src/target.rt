//! Where the terms of a printed core are put.

ghost use Rattle.std.specs.Prelude.{◌≡◌, ◌+◌, ◌++◌, ◌∷◌, [], length, map, IfOk, OnOk};
ghost use Rattle.gib_core.specs.Arena.{term_of, bind_from, binds_from};
ghost use Rattle.gib_local.specs.Builds.{destination_of};
ghost use Rattle.gib_local_print.specs.{Printing.{are_fields, side_place, behind_bind}, LineTokens.{before_each, behind_all}};

use gib_base::Memory;
use gib_core::{Binding, Kind, Terms};
use gib_loccheck::Destination;
use gib_types::TypeTable;
use std::alloc::Global;

/// What terms are printed of.
#[derive(Clone, Copy)]
pub struct Printed<'a> {
    pub alloc: Global,
    pub types: &'a TypeTable,
    pub terms: &'a Terms,
}

/// Where a value is put: the destination, and the number by which its location is named.
#[derive(Drop)]
pub struct Target {
    pub destination: Destination,
    pub at: u32,
}

/// The destination behind a binding.
fn pass(from: &Printed, destination: &mut Destination, binding: Binding) -> Result<(), Memory>
    ensures { OnOk result (destination_of destination.new ≡ behind_bind (destination_of destination.old) (bind_from (term_of from.now.terms.now) binding)) }
{
    match binding {
        Binding::Past { head, constructor } => {
            *destination = Destination::Open {
                head,
                constructor,
                standing: Vec::new(from.alloc),
            };
            Ok(())
        }
        Binding::One(side) => destination.stand_side(side),
        Binding::Par { left, right, .. } => {
            destination.stand_side(left)?;
            destination.stand_side(right)
        }
        Binding::Prim { .. } => Ok(()),
        Binding::Reach { .. } => Ok(()),
    }
}

/// A copy of a destination goes behind others.
fn push_copy(found: &mut Vec<Destination>, destination: &Destination) -> Result<(), Memory>
    ensures items { OnOk result (map destination_of found.new.items ≡ map destination_of found.old.items ++ destination_of destination.now ∷ []) }
    ensures count { OnOk result (length found.new.items ≡ length found.old.items + 1) }
{
    let copy = destination.copy()?;
    found.push(copy)?;
    Ok(())
}

/// The destination before each of some bindings; the one given is then that behind them all.
pub fn before_each(
    from: &Printed,
    destination: &mut Destination,
    bindings: &[Binding],
) -> Result<Vec<Destination>, Memory>
    ensures each { IfOk result (λ found. map destination_of found.items ≡ before_each (destination_of destination.old) (binds_from (term_of from.now.terms.now) bindings.now)) }
    ensures count { IfOk result (λ found. length found.items ≡ length bindings.now) }
    ensures behind { OnOk result (destination_of destination.new ≡ behind_all (destination_of destination.old) (binds_from (term_of from.now.terms.now) bindings.now)) }
{
    let mut found = Vec::new(from.alloc);
    let mut rest = bindings;
    'bindings: while let [binding, after @ ..] = rest {
        push_copy(&mut found, destination)?;
        pass(from, destination, *binding)?;
        rest = after;
    }
    Ok(found)
}

/// Whether both sides are fields.
pub fn are_fields(left: Kind, right: Kind) -> bool
    ensures { result ≡ are_fields left right }
{
    match (left, right) {
        (Kind::Here, Kind::Here) => true,
        _ => false,
    }
}

/// Where a side's term is put.
pub fn side_target(kind: Kind, at: u32) -> Target
    ensures place { destination_of result.destination ≡ side_place kind }
    ensures at { result.at ≡ at }
{
    let destination = match kind {
        Kind::Here => Destination::Empty,
        Kind::Region => Destination::Empty,
        Kind::Scalar => Destination::Nowhere,
    };
    Target { destination, at }
}
