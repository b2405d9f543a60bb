//! The types of fields, and what stands at scalar or packed ones.

ghost use Rattle.std.specs.Prelude.{◌≡◌, false, IfOk};
ghost use Rattle.gib_types.specs.Table.{at_fields};
ghost use Rattle.gib_infer.specs.Made.{Binds, BindsFields};

use crate::work::{Work, new_variable};
use gib_base::Memory;
use gib_core::{Atom, Slot, Variable};
use gib_syntax::Ident;
use gib_types::{Ty, first_type, further_types};
use std::alloc::Global;

/// The types of the packed fields among these.
pub fn packed_types(alloc: Global, types: &[Ty]) -> Result<Vec<Ty>, Memory>
    ensures { IfOk result (λ v. v.items ≡ at_fields false types.now types.now) }
{
    let mut packed = Vec::new(alloc);
    let mut left = types;
    'types: while let [ty, after @ ..] = left {
        if !ty.is_scalar() {
            packed.push(*ty)?;
        }
        left = after;
    }
    Ok(packed)
}

/// Puts a name into the scope.
pub fn bind(work: &mut Work, name: Ident, atom: Atom, ty: Ty) -> Result<(), Memory>
    ensures { IfOk result (λ _. Binds work.old work.new name atom ty) }
{
    work.scope.push(Slot {
        name: name.name,
        atom,
        ty,
    })?;
    Ok(())
}

/// The names of fields of these types become new variables.
pub fn bind_fields(work: &mut Work, names: &[Ident], types: &[Ty]) -> Result<Vec<Variable>, Memory>
    ensures { IfOk result (λ v. BindsFields work.old work.new names.now types.now v.items) }
{
    let mut variables = Vec::new(work.alloc);
    let mut types_left = types;
    let mut left = names;
    'names: while let [name, after @ ..] = left {
        let variable = new_variable(work)?;
        bind(
            work,
            *name,
            Atom::Variable(variable),
            first_type(types_left),
        )?;
        variables.push(variable)?;
        types_left = further_types(types_left);
        left = after;
    }
    Ok(variables)
}
