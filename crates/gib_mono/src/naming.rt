//! The second phase, names: those of all copies, in the order of the list of copies.

ghost use Rattle.std.specs.Prelude.{◌≡◌, ◌<◌, length, map, slice_get, Some, IfOk, [], ◌∷◌};
ghost use Rattle.gib_types.specs.Types.{forms_at, AreBelow};
ghost use Rattle.gib_syntax.specs.GenericTree.{GenericDataTree, GenericFunctionTree};
ghost use Rattle.gib_mono.specs.Declaring.{AreKeysInside, IsKeyInside, copies_from, Enters, own_entry};
ghost use Rattle.gib_mono.specs.{Naming.{entry, copy_entries, listed_entries, with_entry, with_entries}, Scenes.{forms, names_in}, Sources.{globals_in}};
ghost use Rattle.gib_mono.specs.Walk.{DataOf, FunctionOf};

use crate::copier::Copier;
use crate::found::CopyKey;
use crate::source::Source;
use gib_base::{Memory, Name};
use gib_syntax::GenericConstructor;
use gib_types::types::TypeId;

/// A name with types is named, where it is none of those that are.
fn put_name(copier: &mut Copier, name: Name, types: &[TypeId]) -> Result<(), Memory>
    requires { AreBelow (length copier.old.scene.types) types.now }
    ensures { IfOk result (λ _. Enters copier.old copier.new (with_entry (names_in copier.old.scene) (entry name.0 (forms_at (forms copier.old.scene) types.now)))) }
{
    let types = Vec::from_slice(copier.alloc, types)?;
    copier.scene.put_entry(name, types)
}

/// The constructors of a type are named.
fn put_constructors(
    copier: &mut Copier,
    constructors: &[GenericConstructor],
    types: &[TypeId],
) -> Result<(), Memory>
    requires { AreBelow (length copier.old.scene.types) types.now }
    ensures { IfOk result (λ _. Enters copier.old copier.new (with_entries (names_in copier.old.scene) (map (own_entry (forms_at (forms copier.old.scene) types.now)) constructors.now))) }
{
    let mut rest = constructors;
    'constructors: while let [constructor, after @ ..] = rest {
        put_name(copier, constructor.name.name, types)?;
        rest = after;
    }
    Ok(())
}

/// The copy of a declared type is named, with its constructors.
fn name_data(
    copier: &mut Copier,
    source: &Source,
    place: u32,
    types: &[TypeId],
) -> Result<(), Memory>
    requires place { place < length (globals_in source.now).datas }
    requires below { AreBelow (length copier.old.scene.types) types.now }
    ensures { (d : GenericDataTree) → slice_get (globals_in source.now).datas place ≡ Some d
        → IfOk result (λ _. Enters copier.old copier.new (with_entries (names_in copier.old.scene) (copy_entries (DataOf d (forms_at (forms copier.old.scene) types.now))))) }
{
    let data = source.data_decl(place);
    put_name(copier, data.name.name, types)?;
    put_constructors(copier, &data.constructors, types)
}

/// The copy of a function is named.
fn name_function(
    copier: &mut Copier,
    source: &Source,
    place: u32,
    types: &[TypeId],
) -> Result<(), Memory>
    requires place { place < length (globals_in source.now).functions }
    requires below { AreBelow (length copier.old.scene.types) types.now }
    ensures { (f : GenericFunctionTree) → slice_get (globals_in source.now).functions place ≡ Some f
        → IfOk result (λ _. Enters copier.old copier.new (with_entries (names_in copier.old.scene) (copy_entries (FunctionOf f (forms_at (forms copier.old.scene) types.now))))) }
{
    let function = source.function_decl(place);
    put_name(copier, function.name.name, types)
}

/// A copy is named.
fn name_key(copier: &mut Copier, source: &Source, key: &CopyKey) -> Result<(), Memory>
    requires { IsKeyInside (globals_in source.now) (length copier.old.scene.types) key.now }
    ensures { IfOk result (λ _. Enters copier.old copier.new (with_entries (names_in copier.old.scene) (listed_entries (copies_from (globals_in source.now) (forms copier.old.scene) (key.now ∷ []))))) }
{
    match key {
        CopyKey::Data(place, types) => name_data(copier, source, *place, types),
        CopyKey::Function(place, types) => name_function(copier, source, *place, types),
    }
}

/// All copies are named, in their order.
///
/// # Errors
///
/// Want of memory.
pub fn name_copies(copier: &mut Copier, source: &Source, keys: &[CopyKey]) -> Result<(), Memory>
    requires { AreKeysInside (globals_in source.now) (length copier.old.scene.types) keys.now }
    ensures { IfOk result (λ _. Enters copier.old copier.new (with_entries (names_in copier.old.scene) (listed_entries (copies_from (globals_in source.now) (forms copier.old.scene) keys.now)))) }
{
    let mut rest = keys;
    'keys: while let [key, after @ ..] = rest {
        name_key(copier, source, key)?;
        rest = after;
    }
    Ok(())
}
