//! The image of what a run leaves, and its text.

ghost use Rattle.std.specs.Prelude.{◌≡◌, ◌<◌, ◌≤◌, ◌*◌, ℕ, List, None, true, option_map, IfOk, IfErr};
ghost use Rattle.gib_mem.specs.Memory.{IsThere};
ghost use Rattle.gib_types.specs.{declared.table.Ty.{Ty as Type_of}, Tree.{Datum}};
ghost use Rattle.gib_value.specs.Text.{AreHeld};
ghost use Rattle.gib_packed.specs.Stands.{Stands};
ghost use Rattle.gib_print.specs.Image.{IsImageOf, image_of as memory_image};
ghost use Rattle.gib_syntax.specs.{Declarations.{output_type}, Tree.{ProgramTree}};
ghost use Rattle.gib_app.specs.{Imaging.{IsShownWith}, Kept.{file_of}, MachineRun.{StandsIn, SomeStandsIn, IsMeant, IsMeantBy}, Replaying.{IsImageFile}};
ghost use Rattle.gib_app.specs.Running.{text_line};

use crate::buffer::Buffer;
use crate::machine_run::{Ran, print_ran};
use crate::made::{End, Made, Valued};
use crate::stop::Stop;
use gib_arena::SoleMem;
use gib_base::{Memory, Texts};
use gib_mem::Mem;
use gib_print::image;
use gib_print::law::written_is_read;
use std::alloc::{AllocError, Global};

/// The image of the memory that a run leaves, of no more chunks than an image may have. The memory stays.
///
/// # Errors
///
/// Want of memory.
fn image_of<M: Mem>(alloc: Global, ran: &mut Ran<M>) -> Result<Vec<u8>, Memory>
    requires alone { (M.view ran.old.memory).alone ≡ true }
    requires there { (q : ℕ) → q < 4096 * (M.view ran.old.memory).drawn → IsThere ((M.view ran.old.memory).cells q) }
    requires few { (M.view ran.old.memory).limit ≤ 65536 }
    ensures image { IfOk result (λ bytes. (ty : Type_of) (v : Datum)
        → Stands ran.old.lowered.code.laid (M.view ran.old.memory).cells ran.old.root ty v → IsImageOf ran.old.lowered.code.laid ty bytes.items v) }
    ensures bytes { IfOk result (λ bytes. bytes.items ≡ memory_image (M.view ran.old.memory) ran.old.root) }
    ensures same { M.view ran.new.memory ≡ M.view ran.old.memory }
    ensures kept { ran.new.lowered ≡ ran.old.lowered }
    ensures root { ran.new.root ≡ ran.old.root }
{
    written_is_read();
    image(alloc, &mut ran.memory, ran.root)
}

/// The text of what a run leaves, with a line feed.
///
/// # Errors
///
/// Want of memory.
pub fn text_of<M: Mem>(alloc: Global, ran: &mut Ran<M>, names: &Texts) -> Result<Vec<u8>, Memory>
    requires names { AreHeld ran.old.lowered.code.laid.table names.now.short }
    requires stands { SomeStandsIn names.now ran.old.lowered (M.view ran.old.memory) ran.old.root }
    ensures { (p : ProgramTree) (depth : ℕ) (input : List ℕ) (s : StandsIn p names.now depth input ran.old.lowered (M.view ran.old.memory) ran.old.root)
        → IfOk result (λ text. text.items ≡ text_line p names.now s.result) }
{
    let mut buffer = Buffer::new(alloc);
    match print_ran(alloc, ran, names, &mut buffer) {
        Ok(()) => Ok(buffer.into_bytes()),
        Err(_) => Err(AllocError),
    }
}

/// The image of the memory that a run leaves, where that is asked for. The memory stays.
///
/// # Errors
///
/// Want of memory.
fn image_asked<M: Mem>(
    alloc: Global,
    ran: &mut Ran<M>,
    image: bool,
) -> Result<Option<Vec<u8>>, Memory>
    requires alone { (M.view ran.old.memory).alone ≡ true }
    requires there { (q : ℕ) → q < 4096 * (M.view ran.old.memory).drawn → IsThere ((M.view ran.old.memory).cells q) }
    requires few { (M.view ran.old.memory).limit ≤ 65536 }
    ensures file { (ty : Type_of) (v : Datum) → Stands ran.old.lowered.code.laid (M.view ran.old.memory).cells ran.old.root ty v
        → IfOk result (λ file. IsImageFile image ran.old.lowered.code.laid ty (M.view ran.old.memory) ran.old.root v
        (option_map (λ bytes. bytes.items) file)) }
    ensures same { M.view ran.new.memory ≡ M.view ran.old.memory }
    ensures kept { ran.new.lowered ≡ ran.old.lowered }
    ensures root { ran.new.root ≡ ran.old.root }
{
    if !image {
        return Ok(None);
    }
    match image_of(alloc, ran) {
        Ok(bytes) => Ok(Some(bytes)),
        Err(memory) => Err(memory),
    }
}

/// What a run makes that leaves a value: its text, and its image, where that is asked for. The text is made before the image is written, so that
/// memory cannot run out for it then.
///
/// # Errors
///
/// Want of memory.
pub fn shown<M: Mem + Drop>(
    alloc: Global,
    mut ran: Ran<M>,
    names: &Texts,
    image: bool,
) -> Result<Made, Memory>
    requires alone { (M.view ran.memory).alone ≡ true }
    requires there { (q : ℕ) → q < 4096 * (M.view ran.memory).drawn → IsThere ((M.view ran.memory).cells q) }
    requires names { AreHeld ran.lowered.code.laid.table names.now.short }
    requires stands { SomeStandsIn names.now ran.lowered (M.view ran.memory) ran.root }
    requires few { (M.view ran.memory).limit ≤ 65536 }
    ensures shown { (p : ProgramTree) (depth : ℕ) (input : List ℕ) (s : StandsIn p names.now depth input ran.lowered (M.view ran.memory) ran.root)
        → IfOk result (λ made. IsShownWith image ran.lowered.code.laid (M.view ran.memory) ran.root p names.now s.result (file_of made) made.end) }
    ensures alone { IfOk result (λ made. made.packed ≡ None) }
{
    let file = image_asked(alloc, &mut ran, image)?;
    let text = text_of(alloc, &mut ran, names)?;
    Ok(Made {
        file,
        packed: None,
        end: End::Prints(text),
    })
}

/// What a run over an arena makes that leaves a value: its text, its image, where that is asked for, and the packed file that was made of it, if one
/// was.
///
/// # Errors
///
/// Want of memory.
pub fn with_text(
    alloc: Global,
    mut value: Valued,
    image: bool,
    packed: Option<Vec<u8>>,
) -> Result<Made, Stop<'static>>
    requires names { AreHeld value.ran.lowered.code.laid.table value.names.short }
    requires stands { IsMeant value }
    requires few { (⟦<SoleMem as Mem>⟧.view value.ran.memory).limit ≤ 65536 }
    ensures shown { (p : ProgramTree) (depth : ℕ) (input : List ℕ) (s : IsMeantBy p value.names depth input value.ran)
        → IfOk result (λ made. IsShownWith image value.ran.lowered.code.laid (⟦<SoleMem as Mem>⟧.view value.ran.memory) value.ran.root p value.names s.result
        (file_of made) made.end) }
    ensures packed { IfOk result (λ made. made.packed ≡ packed) }
    ensures memory { IfErr result (λ stop. stop ≡ Stop.Memory) }
{
    value.ran.memory.owns_all();
    match shown(alloc, value.ran, &value.names, image) {
        Ok(mut made) => {
            made.packed = packed;
            Ok(made)
        }
        Err(_) => Err(Stop::Memory),
    }
}

/// The image of what a run over an arena leaves, where that is asked for, without its text.
///
/// # Errors
///
/// Want of memory.
pub fn image_alone(alloc: Global, mut value: Valued, image: bool) -> Result<Option<Vec<u8>>, Memory>
    requires stands { IsMeant value }
    requires few { (⟦<SoleMem as Mem>⟧.view value.ran.memory).limit ≤ 65536 }
    ensures { (p : ProgramTree) (depth : ℕ) (input : List ℕ) (s : IsMeantBy p value.names depth input value.ran)
        → IfOk result (λ file. IsImageFile image value.ran.lowered.code.laid (output_type p)
        (⟦<SoleMem as Mem>⟧.view value.ran.memory) value.ran.root s.result (option_map (λ bytes. bytes.items) file)) }
{
    value.ran.memory.owns_all();
    image_asked(alloc, &mut value.ran, image)
}
