//! A source that writes its places out to its core.

ghost use Rattle.std.specs.Prelude.{◌≡◌, IfOk, IfErr};
ghost use Rattle.gib_base.specs.Texts.{TextsView};
ghost use Rattle.gib_core.specs.Parts.{core_of};
ghost use Rattle.gib_app.specs.{Located.{IsWritten, IsLocatedStop}, PassFaults.{local_stop}, Running.{Program, IsLocated}};

use crate::source_fault::SourceFault;
use crate::stop::Stop;
use gib_base::Texts;
use gib_core::Checked;
use gib_core::law::built_is_unbroken;
use gib_forks::law::marking_keeps;
use gib_lex::laws::{one_reading_in, one_refusal_in, same_again_in};
use gib_local::law::{made_has_types, made_is_numbered, made_means, texts_are_answered};
use gib_local::{LocalFault, Located, local};
use std::alloc::Global;

/// A core that is written out, with its marks, and the texts of its names.
#[derive(Drop)]
pub struct LocatedCore {
    pub core: Checked,
    pub names: Texts,
}

/// Why a call stops at a source that is no program that writes its places out.
fn of_local(fault: LocalFault) -> Stop<'static>
    ensures { result ≡ local_stop fault }
{
    match fault {
        LocalFault::Memory => Stop::Memory,
        LocalFault::Long => Stop::Source(SourceFault::Long),
        LocalFault::At(place) => Stop::Source(SourceFault::BadCharacter(place)),
        LocalFault::Big(place) => Stop::Source(SourceFault::BigNumber(place)),
        LocalFault::Many => Stop::Source(SourceFault::ManyNames),
        LocalFault::Syntax(place) => Stop::Source(SourceFault::Syntax(place)),
        LocalFault::Nested(place) => Stop::Source(SourceFault::Nested(place)),
        LocalFault::Broken(fault) => {
            Stop::Source(SourceFault::Broken(fault.kind, fault.span.start))
        }
        LocalFault::Place(place) => Stop::Source(SourceFault::Misplaced(place)),
        LocalFault::Rule(rule, term) => Stop::Source(SourceFault::BreaksRule(rule, term)),
    }
}

/// The core that a source writes out.
///
/// # Errors
///
/// `Source` with the first fault, in the order of lexing, the grammar, names, places and build rules; `Memory`.
pub fn locate(alloc: Global, source: &[u8]) -> Result<LocatedCore, Stop<'static>>
    ensures written { IfOk result (λ c. IsWritten source.now (core_of c.core) c.names) }
    ensures refused { IfErr result (IsLocatedStop source.now) }
    // A source that is such a program is refused for want of memory alone.
    ensures only { (names : TextsView) (p : Program) → IsLocated source.now names p → IfErr result (λ stop. stop ≡ Stop.Memory) }
{
    built_is_unbroken();
    marking_keeps();
    made_has_types();
    made_is_numbered();
    made_means();
    texts_are_answered();
    one_reading_in();
    one_refusal_in();
    same_again_in();
    let Located { core, names } = match local(alloc, source) {
        Ok(located) => located,
        Err(fault) => return Err(of_local(fault)),
    };
    let whole = core.core();
    whole.types().rules();
    whole.types_declared();
    Ok(LocatedCore {
        core,
        names: Texts::new(alloc, names),
    })
}
