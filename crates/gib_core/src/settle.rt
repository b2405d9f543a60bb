//! The ended parameters of a core.

ghost use Rattle.std.specs.Prelude.{◌≡◌, true, filter, IfOk};
ghost use Rattle.gib_core.specs.{Parts.{core_of}, Ending.{stays_ended, narrowed, settled, ended}, NamedFunctions.{IsIndex}};

use crate::atom::{Ended, Variable};
use crate::ended::{EndedSet, packed_parameters};
use crate::known::is_known;
use crate::named::{function_named, list_places};
use crate::program::Core;
use gib_base::{ByNumber, Memory, Name};
use std::alloc::Global;

/// Whether a parameter's end is known at the end of its function's body, where these are ended.
fn stays(core: &Core, places: &ByNumber<usize>, set: &EndedSet, pair: Ended) -> bool
    requires { IsIndex core.now.functions places.now }
    ensures { result ≡ stays_ended (core_of core.now) set.now pair }
{
    match function_named(core.functions(), places, Name(pair.function)) {
        None => false,
        Some(function) => is_known(
            core.types(),
            core.terms(),
            set,
            function.body,
            Variable(pair.place),
        ),
    }
}

/// Those parameters that are, where these are ended.
fn narrowed(
    alloc: Global,
    core: &Core,
    places: &ByNumber<usize>,
    set: &EndedSet,
) -> Result<Vec<Ended>, Memory>
    requires { IsIndex core.now.functions places.now }
    ensures { IfOk result (λ kept. kept.items ≡ narrowed (core_of core.now) set.now) }
{
    let pairs = set.pairs();
    let mut kept = Vec::new(alloc);
    let mut i = 0;
    'pairs: while i < pairs.len() {
        if stays(core, places, set, pairs[i]) {
            kept.push(pairs[i])?;
        }
        i += 1;
    }
    Ok(kept)
}

/// The ended parameters: of the packed ones the greatest set each of whose ends is known at the end of its function's
/// body, where these are ended. Each round looks at the bodies of those that are left, and takes out at least one.
#[tactic(auto, using(crate::proofs::Settles::stays_so))]
fn settled(alloc: Global, core: &Core) -> Result<EndedSet, Memory>
    ensures { IfOk result (λ set. set ≡ ended (record (core_of core.now) { marked = true })) }
{
    let places = list_places(alloc, core.functions())?;
    let pairs = packed_parameters(alloc, core.functions())?;
    let mut left = pairs.len();
    let mut set = EndedSet::make(alloc, pairs)?;
    'rounds: while left > 0 {
        let kept = narrowed(alloc, core, &places, &set)?;
        if kept.len() == set.pairs().len() {
            return Ok(set);
        }
        set = EndedSet::make(alloc, kept)?;
        left -= 1;
    }
    Ok(set)
}

/// The ended parameters of a core, were it marked so.
///
/// # Errors
///
/// Want of memory.
pub fn ended_parameters(alloc: Global, core: &Core, marked: bool) -> Result<EndedSet, Memory>
    ensures { IfOk result (λ set. set ≡ ended (record (core_of core.now) { marked = marked })) }
{
    if !marked {
        return Ok(EndedSet::none(alloc));
    }
    let set = settled(alloc, core)?;
    Ok(set)
}
