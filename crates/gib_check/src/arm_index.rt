//! The places of the arms of a `case`, by their constructors.

ghost use Rattle.std.specs.Prelude.{◌≡◌, ◌<◌, ◌==◌, ℕ, None, Some, map, IfOk, OnOk, if◌then◌else◌};
ghost use Rattle.gib_check.specs.{ArmPlaces.{place_named, place_in, arm_name}, Entries.{entry_at, first_of}, Views.{table_in}};

use crate::declared::Declared;
use gib_base::{ByNumber, Memory};
use gib_syntax::Arm;
use gib_types::ConId;
use std::alloc::{AllocError, Global};

/// The place of the first arm of each constructor, from a lowest constructor on.
#[derive(Drop)]
pub struct ArmIndex {
    pub lowest: u32,
    pub places: ByNumber<u32>,
}

impl ArmIndex {
    /// The place of the first arm of a constructor.
    pub fn place(&self, con: ConId) -> Option<u32>
        ensures { result ≡ place_in self.now con.0 }
    {
        match con.0.checked_sub(self.lowest) {
            Some(slot) => self.places.get(slot),
            None => None,
        }
    }
}

/// A constructor such that none before it has an arm: the least one that has, where there is one.
fn lowest(declared: &Declared, arms: &[Arm]) -> u32
    ensures { (con : ℕ) → con < result → place_named (table_in declared.now) (map arm_name arms.now) con ≡ None }
{
    let mut lowest = u32::MAX;
    let mut rest = arms;
    'arms: while let [arm, after @ ..] = rest {
        if let Some(con) = declared.number(arm.constructor.name) {
            lowest = lowest.min(con);
        }
        rest = after;
    }
    lowest
}

/// Puts the place of an arm at its constructor's, unless an arm before it stands there.
fn put_place(places: &mut ByNumber<u32>, slot: u32, place: u32) -> Result<(), Memory>
    ensures { OnOk result ((other : ℕ) → entry_at places.new other ≡ (if slot == other then first_of (entry_at places.old other) (Some place) else entry_at places.old other)) }
{
    if places.get(slot).is_none() {
        places.set(slot, Some(place))?;
    }
    Ok(())
}

/// The index of arms.
pub fn index_arms(alloc: Global, declared: &Declared, arms: &[Arm]) -> Result<ArmIndex, Memory>
    ensures { IfOk result (λ index. (con : ℕ) → place_in index con ≡ place_named (table_in declared.now) (map arm_name arms.now) con) }
{
    let lowest = lowest(declared, arms);
    let mut places = ByNumber::new(alloc);
    let mut place = 0_u32;
    let mut rest = arms;
    'arms: while let [arm, after @ ..] = rest {
        if let Some(con) = declared.number(arm.constructor.name) {
            if let Some(slot) = con.checked_sub(lowest) {
                put_place(&mut places, slot, place)?;
            }
        }
        let Some(next) = place.checked_add(1) else {
            return Err(AllocError);
        };
        place = next;
        rest = after;
    }
    Ok(ArmIndex { lowest, places })
}
