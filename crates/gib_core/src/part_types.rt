//! The types of several parts.

ghost use Rattle.std.specs.Prelude.{◌≡◌, ◌++◌, ◌∷◌, [], length, slice_get, IfOk};
ghost use Rattle.gib_core.specs.PartTypes.{type_of_code, types_in, unpacked_types};

use gib_base::Memory;
use gib_types::{Ty, TyId};
use std::alloc::AllocError;

/// How many parts there may be.
pub const MOST_PARTS: usize = 8;

/// At most eight types, in declared order: each by its code, as many as the count says. Nodes hold them, so they are small.
#[derive(Clone, Copy)]
pub struct PartTypes {
    codes: [u16; 8],
    count: u8,
}

/// At most eight types, in declared order: as many of these as the count says.
#[derive(Clone, Copy)]
pub struct Unpacked {
    types: [Ty; 8],
    count: u8,
}

/// The code of a type: `Int`, `Bool`, and the declared types behind them.
///
/// # Errors
///
/// The number of the type is above 65,533.
#[tactic(auto, using(crate::proofs::Eight::tree_coded))]
fn code_of(ty: Ty) -> Result<u16, Memory>
    ensures { IfOk result (λ code. type_of_code code ≡ ty) }
{
    match ty {
        Ty::Whole => Ok(0),
        Ty::Truth => Ok(1),
        Ty::Tree(ty) => match u16::try_from(u64::from(ty.0) + 2) {
            Ok(code) => Ok(code),
            Err(_) => Err(AllocError),
        },
    }
}

/// The type of a code.
#[tactic(auto, using(crate::proofs::Eight::whole_code, crate::proofs::Eight::truth_code, crate::proofs::Eight::tree_behind))]
fn type_of(code: u16) -> Ty
    ensures { result ≡ type_of_code code }
{
    match code {
        0 => Ty::Whole,
        1 => Ty::Truth,
        _ => Ty::Tree(TyId(u32::from(code) - 2)),
    }
}

impl PartTypes {
    /// No types.
    pub fn new() -> PartTypes
        ensures { types_in result ≡ [] }
    {
        PartTypes {
            codes: [0; 8],
            count: 0,
        }
    }

    /// One more type, behind the others.
    ///
    /// # Errors
    ///
    /// There are as many as there may be, or the number of the type is above 65,533.
    #[tactic(auto, using(crate::proofs::Eight::pushed_code))]
    pub fn push(&mut self, ty: Ty) -> Result<(), Memory>
        ensures { IfOk result (λ _. types_in self.new ≡ types_in self.old ++ ty ∷ []) }
    {
        let place = self.count as usize;
        if MOST_PARTS <= place {
            return Err(AllocError);
        }
        self.codes[place] = code_of(ty)?;
        self.count += 1;
        Ok(())
    }

    /// How many types there are.
    #[tactic(auto, using(crate::proofs::Eight::count_less, crate::proofs::Eight::count_all))]
    pub fn len(self) -> usize
        ensures { result ≡ length (types_in self) }
    {
        let count = self.count as usize;
        if count < MOST_PARTS {
            count
        } else {
            MOST_PARTS
        }
    }

    /// The type at a place, where there is one.
    #[tactic(auto, using(crate::proofs::Eight::within_all, crate::proofs::Eight::type_there, crate::proofs::Eight::type_past))]
    pub fn get(self, place: usize) -> Option<Ty>
        ensures { result ≡ slice_get (types_in self) place }
    {
        if place < self.len() {
            Some(type_of(self.codes[place]))
        } else {
            None
        }
    }

    /// The types themselves, for a slice of them.
    #[tactic(auto, using(crate::proofs::Eight::unpacked_all))]
    pub fn unpacked(self) -> Unpacked
        ensures { unpacked_types result ≡ types_in self }
    {
        let codes = self.codes;
        Unpacked {
            types: [
                type_of(codes[0]),
                type_of(codes[1]),
                type_of(codes[2]),
                type_of(codes[3]),
                type_of(codes[4]),
                type_of(codes[5]),
                type_of(codes[6]),
                type_of(codes[7]),
            ],
            count: self.count,
        }
    }
}

impl Unpacked {
    /// The types, in declared order.
    #[tactic(auto, using(crate::proofs::Eight::taken_all))]
    pub fn as_slice(&self) -> &[Ty]
        ensures { result.now ≡ unpacked_types self.now }
    {
        let count = self.count as usize;
        if count < MOST_PARTS {
            &self.types[..count]
        } else {
            &self.types
        }
    }
}
