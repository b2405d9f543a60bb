//! Where a term stands, and what follows it.

ghost use Rattle.std.specs.Prelude.{◌≡◌, ◌++◌, OnOk};
ghost use Rattle.gib_core.specs.Low.{Over, over_all};

use crate::emitted::Emitted;
use crate::stack::Stack;
use gib_base::Memory;
use gib_code::Instr;
use gib_core::{PartTypes, Variable};
use std::marker::Model;

/// What follows a term: the call returns, and before it the ends of the trees of the cases around are told; or the code goes on
/// at a label. A scalar is then left in the slot; a packed value sets none. Several parts go to variables one behind another, of
/// these types.
#[derive(Clone, Copy)]
pub(crate) enum Ending {
    Returns,
    To {
        label: u32,
        slot: u32,
    },
    ToParts {
        label: u32,
        first: Variable,
        types: PartTypes,
    },
}

/// Where a term stands: in a function whose ends are told; in a side of a `par`.
#[derive(Clone, Copy)]
pub(crate) struct Around {
    pub ends: bool,
    pub par: bool,
}

/// Where a term stands, and what follows it.
#[derive(Clone, Copy)]
pub(crate) struct At {
    pub around: Around,
    pub ending: Ending,
}

impl Around {
    ghost use Rattle.std.specs.Prelude.{◌≡◌};
    ghost use Rattle.gib_core.specs.Ending.{within_par};
    ghost use Rattle.gib_lower.specs.Ends.{within_of};
    ghost use Rattle.gib_lower.specs.declared.ending.Ending.TheVariants as k;

    /// In a side of a `par`.
    pub(crate) fn in_par(self) -> Around
        ensures { within_of result ≡ within_par (within_of self) }
    {
        Around {
            ends: self.ends,
            par: true,
        }
    }

    /// Here, and then the code goes on at a label, with a scalar in a slot.
    pub(crate) fn going_to(self, label: u32, slot: u32) -> At
        ensures { result ≡ record { around = self; ending = k.To label slot } }
    {
        At {
            around: self,
            ending: Ending::To { label, slot },
        }
    }

    /// Here, and then the code goes on at a label, with several parts in variables from one on.
    pub(crate) fn going_to_parts(self, label: u32, first: Variable, types: PartTypes) -> At
        ensures { result ≡ record { around = self; ending = k.ToParts label first types } }
    {
        At {
            around: self,
            ending: Ending::ToParts {
                label,
                first,
                types,
            },
        }
    }

    /// Here, and then the call returns.
    pub(crate) fn returning(self) -> At
        ensures { result ≡ record { around = self; ending = k.Returns } }
    {
        At {
            around: self,
            ending: Ending::Returns,
        }
    }
}

/// A tree that a case is on, and its last packed field, which ends where it does.
#[derive(Clone, Copy)]
pub(crate) struct LastField {
    pub tree: u32,
    pub field: u32,
}

impl Model for LastField {
    ghost Value = { Over };

    ghost view = { λ f. record { tree = f.tree; field = f.field } };

    ghost inverse = { λ o. record { tree = o.tree; field = o.field } };
}

/// The trees of the cases around whose ends are told before a return, the innermost last.
pub(crate) type Overs = Stack<LastField>;

/// Puts what tells their ends, the innermost first.
pub(crate) fn put_told(overs: &Overs, code: &mut Emitted) -> Result<(), Memory>
    ensures { OnOk result (code.new ≡ over_all overs.now ++ code.old) }
{
    let mut left = overs.as_slice();
    'overs: while let [over, after @ ..] = left {
        code.put(Instr::OverEnd {
            to: over.tree,
            from: over.field,
        })?;
        left = after;
    }
    Ok(())
}
