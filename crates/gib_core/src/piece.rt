//! The pieces of the core's text.

use crate::atom::{Atom, Variable};
use gib_base::Name;
use gib_types::{ConId, Operator, Ty};

/// The word that a line of the core's text begins with.
#[derive(Clone, Copy, PartialEq, Eq)]
pub enum Keyword {
    Fun,
    Main,
    Case,
    If,
    Else,
    Past,
    Write,
    Point,
    Give,
    Call,
    Here,
    Region,
    Scalar,
    Prim,
    Par,
    Reach,
    Several,
    Tuple,
    To,
}

/// One piece of the core's text.
#[derive(Clone, Copy, PartialEq, Eq)]
pub enum Piece {
    /// The start of a line on a level of nesting.
    Line(u64, Keyword),
    /// The start of the line of an arm on a level of nesting.
    Arm(u64, ConId),
    Function(Name),
    Constructor(ConId),
    Variable(Variable),
    Atom(Atom),
    /// A parameter with its type.
    Parameter(Variable, Ty),
    /// The type of a result.
    Result(Ty),
    /// The type of the first part of a result.
    FirstPart(Ty),
    /// The type of a further part.
    FurtherPart(Ty),
    /// No part follows.
    PartsEnd,
    Operator(Operator),
    Equals,
    Fork,
    ByOffset,
    /// A field is reached from the end of another one.
    BySkip(Variable),
    /// A field is reached at the end of another one.
    ByEnd(Variable),
    /// Variables follow whose ends a call tells.
    Ends,
    End,
}
