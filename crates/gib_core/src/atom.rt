//! The small things that terms are made of.

ghost use Rattle.std.specs.Prelude.{◌≡◌, ◌<◌, ◌^◌, pos};

/// A variable: its number in its function, in the order in which the printed text binds them.
#[derive(Clone, Copy, PartialEq, Eq)]
pub struct Variable(pub u32);

/// A variable or a literal.
#[derive(Clone, Copy, PartialEq, Eq)]
pub enum Atom {
    Variable(Variable),
    Whole(i64),
    Truth(bool),
}

/// Where the value of a bound term is put.
#[derive(Clone, Copy, PartialEq, Eq)]
pub enum Kind {
    /// At the place of the next field of the open head.
    Here,
    /// In a region of its own.
    Region,
    /// Nowhere: it is a scalar.
    Scalar,
}

/// How a field of an arm is reached.
#[derive(Clone, Copy, PartialEq, Eq)]
pub enum Access {
    /// By the offset that its head stores.
    Offset,
    /// From the end of the field directly before it.
    Skip(Variable),
    /// At the end of the field directly before it, which a call told.
    End(Variable),
}

/// A packed parameter: the number of its function's name, and its place among the function's parameters.
#[derive(Clone, Copy, PartialEq, Eq)]
pub struct Ended {
    pub function: u32,
    pub place: u32,
}

/// How all fields of a core are reached.
#[derive(Clone, Copy, PartialEq, Eq)]
pub enum AccessMode {
    Skips,
    Offsets,
    /// By the end of the field before, where a call told it outside each `par`; else by an offset.
    Ends,
}

impl Atom {
    /// The number of a literal of the source.
    pub fn literal(value: u64) -> Atom
        requires { value < 2 ^ 63 }
        ensures { result ≡ Atom.Whole (pos value) }
    {
        Atom::Whole(value as i64)
    }
}
