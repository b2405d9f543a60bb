//! The instructions of the machine.
//!
//! A slot is a 64-bit word of the frame and has the number of the core's variable. Beside each stands the end of the
//! variable's value, the address behind it, or 0 where it is not known; setting a slot forgets its end. A label is the
//! number of an instruction. A place counts bytes from the start of a head.

use gib_base::Name;
use gib_types::{Operator, Ty};

/// A slot or a literal.
#[derive(Clone, Copy, PartialEq, Eq)]
pub enum Operand {
    /// What the slot holds.
    Slot(u32),
    /// A number in two's complement, a truth value as 0 or 1.
    Number(u64),
}

/// Where the value of a right side is put.
#[derive(Clone, Copy, PartialEq, Eq)]
pub enum Kind {
    /// At the cursor of the region that is being made.
    Here,
    /// Into a region of its own.
    Region,
    /// Into a slot alone.
    Scalar,
    /// Several parts, each into a slot, and each packed one into a region of its own, which the right side's code opens and finishes.
    Several,
}

/// Slots one behind another, which the value of a right side sets: one, or one for each of its parts, in declared order.
#[derive(Clone, Copy, PartialEq, Eq)]
pub struct Targets {
    pub first: u32,
    pub count: u8,
}

/// The type of what a function or a right side gives.
#[derive(Clone, Copy, PartialEq, Eq)]
pub enum AnswerType {
    /// One value of this type.
    One(Ty),
    /// Several parts.
    Parts,
}

/// A fork: its right side begins at the label `right`, and behind both sides the code goes on at the label `joint`. The value of the
/// right side is of type `result` and sets the slots `targets`.
#[derive(Clone, Copy, PartialEq, Eq)]
pub struct Fork {
    pub right: u32,
    pub joint: u32,
    pub kind: Kind,
    pub targets: Targets,
    pub result: AnswerType,
}

/// Where a switch goes on for a constructor.
#[derive(Clone, Copy, PartialEq, Eq)]
pub struct Arm {
    pub constructor: u32,
    pub label: u32,
}

/// One instruction. `to` is the slot that is set, `tree` a slot that holds the place of a head.
#[derive(Drop)]
pub enum Instr {
    Move {
        to: u32,
        from: Operand,
    },
    Operate {
        to: u32,
        operator: Operator,
        left: Operand,
        right: Operand,
    },
    /// Goes to the label.
    Jump(u32),
    /// Goes to the label where the operand is 0.
    Unless {
        test: Operand,
        label: u32,
    },
    /// Sets the slot to the place of its head, past redirects and indirections, and goes to the label of the head's
    /// constructor.
    Switch {
        tree: u32,
        /// One for each constructor of the type, in declared order.
        arms: Vec<Arm>,
    },
    /// Reads a number at a place.
    Whole {
        to: u32,
        tree: u32,
        place: u8,
    },
    /// Reads a truth value at a place.
    Truth {
        to: u32,
        tree: u32,
        place: u8,
    },
    /// The address of a place: that of the first packed field, which follows its head.
    First {
        to: u32,
        tree: u32,
        place: u8,
    },
    /// Reads the address of a packed field at a place.
    Offset {
        to: u32,
        tree: u32,
        place: u8,
    },
    /// The end of the value that begins at the address in `from`.
    Skip {
        to: u32,
        from: u32,
    },
    /// Opens a region, and sets the slot to its start.
    Begin(u32),
    /// Finishes the innermost region.
    Done,
    /// Sets the slot to the cursor of the innermost region.
    Here(u32),
    /// Sets the slot to the place of a head of the constructor, and leaves room for it.
    Past {
        head: u32,
        constructor: u32,
    },
    /// Puts the head: its tag, the addresses of the packed fields but the first where the constructor has offsets, and
    /// the scalars.
    Fill {
        head: u32,
        constructor: u32,
        scalars: Vec<Operand>,
        packed: Vec<u32>,
    },
    /// Puts an indirection to the value in the slot.
    Point(u32),
    /// Calls the function of this number, which puts its value at the cursor.
    Call {
        function: u32,
        arguments: Vec<Operand>,
    },
    /// Calls the function of this number for a scalar.
    CallScalar {
        to: u32,
        function: u32,
        arguments: Vec<Operand>,
    },
    /// The end of a call with a packed result.
    Return,
    /// The end of a call with a scalar result.
    Give(Operand),
    /// The left side of a `par` follows.
    Fork(Fork),
    /// The end of a left side.
    Join,
    /// The end of a right side.
    Back,
    /// Tells the variable the end that the call just returned gave for its parameter of this number. Nothing where the
    /// variable's end is known; so it is with the next two.
    Got {
        to: u32,
        parameter: u32,
    },
    /// Tells the variable that it ends where the other one does.
    OverEnd {
        to: u32,
        from: u32,
    },
    /// Tells the variable that it ends so many bytes behind the address in its slot.
    LeafEnd {
        to: u32,
        size: u8,
    },
    /// Sets the slot to the end of a variable.
    EndOf {
        to: u32,
        from: u32,
    },
    /// Of the newest `count` open regions the one of this number, in the order in which they were opened, becomes the innermost one:
    /// what follows puts the packed part of this number into it.
    Into {
        part: u8,
        count: u8,
    },
    /// The innermost region goes back to its place of this number among the newest `count` ones.
    Out {
        part: u8,
        count: u8,
    },
    /// The end of a call with a result of several parts, with its scalar parts.
    GiveParts(Vec<Operand>),
    /// Sets the slot to the scalar part of this number of the call just returned.
    Part {
        to: u32,
        part: u8,
    },
}

/// A function in the code.
#[derive(Clone, Copy, PartialEq, Eq)]
pub struct Entry {
    /// None for main.
    pub name: Option<Name>,
    /// The label of its first instruction.
    pub start: u32,
    /// How many slots a frame of it has.
    pub slots: u32,
    /// The type of its value.
    pub result: AnswerType,
}
