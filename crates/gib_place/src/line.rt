//! Lines that fill a head, and what becomes of them.

ghost use Rattle.std.specs.Prelude.{◌≡◌, IfOk};

use crate::field::Field;
use gib_base::Memory;
use gib_core::{Atom, Binding, BoundTerm, Variable};
use gib_types::ConId;
use std::alloc::Global;

/// A line that fills a head: a run of bindings, the room for the head of a constructor, and the packed fields, which
/// point to values, each beside the binding that it is.
#[derive(Drop)]
pub struct Line {
    pub run: Vec<Binding>,
    pub head: Variable,
    pub constructor: ConId,
    pub pointing: Vec<Binding>,
    pub fields: Vec<Field>,
}

/// The end of a line that fills a head: the head's variable and constructor, its scalar fields and its packed ones.
#[derive(Drop)]
pub struct Head {
    pub variable: Variable,
    pub constructor: ConId,
    pub scalars: Vec<Atom>,
    pub packed: Vec<Atom>,
}

impl Head {
    /// The end of such a line, with copies of these fields.
    pub fn copied(
        alloc: Global,
        variable: Variable,
        constructor: ConId,
        scalars: &[Atom],
        packed: &[Atom],
    ) -> Result<Head, Memory>
        ensures variable { IfOk result (λ head. head.variable ≡ variable) }
        ensures constructor { IfOk result (λ head. head.constructor ≡ constructor) }
        ensures scalars { IfOk result (λ head. head.scalars.items ≡ scalars.now) }
        ensures packed { IfOk result (λ head. head.packed.items ≡ packed.now) }
    {
        let scalars = Vec::from_slice(alloc, scalars)?;
        let packed = Vec::from_slice(alloc, packed)?;
        Ok(Head {
            variable,
            constructor,
            scalars,
            packed,
        })
    }
}

/// A side that takes the part of a field: which one of those that are left, and the side at its place.
#[derive(Clone, Copy)]
pub struct Taken {
    pub place: usize,
    pub side: BoundTerm,
}

/// How a binding is placed: how many of the fields that are left are put before it, what it becomes, the variables that
/// stand for fields behind these, and how many fields are done then.
#[derive(Clone, Copy)]
pub struct Spot {
    pub before: usize,
    pub binding: Binding,
    pub first: Variable,
    pub second: Option<Variable>,
    pub used: usize,
}

/// What was laid so far: bindings, and the variables that stand for the fields of the head; whether the room for the head
/// is put already, and how many fields are done.
#[derive(Drop)]
pub struct Laid {
    pub bindings: Vec<Binding>,
    pub standing: Vec<Variable>,
    pub is_open: bool,
    pub used: usize,
}
