//! What the walk keeps, and the terms that it makes of what stands below them.

ghost use Rattle.std.specs.Prelude.{◌≡◌, ◌<◌, [], length, IfOk};
ghost use Rattle.std.specs.List.{AllByRecursion};
ghost use Rattle.gib_core.specs.{Tree.{Write, Point, CallTerm, Give}, Reaching.{uses}};
ghost use Rattle.gib_access.specs.Made.{MakesTerm};

use crate::stamps::{mark_atom, mark_atoms};
use gib_base::{Memory, Name, Reversed};
use gib_core::{Atom, Clock, Node, TermId, Terms, Variable};
use gib_types::ConId;
use std::alloc::Global;

/// The terms so far, when variables were used, and the constructors with an arm that uses a packed field but
/// the first.
#[derive(Drop)]
pub struct Work {
    pub terms: Terms,
    pub stamps: Clock,
    pub offsets: Reversed<ConId>,
}

impl Work {
    /// Nothing is made, and no variable was used.
    pub fn new(alloc: Global) -> Work
        ensures terms { result.terms ≡ [] }
        ensures offsets { result.offsets ≡ [] }
    {
        Work {
            terms: Terms::new(alloc),
            stamps: Clock::new(alloc),
            offsets: Reversed::new(alloc),
        }
    }
}

/// Fills a head.
pub fn put_write(
    alloc: Global,
    work: &mut Work,
    head: Variable,
    constructor: ConId,
    scalars: &[Atom],
    packed: &[Atom],
) -> Result<TermId, Memory>
    ensures { IfOk result (λ made. MakesTerm work.old work.new made (Write head constructor scalars.now packed.now) (uses (Write head constructor scalars.now packed.now)) []) }
{
    mark_atoms(&mut work.stamps, packed)?;
    mark_atoms(&mut work.stamps, scalars)?;
    let scalars = Vec::from_slice(alloc, scalars)?;
    let packed = Vec::from_slice(alloc, packed)?;
    let made = work.terms.put(Node::Write {
        head,
        constructor,
        scalars,
        packed,
    })?;
    Ok(made)
}

/// Points to a value.
pub fn put_point(work: &mut Work, atom: Atom) -> Result<TermId, Memory>
    ensures { IfOk result (λ made. MakesTerm work.old work.new made (Point atom) (uses (Point atom)) []) }
{
    mark_atom(&mut work.stamps, atom)?;
    let made = work.terms.put(Node::Point(atom))?;
    Ok(made)
}

/// Calls a function.
pub fn put_call(
    alloc: Global,
    work: &mut Work,
    name: Name,
    arguments: &[Atom],
) -> Result<TermId, Memory>
    ensures { IfOk result (λ made. MakesTerm work.old work.new made (CallTerm name arguments.now) (uses (CallTerm name arguments.now)) []) }
{
    mark_atoms(&mut work.stamps, arguments)?;
    let arguments = Vec::from_slice(alloc, arguments)?;
    let made = work.terms.put(Node::Call(name, arguments))?;
    Ok(made)
}

/// Gives a scalar.
pub fn put_give(work: &mut Work, atom: Atom) -> Result<TermId, Memory>
    ensures { IfOk result (λ made. MakesTerm work.old work.new made (Give atom) (uses (Give atom)) []) }
{
    mark_atom(&mut work.stamps, atom)?;
    let made = work.terms.put(Node::Give(atom))?;
    Ok(made)
}
