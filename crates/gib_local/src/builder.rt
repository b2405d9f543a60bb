//! What is built so far, and the steps in which the terms of a core are built.

ghost use Rattle.std.specs.Prelude.{◌≡◌, ◌+◌, ◌-◌, [], Ok, Some, None, if◌then◌else◌, drop, length, map, IfOk, OnOk};
ghost use Rattle.gib_syntax.specs.Declarations.{number_of};
ghost use Rattle.gib_core.specs.Arena.{PartsBelow};
ghost use Rattle.gib_local.specs.declared.destination.Goal.{Goal as Where};
ghost use Rattle.gib_local.specs.Building.{access as accessed, aims as aimed, atom as atom_of, kind_at as kind_in, kind_for as kind_place, meant};
ghost use Rattle.gib_local.specs.Building.{used_too, variable_at, with_place, with_variable};
ghost use Rattle.gib_local.specs.{Bodied.{name_of}, Builds.{Gives, around_of, PutsNode, BindsAll, Enters}};

use crate::build_fault::BuildFault;
use crate::destination::Goal;
use crate::place::{Meant, Place, is_place, is_there};
use crate::scopes::Depth;
use crate::unused::Unused;
use gib_base::Memory;
use gib_base::token::is_literal;
use gib_check::Scope;
use gib_core::{Access, Atom, Kind, Node, TermId, Terms, Variable};
use gib_local_parse::{Mark, Operand, Way};
use gib_syntax::{Ident, Parameter};
use std::alloc::{AllocError, Global};

/// The terms so far; the variables, regions and locations in scope; the number of the next variable; and the regions that
/// are not used yet.
#[derive(Drop)]
pub struct Builder {
    pub alloc: Global,
    pub terms: Terms,
    pub variables: Scope<u32>,
    pub places: Scope<Meant>,
    pub fresh: u32,
    pub unused: Unused,
}

/// A kind, where it is due.
fn kind_if(due: bool, kind: Kind) -> Option<Kind>
    ensures { result ≡ (if due then Some kind else None) }
{
    if due { Some(kind) } else { None }
}

impl Builder {
    /// Nothing is built.
    pub fn new(alloc: Global) -> Builder
        ensures { result.terms ≡ [] }
    {
        Builder {
            alloc,
            terms: Terms::new(alloc),
            variables: Scope::new(alloc),
            places: Scope::new(alloc),
            fresh: 0,
            unused: Unused::new(alloc),
        }
    }

    /// How many variables and places are in scope.
    pub fn depth(&self) -> Depth
        ensures variables { result.variables ≡ length self.now.variables }
        ensures places { result.places ≡ length self.now.places }
    {
        Depth {
            variables: self.variables.len(),
            places: self.places.len(),
        }
    }

    /// Only so many variables and places, the oldest ones, stay in scope.
    ///
    /// # Errors
    ///
    /// Want of memory.
    pub fn leave(&mut self, depth: Depth) -> Result<(), Memory>
        ensures { OnOk result (self.new ≡ record self.old { variables = drop (length self.old.variables - depth.variables) self.old.variables; places = drop (length self.old.places - depth.places) self.old.places }) }
    {
        self.variables.truncate(depth.variables)?;
        self.places.truncate(depth.places)
    }

    /// A body begins: nothing is in scope, and variables count from 0 on.
    ///
    /// # Errors
    ///
    /// Want of memory.
    pub fn begin(&mut self) -> Result<(), Memory>
        ensures { OnOk result (self.new ≡ record self.old { variables = []; places = []; fresh = 0; unused = [] }) }
    {
        self.fresh = 0;
        self.unused.clear();
        self.leave(Depth {
            variables: 0,
            places: 0,
        })
    }

    /// A new variable.
    ///
    /// # Errors
    ///
    /// Want of memory, where no further number is left.
    pub fn new_variable(&mut self) -> Result<Variable, Memory>
        ensures variable { IfOk result (λ x. x.0 ≡ self.old.fresh) }
        ensures new { IfOk result (λ _. self.new ≡ record self.old { fresh = self.old.fresh + 1 }) }
    {
        if self.fresh == u32::MAX {
            return Err(AllocError);
        }
        let variable = Variable(self.fresh);
        self.fresh += 1;
        Ok(variable)
    }

    /// A variable comes into scope.
    ///
    /// # Errors
    ///
    /// Want of memory.
    pub fn bind(&mut self, x: Ident, variable: Variable) -> Result<(), Memory>
        ensures { OnOk result (self.new ≡ record self.old { variables = with_variable x variable.0 self.old.variables }) }
    {
        self.variables.push(x.name, variable.0)
    }

    /// A new variable comes into scope.
    ///
    /// # Errors
    ///
    /// Want of memory, where no further number is left too.
    pub fn bind_new(&mut self, x: Ident) -> Result<Variable, Memory>
        ensures variable { IfOk result (λ variable. variable.0 ≡ self.old.fresh) }
        ensures new { IfOk result (λ _. self.new ≡ record self.old { variables = with_variable x self.old.fresh self.old.variables; fresh = self.old.fresh + 1 }) }
    {
        let variable = self.new_variable()?;
        self.bind(x, variable)?;
        Ok(variable)
    }

    /// New variables come into scope.
    ///
    /// # Errors
    ///
    /// Want of memory, where no further number is left too.
    pub fn bind_all(&mut self, names: &[Ident]) -> Result<Vec<Variable>, Memory>
        ensures { IfOk result (λ v. BindsAll self.old self.new names.now v.items) }
    {
        let mut variables = Vec::new(self.alloc);
        let mut rest = names;
        'names: while let [name, after @ ..] = rest {
            let variable = self.bind_new(*name)?;
            variables.push(variable)?;
            rest = after;
        }
        Ok(variables)
    }

    /// New variables of parameters come into scope.
    ///
    /// # Errors
    ///
    /// Want of memory, where no further number is left too.
    pub fn bind_parameters(&mut self, parameters: &[Parameter]) -> Result<(), Memory>
        ensures { OnOk result (Enters self.old self.new (map name_of parameters.now)) }
    {
        let mut rest = parameters;
        'parameters: while let [parameter, after @ ..] = rest {
            self.bind_new(parameter.name)?;
            rest = after;
        }
        Ok(())
    }

    /// A region or location gets a name.
    ///
    /// # Errors
    ///
    /// Want of memory.
    pub fn name(&mut self, x: Ident, meant: Meant) -> Result<(), Memory>
        ensures { OnOk result (self.new ≡ record self.old { places = with_place x meant self.old.places }) }
    {
        self.places.push(x.name, meant)
    }

    /// The variable of a name.
    pub fn variable(&self, x: Ident) -> Variable
        ensures { result ≡ record { 0 = variable_at self.now.variables (number_of x) } }
    {
        match self.variables.find(x.name) {
            Some(number) => Variable(number),
            None => Variable(0),
        }
    }

    /// What the name of a region or location stands for.
    pub fn meant(&self, x: Ident) -> Option<Meant>
        ensures { result ≡ meant self.now.places (number_of x) }
    {
        self.places.find(x.name)
    }

    /// The atom of an operand.
    ///
    /// # Errors
    ///
    /// Want of memory; a number past the greatest literal, which no text has that was read, is answered so too.
    pub fn atom(&self, value: Operand) -> Result<Atom, Memory>
        ensures { IfOk result (λ a. (goal : Where) → a ≡ atom_of (around_of self.now goal) value) }
    {
        match value {
            Operand::Named(x) => Ok(Atom::Variable(self.variable(x))),
            Operand::Number(_, number) => {
                if !is_literal(number) {
                    return Err(AllocError);
                }
                Ok(Atom::literal(number))
            }
            Operand::Bit(_, truth) => Ok(Atom::Truth(truth)),
        }
    }

    /// The atoms of operands.
    ///
    /// # Errors
    ///
    /// As `atom` has them.
    pub fn atoms(&self, values: &[Operand]) -> Result<Vec<Atom>, Memory>
        ensures { IfOk result (λ v. (goal : Where) → v.items ≡ map (atom_of (around_of self.now goal)) values.now) }
    {
        let mut atoms = Vec::new(self.alloc);
        let mut rest = values;
        'values: while let [value, after @ ..] = rest {
            let atom = self.atom(*value)?;
            atoms.push(atom)?;
            rest = after;
        }
        Ok(atoms)
    }

    /// The access of a field.
    pub fn access(&self, way: Way) -> Access
        ensures { (goal : Where) → result ≡ accessed (around_of self.now goal) way }
    {
        match way {
            Way::ByOffset => Access::Offset,
            Way::BySkip(x) => Access::Skip(self.variable(x)),
            Way::ByEnd(x) => Access::End(self.variable(x)),
        }
    }

    /// An `@` names the destination.
    ///
    /// # Errors
    ///
    /// Where a scalar is due the place of the `@`; else that of the name.
    pub fn aims(&self, goal: &Goal, mark: Mark) -> Result<(), BuildFault>
        ensures { Gives (λ _. tt {0}) result (aimed (around_of self.now goal.now) mark (Ok (tt {0}))) }
    {
        if goal.destination.is_nowhere() {
            return Err(BuildFault::Place(mark.sign.start));
        }
        if !is_place(goal.at, self.meant(mark.name)) {
            return Err(BuildFault::Place(mark.name.span.start));
        }
        Ok(())
    }

    /// How a value is put at what a name stands for: where that is the place of the next field, it becomes that field;
    /// where it is the start of a region that is not used yet, it is put there.
    pub fn kind_at(&self, next: Option<Place>, meant: Option<Meant>) -> Option<Kind>
        ensures { result ≡ kind_in next self.now.unused meant }
    {
        match meant {
            None => None,
            Some(Meant::IsRegion) => None,
            Some(Meant::IsPlace(place)) => self.kind_for(next, place),
        }
    }

    /// How a value is put at a location.
    fn kind_for(&self, next: Option<Place>, place: Place) -> Option<Kind>
        ensures { result ≡ kind_place next self.now.unused place }
    {
        match place {
            Place::AtStart(region) => kind_if(self.unused.has(region), Kind::Region),
            Place::AtResult => kind_if(is_there(next, place), Kind::Here),
            Place::AtFirst(_) => kind_if(is_there(next, place), Kind::Here),
            Place::AtNext(_) => kind_if(is_there(next, place), Kind::Here),
        }
    }

    /// A value is put at a location: its region is used from now on.
    ///
    /// # Errors
    ///
    /// Want of memory.
    pub fn use_place(&mut self, place: Place) -> Result<(), Memory>
        ensures { OnOk result (self.new ≡ record self.old { unused = used_too place self.old.unused }) }
    {
        match place {
            Place::AtStart(region) => self.unused.take(self.alloc, region),
            Place::AtResult => Ok(()),
            Place::AtFirst(_) => Ok(()),
            Place::AtNext(_) => Ok(()),
        }
    }

    /// One more term, over those that were built.
    ///
    /// # Errors
    ///
    /// Want of memory, where no further number is left too.
    pub fn put(&mut self, node: Node) -> Result<TermId, Memory>
        requires { PartsBelow node (length self.old.terms) }
        ensures { IfOk result (λ id. PutsNode self.old self.new id node) }
    {
        self.terms.put(node)
    }
}
