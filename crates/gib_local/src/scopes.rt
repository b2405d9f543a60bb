//! What is in scope in a body, and what was counted of it.

ghost use Rattle.std.specs.Prelude.{◌≡◌, ◌-◌, [], ◌∷◌, length, drop, OnOk};
ghost use Rattle.gib_syntax.specs.Declarations.{number_of};
ghost use Rattle.gib_check.specs.Answers.{Gives};
ghost use Rattle.gib_check.specs.Faults as counting;
ghost use Rattle.gib_local.specs.Naming as rule;

use crate::known::broken;
use gib_base::limits::{EXPRESSIONS, VARIABLES};
use gib_base::{Memory, Span};
use gib_check::{Counts, Kind, Scope, TypeFault};
use gib_local_parse::{Operand, Way};
use gib_syntax::Ident;
use std::alloc::Global;
use std::marker::Model;

/// How many variables and places are in scope.
#[derive(Clone, Copy)]
pub struct Depth {
    pub variables: usize,
    pub places: usize,
}

/// The variables in scope, the regions and locations in scope, and counts.
#[derive(Drop)]
pub struct Scopes {
    variables: Scope<u32>,
    places: Scope<u32>,
    counts: Counts,
}

impl Model for Scopes {
    ghost use Rattle.gib_local.specs.{Naming.{After'}, Knowing.{names_in}};

    ghost Value = { After' };

    ghost view = { λ s. record { names = record { variables = names_in s.variables; places = names_in s.places }; counts = s.counts } };
}

impl Scopes {
    /// Nothing is in scope, and so many variables were counted.
    pub fn new(alloc: Global, variables: u32) -> Scopes
        ensures { result ≡ record { names = record { variables = []; places = [] }; counts = record { variables = variables; expressions = 0 } } }
    {
        Scopes {
            variables: Scope::new(alloc),
            places: Scope::new(alloc),
            counts: Counts {
                variables,
                expressions: 0,
            },
        }
    }

    /// One more term.
    pub fn one_more(&mut self, at: Span) -> Result<(), TypeFault>
        ensures counts { Gives (λ _. self.new.counts) result (counting.one_more self.old.counts at) }
        ensures names { self.new.names ≡ self.old.names }
    {
        if self.counts.expressions >= EXPRESSIONS {
            return Err(broken(Kind::Limit, at));
        }
        self.counts.expressions += 1;
        Ok(())
    }

    /// One more variable, which is not in scope yet: it is counted.
    pub fn bound(&mut self, x: Ident) -> Result<(), TypeFault>
        ensures counts { Gives (λ _. self.new.counts) result (rule.bound self.old.names.variables self.old.counts x) }
        ensures names { self.new.names ≡ self.old.names }
    {
        if self.variables.find(x.name).is_some() {
            return Err(broken(Kind::Twice, x.span));
        }
        if self.counts.variables >= VARIABLES {
            return Err(broken(Kind::Limit, x.span));
        }
        self.counts.variables += 1;
        Ok(())
    }

    /// The right side's variable, while the left side's one is not in scope.
    pub fn bound_beside(&mut self, left: Ident, x: Ident) -> Result<(), TypeFault>
        ensures counts { Gives (λ _. self.new.counts) result (rule.bound (number_of left ∷ self.old.names.variables) self.old.counts x) }
        ensures names { self.new.names ≡ self.old.names }
    {
        if left.name.0 == x.name.0 {
            return Err(broken(Kind::Twice, x.span));
        }
        self.bound(x)
    }

    /// A variable comes into scope.
    ///
    /// # Errors
    ///
    /// Want of memory.
    pub fn enter(&mut self, x: Ident) -> Result<(), Memory>
        ensures names { OnOk result (self.new.names ≡ rule.with_variable x self.old.names) }
        ensures counts { self.new.counts ≡ self.old.counts }
    {
        self.variables.push(x.name, 0)
    }

    /// Variables of an arm, one after another.
    pub fn bound_all(&mut self, variables: &[Ident]) -> Result<(), TypeFault>
        ensures read { Gives (λ _. self.new) result (rule.all_bound variables.now self.old.names self.old.counts) }
        ensures kept { OnOk result (drop (length self.new.names.variables - length self.old.names.variables) self.new.names.variables ≡ self.old.names.variables) }
        ensures places { OnOk result (self.new.names.places ≡ self.old.names.places) }
    {
        let mut rest = variables;
        'variables: while let [x, after @ ..] = rest {
            self.bound(*x)?;
            self.enter(*x)?;
            rest = after;
        }
        Ok(())
    }

    /// A region or location comes into scope.
    pub fn enter_place(&mut self, x: Ident) -> Result<(), TypeFault>
        ensures new { Gives (λ _. tt {0}) result (rule.new self.old.names.places x) }
        ensures names { OnOk result (self.new.names ≡ rule.with_place x self.old.names) }
        ensures counts { self.new.counts ≡ self.old.counts }
    {
        self.new_place(x)?;
        self.places.push(x.name, 0)?;
        Ok(())
    }

    /// A region or location is not in scope yet.
    pub fn new_place(&self, x: Ident) -> Result<(), TypeFault>
        ensures { Gives (λ _. tt {0}) result (rule.new self.now.names.places x) }
    {
        match self.places.find(x.name) {
            Some(_) => Err(broken(Kind::Twice, x.span)),
            None => Ok(()),
        }
    }

    /// A variable is in scope.
    pub fn variable(&self, x: Ident) -> Result<(), TypeFault>
        ensures { Gives (λ _. tt {0}) result (rule.old self.now.names.variables x) }
    {
        match self.variables.find(x.name) {
            Some(_) => Ok(()),
            None => Err(broken(Kind::Unknown, x.span)),
        }
    }

    /// A variable is in scope, or it is the left side's.
    pub fn variable_or(&self, left: Ident, x: Ident) -> Result<(), TypeFault>
        ensures { Gives (λ _. tt {0}) result (rule.old (number_of left ∷ self.now.names.variables) x) }
    {
        if left.name.0 == x.name.0 {
            return Ok(());
        }
        self.variable(x)
    }

    /// An operand's variable is in scope.
    pub fn operand(&self, operand: Operand) -> Result<(), TypeFault>
        ensures { Gives (λ _. tt {0}) result (rule.operand self.now.names.variables operand) }
    {
        match operand {
            Operand::Named(x) => self.variable(x),
            Operand::Number(_, _) => Ok(()),
            Operand::Bit(_, _) => Ok(()),
        }
    }

    /// Operands, from left to right.
    pub fn operands(&self, operands: &[Operand]) -> Result<(), TypeFault>
        ensures { Gives (λ _. tt {0}) result (rule.operands self.now.names.variables operands.now) }
    {
        let mut rest = operands;
        'operands: while let [operand, after @ ..] = rest {
            self.operand(*operand)?;
            rest = after;
        }
        Ok(())
    }

    /// How a field is reached.
    pub fn reached(&self, y: Ident, way: Way) -> Result<(), TypeFault>
        ensures { Gives (λ _. tt {0}) result (rule.reach_names self.now.names y way) }
    {
        self.variable(y)?;
        match way {
            Way::ByOffset => Ok(()),
            Way::BySkip(z) => self.variable(z),
            Way::ByEnd(z) => self.variable(z),
        }
    }

    /// How many names are in scope.
    pub fn depth(&self) -> Depth
        ensures variables { result.variables ≡ length self.now.names.variables }
        ensures places { result.places ≡ length self.now.names.places }
    {
        Depth {
            variables: self.variables.len(),
            places: self.places.len(),
        }
    }

    /// Keeps so many of the oldest names in scope.
    ///
    /// # Errors
    ///
    /// Want of memory.
    pub fn leave(&mut self, depth: Depth) -> Result<(), Memory>
        ensures variables { OnOk result (self.new.names.variables ≡ drop (length self.old.names.variables - depth.variables) self.old.names.variables) }
        ensures places { OnOk result (self.new.names.places ≡ drop (length self.old.names.places - depth.places) self.old.names.places) }
        ensures counts { self.new.counts ≡ self.old.counts }
    {
        self.variables.truncate(depth.variables)?;
        self.places.truncate(depth.places)
    }
}
