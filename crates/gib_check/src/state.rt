//! What the check of a body keeps: the types that were met, the variables in scope, and counts.

ghost use Rattle.std.specs.Prelude.{◌≡◌};

use crate::counts::Counts;
use crate::fault::{Kind, TypeFault};
use crate::reading::{Meaning, put_type, read, read_first};
use crate::rules::{ResultIds, broken};
use crate::scope::Scope;
use gib_base::limits::{EXPRESSIONS, PARTS, VARIABLES};
use gib_base::{Memory, Span};
use gib_syntax::{Ident, Word};
use gib_types::types::{TypeId, TypeNode, Types};
use std::alloc::{AllocError, Global};
use std::marker::Model;

/// Where memory comes from, the types that were met, those of the parts of results, what is in scope, and what was met so
/// far of a function.
#[derive(Drop)]
pub struct State {
    alloc: Global,
    types: Types,
    /// A run for each result of several parts.
    parts: Vec<TypeId>,
    scope: Scope<TypeId>,
    counts: Counts,
}

impl Model for State {
    ghost use Rattle.std.specs.Prelude.{length};
    ghost use Rattle.gib_check.specs.Judging.{Judging, IsScopeBelow};

    ghost Value = { Judging };

    ghost view = { λ s. record { types = s.types; parts = s.parts.items; scope = s.scope; counts = s.counts } };

    ghost invariant = { λ s. IsScopeBelow (length s.types) s.scope };
}

impl State {
    ghost use Rattle.std.specs.Prelude.{◌<◌, ◌≤◌, ◌+◌, ◌-◌, [], ◌++◌, length, drop, IfOk, OnOk};
    ghost use Rattle.gib_types.specs.Types.{form_at, form_from, ArgumentsBelow, AreBelow};
    ghost use Rattle.gib_syntax.specs.{Forms.{formed}, Results.{Several}, Words.{stack_of, first_type}, GenericTyping.{FormScope, form_bound}};
    ghost use Rattle.gib_check.specs.Answers.{Gives};
    ghost use Rattle.gib_check.specs.Judging.{Judging, forms, in_scope, listed, run_of, ids_of, forms_given, AreMet, Met, Meets, Reads, Keeps, meant_by, IsMeaningBelow};
    ghost use Rattle.gib_check.specs.Faults as rule;

    /// Nothing was met but so many parameters, which are not in scope yet.
    pub fn new(alloc: Global, variables: u32) -> State
        ensures { result ≡ record { types = []; parts = []; scope = []; counts = record { variables = variables; expressions = 0 } } }
    {
        State {
            alloc,
            types: Types::new(alloc),
            parts: Vec::new(alloc),
            scope: Scope::new(alloc),
            counts: Counts {
                variables,
                expressions: 0,
            },
        }
    }

    /// Where memory comes from.
    pub fn alloc(&self) -> Global {
        self.alloc
    }

    /// The types that were met.
    pub fn types(&self) -> &Types
        ensures { result.now ≡ self.now.types }
    {
        &self.types
    }

    /// The types of the parts of a run.
    pub fn parts(&self, start: u32, count: u32) -> &[TypeId]
        requires { start + count ≤ length self.now.parts }
        ensures { result.now ≡ run_of self.now start count }
    {
        let first = start as usize;
        &self.parts[first..first + count as usize]
    }

    /// How many variables are in scope.
    pub fn len(&self) -> usize
        ensures { result ≡ length (in_scope self.now) }
    {
        self.scope.len()
    }

    /// One more expression.
    pub fn one_more(&mut self, at: Span) -> Result<(), TypeFault>
        ensures counts { Gives (λ _. self.new.counts) result (rule.one_more self.old.counts at) }
        ensures scope { (in_scope self.new) ≡ (in_scope self.old) }
        ensures types { self.new.types ≡ self.old.types }
        ensures parts { self.new.parts ≡ self.old.parts }
    {
        if self.counts.expressions >= EXPRESSIONS {
            return Err(broken(Kind::Limit, at));
        }
        self.counts.expressions += 1;
        Ok(())
    }

    /// The type of a variable.
    pub fn type_of(&self, x: Ident) -> Result<TypeId, TypeFault>
        ensures read { Gives (λ t. form_at (forms self.now) t.0) result (rule.variable (in_scope self.now) x) }
        ensures below { IfOk result (λ t. t.0 < length self.now.types) }
    {
        match self.scope.find(x.name) {
            Some(ty) => Ok(ty),
            None => Err(broken(Kind::Unknown, x.span)),
        }
    }

    /// A name that is not in scope yet.
    fn unbound(&self, x: Ident) -> Result<(), TypeFault>
        ensures { Gives (λ _. tt {0}) result (rule.unbound (in_scope self.now) x) }
    {
        match self.scope.find(x.name) {
            Some(_) => Err(broken(Kind::Twice, x.span)),
            None => Ok(()),
        }
    }

    /// One more variable.
    fn counted(&mut self, x: Ident) -> Result<(), TypeFault>
        ensures counts { Gives (λ _. self.new.counts) result (rule.counted self.old.counts x) }
        ensures scope { (in_scope self.new) ≡ (in_scope self.old) }
        ensures types { self.new.types ≡ self.old.types }
        ensures parts { self.new.parts ≡ self.old.parts }
    {
        if self.counts.variables >= VARIABLES {
            return Err(broken(Kind::Limit, x.span));
        }
        self.counts.variables += 1;
        Ok(())
    }

    /// One more variable, which is not in scope yet: it is counted.
    fn new_variable(&mut self, x: Ident) -> Result<(), TypeFault>
        ensures counts { Gives (λ _. self.new.counts) result (rule.new_variable (in_scope self.old) self.old.counts x) }
        ensures scope { (in_scope self.new) ≡ (in_scope self.old) }
        ensures types { self.new.types ≡ self.old.types }
        ensures parts { self.new.parts ≡ self.old.parts }
    {
        self.unbound(x)?;
        self.counted(x)?;
        Ok(())
    }

    /// A variable comes into scope.
    ///
    /// # Errors
    ///
    /// Want of memory.
    pub fn enter(&mut self, x: Ident, ty: TypeId) -> Result<(), Memory>
        requires { ty.0 < length self.old.types }
        ensures scope { OnOk result ((in_scope self.new) ≡ form_bound x (form_at (forms self.old) ty.0) (in_scope self.old)) }
        ensures counts { self.new.counts ≡ self.old.counts }
        ensures types { self.new.types ≡ self.old.types }
        ensures parts { self.new.parts ≡ self.old.parts }
    {
        self.scope.push(x.name, ty)
    }

    /// Binds a new variable.
    pub fn bind(&mut self, x: Ident, ty: TypeId) -> Result<(), TypeFault>
        requires { ty.0 < length self.old.types }
        ensures counts { Gives (λ _. self.new.counts) result (rule.new_variable (in_scope self.old) self.old.counts x) }
        ensures scope { OnOk result ((in_scope self.new) ≡ form_bound x (form_at (forms self.old) ty.0) (in_scope self.old)) }
        ensures types { self.new.types ≡ self.old.types }
        ensures parts { self.new.parts ≡ self.old.parts }
    {
        self.new_variable(x)?;
        self.enter(x, ty)?;
        Ok(())
    }

    /// One more variable of a binding, behind so many: new in its scope, then no ninth, then it is counted.
    fn new_part(&mut self, behind: usize, x: Ident) -> Result<(), TypeFault>
        ensures counts { Gives (λ _. self.new.counts) result (rule.part_variable behind (in_scope self.old) self.old.counts x) }
        ensures scope { (in_scope self.new) ≡ (in_scope self.old) }
        ensures types { self.new.types ≡ self.old.types }
        ensures parts { self.new.parts ≡ self.old.parts }
    {
        self.unbound(x)?;
        if behind >= PARTS as usize {
            return Err(broken(Kind::Limit, x.span));
        }
        self.counted(x)?;
        Ok(())
    }

    /// Binds a new variable behind so many of a binding.
    fn bind_part(&mut self, behind: usize, x: Ident, ty: TypeId) -> Result<(), TypeFault>
        requires { ty.0 < length self.old.types }
        ensures counts { Gives (λ _. self.new.counts) result (rule.part_variable behind (in_scope self.old) self.old.counts x) }
        ensures scope { OnOk result ((in_scope self.new) ≡ form_bound x (form_at (forms self.old) ty.0) (in_scope self.old)) }
        ensures types { self.new.types ≡ self.old.types }
        ensures parts { self.new.parts ≡ self.old.parts }
    {
        self.new_part(behind, x)?;
        self.enter(x, ty)?;
        Ok(())
    }

    /// Binds the variables of a binding to things of these types.
    fn bind_parts(&mut self, names: &[Ident], types: &[TypeId]) -> Result<(), TypeFault>
        requires { AreBelow (length self.old.types) types.now }
        ensures read { Gives (λ _. ((in_scope self.new), self.new.counts)) result (rule.bind_parts 0 (in_scope self.old) self.old.counts names.now (listed (forms self.old) types.now)) }
        ensures kept { OnOk result ((added : FormScope) × ((in_scope self.new) ≡ added ++ (in_scope self.old))) }
        ensures types { self.new.types ≡ self.old.types }
        ensures parts { self.new.parts ≡ self.old.parts }
    {
        let mut behind = 0_usize;
        let mut rest = names;
        let mut ids = types;
        'variables: while let [name, after @ ..] = rest {
            match ids {
                [] => return Ok(()),
                [ty, ids_after @ ..] => {
                    self.bind_part(behind, *name, *ty)?;
                    rest = after;
                    ids = ids_after;
                    behind += 1;
                }
            }
        }
        Ok(())
    }

    /// Binds the variables of a binding to what its right side gives: to the one thing, or to the parts.
    pub fn bind_results(&mut self, names: &[Ident], given: ResultIds) -> Result<(), TypeFault>
        requires { AreMet self.old given }
        ensures read { Gives (λ _. ((in_scope self.new), self.new.counts)) result (rule.bind_parts 0 (in_scope self.old) self.old.counts names.now (listed (forms self.old) (ids_of self.old given))) }
        ensures kept { OnOk result ((added : FormScope) × ((in_scope self.new) ≡ added ++ (in_scope self.old))) }
        ensures types { self.new.types ≡ self.old.types }
        ensures parts { self.new.parts ≡ self.old.parts }
    {
        match given {
            ResultIds::One(ty) => self.bind_parts(names, &[ty]),
            ResultIds::Several { start, count } => {
                let ids = Vec::from_slice(self.alloc, self.parts(start, count))?;
                self.bind_parts(names, &ids)
            }
        }
    }

    /// Binds the variables of an arm.
    pub fn bind_all(&mut self, variables: &[Ident], fields: &[TypeId]) -> Result<(), TypeFault>
        requires { AreBelow (length self.old.types) fields.now }
        ensures read { Gives (λ _. ((in_scope self.new), self.new.counts)) result (rule.bind_all (in_scope self.old) self.old.counts variables.now (listed (forms self.old) fields.now)) }
        ensures kept { OnOk result (drop (length (in_scope self.new) - length (in_scope self.old)) (in_scope self.new) ≡ (in_scope self.old)) }
        ensures types { self.new.types ≡ self.old.types }
        ensures parts { self.new.parts ≡ self.old.parts }
    {
        let mut names = variables;
        let mut ids = fields;
        'variables: while let [name, names_after @ ..] = names {
            match ids {
                [] => return Ok(()),
                [ty, ids_after @ ..] => {
                    self.bind(*name, *ty)?;
                    names = names_after;
                    ids = ids_after;
                }
            }
        }
        Ok(())
    }

    /// Keeps so many of the oldest variables in scope.
    ///
    /// # Errors
    ///
    /// Want of memory.
    pub fn truncate(&mut self, len: usize) -> Result<(), Memory>
        ensures scope { OnOk result ((in_scope self.new) ≡ drop (length (in_scope self.old) - len) (in_scope self.old)) }
        ensures counts { self.new.counts ≡ self.old.counts }
        ensures types { self.new.types ≡ self.old.types }
        ensures parts { self.new.parts ≡ self.old.parts }
    {
        self.scope.truncate(len)
    }

    /// The number of a type.
    ///
    /// # Errors
    ///
    /// Want of memory.
    pub fn put(&mut self, node: TypeNode) -> Result<TypeId, Memory>
        requires { ArgumentsBelow (length self.old.types) node }
        ensures met { IfOk result (λ id. Meets self.old.types self.new.types id (form_from (forms self.old) node)) }
        ensures keeps { Keeps self.old self.new }
    {
        put_type(&mut self.types, node)
    }

    /// What gives several parts of these types.
    ///
    /// # Errors
    ///
    /// Want of memory.
    pub fn put_parts(&mut self, ids: &[TypeId]) -> Result<ResultIds, Memory>
        requires { AreBelow (length self.old.types) ids.now }
        ensures forms { IfOk result (λ given. forms_given self.new given ≡ Several (listed (forms self.old) ids.now)) }
        ensures met { IfOk result (λ given. Met self.old self.new given) }
        ensures counts { self.new.counts ≡ self.old.counts }
        ensures scope { (in_scope self.new) ≡ (in_scope self.old) }
    {
        let Ok(start) = u32::try_from(self.parts.len()) else {
            return Err(AllocError);
        };
        let Ok(count) = u32::try_from(ids.len()) else {
            return Err(AllocError);
        };
        self.parts.extend_from_slice(ids)?;
        Ok(ResultIds::Several { start, count })
    }

    /// `Int` and `Bool` are met. Before all other types they get the numbers at which `put` and `read` look for them.
    ///
    /// # Errors
    ///
    /// Want of memory.
    pub fn meet_plain(&mut self) -> Result<(), Memory>
        ensures scope { (in_scope self.new) ≡ (in_scope self.old) }
        ensures counts { self.new.counts ≡ self.old.counts }
    {
        self.put(TypeNode::Whole)?;
        self.put(TypeNode::Truth)?;
        Ok(())
    }

    /// The types that words spell, in the order of the text.
    ///
    /// # Errors
    ///
    /// Want of memory.
    pub fn read(&mut self, meaning: &Meaning, words: &[Word]) -> Result<Vec<TypeId>, Memory>
        requires { IsMeaningBelow (length self.old.types) meaning.now }
        ensures read { IfOk result (λ ids. Reads self.old.types self.new.types (meant_by (forms self.old) meaning.now) words.now ids.items) }
        ensures keeps { Keeps self.old self.new }
    {
        read(self.alloc, &mut self.types, meaning, words)
    }

    /// The one type that words spell.
    ///
    /// # Errors
    ///
    /// Want of memory.
    pub fn read_first(&mut self, meaning: &Meaning, words: &[Word]) -> Result<TypeId, Memory>
        requires { IsMeaningBelow (length self.old.types) meaning.now }
        ensures met { IfOk result (λ id. Meets self.old.types self.new.types id (formed (meant_by (forms self.old) meaning.now) (first_type (stack_of words.now)))) }
        ensures keeps { Keeps self.old self.new }
    {
        read_first(self.alloc, &mut self.types, meaning, words)
    }
}
