//! What is copied so far, the types that copies have, and the names that they get.

ghost use Rattle.std.specs.Prelude.{◌≡◌, ◌<◌, length, map, IfOk, OnOk};
ghost use Rattle.gib_types.specs.{Form.{form_or}, Types.{form_at, forms_at, form_from, AreBelow, ArgumentsBelow}};
ghost use Rattle.gib_syntax.specs.{Arena.{PartsBelow}, Declarations.{number_of}, Forms.{assign, formed}, Results.{Several, list_results, map_results}};
ghost use Rattle.gib_syntax.specs.{GenericParts.{results_in}, GenericTree.{generic_named, place_named}, GenericTyping.{form_in, form_bound}};
ghost use Rattle.gib_syntax.specs.Words.{first_type, stack_of, type_in};
ghost use Rattle.gib_mono.specs.Copying.{arguments_of, bind_forms, copy_variables, forms_named, name_of_form, one_form, renamed, results_at};
ghost use Rattle.gib_mono.specs.{Made.{AreMet, Binds, Gives, Leaves, Meets, MeetsAll, Puts, first_form, forms_given, naming}, Naming.{number_with}};
ghost use Rattle.gib_mono.specs.{Reading.{listed}, Scenes.{forms, meaning, names_in, scope_in}, Sources.{globals_in}};

use crate::scene::Scene;
use crate::source::Source;
use gib_base::{Memory, Name, Span};
use gib_check::{ResultIds, Stack};
use gib_syntax::{ExprId, Exprs, Ident, Node, Parameter, ResultRuns, Run, TypeName, Word};
use gib_types::types::{TypeId, TypeNode};
use std::alloc::{AllocError, Global};

/// What is copied so far: the expressions, and what types are read and named in. Names of copies are numbered from
/// `base` on.
#[derive(Drop)]
pub struct Copier {
    pub alloc: Global,
    pub scene: Scene,
    /// The types of the parts of results, a run for each result of several.
    pub parts: Vec<TypeId>,
    pub base: u32,
    pub exprs: Exprs,
}

/// A copied expression, with its type, or those of its parts.
#[derive(Clone, Copy)]
pub struct Copied {
    pub expr: ExprId,
    pub given: ResultIds,
}

impl Copier {
    /// One more expression, over those that were copied.
    ///
    /// # Errors
    ///
    /// Want of memory.
    pub fn put(&mut self, node: Node) -> Result<ExprId, Memory>
        requires { PartsBelow node (length self.old.exprs) }
        ensures { IfOk result (λ id. Puts self.old self.new id node) }
    {
        self.exprs.put(node)
    }

    /// The number of a type.
    ///
    /// # Errors
    ///
    /// Want of memory.
    pub fn meet(&mut self, node: TypeNode) -> Result<TypeId, Memory>
        requires { ArgumentsBelow (length self.old.scene.types) node }
        ensures { IfOk result (λ id. Meets self.old self.new id (form_from (forms self.old.scene) node)) }
    {
        self.scene.put(node)
    }

    /// The type of a variable in scope.
    ///
    /// # Errors
    ///
    /// Want of memory.
    pub fn meet_variable(&mut self, x: Name) -> Result<TypeId, Memory>
        ensures { IfOk result (λ id. Meets self.old self.new id (form_or (form_in (scope_in self.old.scene) x.0))) }
    {
        self.scene.variable(x)
    }

    /// The types that words spell here.
    ///
    /// # Errors
    ///
    /// Want of memory.
    pub fn meet_types(&mut self, words: &[Word]) -> Result<Vec<TypeId>, Memory>
        ensures { IfOk result (λ types. MeetsAll self.old self.new types.items (map (formed (meaning self.old.scene)) (stack_of words.now))) }
    {
        let reading = self.scene.read(self.alloc, words)?;
        Ok(reading.types.into_vec())
    }

    /// The first of types, `Int` where there is none.
    ///
    /// # Errors
    ///
    /// Want of memory.
    pub fn first(&mut self, mut types: Stack<TypeId>) -> Result<TypeId, Memory>
        requires { AreBelow (length self.old.scene.types) types }
        ensures { IfOk result (λ id. Meets self.old self.new id (first_form (listed (forms self.old.scene) types))) }
    {
        match types.pop() {
            Some(ty) => Ok(ty),
            None => self.meet(TypeNode::Whole),
        }
    }

    /// The one type that words spell, where these type variables stand for these types.
    ///
    /// # Errors
    ///
    /// Want of memory.
    fn meet_at(
        &mut self,
        variables: &[Ident],
        types: &[TypeId],
        words: &[Word],
    ) -> Result<TypeId, Memory>
        requires { AreBelow (length self.old.scene.types) types.now }
        ensures { IfOk result (λ id. Meets self.old self.new id (formed (assign variables.now (forms_at (forms self.old.scene) types.now)) (first_type (stack_of words.now)))) }
    {
        let alloc = self.alloc;
        let reading = self.scene.read_at(alloc, variables, types, words)?;
        self.first(reading.types)
    }

    /// The types of parts, where these type variables stand for these types.
    ///
    /// # Errors
    ///
    /// Want of memory.
    fn meet_all_at(
        &mut self,
        source: &Source,
        variables: &[Ident],
        types: &[TypeId],
        runs: &[Run],
    ) -> Result<Vec<TypeId>, Memory>
        requires { AreBelow (length self.old.scene.types) types.now }
        ensures { IfOk result (λ ids. MeetsAll self.old self.new ids.items (map (formed (assign variables.now (forms_at (forms self.old.scene) types.now))) (map (type_in source.now.exprs.words) runs.now))) }
    {
        let mut ids = Vec::new(self.alloc);
        let mut rest = runs;
        'runs: while let [run, after @ ..] = rest {
            let id = self.meet_at(variables, types, source.words(*run))?;
            ids.push(id)?;
            rest = after;
        }
        Ok(ids)
    }

    /// What gives several parts of these types.
    ///
    /// # Errors
    ///
    /// Want of memory.
    pub fn put_parts(&mut self, ids: &[TypeId]) -> Result<ResultIds, Memory>
        requires { AreBelow (length self.old.scene.types) ids.now }
        ensures { IfOk result (λ given. Gives self.old self.new given (Several (listed (forms self.old.scene) ids.now))) }
    {
        let Ok(start) = u32::try_from(self.parts.len()) else {
            return Err(AllocError);
        };
        let Ok(count) = u32::try_from(ids.len()) else {
            return Err(AllocError);
        };
        self.parts.extend_from_slice(ids)?;
        Ok(ResultIds::Several { start, count })
    }

    /// What gives parts of the types of these runs, where these type variables stand for these types.
    ///
    /// # Errors
    ///
    /// Want of memory.
    fn meet_parts(
        &mut self,
        source: &Source,
        variables: &[Ident],
        types: &[TypeId],
        runs: &[Run],
    ) -> Result<ResultIds, Memory>
        requires { AreBelow (length self.old.scene.types) types.now }
        ensures { IfOk result (λ given. Gives self.old self.new given (Several (map (formed (assign variables.now (forms_at (forms self.old.scene) types.now))) (map (type_in source.now.exprs.words) runs.now)))) }
    {
        let ids = self.meet_all_at(source, variables, types, runs)?;
        self.put_parts(&ids)
    }

    /// What gives something of a written type, or parts, where these type variables stand for these types.
    ///
    /// # Errors
    ///
    /// Want of memory.
    fn meet_results(
        &mut self,
        source: &Source,
        variables: &[Ident],
        types: &[TypeId],
        gives: &ResultRuns,
    ) -> Result<ResultIds, Memory>
        requires { AreBelow (length self.old.scene.types) types.now }
        ensures { IfOk result (λ given. Gives self.old self.new given (map_results (formed (assign variables.now (forms_at (forms self.old.scene) types.now))) (results_in source.now.exprs.words gives.now))) }
    {
        match gives {
            ResultRuns::One(run) => {
                let ty = self.meet_at(variables, types, source.words(*run))?;
                Ok(ResultIds::One(ty))
            }
            ResultRuns::Several(runs) => self.meet_parts(source, variables, types, runs),
        }
    }

    /// What a function gives, where its type variables stand for these types; an `Int` where none has the name.
    ///
    /// # Errors
    ///
    /// Want of memory.
    pub fn meet_result(
        &mut self,
        source: &Source,
        f: Name,
        types: &[TypeId],
    ) -> Result<ResultIds, Memory>
        requires { AreBelow (length self.old.scene.types) types.now }
        ensures { IfOk result (λ given. Gives self.old self.new given (results_at (generic_named (globals_in source.now).functions f.0) (forms_at (forms self.old.scene) types.now))) }
    {
        let Some(place) = source.function_place(f) else {
            let ty = self.meet(TypeNode::Whole)?;
            return Ok(ResultIds::One(ty));
        };
        let function = source.function_decl(place);
        self.meet_results(source, &function.variables, types, &function.result)
    }

    /// The one type of what an expression gives; of several parts, where it is not asked, `Int`.
    ///
    /// # Errors
    ///
    /// Want of memory.
    pub fn one(&mut self, given: ResultIds) -> Result<TypeId, Memory>
        requires { AreMet self.old given }
        ensures { IfOk result (λ id. Meets self.old self.new id (one_form (forms_given self.old given))) }
    {
        match given {
            ResultIds::One(ty) => Ok(ty),
            ResultIds::Several { .. } => self.meet(TypeNode::Whole),
        }
    }

    /// The types of what an expression gives: one, or those of its parts.
    ///
    /// # Errors
    ///
    /// Want of memory.
    pub fn types_given(&self, given: ResultIds) -> Result<Vec<TypeId>, Memory>
        requires { AreMet self.now given }
        ensures forms { IfOk result (λ ids. listed (forms self.now.scene) ids.items ≡ list_results (forms_given self.now given)) }
        ensures below { IfOk result (λ ids. AreBelow (length self.now.scene.types) ids.items) }
    {
        match given {
            ResultIds::One(ty) => {
                let ids = Vec::from_slice(self.alloc, &[ty])?;
                Ok(ids)
            }
            ResultIds::Several { start, count } => {
                let first = start as usize;
                let ids = Vec::from_slice(self.alloc, &self.parts[first..first + count as usize])?;
                Ok(ids)
            }
        }
    }

    /// A type as the copy writes it.
    ///
    /// # Errors
    ///
    /// Want of memory, and of numbers.
    pub fn type_name(&self, span: Span, ty: TypeId) -> Result<TypeName, Memory>
        requires { ty.0 < length self.now.scene.types }
        ensures { IfOk result (λ name. name ≡ name_of_form (naming self.now) span (form_at (forms self.now.scene) ty.0)) }
    {
        match self.scene.types().node(ty) {
            TypeNode::Whole => Ok(TypeName::Whole(span)),
            TypeNode::Truth => Ok(TypeName::Truth(span)),
            TypeNode::Variable(_) => Ok(TypeName::Whole(span)),
            TypeNode::Data(name, types) => {
                let plain = Ident {
                    name: Name(*name),
                    span,
                };
                let name = self.name(plain, types)?;
                Ok(TypeName::Declared(name))
            }
        }
    }

    /// Types as the copy writes them, all at one place.
    ///
    /// # Errors
    ///
    /// Want of memory, and of numbers.
    pub fn type_names(&self, span: Span, types: &[TypeId]) -> Result<Vec<TypeName>, Memory>
        requires { AreBelow (length self.now.scene.types) types.now }
        ensures { IfOk result (λ names. names.items ≡ map (name_of_form (naming self.now) span) (listed (forms self.now.scene) types.now)) }
    {
        let mut names = Vec::new(self.alloc);
        let mut rest = types;
        'types: while let [ty, after @ ..] = rest {
            let name = self.type_name(span, *ty)?;
            names.push(name)?;
            rest = after;
        }
        Ok(names)
    }

    /// The variables of a binding of parts, with their types; there is a type for each in a typed program.
    ///
    /// # Errors
    ///
    /// Want of memory, and of numbers.
    pub fn variables(&self, names: &[Ident], types: &[TypeId]) -> Result<Vec<Parameter>, Memory>
        requires { AreBelow (length self.now.scene.types) types.now }
        ensures { IfOk result (λ qs. qs.items ≡ copy_variables (naming self.now) names.now (listed (forms self.now.scene) types.now)) }
    {
        let mut variables = Vec::new(self.alloc);
        let mut rest = names;
        let mut left = types;
        'names: while let [name, after @ ..] = rest {
            match left {
                [] => {
                    let ty = TypeName::Whole(name.span);
                    variables.push(Parameter { name: *name, ty })?;
                    rest = after;
                }
                [ty, further @ ..] => {
                    let ty = self.type_name(name.span, *ty)?;
                    variables.push(Parameter { name: *name, ty })?;
                    rest = after;
                    left = further;
                }
            }
        }
        Ok(variables)
    }

    /// The types of the fields of a constructor, where its type's variables stand for these types; none where no
    /// constructor has the name.
    ///
    /// # Errors
    ///
    /// Want of memory.
    pub fn meet_fields(
        &mut self,
        source: &Source,
        k: Name,
        types: &[TypeId],
    ) -> Result<Vec<TypeId>, Memory>
        requires { AreBelow (length self.old.scene.types) types.now }
        ensures { IfOk result (λ fields. MeetsAll self.old self.new fields.items (forms_named (globals_in source.now).rows (place_named (globals_in source.now).rows k.0) (forms_at (forms self.old.scene) types.now))) }
    {
        let Some(row) = source.row(k) else {
            return Ok(Vec::new(self.alloc));
        };
        let variables = source.variables(row.declaration);
        let words = source.words(row.fields);
        let alloc = self.alloc;
        let reading = self.scene.read_at(alloc, variables, types, words)?;
        Ok(reading.types.into_vec())
    }

    /// The types with which a declared type is used; none of any other type.
    ///
    /// # Errors
    ///
    /// Want of memory.
    pub fn arguments(&self, ty: TypeId) -> Result<Vec<TypeId>, Memory>
        requires { ty.0 < length self.now.scene.types }
        ensures forms { IfOk result (λ types. forms_at (forms self.now.scene) types.items ≡ arguments_of (form_at (forms self.now.scene) ty.0)) }
        ensures below { IfOk result (λ types. AreBelow (length self.now.scene.types) types.items) }
    {
        match self.scene.types().node(ty) {
            TypeNode::Data(_, types) => {
                let types = Vec::from_slice(self.alloc, types)?;
                Ok(types)
            }
            _ => Ok(Vec::new(self.alloc)),
        }
    }

    /// The name of the copy at these types.
    ///
    /// # Errors
    ///
    /// Want of memory, and of numbers.
    pub fn name(&self, name: Ident, types: &[TypeId]) -> Result<Ident, Memory>
        requires { AreBelow (length self.now.scene.types) types.now }
        ensures { IfOk result (λ x. x ≡ renamed name (number_with self.now.base (names_in self.now.scene) (number_of name) (forms_at (forms self.now.scene) types.now))) }
    {
        let types = Vec::from_slice(self.alloc, types)?;
        let number = self.scene.name(self.base, name.name, types)?;
        Ok(Ident {
            name: number,
            span: name.span,
        })
    }

    /// A variable comes into scope.
    ///
    /// # Errors
    ///
    /// Want of memory.
    pub fn bind(&mut self, x: Ident, ty: TypeId) -> Result<(), Memory>
        requires { ty.0 < length self.old.scene.types }
        ensures scope { OnOk result (Binds self.old self.new (form_bound x (form_at (forms self.old.scene) ty.0) (scope_in self.old.scene))) }
        ensures types { OnOk result (self.new.scene.types ≡ self.old.scene.types) }
    {
        self.scene.bind(x.name, ty)
    }

    /// Variables come into scope, as many as there are types for.
    ///
    /// # Errors
    ///
    /// Want of memory.
    pub fn bind_all(&mut self, variables: &[Ident], types: &[TypeId]) -> Result<(), Memory>
        requires { AreBelow (length self.old.scene.types) types.now }
        ensures { OnOk result (Binds self.old self.new (bind_forms variables.now (listed (forms self.old.scene) types.now) (scope_in self.old.scene))) }
    {
        let mut names = variables;
        let mut left = types;
        'names: while let [name, further_names @ ..] = names {
            let [ty, further_types @ ..] = left else {
                return Ok(());
            };
            self.bind(*name, *ty)?;
            names = further_names;
            left = further_types;
        }
        Ok(())
    }

    /// The names of a binding come into scope, with the types of what is bound to them.
    ///
    /// # Errors
    ///
    /// Want of memory.
    pub fn bind_given(&mut self, names: &[Ident], given: ResultIds) -> Result<(), Memory>
        requires { AreMet self.old given }
        ensures { OnOk result (Binds self.old self.new (bind_forms names.now (list_results (forms_given self.old given)) (scope_in self.old.scene))) }
    {
        match given {
            ResultIds::One(ty) => self.bind_all(names, &[ty]),
            ResultIds::Several { .. } => {
                let types = self.types_given(given)?;
                self.bind_all(names, &types)
            }
        }
    }

    /// The variables of an arm come into scope, each with the type of its field.
    ///
    /// # Errors
    ///
    /// Want of memory.
    pub fn bind_fields(
        &mut self,
        source: &Source,
        k: Name,
        variables: &[Ident],
        types: &[TypeId],
    ) -> Result<(), Memory>
        requires { AreBelow (length self.old.scene.types) types.now }
        ensures { OnOk result (Binds self.old self.new (bind_forms variables.now (forms_named (globals_in source.now).rows (place_named (globals_in source.now).rows k.0) (forms_at (forms self.old.scene) types.now)) (scope_in self.old.scene))) }
    {
        let fields = self.meet_fields(source, k, types)?;
        self.bind_all(variables, &fields)
    }

    /// Only so many variables, the oldest ones, stay in scope.
    pub fn leave(&mut self, len: usize)
        ensures { Leaves self.old self.new len }
    {
        self.scene.leave(len);
    }
}
