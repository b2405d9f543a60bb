//! A program with type parameters, and where its names are declared.

ghost use Rattle.std.specs.Prelude.{◌≡◌, IfOk};
ghost use Rattle.gib_syntax.specs.{GenericTyping.{IsTypedGeneric}, GenericParts.{generic_program_of}};
ghost use Rattle.gib_mono.specs.Sources.{globals_in};

use gib_base::{Memory, Name};
use gib_check::{Named, RowDecl};
use gib_syntax::{
    ExprId, GenericData, GenericFunction, GenericNode, GenericProgram, Ident, Run, Word,
};
use std::alloc::{AllocError, Global};
use std::marker::Model;

/// A typed program with type parameters, with the places of its declarations by their names.
#[derive(Drop)]
pub struct Source {
    named: Named,
}

impl Model for Source {
    ghost use Rattle.gib_syntax.specs.{GenericParts.{GenericParts, generic_program_of}, GenericTyping.{IsTypedGeneric}};

    ghost Value = { GenericParts };

    ghost view = { λ s. s.named };

    ghost invariant = { λ s. IsTypedGeneric (generic_program_of s.named) };
}

impl Source {
    ghost use Rattle.std.specs.Prelude.{◌≤◌, ◌<◌, length, slice_get, Some, None, MatchOption};
    ghost use Rattle.gib_syntax.specs.{GenericTree.{GenericDataTree, GenericFunctionTree, data_named, generic_named, place_named}, GenericArena.{Opens}};
    ghost use Rattle.gib_syntax.specs.{GenericParts.{AreInside, IsFunctionInside}, Words.{run_words}};
    ghost use Rattle.gib_check.specs.{NameViews.{row_option, variables_at}, Faults.{row_named}};
    ghost use Rattle.gib_mono.specs.{Copying.{owner_named}, Found.{AreDeclarations}};

    /// A program with the places of its names.
    ///
    /// # Errors
    ///
    /// Want of memory.
    pub fn make(alloc: Global, program: GenericProgram) -> Result<Source, Memory>
        requires { IsTypedGeneric (generic_program_of program) }
        ensures { IfOk result (λ source. source ≡ program) }
    {
        let named = Named::make(alloc, program)?;
        Ok(Source { named })
    }

    /// The program, which is typed.
    pub fn program(&self) -> &GenericProgram
        ensures value { result.now ≡ self.now }
        ensures typed { IsTypedGeneric (generic_program_of self.now) }
        ensures inside { AreInside self.now }
    {
        let program = self.named.program();
        let _main = program.main();
        program
    }

    /// The expression of a number.
    pub fn node(&self, id: ExprId) -> &GenericNode
        requires { id.0 < length self.now.exprs.nodes }
        ensures { Opens self.now.exprs id.0 result.now }
    {
        self.named.node(id)
    }

    /// The words of a run.
    pub fn words(&self, run: Run) -> &[Word]
        ensures { result.now ≡ run_words self.now.exprs.words run }
    {
        self.named.words(run)
    }

    /// The place of the declared type of a name.
    pub fn type_place(&self, name: Name) -> Option<u32>
        ensures place { MatchOption result (data_named (globals_in self.now).datas name.0 ≡ None)
            (λ place. (d : GenericDataTree) × (slice_get (globals_in self.now).datas place ≡ Some d) × (data_named (globals_in self.now).datas name.0 ≡ Some d)) }
        ensures declared { AreDeclarations (globals_in self.now) }
    {
        self.named.type_place(name)
    }

    /// The place of the function of a name.
    pub fn function_place(&self, name: Name) -> Option<u32>
        ensures place { MatchOption result (generic_named (globals_in self.now).functions name.0 ≡ None)
            (λ place. (f : GenericFunctionTree) × (slice_get (globals_in self.now).functions place ≡ Some f) × (generic_named (globals_in self.now).functions name.0 ≡ Some f)) }
        ensures declared { AreDeclarations (globals_in self.now) }
    {
        self.named.function_place(name)
    }

    /// How many types are declared.
    ///
    /// # Errors
    ///
    /// More than there are numbers.
    pub fn type_count(&self) -> Result<u32, Memory>
        ensures { IfOk result (λ count. count ≡ length (globals_in self.now).datas) }
    {
        let Ok(count) = u32::try_from(self.program().datas().len()) else {
            return Err(AllocError);
        };
        Ok(count)
    }

    /// How many functions are declared, main left out.
    ///
    /// # Errors
    ///
    /// More than there are numbers.
    pub fn function_count(&self) -> Result<u32, Memory>
        ensures { IfOk result (λ count. count ≡ length (globals_in self.now).functions) }
    {
        let Ok(count) = u32::try_from(self.program().functions().len()) else {
            return Err(AllocError);
        };
        Ok(count)
    }

    /// The declared type of a place.
    pub fn data_decl(&self, place: u32) -> &GenericData
        requires { place < length (globals_in self.now).datas }
        ensures { slice_get self.now.datas place ≡ Some result.now }
    {
        &self.program().datas()[place as usize]
    }

    /// The function of a place.
    pub fn function_decl(&self, place: u32) -> &GenericFunction
        requires { place < length (globals_in self.now).functions }
        ensures at { slice_get self.now.functions place ≡ Some result.now }
        ensures inside { IsFunctionInside self.now.exprs result.now }
    {
        &self.program().functions()[place as usize]
    }

    /// How many constructors the declared type of a place has.
    pub fn constructors_of(&self, place: u32) -> u32
        requires { place < length (globals_in self.now).datas }
        ensures count { (d : GenericDataTree) → slice_get (globals_in self.now).datas place ≡ Some d → length d.constructors ≡ result }
        ensures few { result ≤ 200 }
    {
        let _typed = self.program();
        self.data_decl(place).constructors.len() as u32
    }

    /// The name of the type of the constructor of a name.
    pub fn owner(&self, name: Name) -> Name
        ensures { result.0 ≡ owner_named (globals_in self.now).rows (place_named (globals_in self.now).rows name.0) }
    {
        match self.row(name) {
            None => Name(0),
            Some(row) => row.owner,
        }
    }

    /// The constructor of a name.
    pub fn row(&self, name: Name) -> Option<RowDecl>
        ensures { row_option self.now result ≡ row_named (globals_in self.now).rows name.0 }
    {
        self.named.row(name)
    }

    /// The type variables of the declaration of a place.
    pub fn variables(&self, place: u32) -> &[Ident]
        ensures { result.now ≡ variables_at self.now.datas place }
    {
        self.named.variables(place)
    }
}
