//! Whole cores.

ghost use Rattle.std.specs.Prelude.{◌≡◌};

use crate::literals::all_literals;
use crate::node::{TermId, Terms};
use crate::part_types::PartTypes;
use gib_base::Name;
use gib_types::{ConId, Ty, TypeTable};
use std::marker::Model;

/// What a function gives: one thing of a type, or several parts.
#[derive(Clone, Copy)]
pub enum CoreResult {
    One(Ty),
    Several(PartTypes),
}

/// A function of a core. Its parameters are its first variables.
#[derive(Drop)]
pub struct CoreFunction {
    pub name: Name,
    pub parameters: Vec<Ty>,
    pub result: CoreResult,
    pub body: TermId,
}

/// Main of a core. Its parameter is its first variable.
#[derive(Clone, Copy)]
pub struct CoreMain {
    pub parameter: Ty,
    pub result: Ty,
    pub body: TermId,
}

/// A core: the types of the program, its functions, the terms in which their bodies stand, the
/// constructors whose heads store offsets, and whether ends of values are told. The types of functions and of
/// main are declared.
#[derive(Drop)]
pub struct Core {
    types: TypeTable,
    terms: Terms,
    functions: Vec<CoreFunction>,
    main: CoreMain,
    offsets: Vec<ConId>,
    marked: bool,
}

impl Model for Core {
    ghost use Rattle.gib_core.specs.Parts.{Parts, AreInside};

    ghost Value = { Parts };

    ghost view = { λ c. record { table = c.types; terms = c.terms; functions = c.functions.items; main = c.main; offsets = c.offsets.items; marked = c.marked } };

    ghost invariant = { λ c. AreInside (record { table = c.types; terms = c.terms; functions = c.functions.items; main = c.main; offsets = c.offsets.items; marked = c.marked }) };
}

impl Core {
    ghost use Rattle.gib_core.specs.{Parts.{Parts, AreInside, core_of}, Literals.{AllLiteralsFit}, TypesNamed.{SignaturesDeclared}};

    /// A core of these parts.
    pub fn new(
        types: TypeTable,
        terms: Terms,
        functions: Vec<CoreFunction>,
        main: CoreMain,
        offsets: Vec<ConId>,
        marked: bool,
    ) -> Core
        requires { AreInside (record { table = types; terms = terms; functions = functions.items; main = main; offsets = offsets.items; marked = marked }) }
        ensures { result ≡ record { table = types; terms = terms; functions = functions.items; main = main; offsets = offsets.items; marked = marked } }
    {
        Core {
            types,
            terms,
            functions,
            main,
            offsets,
            marked,
        }
    }

    /// The table of the program's types and constructors.
    pub fn types(&self) -> &TypeTable
        ensures { result.now ≡ self.now.table }
    {
        &self.types
    }

    /// The terms of all bodies.
    pub fn terms(&self) -> &Terms
        ensures value { result.now ≡ self.now.terms }
        ensures inside { AreInside self.now }
    {
        &self.terms
    }

    /// The functions but main, in the order of the text.
    pub fn functions(&self) -> &[CoreFunction]
        ensures value { result.now ≡ self.now.functions }
        ensures inside { AreInside self.now }
    {
        &self.functions
    }

    /// Main.
    pub fn main(&self) -> CoreMain
        ensures value { result ≡ self.now.main }
        ensures inside { AreInside self.now }
    {
        self.main
    }

    /// The constructors whose heads store offsets.
    pub fn offsets(&self) -> &[ConId]
        ensures { result.now ≡ self.now.offsets }
    {
        &self.offsets
    }

    /// Whether ends of values are told.
    pub fn marked(&self) -> bool
        ensures { result ≡ self.now.marked }
    {
        self.marked
    }

    /// The types of a core's functions and of its main are declared.
    #[tactic(auto, using(crate::proofs::Signatures::parts_declared))]
    pub fn types_declared(&self)
        ensures { SignaturesDeclared (core_of self.now) }
    {
        let _all = &self.types;
    }

    /// The literals of a core are numbers of 64 bits. This looks at each term, and takes no memory.
    pub fn literals_fit(&self)
        ensures { AllLiteralsFit (core_of self.now) }
    {
        all_literals(self.terms());
    }

    /// The parts of a core.
    pub fn into_parts(
        self,
    ) -> (
        TypeTable,
        Terms,
        Vec<CoreFunction>,
        CoreMain,
        Vec<ConId>,
        bool,
    )
        ensures types { result.0 ≡ self.table }
        ensures terms { result.1 ≡ self.terms }
        ensures functions { result.2.items ≡ self.functions }
        ensures main { result.3 ≡ self.main }
        ensures offsets { result.4.items ≡ self.offsets }
        ensures marked { result.5 ≡ self.marked }
        ensures inside { AreInside self }
    {
        (
            self.types,
            self.terms,
            self.functions,
            self.main,
            self.offsets,
            self.marked,
        )
    }
}
