//! A text whose names are in order, beside what is known of its declarations.

ghost use Rattle.std.specs.Prelude.{◌≡◌, ◌<◌, length, IfOk};
ghost use Rattle.gib_syntax.specs.Declarations.{number_of, type_of_name as type_in};
ghost use Rattle.gib_types.specs.Table.{IsTable};
ghost use Rattle.gib_local.specs.{Building.{con, gives_scalar as scalar_given}, Builds.{program_in}};

use crate::known::Known;
use gib_base::Memory;
use gib_local_parse::{LineId, LineNode, LocalText};
use gib_syntax::{Ident, TypeName};
use gib_types::{ConId, Ty, TypeTable};
use std::alloc::Global;
use std::marker::Model;

/// A text, and the table of its types.
#[derive(Drop)]
pub struct Source {
    known: Known,
    table: TypeTable,
}

impl Model for Source {
    ghost use Rattle.std.specs.Prelude.{◌≡◌};
    ghost use Rattle.gib_local_parse.specs.TextParts.{TextParts};
    ghost use Rattle.gib_local.specs.Builds.{program_in};

    ghost Value = { TextParts };

    ghost view = { λ s. s.known };

    ghost invariant = { λ s. s.table ≡ (program_in s.known).table };
}

impl Source {
    ghost use Rattle.gib_local_parse.specs.LineArena.{Opens};

    /// A text whose declarations are in order.
    ///
    /// # Errors
    ///
    /// Want of memory.
    pub fn make(alloc: Global, known: Known) -> Result<Source, Memory>
        requires { IsTable (program_in known).table }
        ensures { IfOk result (λ source. source ≡ known) }
    {
        let table = known.table(alloc)?;
        Ok(Source { known, table })
    }

    /// The text, with the places of its names.
    pub fn known(&self) -> &Known
        ensures { result.now ≡ self.now }
    {
        &self.known
    }

    /// The text.
    pub fn text(&self) -> &LocalText
        ensures { result.now ≡ self.now }
    {
        self.known.text()
    }

    /// The table of the text's types and constructors.
    pub fn table(&self) -> &TypeTable
        ensures { result.now ≡ (program_in self.now).table }
    {
        &self.table
    }

    /// The term of a number.
    pub fn node(&self, id: LineId) -> &LineNode
        requires { id.0 < length self.now.lines }
        ensures { Opens self.now.lines id.0 result.now }
    {
        self.known.lines().node(id)
    }

    /// The type that is written.
    pub fn type_named(&self, written: TypeName) -> Ty
        ensures { result ≡ type_in (program_in self.now).table.types written }
    {
        self.known.type_of(written)
    }

    /// The constructor of a name; of an unknown one, the first.
    pub fn constructor(&self, k: Ident) -> ConId
        ensures { result ≡ con (program_in self.now).table k }
    {
        self.known.con(k)
    }

    /// Whether the result of the function of a name is a scalar.
    pub fn gives_scalar(&self, f: Ident) -> bool
        ensures { result ≡ scalar_given (program_in self.now).functions (program_in self.now).table.types (number_of f) }
    {
        let mut rest = self.text().functions();
        'functions: while let [function, after @ ..] = rest {
            if function.name.name.0 == f.name.0 {
                return self.type_named(function.result).is_scalar();
            }
            rest = after;
        }
        true
    }
}
