//! What a program's copies are called.

ghost use Rattle.std.specs.Prelude.{◌≡◌, length};
ghost use Rattle.gib_mono.specs.Entries.{AreEntriesBelow};

use crate::entries::{Entries, Entry};
use gib_types::types::Types;
use std::marker::Model;

/// The names of copies, each once, in the order in which they first came: a name of the source, with types for its type
/// parameters.
#[derive(Drop)]
pub struct CopyNames {
    types: Types,
    entries: Entries,
}

impl Model for CopyNames {
    ghost use Rattle.std.specs.Prelude.{length};
    ghost use Rattle.gib_mono.specs.Entries.{NumberedItems, AreEntriesBelow};

    ghost Value = { NumberedItems };

    ghost view = { λ c. record { types = c.types; entries = c.entries } };

    ghost invariant = { λ c. AreEntriesBelow (length c.types) c.entries };
}

impl CopyNames {
    /// These names, with types by their numbers.
    pub fn new(types: Types, entries: Entries) -> CopyNames
        requires { AreEntriesBelow (length types) entries }
        ensures { result ≡ record { types = types; entries = entries } }
    {
        CopyNames { types, entries }
    }

    /// The names by the numbers of their types.
    pub fn parts(&self) -> (&Types, &[Entry])
        ensures types { result.0.now ≡ self.now.types }
        ensures entries { result.1.now ≡ self.now.entries }
        ensures below { AreEntriesBelow (length self.now.types) self.now.entries }
    {
        (&self.types, self.entries.as_slice())
    }
}
