//! How the heads of constructors lie in memory.

ghost use Rattle.std.specs.Prelude.{◌≡◌, ◌≤◌, ℕ, length, IfOk};
ghost use Rattle.gib_types.specs.{Table.{IsTable}, Layout.{layout_of, layout_at, is_among, numbers_of, field_types, has_offsets, head_size, packed_at}};

use crate::{ConId, Ty, TypeTable};
use gib_base::Memory;
use std::alloc::Global;
use std::marker::Model;

/// The head of a constructor: how many bytes it has in all, how many of them are offsets and how many are
/// scalars, and how many packed fields follow it. A head has at most 65 bytes.
#[derive(Clone, Copy, PartialEq, Eq)]
pub struct Layout {
    pub head: u8,
    pub offsets: u8,
    pub scalars: u8,
    pub packed: u8,
}

/// A table of types, and the layouts of all its constructors, where the listed ones have offsets.
#[derive(Drop)]
pub struct Layouts {
    types: TypeTable,
    with_offsets: Vec<ConId>,
    /// The layout of each constructor, at its number.
    all: Vec<Layout>,
    /// Whether each constructor has offsets, at its number.
    listed: Vec<bool>,
}

impl Model for Layouts {
    ghost use Rattle.gib_types.specs.Layout.{LaidOut, AreLayouts, numbers_of};

    ghost Value = { LaidOut };

    ghost view = { λ l. record { table = l.types; with_offsets = numbers_of l.with_offsets.items } };

    ghost invariant = { λ l. AreLayouts (record { table = l.types; with_offsets = numbers_of l.with_offsets.items }) l.all.items l.listed.items };
}

/// Whether the constructor is one of these.
fn is_listed(cons: &[ConId], con: u32) -> bool
    ensures { result ≡ is_among (numbers_of cons.now) con }
{
    let mut i = 0;
    'cons: while i < cons.len() {
        if cons[i].0 == con {
            return true;
        }
        i += 1;
    }
    false
}

/// The layout of a constructor with these fields.
fn lay_out(fields: &[Ty], has_offsets: bool) -> Layout
    requires { length fields.now ≤ 8 }
    ensures { result ≡ layout_of has_offsets fields.now }
{
    let mut scalars = 0u8;
    let mut packed = 0u8;
    let mut i = fields.len();
    'fields: while i > 0 {
        i -= 1;
        match fields[i] {
            Ty::Whole => scalars += 8,
            Ty::Truth => scalars += 1,
            Ty::Tree(_) => packed += 1,
        }
    }
    let offsets = if has_offsets && packed > 0 {
        8 * (packed - 1)
    } else {
        0
    };
    Layout {
        head: 1 + offsets + scalars,
        offsets,
        scalars,
        packed,
    }
}

impl Layouts {
    /// The layouts of the table's constructors, where the listed ones have offsets. They keep a copy of the table.
    ///
    /// # Errors
    ///
    /// Want of memory.
    pub fn make(alloc: Global, types: &TypeTable, with_offsets: &[ConId]) -> Result<Layouts, Memory>
        ensures table { IfOk result (λ layouts. layouts.table ≡ types.now) }
        ensures listed { IfOk result (λ layouts. layouts.with_offsets ≡ numbers_of with_offsets.now) }
    {
        types.rules();
        let mut all = Vec::new(alloc);
        let mut listed = Vec::new(alloc);
        let mut con = 0;
        'constructors: while con < types.len() {
            let has_offsets = is_listed(with_offsets, con);
            all.push(lay_out(types.fields(ConId(con)), has_offsets))?;
            listed.push(has_offsets)?;
            con += 1;
        }
        Ok(Layouts {
            types: types.copy(alloc)?,
            with_offsets: Vec::from_slice(alloc, with_offsets)?,
            all,
            listed,
        })
    }

    /// The table of the types.
    pub fn types(&self) -> &TypeTable
        ensures { result.now ≡ self.now.table }
    {
        &self.types
    }

    /// The types of a constructor's fields, in declared order; of no constructor, none.
    pub fn fields(&self, con: ConId) -> &[Ty]
        ensures { result.now ≡ field_types self.now con.0 }
    {
        self.types.fields(con)
    }

    /// The layout of a constructor; of no constructor, that of one without fields.
    pub fn layout(&self, con: ConId) -> Layout
        ensures { result ≡ layout_at self.now.table self.now.with_offsets con.0 }
    {
        let place = con.0 as usize;
        if place < self.all.len() {
            self.all[place]
        } else {
            Layout {
                head: 1,
                offsets: 0,
                scalars: 0,
                packed: 0,
            }
        }
    }

    /// Whether a constructor has offsets. Where it is one of the table this takes no search.
    pub fn stores(&self, con: ConId) -> bool
        ensures { result ≡ has_offsets self.now con.0 }
    {
        let place = con.0 as usize;
        if place < self.listed.len() {
            self.listed[place]
        } else {
            is_listed(&self.with_offsets, con.0)
        }
    }

    /// What each table keeps; a head has at most 65 bytes, and at most eight packed fields follow it.
    pub fn rules(&self)
        ensures table { IsTable self.now.table }
        ensures long { (con : ℕ) → head_size self.now con ≤ 65 }
        ensures packed { (con : ℕ) → packed_at self.now con ≤ 8 }
    {
        self.types.rules();
    }
}
