//! Types that are met, each once.

ghost use Rattle.std.specs.Prelude.{◌≡◌, ◌<◌, ◌≤◌, ◌+◌, ◌++◌, ◌∷◌, [], length, slice_get, Some, OnOk, OnErr, IfOk};
ghost use Rattle.gib_types.specs.Types.{forms_of, form_from, ArgumentsBelow, AreOnce, GrowsTo, IsNew, AreBelow, forms_at, cut, short_words};
ghost use Rattle.gib_types.specs.Form.{words, all_words, has_long};

use gib_base::Memory;
use indexmap::IndexSet;
use std::alloc::{AllocError, Global};
use std::marker::Model;

/// The number of a type: its place among those that were met.
#[derive(Clone, Copy, PartialEq, Eq, Hash)]
pub struct TypeId(pub u32);

/// A type, with its arguments by their numbers. A type variable and a declared type stand by the numbers of their names.
#[derive(Drop, PartialEq, Eq, Hash)]
pub enum TypeNode {
    Whole,
    Truth,
    Variable(u32),
    Data(u32, Vec<TypeId>),
}

/// Types, each behind its arguments and each once, with the words of each, of which more than 65 count as 65.
#[derive(Drop)]
pub struct Types {
    nodes: IndexSet<TypeNode>,
    words: Vec<u8>,
}

impl Model for Types {
    ghost use Rattle.std.specs.Prelude.{List};
    ghost use Rattle.gib_types.specs.{declared.types.TypeNode.{TypeNode as Item}, Types.{AreTypes}};

    ghost Value = { List Item };

    ghost view = { λ t. t.nodes.keys };

    ghost invariant = { λ t. AreTypes t.nodes.keys t.words.items };
}

impl Types {
    /// No types.
    pub fn new(alloc: Global) -> Types
        ensures { result ≡ [] }
    {
        Types {
            nodes: IndexSet::new(alloc),
            words: Vec::new(alloc),
        }
    }

    /// How many types there are.
    pub fn len(&self) -> usize
        ensures count { result ≡ length self.now }
        ensures once { AreOnce (forms_of self.now) }
    {
        self.nodes.len()
    }

    /// The type of a number.
    pub fn node(&self, id: TypeId) -> &TypeNode
        requires { id.0 < length self.now }
        ensures form { slice_get (forms_of self.now) id.0 ≡ Some (form_from (forms_of self.now) result.now) }
        ensures below { ArgumentsBelow id.0 result.now }
    {
        &self.nodes.as_slice()[id.0 as usize]
    }

    /// The words of the type of a number, 65 where there are more.
    pub fn words(&self, id: TypeId) -> u8
        requires { id.0 < length self.now }
        ensures count { Some result ≡ short_words (slice_get (forms_of self.now) id.0) }
        ensures few { result ≤ 65 }
    {
        self.words[id.0 as usize]
    }

    /// The number of a type, which it gets where it has none yet: the next one. Those that were there stay.
    pub fn put(&mut self, node: TypeNode) -> Result<TypeId, Memory>
        requires { ArgumentsBelow (length self.old) node }
        ensures form { IfOk result (λ id. slice_get (forms_of self.new) id.0 ≡ Some (form_from (forms_of self.old) node)) }
        ensures within { IfOk result (λ id. id.0 < length self.new) }
        ensures grown { GrowsTo (forms_of self.old) (forms_of self.new) }
        ensures longer { length self.old ≤ length self.new }
        ensures same { OnErr result (self.new ≡ self.old) }
    {
        match self.nodes.get_index_of(&node) {
            Some(index) => Ok(TypeId(index as u32)),
            None => self.push(node),
        }
    }

    /// A new type, with its number, the next one.
    fn push(&mut self, node: TypeNode) -> Result<TypeId, Memory>
        requires below { ArgumentsBelow (length self.old) node }
        requires new { IsNew (forms_of self.old) (form_from (forms_of self.old) node) }
        ensures number { IfOk result (λ id. id.0 ≡ length self.old) }
        ensures grown { OnOk result (self.new ≡ self.old ++ node ∷ []) }
        ensures same { OnErr result (self.new ≡ self.old) }
    {
        let Ok(number) = u32::try_from(self.nodes.len()) else {
            return Err(AllocError);
        };
        let words = self.count(&node);
        self.words.push(words)?;
        let Ok(_) = self.nodes.insert_full(node) else {
            self.words.pop();
            return Err(AllocError);
        };
        Ok(TypeId(number))
    }

    /// The words of a type whose arguments are here, 65 where there are more.
    pub fn count(&self, node: &TypeNode) -> u8
        requires { ArgumentsBelow (length self.now) node.now }
        ensures { result ≡ cut (words (form_from (forms_of self.now) node.now)) }
    {
        match node {
            TypeNode::Whole => 1,
            TypeNode::Truth => 1,
            TypeNode::Variable(_) => 1,
            TypeNode::Data(_, arguments) => self.count_all(arguments),
        }
    }

    /// Whether one of these types has more than 64 words.
    pub fn has_long(&self, arguments: &[TypeId]) -> bool
        requires { AreBelow (length self.now) arguments.now }
        ensures { result ≡ has_long (forms_at (forms_of self.now) arguments.now) }
    {
        for argument in arguments {
            if self.words(*argument) > 64 {
                return true;
            }
        }
        false
    }

    /// One more than the words of types together, 65 where there are more.
    fn count_all(&self, arguments: &[TypeId]) -> u8
        requires { AreBelow (length self.now) arguments.now }
        ensures { result ≡ cut (all_words (forms_at (forms_of self.now) arguments.now) + 1) }
    {
        let mut sum = 1_u8;
        for argument in arguments {
            let words = self.words(*argument);
            sum = cut_sum(sum, words);
        }
        sum
    }
}

/// A sum, 65 where it is more.
fn cut_sum(left: u8, right: u8) -> u8
    requires left { left ≤ 65 }
    requires right { right ≤ 65 }
    ensures sum { result ≡ cut (left + right) }
    ensures few { result ≤ 65 }
{
    if left + right < 65 { left + right } else { 65 }
}
