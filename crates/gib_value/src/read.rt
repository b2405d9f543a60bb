//! The value that a text spells.

ghost use Rattle.std.specs.Prelude.{◌≡◌, ◌<◌, ◌≤◌, ◌+◌, ◌-◌, ◌++◌, ◌∷◌, ◌↔◌, [], ℕ, ℤ, List, Bool, true, false, IsTrue, length, map, take, drop, Some, FitsSigned, OnOk, IfOk, IfSome, MatchOption, MatchResult};
ghost use Rattle.std.specs.Int.{w64};
ghost use Rattle.std.specs.List.{AllByRecursion};
ghost use Rattle.std.specs.Fmt.{signed_decimal};
ghost use Rattle.gib_types.specs.{Tree.{Datum}, Table.{con_at, fields_at, name_at}};
ghost use Rattle.gib_value.specs.{Heap.{value_of, IsWithin}, Due.{Due, due_of}, Text.{truth_text, con_text, AreHeld}};
ghost use Rattle.gib_value.specs.Reading.{token_len as token_len_of, fields_wanted, closed, HasFull, AreWords, AreTold, IsLeaf, Opens, IsReady, Steps, Refuses, IsTextOf, ReadsTo};
ghost use Rattle.gib_value.specs.Due as item;

use crate::context::Context;
use crate::fault::TextFault;
use crate::heap::Heap;
use crate::node::Node;
use crate::todo::{Todo, Wanted};
use crate::value::Value;
use gib_base::letters::{digits_len, name_len};
use gib_base::{Memory, Name, Texts};
use gib_types::{ConId, Ty, TyId, TypeTable};
use itoa::Buffer;
use std::alloc::Global;

/// The length of the token at the front, or 0 where none begins.
fn token_len(bytes: &[u8]) -> usize
    ensures value { result ≡ token_len_of bytes.now }
    ensures bound { result ≤ length bytes.now }
{
    match bytes {
        [] => 0,
        [b, rest @ ..] => {
            if b.is_ascii_alphabetic() {
                1 + name_len(rest)
            } else if b.is_ascii_digit() || *b == 45 {
                1 + digits_len(rest)
            } else if *b == 40 || *b == 41 || *b == 32 {
                1
            } else {
                0
            }
        }
    }
}

/// Whether the token is this byte.
fn is_byte(token: &[u8], byte: u8) -> bool
    ensures yes { result ≡ true → token.now ≡ byte ∷ [] }
    ensures no { result ≡ false → token.now ≡ byte ∷ [] → ⊥ }
{
    match token {
        [b] => *b == byte,
        _ => false,
    }
}

/// The truth value that the token is.
fn truth_of(token: &[u8]) -> Option<bool>
    ensures { MatchOption result ((b : Bool) → token.now ≡ truth_text b → ⊥) (λ b. token.now ≡ truth_text b) }
{
    if token == b"True".as_slice() {
        Some(true)
    } else if token == b"False".as_slice() {
        Some(false)
    } else {
        None
    }
}

/// The only number that the token can be the text of.
fn candidate(token: &[u8]) -> Option<i64>
    ensures { (z : ℤ) → FitsSigned w64 z → token.now ≡ signed_decimal z → result ≡ Some z }
{
    let Ok(text) = std::str::from_utf8(token) else {
        return None;
    };
    match text.parse::<i64>() {
        Ok(z) => Some(z),
        Err(_) => None,
    }
}

/// Whether the token is the text of the number.
fn is_text_of(token: &[u8], z: i64) -> bool
    ensures yes { result ≡ true → token.now ≡ signed_decimal z }
    ensures no { result ≡ false → token.now ≡ signed_decimal z → ⊥ }
{
    let mut digits = Buffer::new();
    token == digits.format(z).as_bytes()
}

/// The number that the token is.
fn number_of(token: &[u8]) -> Option<i64>
    ensures { MatchOption result ((z : ℤ) → FitsSigned w64 z → token.now ≡ signed_decimal z → ⊥) (λ z. token.now ≡ signed_decimal z) }
{
    let Some(z) = candidate(token) else {
        return None;
    };
    // A number has one text: no zeros lead it, and no sign but a minus.
    if is_text_of(token, z) { Some(z) } else { None }
}

/// The constructor of the type whose name has the number.
fn find_called(types: &TypeTable, ty: TyId, name: Name) -> Option<ConId>
    ensures { IfSome result (λ con. (con_at types.now ty.0 con.0 ≡ Some con.0) × (name_at types.now con.0 ≡ name.0) × (con.0 < length types.now.rows)) }
{
    let Some(con) = types.con_named(name) else {
        return None;
    };
    if types.owner(con).0 == ty.0 {
        Some(con)
    } else {
        None
    }
}

/// Whether the constructor is one of the type, and the token its name.
fn is_named(types: &TypeTable, names: &Texts, ty: TyId, con: ConId, token: &[u8]) -> bool
    requires con { con.0 < length types.now.rows }
    requires names { AreHeld types.now names.now.short }
    ensures yes { result ≡ true → (con_at types.now ty.0 con.0 ≡ Some con.0) × (token.now ≡ con_text types.now names.now.short con.0) }
    ensures no { result ≡ false → con_at types.now ty.0 con.0 ≡ Some con.0 → token.now ≡ con_text types.now names.now.short con.0 → ⊥ }
{
    types.owner(con).0 == ty.0 && token == names.short(types.name_of(con))
}

/// The constructor of the type that the token names, looked for among all.
fn find_among(types: &TypeTable, names: &Texts, ty: TyId, token: &[u8]) -> Option<ConId>
    requires { AreHeld types.now names.now.short }
    ensures { MatchOption result
        ((con : ConId) → con_at types.now ty.0 con.0 ≡ Some con.0 → token.now ≡ con_text types.now names.now.short con.0 → ⊥)
        (λ con. (con_at types.now ty.0 con.0 ≡ Some con.0) × (token.now ≡ con_text types.now names.now.short con.0) × (con.0 < length types.now.rows)) }
{
    let mut con = 0;
    'constructors: while con < types.len() {
        if is_named(types, names, ty, ConId(con), token) {
            return Some(ConId(con));
        }
        con += 1;
    }
    None
}

/// The constructor of the type that the token names.
fn find_of(types: &TypeTable, names: &Texts, ty: TyId, token: &[u8]) -> Option<ConId>
    requires { AreTold types.now names.now.short }
    ensures { MatchOption result
        ((con : ConId) → con_at types.now ty.0 con.0 ≡ Some con.0 → token.now ≡ con_text types.now names.now.short con.0 → ⊥)
        (λ con. (con_at types.now ty.0 con.0 ≡ Some con.0) × (token.now ≡ con_text types.now names.now.short con.0) × (con.0 < length types.now.rows)
        × ((other : ConId) → con_at types.now ty.0 other.0 ≡ Some other.0 → token.now ≡ con_text types.now names.now.short other.0 → other.0 ≡ con.0)) }
{
    let Some(name) = names.find(token) else {
        return None;
    };
    // A copied constructor has a number of its own behind those of the source's names.
    match find_called(types, ty, name) {
        Some(con) => Some(con),
        None => find_among(types, names, ty, token),
    }
}

/// Whether the constructor is one of the type, with fields.
fn is_full(types: &TypeTable, ty: TyId, con: ConId) -> bool
    requires { con.0 < length types.now.rows }
    ensures yes { result ≡ true → HasFull types.now ty }
    ensures no { result ≡ false → con_at types.now ty.0 con.0 ≡ Some con.0 → 0 < length (fields_at types.now con.0) → ⊥ }
{
    types.owner(con).0 == ty.0 && !types.fields(con).is_empty()
}

/// Whether the type has a constructor with fields.
fn has_full(types: &TypeTable, ty: TyId) -> bool
    ensures yes { result ≡ true → HasFull types.now ty }
    ensures no { result ≡ false → HasFull types.now ty → ⊥ }
{
    let mut con = 0;
    'constructors: while con < types.len() {
        if is_full(types, ty, ConId(con)) {
            return true;
        }
        con += 1;
    }
    false
}

/// Puts what is wanted after a constructor's name on the stack, the first one on top.
fn push_wanted(wanted: &mut Todo, con: ConId, fields: &[Ty]) -> Result<(), Memory>
    ensures { OnOk result (wanted.new ≡ fields_wanted con fields.now ++ wanted.old) }
{
    wanted.put(Wanted::Close(con))?;
    let mut i = fields.len();
    'fields: while i > 0 {
        i -= 1;
        wanted.put(Wanted::Value(fields[i]))?;
        wanted.put(Wanted::Space)?;
    }
    Ok(())
}

/// Makes a constructor of the last values.
fn close(heap: &mut Heap, done: &mut Vec<Node>, con: ConId, count: usize) -> Result<(), Memory>
    requires count { count ≤ length done.old.items }
    requires few { count ≤ 8 }
    requires held { AllByRecursion (IsWithin (length heap.old)) done.old.items }
    ensures values { OnOk result (map (value_of heap.new) done.new.items ≡ closed con.0 count (map (value_of heap.old) done.old.items)) }
    ensures held { OnOk result (AllByRecursion (IsWithin (length heap.new)) done.new.items) }
{
    let base = done.len() - count;
    let (_, fields) = done.as_slice().split_at(base);
    let node = heap.make(con, fields)?;
    done.truncate(base);
    done.push(node)?;
    Ok(())
}

/// The constructor without fields that the token is.
fn find_bare(types: &TypeTable, names: &Texts, ty: TyId, token: &[u8]) -> Option<Node>
    requires { AreTold types.now names.now.short }
    ensures { MatchOption result ((node : Node) → IsLeaf types.now names.now.short (Ty.Tree ty) token.now node → ⊥) (λ node. IsLeaf types.now names.now.short (Ty.Tree ty) token.now node) }
{
    let Some(con) = find_of(types, names, ty, token) else {
        return None;
    };
    if types.fields(con).is_empty() {
        Some(Node::Con {
            con,
            count: 0,
            first: 0,
        })
    } else {
        None
    }
}

/// The value of the type whose whole text the token is.
fn find_leaf(context: &Context<'_>, ty: Ty, token: &[u8]) -> Result<Option<Node>, Memory>
    requires { AreTold context.now.types.now context.now.names.now.short }
    ensures { IfOk result (λ found. MatchOption found ((node : Node) → IsLeaf context.now.types.now context.now.names.now.short ty token.now node → ⊥) (λ node. IsLeaf context.now.types.now context.now.names.now.short ty token.now node)) }
{
    match ty {
        Ty::Whole => match number_of(token) {
            Some(z) => Ok(Some(Node::Whole(z))),
            None => Ok(None),
        },
        Ty::Truth => match truth_of(token) {
            Some(b) => Ok(Some(Node::Truth(b))),
            None => Ok(None),
        },
        Ty::Tree(of) => match find_bare(context.types, context.names, of, token) {
            Some(node) => Ok(Some(node)),
            None => Ok(None),
        },
    }
}

/// The type of which the token opens a constructor.
fn find_opened(types: &TypeTable, ty: Ty, token: &[u8]) -> Option<TyId>
    ensures { MatchOption result ((t : TyId) → Opens types.now ty token.now t → ⊥) (λ t. Opens types.now ty token.now t) }
{
    match ty {
        Ty::Whole | Ty::Truth => None,
        Ty::Tree(of) => {
            if is_byte(token, 40) && has_full(types, of) {
                Some(of)
            } else {
                None
            }
        }
    }
}

/// How far a text is read: the values that were met, with their parts in the heap, and what is due next.
#[derive(Drop)]
struct Reader {
    heap: Heap,
    done: Vec<Node>,
    wanted: Todo,
}

impl Reader {
    /// Takes the first token of a value.
    fn take_value(&mut self, context: &Context<'_>, ty: Ty, token: &[u8]) -> Result<bool, Memory>
        requires names { AreTold context.now.types.now context.now.names.now.short }
        requires held { AllByRecursion (IsWithin (length self.old.heap)) self.old.done.items }
        ensures yes { IfOk result (λ took. took ≡ true → Steps context.now.types.now context.now.names.now.short (item.Value ty) token.now self.old.heap self.new.heap self.old.done.items self.new.done.items self.old.wanted self.new.wanted) }
        ensures no { IfOk result (λ took. took ≡ false → Refuses context.now.types.now context.now.names.now.short (item.Value ty) token.now) }
    {
        if let Some(node) = find_leaf(context, ty, token)? {
            self.done.push(node)?;
            return Ok(true);
        }
        let Some(opened) = find_opened(context.types, ty, token) else {
            return Ok(false);
        };
        self.wanted.put(Wanted::Name(opened))?;
        Ok(true)
    }

    /// Takes the name of a constructor with fields.
    fn take_name(&mut self, context: &Context<'_>, ty: TyId, token: &[u8]) -> Result<bool, Memory>
        requires names { AreTold context.now.types.now context.now.names.now.short }
        requires held { AllByRecursion (IsWithin (length self.old.heap)) self.old.done.items }
        ensures yes { IfOk result (λ took. took ≡ true → Steps context.now.types.now context.now.names.now.short (item.Name ty) token.now self.old.heap self.new.heap self.old.done.items self.new.done.items self.old.wanted self.new.wanted) }
        ensures no { IfOk result (λ took. took ≡ false → Refuses context.now.types.now context.now.names.now.short (item.Name ty) token.now) }
    {
        let Some(con) = find_of(context.types, context.names, ty, token) else {
            return Ok(false);
        };
        let fields = context.types.fields(con);
        if fields.is_empty() {
            return Ok(false);
        }
        push_wanted(&mut self.wanted, con, fields)?;
        Ok(true)
    }

    /// Takes the parenthesis that ends a constructor.
    fn take_close(
        &mut self,
        context: &Context<'_>,
        con: ConId,
        token: &[u8],
    ) -> Result<bool, Memory>
        requires ready { IsReady context.now.types.now (item.Close con) (length self.old.done.items) }
        requires held { AllByRecursion (IsWithin (length self.old.heap)) self.old.done.items }
        ensures yes { IfOk result (λ took. took ≡ true → Steps context.now.types.now context.now.names.now.short (item.Close con) token.now self.old.heap self.new.heap self.old.done.items self.new.done.items self.old.wanted self.new.wanted) }
        ensures no { IfOk result (λ took. took ≡ false → Refuses context.now.types.now context.now.names.now.short (item.Close con) token.now) }
    {
        if !is_byte(token, 41) {
            return Ok(false);
        }
        context.types.rules();
        let count = context.types.fields(con).len();
        close(&mut self.heap, &mut self.done, con, count)?;
        Ok(true)
    }

    /// Takes a token, where it can stand; answers whether it can.
    fn take(&mut self, context: &Context<'_>, next: Wanted, token: &[u8]) -> Result<bool, Memory>
        requires names { AreTold context.now.types.now context.now.names.now.short }
        requires ready { IsReady context.now.types.now (due_of next) (length self.old.done.items) }
        requires held { AllByRecursion (IsWithin (length self.old.heap)) self.old.done.items }
        ensures yes { IfOk result (λ took. took ≡ true → Steps context.now.types.now context.now.names.now.short (due_of next) token.now self.old.heap self.new.heap self.old.done.items self.new.done.items self.old.wanted self.new.wanted) }
        ensures no { IfOk result (λ took. took ≡ false → Refuses context.now.types.now context.now.names.now.short (due_of next) token.now) }
    {
        match next {
            Wanted::Value(ty) => {
                let took = self.take_value(context, ty, token)?;
                Ok(took)
            }
            Wanted::Name(ty) => {
                let took = self.take_name(context, ty, token)?;
                Ok(took)
            }
            Wanted::Space => Ok(is_byte(token, 32)),
            Wanted::Close(con) => {
                let took = self.take_close(context, con, token)?;
                Ok(took)
            }
        }
    }
}

/// Reads token by token, up to the first one that can't stand.
fn read_tokens(context: &Context<'_>, ty: Ty, text: &[u8]) -> Result<Value, TextFault>
    requires { AreTold context.now.types.now context.now.names.now.short }
    ensures { ReadsTo context.now.types.now context.now.names.now.short ty text.now result }
{
    let mut reader = Reader {
        heap: Heap::new(context.alloc),
        done: Vec::new(context.alloc),
        wanted: Todo::new(context.alloc),
    };
    reader.wanted.put(Wanted::Value(ty))?;
    let mut at = 0;
    'wanted: while let Some(next) = reader.wanted.pop() {
        let place = at as u64;
        let (_, rest) = text.split_at(at);
        let len = token_len(rest);
        if len == 0 {
            return Err(TextFault::At(place));
        }
        let (token, _) = rest.split_at(len);
        if !reader.take(context, next, token)? {
            return Err(TextFault::At(place));
        }
        at += len;
    }
    if at < text.len() {
        return Err(TextFault::At(at as u64));
    }
    match reader.done.pop() {
        Some(root) => Ok(Value::from_parts(reader.heap, root)),
        None => unreachable!(),
    }
}

/// The value of the type whose text this is.
///
/// # Errors
///
/// At the first token that can't stand in a text of the type.
pub fn read_text(
    alloc: Global,
    types: &TypeTable,
    names: &Texts,
    ty: Ty,
    text: &[u8],
) -> Result<Value, TextFault>
    requires names { AreTold types.now names.now.short }
    // What is read is the value whose text this is; else the place is that of the first token that can't
    // stand, and all before it can.
    ensures exact { ReadsTo types.now names.now.short ty text.now result }
    // The text of a value is read, unless memory runs out, where each constructor's name is a word.
    ensures complete { AreWords types.now names.now.short → (v : Datum) → IsTextOf types.now names.now.short ty v text.now → MatchResult result (λ found. found ≡ v) (λ e. e ≡ TextFault.Memory) }
{
    let context = Context {
        alloc,
        types,
        names,
    };
    match read_tokens(&context, ty, text) {
        Ok(value) => Ok(value),
        Err(fault) => Err(fault),
    }
}
