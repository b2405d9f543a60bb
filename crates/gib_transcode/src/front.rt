//! What stands at the front of a text.

ghost use Rattle.std.specs.Prelude.{◌≡◌, ◌<◌, ◌≤◌, ◌+◌, ◌^◌, ◌++◌, [], ◌∷◌, length, Some, FitsSigned, IfSome, IsTrue};
ghost use Rattle.std.specs.Int.{w64};
ghost use Rattle.std.specs.Fmt.{decimal as decimal_text, signed_decimal};
ghost use Rattle.gib_types.specs.Table.{con_at, count_at};
ghost use Rattle.gib_value.specs.Text.{con_text, truth_text, AreHeld};

use gib_base::Texts;
use gib_types::{ConId, TyId, TypeTable};

/// The greatest number behind which one more digit is read: ten times it and nine is still below 2 ^ 64.
const MOST_FRONT: u64 = 1_844_674_407_370_955_160;

/// The greatest number that is no negative one's.
const MOST_WHOLE: u64 = 9_223_372_036_854_775_807;

/// Whether the text is over.
pub(crate) fn is_over(text: &[u8]) -> bool
    ensures { IsTrue result → text.now ≡ [] }
{
    match text {
        [] => true,
        _ => false,
    }
}

/// What stands behind a byte at the front.
pub(crate) fn behind_byte<'a>(text: &'a [u8], byte: u8) -> Option<&'a [u8]>
    ensures { IfSome result (λ later. text.entry.now ≡ byte ∷ later.now) }
{
    match text {
        [] => None,
        [first, later @ ..] => { if *first == byte { Some(later) } else { None } }
    }
}

/// What stands behind a word at the front.
fn behind_word<'a>(text: &'a [u8], word: &[u8]) -> Option<&'a [u8]>
    ensures is { IfSome result (λ behind. text.entry.now ≡ word.now ++ behind.now) }
    ensures shorter { IfSome result (λ behind. length behind.now ≤ length text.entry.now) }
{
    let mut rest = text;
    let mut left = word;
    'bytes: while let [byte, further @ ..] = left {
        let Some(later) = behind_byte(rest, *byte) else {
            return None;
        };
        rest = later;
        left = further;
    }
    Some(rest)
}

/// The digit at the front, and what stands behind it.
fn digit<'a>(text: &'a [u8]) -> Option<(u8, &'a [u8])>
    ensures is { IfSome result (λ found. text.entry.now ≡ (48 + found.0) ∷ found.1.now) }
    ensures below { IfSome result (λ found. found.0 < 10) }
    ensures shorter { IfSome result (λ found. length found.1.now < length text.entry.now) }
{
    let [byte, behind @ ..] = text else {
        return None;
    };
    if *byte < b'0' {
        return None;
    }
    if *byte > b'9' {
        return None;
    }
    Some((*byte - b'0', behind))
}

/// A number whose digits stand at the front, and what stands behind them. No zero leads other digits: behind a 0 the number ends.
fn decimal<'a>(text: &'a [u8]) -> Option<(u64, &'a [u8])>
    ensures is { IfSome result (λ found. text.entry.now ≡ decimal_text found.0 ++ found.1.now) }
    ensures shorter { IfSome result (λ found. length found.1.now ≤ length text.entry.now) }
{
    let Some((first, later)) = digit(text) else {
        return None;
    };
    if first == 0 {
        return Some((first as u64, later));
    }
    let mut sum = first as u64;
    let mut rest = later;
    'digits: while sum <= MOST_FRONT {
        let Some((next, behind)) = digit(rest) else {
            return Some((sum, rest));
        };
        sum = 10 * sum + next as u64;
        rest = behind;
    }
    Some((sum, rest))
}

/// A number whose text stands at the front, and what stands behind it.
pub(crate) fn number<'a>(text: &'a [u8]) -> Option<(i64, &'a [u8])>
    ensures fits { IfSome result (λ found. FitsSigned w64 found.0) }
    ensures is { IfSome result (λ found. text.entry.now ≡ signed_decimal found.0 ++ found.1.now) }
    ensures shorter { IfSome result (λ found. length found.1.now ≤ length text.entry.now) }
{
    let Some(digits) = behind_byte(text, b'-') else {
        let Some((n, behind)) = decimal(text) else {
            return None;
        };
        if n > MOST_WHOLE {
            return None;
        }
        return Some((n as i64, behind));
    };
    let Some((n, behind)) = decimal(digits) else {
        return None;
    };
    if n == 0 {
        return None;
    }
    if n - 1 > MOST_WHOLE {
        return None;
    }
    Some((-1 - (n - 1) as i64, behind))
}

/// The truth value whose word stands at the front, and what stands behind it.
pub(crate) fn truth<'a>(text: &'a [u8]) -> Option<(bool, &'a [u8])>
    ensures is { IfSome result (λ found. text.entry.now ≡ truth_text found.0 ++ found.1.now) }
    ensures shorter { IfSome result (λ found. length found.1.now ≤ length text.entry.now) }
{
    if let Some(behind) = behind_word(text, b"True".as_slice()) {
        return Some((true, behind));
    }
    match behind_word(text, b"False".as_slice()) {
        Some(behind) => Some((false, behind)),
        None => None,
    }
}

/// Whether no name goes on here: a field follows, or an end.
fn is_past_name(text: &[u8]) -> bool {
    match text {
        [byte, ..] => *byte == b' ' || *byte == b')',
        [] => true,
    }
}

/// What stands behind the constructor's name at the front, where no longer name stands there.
fn behind_name<'a>(types: &TypeTable, names: &Texts, con: ConId, text: &'a [u8]) -> Option<&'a [u8]>
    requires con { con.0 < length types.now.rows }
    requires names { AreHeld types.now names.now.short }
    ensures is { IfSome result (λ behind. text.entry.now ≡ con_text types.now names.now.short con.0 ++ behind.now) }
    ensures shorter { IfSome result (λ behind. length behind.now ≤ length text.entry.now) }
{
    let Some(behind) = behind_word(text, names.short(types.name_of(con))) else {
        return None;
    };
    if is_past_name(behind) {
        return Some(behind);
    }
    None
}

/// The constructor of a type that has this number among the type's own.
fn own(types: &TypeTable, of: TyId, number: u32) -> ConId
    requires of { of.0 < length types.now.types }
    requires number { number < count_at types.now of.0 }
    ensures own { con_at types.now of.0 result.0 ≡ Some result.0 }
    ensures within { result.0 < length types.now.rows }
{
    types.rules();
    types.stand_together();
    types.tags_invert();
    ConId(types.first_of(of).0 + number)
}

/// The constructor of the type whose name stands at the front, and what stands behind it. The last one is tried first, since a
/// list's end mostly stands before what goes on.
#[inline(always)]
pub(crate) fn named<'a>(
    types: &TypeTable,
    names: &Texts,
    of: TyId,
    text: &'a [u8],
) -> Option<(ConId, &'a [u8])>
    requires { AreHeld types.now names.now.short }
    ensures own { IfSome result (λ found. con_at types.now of.0 found.0.0 ≡ Some found.0.0) }
    ensures within { IfSome result (λ found. found.0.0 < length types.now.rows) }
    ensures name { IfSome result (λ found. text.entry.now ≡ con_text types.now names.now.short found.0.0 ++ found.1.now) }
    ensures shorter { IfSome result (λ found. length found.1.now ≤ length text.entry.now) }
{
    if of.0 >= types.type_count() {
        return None;
    }
    let mut left = types.count_of(of);
    'constructors: while left > 0 {
        left -= 1;
        let con = own(types, of, left);
        if let Some(behind) = behind_name(types, names, con, text) {
            return Some((con, behind));
        }
    }
    None
}
