//! Texts that are cut at a byte, and numbers in decimal.

ghost use Rattle.std.specs.Prelude.{◌≡◌, ◌<◌, ◌≤◌, ◌^◌, ◌==◌, ℕ, true, not, length, MatchOption};
ghost use Rattle.std.specs.List.{prefix_len};
ghost use Rattle.std.specs.Fmt.{decimal};
ghost use Rattle.gib_locked.specs.Cuts.{IsCut, lacks};

/// A text up to the first of a byte, and what is behind that.
#[derive(Clone, Copy)]
pub(crate) struct Halves<'a> {
    pub(crate) front: &'a [u8],
    pub(crate) rest: &'a [u8],
}

/// How many bytes stand before the first of a byte.
fn front_len(text: &[u8], byte: u8) -> usize
    ensures value { result ≡ prefix_len (λ b. not (b == byte)) text.now }
    ensures bound { result ≤ length text.now }
{
    text.iter().take_while(|b| **b != byte).count()
}

/// Cuts a text at the first of a byte; None where it stands nowhere.
#[tactic(auto, using(crate::proofs::CutLemmas::cut_there, crate::proofs::CutLemmas::cut_nowhere))]
pub(crate) fn cut(text: &[u8], byte: u8) -> Option<Halves<'_>>
    ensures { MatchOption result (lacks byte text.now ≡ true) (λ c. IsCut byte text.now c.front.now c.rest.now) }
{
    let len = front_len(text, byte);
    if len == text.len() {
        return None;
    }
    let (front, behind) = text.split_at(len);
    let (_, rest) = behind.split_at(1);
    Some(Halves { front, rest })
}

/// The number below 2^64 that the text is in decimal, without leading zeros.
pub(crate) fn read_number(text: &[u8]) -> Option<u64>
    ensures { MatchOption result ((n : ℕ) → n < 2 ^ 64 → text.now ≡ decimal n → ⊥) (λ n. text.now ≡ decimal n) }
{
    if text.is_empty() {
        return None;
    }
    let first = text[0];
    if first == b'+' {
        return None;
    }
    if first == b'0' {
        return if text.len() == 1 { Some(0) } else { None };
    }
    let Ok(digits) = std::str::from_utf8(text) else {
        return None;
    };
    match digits.parse::<u64>() {
        Ok(n) => Some(n),
        Err(_) => None,
    }
}
