//! A payload as a memory that is only read.

ghost use Rattle.std.specs.Prelude.{◌≡◌, ◌+◌, ◌*◌, ◌≤◌, ◌<◌, ◌^◌, ◌++◌, ◌∷◌, [], IfSome, length, take, drop};
ghost use Rattle.std.specs.Int.{w64, from_le_bytes};
ghost use Rattle.gib_mem.specs.Memory.{look_of, IsThere};
ghost use Rattle.gib_print.specs.InPlace.{cells_of, cells_with, behind_byte};

use gib_mem::{CHUNK, Mem};

/// The bytes of a payload, where a value stands without offsets. The address of the first one is 0. Nothing can be put: the
/// place behind them is closed.
#[derive(Drop)]
pub(crate) struct PackedMem<'a> {
    bytes: &'a [u8],
    // The place behind the bytes, since a memory is something where a byte may be put: closed, open, or with its byte.
    behind: Option<Option<u8>>,
    chunks: u32,
    ghost long: { length bytes.now < 4096 * chunks },
    ghost small: { chunks < 2 ^ 32 },
}

impl<'a> PackedMem<'a> {
    /// These bytes, where no more chunks are needed than a memory has.
    pub(crate) fn over(bytes: &'a [u8]) -> Option<PackedMem<'a>>
        ensures { IfSome result (λ mem. (⟦<PackedMem<'a> as Mem>⟧.view mem).cells ≡ cells_of bytes.entry.now) }
    {
        let chunks = bytes.len() as u64 / CHUNK + 1;
        if chunks > u32::MAX as u64 {
            return None;
        }
        Some(PackedMem {
            bytes,
            behind: None,
            chunks: chunks as u32,
        })
    }
}

/// The byte behind a payload; 0 where none was put.
fn byte_behind(behind: Option<Option<u8>>) -> u8
    ensures { result ≡ behind_byte behind }
{
    match behind {
        Some(Some(byte)) => byte,
        _ => 0,
    }
}

/// The byte at a place of a payload, or behind it.
fn byte_in(bytes: &[u8], behind: Option<Option<u8>>, at: usize) -> u8
    requires { IsThere (cells_with behind bytes.now at) }
    ensures { result ≡ look_of (cells_with behind bytes.now at) }
{
    if at < bytes.len() {
        bytes[at]
    } else {
        byte_behind(behind)
    }
}

/// The eight bytes from a place on, as a number.
fn word_in(bytes: &[u8], at: usize) -> u64
    requires { at + 8 ≤ length bytes.now }
    ensures { result ≡ from_le_bytes w64 (take 8 (drop at bytes.now)) }
{
    let mut word = [0u8; 8];
    word.copy_from_slice(&bytes[at..at + 8]);
    u64::from_le_bytes(word)
}

/// The last seven bytes and the one behind them, as a number.
fn last_word(front: &[u8], last: u8) -> u64
    requires { length front.now ≡ 7 }
    ensures { result ≡ from_le_bytes w64 (front.now ++ last ∷ []) }
{
    let mut word = [last; 8];
    word[..7].copy_from_slice(front);
    u64::from_le_bytes(word)
}

impl<'a> Mem for PackedMem<'a> {
    ghost use Rattle.gib_print.specs.InPlace.{read_only, read_only_bounded};

    ghost view = { λ m. read_only m.behind m.bytes.now m.chunks };

    /// No chunk: there is no more than the payload.
    fn draw(&mut self) -> Option<u32> {
        None
    }

    /// Behind the payload, where that place is open.
    fn put(&mut self, at: u64, byte: u8) {
        self.behind = Some(Some(byte));
    }

    /// The payload's byte, or the one behind it.
    fn get(&mut self, at: u64) -> u8 {
        byte_in(self.bytes, self.behind, at as usize)
    }

    /// The same.
    fn look(&mut self, at: u64) -> u8 {
        byte_in(self.bytes, self.behind, at as usize)
    }

    /// The number that eight bytes of the payload are, of which the last one may stand behind it.
    fn get_word(&mut self, at: u64) -> u64 {
        let front = self.bytes.len() - at as usize;
        if front < 8 {
            last_word(&self.bytes[at as usize..], byte_behind(self.behind))
        } else {
            word_in(self.bytes, at as usize)
        }
    }

    /// As many as the payload fills.
    fn chunks(&mut self) -> u32 {
        self.chunks
    }

    ghost bounded = { λ m. read_only_bounded m.behind m.bytes.now m.chunks m.long m.small };
}
