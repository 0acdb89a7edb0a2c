// A short list of bytes, held in the value.
ghost use Rattle.std.specs.Prelude.{◌≡◌, ◌++◌, ◌∷◌, [], ◌+◌, ◌≤◌, ◌<◌, length, take};

use std::marker::Model;

/// How many bytes a short text has room for: with them it is as long as four words.
pub(crate) const ROOM: usize = 30;

/// At most `ROOM` bytes, seen as their list. They take no memory outside the value.
#[derive(Drop)]
pub(crate) struct ShortText {
    len: u8,
    bytes: [u8; ROOM],
}

impl Model for ShortText {
    ghost use Rattle.std.specs.Prelude.{◌≤◌, List, ℕ, take};
    ghost use Rattle.px_base.specs.declared.short_texts.TheConstants.{ROOM};

    ghost Value = { List ℕ };

    ghost view = { λ t. take t.len t.bytes };

    ghost invariant = { λ t. t.len ≤ ROOM };
}

/// Writes bytes into a slice from a place on.
fn write_at(room: &mut [u8], start: usize, bytes: &[u8])
    requires { start + length bytes.now ≤ length room.old }
    ensures { take (start + length bytes.now) room.new ≡ take start room.old ++ bytes.now }
{
    room[start..start + bytes.len()].copy_from_slice(bytes);
}

impl ShortText {
    pub(crate) fn new() -> ShortText
        ensures { result ≡ [] }
    {
        ShortText {
            len: 0,
            bytes: [0; ROOM],
        }
    }

    /// Adds bytes at the end, which there is room for.
    pub(crate) fn push_all(&mut self, bytes: &[u8])
        requires { length self.old + length bytes.now ≤ ROOM }
        ensures { self.new ≡ self.old ++ bytes.now }
    {
        let start = self.len as usize;
        write_at(&mut self.bytes, start, bytes);
        self.len = (start + bytes.len()) as u8;
    }

    /// Adds one byte at the end, which there is room for.
    pub(crate) fn push(&mut self, byte: u8)
        requires { length self.old < ROOM }
        ensures { self.new ≡ self.old ++ byte ∷ [] }
    {
        self.bytes[self.len as usize] = byte;
        self.len += 1;
    }

    /// Keeps the first `len` bytes, or all where there are fewer.
    pub(crate) fn truncate(&mut self, len: usize)
        ensures { self.new ≡ take len self.old }
    {
        if len < self.len as usize {
            self.len = len as u8;
        }
    }

    pub(crate) fn as_bytes(&self) -> &[u8]
        ensures is { result.now ≡ self.now }
        ensures within { length result.now ≤ ROOM }
    {
        &self.bytes[..self.len as usize]
    }

    pub(crate) fn len(&self) -> usize
        ensures is { result ≡ length self.now }
        ensures within { result ≤ ROOM }
    {
        self.len as usize
    }
}
