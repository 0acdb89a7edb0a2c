// Bytes that were read ahead of a source.
ghost use Rattle.std.specs.Prelude.{◌≡◌, ◌<◌, ◌≤◌, ◌+◌, ◌++◌, [], length, drop, IsTrue, IfOk, IfErr, true, false};
ghost use Rattle.px_base.specs.Sources.{SourceGoesOn};
ghost use mathlib.Core.List.{IsPrefix};
ghost use Rattle.px_streams.specs.Streams.{KeepsBytes, ReadCause};

use px_base::{Failed, Mem, Source};
use std::alloc::{AllocError, Global};
use std::marker::Model;

/// The most bytes that one read asks for.
pub const PIECE: usize = 8_192;

/// Why reading stopped.
#[derive(Clone, Copy, Debug, PartialEq, Eq)]
pub enum ReadFault {
    /// The source's count of faults rose.
    Failed,
    Mem,
}

impl From<Failed> for ReadFault {
    ghost use Rattle.px_streams.specs.declared.ahead.ReadFault.TheVariants as fault;

    ghost from_gives = { λ _ e. e ≡ fault.Failed };

    fn from(_: Failed) -> Self {
        ReadFault::Failed
    }
}

impl From<Mem> for ReadFault {
    ghost use Rattle.px_streams.specs.declared.ahead.ReadFault.TheVariants as fault;

    ghost from_gives = { λ _ e. e ≡ fault.Mem };

    fn from(_: Mem) -> Self {
        ReadFault::Mem
    }
}

impl From<AllocError> for ReadFault {
    ghost use Rattle.px_streams.specs.declared.ahead.ReadFault.TheVariants as fault;

    ghost from_gives = { λ _ e. e ≡ fault.Mem };

    fn from(_: AllocError) -> Self {
        ReadFault::Mem
    }
}

/// Bytes that were read and aren't used yet, seen as that list.
#[derive(Drop)]
pub struct Ahead {
    bytes: Vec<u8>,
    at: usize,
}

impl Model for Ahead {
    ghost use Rattle.std.specs.Prelude.{List, ℕ, drop, ◌≤◌, length};

    ghost Value = { List ℕ };

    ghost view = { λ a. drop a.at a.bytes.items };

    ghost invariant = { λ a. a.at ≤ length a.bytes.items };
}

impl Ahead {
    /// No bytes, which takes no memory.
    pub fn new(alloc: Global) -> Ahead
        ensures { result ≡ [] }
    {
        Ahead {
            bytes: Vec::new(alloc),
            at: 0,
        }
    }

    pub fn as_bytes(&self) -> &[u8]
        ensures { result.now ≡ self.now }
    {
        &self.bytes[self.at..]
    }

    /// Uses the first bytes up. Where none is left, the room serves again.
    pub fn skip(&mut self, count: usize)
        requires { count ≤ length self.old }
        ensures { self.new ≡ drop count self.old }
    {
        self.at += count;
        if self.at == self.bytes.len() {
            self.bytes.clear();
            self.at = 0;
        }
    }
}

/// Reads a piece, and adds it at the end. The room is made before the read, so that after want of memory nothing was read.
fn read_piece<S: Source>(source: &mut S, bytes: &mut Vec<u8>) -> Result<usize, ReadFault>
    ensures added { IfOk result (λ count. (length bytes.new.items ≡ length bytes.old.items + count) × IsPrefix bytes.old.items bytes.new.items) }
    ensures read { IfOk result (λ count. IsTrue (S.state source.old).tells → bytes.new.items ++ (S.state source.new).left ≡ bytes.old.items ++ (S.state source.old).left) }
    ensures end { IfOk result (λ count. count ≡ 0 → IsTrue (S.state source.old).tells → (S.state source.old).left ≡ []) }
    ensures refused { IfErr result (λ _. (bytes.new.items ≡ bytes.old.items) × (IsTrue (S.state source.old).tells → (S.state source.new).left ≡ (S.state source.old).left)) }
    ensures cause { ReadCause (S.state source.old) (S.state source.new) result }
    ensures goes_on { SourceGoesOn (S.state source.old) (S.state source.new) }
{
    bytes.reserve(PIECE)?;
    let mut piece = [0u8; PIECE];
    let count = source.read(&mut piece)?;
    let _added = bytes.extend_from_slice(&piece[..count]);
    Ok(count)
}

/// Reads a piece more. False means that the source is at its end. After a refusal the bytes are as before, and nothing was read.
pub fn fill<S: Source>(source: &mut S, ahead: &mut Ahead) -> Result<bool, ReadFault>
    ensures bytes { KeepsBytes (S.state source.old) (S.state source.new) ahead.old ahead.new }
    ensures end { IsTrue (S.state source.old).tells → IfOk result (λ more. more ≡ false → ((S.state source.old).left ≡ []) × ((S.state source.new).left ≡ [])) }
    ensures more { IfOk result (λ more. more ≡ true → length ahead.old < length ahead.new) }
    ensures longer { IfOk result (λ _. IsPrefix ahead.old ahead.new) }
    ensures refused { IfErr result (λ _. ahead.new ≡ ahead.old) }
    ensures cause { ReadCause (S.state source.old) (S.state source.new) result }
    ensures goes_on { SourceGoesOn (S.state source.old) (S.state source.new) }
{
    Ok(read_piece(source, &mut ahead.bytes)? > 0)
}
