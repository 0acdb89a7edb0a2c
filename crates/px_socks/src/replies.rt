// What the server sends in the handshake (RFC 1928, sections 3 and 6): the method that it selects, and its reply. No read asks
// for a byte that isn't surely one of these.
ghost use Rattle.std.specs.Prelude.{◌≡◌, ◌≢◌, ℕ, ◌<◌, ◌≤◌, ◌++◌, ◌∷◌, true, false, length, IsTrue, IfOk, MatchOption, IfSome, IfNone, Some, None, Ok};
ghost use Rattle.px_base.specs.Causes.{HasCause};
ghost use Rattle.px_base.specs.Sources.{SourceGoesOn};
ghost use Rattle.px_socks.specs.Messages.{IsReply, IsAccepted, Took, TookSome, AnyBytes, NoneAhead};
ghost use Rattle.px_socks.specs.Replies.{rest_length, TookOrNone, IsReplyFront, SelectsNone};

use px_base::{Failed, LocalSource};

/// The most bytes of a reply behind its first five: a domain name of 255 bytes and the port.
const MOST: usize = 257;

/// Fills the buffer. False means that the source ended before.
fn read_whole<S: LocalSource>(source: &mut S, buf: &mut [u8]) -> Result<bool, Failed>
    ensures whole { IsTrue (S.state source.old).tells → IfOk result (λ whole. whole ≡ true → (S.state source.old).left ≡ buf.new ++ (S.state source.new).left) }
    ensures end { IsTrue (S.state source.old).tells → IfOk result (λ whole. whole ≡ false → length (S.state source.old).left < length buf.new) }
    ensures fewer { IsTrue (S.state source.old).tells → result ≢ Ok true → TookSome (λ bytes. length bytes < length buf.new) (S.state source.old).left (S.state source.new).left }
    ensures cause { HasCause (S.state source.old).faults (S.state source.new).faults result }
    ensures goes_on { SourceGoesOn (S.state source.old) (S.state source.new) }
{
    let mut done = 0;
    while done < buf.len() {
        let count = source.read(&mut buf[done..])?;
        if count == 0 {
            return Ok(false);
        }
        done += count;
    }
    Ok(true)
}

/// Reads so many bytes into the room. False means that the source ended before.
fn read_past<S: LocalSource>(source: &mut S, room: &mut [u8], count: usize) -> Result<bool, Failed>
    requires fits { count ≤ length room.old }
    ensures whole { IsTrue (S.state source.old).tells → IfOk result (λ whole. whole ≡ true → Took AnyBytes count (S.state source.old).left (S.state source.new).left) }
    ensures end { IsTrue (S.state source.old).tells → IfOk result (λ whole. whole ≡ false → length (S.state source.old).left < count) }
    ensures fewer { IsTrue (S.state source.old).tells → result ≢ Ok true → TookSome (λ bytes. length bytes < count) (S.state source.old).left (S.state source.new).left }
    ensures cause { HasCause (S.state source.old).faults (S.state source.new).faults result }
    ensures goes_on { SourceGoesOn (S.state source.old) (S.state source.new) }
{
    read_whole(source, &mut room[..count])
}

/// How many bytes follow the first five of a reply, by the type of its bound address; `None` where they begin no reply that
/// says "succeeded". The fifth is the first byte of the bound address.
fn rest_of(first: &[u8; 5]) -> Option<usize>
    ensures rest { result ≡ rest_length first.now }
    ensures most { IfSome result (λ count. count ≤ MOST) }
{
    match first {
        [5, 0, _, 1, _] => Some(5),
        [5, 0, _, 3, length] => Some(*length as usize + 2),
        [5, 0, _, 4, _] => Some(17),
        _ => None,
    }
}

/// Reads the server's reply (RFC 1928, section 6), and gives its length in bytes. `None` means that the bytes end before or
/// leave the form of a reply that says "succeeded"; of others no more is read than its first five bytes.
pub fn read_reply<S: LocalSource>(source: &mut S) -> Result<Option<usize>, Failed>
    ensures bytes { IsTrue (S.state source.old).tells → IfOk result (λ count. TookOrNone IsReply count (S.state source.old).left (S.state source.new).left) }
    ensures most { IfOk result (λ count. IfSome count (λ n. n ≤ 262)) }
    ensures front { IsTrue (S.state source.old).tells → ((n : ℕ) → result ≢ Ok (Some n)) → TookSome IsReplyFront (S.state source.old).left (S.state source.new).left }
    ensures cause { HasCause (S.state source.old).faults (S.state source.new).faults result }
    ensures goes_on { SourceGoesOn (S.state source.old) (S.state source.new) }
{
    let mut first = [0u8; 5];
    if !read_whole(source, &mut first)? {
        return Ok(None);
    }
    let Some(more) = rest_of(&first) else {
        return Ok(None);
    };
    let mut rest = [0u8; MOST];
    if !read_past(source, &mut rest, more)? {
        return Ok(None);
    }
    Ok(Some(5 + more))
}

/// Reads the method that the server selects (RFC 1928, section 3). False means that the bytes end before, or that it isn't
/// "no authentication required", the only one that was offered.
pub fn read_method<S: LocalSource>(source: &mut S) -> Result<bool, Failed>
    ensures chosen { IsTrue (S.state source.old).tells → IfOk result (λ chosen. chosen ≡ true → (S.state source.old).left ≡ 5 ∷ 0 ∷ (S.state source.new).left) }
    ensures other { IsTrue (S.state source.old).tells → IfOk result (λ chosen. chosen ≡ false → NoneAhead IsAccepted (S.state source.old).left) }
    ensures unselected { IsTrue (S.state source.old).tells → result ≢ Ok true → TookSome SelectsNone (S.state source.old).left (S.state source.new).left }
    ensures cause { HasCause (S.state source.old).faults (S.state source.new).faults result }
    ensures goes_on { SourceGoesOn (S.state source.old) (S.state source.new) }
{
    let mut method = [0u8; 2];
    if !read_whole(source, &mut method)? {
        return Ok(false);
    }
    Ok(matches!(method, [5, 0]))
}
