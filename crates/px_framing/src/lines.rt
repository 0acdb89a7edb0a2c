// The lines of a chunked body.
ghost use Rattle.std.specs.Prelude.{◌≡◌, ◌↔◌, ◌+◌, ◌-◌, ◌^◌, ◌∷◌, ◌++◌, [], ◌<◌, ◌≤◌, length, take, true, Some, IsTrue, SomeIff, IfSome, MatchOption, min, ℕ, List, false};
ghost use Rattle.std.specs.Char.{digit_value};
ghost use Rattle.std.specs.List.{list_all};
ghost use Rattle.std.specs.Str.Parse.{digits_value};
ghost use Rattle.px_base.specs.Blanks.{is_blank};
ghost use Rattle.px_framing.specs.Lines.{place_after_line, after_size, behind_while, front_while, is_extension, is_hex, is_line_byte, may_stand, size_of, IsOpen};
ghost use Rattle.px_framing.specs.Passing.{IsLineAt};
ghost use Rattle.px_framing.specs.Reading.{ends_in_cr, verdict_of};
ghost use Rattle.px_head.specs.Prints.{crlf};

use crate::LINE_LIMIT;
use crate::places::{ChunkPlace, Verdict};
use memchr::memchr;
use px_base::is_blank;

/// The most bytes of a size line's text: 256 with its CRLF.
const SIZE_TEXT: usize = 254;

/// The most bytes of a trailer line's text: `LINE_LIMIT` with its CRLF.
const TRAILER_TEXT: usize = 8_190;

/// The most bytes of all trailer lines without the last CRLF: two more with it.
const TRAILERS: usize = 65_534;

/// The value of a hexadecimal digit.
fn hex_digit(byte: u8) -> Option<u64>
    ensures exact { SomeIff result (digit_value byte < 16) (digit_value byte) }
    ensures value { IfSome result (λ d. (d ≡ digit_value byte) × (d < 16)) }
{
    match byte {
        b'0'..=b'9' => Some((byte - b'0') as u64),
        b'a'..=b'f' => Some((byte - b'a') as u64 + 10),
        b'A'..=b'F' => Some((byte - b'A') as u64 + 10),
        _ => None,
    }
}

/// Any byte but CR, LF and NUL.
fn is_plain_byte(byte: u8) -> bool
    ensures { result ≡ is_line_byte byte }
{
    byte != b'\r' && byte != b'\n' && byte != 0
}

fn all_plain(bytes: &[u8]) -> bool
    ensures { result ≡ list_all is_line_byte bytes.now }
{
    bytes.iter().all(|byte| is_plain_byte(*byte))
}

/// White space, then nothing or `;` and an extension.
fn ends_size(bytes: &[u8]) -> bool
    ensures { result ≡ is_extension (behind_while is_blank bytes.now) }
{
    for i in 0..bytes.len() {
        let byte = bytes[i];
        if !is_blank(byte) {
            return byte == b';' && all_plain(&bytes[i + 1..]);
        }
    }
    true
}

/// The hexadecimal digits at the front of bytes: how many they are, and the number that they give.
#[derive(Clone, Copy)]
struct Digits {
    len: usize,
    value: u64,
}

/// The digits at the front of the bytes, unless they give 2^63 or more.
fn digits_at(bytes: &[u8]) -> Option<Digits>
    ensures len { IfSome result (λ digits. digits.len ≡ length (front_while is_hex bytes.now)) }
    ensures within { IfSome result (λ digits. digits.len ≤ length bytes.now) }
    ensures value { IfSome result (λ digits. digits.value ≡ digits_value 16 (front_while is_hex bytes.now)) }
    ensures small { MatchOption result (2 ^ 63 ≤ digits_value 16 (front_while is_hex bytes.now)) (λ digits. digits.value < 2 ^ 63) }
{
    let mut value = 0;
    for i in 0..bytes.len() {
        match hex_digit(bytes[i]) {
            Some(digit) => {
                if value >= 1 << 59 {
                    return None;
                }
                value = value * 16 + digit;
            }
            None => return Some(Digits { len: i, value }),
        }
    }
    Some(Digits {
        len: bytes.len(),
        value,
    })
}

/// The size that a size line's text gives.
fn read_size(text: &[u8]) -> Option<u64>
    ensures { result ≡ size_of text.now }
{
    match digits_at(text) {
        Some(digits) => {
            if digits.len == 0 {
                None
            } else if ends_size(&text[digits.len..]) {
                Some(digits.value)
            } else {
                None
            }
        }
        None => None,
    }
}

/// What comes after a size line of that size.
fn place_after_size(size: u64) -> ChunkPlace
    ensures { result ≡ after_size (Some size) }
{
    if size == 0 {
        ChunkPlace::Trailers(0)
    } else {
        ChunkPlace::Data(size)
    }
}

/// What comes after the line, if it may stand there.
#[tactic(auto, unfolding(crate::specs::Lines::may_stand, crate::specs::Lines::place_after_line))]
pub fn next_place(place: ChunkPlace, text: &[u8]) -> Option<ChunkPlace>
    ensures { MatchOption result (may_stand place text.now ≡ false) (λ next. IsTrue (may_stand place text.now) × (next ≡ place_after_line place text.now)) }
{
    match place {
        ChunkPlace::Size => match read_size(text) {
            Some(size) => {
                if text.len() > SIZE_TEXT {
                    None
                } else {
                    Some(place_after_size(size))
                }
            }
            None => None,
        },
        ChunkPlace::Gap => {
            if text.is_empty() {
                Some(ChunkPlace::Size)
            } else {
                None
            }
        }
        ChunkPlace::Trailers(before) => {
            if text.is_empty() {
                Some(ChunkPlace::Done)
            } else if fits_trailers(before, text.len()) && all_plain(text) {
                Some(ChunkPlace::Trailers(before + text.len() + 2))
            } else {
                None
            }
        }
        ChunkPlace::Data(_) => None,
        ChunkPlace::Done => None,
        ChunkPlace::Wrong => None,
    }
}

/// Whether a trailer line of that many bytes fits behind those before it.
fn fits_trailers(before: usize, len: usize) -> bool
    ensures { IsTrue result ↔ ((len ≤ 8190) × (before + len ≤ 65534)) }
{
    len <= TRAILER_TEXT && before <= TRAILERS && before + len <= TRAILERS
}

/// Whether these bytes are the text of a line, where all but the last are or are none. Among the trailers it looks at the
/// last byte alone.
#[tactic(auto, unfolding(crate::specs::Lines::may_stand))]
fn grows(place: ChunkPlace, front: &[u8], last: u8, bytes: &[u8]) -> bool
    requires whole { bytes.now ≡ front.now ++ last ∷ [] }
    requires begun { IsOpen place front.now }
    requires no_cr { (t : List ℕ) → front.now ≡ t ++ 13 ∷ [] → ⊥ }
    ensures { result ≡ may_stand place bytes.now }
{
    match place {
        ChunkPlace::Trailers(before) => is_plain_byte(last) && fits_trailers(before, bytes.len()),
        ChunkPlace::Size => next_place(place, bytes).is_some(),
        ChunkPlace::Gap => next_place(place, bytes).is_some(),
        ChunkPlace::Data(_) => false,
        ChunkPlace::Done => false,
        ChunkPlace::Wrong => false,
    }
}

fn ends_in_cr(bytes: &[u8]) -> bool
    ensures { result ≡ ends_in_cr bytes.now }
{
    !bytes.is_empty() && bytes[bytes.len() - 1] == b'\r'
}

/// The first bytes, at most so many.
pub fn front(bytes: &[u8], most: u64) -> &[u8]
    ensures bytes { result.now ≡ take most bytes.now }
    ensures len { length result.now ≡ min most (length bytes.now) }
{
    if most < bytes.len() as u64 {
        &bytes[..most as usize]
    } else {
        bytes
    }
}

/// What the last byte makes of a line.
#[tactic(auto, unfolding(crate::specs::Reading::verdict_of))]
pub fn judge(place: ChunkPlace, front: &[u8], last: u8, bytes: &[u8]) -> Verdict
    requires whole { bytes.now ≡ front.now ++ last ∷ [] }
    requires begun { IsOpen place front.now }
    ensures { result ≡ verdict_of place front.now last }
{
    if ends_in_cr(front) {
        if last == b'\n' {
            match next_place(place, &front[..front.len() - 1]) {
                Some(next) => Verdict::Line(next),
                None => Verdict::Wrong,
            }
        } else {
            Verdict::Wrong
        }
    } else if last == b'\r' {
        match next_place(place, front) {
            Some(_) => Verdict::Open,
            None => Verdict::Wrong,
        }
    } else if grows(place, front, last, bytes) {
        Verdict::Open
    } else {
        Verdict::Wrong
    }
}

/// A whole line at the front of bytes: the length of its text, and what comes after it.
#[derive(Clone, Copy)]
pub struct WholeLine {
    pub text_len: usize,
    pub next: ChunkPlace,
}

/// Whether the bytes begin with CRLF.
pub fn begins_with_line_end(bytes: &[u8]) -> bool
    ensures { result ≡ true → (2 ≤ length bytes.now) × (take 2 bytes.now ≡ crlf) }
{
    bytes.len() >= 2 && bytes[0] == b'\r' && bytes[1] == b'\n'
}

/// The size line of digits alone at the front of the bytes, if there is one.
fn plain_size_line(bytes: &[u8]) -> Option<WholeLine>
    ensures { IfSome result (λ line. IsLineAt ChunkPlace.Size bytes.now line) }
{
    match digits_at(bytes) {
        Some(digits) => {
            if digits.len == 0 || digits.len > SIZE_TEXT {
                return None;
            }
            if begins_with_line_end(&bytes[digits.len..]) {
                Some(WholeLine {
                    text_len: digits.len,
                    next: place_after_size(digits.value),
                })
            } else {
                None
            }
        }
        None => None,
    }
}

/// The whole line that may stand there at the front of the bytes, if there is one, by the first LF.
fn line_to_lf(place: ChunkPlace, bytes: &[u8]) -> Option<WholeLine>
    ensures { IfSome result (λ line. IsLineAt place bytes.now line) }
{
    match memchr(b'\n', front(bytes, LINE_LIMIT as u64)) {
        Some(at) => {
            if at == 0 || bytes[at - 1] != b'\r' {
                return None;
            }
            match next_place(place, &bytes[..at - 1]) {
                Some(next) => Some(WholeLine {
                    text_len: at - 1,
                    next,
                }),
                None => None,
            }
        }
        None => None,
    }
}

/// The whole line that may stand there at the front of the bytes, if there is one.
pub fn line_at(place: ChunkPlace, bytes: &[u8]) -> Option<WholeLine>
    ensures { IfSome result (λ line. IsLineAt place bytes.now line) }
{
    match place {
        ChunkPlace::Size => match plain_size_line(bytes) {
            Some(line) => Some(line),
            None => line_to_lf(ChunkPlace::Size, bytes),
        },
        ChunkPlace::Gap => line_to_lf(place, bytes),
        ChunkPlace::Trailers(_) => line_to_lf(place, bytes),
        ChunkPlace::Data(_) => None,
        ChunkPlace::Done => None,
        ChunkPlace::Wrong => None,
    }
}
