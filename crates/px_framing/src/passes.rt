// Passes a chunked body on: how far whole elements reach in a piece, without a copy of their bytes.
ghost use Rattle.std.specs.Prelude.{◌≡◌, ◌+◌, ◌∷◌, ◌++◌, [], ◌<◌, ◌≤◌, length, take, min, true, false, vec_len, vec_capacity, if◌then◌else◌};
ghost use Rattle.px_framing.specs.declared.TheConstants.{LINE_LIMIT};
ghost use Rattle.px_framing.specs.Lines.{IsOpen};
ghost use Rattle.px_framing.specs.Reading.{is_last, is_line, IsHeld, Room};
ghost use Rattle.px_framing.specs.Passing.{Goes, StepsOn, settled};

use crate::advances::append;
use crate::lines::{begins_with_line_end, judge, line_at};
use crate::places::{ChunkPlace, Verdict};

/// A step in a piece: how many bytes it took, whether a whole element ends with them, and what comes next.
#[derive(Clone, Copy)]
pub struct Gone {
    pub used: usize,
    pub ends: bool,
    pub next: ChunkPlace,
}

/// Passes the last bytes of data of a chunk, and with them the CRLF behind them where it is there whole.
fn pass_last_data(len: usize, rest: &[u8]) -> Gone
    requires some { 0 < len }
    requires within { len ≤ length rest.now }
    ensures { StepsOn (ChunkPlace.Data len) [] rest.now result [] }
{
    if begins_with_line_end(&rest[len..]) {
        Gone {
            used: len + 2,
            ends: true,
            next: ChunkPlace::Size,
        }
    } else {
        Gone {
            used: len,
            ends: true,
            next: ChunkPlace::Gap,
        }
    }
}

/// Passes a run of data.
fn pass_data(left: u64, rest: &[u8]) -> Gone
    requires some { 0 < length rest.now }
    requires left { 0 < left }
    ensures { StepsOn (ChunkPlace.Data left) [] rest.now result [] }
{
    if left <= rest.len() as u64 {
        pass_last_data(left as usize, rest)
    } else {
        Gone {
            used: rest.len(),
            ends: true,
            next: ChunkPlace::Data(left - rest.len() as u64),
        }
    }
}

/// Passes a byte of a line.
fn pass_byte(place: ChunkPlace, kept: &mut Vec<u8>, byte: u8) -> Gone
    requires line { is_line place ≡ true }
    requires held { IsOpen place kept.old.items }
    requires kept { Room kept.old 1 }
    ensures step { StepsOn place kept.old.items (byte ∷ []) result kept.new.items }
    ensures kept_room { vec_capacity kept.old ≤ vec_capacity kept.new }
{
    let len = kept.len();
    append(kept, &[byte]);
    match judge(place, &kept[..len], byte, &kept[..]) {
        Verdict::Open => Gone {
            used: 1,
            ends: false,
            next: place,
        },
        Verdict::Line(next) => {
            kept.clear();
            Gone {
                used: 1,
                ends: true,
                next,
            }
        }
        Verdict::Wrong => {
            kept.clear();
            Gone {
                used: 1,
                ends: false,
                next: ChunkPlace::Wrong,
            }
        }
    }
}

/// Passes a whole line or a byte of one.
fn pass_line(place: ChunkPlace, kept: &mut Vec<u8>, rest: &[u8]) -> Gone
    requires some { 0 < length rest.now }
    requires line { is_line place ≡ true }
    requires held { IsOpen place kept.old.items }
    requires kept { Room kept.old 1 }
    ensures step { StepsOn place kept.old.items rest.now result kept.new.items }
    ensures kept_room { vec_capacity kept.old ≤ vec_capacity kept.new }
{
    if kept.is_empty() {
        match line_at(place, rest) {
            Some(line) => {
                return Gone {
                    used: line.text_len + 2,
                    ends: true,
                    next: line.next,
                };
            }
            None => {}
        }
    }
    pass_byte(place, kept, rest[0])
}

/// Passes the CRLF behind the data, or a byte of it.
fn pass_gap(kept: &mut Vec<u8>, rest: &[u8]) -> Gone
    requires some { 0 < length rest.now }
    requires held { IsOpen ChunkPlace.Gap kept.old.items }
    requires kept { Room kept.old 1 }
    ensures step { StepsOn ChunkPlace.Gap kept.old.items rest.now result kept.new.items }
    ensures kept_room { vec_capacity kept.old ≤ vec_capacity kept.new }
{
    if kept.is_empty() && begins_with_line_end(rest) {
        Gone {
            used: 2,
            ends: true,
            next: ChunkPlace::Size,
        }
    } else {
        pass_byte(ChunkPlace::Gap, kept, rest[0])
    }
}

/// Passes a run of data, a whole line or a byte of one.
fn pass_some(place: ChunkPlace, kept: &mut Vec<u8>, rest: &[u8]) -> Gone
    requires some { 0 < length rest.now }
    requires more { is_last place ≡ false }
    requires held { IsHeld place kept.old.items }
    requires kept { Room kept.old 1 }
    ensures step { StepsOn place kept.old.items rest.now result kept.new.items }
    ensures kept_room { vec_capacity kept.old ≤ vec_capacity kept.new }
{
    match place {
        ChunkPlace::Data(left) => pass_data(left, rest),
        ChunkPlace::Size => pass_line(place, kept, rest),
        ChunkPlace::Gap => pass_gap(kept, rest),
        ChunkPlace::Trailers(_) => pass_line(place, kept, rest),
        ChunkPlace::Done => unreachable!(),
        ChunkPlace::Wrong => unreachable!(),
    }
}

fn farther(ends: bool, at: usize, whole: usize) -> usize
    ensures { result ≡ (if ends then at else whole) }
{
    if ends { at } else { whole }
}

/// How far a piece was passed.
#[derive(Clone, Copy)]
pub struct Reach {
    /// How many bytes at its front end with a whole element.
    pub whole: usize,
    pub used: usize,
    pub next: ChunkPlace,
}

/// Passes a piece up to the end of the body.
pub fn pass_piece(start: ChunkPlace, kept: &mut Vec<u8>, piece: &[u8]) -> Reach
    requires more { is_last start ≡ false }
    requires held { IsHeld start kept.old.items }
    requires kept { min LINE_LIMIT (length kept.old.items + length piece.now) ≤ vec_capacity kept.old }
    ensures whole { result.whole ≤ result.used }
    ensures used { result.used ≤ length piece.now }
    ensures all { is_last result.next ≡ false → result.used ≡ length piece.now }
    ensures held { IsHeld result.next kept.new.items }
    ensures short { length kept.new.items ≤ LINE_LIMIT }
    ensures goes { Goes start kept.old.items (take result.used piece.now) (settled kept.old.items piece.now result.whole) result.next kept.new.items }
{
    let mut place = start;
    let mut at = 0;
    let mut whole = 0;
    while at < piece.len() {
        let gone = pass_some(place, kept, &piece[at..]);
        at += gone.used;
        place = gone.next;
        whole = farther(gone.ends, at, whole);
        if is_last_place(place) {
            return Reach {
                whole,
                used: at,
                next: place,
            };
        }
    }
    Reach {
        whole,
        used: at,
        next: place,
    }
}

/// Nothing comes after this place.
fn is_last_place(place: ChunkPlace) -> bool
    ensures { result ≡ is_last place }
{
    match place {
        ChunkPlace::Done => true,
        ChunkPlace::Wrong => true,
        ChunkPlace::Size => false,
        ChunkPlace::Data(_) => false,
        ChunkPlace::Gap => false,
        ChunkPlace::Trailers(_) => false,
    }
}
