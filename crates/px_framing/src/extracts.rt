// The data of whole elements.
ghost use Rattle.std.specs.Prelude.{◌≡◌, ◌+◌, ◌++◌, ◌<◌, ◌≤◌, length, take, drop, vec_len, IfOk, IfSome, Some, None, IsTrue, true, List, ℕ};
ghost use Rattle.px_framing.specs.Body.{Body, Part};
ghost use Rattle.px_framing.specs.Elements.{AreWhole};
ghost use Rattle.px_framing.specs.Extracts.{Divides};
ghost use Rattle.px_framing.specs.Lines.{place_after_line, may_stand};
ghost use Rattle.px_framing.specs.Reading.{is_line};
ghost use Rattle.px_head.specs.Prints.{crlf};

use crate::lines::{WholeLine, next_place};
use crate::places::{ChunkPlace, State};
use crate::rules::BodyRule;
use px_base::{Mem, Text, place};

/// A line, or some bytes of data, at the front of whole elements.
#[derive(Clone, Copy)]
pub struct ElementRun {
    pub len: usize,
    /// How many bytes at its front are data: all or none.
    pub data_len: usize,
    pub next: ChunkPlace,
}

/// The line at the front of whole elements: no text of a line holds a CR.
fn whole_line(before: ChunkPlace, bytes: &[u8]) -> Option<WholeLine>
    ensures within { IfSome result (λ line. line.text_len + 2 ≤ length bytes.now) }
    ensures line { (text more : List ℕ) → IsTrue (may_stand before text) → bytes.now ≡ (text ++ crlf) ++ more
        → result ≡ Some (record { text_len = length text; next = place_after_line before text }) }
{
    match place(bytes, b'\r') {
        Some(at) => {
            if bytes.len() - at < 2 {
                return None;
            }
            match next_place(before, &bytes[..at]) {
                Some(next) => Some(WholeLine { text_len: at, next }),
                None => None,
            }
        }
        None => None,
    }
}

fn line_run(before: ChunkPlace, bytes: &[u8]) -> Option<ElementRun>
    ensures len { IfSome result (λ run. (0 < run.len) × (run.len ≤ length bytes.now) × (run.data_len ≤ run.len)) }
    ensures divides { (data_bytes : List ℕ) → 0 < length bytes.now → is_line before ≡ true → AreWhole before bytes.now data_bytes → Divides bytes.now data_bytes result }
{
    match whole_line(before, bytes) {
        Some(line) => Some(ElementRun {
            len: line.text_len + 2,
            data_len: 0,
            next: line.next,
        }),
        None => None,
    }
}

fn data_run(left: u64, bytes: &[u8]) -> Option<ElementRun>
    requires some { 0 < length bytes.now }
    ensures len { IfSome result (λ run. (0 < run.len) × (run.len ≤ length bytes.now) × (run.data_len ≤ run.len)) }
    ensures divides { (data_bytes : List ℕ) → AreWhole (ChunkPlace.Data left) bytes.now data_bytes → Divides bytes.now data_bytes result }
{
    if left == 0 {
        None
    } else if left <= bytes.len() as u64 {
        Some(ElementRun {
            len: left as usize,
            data_len: left as usize,
            next: ChunkPlace::Gap,
        })
    } else {
        Some(ElementRun {
            len: bytes.len(),
            data_len: bytes.len(),
            next: ChunkPlace::Data(left - bytes.len() as u64),
        })
    }
}

fn next_run(before: ChunkPlace, bytes: &[u8]) -> Option<ElementRun>
    requires some { 0 < length bytes.now }
    ensures len { IfSome result (λ run. (0 < run.len) × (run.len ≤ length bytes.now) × (run.data_len ≤ run.len)) }
    ensures divides { (data_bytes : List ℕ) → AreWhole before bytes.now data_bytes → Divides bytes.now data_bytes result }
{
    match before {
        ChunkPlace::Data(left) => data_run(left, bytes),
        ChunkPlace::Size => line_run(before, bytes),
        ChunkPlace::Gap => line_run(before, bytes),
        ChunkPlace::Trailers(_) => line_run(before, bytes),
        ChunkPlace::Done => None,
        ChunkPlace::Wrong => None,
    }
}

/// Moves the data of the whole elements behind the first `from` bytes to their front, in order, and answers where they end. It
/// takes no memory.
fn gather(start: ChunkPlace, bytes: &mut [u8], from: usize) -> usize
    requires { from ≤ length bytes.old }
    ensures within { result ≤ length bytes.new }
    ensures len { length bytes.new ≡ length bytes.old }
    ensures data_bytes { (data_bytes : List ℕ) → AreWhole start (drop from bytes.old) data_bytes → take result bytes.new ≡ take from bytes.old ++ data_bytes }
{
    let mut before = start;
    let mut at = from;
    let mut to = from;
    'runs: while at < bytes.len() {
        match next_run(before, &bytes[at..]) {
            Some(run) => {
                bytes.copy_within(at..at + run.data_len, to);
                to += run.data_len;
                at += run.len;
                before = run.next;
            }
            None => return to,
        }
    }
    to
}

/// Keeps of the whole elements behind the first `from` bytes their data alone.
pub fn keep_whole(start: ChunkPlace, out: &mut Vec<u8>, from: usize)
    requires { from ≤ vec_len out.old }
    ensures { (data_bytes : List ℕ) → AreWhole start (drop from out.old.items) data_bytes → out.new.items ≡ take from out.old.items ++ data_bytes }
{
    let len = gather(start, out.as_mut_slice(), from);
    out.truncate(len);
}

/// The data of a whole chunked body, in the memory of its bytes. Only a short body, which has no memory of its own, takes some.
pub fn data_of_whole(raw: Text) -> Result<Text, Mem>
    requires { (p : Part) × Body BodyRule.Chunked raw p × (p.state ≡ State.Whole) × (p.used ≡ length raw) }
    ensures { IfOk result (λ plain. (p : Part) → Body BodyRule.Chunked raw p → plain ≡ p.plain) }
{
    match raw.into_vec() {
        Ok(mut bytes) => {
            keep_whole(ChunkPlace::Size, &mut bytes, 0);
            Ok(Text::from_vec(bytes))
        }
        Err(_) => Err(Mem),
    }
}
