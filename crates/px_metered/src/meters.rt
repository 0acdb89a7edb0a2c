// A meter that is fed with what a client's sink takes of an exchange.
ghost use Rattle.std.specs.Prelude.{◌≡◌, ◌++◌, ◌∷◌, [], ◌<◌, ◌≤◌, ◌^◌, List, ℕ, length, take};
ghost use Rattle.px_metered.specs.Returned.{behind_empty_line, empty_line, returned_of};

use crate::Tally;
use crate::responses::{is_interim_status, status_in};

const EMPTY_LINE: [u8; 4] = *b"\r\n\r\n";

/// Counts the body of a response, and keeps the front of its head. An interim response is passed over.
#[derive(Drop)]
pub struct Meter {
    /// Whether an interim response was passed over.
    pub passed: bool,
    /// How much of the end of a head's last line and the empty line behind it came last: behind a whole head all four bytes.
    pub matched: u8,
    /// The first bytes of the head.
    pub front: [u8; 12],
    /// How many of these have come.
    pub place: usize,
    /// How many bytes came behind the head.
    pub body: u64,
    ghost matched_within: { matched ≤ 4 },
    ghost place_within: { place ≤ 12 },
    ghost body_within: { body < 2 ^ 64 },
}

impl Meter {
    ghost use Rattle.px_metered.specs.Measuring.{IsInHead, Measures, ends_interim};

    /// A meter that was fed with nothing.
    pub fn new() -> Meter
        ensures { Measures result [] }
    {
        Meter {
            passed: false,
            matched: 0,
            front: [0; 12],
            place: 0,
            body: 0,
        }
    }

    /// Feeds it with these bytes.
    pub fn take(&mut self, bytes: &[u8])
        ensures { (came : List ℕ) → Measures self.old came → Measures self.new (came ++ bytes.now) }
    {
        let mut at = 0;
        while at < bytes.len() && self.matched < 4 {
            self.take_head(bytes[at]);
            at += 1;
        }
        if at < bytes.len() {
            self.take_body((bytes.len() - at) as u64);
        }
    }

    /// What was returned, by the bytes that it was fed with.
    pub fn returned(&self) -> Tally
        ensures { (came : List ℕ) → Measures self.now came → result ≡ returned_of came }
    {
        Tally {
            status: status_in(&self.front[..self.place]),
            body: self.body,
        }
    }

    /// One byte of a head.
    fn take_head(&mut self, byte: u8)
        requires { self.old.matched < 4 }
        ensures { (came : List ℕ) → Measures self.old came → Measures self.new (came ++ byte ∷ []) }
    {
        self.note(byte);
        if self.ends_interim() {
            self.passed = true;
            self.matched = 0;
            self.place = 0;
        }
    }

    /// Whether it is at the end of the head of an interim response that is passed over.
    fn ends_interim(&self) -> bool
        ensures { result ≡ ends_interim self.now }
    {
        self.matched == 4 && !self.passed && is_interim_status(status_in(&self.front[..self.place]))
    }

    /// One byte of a head, which may end it.
    fn note(&mut self, byte: u8)
        requires { self.old.matched < 4 }
        ensures passed { self.new.passed ≡ self.old.passed }
        ensures noted { (bytes : List ℕ) → IsInHead self.old bytes → IsInHead self.new (bytes ++ byte ∷ []) }
    {
        if self.place < 12 {
            self.front[self.place] = byte;
            self.place += 1;
        }
        self.matched = next_matched(self.matched, byte);
    }

    /// So many bytes of a body.
    fn take_body(&mut self, count: u64)
        requires { self.old.matched ≡ 4 }
        ensures { (came more : List ℕ) → length more ≡ count → Measures self.old came → Measures self.new (came ++ more) }
    {
        self.body = self.body.saturating_add(count);
    }
}

/// How much of the empty line has come with one byte more.
fn next_matched(matched: u8, byte: u8) -> u8
    requires { matched < 4 }
    ensures within { result ≤ 4 }
    ensures ends { (more : List ℕ) → behind_empty_line (take matched empty_line ++ byte ∷ more) ≡ behind_empty_line (take result empty_line ++ more) }
{
    if byte == EMPTY_LINE[matched as usize] {
        matched + 1
    } else if byte == EMPTY_LINE[0] {
        1
    } else {
        0
    }
}
