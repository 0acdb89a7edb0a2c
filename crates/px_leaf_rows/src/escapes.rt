//! Bytes in a line of text: printable ASCII as it is, and the rest by escapes.
//!
//! `\n`, `\r`, `\t` and `\\` are those bytes, `\xNN` is the byte of two hexadecimal digits, and `\{N TEXT}` is TEXT N times, in
//! which `\#` is the number of the time, from 1.
ghost use Rattle.std.specs.Prelude.{◌≡◌, ◌≢◌, ◌∷◌, ◌++◌, [], All, IfOk, None, OnOk};
ghost use Rattle.px_leaf_rows.specs.declared.escapes.Place.TheVariants as place;

use crate::faults::Fault;
use std::alloc::{AllocError, Global};
use std::mem;

/// Where a reading of escapes stands.
#[derive(Clone, Copy)]
enum Place {
    /// Outside an escape.
    Plain,
    /// Behind a backslash.
    Begun,
    /// Behind `\x`.
    High,
    /// Behind `\x` and a digit of this value.
    Low(u8),
    /// Behind `\{` and digits of this value.
    Times(usize),
}

/// The most times that a text is repeated.
const MOST_TIMES: usize = 1 << 24;

/// How many times a text is added at once where it is repeated so often.
const AT_ONCE: usize = 256;

/// The text of `\{N TEXT}` that is being read: N, and where TEXT begins.
#[derive(Clone, Copy)]
struct Repeat {
    times: usize,
    begins: usize,
}

/// A part of a text that is repeated.
#[derive(Drop)]
enum Part {
    Bytes(Vec<u8>),
    Number,
}

#[derive(Drop)]
struct Decoder {
    alloc: Global,
    bytes: Vec<u8>,
    place: Place,
    repeat: Option<Repeat>,
    parts: Vec<Part>,
}

impl Decoder {
    fn put(&mut self, byte: u8) -> Result<Place, Fault>
        ensures place { IfOk result (λ next. next ≡ place.Plain) }
        ensures bytes { OnOk result (self.new.bytes.items ≡ self.old.bytes.items ++ byte ∷ []) }
        ensures repeat { self.new.repeat ≡ self.old.repeat }
    {
        self.bytes.push(byte)?;
        Ok(Place::Plain)
    }

    /// Takes the bytes of a part of a text that is repeated.
    fn end_part(&mut self, begins: usize) -> Result<(), Fault> {
        let begins = begins.min(self.bytes.len());
        let part = Vec::from_slice(self.alloc, &self.bytes.as_slice()[begins..])?;
        self.bytes.truncate(begins);
        Ok(self.parts.push(Part::Bytes(part))?)
    }

    /// Adds a text so many times, many times at once.
    fn repeat_text(&mut self, text: &[u8], times: usize) -> Result<(), Fault> {
        let mut many = Vec::new(self.alloc);
        if times >= AT_ONCE {
            for _ in 0..AT_ONCE {
                many.extend_from_slice(text)?;
            }
        }
        for _ in 0..times / AT_ONCE {
            self.bytes.extend_from_slice(many.as_slice())?;
        }
        for _ in 0..times % AT_ONCE {
            self.bytes.extend_from_slice(text)?;
        }
        Ok(())
    }

    /// Adds the parts for each time.
    fn repeat(&mut self, times: usize) -> Result<(), Fault> {
        let parts = mem::replace(&mut self.parts, Vec::new(self.alloc));
        if let [Part::Bytes(text)] = parts.as_slice() {
            return self.repeat_text(text.as_slice(), times);
        }
        for time in 0..times {
            for part in parts.iter() {
                match part {
                    Part::Bytes(bytes) => self.bytes.extend_from_slice(bytes.as_slice())?,
                    Part::Number => {
                        let number = format!(in self.alloc; "{}", time.saturating_add(1))?;
                        self.bytes.extend_from_slice(number.as_bytes())?;
                    }
                }
            }
        }
        Ok(())
    }

    /// Ends a text that is repeated.
    fn close(&mut self, repeat: Repeat) -> Result<Place, Fault> {
        self.end_part(repeat.begins)?;
        self.repeat(repeat.times)?;
        self.repeat = None;
        Ok(Place::Plain)
    }

    /// Puts the number of the time into a text that is repeated.
    fn count(&mut self) -> Result<Place, Fault> {
        let Some(repeat) = self.repeat else {
            return Err(Fault::Form("\\# is in no \\{N TEXT}"));
        };
        self.end_part(repeat.begins)?;
        self.parts.push(Part::Number)?;
        Ok(Place::Plain)
    }

    fn plain(&mut self, byte: u8) -> Result<Place, Fault>
        ensures place { self.old.repeat ≡ None → byte ≢ 92 → IfOk result (λ next. next ≡ place.Plain) }
        ensures bytes { self.old.repeat ≡ None → byte ≢ 92 → OnOk result (self.new.bytes.items ≡ self.old.bytes.items ++ byte ∷ []) }
        ensures repeat { self.old.repeat ≡ None → OnOk result (self.new.repeat ≡ None) }
    {
        match (byte, self.repeat) {
            (b'\\', _) => Ok(Place::Begun),
            (b'}', Some(repeat)) => self.close(repeat),
            _ => self.put(byte),
        }
    }

    fn begun(&mut self, byte: u8) -> Result<Place, Fault> {
        match byte {
            b'n' => self.put(b'\n'),
            b'r' => self.put(b'\r'),
            b't' => self.put(b'\t'),
            b'\\' => self.put(b'\\'),
            b'x' => Ok(Place::High),
            b'{' => Ok(Place::Times(0)),
            b'#' => self.count(),
            _ => Err(Fault::Form("no such escape")),
        }
    }

    fn times(&mut self, times: usize, byte: u8) -> Result<Place, Fault> {
        match byte {
            b'0'..=b'9' if times < MOST_TIMES => Ok(Place::Times(
                times * 10 + (byte - b'0') as usize,
            )),
            b' ' if self.repeat.is_none() => {
                let begins = self.bytes.len();
                self.repeat = Some(Repeat { times, begins });
                Ok(Place::Plain)
            }
            _ => Err(Fault::Form("\\{ begins no \\{N TEXT}")),
        }
    }

    fn feed(&mut self, byte: u8) -> Result<(), Fault>
        ensures place { self.old.place ≡ place.Plain → self.old.repeat ≡ None → byte ≢ 92 → OnOk result (self.new.place ≡ place.Plain) }
        ensures bytes { self.old.place ≡ place.Plain → self.old.repeat ≡ None → byte ≢ 92 → OnOk result (self.new.bytes.items ≡ self.old.bytes.items ++ byte ∷ []) }
        ensures repeat { self.old.place ≡ place.Plain → self.old.repeat ≡ None → byte ≢ 92 → OnOk result (self.new.repeat ≡ None) }
    {
        self.place = match self.place {
            Place::Plain => self.plain(byte)?,
            Place::Begun => self.begun(byte)?,
            Place::High => Place::Low(digit(byte)?),
            Place::Low(high) => {
                let low = digit(byte)?;
                self.put((high & 15) << 4 | low)?
            }
            Place::Times(times) => self.times(times, byte)?,
        };
        Ok(())
    }

    fn end(self) -> Result<Vec<u8>, Fault>
        ensures { IfOk result (λ bytes. bytes ≡ self.bytes) }
    {
        match (self.place, self.repeat) {
            (Place::Plain, None) => Ok(self.bytes),
            _ => Err(Fault::Form("an escape isn't ended")),
        }
    }
}

/// The value of a hexadecimal digit.
fn digit(byte: u8) -> Result<u8, Fault> {
    match byte {
        b'0'..=b'9' => Ok(byte - b'0'),
        b'a'..=b'f' => Ok(byte - b'a' + 10),
        b'A'..=b'F' => Ok(byte - b'A' + 10),
        _ => Err(Fault::Form("\\x is before no two hexadecimal digits")),
    }
}

/// The bytes that a text with escapes stands for. One without a backslash stands for its own.
pub fn decoded(alloc: Global, text: &str) -> Result<Vec<u8>, Fault>
    ensures plain { All (λ byte. byte ≢ 92) text.now → IfOk result (λ bytes. bytes.items ≡ text.now) }
{
    let mut decoder = Decoder {
        alloc,
        bytes: Vec::new(alloc),
        place: Place::Plain,
        repeat: None,
        parts: Vec::new(alloc),
    };
    for byte in text.as_bytes() {
        decoder.feed(*byte)?;
    }
    decoder.end()
}

/// A text with escapes that stands for the bytes, in one line.
pub(crate) fn encoded(alloc: Global, bytes: &[u8]) -> Result<String, AllocError> {
    let mut text = String::new(alloc);
    for byte in bytes {
        match *byte {
            b'\n' => text.push_str("\\n")?,
            b'\r' => text.push_str("\\r")?,
            b'\t' => text.push_str("\\t")?,
            b'\\' => text.push_str("\\\\")?,
            b' '..=b'~' => text.push(char::from(*byte))?,
            _ => text.push_str(format!(in alloc; "\\x{byte:02x}")?.as_str())?,
        }
    }
    Ok(text)
}
