//! What a case is run on: the words of a command, files, the client's bytes, the origins' answers, and how the objects behave.
use crate::cases::fields::{Case, CaseField, Key};
use px_leaf_rows::{Fault, Misread, decoded};
use std::alloc::Global;
use std::str::FromStr;

/// An object of the outside, whose calls may be cut short or fail.
#[derive(Clone, Copy, Debug, PartialEq, Eq)]
pub enum Device {
    ClientRead,
    ClientWrite,
    ErrorWrite,
    Files,
    LinkRead,
    LinkWrite,
    /// A dial that finds no name.
    NoName,
    /// A dial that reaches no host.
    NotReached,
}

impl Device {
    fn by_name(name: &str) -> Result<Device, Fault> {
        match name {
            "client-read" => Ok(Device::ClientRead),
            "client-write" => Ok(Device::ClientWrite),
            "error-write" => Ok(Device::ErrorWrite),
            "files" => Ok(Device::Files),
            "link-read" => Ok(Device::LinkRead),
            "link-write" => Ok(Device::LinkWrite),
            "no-name" => Ok(Device::NoName),
            "not-reached" => Ok(Device::NotReached),
            _ => Err(Fault::Form("no device has such a name")),
        }
    }

    /// Whether its calls are dials.
    pub(crate) fn is_dial(self) -> bool {
        self == Device::NoName || self == Device::NotReached
    }

    /// Whether it is a dial, or a part of the link that a dial gives.
    pub(crate) fn is_dialled(self) -> bool {
        self.is_dial() || self == Device::LinkRead || self == Device::LinkWrite
    }
}

/// A call that fails: of a device, and of a link that of which dial. Both are counted from 0.
#[derive(Clone, Copy)]
pub struct Failing {
    pub device: Device,
    pub call: u64,
    pub dial: usize,
}

/// How many bytes the first calls of a device take or give at most.
#[derive(Drop)]
pub struct Cuts {
    pub device: Device,
    pub sizes: Vec<usize>,
}

/// What a dial gives.
#[derive(Drop)]
pub enum Origin {
    Link(Vec<u8>),
    NoName,
    NotReached,
}

/// A file: its name and its bytes.
#[derive(Drop)]
pub struct NamedFile<'a> {
    pub name: &'a str,
    pub bytes: Vec<u8>,
}

/// What a case is run on.
#[derive(Drop)]
pub struct Setup<'a> {
    pub alloc: Global,
    pub words: Vec<&'a str>,
    /// The files of each configuration.
    pub states: Vec<Vec<NamedFile<'a>>>,
    pub input: Vec<u8>,
    pub origins: Vec<Origin>,
    /// Whether the file ORIGIN is there.
    pub has_origins: bool,
    pub moments: Vec<u64>,
    pub cuts: Vec<Cuts>,
    /// Whether the runs are repeated with every cut.
    pub each_cut: bool,
    pub failing: Vec<Failing>,
    /// The devices of which each call fails in turn.
    pub each_failing: Vec<Device>,
}

/// What `pass` is told where a case has no words.
const PASS: [&str; 4] = ["pass", "c", "o", "s"];

/// The moment of a case that names none, in seconds since 1970.
const MOMENT: u64 = 1_000_000_000;

/// The text before a `\` that ends a line of text and isn't itself behind a `\`.
fn before_open_end(text: &str) -> Option<&str> {
    let front = text.strip_suffix('\\')?;
    let slashes = front
        .bytes()
        .rev()
        .take_while(|byte| *byte == b'\\')
        .count();
    if slashes % 2 == 0 { Some(front) } else { None }
}

/// The bytes of lines of text. Each has that end but where a `\` ends it.
pub(crate) fn text_bytes(alloc: Global, texts: &[&str], line_end: &str) -> Result<Vec<u8>, Fault> {
    let mut bytes = Vec::new(alloc);
    for text in texts {
        let (text, line_end) = match before_open_end(text) {
            Some(front) => (front, ""),
            None => (*text, line_end),
        };
        bytes.extend_from_slice(decoded(alloc, text)?.as_slice())?;
        bytes.extend_from_slice(line_end.as_bytes())?;
    }
    Ok(bytes)
}

/// A number.
pub(crate) fn number_of<N: FromStr>(word: &str) -> Result<N, Fault>
where
    N::Err: Drop,
{
    word.parse::<N>()
        .map_err(|_| Fault::Form("a number is wanted"))
}

impl<'a> Setup<'a> {
    /// What the fields of a case say.
    pub(crate) fn of_case(alloc: Global, case: &Case<'a>) -> Result<Setup<'a>, Misread> {
        let mut setup = Setup {
            alloc,
            words: Vec::new(alloc),
            states: Vec::new(alloc),
            input: Vec::new(alloc),
            origins: Vec::new(alloc),
            has_origins: true,
            moments: Vec::new(alloc),
            cuts: Vec::new(alloc),
            each_cut: false,
            failing: Vec::new(alloc),
            each_failing: Vec::new(alloc),
        };
        setup.begin(case).map_err(|fault| case.misread(fault))?;
        for field in &case.fields {
            setup.add(field).map_err(|fault| fault.at(field.line))?;
        }
        Ok(setup)
    }

    /// Puts what holds where the case doesn't say else.
    fn begin(&mut self, case: &Case<'a>) -> Result<(), Fault> {
        self.states.push(Vec::new(self.alloc))?;
        if !case.has(Key::Words) {
            self.words.extend_from_slice(&PASS)?;
        }
        if !case.has(Key::Clock) {
            self.moments.push(MOMENT)?;
        }
        Ok(())
    }

    /// Takes up what a field says.
    fn add(&mut self, field: &CaseField<'a>) -> Result<(), Fault> {
        let (alloc, texts) = (self.alloc, field.texts.as_slice());
        match field.key {
            Key::File(name) => self.add_file(name, text_bytes(alloc, texts, "\n")?),
            Key::Turn => Ok(self.states.push(Vec::new(alloc))?),
            Key::Words => {
                self.words = field.words.split_whitespace().collect(alloc)?;
                Ok(())
            }
            Key::In => {
                self.input = text_bytes(alloc, texts, "\r\n")?;
                Ok(())
            }
            Key::Origin => self.add_origins(field.words, text_bytes(alloc, texts, "\r\n")?),
            Key::Clock => {
                for word in field.words.split_whitespace() {
                    self.moments.push(number_of(word)?)?;
                }
                Ok(())
            }
            Key::Cuts => self.add_cuts(field.words),
            Key::Fails => self.add_failing(field.words),
            Key::Failed | Key::Out | Key::Err | Key::Status => Ok(()),
            Key::Sent | Key::End | Key::Notes => Ok(()),
        }
    }

    fn add_file(&mut self, name: &'a str, bytes: Vec<u8>) -> Result<(), Fault> {
        match self.states.last_mut() {
            Some(state) => Ok(state.push(NamedFile { name, bytes })?),
            None => Err(Fault::Form("the file belongs to no configuration")),
        }
    }

    /// A text, for one dial or so many; or `no-name` or `not-reached`; or `missing` where the file ORIGIN isn't there.
    fn add_origins(&mut self, words: &str, bytes: Vec<u8>) -> Result<(), Fault> {
        match words {
            "" => Ok(self.origins.push(Origin::Link(bytes))?),
            "no-name" => Ok(self.origins.push(Origin::NoName)?),
            "not-reached" => Ok(self.origins.push(Origin::NotReached)?),
            "missing" => {
                self.has_origins = false;
                Ok(())
            }
            times => {
                for _ in 0..number_of::<u64>(times)? {
                    let bytes = Vec::from_slice(self.alloc, bytes.as_slice())?;
                    self.origins.push(Origin::Link(bytes))?;
                }
                Ok(())
            }
        }
    }

    /// `each`, or a device and the sizes of its calls.
    fn add_cuts(&mut self, words: &str) -> Result<(), Fault> {
        let (device, sizes) = words.split_once(' ').unwrap_or((words, ""));
        if device == "each" {
            self.each_cut = true;
            return Ok(());
        }
        let mut cuts = Cuts {
            device: Device::by_name(device)?,
            sizes: Vec::new(self.alloc),
        };
        for word in sizes.split_whitespace() {
            cuts.sizes.push(number_of(word)?)?;
        }
        Ok(self.cuts.push(cuts)?)
    }

    /// `each` and a device; or a device and the number of a call, and for a link `of` and the number of its dial.
    fn add_failing(&mut self, words: &str) -> Result<(), Fault> {
        let words: Vec<&str> = words.split_whitespace().collect(self.alloc)?;
        match words.as_slice() {
            ["each", device] => Ok(self.each_failing.push(Device::by_name(device)?)?),
            [device, call] => self.add_call(Device::by_name(device)?, call, "0"),
            [device, call, "of", dial] => self.add_call(Device::by_name(device)?, call, dial),
            _ => Err(Fault::Form(
                "`each DEVICE`, `DEVICE CALL` or `DEVICE CALL of DIAL` is wanted",
            )),
        }
    }

    fn add_call(&mut self, device: Device, call: &str, dial: &str) -> Result<(), Fault> {
        Ok(
            self.failing.push(Failing {
                device,
                call: number_of(call)?,
                dial: number_of(if device.is_dial() { call } else { dial })?,
            })?,
        )
    }

    /// Whether the command is `pass`.
    pub(crate) fn is_pass(&self) -> bool {
        self.words.first().copied() == Some("pass")
    }

    /// Whether the command can be run so: its links are read and written whole, and it has one configuration.
    pub(crate) fn is_command(&self) -> bool {
        let mut devices = self
            .cuts
            .iter()
            .map(|cuts| cuts.device)
            .chain(self.failing.iter().map(|failing| failing.device));
        self.states.len() == 1 && !devices.any(|device| device.is_dialled())
    }
}
