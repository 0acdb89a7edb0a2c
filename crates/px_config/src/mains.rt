// What the lines of the main file set.
ghost use Rattle.std.specs.Prelude.{◌≡◌, ◌≤◌, None, Ok, Some, IfErr, IfOk, OnOk, codes};
ghost use Rattle.px_action_files.specs.Faults.{IsReported};
ghost use Rattle.std.specs.List.{list_any};
ghost use Rattle.std.specs.Str.{bytes_eq};
ghost use Rattle.px_base.specs.Numbers.{decimal};
ghost use Rattle.px_decide.specs.Forwards.{forward_line, socks_line};
ghost use Rattle.px_config.specs.Mains.{address_or, directive_of, main_of, nothing_set, one_more, main_parts, row_of, seen_fault, switch, with_address, with_directive, with_forward, with_line, with_note, adds_forward, adds_list, adds_tag, listens};

use crate::addresses::{DEFAULT_PORT, read_address};
use crate::directives::{Directive, split_directive};
use crate::faults::{BAD_VALUE, TOO_LARGE};
use crate::names::FILES_OF_A_KIND;
use crate::settings::{ListLine, MainParts, Note, Settings};
use px_action_files::FileFault;
use px_base::{List, Mem, Text, as_text, read_decimal};
use px_decide::{ForwardFault, Forwards};
use px_text::Line;
use std::alloc::Global;

/// The value that switches something off.
const OFF: &[u8] = b"0";

/// The value that switches something on.
const ON: &[u8] = b"1";

/// The most kilobytes of the buffer limit.
const MOST_KILOBYTES: u64 = 16_384;

/// The buffer limit where no line sets one, in kilobytes.
const DEFAULT_KILOBYTES: u64 = 4096;

/// The most patterns that the limit on them may allow.
pub(crate) const MOST_PATTERNS: u64 = 40_000;

/// The limit on patterns where no line sets one.
pub(crate) const DEFAULT_PATTERNS: u64 = 20_000;

/// The host on which connections are taken where no line gives one.
const DEFAULT_HOST: &[u8] = b"127.0.0.1";

/// The bytes of a kilobyte.
const KILOBYTE: u64 = 1024;

/// Where connections are taken.
#[derive(Drop)]
pub(crate) struct Address {
    /// The host, without brackets.
    pub(crate) host: Text,
    pub(crate) port: u16,
}

/// What the lines of the main file set so far.
#[derive(Drop)]
pub(crate) struct Main {
    /// The first `listen-address`.
    pub(crate) listen: Option<Address>,
    pub(crate) buffer_limit: u64,
    pub(crate) empty_returns_ok: bool,
    pub(crate) toggle: bool,
    pub(crate) sharing: bool,
    pub(crate) access_log: bool,
    pub(crate) pattern_limit: u64,
    pub(crate) tags: List<Text>,
    pub(crate) forwards: Forwards,
    /// How many lines name an actions file, and how many a filter file.
    pub(crate) action_files: usize,
    pub(crate) filter_files: usize,
    /// The lists of hosts.
    pub(crate) lists: List<ListLine>,
    pub(crate) notes: List<Note>,
}

/// The refusal of a line whose value is of another form.
fn bad_value(line: u32) -> FileFault
    ensures { result ≡ FileFault.At line 29 }
{
    FileFault::At {
        line,
        number: BAD_VALUE,
    }
}

/// The refusal of a forward line at a line.
fn forward_fault(line: u32, fault: ForwardFault) -> FileFault
    ensures { result ≡ seen_fault line fault }
{
    match fault {
        ForwardFault::Bad => bad_value(line),
        ForwardFault::Pattern(number) => FileFault::At { line, number },
        ForwardFault::Mem => FileFault::Mem,
    }
}

/// 0 or 1.
fn read_switch(line: u32, value: &[u8]) -> Result<bool, FileFault>
    ensures on { IfOk result (λ on. switch value.now ≡ Some on) }
    ensures refused { IfErr result (λ fault. (switch value.now ≡ None) × (fault ≡ FileFault.At line 29)) }
{
    if value == OFF {
        Ok(false)
    } else if value == ON {
        Ok(true)
    } else {
        Err(bad_value(line))
    }
}

/// A decimal number up to a most.
fn read_number(line: u32, value: &[u8], most: u64) -> Result<u64, FileFault>
    ensures number { IfOk result (λ number. decimal most value.now ≡ Some number) }
    ensures within { IfOk result (λ number. number ≤ most) }
    ensures refused { IfErr result (λ fault. (decimal most value.now ≡ None) × (fault ≡ FileFault.At line 29)) }
{
    match read_decimal(value, most) {
        Some(number) => Ok(number),
        None => Err(bad_value(line)),
    }
}

/// One file more of a kind. The seventeenth is refused.
fn one_more(line: u32, count: usize) -> Result<usize, FileFault>
    ensures more { IfOk result (λ more. one_more line count ≡ Ok more) }
    ensures refused { IfErr result (IsReported (one_more line count)) }
{
    if count < FILES_OF_A_KIND {
        Ok(count + 1)
    } else {
        Err(FileFault::At {
            line,
            number: TOO_LARGE,
        })
    }
}

/// The address, or the one where no line gives one.
fn address_or(alloc: Global, listen: Option<Address>) -> Result<Address, Mem>
    ensures { IfOk result (λ address. address ≡ address_or listen) }
{
    match listen {
        Some(address) => Ok(address),
        None => Ok(Address {
            host: Text::from_bytes(alloc, DEFAULT_HOST)?,
            port: DEFAULT_PORT,
        }),
    }
}

impl Main {
    /// Nothing is set.
    fn begin(alloc: Global) -> Main
        ensures { result ≡ nothing_set }
    {
        Main {
            listen: None,
            buffer_limit: DEFAULT_KILOBYTES * KILOBYTE,
            empty_returns_ok: false,
            toggle: true,
            sharing: false,
            access_log: false,
            pattern_limit: DEFAULT_PATTERNS,
            tags: List::new(alloc),
            forwards: Forwards::empty(alloc),
            action_files: 0,
            filter_files: 0,
            lists: List::new(alloc),
            notes: List::new(alloc),
        }
    }

    /// Reads the lines of the main file (Privoxy's manual, "The Main Configuration File"). The first line that is refused
    /// is answered.
    #[tactic(auto, unfolding(crate::specs::Mains::with_lines))]
    pub(crate) fn read(alloc: Global, file: &[u8], lines: &[Line]) -> Result<Main, FileFault>
        ensures main { IfOk result (λ main. main_of file.now lines.now ≡ Ok main) }
        ensures refused { IfErr result (IsReported (main_of file.now lines.now)) }
    {
        let mut main = Main::begin(alloc);
        let mut rest = lines;
        'lines: while let Some((line, others)) = rest.split_first() {
            match main.add(alloc, file, line) {
                Ok(()) => {}
                Err(fault) => return Err(fault),
            }
            rest = others;
        }
        Ok(main)
    }

    /// What the lines give.
    pub(crate) fn into_parts(self, alloc: Global) -> Result<MainParts, Mem>
        ensures { IfOk result (λ parts. parts ≡ main_parts self) }
    {
        let Main {
            listen,
            buffer_limit,
            empty_returns_ok,
            toggle,
            sharing,
            access_log,
            pattern_limit,
            tags,
            forwards,
            action_files: _,
            filter_files: _,
            lists,
            notes,
        } = self;
        let address = address_or(alloc, listen)?;
        Ok(MainParts {
            settings: Settings {
                listen_host: address.host,
                listen_port: address.port,
                buffer_limit,
                empty_returns_ok,
                toggle,
                sharing,
                access_log,
                pattern_limit,
                tags,
            },
            forwards,
            lists,
            notes,
        })
    }

    /// Adds what a line sets.
    #[tactic(auto, unfolding(crate::specs::Mains::with_line))]
    fn add(&mut self, alloc: Global, file: &[u8], line: &Line) -> Result<(), FileFault>
        ensures added { OnOk result (with_line file.now self.old line.now ≡ Ok self.new) }
        ensures refused { IfErr result (IsReported (with_line file.now self.old line.now)) }
    {
        let (name, value) = split_directive(line.text.as_bytes());
        self.add_directive(alloc, file, line.number, name, value)
    }

    /// Adds what a directive sets. One that isn't known is ignored with a note, and another without a value is refused.
    fn add_directive(
        &mut self,
        alloc: Global,
        file: &[u8],
        line: u32,
        name: &[u8],
        value: &[u8],
    ) -> Result<(), FileFault>
        ensures added { OnOk result (with_directive file.now line self.old name.now value.now (directive_of name.now) ≡ Ok self.new) }
        ensures refused { IfErr result (IsReported (with_directive file.now line self.old name.now value.now (directive_of name.now))) }
    {
        match Directive::of(name) {
            Some(directive) => {
                if value.is_empty() {
                    return Err(bad_value(line));
                }
                self.set(alloc, file, line, value, directive)
            }
            None => {
                let mut text = Text::from_bytes(alloc, b"directive ignored: ")?;
                text.push_all(name)?;
                self.note(alloc, file, line, text)?;
                Ok(())
            }
        }
    }

    /// Adds what a line of a directive sets: one arm a row of the table.
    #[tactic(auto, unfolding(crate::specs::Mains::row_of))]
    fn set(
        &mut self,
        alloc: Global,
        file: &[u8],
        line: u32,
        value: &[u8],
        directive: Directive,
    ) -> Result<(), FileFault>
        ensures added { OnOk result ((row_of directive).effect file.now line self.old value.now ≡ Ok self.new) }
        ensures refused { IfErr result (IsReported ((row_of directive).effect file.now line self.old value.now)) }
    {
        match directive {
            Directive::ActionsFile => {
                self.action_files = one_more(line, self.action_files)?;
                Ok(())
            }
            Directive::FilterFile => {
                self.filter_files = one_more(line, self.filter_files)?;
                Ok(())
            }
            Directive::HostList => self.add_list(alloc, line, value),
            Directive::Confdir => Ok(()),
            Directive::Templdir => Ok(()),
            Directive::ListenAddress => self.add_address(alloc, file, line, value),
            Directive::BufferLimit => {
                self.buffer_limit = read_number(line, value, MOST_KILOBYTES)? * KILOBYTE;
                Ok(())
            }
            Directive::Forward => self.add_forward(line, value),
            Directive::ForwardSocks5 => self.add_socks(line, value),
            Directive::ForwardSocks5t => self.add_socks(line, value),
            Directive::ForwardSocks4 => Err(bad_value(line)),
            Directive::ForwardSocks4a => Err(bad_value(line)),
            Directive::EmptyReturnsOk => {
                self.empty_returns_ok = read_switch(line, value)?;
                Ok(())
            }
            Directive::Toggle => {
                self.toggle = read_switch(line, value)?;
                Ok(())
            }
            Directive::LinkReuse => {
                self.sharing = read_switch(line, value)?;
                Ok(())
            }
            Directive::AccessLog => {
                self.access_log = read_switch(line, value)?;
                Ok(())
            }
            Directive::PatternLimit => {
                self.pattern_limit = read_number(line, value, MOST_PATTERNS)?;
                Ok(())
            }
            Directive::ClientTag => self.add_tag(alloc, line, value),
        }
    }

    fn note(&mut self, alloc: Global, file: &[u8], line: u32, text: Text) -> Result<(), Mem>
        ensures { OnOk result (self.new ≡ with_note file.now line text self.old) }
    {
        self.notes.add(Note {
            file: Text::from_bytes(alloc, file)?,
            line,
            text,
        })
    }

    /// The first address is set, and a later one is noted.
    fn add_address(
        &mut self,
        alloc: Global,
        file: &[u8],
        line: u32,
        value: &[u8],
    ) -> Result<(), FileFault>
        ensures added { OnOk result (listens file.now line self.old value.now ≡ Ok self.new) }
        ensures refused { IfErr result (IsReported (listens file.now line self.old value.now)) }
    {
        match read_address(value) {
            Ok(address) => {
                self.put_address(alloc, file, line, address.host, address.port)?;
                Ok(())
            }
            Err(number) => Err(FileFault::At { line, number }),
        }
    }

    /// Notes a `listen-address` behind the first.
    fn note_ignored(&mut self, alloc: Global, file: &[u8], line: u32) -> Result<(), Mem>
        ensures { OnOk result (self.new ≡ with_note file.now line (codes "listen-address ignored") self.old) }
    {
        let text = Text::from_bytes(alloc, b"listen-address ignored")?;
        self.note(alloc, file, line, text)
    }

    fn put_address(
        &mut self,
        alloc: Global,
        file: &[u8],
        line: u32,
        host: &[u8],
        port: u16,
    ) -> Result<(), Mem>
        ensures { OnOk result (with_address file.now line self.old self.old.listen (Ok (record { host = host.now; port_number = port })) ≡ Ok self.new) }
    {
        match &self.listen {
            Some(_first) => self.note_ignored(alloc, file, line),
            None => {
                self.listen = Some(Address {
                    host: Text::from_bytes(alloc, host)?,
                    port,
                });
                Ok(())
            }
        }
    }

    fn add_forward(&mut self, line: u32, value: &[u8]) -> Result<(), FileFault>
        ensures added { OnOk result (adds_forward forward_line line self.old value.now ≡ Ok self.new) }
        ensures refused { IfErr result (IsReported (adds_forward forward_line line self.old value.now)) }
    {
        match as_text(value) {
            Some(text) => self.add_forward_text(line, text),
            None => Err(bad_value(line)),
        }
    }

    #[tactic(auto, using(crate::proofs::MainLemmas::forward_rules))]
    fn add_forward_text(&mut self, line: u32, value: &str) -> Result<(), FileFault>
        ensures added { OnOk result (with_forward line self.old (forward_line value.now) ≡ Ok self.new) }
        ensures refused { IfErr result (IsReported (with_forward line self.old (forward_line value.now))) }
    {
        match self.forwards.add(value) {
            Ok(()) => Ok(()),
            Err(fault) => Err(forward_fault(line, fault)),
        }
    }

    fn add_socks(&mut self, line: u32, value: &[u8]) -> Result<(), FileFault>
        ensures added { OnOk result (adds_forward socks_line line self.old value.now ≡ Ok self.new) }
        ensures refused { IfErr result (IsReported (adds_forward socks_line line self.old value.now)) }
    {
        match as_text(value) {
            Some(text) => self.add_socks_text(line, text),
            None => Err(bad_value(line)),
        }
    }

    #[tactic(auto, using(crate::proofs::MainLemmas::forward_rules))]
    fn add_socks_text(&mut self, line: u32, value: &str) -> Result<(), FileFault>
        ensures added { OnOk result (with_forward line self.old (socks_line value.now) ≡ Ok self.new) }
        ensures refused { IfErr result (IsReported (with_forward line self.old (socks_line value.now))) }
    {
        match self.forwards.add_socks(value) {
            Ok(()) => Ok(()),
            Err(fault) => Err(forward_fault(line, fault)),
        }
    }

    /// Adds a tag: a name, white space and a description. A name that stands twice is refused.
    fn add_tag(&mut self, alloc: Global, line: u32, value: &[u8]) -> Result<(), FileFault>
        ensures added { OnOk result (adds_tag line self.old value.now ≡ Ok self.new) }
        ensures refused { IfErr result (IsReported (adds_tag line self.old value.now)) }
    {
        let (name, description) = split_directive(value);
        if description.is_empty() || has_tag(self.tags.as_slice(), name) {
            return Err(bad_value(line));
        }
        self.tags.add(Text::from_bytes(alloc, name)?)?;
        Ok(())
    }

    /// Adds a list of hosts: a file's name, white space and a reason. The seventeenth is refused.
    fn add_list(&mut self, alloc: Global, line: u32, value: &[u8]) -> Result<(), FileFault>
        ensures added { OnOk result (adds_list line self.old value.now ≡ Ok self.new) }
        ensures refused { IfErr result (IsReported (adds_list line self.old value.now)) }
    {
        let (name, reason) = split_directive(value);
        if reason.is_empty() {
            return Err(bad_value(line));
        }
        if self.lists.len() >= FILES_OF_A_KIND {
            return Err(FileFault::At {
                line,
                number: TOO_LARGE,
            });
        }
        self.lists.add(ListLine {
            number: line,
            name: Text::from_bytes(alloc, name)?,
            reason: Text::from_bytes(alloc, reason)?,
        })?;
        Ok(())
    }
}

/// Whether a tag is among some.
fn has_tag(tags: &[Text], name: &[u8]) -> bool
    ensures { result ≡ list_any (λ tag. bytes_eq tag name.now) tags.now }
{
    tags.iter().any(|tag| tag.as_bytes() == name)
}
