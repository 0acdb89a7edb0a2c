// The directives of the main file, and its lines.
ghost use Rattle.std.specs.Prelude.{◌≡◌, OnOk, option_copied};
ghost use Rattle.px_config.specs.Directives.{list_file_given, name_in, value_given, value_in, with_given_value};
ghost use Rattle.px_config.specs.Mains.{directive_of, row_of};
ghost use Rattle.px_config.specs.Names.{or_else};
ghost use Rattle.px_base.specs.Lists.{nonempty};

use px_base::{List, Mem, Text, same_without_case, trim, white_place};
use std::alloc::Global;

/// A directive of the main file (Privoxy's manual, "The Main Configuration File").
#[derive(Clone, Copy, Debug, PartialEq, Eq)]
pub(crate) enum Directive {
    /// `actionsfile`: a file's name.
    ActionsFile,
    /// `filterfile`: a file's name.
    FilterFile,
    /// `host-list`: the name of a file of hosts, and the reason for which they are blocked.
    HostList,
    /// `confdir`: a folder's name.
    Confdir,
    /// `templdir`: a folder's name.
    Templdir,
    /// `listen-address`: a host, and optionally a colon and a port.
    ListenAddress,
    /// `buffer-limit`: kilobytes.
    BufferLimit,
    /// `forward`: a pattern and a parent.
    Forward,
    /// `forward-socks5`: a pattern, a SOCKS server and a parent.
    ForwardSocks5,
    /// `forward-socks5t`: a pattern, a SOCKS server and a parent.
    ForwardSocks5t,
    /// `forward-socks4`: refused.
    ForwardSocks4,
    /// `forward-socks4a`: refused.
    ForwardSocks4a,
    /// `handle-as-empty-doc-returns-ok`: 0 or 1.
    EmptyReturnsOk,
    /// `toggle`: 0 or 1.
    Toggle,
    /// `link-reuse`: 0 or 1.
    LinkReuse,
    /// `access-log`: 0 or 1.
    AccessLog,
    /// `pattern-limit`: how many patterns all action files may have.
    PatternLimit,
    /// `client-specific-tag`: a name and a description.
    ClientTag,
}

/// All directives.
pub(crate) const DIRECTIVES: [Directive; 18] = [
    Directive::ActionsFile,
    Directive::FilterFile,
    Directive::HostList,
    Directive::Confdir,
    Directive::Templdir,
    Directive::ListenAddress,
    Directive::BufferLimit,
    Directive::Forward,
    Directive::ForwardSocks5,
    Directive::ForwardSocks5t,
    Directive::ForwardSocks4,
    Directive::ForwardSocks4a,
    Directive::EmptyReturnsOk,
    Directive::Toggle,
    Directive::LinkReuse,
    Directive::AccessLog,
    Directive::PatternLimit,
    Directive::ClientTag,
];

impl Directive {
    #[tactic(auto, unfolding(crate::specs::Mains::row_of))]
    pub(crate) fn name(self) -> &'static str
        ensures { result.now ≡ (row_of self).name }
    {
        match self {
            Directive::ActionsFile => "actionsfile",
            Directive::FilterFile => "filterfile",
            Directive::HostList => "host-list",
            Directive::Confdir => "confdir",
            Directive::Templdir => "templdir",
            Directive::ListenAddress => "listen-address",
            Directive::BufferLimit => "buffer-limit",
            Directive::Forward => "forward",
            Directive::ForwardSocks5 => "forward-socks5",
            Directive::ForwardSocks5t => "forward-socks5t",
            Directive::ForwardSocks4 => "forward-socks4",
            Directive::ForwardSocks4a => "forward-socks4a",
            Directive::EmptyReturnsOk => "handle-as-empty-doc-returns-ok",
            Directive::Toggle => "toggle",
            Directive::LinkReuse => "link-reuse",
            Directive::AccessLog => "access-log",
            Directive::PatternLimit => "pattern-limit",
            Directive::ClientTag => "client-specific-tag",
        }
    }

    /// The directive of a name, which is compared without case.
    #[tactic(auto, unfolding(crate::specs::Mains::directive_of))]
    pub(crate) fn of(name: &[u8]) -> Option<Directive>
        ensures { result ≡ directive_of name.now }
    {
        DIRECTIVES.iter().copied().find(|directive| same_without_case(
            name,
            directive.name().as_bytes(),
        ))
    }
}

/// The name of a line's directive, and its value, which is empty where there is none.
#[tactic(auto, using(crate::proofs::DirectiveLemmas::split_rules))]
pub(crate) fn split_directive(line: &[u8]) -> (&[u8], &[u8])
    ensures name { result.0.now ≡ name_in line.now }
    ensures value { result.1.now ≡ value_in line.now }
{
    match white_place(line) {
        Some(at) => (&line[..at], trim(&line[at + 1..])),
        None => (line, &[]),
    }
}

fn nonempty(value: &[u8]) -> Option<&[u8]>
    ensures { option_copied result ≡ nonempty value.now }
{
    if value.is_empty() { None } else { Some(value) }
}

/// The value that a line's name and value give for a directive, if they are of it and there is one.
fn value_given<'v>(word: &[u8], name: &[u8], value: &'v [u8]) -> Option<&'v [u8]>
    ensures { option_copied result ≡ value_given word.now name.now value.now }
{
    if same_without_case(name, word) {
        nonempty(value)
    } else {
        None
    }
}

/// Adds the value of a directive, if a line of this name and value gives one.
pub(crate) fn add_value(
    alloc: Global,
    word: &[u8],
    name: &[u8],
    value: &[u8],
    values: &mut List<Text>,
) -> Result<(), Mem>
    ensures { OnOk result (values.new ≡ with_given_value values.old (value_given word.now name.now value.now)) }
{
    match value_given(word, name, value) {
        Some(value) => values.add(Text::from_bytes(alloc, value)?),
        None => Ok(()),
    }
}

/// Adds the name of the file of a list of hosts, if a line of this name and value gives one.
pub(crate) fn add_list_file(
    alloc: Global,
    name: &[u8],
    value: &[u8],
    files: &mut List<Text>,
) -> Result<(), Mem>
    ensures { OnOk result (files.new ≡ with_given_value files.old (list_file_given name.now value.now)) }
{
    match value_given(b"host-list", name, value) {
        Some(value) => {
            let (file, _) = split_directive(value);
            files.add(Text::from_bytes(alloc, file)?)
        }
        None => Ok(()),
    }
}

/// Keeps the value of a directive, if a line of this name and value gives one.
pub(crate) fn keep_value(
    alloc: Global,
    word: &[u8],
    name: &[u8],
    value: &[u8],
    last: &mut Option<Text>,
) -> Result<(), Mem>
    ensures { OnOk result (last.new ≡ or_else (value_given word.now name.now value.now) last.old) }
{
    if let Some(value) = value_given(word, name, value) {
        *last = Some(Text::from_bytes(alloc, value)?);
    }
    Ok(())
}
