// What the main file sets, and notes.
use px_base::{List, Text};
use px_decide::Forwards;

/// What the main file sets (Privoxy's manual, "The Main Configuration File").
#[derive(Drop)]
pub struct Settings {
    /// The host on which connections are taken, without brackets. It is one that this machine alone reaches.
    pub listen_host: Text,
    pub listen_port: u16,
    /// The most bytes of an answer's body, as it came, that are kept to be filtered.
    pub buffer_limit: u64,
    /// Whether the empty document in place of a blocked one has the status 200.
    pub empty_returns_ok: bool,
    /// Whether actions have effect.
    pub toggle: bool,
    /// Whether the requests of one client's connection may share links to an origin; this project's own `link-reuse`.
    pub sharing: bool,
    /// Whether a line is written of each exchange; this project's own `access-log`.
    pub access_log: bool,
    /// The most patterns that all action files may have together; this project's own `pattern-limit`.
    pub pattern_limit: u64,
    /// The names of the tags that clients may have.
    pub tags: List<Text>,
}

/// A remark on a line that has no effect.
#[derive(Drop)]
pub struct Note {
    /// The name of the file as it is written after the directive.
    pub file: Text,
    /// The line's number, from 1.
    pub line: u32,
    pub text: Text,
}

/// A line that names a list of hosts.
#[derive(Drop)]
pub(crate) struct ListLine {
    /// The line's number, from 1.
    pub(crate) number: u32,
    /// The name of the list's file.
    pub(crate) name: Text,
    /// The reason for which its hosts are blocked.
    pub(crate) reason: Text,
}

/// What the main file gives.
#[derive(Drop)]
pub(crate) struct MainParts {
    pub(crate) settings: Settings,
    pub(crate) forwards: Forwards,
    pub(crate) lists: List<ListLine>,
    pub(crate) notes: List<Note>,
}
