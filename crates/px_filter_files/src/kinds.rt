// The parts of a filter file.
ghost use Rattle.std.specs.Prelude.{◌≡◌, ◌≤◌, ◌==◌, not, length, take_while, IfSome};
ghost use Rattle.px_base.specs.Blanks.{is_blank};
ghost use Rattle.px_filter_files.specs.Headings.{keyword_text, kind_of, keyword_at, name_behind_keyword, rank};

use px_base::{is_blank, white_end};

/// What a filter is applied to.
#[derive(Clone, Copy, Debug, PartialEq, Eq)]
pub enum FilterKind {
    /// `FILTER:`, the bodies of answers.
    Content,
    /// `CLIENT-HEADER-FILTER:`, the header lines of requests.
    ClientHeader,
    /// `SERVER-HEADER-FILTER:`, the header lines of answers.
    ServerHeader,
    /// `CLIENT-HEADER-TAGGER:`, the header lines of requests, of which tags are made.
    ClientTagger,
    /// `SERVER-HEADER-TAGGER:`, the header lines of answers, of which tags are made.
    ServerTagger,
}

impl FilterKind {
    pub(crate) fn rank(self) -> u8
        ensures { result ≡ rank self }
    {
        self as u8
    }

    pub(crate) fn is(self, other: FilterKind) -> bool
        ensures { result ≡ (rank self == rank other) }
    {
        self.rank() == other.rank()
    }
}

/// The word with which a part of a filter file begins.
#[derive(Clone, Copy, Debug, PartialEq, Eq)]
pub(crate) enum Keyword {
    Filter,
    ClientHeaderFilter,
    ServerHeaderFilter,
    ClientHeaderTagger,
    ServerHeaderTagger,
    ExternalFilter,
    ClientBodyFilter,
    ClientBodyTagger,
}

/// The keywords, in the order in which they are looked for. No two begin alike.
const KEYWORDS: [Keyword; 8] = [
    Keyword::Filter,
    Keyword::ClientHeaderFilter,
    Keyword::ServerHeaderFilter,
    Keyword::ClientHeaderTagger,
    Keyword::ServerHeaderTagger,
    Keyword::ExternalFilter,
    Keyword::ClientBodyFilter,
    Keyword::ClientBodyTagger,
];

impl Keyword {
    fn word(self) -> &'static [u8]
        ensures { result.now ≡ keyword_text self }
    {
        match self {
            Keyword::Filter => b"FILTER:",
            Keyword::ClientHeaderFilter => b"CLIENT-HEADER-FILTER:",
            Keyword::ServerHeaderFilter => b"SERVER-HEADER-FILTER:",
            Keyword::ClientHeaderTagger => b"CLIENT-HEADER-TAGGER:",
            Keyword::ServerHeaderTagger => b"SERVER-HEADER-TAGGER:",
            Keyword::ExternalFilter => b"EXTERNAL-FILTER:",
            Keyword::ClientBodyFilter => b"CLIENT-BODY-FILTER:",
            Keyword::ClientBodyTagger => b"CLIENT-BODY-TAGGER:",
        }
    }

    /// The kind of the filter that begins, or None for a part whose lines aren't read.
    fn kind(self) -> Option<FilterKind>
        ensures { result ≡ kind_of self }
    {
        match self {
            Keyword::Filter => Some(FilterKind::Content),
            Keyword::ClientHeaderFilter => Some(FilterKind::ClientHeader),
            Keyword::ServerHeaderFilter => Some(FilterKind::ServerHeader),
            Keyword::ClientHeaderTagger => Some(FilterKind::ClientTagger),
            Keyword::ServerHeaderTagger => Some(FilterKind::ServerTagger),
            Keyword::ExternalFilter => None,
            Keyword::ClientBodyFilter => None,
            Keyword::ClientBodyTagger => None,
        }
    }

    /// The keyword with which a line begins. A line with none is a job.
    fn at(text: &[u8]) -> Option<Keyword>
        ensures keyword { result ≡ keyword_at text.now }
        ensures within { IfSome result (λ keyword. length (keyword_text keyword) ≤ length text.now) }
    {
        KEYWORDS
            .iter()
            .copied()
            .find(|keyword| text.starts_with(keyword.word()))
    }

    /// The name behind the keyword, which may be empty.
    fn name(self, text: &[u8]) -> &[u8]
        requires { length (keyword_text self) ≤ length text.now }
        ensures { result.now ≡ name_behind_keyword self text.now }
    {
        let rest = &text[self.word().len()..];
        let start = white_end(rest);
        first_word(&rest[start..])
    }
}

/// A line that begins a part.
#[derive(Clone, Copy)]
pub(crate) struct FilterHeading<'t> {
    /// The kind of the filter that begins, or None for a part whose lines aren't read.
    pub(crate) kind: Option<FilterKind>,
    /// What stands behind the keyword up to white space. It may be empty, which is refused.
    pub(crate) name: &'t [u8],
}

impl<'t> FilterHeading<'t> {
    ghost use Rattle.px_filter_files.specs.Headings.{heading_at};
    ghost use Rattle.px_filter_files.specs.Seen.{heading_seen};

    /// The heading that a line is, or None for a job.
    pub(crate) fn at(text: &'t [u8]) -> Option<FilterHeading<'t>>
        ensures { heading_seen result ≡ heading_at text.now }
    {
        match Keyword::at(text) {
            Some(keyword) => Some(FilterHeading {
                kind: keyword.kind(),
                name: keyword.name(text),
            }),
            None => None,
        }
    }
}

/// The bytes up to white space.
fn first_word(bytes: &[u8]) -> &[u8]
    ensures { result.now ≡ take_while (λ b. not (is_blank b)) bytes.now }
{
    for (at, byte) in bytes.iter().enumerate() {
        if is_blank(*byte) {
            return &bytes[..at];
        }
    }
    bytes
}
