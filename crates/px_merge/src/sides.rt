// The two sides of an exchange, and what is asked of patterns.
use px_base::Text;
use px_patterns::Url;

/// Whose tags are absent: those of a request or those of its response.
#[derive(Clone, Copy, Debug, PartialEq, Eq)]
pub enum Side {
    Request,
    Response,
}

/// What is asked of patterns for tags.
#[derive(Clone, Copy)]
pub enum TagTest<'t> {
    /// Whether a TAG pattern matches this tag.
    Present(&'t [u8]),
    /// Whether a NO-REQUEST-TAG pattern, or for the response a NO-RESPONSE-TAG pattern, matches none of these tags.
    Absent(Side, &'t [Text]),
}

/// What is asked of patterns for a URL: whether a URL pattern matches it, or a CLIENT-TAG pattern one of the client's tags.
#[derive(Drop)]
pub struct UrlTest<'t> {
    pub url: &'t Url,
    pub tags: &'t [Text],
}
