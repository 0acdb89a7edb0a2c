// The pages that are returned in place of an answer.
ghost use Rattle.std.specs.Prelude.{◌≡◌, Some, slice_get};
ghost use Rattle.px_templates.specs.Pages.{built_in, page_name, page_rank, page_status};

/// A page that is returned in place of an answer.
#[derive(Clone, Copy, Debug, PartialEq, Eq)]
pub enum Page {
    /// The request is blocked.
    Blocked,
    /// The origin wasn't reached.
    ConnectFailed,
    /// The origin's name wasn't found.
    NoSuchDomain,
    /// The parent wasn't reached.
    ForwardingFailed,
    /// The answer has no head.
    NoServerData,
    /// The request was refused.
    InvalidRequest,
    /// The request's head is longer than a head may be.
    HeadTooLong,
    /// The answer was refused.
    BadReply,
    /// The request couldn't be sent on.
    SendFailed,
    /// A tunnel to this port isn't allowed.
    ConnectDenied,
    /// A rewritten request line is no request line.
    BadRewrite,
}

/// All pages.
pub const PAGES: [Page; 11] = [
    Page::Blocked,
    Page::ConnectFailed,
    Page::NoSuchDomain,
    Page::ForwardingFailed,
    Page::NoServerData,
    Page::InvalidRequest,
    Page::HeadTooLong,
    Page::BadReply,
    Page::SendFailed,
    Page::ConnectDenied,
    Page::BadRewrite,
];

impl Page {
    /// The name of the file that holds the page's template.
    pub fn name(self) -> &'static str
        ensures { result.now ≡ page_name self }
    {
        match self {
            Page::Blocked => "blocked",
            Page::ConnectFailed => "connect-failed",
            Page::NoSuchDomain => "no-such-domain",
            Page::ForwardingFailed => "forwarding-failed",
            Page::NoServerData => "no-server-data",
            Page::InvalidRequest => "invalid-request",
            Page::HeadTooLong => "head-too-long",
            Page::BadReply => "bad-reply",
            Page::SendFailed => "send-failed",
            Page::ConnectDenied => "connect-denied",
            Page::BadRewrite => "bad-rewrite",
        }
    }

    /// The status of the page and its phrase, as they stand behind the version in the status line.
    pub fn status(self) -> &'static str
        ensures { result.now ≡ page_status self }
    {
        match self {
            Page::Blocked => "403 Forbidden",
            Page::ConnectFailed => "503 Service Unavailable",
            Page::NoSuchDomain => "404 Not Found",
            Page::ForwardingFailed => "503 Service Unavailable",
            Page::NoServerData => "502 Bad Gateway",
            Page::InvalidRequest => "400 Bad Request",
            Page::HeadTooLong => "431 Request Header Fields Too Large",
            Page::BadReply => "502 Bad Gateway",
            Page::SendFailed => "502 Bad Gateway",
            Page::ConnectDenied => "403 Forbidden",
            Page::BadRewrite => "500 Internal Server Error",
        }
    }

    /// Where the page stands among all pages.
    pub fn rank(self) -> usize
        ensures rank { result ≡ page_rank self }
        ensures listed { slice_get PAGES result ≡ Some self }
    {
        match self {
            Page::Blocked => 0,
            Page::ConnectFailed => 1,
            Page::NoSuchDomain => 2,
            Page::ForwardingFailed => 3,
            Page::NoServerData => 4,
            Page::InvalidRequest => 5,
            Page::HeadTooLong => 6,
            Page::BadReply => 7,
            Page::SendFailed => 8,
            Page::ConnectDenied => 9,
            Page::BadRewrite => 10,
        }
    }
}

/// The template of a page where no file holds one.
pub fn built_in(page: Page) -> &'static [u8]
    ensures { result.now ≡ built_in page }
{
    match page {
        Page::Blocked => b"<html><body>blocked: @block-reason@</body></html>\n",
        Page::ConnectFailed => b"<html><body>connect-failed</body></html>\n",
        Page::NoSuchDomain => b"<html><body>no-such-domain</body></html>\n",
        Page::ForwardingFailed => b"<html><body>forwarding-failed</body></html>\n",
        Page::NoServerData => b"<html><body>no-server-data</body></html>\n",
        Page::InvalidRequest => b"<html><body>invalid-request: @error@</body></html>\n",
        Page::HeadTooLong => b"<html><body>head-too-long</body></html>\n",
        Page::BadReply => b"<html><body>bad-reply</body></html>\n",
        Page::SendFailed => b"<html><body>send-failed</body></html>\n",
        Page::ConnectDenied => b"<html><body>connect-denied</body></html>\n",
        Page::BadRewrite => b"<html><body>bad-rewrite</body></html>\n",
    }
}
