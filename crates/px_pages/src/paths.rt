// What the paths of the proxy's own pages ask for.
ghost use Rattle.std.specs.Prelude.{◌≡◌};

/// What stands before the URL of `/show-url-info`.
const URL_INFO: &[u8] = b"/show-url-info?url=";

/// What a path asks for.
#[derive(Clone, Copy)]
pub(crate) enum AskedPage<'p> {
    /// Which pages there are.
    Index,
    /// What the configuration holds, in numbers.
    Status,
    /// What the configuration does to the URL for which this text stands, once its escapes are read.
    UrlInfo(&'p [u8]),
    /// A page that there isn't.
    Other,
}

impl<'p> AskedPage<'p> {
    ghost use Rattle.px_pages.specs.Paths.{asked_at, seen_page};

    /// What a path asks for, its query and fragment included.
    pub(crate) fn at(path: &'p [u8]) -> AskedPage<'p>
        ensures { seen_page result ≡ asked_at path.now }
    {
        if path == b"/".as_slice() {
            return AskedPage::Index;
        }
        if path == b"/show-status".as_slice() {
            return AskedPage::Status;
        }
        match path.strip_prefix(URL_INFO) {
            Some(text) => AskedPage::UrlInfo(text),
            None => AskedPage::Other,
        }
    }
}
