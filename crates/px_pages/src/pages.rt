// The pages of the proxy's own.
ghost use Rattle.std.specs.Prelude.{◌≡◌, IfOk, codes};
ghost use Rattle.px_pages.specs.Pages.{found_page, index_text, inside_page, is_own, missing_page, page_for};
ghost use Rattle.px_pages.specs.Paths.{asked_at};

use crate::paths::AskedPage;
use crate::statuses::show_status;
use crate::url_infos::show_url_info;
use px_base::{Mem, Text, same_without_case};
use px_config::{Config, InsidePage};
use px_patterns::{DEFAULT_PORT, Url};
use std::alloc::Global;

/// The page that answers a request of that URL, by the configuration of that number, for a client with these tags; `None` where the
/// URL isn't the proxy's own, which takes no memory.
#[tactic(auto, unfolding(crate::specs::Pages::inside_page))]
pub fn inside_page(
    alloc: Global,
    config: &Config,
    number: u64,
    url: &Url,
    tags: &[Text],
) -> Result<Option<InsidePage>, Mem>
    ensures { IfOk result (λ page. page ≡ inside_page config.now number url.now tags.now) }
{
    if !is_own(url) {
        return Ok(None);
    }
    let page = page_at(alloc, config, number, url.path.as_bytes(), tags)?;
    Ok(Some(page))
}

/// Whether a URL is the proxy's own: its host is `config.privoxy.org` or `p.p`, and its port that of HTTP.
pub(crate) fn is_own(url: &Url) -> bool
    ensures { result ≡ is_own url.now }
{
    let host = url.host.as_bytes();
    url.port == DEFAULT_PORT
        && (same_without_case(host, b"config.privoxy.org") || same_without_case(host, b"p.p"))
}

/// The page of a path.
fn page_at(
    alloc: Global,
    config: &Config,
    number: u64,
    path: &[u8],
    tags: &[Text],
) -> Result<InsidePage, Mem>
    ensures { IfOk result (λ page. page ≡ page_for config.now number tags.now (asked_at path.now)) }
{
    match AskedPage::at(path) {
        AskedPage::Index => index_page(alloc),
        AskedPage::Status => show_status(alloc, config, number),
        AskedPage::UrlInfo(text) => show_url_info(alloc, config, text, tags),
        AskedPage::Other => no_page(alloc),
    }
}

/// `/`: which pages there are.
pub(crate) fn index_page(alloc: Global) -> Result<InsidePage, Mem>
    ensures { IfOk result (λ page. page ≡ found_page index_text) }
{
    let body = Text::from_bytes(alloc, b"pages:\n/show-status\n/show-url-info?url=\n")?;
    Ok(InsidePage { found: true, body })
}

/// Any other path: that there is no such page.
fn no_page(alloc: Global) -> Result<InsidePage, Mem>
    ensures { IfOk result (λ page. page ≡ missing_page (codes "no such page\n")) }
{
    let body = Text::from_bytes(alloc, b"no such page\n")?;
    Ok(InsidePage { found: false, body })
}
