// The page of what the configuration does to a URL.
ghost use Rattle.std.specs.Prelude.{◌≡◌, ◌≢◌, IfErr, IfOk, Ok, OnOk};
ghost use Rattle.percent_encoding.specs.Percent.{percent_decode};
ghost use Rattle.px_patterns.specs.Faults.{IsUrlRefusal};
ghost use Rattle.px_patterns.specs.Urls.{url_of};
ghost use Rattle.px_pages.specs.Pages.{refused_page, url_asked, url_fault_line, url_info_page};

use itoa::Buffer;
use px_base::{Mem, Text};
use px_config::{Config, InsidePage};
use px_decide::decoded;
use px_patterns::{Url, UrlFault};
use px_show::show;
use std::alloc::Global;

/// `/show-url-info?url=` and a text: what `show` prints of the URL for which the text stands, with the client's tags; or why the text
/// is no URL.
pub(crate) fn show_url_info(
    alloc: Global,
    config: &Config,
    text: &[u8],
    tags: &[Text],
) -> Result<InsidePage, Mem>
    ensures { IfOk result (λ page. page ≡ url_info_page config.now tags.now text.now) }
{
    match read_url(alloc, text) {
        Ok(url) => Ok(InsidePage {
            found: true,
            body: show(alloc, config, &url, tags)?,
        }),
        Err(fault) => refused_page(alloc, fault),
    }
}

/// The URL for which a text stands as it is, or else once its escapes are read: a browser's own address is shown as it was sent.
fn read_url(alloc: Global, text: &[u8]) -> Result<Url, UrlFault>
    ensures url { IfOk result (λ url. url_asked text.now ≡ Ok url) }
    ensures refused { IfErr result (IsUrlRefusal (url_asked text.now)) }
{
    match Url::read(alloc, text) {
        Ok(url) => Ok(url),
        Err(UrlFault::Mem) => Err(UrlFault::Mem),
        Err(_) => read_decoded(alloc, text),
    }
}

/// The URL for which a text stands once its escapes are read.
fn read_decoded(alloc: Global, text: &[u8]) -> Result<Url, UrlFault>
    ensures url { IfOk result (λ url. url_of (percent_decode text.now) ≡ Ok url) }
    ensures refused { IfErr result (IsUrlRefusal (url_of (percent_decode text.now))) }
{
    match decoded(alloc, text) {
        Ok(decoded) => Url::read(alloc, decoded.as_bytes()),
        Err(Mem) => Err(UrlFault::Mem),
    }
}

/// Why a text is no URL.
fn refused_page(alloc: Global, fault: UrlFault) -> Result<InsidePage, Mem>
    ensures refusal { OnOk result (fault ≢ UrlFault.Mem) }
    ensures page { IfOk result (λ page. page ≡ refused_page fault) }
{
    if fault == UrlFault::Mem {
        return Err(Mem);
    }
    let body = url_fault_line(alloc, fault)?;
    Ok(InsidePage { found: false, body })
}

/// Why a text is no URL, as a line: NUMBER NAME.
pub fn url_fault_line(alloc: Global, fault: UrlFault) -> Result<Text, Mem>
    requires { fault ≢ UrlFault.Mem }
    ensures { IfOk result (λ text. text ≡ url_fault_line fault) }
{
    let mut text = Text::from_bytes(alloc, Buffer::new().format(fault.number()).as_bytes())?;
    text.push(b' ')?;
    text.push_all(fault.name().as_bytes())?;
    text.push(b'\n')?;
    Ok(text)
}
