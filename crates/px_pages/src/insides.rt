// What gives the pages of the proxy's own: with tags that all clients have, or without.
ghost use Rattle.std.specs.Prelude.{◌≡◌, IfOk, None, if◌then◌else◌};
ghost use Rattle.px_pages.specs.Pages.{inside_page};

use crate::pages::inside_page;
use px_base::{List, Mem, Peer, Text};
use px_config::{Config, Inside, InsidePage, Taking};
use px_patterns::Url;
use std::alloc::Global;

/// The pages for clients that all have the same tags.
#[derive(Drop)]
pub struct Pages {
    pub tags: List<Text>,
}

/// The pages for clients without tags. It takes no memory but for a page.
#[derive(Drop)]
pub struct BarePages;

impl Pages {
    pub fn new(tags: List<Text>) -> Pages
        ensures { result.tags ≡ tags }
    {
        Pages { tags }
    }
}

impl Inside for Pages {
    ghost use Rattle.px_pages.specs.Pages.{FitsPages, IsPaged, pages_state};

    ghost lawful = { IsPaged };

    ghost state = { λ p. pages_state (FitsPages p.tags) };

    fn take(
        &mut self,
        alloc: Global,
        config: &Config,
        number: u64,
        url: &Url,
        page_request: bool,
        _peer: &Peer,
    ) -> Result<Taking, Mem> {
        let tags = self.tags.as_slice();
        Ok(Taking {
            place: 0,
            page: requested_page(alloc, config, number, url, page_request, tags)?,
            tags: copy_tags(alloc, tags)?,
        })
    }

    /// There is none.
    fn logs(&self) -> bool {
        false
    }

    fn log(&mut self, _line: &[u8]) {}
}

impl Inside for BarePages {
    ghost use Rattle.px_pages.specs.Pages.{BareLaw, pages_state};

    ghost lawful = { BareLaw };

    ghost state = { λ p. pages_state BareLaw };

    fn take(
        &mut self,
        alloc: Global,
        config: &Config,
        number: u64,
        url: &Url,
        page_request: bool,
        _peer: &Peer,
    ) -> Result<Taking, Mem> {
        Ok(Taking {
            place: 0,
            page: requested_page(alloc, config, number, url, page_request, &[])?,
            tags: List::new(alloc),
        })
    }

    /// There is none.
    fn logs(&self) -> bool {
        false
    }

    fn log(&mut self, _line: &[u8]) {}
}

/// The page, where one is asked for.
fn requested_page(
    alloc: Global,
    config: &Config,
    number: u64,
    url: &Url,
    page_request: bool,
    tags: &[Text],
) -> Result<Option<InsidePage>, Mem>
    ensures { IfOk result (λ page. page ≡ (if page_request then inside_page config.now number url.now tags.now else None)) }
{
    if page_request {
        inside_page(alloc, config, number, url, tags)
    } else {
        Ok(None)
    }
}

/// Equal tags in the same order.
fn copy_tags(alloc: Global, tags: &[Text]) -> Result<List<Text>, Mem>
    ensures { IfOk result (λ copies. copies ≡ tags.now) }
{
    let mut copies = List::with_capacity(alloc, tags.len())?;
    for tag in tags {
        copies.add(Text::from_bytes(alloc, tag.as_bytes())?)?;
    }
    Ok(copies)
}
