// Pages over a seat at the board of the clients' tags.
ghost use Rattle.std.specs.Prelude.{◌≡◌, ◌++◌, IfOk, OnOk, Some};
ghost use Rattle.px_pages.specs.Boards.{board_index, declared_of, full_page, tag_lines, tags_page, wish_page};

use crate::pages::{index_page, inside_page};
use crate::wishes::{BoardWish, is_declared};
use itoa::Buffer;
use px_base::{List, Mem, Peer, Text};
use px_config::{Config, Inside, InsidePage, Taking};
use px_patterns::Url;
use px_tag_board::{BoardName, ENTRY_LIMIT, Seat, WearFault, Worn};
use std::alloc::Global;
use std::sync::Wait;

/// The pages for clients whose tags are those that their addresses wear on a board, which they change by a page. It isn't dropped:
/// the seat is given back.
pub struct BoardPages<'r, N: BoardName, R: Wait> {
    rt: &'r R,
    seat: Seat<N>,
}

impl<'r, N: BoardName, R: Wait> BoardPages<'r, N, R> {
    /// The pages over a seat. What is taken of them may wait for the board.
    pub fn new(rt: &'r R, seat: Seat<N>) -> BoardPages<'r, N, R>
        ensures { result.seat ≡ seat }
    {
        BoardPages { rt, seat }
    }

    /// Gives the seat back, which takes no memory.
    pub fn into_seat(self) -> Seat<N>
        ensures { result ≡ self.entry.seat }
    {
        let BoardPages { rt: _rt, seat } = self;
        seat
    }
}

impl<'r, N: BoardName + Send + Sync, R: Wait + Sync> Inside for BoardPages<'r, N, R> {
    ghost use Rattle.px_pages.specs.Boards.{BoardLaw, seat_state};

    ghost lawful = { BoardLaw };

    ghost state = { λ p. seat_state p.seat };

    fn take(
        &mut self,
        alloc: Global,
        config: &Config,
        number: u64,
        url: &Url,
        page_request: bool,
        peer: &Peer,
    ) -> Result<Taking, Mem> {
        let asked = BoardWish::of(alloc, config, url, page_request)?;
        match self
            .seat
            .take(self.rt, peer.address.as_bytes(), asked.change())
        {
            Ok(worn) => taking(alloc, config, number, url, &asked, worn),
            Err(WearFault::Full(worn)) => full_taking(alloc, config, worn),
            Err(WearFault::Mem) => Err(Mem),
        }
    }

    /// There is none.
    fn logs(&self) -> bool {
        false
    }

    fn log(&mut self, _line: &[u8]) {}
}

/// The taking of what is worn, with the page of what is asked for.
fn taking(
    alloc: Global,
    config: &Config,
    number: u64,
    url: &Url,
    asked: &BoardWish,
    worn: Worn,
) -> Result<Taking, Mem>
    ensures place { IfOk result (λ t. t.place ≡ worn.place) }
    ensures tags { IfOk result (λ t. t.tags ≡ declared_of config.now.settings.tags worn.tags) }
    ensures page { IfOk result (λ t. t.page ≡ wish_page config.now number url.now t.tags asked.now) }
{
    let Worn { place, tags } = worn;
    let tags = only_declared(config.settings.tags.as_slice(), tags);
    let page = wish_page(alloc, config, number, url, asked, tags.as_slice())?;
    Ok(Taking { place, tags, page })
}

/// The taking of what is worn on a board that has no room for the change.
fn full_taking(alloc: Global, config: &Config, worn: Worn) -> Result<Taking, Mem>
    ensures place { IfOk result (λ t. t.place ≡ worn.place) }
    ensures tags { IfOk result (λ t. t.tags ≡ declared_of config.now.settings.tags worn.tags) }
    ensures page { IfOk result (λ t. t.page ≡ Some full_page) }
{
    let Worn { place, tags } = worn;
    Ok(Taking {
        place,
        tags: only_declared(config.settings.tags.as_slice(), tags),
        page: Some(full_page(alloc)?),
    })
}

/// The tags that clients may have, of these.
fn only_declared(declared: &[Text], tags: List<Text>) -> List<Text>
    ensures { result ≡ declared_of declared.now tags }
{
    let mut texts = tags.into_vec();
    texts.retain(|tag| is_declared(declared, tag.as_bytes()));
    List::from_vec(texts)
}

/// The page of what is asked for, for a client with these tags.
fn wish_page(
    alloc: Global,
    config: &Config,
    number: u64,
    url: &Url,
    asked: &BoardWish,
    tags: &[Text],
) -> Result<Option<InsidePage>, Mem>
    ensures { IfOk result (λ page. page ≡ wish_page config.now number url.now tags.now asked.now) }
{
    match asked {
        BoardWish::Index => Ok(Some(board_index(alloc)?)),
        BoardWish::Show => Ok(Some(tags_page(alloc, tags)?)),
        BoardWish::Change(_) => Ok(Some(tags_page(alloc, tags)?)),
        BoardWish::Other => inside_page(alloc, config, number, url, tags),
        BoardWish::NoPage => Ok(None),
    }
}

/// `/`: which pages there are, the board's own included.
fn board_index(alloc: Global) -> Result<InsidePage, Mem>
    ensures { IfOk result (λ page. page ≡ board_index) }
{
    let mut page = index_page(alloc)?;
    page.body.push_all(b"/client-tags\n")?;
    Ok(page)
}

/// `/client-tags`, and what comes of a change: a line for each tag.
fn tags_page(alloc: Global, tags: &[Text]) -> Result<InsidePage, Mem>
    ensures { IfOk result (λ page. page ≡ tags_page tags.now) }
{
    let mut body = Text::from_bytes(alloc, b"tags:\n")?;
    push_tags(tags, &mut body)?;
    Ok(InsidePage { found: true, body })
}

/// Adds a line for each tag.
#[tactic(auto, unfolding(crate::specs::Boards::tag_lines))]
fn push_tags(tags: &[Text], out: &mut Text) -> Result<(), Mem>
    ensures { OnOk result (out.new ≡ out.old ++ tag_lines tags.now) }
{
    'tags: for tag in tags {
        out.push_all(tag.as_bytes())?;
        out.push(b'\n')?;
    }
    Ok(())
}

/// What is said where the board has no room for a change.
#[tactic(auto, unfolding(crate::specs::Boards::full_page))]
fn full_page(alloc: Global) -> Result<InsidePage, Mem>
    ensures { IfOk result (λ page. page ≡ full_page) }
{
    let mut body = Text::from_bytes(alloc, b"full\n")?;
    body.push_all(Buffer::new().format(ENTRY_LIMIT).as_bytes())?;
    body.push_all(b" changes were made, and no more are taken until the proxy is started again\n")?;
    Ok(InsidePage { found: false, body })
}
