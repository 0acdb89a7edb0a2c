// What a request asks of the board of the clients' tags.
ghost use Rattle.std.specs.Prelude.{◌≡◌, IfOk, option_copied, if◌then◌else◌};
ghost use Rattle.percent_encoding.specs.Percent.{percent_decode};
ghost use Rattle.px_pages.specs.Wishes.{change_in, is_declared, shed_wish, url_wish, wear_wish, wish_at};

use crate::pages::is_own;
use px_base::{Mem, Text};
use px_config::Config;
use px_decide::decoded;
use px_patterns::Url;
use px_tag_board::TagChange;
use std::alloc::Global;

/// What stands before the name of a tag that is put on.
const WEAR: &[u8] = b"/client-tags/on?";

/// What stands before the name of a tag that is taken off.
const SHED: &[u8] = b"/client-tags/off?";

/// What a request asks for.
#[derive(Drop)]
pub(crate) enum BoardWish {
    /// Which pages there are.
    Index,
    /// Which tags the client has.
    Show,
    /// A change of a tag that clients may have, and then the same.
    Change(TagChange),
    /// Another page of the proxy's own, or none.
    Other,
    /// No page at all.
    NoPage,
}

impl BoardWish {
    /// What a request of that URL asks for.
    pub(crate) fn of(
        alloc: Global,
        config: &Config,
        url: &Url,
        page_request: bool,
    ) -> Result<BoardWish, Mem>
        ensures { IfOk result (λ asked. asked ≡ (if page_request then url_wish config.now.settings.tags url.now else BoardWish.NoPage)) }
    {
        if !page_request {
            return Ok(BoardWish::NoPage);
        }
        if !is_own(url) {
            return Ok(BoardWish::Other);
        }
        wish_at(alloc, config.settings.tags.as_slice(), url.path.as_bytes())
    }

    /// The change that is asked for.
    pub(crate) fn change(&self) -> Option<&TagChange>
        ensures { option_copied result ≡ change_in self.now }
    {
        match self {
            BoardWish::Index => None,
            BoardWish::Show => None,
            BoardWish::Change(change) => Some(change),
            BoardWish::Other => None,
            BoardWish::NoPage => None,
        }
    }
}

/// Whether clients may have a tag.
pub(crate) fn is_declared(declared: &[Text], tag: &[u8]) -> bool
    ensures { result ≡ is_declared declared.now tag.now }
{
    declared.iter().any(|other| other.as_bytes() == tag)
}

/// What a path of the proxy's own asks for, where clients may have these tags.
#[tactic(auto, unfolding(crate::specs::Wishes::wish_at))]
fn wish_at(alloc: Global, declared: &[Text], path: &[u8]) -> Result<BoardWish, Mem>
    ensures { IfOk result (λ asked. asked ≡ wish_at declared.now path.now) }
{
    if path == b"/".as_slice() {
        return Ok(BoardWish::Index);
    }
    if path == b"/client-tags".as_slice() {
        return Ok(BoardWish::Show);
    }
    if let Some(name) = path.strip_prefix(WEAR) {
        return Ok(wear_wish(declared, decoded(alloc, name)?));
    }
    match path.strip_prefix(SHED) {
        Some(name) => Ok(shed_wish(declared, decoded(alloc, name)?)),
        None => Ok(BoardWish::Other),
    }
}

/// Puts a tag on, if clients may have it.
fn wear_wish(declared: &[Text], tag: Text) -> BoardWish
    ensures { result ≡ wear_wish declared.now tag }
{
    if is_declared(declared, tag.as_bytes()) {
        BoardWish::Change(TagChange::Wear(tag))
    } else {
        BoardWish::Other
    }
}

/// Takes a tag off, if clients may have it.
fn shed_wish(declared: &[Text], tag: Text) -> BoardWish
    ensures { result ≡ shed_wish declared.now tag }
{
    if is_declared(declared, tag.as_bytes()) {
        BoardWish::Change(TagChange::Shed(tag))
    } else {
        BoardWish::Other
    }
}
