// The lifetime of cookies.
ghost use Rattle.std.specs.Prelude.{◌≡◌, ◌++◌, ◌∷◌, ◌≤◌, IfOk, OnOk};
ghost use Rattle.std.specs.Char.{is_ascii_digit};
ghost use Rattle.std.specs.List.{list_all};
ghost use Rattle.std.specs.Str.{byte};
ghost use Rattle.httpdate.specs.Date.{parse_secs};
ghost use Rattle.px_headers.specs.Cookies.{are_some_digits, cap_age, cap_date, cap_of, capped_attribute, capped_cookie, is_expires, is_lifetime, is_max_age, is_negative, is_short, is_soon, piece_name, piece_value, session_cookie};

use crate::dates::date_at;
use httpdate::HttpDate;
use itoa::Buffer;
use px_base::{Mem, Text, cut, place, read_decimal, same_without_case, trim};
use std::alloc::Global;

/// The longest that cookies may live.
#[derive(Drop)]
pub(crate) struct Cap {
    /// The last moment, in seconds since 1970.
    latest: u64,
    /// The same as a number of seconds from now on.
    seconds: u64,
    /// The date of that moment.
    date: Text,
}

/// The name of a piece of a cookie; without `=` it is the whole piece.
#[tactic(auto, unfolding(crate::specs::Cookies::piece_name))]
fn piece_name(piece: &[u8]) -> &[u8]
    ensures { result.now ≡ piece_name piece.now }
{
    match place(piece, b'=') {
        Some(at) => trim(&piece[..at]),
        None => trim(piece),
    }
}

/// The value of a piece of a cookie.
#[tactic(auto, unfolding(crate::specs::Cookies::piece_value))]
fn piece_value(piece: &[u8]) -> &[u8]
    ensures { result.now ≡ piece_value piece.now }
{
    match place(piece, b'=') {
        Some(at) => trim(&piece[at + 1..]),
        None => trim(b""),
    }
}

#[tactic(auto, unfolding(crate::specs::Cookies::is_expires))]
fn is_expires(piece: &[u8]) -> bool
    ensures { result ≡ is_expires piece.now }
{
    same_without_case(piece_name(piece), b"expires")
}

#[tactic(auto, unfolding(crate::specs::Cookies::is_max_age))]
fn is_max_age(piece: &[u8]) -> bool
    ensures { result ≡ is_max_age piece.now }
{
    same_without_case(piece_name(piece), b"max-age")
}

/// Whether an attribute says how long the cookie lives.
fn is_lifetime(piece: &[u8]) -> bool
    ensures { result ≡ is_lifetime piece.now }
{
    is_expires(piece) || is_max_age(piece)
}

/// Adds an attribute behind a semicolon.
fn push_attribute(cookie: &mut Text, piece: &[u8]) -> Result<(), Mem>
    ensures { OnOk result (cookie.new ≡ cookie.old ++ byte ";" ∷ piece.now) }
{
    cookie.push(b';')?;
    cookie.push_all(piece)
}

/// A cookie without the attributes that say how long it lives, so that it ends with the session.
#[tactic(auto, unfolding(crate::specs::Cookies::session_cookie))]
pub(crate) fn session_cookie(alloc: Global, value: &[u8]) -> Result<Text, Mem>
    ensures { IfOk result (λ cookie. cookie ≡ session_cookie value.now) }
{
    let (first, behind) = cut(value, b';');
    let mut cookie = Text::from_bytes(alloc, first)?;
    let mut rest = behind;
    'attributes: while let Some(bytes) = rest {
        let (piece, more) = cut(bytes, b';');
        if !is_lifetime(piece) {
            push_attribute(&mut cookie, piece)?;
        }
        rest = more;
    }
    Ok(cookie)
}

/// The moment of a date in one of the three spellings of a header.
fn read_date(text: &[u8]) -> Option<u64>
    ensures { result ≡ parse_secs text.now }
{
    match HttpDate::parse_ascii(text) {
        Ok(date) => Some(date.unix_secs()),
        Err(_) => None,
    }
}

fn are_digits(bytes: &[u8]) -> bool
    ensures { result ≡ list_all is_ascii_digit bytes.now }
{
    bytes.iter().all(|byte| byte.is_ascii_digit())
}

fn are_some_digits(bytes: &[u8]) -> bool
    ensures { result ≡ are_some_digits bytes.now }
{
    !bytes.is_empty() && are_digits(bytes)
}

/// Whether a text is `-` and digits.
fn is_negative(text: &[u8]) -> bool
    ensures { result ≡ is_negative text.now }
{
    match text.split_first() {
        Some((first, digits)) => *first == b'-' && are_some_digits(digits),
        None => false,
    }
}

impl Cap {
    /// The cap of so many minutes from a moment on, or None where its date is past the year 9999.
    #[tactic(auto, unfolding(crate::specs::Cookies::cap_of))]
    pub(crate) fn of(alloc: Global, moment: u64, minutes: u64) -> Result<Option<Cap>, Mem>
        requires { minutes ≤ 100000000 }
        ensures { IfOk result (λ cap. cap ≡ cap_of moment minutes) }
    {
        let seconds = 60 * minutes;
        let latest = moment.saturating_add(seconds);
        match date_at(alloc, latest)? {
            Some(date) => Ok(Some(Cap {
                latest,
                seconds,
                date,
            })),
            None => Ok(None),
        }
    }

    #[tactic(auto, unfolding(crate::specs::Cookies::is_soon))]
    fn allows_date(&self, value: &[u8]) -> bool
        ensures { result ≡ is_soon self.now value.now }
    {
        match read_date(value) {
            Some(moment) => moment <= self.latest,
            None => false,
        }
    }

    #[tactic(auto, unfolding(crate::specs::Cookies::is_short))]
    fn allows_age(&self, value: &[u8]) -> bool
        ensures { result ≡ is_short self.now value.now }
    {
        read_decimal(value, self.seconds).is_some() || is_negative(value)
    }

    /// Adds the attribute with the date of the cap.
    fn push_date(&self, cookie: &mut Text) -> Result<(), Mem>
        ensures { OnOk result (cookie.new ≡ cookie.old ++ byte ";" ∷ cap_date self.now) }
    {
        cookie.push_all(b"; expires=")?;
        cookie.push_all(self.date.as_bytes())
    }

    /// Adds the attribute with the seconds of the cap.
    fn push_age(&self, cookie: &mut Text) -> Result<(), Mem>
        ensures { OnOk result (cookie.new ≡ cookie.old ++ byte ";" ∷ cap_age self.now) }
    {
        cookie.push_all(b"; max-age=")?;
        cookie.push_all(Buffer::new().format(self.seconds).as_bytes())
    }

    /// Adds an attribute, within the cap.
    #[tactic(auto, unfolding(crate::specs::Cookies::capped_attribute))]
    fn push_capped(&self, cookie: &mut Text, piece: &[u8]) -> Result<(), Mem>
        ensures { OnOk result (cookie.new ≡ cookie.old ++ byte ";" ∷ capped_attribute self.now piece.now) }
    {
        if is_expires(piece) {
            if self.allows_date(piece_value(piece)) {
                push_attribute(cookie, piece)
            } else {
                self.push_date(cookie)
            }
        } else if is_max_age(piece) {
            if self.allows_age(piece_value(piece)) {
                push_attribute(cookie, piece)
            } else {
                self.push_age(cookie)
            }
        } else {
            push_attribute(cookie, piece)
        }
    }

    /// A cookie that lives no longer than the cap: an attribute that says so becomes the cap, and where none says how long the
    /// cookie lives, the date of the cap is added.
    #[tactic(auto, unfolding(crate::specs::Cookies::capped_cookie))]
    pub(crate) fn capped_cookie(&self, alloc: Global, value: &[u8]) -> Result<Text, Mem>
        ensures { IfOk result (λ cookie. cookie ≡ capped_cookie self.now value.now) }
    {
        let (first, behind) = cut(value, b';');
        let mut cookie = Text::from_bytes(alloc, first)?;
        let mut limited = false;
        let mut rest = behind;
        'attributes: while let Some(bytes) = rest {
            let (piece, more) = cut(bytes, b';');
            self.push_capped(&mut cookie, piece)?;
            limited = limited || is_lifetime(piece);
            rest = more;
        }
        if !limited {
            self.push_date(&mut cookie)?;
        }
        Ok(cookie)
    }
}
