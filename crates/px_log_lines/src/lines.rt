// The line of an exchange.
ghost use Rattle.std.specs.Prelude.{◌≡◌};
ghost use Rattle.px_log_lines.specs.Lines.{Keeps, client_part, ending_part, log_line, request_part, shown_status, status_part};

use crate::endings::ending_name;
use crate::escapes::push_escaped;
use crate::moments::push_moment;
use crate::requests::{asked_line, push_line};
use crate::texts::{LINE_ROOM, LineText};
use arrayvec::ArrayVec;
use itoa::Buffer;
use px_notes::Ending;

/// What a line of the log says of an exchange.
#[derive(Clone, Copy)]
pub struct LogEntry<'a> {
    /// The client's address.
    pub client: &'a [u8],
    /// The exchange's moment, in seconds since 1970.
    pub moment: u64,
    /// The head of the request as it came; empty where none was read.
    pub head: &'a [u8],
    /// The status of the response, if one was returned that far.
    pub status: Option<u16>,
    /// How many bytes of the body were returned.
    pub body: u64,
    /// How the exchange ended.
    pub ending: Ending,
}

impl<'a> LogEntry<'a> {
    /// The line of an exchange, with its end: the common log format, how the exchange ended, and a field that is kept free.
    #[tactic(auto, unfolding(crate::specs::Lines::log_line))]
    pub fn line(&self) -> ArrayVec<u8, LINE_ROOM>
        ensures { result.items ≡ log_line self.now.client.now self.now.moment self.now.head.now self.now.status self.now.body self.now.ending }
    {
        let mut out = LineText::new();
        push_client(self.client, self.moment, &mut out);
        push_request(self.head, &mut out);
        push_status(self.status, self.body, &mut out);
        push_ending(self.ending, &mut out);
        out.end()
    }
}

#[tactic(auto, using(crate::proofs::LineLemmas::keeps_then), unfolding(crate::specs::Lines::client_part))]
fn push_client(client: &[u8], moment: u64, out: &mut LineText)
    ensures { Keeps out.old out.new (client_part client.now moment) }
{
    push_escaped(client, out);
    out.push(b" - - [");
    push_moment(moment, out);
    out.push(b"]");
}

#[tactic(auto, using(crate::proofs::LineLemmas::keeps_then), unfolding(crate::specs::Lines::request_part))]
fn push_request(head: &[u8], out: &mut LineText)
    ensures { Keeps out.old out.new (request_part head.now) }
{
    out.push(b" \"");
    push_line(asked_line(head), out);
    out.push(b"\" ");
}

#[tactic(auto, using(crate::proofs::LineLemmas::keeps_then), unfolding(crate::specs::Lines::status_part))]
fn push_status(status: Option<u16>, body: u64, out: &mut LineText)
    ensures { Keeps out.old out.new (status_part status body) }
{
    push_digits(status, out);
    out.push(b" ");
    out.push(Buffer::new().format(body).as_bytes());
}

/// Adds a status in three digits, or `-`.
#[tactic(auto, using(crate::proofs::LineLemmas::keeps_then), unfolding(px_head::specs::Prints::status_text))]
fn push_digits(status: Option<u16>, out: &mut LineText)
    ensures { Keeps out.old out.new (shown_status status) }
{
    let Some(status) = status else {
        out.push(b"-");
        return;
    };
    let mut buffer = Buffer::new();
    let digits = buffer.format(status).as_bytes();
    let zeros = 3usize.saturating_sub(digits.len());
    out.push(&b"000"[..zeros]);
    out.push(digits);
}

#[tactic(auto, using(crate::proofs::LineLemmas::keeps_then), unfolding(crate::specs::Lines::ending_part))]
fn push_ending(ending: Ending, out: &mut LineText)
    ensures { Keeps out.old out.new (ending_part ending) }
{
    out.push(b" \"");
    out.push(ending_name(ending).as_bytes());
    out.push(b"\" \"-\"");
}
