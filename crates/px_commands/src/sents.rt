// The file SENT: what was sent over each link.
ghost use Rattle.std.specs.Prelude.{◌≡◌, ◌++◌, IfOk, IfSome, OnOk};
ghost use Rattle.px_commands.specs.Sents.{sent_text, entry_text};

use itoa::Buffer;
use px_base::{LinkNote, Mem, Text};
use std::alloc::Global;

/// Room for what those links print, so that it is taken once: a port, a number of bytes and what stands between them are shorter than 32.
fn room_of(links: &[LinkNote]) -> usize {
    let mut room = 0usize;
    for link in links {
        room = room
            .saturating_add(link.host.len())
            .saturating_add(link.sent.len())
            .saturating_add(32);
    }
    room
}

/// For each link in order: the host as dialled, a colon, the port, a space, the number of bytes sent, LF, and those bytes.
fn print_sent(alloc: Global, links: &[LinkNote]) -> Result<Text, Mem>
    ensures { IfOk result (λ text. text ≡ sent_text links.now) }
{
    let mut text = Text::with_capacity(alloc, room_of(links))?;
    'links: for link in links {
        print_entry(link, &mut text)?;
    }
    Ok(text)
}

/// The same, if memory is there for it.
pub fn made_sent(alloc: Global, links: &[LinkNote]) -> Option<Text>
    ensures { IfSome result (λ text. text ≡ sent_text links.now) }
{
    match print_sent(alloc, links) {
        Ok(text) => Some(text),
        Err(Mem) => None,
    }
}

fn print_entry(link: &LinkNote, text: &mut Text) -> Result<(), Mem>
    ensures { OnOk result (text.new ≡ text.old ++ entry_text link.now) }
{
    let sent = link.sent.as_bytes();
    text.push_all(link.host.as_bytes())?;
    text.push(b':')?;
    text.push_all(Buffer::new().format(link.port).as_bytes())?;
    text.push(b' ')?;
    text.push_all(Buffer::new().format(sent.len()).as_bytes())?;
    text.push(b'\n')?;
    text.push_all(sent)
}
