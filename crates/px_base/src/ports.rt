// Lists of ports.
ghost use Rattle.std.specs.Prelude.{◌≡◌, ◌<◌, IfOk, IfSome, length};
ghost use Rattle.std.specs.List.{position};
ghost use Rattle.px_base.specs.Ports.{port, port_list, item, range, end_of_range, allows, is_dash};

use crate::blanks::trim;
use crate::cuts::{cut, place};
use crate::numbers::read_decimal;
use std::alloc::{AllocFailed, Global};
use std::marker::Model;

/// Ports from `low` to `high`, both of them included.
#[derive(Clone, Copy, Debug, PartialEq, Eq)]
pub struct PortRange {
    pub low: u16,
    pub high: u16,
}

/// A list of ports and ranges of ports.
#[derive(Drop)]
pub struct Ports {
    ranges: Vec<PortRange>,
}

/// Why a text isn't a port list, or want of memory.
#[derive(Clone, Copy, Debug, PartialEq, Eq)]
pub enum PortsFault {
    /// An item has another form, a number is 0 or above 65,535, or a range ends before it begins.
    Bad,
    Mem,
}

impl<T: Drop> From<AllocFailed<T>> for PortsFault {
    ghost use Rattle.px_base.specs.declared.ports.PortsFault.TheVariants as fault;

    ghost from_gives = { λ _ e. e ≡ fault.Mem };

    fn from(_: AllocFailed<T>) -> Self {
        PortsFault::Mem
    }
}

impl Model for Ports {
    ghost use Rattle.std.specs.Prelude.{List};
    ghost use Rattle.px_base.specs.declared.ports.PortRange.{PortRange};

    ghost Value = { List PortRange };

    ghost view = { λ p. p.ranges.items };
}

impl Ports {
    #[tactic(auto, unfolding(crate::specs::Ports::port_list), using(crate::proofs::PortLemmas::behind_rules))]
    /// Reads items between commas, with white space around them: `n`, `n-m`, `-m`, `n-` and `-`, where an open end
    /// reaches to 1 or 65,535. An empty item allows nothing.
    pub fn read(alloc: Global, text: &str) -> Result<Ports, PortsFault>
        ensures ports { IfOk result (λ ports. port_list text.now ≡ Some ports) }
        ensures bad { result ≡ Err PortsFault.Bad → port_list text.now ≡ None }
    {
        let mut ranges = Vec::new(alloc);
        let mut rest = Some(text.as_bytes());
        'items: while let Some(bytes) = rest {
            let (first, more) = cut(bytes, b',');
            let first = trim(first);
            if !first.is_empty() {
                match read_item(first) {
                    Some(range) => ranges.push(range)?,
                    None => return Err(PortsFault::Bad),
                }
            }
            rest = more;
        }
        Ok(Ports { ranges })
    }

    /// Whether the port is in the list.
    pub fn allow(&self, port: u16) -> bool
        ensures { result ≡ allows self.now port }
    {
        self.ranges
            .iter()
            .any(|range| range.low <= port && port <= range.high)
    }
}

/// A port: a decimal number from 1 to 65,535.
#[tactic(auto, unfolding(crate::specs::Ports::port))]
pub fn read_port(bytes: &[u8]) -> Option<u16>
    ensures { result ≡ port bytes.now }
{
    match read_decimal(bytes, 65_535) {
        Some(number) => if number == 0 {
            None
        } else {
            Some(number as u16)
        },
        None => None,
    }
}

/// An end of a range: a port, or `where_empty` where nothing is written.
fn read_end(bytes: &[u8], where_empty: u16) -> Option<u16>
    ensures { result ≡ end_of_range where_empty bytes.now }
{
    if bytes.is_empty() {
        Some(where_empty)
    } else {
        read_port(bytes)
    }
}

fn range(low: Option<u16>, high: Option<u16>) -> Option<PortRange>
    ensures { result ≡ range low high }
{
    match (low, high) {
        (Some(low), Some(high)) if low <= high => Some(PortRange { low, high }),
        _ => None,
    }
}

/// An item with no white space around it.
#[tactic(auto, unfolding(crate::specs::Ports::item))]
fn read_item(bytes: &[u8]) -> Option<PortRange>
    ensures { result ≡ item bytes.now }
{
    match place(bytes, b'-') {
        Some(at) => range(
            read_end(&bytes[..at], 1),
            read_end(&bytes[at + 1..], 65_535),
        ),
        None => {
            let port = read_port(bytes);
            range(port, port)
        }
    }
}
