// Hosts as they are read, in the order in which they stand in the file.
ghost use Rattle.std.specs.Prelude.{◌≡◌, ◌++◌, ◌∷◌, [], ◌<◌, ◌≤◌, ◌||◌, IfErr, IfOk, OnOk, is_none, length, option_copied};
ghost use Rattle.std.specs.Option.{ForSome};
ghost use Rattle.px_host_lists.specs.Hosts.{HostEntry};
ghost use Rattle.px_host_lists.specs.Readings.{IsListRefusal, entries_on, has_other, host_refusal, items_behind, items_on, rule_item};
ghost use Rattle.px_host_lists.specs.Words.{used_words};

use crate::addresses::is_ip_address;
use crate::faults::ListFault;
use crate::hashes::hash_of;
use crate::names::host_named;
use crate::rules::rule_host;
use crate::slots::Slot;
use crate::words::next_word;
use crate::{HOST_LENGTH, HOST_LIMIT};
use std::alloc::Global;

/// Hosts as they are read.
#[derive(Drop)]
pub(crate) struct Gathered {
    pub text: Vec<u8>,
    pub slots: Vec<Slot>,
}

impl Gathered {
    ghost use Rattle.px_host_lists.specs.Slots.{IsGathered, gathered_entries};

    pub(crate) fn new(alloc: Global) -> Gathered
        ensures gathered { IsGathered result }
        ensures none { gathered_entries result ≡ [] }
    {
        Gathered {
            text: Vec::new(alloc),
            slots: Vec::new(alloc),
        }
    }

    /// How many hosts there are.
    pub(crate) fn len(&self) -> usize
        ensures { result ≡ length (gathered_entries self.now) }
    {
        self.slots.len()
    }

    /// Adds the hosts of a line, and tells whether something stands there that is none.
    #[tactic(auto, using(crate::proofs::ReadingLemmas::line_rules))]
    pub(crate) fn take_line(&mut self, number: u32, line: &[u8]) -> Result<bool, ListFault>
        requires gathered { IsGathered self.old }
        ensures gathered { OnOk result (IsGathered self.new) }
        ensures added { OnOk result (gathered_entries self.new ≡ gathered_entries self.old ++ entries_on number (items_on line.now)) }
        ensures other { IfOk result (λ other. other ≡ has_other (items_on line.now)) }
        ensures refused { IfErr result (IsListRefusal (host_refusal (gathered_entries self.old ++ entries_on number (items_on line.now)))) }
    {
        match next_word(line) {
            None => Ok(false),
            Some((word, more)) => {
                if is_ip_address(word) {
                    self.take_names(number, more)
                } else {
                    self.take(number, rule_item(word, more))
                }
            }
        }
    }

    /// Adds the hosts behind an address.
    fn take_names(&mut self, number: u32, text: &[u8]) -> Result<bool, ListFault>
        requires gathered { IsGathered self.old }
        ensures gathered { OnOk result (IsGathered self.new) }
        ensures added { OnOk result (gathered_entries self.new ≡ gathered_entries self.old ++ entries_on number (items_behind (used_words text.now))) }
        ensures other { IfOk result (λ other. other ≡ has_other (items_behind (used_words text.now))) }
        ensures refused { IfErr result (IsListRefusal (host_refusal (gathered_entries self.old ++ entries_on number (items_behind (used_words text.now))))) }
    {
        let Some((first, after)) = next_word(text) else {
            return Ok(true);
        };
        let mut other = self.take(number, host_named(first))?;
        let mut rest = after;
        'names: while let Some((name, more)) = next_word(rest) {
            if self.take(number, host_named(name))? {
                other = true;
            }
            rest = more;
        }
        Ok(other)
    }

    /// Adds a host, if there is one, and tells whether there was none.
    fn take(&mut self, number: u32, host: Option<&[u8]>) -> Result<bool, ListFault>
        requires gathered { IsGathered self.old }
        requires host { ForSome host (λ name. length name.now ≤ HOST_LENGTH) }
        ensures gathered { OnOk result (IsGathered self.new) }
        ensures added { OnOk result (gathered_entries self.new ≡ gathered_entries self.old ++ entries_on number (option_copied host.entry ∷ [])) }
        ensures other { IfOk result (λ other. other ≡ is_none (option_copied host.entry)) }
        ensures refused { IfErr result (IsListRefusal (host_refusal (gathered_entries self.old ++ entries_on number (option_copied host.entry ∷ [])))) }
    {
        match host {
            None => Ok(true),
            Some(name) => {
                self.push(number, name)?;
                Ok(false)
            }
        }
    }

    /// Adds a host.
    fn push(&mut self, number: u32, host: &[u8]) -> Result<(), ListFault>
        requires gathered { IsGathered self.old }
        requires host { length host.now ≤ HOST_LENGTH }
        ensures gathered { OnOk result (IsGathered self.new) }
        ensures added { OnOk result (gathered_entries self.new ≡ gathered_entries self.old ++ record { line = number; host = host.now } ∷ []) }
        ensures refused { IfErr result (IsListRefusal (host_refusal (gathered_entries self.old ++ record { line = number; host = host.now } ∷ []))) }
    {
        if self.slots.len() == HOST_LIMIT {
            return Err(ListFault::TooMany { line: number });
        }
        let start = self.text.len();
        self.text.extend_from_slice(host)?;
        let slot = Slot {
            hash: hash_of(host),
            start: start as u32,
            line: number,
            len: host.len() as u8,
        };
        self.slots.push(slot)?;
        Ok(())
    }
}

/// The host of a word that is no address, where nothing stands behind it.
fn rule_item<'a>(word: &'a [u8], more: &[u8]) -> Option<&'a [u8]>
    ensures host { option_copied result ≡ rule_item word.now (used_words more.now) }
    ensures within { ForSome result (λ host. length host.now ≤ HOST_LENGTH) }
{
    match next_word(more) {
        None => rule_host(word),
        Some(_) => None,
    }
}
