// Addresses as they stand at the front of the lines of hosts files.
ghost use Rattle.std.specs.Prelude.{◌≡◌, ◌==◌, count_by};
ghost use Rattle.std.specs.List.{list_all, slice_split};
ghost use Rattle.px_host_lists.specs.Addresses.{is_colon_hex, is_colon_hex_byte, is_dotted, is_ip_address, is_octet};

use crate::{COLON, DOT};
use px_base::{cut, read_decimal};

/// Whether a word is an address.
#[tactic(auto, unfolding(crate::specs::Addresses::is_ip_address))]
pub(crate) fn is_ip_address(word: &[u8]) -> bool
    ensures { result ≡ is_ip_address word.now }
{
    is_dotted(word) || is_colon_hex(word)
}

/// Whether a word is four decimal numbers of at most 255 with dots between them.
fn is_dotted(word: &[u8]) -> bool
    ensures { result ≡ is_dotted word.now }
{
    count_of(word, DOT) == 3 && are_octets(word)
}

/// Whether what stands between dots is a decimal number of at most 255.
fn are_octets(word: &[u8]) -> bool
    ensures { result ≡ list_all is_octet (slice_split (λ b. b == 46) word.now) }
{
    let mut rest = word;
    'octets: loop {
        let (octet, behind) = cut(rest, DOT);
        if read_decimal(octet, 255).is_none() {
            return false;
        }
        match behind {
            Some(more) => rest = more,
            None => return true,
        }
    }
}

/// Whether a word is hexadecimal digits, dots and colons, of which there are two at least.
fn is_colon_hex(word: &[u8]) -> bool
    ensures { result ≡ is_colon_hex word.now }
{
    if count_of(word, COLON) < 2 {
        return false;
    }
    are_colon_hex_bytes(word)
}

fn are_colon_hex_bytes(word: &[u8]) -> bool
    ensures { result ≡ list_all is_colon_hex_byte word.now }
{
    word.iter().all(|byte| is_colon_hex_byte(*byte))
}

/// How many bytes of a text equal `byte`.
pub(crate) fn count_of(text: &[u8], byte: u8) -> usize
    ensures { result ≡ count_by (λ b. b == byte) text.now }
{
    text.iter().filter(|other| **other == byte).count()
}

fn is_colon_hex_byte(byte: u8) -> bool
    ensures { result ≡ is_colon_hex_byte byte }
{
    byte.is_ascii_hexdigit() || byte == COLON || byte == DOT
}
