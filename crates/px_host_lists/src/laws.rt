// The values of the constants, and that what a list names are hosts.
ghost use Rattle.std.specs.Prelude.{◌≡◌, ◌∷◌, [], All, List, ℕ, false, true};
ghost use Rattle.std.specs.List.{list_any};
ghost use Rattle.px_host_lists.specs.Addresses.{is_ip_address};
ghost use Rattle.px_host_lists.specs.Hosts.{HostEntry, is_listed, is_named_by, without_end_dot};
ghost use Rattle.px_host_lists.specs.Names.{is_host};
ghost use Rattle.px_host_lists.specs.Readings.{list_entries};

use crate::{
    BANG, BYTE_LIMIT, CARET, CARRIAGE_RETURN, COLON, COMMA, DOLLAR, DOT, FACTOR, FRONT_MARK, HASH,
    HOST_LENGTH, HOST_LIMIT, LABEL_LENGTH, LINE_FEED, MODULUS,
};

/// Each entry of a file is a host.
pub fn entries_are_hosts()
    ensures { (bytes : List ℕ) → All (λ entry. is_host entry.host ≡ true) (list_entries bytes) }
{}

/// A host is on a list where an entry's name stands for it, whichever that is.
pub fn listed_by_an_entry()
    ensures { (entries : List HostEntry) (host : List ℕ) → is_listed entries host ≡ list_any (λ entry. is_named_by entry.host (without_end_dot host)) entries }
{}

/// No address is a host.
pub fn addresses_are_no_hosts()
    ensures { (text : List ℕ) → is_ip_address text ≡ true → is_host text ≡ false }
{}

/// The bytes and the limits of the rules.
pub fn constants()
    ensures bytes { BYTE_LIMIT ≡ 67108864 }
    ensures hosts { HOST_LIMIT ≡ 2000000 }
    ensures host_length { HOST_LENGTH ≡ 253 }
    ensures label_length { LABEL_LENGTH ≡ 63 }
    ensures front_mark { FRONT_MARK ≡ 239 ∷ 187 ∷ 191 ∷ [] }
    ensures bang { BANG ≡ 33 }
    ensures caret { CARET ≡ 94 }
    ensures carriage_return { CARRIAGE_RETURN ≡ 13 }
    ensures colon { COLON ≡ 58 }
    ensures comma { COMMA ≡ 44 }
    ensures dollar { DOLLAR ≡ 36 }
    ensures dot { DOT ≡ 46 }
    ensures hash { HASH ≡ 35 }
    ensures line_feed { LINE_FEED ≡ 10 }
    ensures factor { FACTOR ≡ 16777619 }
    ensures modulus { MODULUS ≡ 4294967296 }
{}
