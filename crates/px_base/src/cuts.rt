// Lists in a text, cut at a byte.
ghost use Rattle.std.specs.Prelude.{◌≡◌, ◌==◌, ◌<◌, ◌∷◌, IfSome, length, option_copied};
ghost use Rattle.std.specs.List.{slice_split, position};
ghost use Rattle.px_base.specs.Cuts.{parts_of};

use memchr::memchr;

/// The part before the first separator, and the bytes behind it if there is one.
pub fn cut(bytes: &[u8], separator: u8) -> (&[u8], Option<&[u8]>)
    ensures parts { slice_split (λ b. b == separator) bytes.now ≡ result.0.now ∷ parts_of separator (option_copied result.1) }
    ensures shorter { IfSome result.1 (λ more. length more.now < length bytes.now) }
{
    match place(bytes, separator) {
        Some(at) => (&bytes[..at], Some(&bytes[at + 1..])),
        None => (bytes, None),
    }
}

/// The place of the first byte that equals `byte`.
pub fn place(bytes: &[u8], byte: u8) -> Option<usize>
    ensures value { result ≡ position (λ b. b == byte) bytes.now }
    ensures within { IfSome result (λ at. at < length bytes.now) }
{
    memchr(byte, bytes)
}
