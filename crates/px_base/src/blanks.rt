// White space in a text.
ghost use Rattle.std.specs.Prelude.{◌≡◌, ◌<◌, ◌≤◌, IfSome, length, position};
ghost use Rattle.std.specs.List.{prefix_len};
ghost use Rattle.px_base.specs.Blanks.{is_blank, trim_front, trim_end, trimmed};

/// Whether a byte is a space or a tab.
pub fn is_blank(byte: u8) -> bool
    ensures { result ≡ is_blank byte }
{
    byte == b' ' || byte == b'\t'
}

/// The bytes without the spaces and tabs at both ends.
#[tactic(auto, unfolding(crate::specs::Blanks::trimmed))]
pub fn trim(bytes: &[u8]) -> &[u8]
    ensures { result.now ≡ trimmed bytes.now }
{
    without_end(without_front(bytes))
}

fn without_front(bytes: &[u8]) -> &[u8]
    ensures { result.now ≡ trim_front bytes.now }
{
    let mut rest = bytes;
    'blanks: while let Some((first, more)) = rest.split_first() {
        if !is_blank(*first) {
            return rest;
        }
        rest = more;
    }
    rest
}

#[tactic(auto, using(crate::proofs::BlankLemmas::trim_end_rules))]
fn without_end(bytes: &[u8]) -> &[u8]
    ensures { result.now ≡ trim_end bytes.now }
{
    let mut rest = bytes;
    'blanks: while let Some((last, more)) = rest.split_last() {
        if !is_blank(*last) {
            return rest;
        }
        rest = more;
    }
    rest
}

/// Where the white space ends with which bytes begin.
pub fn white_end(bytes: &[u8]) -> usize
    ensures end { result ≡ prefix_len is_blank bytes.now }
    ensures within { result ≤ length bytes.now }
{
    for (at, byte) in bytes.iter().enumerate() {
        if !is_blank(*byte) {
            return at;
        }
    }
    bytes.len()
}

/// The place of the first white space.
pub fn white_place(bytes: &[u8]) -> Option<usize>
    ensures place { result ≡ position is_blank bytes.now }
    ensures within { IfSome result (λ at. at < length bytes.now) }
{
    bytes.iter().position(|byte| is_blank(*byte))
}
