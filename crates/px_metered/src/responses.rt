// What was returned of an exchange, and the status of a response.
ghost use Rattle.std.specs.Prelude.{◌≡◌, length};
ghost use Rattle.px_metered.specs.Returned.{first_line, is_interim_status, status_in};

use px_base::read_decimal;

/// What a client's sink took of an exchange.
#[derive(Clone, Copy, Debug, PartialEq, Eq)]
pub struct Tally {
    /// The status of the final response (RFC 9110, section 15), if that much of it came.
    pub status: Option<u16>,
    /// How many bytes came behind its head.
    pub body: u64,
}

/// The status of a response that begins with these bytes, if that much of it came (RFC 9112, section 4).
#[tactic(auto, unfolding(crate::specs::Returned::line_status))]
pub fn status_in(bytes: &[u8]) -> Option<u16>
    ensures { result ≡ status_in bytes.now }
{
    let line = first_line(bytes);
    if line.len() < 12 {
        return None;
    }
    match read_decimal(&line[9..12], 999) {
        Some(status) => Some(status as u16),
        None => None,
    }
}

/// Whether a response of this status is interim (RFC 9110, section 15.2).
pub fn is_interim_status(status: Option<u16>) -> bool
    ensures { result ≡ is_interim_status status }
{
    match status {
        Some(status) => 100 <= status && status <= 199,
        None => false,
    }
}

/// The bytes before the first CR.
fn first_line(bytes: &[u8]) -> &[u8]
    ensures { result.now ≡ first_line bytes.now }
{
    let mut end = 0;
    while end < bytes.len() && bytes[end] != b'\r' {
        end += 1;
    }
    &bytes[..end]
}
