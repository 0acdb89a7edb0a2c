// Bytes as a line shows them.
ghost use Rattle.std.specs.Prelude.{◌≡◌, ◌<◌};
ghost use Rattle.std.specs.Char.{digit_char};
ghost use Rattle.px_log_lines.specs.Lines.{Keeps, shown_bytes, shown_byte};

use crate::texts::LineText;

/// Adds bytes: printable ASCII but `"` and `\` as it is, any other as `\x` and two hexadecimal digits.
#[tactic(auto, unfolding(crate::specs::Lines::shown_bytes))]
pub(crate) fn push_escaped(bytes: &[u8], out: &mut LineText)
    ensures { Keeps out.old out.new (shown_bytes bytes.now) }
{
    for byte in bytes {
        push_byte(*byte, out);
    }
}

#[tactic(auto, unfolding(crate::specs::Lines::shown_byte))]
fn push_byte(byte: u8, out: &mut LineText)
    ensures { Keeps out.old out.new (shown_byte byte) }
{
    if byte < b' ' || byte > b'~' || byte == b'"' || byte == b'\\' {
        out.push(&[b'\\', b'x', hex_digit(byte / 16), hex_digit(byte % 16)]);
    } else {
        out.push(&[byte]);
    }
}

/// The digit of that value, in lower case.
fn hex_digit(value: u8) -> u8
    requires { value < 16 }
    ensures { result ≡ digit_char value }
{
    if value < 10 {
        b'0' + value
    } else {
        b'a' + (value - 10)
    }
}
