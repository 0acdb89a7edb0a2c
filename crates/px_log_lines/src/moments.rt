// Moments as a line shows them.
ghost use Rattle.std.specs.Prelude.{◌≡◌};
ghost use Rattle.px_log_lines.specs.Lines.{Keeps, reordered, shown_moment};

use crate::texts::LineText;
use httpdate::HttpDate;

/// Adds a moment in seconds since 1970, or `-` past the year 9999.
pub(crate) fn push_moment(moment: u64, out: &mut LineText)
    ensures { Keeps out.old out.new (shown_moment moment) }
{
    match HttpDate::from_unix_secs(moment) {
        Ok(date) => push_date(&date.to_bytes(), out),
        Err(_) => out.push(b"-"),
    }
}

/// Adds the parts of an IMF-fixdate (RFC 9110, section 5.6.7) in the order of the common log format.
fn push_date(date: &[u8; 29], out: &mut LineText)
    ensures { Keeps out.old out.new (reordered date.now) }
{
    out.push(&date[5..7]);
    out.push(b"/");
    out.push(&date[8..11]);
    out.push(b"/");
    out.push(&date[12..16]);
    out.push(b":");
    out.push(&date[17..25]);
    out.push(b" +0000");
}
