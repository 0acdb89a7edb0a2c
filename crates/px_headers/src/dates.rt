// The dates of moments, as a header has them.
ghost use Rattle.std.specs.Prelude.{◌≡◌, IfOk};
ghost use Rattle.px_headers.specs.Dates.{date_at};

use httpdate::HttpDate;
use px_base::{Mem, Text};
use std::alloc::Global;

/// The date of a moment in seconds since 1970 as an IMF-fixdate (RFC 9110, section 5.6.7), or None past the year 9999.
pub(crate) fn date_at(alloc: Global, moment: u64) -> Result<Option<Text>, Mem>
    ensures { IfOk result (λ date. date ≡ date_at moment) }
{
    match HttpDate::from_unix_secs(moment) {
        Ok(date) => {
            let text = date.to_bytes();
            Ok(Some(Text::from_bytes(alloc, &text)?))
        }
        Err(_) => Ok(None),
    }
}
