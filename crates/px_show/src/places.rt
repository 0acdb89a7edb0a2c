// Places in files, as they are printed.
ghost use Rattle.std.specs.Prelude.{◌≡◌, ◌++◌, OnOk};
ghost use Rattle.px_show.specs.Showing.{shown_place};

use itoa::Buffer;
use px_base::{Mem, Text};

/// Adds FILE:LINE.
pub(crate) fn push_place(file: &[u8], line: u32, out: &mut Text) -> Result<(), Mem>
    ensures { OnOk result (out.new ≡ out.old ++ shown_place file.now line) }
{
    out.push_all(file)?;
    out.push(b':')?;
    out.push_all(Buffer::new().format(line).as_bytes())
}
