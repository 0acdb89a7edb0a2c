// What was read so far, for contracts alone.
ghost use Rattle.std.specs.Prelude.{◌≡◌, Some};
ghost use Rattle.px_kept_files.specs.Readings.{WholeReading, ReadsOnly, last_reading};

use crate::stamps::FileStamp;
use px_base::Text;
use std::snapshot::Snapshot;

/// The whole readings of files, from the newest back. It takes no bytes.
#[derive(Drop)]
pub enum Readings {
    Start,
    /// A file was read whole: its name, when the reading was begun, how it looked before and behind that where it was the same,
    /// and its bytes.
    Whole {
        before: Snapshot<Readings>,
        name: Snapshot<Text>,
        begun: Snapshot<u64>,
        stamp: Snapshot<Option<FileStamp>>,
        bytes: Snapshot<Text>,
    },
}

/// The readings behind one more.
pub(crate) fn with_whole(
    before: &Readings,
    name: &Text,
    begun: u64,
    stamp: Option<FileStamp>,
    bytes: &Text,
) -> Readings
    ensures last { last_reading result name.now ≡ Some (record { begun = begun; stamp = stamp; bytes = bytes.now }) }
    ensures only { ReadsOnly name.now before.now result }
{
    Readings::Whole {
        before: Snapshot::of(before),
        name: Snapshot::of(name),
        begun: Snapshot::of(&begun),
        stamp: Snapshot::of(&stamp),
        bytes: Snapshot::of(bytes),
    }
}
