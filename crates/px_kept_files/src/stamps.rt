// How a file looks.
ghost use Rattle.std.specs.Prelude.{◌≡◌, IfSome};
ghost use Rattle.std.specs.Fs.{metadata_len};
ghost use Rattle.px_kept_files.specs.Stamps.{is_settled};

use std::fs::Metadata;
use std::os::unix::fs::MetadataExt;

/// So many seconds later, a change gives another time on any file system: the longest step of a file's times is two seconds.
const STEP: u64 = 2;

/// How a file looks: which one it is, how long it is, and when it was changed. `modified` is the time of its bytes, and `changed` that
/// of its bytes and of what else the system notes of it, which no program can set; both in seconds since 1970, with nanoseconds.
#[derive(Clone, Copy, Debug, PartialEq, Eq)]
pub struct FileStamp {
    pub(crate) device: u64,
    pub(crate) inode: u64,
    pub(crate) size: u64,
    pub(crate) modified: u64,
    pub(crate) modified_nanos: i64,
    pub(crate) changed: u64,
    pub(crate) changed_nanos: i64,
}

impl FileStamp {
    /// The stamp of a file. What isn't a regular file, or has a time before 1970 or none, has no stamp.
    pub(crate) fn of(metadata: &Metadata) -> Option<FileStamp>
        ensures size { IfSome result (λ stamp. stamp.size ≡ metadata_len metadata.now) }
    {
        if !metadata.is_file() || metadata.modified().is_err() {
            return None;
        }
        let (Ok(modified), Ok(changed)) = (
            u64::try_from(metadata.mtime()),
            u64::try_from(metadata.ctime()),
        ) else {
            return None;
        };
        Some(FileStamp {
            device: metadata.dev(),
            inode: metadata.ino(),
            size: metadata.len(),
            modified,
            modified_nanos: metadata.mtime_nsec(),
            changed,
            changed_nanos: metadata.ctime_nsec(),
        })
    }

    /// Whether a change from now on gives another stamp: both times are further back than a step of them.
    pub(crate) fn is_settled(&self, now: u64) -> bool
        ensures { result ≡ is_settled self.now now }
    {
        let before = now.saturating_sub(STEP);
        self.modified < before && self.changed < before
    }
}
