// Looks at names, which open nothing.
use crate::stamps::FileStamp;
use std::io::ErrorKind;
use std::{fs, rt};

/// What a look at a name gives.
#[derive(Clone, Copy, Debug, PartialEq, Eq)]
pub(crate) enum Look {
    /// There is no file of that name.
    Missing,
    Stamp(FileStamp),
    /// No stamp: it isn't a regular file, or it can't be looked at.
    Unknown,
}

/// Whether a file that can't be had isn't there: there is none of that name, or a part of its path is no folder.
pub(crate) fn is_missing(kind: ErrorKind) -> bool {
    kind == ErrorKind::NotFound || kind == ErrorKind::NotADirectory
}

/// Looks at a name.
pub(crate) fn look_at<R: rt::Files>(rt: &R, name: &str) -> Look {
    match fs::metadata(rt, name) {
        Ok(metadata) => match FileStamp::of(&metadata) {
            Some(stamp) => Look::Stamp(stamp),
            None => Look::Unknown,
        },
        Err(error) => {
            if is_missing(error.kind()) {
                Look::Missing
            } else {
                Look::Unknown
            }
        }
    }
}
