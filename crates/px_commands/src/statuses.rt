// How a command ends.
ghost use Rattle.std.specs.Prelude.{◌≡◌, codes};
ghost use Rattle.px_commands.specs.Statuses.{code_of, is_session_wanting, status_after, status_of_put};

use px_base::FilesFault;
use px_notes::SessionEnd;

/// How the commands are used, a line for each that is built.
pub const USAGE: &[u8] =
    b"usage: pass CONFIG ORIGIN SENT [TAG]...\n       show CONFIG URL [TAG]...\n       check CONFIG\n       exercise N\n       serve CONFIG [WORKERS [CONNECTIONS]]\n";

/// What the text of the usage is.
pub fn constants()
    ensures { USAGE.now ≡ codes "usage: pass CONFIG ORIGIN SENT [TAG]...\n       show CONFIG URL [TAG]...\n       check CONFIG\n       exercise N\n       serve CONFIG [WORKERS [CONNECTIONS]]\n" }
{}

/// How a command ended.
#[derive(Clone, Copy, Debug, PartialEq, Eq)]
pub enum Status {
    /// The command's whole result was given.
    Done,
    /// The configuration's files don't load.
    NotLoaded,
    /// The words aren't those of a command.
    Usage,
    /// The input or a file couldn't be read.
    ReadFailed,
    /// The output, the error output or a file couldn't be written.
    WriteFailed,
    NoMemory,
    /// The URL of `show` isn't read.
    NoUrl,
    /// The doors of `serve` failed.
    DoorsFailed,
    /// ORIGIN is missing, too large, or not of its format.
    NoOrigin,
}

impl Status {
    /// The program's exit status.
    pub fn code(self) -> u8
        ensures { result ≡ code_of self }
    {
        match self {
            Status::Done => 0,
            Status::NotLoaded => 1,
            Status::Usage => 2,
            Status::ReadFailed => 3,
            Status::WriteFailed => 4,
            Status::NoMemory => 5,
            Status::NoUrl => 6,
            Status::DoorsFailed => 7,
            Status::NoOrigin => 8,
        }
    }
}

/// The status behind a session and the put of SENT: the first cause in time decides.
pub fn status_after(end: SessionEnd, put: Result<(), FilesFault>) -> Status
    ensures { result ≡ status_after end put }
{
    match end {
        SessionEnd::ReadFailed => Status::ReadFailed,
        SessionEnd::WriteFailed => Status::WriteFailed,
        SessionEnd::NoMemory => Status::NoMemory,
        SessionEnd::Ended => status_of_put(put),
        SessionEnd::Cut => status_of_put(put),
        SessionEnd::Closed => status_of_put(put),
        SessionEnd::Spent => status_of_put(put),
    }
}

/// Whether memory was wanting in a session that ended so.
pub fn is_wanting(end: SessionEnd) -> bool
    ensures { result ≡ is_session_wanting end }
{
    match end {
        SessionEnd::ReadFailed => false,
        SessionEnd::WriteFailed => false,
        SessionEnd::NoMemory => true,
        SessionEnd::Ended => false,
        SessionEnd::Cut => false,
        SessionEnd::Closed => false,
        SessionEnd::Spent => false,
    }
}

fn status_of_put(put: Result<(), FilesFault>) -> Status
    ensures { result ≡ status_of_put put }
{
    match put {
        Ok(()) => Status::Done,
        Err(FilesFault::Failed) => Status::WriteFailed,
        Err(FilesFault::Mem) => Status::NoMemory,
    }
}
