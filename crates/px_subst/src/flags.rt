// The flags of a job.
ghost use Rattle.std.specs.Prelude.{◌≡◌};
ghost use Rattle.std.specs.List.{list_all};
ghost use Rattle.px_subst.specs.JobFlags.{is_flag_letter};

/// How a job's expression is read, and how its matches are replaced.
#[derive(Clone, Copy, Debug, PartialEq, Eq)]
pub struct Flags {
    /// `g`: every match is replaced, not the first alone.
    pub every: bool,
    /// `i`: letters match in either case.
    pub any_case: bool,
    /// `m`: `^` and `$` match at the ends of lines too.
    pub multi_line: bool,
    /// `s`: `.` matches a line feed too.
    pub dot_all: bool,
    /// `x`: white space and comments in the pattern are passed over.
    pub spaced: bool,
    /// `U`: repetitions take as little as they can, and with a `?` as much.
    pub ungreedy: bool,
    /// `T`: the substitute is plain text.
    pub plain: bool,
    /// `D`: `$host`, `$origin`, `$path` and `$url` are replaced at each run.
    pub dynamic: bool,
}

fn is_flag(letter: u8) -> bool
    ensures { result ≡ is_flag_letter letter }
{
    b"gimsxUTDo".contains(&letter)
}

fn are_flags(letters: &[u8]) -> bool
    ensures { result ≡ list_all is_flag_letter letters.now }
{
    letters.iter().all(|letter| is_flag(*letter))
}

impl Flags {
    ghost use Rattle.px_subst.specs.JobFlags.{flags_of};

    /// The flags that the letters ask for, or None where another letter stands. A flag may be repeated, and `o` has no
    /// effect.
    pub fn read(letters: &[u8]) -> Option<Flags>
        ensures { result ≡ flags_of letters.now }
    {
        if !are_flags(letters) {
            return None;
        }
        Some(Flags {
            every: letters.contains(&b'g'),
            any_case: letters.contains(&b'i'),
            multi_line: letters.contains(&b'm'),
            dot_all: letters.contains(&b's'),
            spaced: letters.contains(&b'x'),
            ungreedy: letters.contains(&b'U'),
            plain: letters.contains(&b'T'),
            dynamic: letters.contains(&b'D'),
        })
    }
}
