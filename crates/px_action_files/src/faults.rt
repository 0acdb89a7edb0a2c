// The refusals of actions files.
ghost use Rattle.std.specs.Prelude.{◌≡◌};
ghost use Rattle.px_action_files.specs.Faults.{file_fault_name, file_fault_number, refusal_name, reported_word, reported_pattern};

use px_actions::ActionFault;
use px_base::Mem;
use px_patterns::PatternFault;
use std::alloc::AllocFailed;
use std::error::Error;
use std::fmt;

/// The braces of a line don't balance, or the last byte of a heading isn't the brace that balances its first.
pub(crate) const OPEN_BRACE: u8 = 16;

/// A line before any heading.
pub(crate) const PATTERN_BEFORE_SECTION: u8 = 17;

pub(crate) const SECOND_ALIAS_BLOCK: u8 = 18;

/// An alias block behind a section.
pub(crate) const LATE_ALIAS_BLOCK: u8 = 19;

pub(crate) const ALIAS_TWICE: u8 = 20;

/// Another name in `{{ }}`, or an alias line without `=` or with a bad name.
pub(crate) const BAD_BLOCK: u8 = 44;

/// Why an actions file isn't read: the line that is refused with the number of its refusal, or want of memory.
#[derive(Clone, Copy, Debug, PartialEq, Eq)]
pub enum FileFault {
    At { line: u32, number: u8 },
    Mem,
}

/// The name under which a refusal of an actions file, or of a word or a pattern in it, is printed. Another number has
/// no name.
#[tactic(auto, unfolding(crate::specs::Faults::refusal_name))]
pub fn refusal_name(number: u8) -> &'static str
    ensures { result.now ≡ refusal_name number }
{
    match number {
        3 => "HasProtocol",
        4 => "BadPort",
        5 => "BadClass",
        6 => "BadRegex",
        7 => "EmptyLabel",
        12 => "UnknownAction",
        13 => "ParameterWanted",
        14 => "ParameterUnwanted",
        15 => "BadParameter",
        OPEN_BRACE => "OpenBrace",
        PATTERN_BEFORE_SECTION => "PatternBeforeSection",
        SECOND_ALIAS_BLOCK => "SecondAliasBlock",
        LATE_ALIAS_BLOCK => "LateAliasBlock",
        ALIAS_TWICE => "AliasTwice",
        42 => "BadAddress",
        BAD_BLOCK => "BadBlock",
        _ => "",
    }
}

impl FileFault {
    /// The number of a refusal. Want of memory is no refusal, and has 0.
    pub fn number(self) -> u8
        ensures { result ≡ file_fault_number self }
    {
        match self {
            FileFault::At { number, .. } => number,
            FileFault::Mem => 0,
        }
    }

    /// The name of a refusal, as it is printed.
    pub fn name(self) -> &'static str
        ensures { result.now ≡ file_fault_name self }
    {
        match self {
            FileFault::At { number, .. } => refusal_name(number),
            FileFault::Mem => "Mem",
        }
    }

    /// The refusal of a word at a line.
    pub(crate) fn of_word(line: u32, fault: ActionFault) -> FileFault
        ensures { result ≡ reported_word line fault }
    {
        let number = fault.number();
        if number == 0 {
            FileFault::Mem
        } else {
            FileFault::At { line, number }
        }
    }

    /// The refusal of a pattern at a line.
    pub(crate) fn of_pattern(line: u32, fault: PatternFault) -> FileFault
        ensures { result ≡ reported_pattern line fault }
    {
        match fault {
            PatternFault::Mem => FileFault::Mem,
            PatternFault::HasProtocol
            | PatternFault::BadPort
            | PatternFault::BadClass
            | PatternFault::BadRegex
            | PatternFault::EmptyLabel
            | PatternFault::BadAddress => FileFault::At {
                line,
                number: fault.number(),
            },
        }
    }
}

impl fmt::Display for FileFault {
    ghost use Rattle.std.specs.Prelude.{Some};
    ghost use Rattle.px_action_files.specs.Faults.{file_fault_name};

    ghost output = { λ fault. Some (file_fault_name fault) };

    fn fmt<W: fmt::Write>(&self, f: &mut fmt::Formatter<W>) -> fmt::Result {
        let name = self.name();
        write!(f, "{name}")
    }
}

impl Error for FileFault {}

impl From<Mem> for FileFault {
    ghost use Rattle.px_action_files.specs.declared.faults.FileFault.TheVariants as fault;

    ghost from_gives = { λ _ e. e ≡ fault.Mem };

    fn from(_: Mem) -> Self {
        FileFault::Mem
    }
}

impl<T: Drop> From<AllocFailed<T>> for FileFault {
    ghost use Rattle.px_action_files.specs.declared.faults.FileFault.TheVariants as fault;

    ghost from_gives = { λ _ e. e ≡ fault.Mem };

    fn from(_: AllocFailed<T>) -> Self {
        FileFault::Mem
    }
}
