// The refusals of action words.
ghost use Rattle.std.specs.Prelude.{◌≡◌};
ghost use Rattle.px_actions.specs.Faults.{refusal};

use px_base::Mem;
use std::error::Error;
use std::fmt;

/// Why a word isn't an update, or want of memory. Of several refusals the first is answered in this order:
/// `UnknownAction`, `ParameterUnwanted`, `ParameterWanted`, `BadParameter`.
#[derive(Clone, Copy, Debug, PartialEq, Eq)]
pub enum ActionFault {
    /// No sign, or no action of that name.
    UnknownAction,
    /// `+` with an action that takes a parameter, without one.
    ParameterWanted,
    /// A parameter with a flag, or with `-` and an action that has one value.
    ParameterUnwanted,
    /// The parameter breaks the action's rule, or it isn't closed by the word's last byte.
    BadParameter,
    Mem,
}

impl ActionFault {
    /// The number of a refusal, 12 to 15. Want of memory is no refusal, and has 0.
    pub fn number(self) -> u8
        ensures { result ≡ (refusal self).number }
    {
        match self {
            ActionFault::UnknownAction => 12,
            ActionFault::ParameterWanted => 13,
            ActionFault::ParameterUnwanted => 14,
            ActionFault::BadParameter => 15,
            ActionFault::Mem => 0,
        }
    }

    /// The name of a refusal, as it is printed.
    pub fn name(self) -> &'static str
        ensures { result.now ≡ (refusal self).name }
    {
        match self {
            ActionFault::UnknownAction => "UnknownAction",
            ActionFault::ParameterWanted => "ParameterWanted",
            ActionFault::ParameterUnwanted => "ParameterUnwanted",
            ActionFault::BadParameter => "BadParameter",
            ActionFault::Mem => "Mem",
        }
    }
}

impl fmt::Display for ActionFault {
    ghost use Rattle.std.specs.Prelude.{Some};
    ghost use Rattle.px_actions.specs.Faults.{refusal};

    ghost output = { λ fault. Some (refusal fault).name };

    fn fmt<W: fmt::Write>(&self, f: &mut fmt::Formatter<W>) -> fmt::Result {
        let name = self.name();
        write!(f, "{name}")
    }
}

impl Error for ActionFault {}

impl From<Mem> for ActionFault {
    ghost use Rattle.px_actions.specs.declared.faults.ActionFault.TheVariants as fault;

    ghost from_gives = { λ _ e. e ≡ fault.Mem };

    fn from(_: Mem) -> Self {
        ActionFault::Mem
    }
}
