// Why a job gives no lines.
use px_base::Mem;
use px_config::LoadFault;

/// Why a job gives no lines.
#[derive(Drop)]
pub enum ExerciseFault {
    /// The job's files don't spell a configuration. The fault is `Spelled`.
    NotLoaded(LoadFault),
    /// Want of memory.
    Mem,
}

impl From<LoadFault> for ExerciseFault {
    ghost use Rattle.std.specs.Prelude.{◌≡◌};
    ghost use Rattle.px_exercise.specs.Faults.{exercise_fault_of};

    ghost from_gives = { λ f e. e ≡ exercise_fault_of f };

    fn from(fault: LoadFault) -> Self {
        if matches!(&fault, LoadFault::Mem) {
            ExerciseFault::Mem
        } else {
            ExerciseFault::NotLoaded(fault)
        }
    }
}

impl From<Mem> for ExerciseFault {
    ghost use Rattle.std.specs.Prelude.{◌≡◌};
    ghost use Rattle.px_exercise.specs.declared.faults.ExerciseFault.TheVariants as fault;

    ghost from_gives = { λ _ e. e ≡ fault.Mem };

    fn from(_: Mem) -> Self {
        ExerciseFault::Mem
    }
}
