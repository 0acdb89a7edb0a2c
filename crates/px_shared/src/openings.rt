// How doors were before sharing began.
use std::marker::Brand;

/// The doors below when sharing doors were put over them. Each call that does so picks it.
pub trait Opening {
    ghost use Rattle.px_doors.specs.Doors.{DoorsState};

    ghost doors: { DoorsState };
}

impl Opening for Brand {
    ghost use Rattle.std.specs.Prelude.{None};
    ghost use Rattle.px_doors.specs.Doors.{untold_doors};

    ghost doors = { untold_doors None 0 0 };
}
