// How a dialer was before a pool was made over it.
/// What the inner dialer of a pool had dialled when the pool was made, and how it was then, where that is named.
pub trait Base {
    ghost use Rattle.std.specs.Prelude.{List, Option};
    ghost use Rattle.px_base.specs.declared.dials.Dial.{Dial};
    ghost use Rattle.px_base.specs.Dials.{DialerState};

    ghost dialled: { List Dial };

    ghost first: { Option DialerState };
}

/// Nothing.
pub struct Anew;

impl Base for Anew {
    ghost use Rattle.std.specs.Prelude.{[], None};

    ghost dialled = { [] };

    ghost first = { None };
}
