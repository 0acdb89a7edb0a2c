// The connections that doors have parted, without bytes when it runs.
ghost use Rattle.std.specs.Prelude.{◌≡◌, ◌++◌, ◌∷◌, []};
ghost use Rattle.px_doors.specs.Parted.{PartedState};
ghost use Rattle.px_shared.specs.Partings.{parted_of};

use std::snapshot::Snapshot;

/// The connections that were parted, from the newest back: each as it was parted below, and the pool that was over its dialer.
#[derive(Drop)]
pub enum Partings<P, D> {
    Nothing,
    Behind {
        before: Snapshot<Partings<P, D>>,
        below: Snapshot<P>,
        pool: Snapshot<D>,
    },
}

/// One more connection was parted.
pub fn with_parting<P, D>(
    before: &Partings<P, D>,
    below: Snapshot<P>,
    pool: Snapshot<D>,
) -> Partings<P, D>
    ensures { (joined : P → D → PartedState) → parted_of joined result ≡ parted_of joined before.now ++ joined below.value pool.value ∷ [] }
{
    Partings::Behind {
        before: Snapshot::of(before),
        below,
        pool,
    }
}
