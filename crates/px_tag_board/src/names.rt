// Names of boards.
use std::marker::Brand;
use std::sync::ledger::Ledger;

/// What names one board: its ledger, and the pair of its publisher and readers.
pub trait BoardName: Ledger {
    ghost use Rattle.px_publish.specs.Views.{Pair};

    ghost pair: { Pair };
}

impl BoardName for Brand {
    ghost pair = { record { number = 0; log_name = 0; cells_name = 0 } };
}
