// Texts for the error output.
ghost use Rattle.std.specs.Prelude.{◌≡◌, IsTrue};
ghost use Rattle.px_base.specs.Sinks.{SinkGoesOn};
ghost use Rattle.px_commands.specs.Passes.{ReportsOn, ReportCause};

use crate::statuses::Status;
use px_base::{Sink, SinkFault, write_all};

/// Prints a text, and gives the status that goes with it, or that of the error output's fault.
pub fn report<E: Sink>(err: &mut E, text: &[u8], whole: Status) -> Status
    ensures reports { IsTrue (E.state err.old).tells → ReportsOn (E.state err.old).taken (E.state err.new).taken text.now whole result }
    ensures cause { ReportCause (E.state err.old) (E.state err.new) whole result }
    ensures goes_on { SinkGoesOn (E.state err.old) (E.state err.new) }
{
    match write_all(err, text) {
        Ok(()) => whole,
        Err(fault) => match fault {
            SinkFault::Failed => Status::WriteFailed,
            SinkFault::Mem => Status::NoMemory,
        },
    }
}
