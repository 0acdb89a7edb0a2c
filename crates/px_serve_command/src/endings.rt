// How serving ends the command.
ghost use Rattle.std.specs.Prelude.{◌≡◌};
ghost use Rattle.px_serve_command.specs.Endings.{status_of_serving};

use px_commands::Status;
use px_desk::ServeEnd;

/// The status behind serving, by why no more connections came. Where nobody asked for any, memory was wanting.
pub fn status_of_serving(closing: Option<ServeEnd>) -> Status
    ensures { result ≡ status_of_serving closing }
{
    match closing {
        Some(ServeEnd::End) => Status::Done,
        Some(ServeEnd::DoorsFailed) => Status::DoorsFailed,
        Some(ServeEnd::NoMemory) => Status::NoMemory,
        None => Status::NoMemory,
    }
}
