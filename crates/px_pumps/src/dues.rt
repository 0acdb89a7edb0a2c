// What is due to the client.
ghost use Rattle.std.specs.Prelude.{◌≡◌};
ghost use Rattle.px_pumps.specs.Answering.{returned_ending};

use px_answers::Returned;
use px_base::Text;
use px_notes::{After, Ending};

/// What is due to the client: the bytes, the ending that they are, and what comes after them.
#[derive(Drop)]
pub struct Due {
    pub bytes: Text,
    pub ending: Ending,
    pub after: After,
}

/// The ending of an answer that was returned so.
pub fn ending_of(returned: Returned) -> Ending
    ensures { result ≡ returned_ending returned }
{
    match returned {
        Returned::Passed => Ending::Passed,
        Returned::Filtered => Ending::Filtered,
        Returned::Bodiless => Ending::Bodiless,
        Returned::CutFront => Ending::CutFront,
    }
}
