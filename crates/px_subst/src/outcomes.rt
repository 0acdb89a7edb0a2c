// What a job or a filter gives.
ghost use Rattle.std.specs.Prelude.{◌≡◌, unwrap_or, IfOk};

use px_base::{Mem, Text};
use std::alloc::Global;

/// What a job or a filter makes of bytes.
#[derive(Drop)]
pub struct JobOutcome {
    pub text: Text,
    /// How many matches were replaced; of a filter the sum over its jobs, up to the greatest u64.
    pub hits: u64,
}

impl JobOutcome {
    ghost use Rattle.px_subst.specs.Jobs.{unchanged};

    /// What was found, or a copy of the text where nothing was hit.
    pub(crate) fn or_unchanged(
        alloc: Global,
        found: Option<JobOutcome>,
        text: &[u8],
    ) -> Result<JobOutcome, Mem>
        ensures { IfOk result (λ outcome. outcome ≡ unwrap_or found (unchanged text.now)) }
    {
        match found {
            Some(outcome) => Ok(outcome),
            None => Ok(JobOutcome {
                text: Text::from_bytes(alloc, text)?,
                hits: 0,
            }),
        }
    }
}
