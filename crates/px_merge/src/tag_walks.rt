// Sections whose patterns are tried on tags.
ghost use Rattle.std.specs.Prelude.{◌≡◌, IfOk, slice_get};
ghost use Rattle.px_merge.specs.Merging.{sections_with};
ghost use Rattle.px_merge.specs.Selections.{has_some, is_for_test, picked};

use crate::matchers::Matchers;
use crate::places::PatternPlace;
use crate::sides::TagTest;
use px_base::Mem;
use std::alloc::Global;

/// Whether the section with a number, if there is one, has a pattern that passes a test of tags.
#[tactic(auto, using(crate::proofs::TagLemmas::none_passes, crate::proofs::WalkLemmas::some_in))]
fn has_hit(
    alloc: Global,
    matchers: &mut Matchers<'_>,
    section: usize,
    test: TagTest<'_>,
) -> Result<bool, Mem>
    ensures value { IfOk result (λ yes. yes ≡ has_some (is_for_test test.entry) (slice_get matchers.old section)) }
    ensures same { matchers.new ≡ matchers.old }
{
    for pattern in 0..matchers.count_patterns(section) {
        if matchers.try_tags(alloc, PatternPlace { section, pattern }, test)? {
            return Ok(true);
        }
    }
    Ok(false)
}

/// Of some sections the numbers of those that have a pattern that passes a test of tags.
pub fn tag_hits(
    alloc: Global,
    matchers: &mut Matchers<'_>,
    numbers: &[usize],
    test: TagTest<'_>,
) -> Result<Vec<usize>, Mem>
    ensures value { IfOk result (λ hits. picked matchers.old hits.items ≡ sections_with (is_for_test test.entry) (picked matchers.old numbers.now)) }
    ensures same { matchers.new ≡ matchers.old }
{
    let mut hits = Vec::new(alloc);
    let mut rest = numbers;
    'numbers: while let Some((number, others)) = rest.split_first() {
        if has_hit(alloc, matchers, *number, test)? {
            hits.push(*number)?;
        }
        rest = others;
    }
    Ok(hits)
}
