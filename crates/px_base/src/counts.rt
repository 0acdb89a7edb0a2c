// Counts that stay at the end of their type.
ghost use Rattle.std.specs.Prelude.{◌≡◌, ◌≤◌, ◌==◌, ℕ, not, MatchBool};
ghost use Rattle.px_base.specs.Causes.{IsOneMore, Rose, RisesWith};

/// One more where it is so; a count at the end of its type stays there.
pub fn raised(count: u64, by: bool) -> u64
    ensures later { count ≤ result }
    ensures exact { MatchBool by (IsOneMore count result) (result ≡ count) }
    ensures cases { MatchBool by (Rose count result) (result ≡ count) }
    ensures rises { (n : ℕ) → by ≡ not (n == 0) → RisesWith count result n }
{
    if by { count.saturating_add(1) } else { count }
}
