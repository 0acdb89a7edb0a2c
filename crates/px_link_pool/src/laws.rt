// What the marks of lent links say, and which links are kept.
ghost use Rattle.std.specs.Prelude.{◌≡◌, ℕ, Bool, false, true};
ghost use Rattle.px_pool_ends.specs.Incomings.{Hearing};
ghost use Rattle.px_pool_ends.specs.Names.{Passed, lent_mark};
ghost use Rattle.px_pool_ends.specs.Outgoings.{Sending};
ghost use Rattle.px_link_pool.specs.Histories.{is_link_wanting, may_keep, IsJudged};
ghost use Rattle.px_link_pool.specs.Joins.{IsNamedLink};
ghost use Rattle.px_link_pool.specs.Keeping.{IsSeenOpen};

/// An end with the mark of a lent link tells, and is one of the same inner link, lent when the same had gone over it.
#[tactic(auto, using(crate::proofs::MarkLemmas::one_name))]
pub fn marks_are_one()
    ensures { (t : Bool) (m : ℕ) (w : Passed) (n : ℕ) (u : Passed) → lent_mark t m w ≡ lent_mark true n u → IsNamedLink t m w n u }
{}

/// What was seen of a link that was handed back says whether it may be kept: of one that may it was seen to be open, and where
/// that was seen of one, memory wasn't wanting for it, and the inner sink hasn't failed, it may.
#[tactic(auto, using(crate::proofs::KeepingLemmas::seen_open, crate::proofs::KeepingLemmas::kept_open))]
pub fn kept_links_are_seen()
    ensures seen { (h : Hearing) (s : Sending) → IsJudged h s → may_keep h s ≡ true → IsSeenOpen h s }
    ensures kept { (h : Hearing) (s : Sending) → IsJudged h s → is_link_wanting h s ≡ false → s.sink.faults ≡ 0 → IsSeenOpen h s → may_keep h s ≡ true }
{}
