// Laws of what publishers, hand-outs and looks can do in any order.
ghost use Rattle.std.specs.Prelude.{◌≡◌, ◌+◌, ◌++◌, ℕ, List, length, All, Contains};
ghost use Rattle.px_publish.specs.Schedule.{Event, MayAllCome, Rises, Session, begun_since, newest, run, start};

/// After every list of events, the numbers of each session never fall, begin at or above the newest number as it was
/// handed out, and are of the published list.
pub fn sessions_rise<C>()
    ensures rise { (first : C) (events : List (Event C)) → MayAllCome (start first) events
        → All (λ s. Rises s.handed s.numbers (newest (run (start first) events))) (run (start first) events).sessions }
    ensures some { (first : C) (events : List (Event C)) → length (run (start first) events).published ≡ newest (run (start first) events) + 1 }
{}

/// Once any session of any worker has used a number, a session that begins later has no number below it.
pub fn later_sessions_use_none_older<C>()
    ensures { (first : C) (before events : List (Event C)) → MayAllCome (start first) (before ++ events)
        → (s : Session) (number : ℕ) → Contains (run (start first) before).sessions s → Contains s.numbers number
        → All (λ t. Rises number t.numbers (newest (run (start first) (before ++ events)))) (begun_since (run (start first) before) (run (start first) (before ++ events))) }
{}
