// What a machine behind a head says of what is returned.
ghost use Rattle.std.specs.Prelude.{List, ℕ};
ghost use Rattle.px_answers.specs.Finished.{Work};
ghost use Rattle.px_answers.specs.Passages as passages;
ghost use Rattle.px_answers.specs.declared.courses.Course.{Course};
ghost use Rattle.px_answers.specs.declared.forms.Framed.{Framed};
ghost use Rattle.px_pumps.specs.Pumps.{CourseTells};

/// What is known of a machine behind a head, whatever it was fed.
#[tactic(auto, using(crate::proofs::PassageLemmas::tells))]
pub fn passage_tells()
    ensures { (w : Work) (f : Framed) (rest put : List ℕ) (c : Course) → passages.CourseAfter w f rest put c → CourseTells w f rest put c }
{}
