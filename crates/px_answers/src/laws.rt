// Laws of what is returned.
ghost use Rattle.std.specs.Prelude.{◌≡◌, ◌≢◌, ◌++◌, List, ℕ, Bool, false};
ghost use Rattle.px_framing.specs.Reading.{IsSettled, Reading, stage_state};
ghost use Rattle.px_framing.specs.declared.rules.BodyRule.{BodyRule};
ghost use Rattle.px_framing.specs.declared.places.State.TheVariants as state;
ghost use Rattle.px_answers.specs.declared.forms.Framed.{Framed};
ghost use Rattle.px_answers.specs.Finished.{Work, finished};
ghost use Rattle.px_answers.specs.Forms.{body_of};
ghost use Rattle.px_answers.specs.Passages.{Read, ReadsAgain};

use px_framing::{body_is_one, body_is_read, raw_is_whole, read_is_said};

/// The raw bytes of a body are read to themselves and to the same data.
pub fn raw_again()
    ensures { (r : BodyRule) (rest raw plain : List ℕ) (reader : Reading) → Read r rest raw plain reader → IsSettled reader
        → ReadsAgain r raw plain (stage_state reader.stage) }
{
    body_is_read();
    body_is_one();
    raw_is_whole();
    read_is_said();
}

/// What is returned is settled at the body's end, whatever follows and however that ends.
pub fn settled_at_end()
    ensures { (w : Work) (f : Framed) (bytes more : List ℕ) (failed : Bool) → (body_of f.rule bytes).state ≢ state.More
        → finished w f (body_of f.rule (bytes ++ more)) failed ≡ finished w f (body_of f.rule bytes) false }
{}
