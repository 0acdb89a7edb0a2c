// Laws of bodies.
ghost use Rattle.std.specs.Prelude.{◌≡◌, List, ℕ, length};
ghost use Rattle.px_framing.specs.Body.{Body, Part};
ghost use Rattle.px_framing.specs.Reading.{ReaderAfter, IsSettled, Reading, first, goes_on, stage_state};
ghost use Rattle.px_framing.specs.declared.rules.BodyRule.{BodyRule};

use crate::places::State;
use crate::rules::BodyRule;
use crate::{BODY_LIMIT, LINE_LIMIT};

/// The limits of a body and of its lines.
pub fn constants()
    ensures body_limit { BODY_LIMIT ≡ 9223372036854775807 }
    ensures line_limit { LINE_LIMIT ≡ 8192 }
{}

/// However bytes are cut into pieces, they have one raw, one plain, one count of used bytes and one state.
pub fn cuts_agree()
    ensures { (rule : BodyRule) (bytes raw raw' plain plain' : List ℕ) (count count' : ℕ) (r r' : Reading)
        → ReaderAfter rule bytes raw plain count r → ReaderAfter rule bytes raw' plain' count' r' → IsSettled r → IsSettled r'
        → (raw ≡ raw') × (plain ≡ plain') × (count ≡ count') × (stage_state r.stage ≡ stage_state r'.stage) }
{}

/// The raw bytes of a whole chunked body are a whole chunked body with the same data.
pub fn raw_is_whole()
    ensures { (bytes : List ℕ) (p : Part) → Body BodyRule.Chunked bytes p → p.state ≡ State.Whole
        → Body BodyRule.Chunked p.raw (record p { used = length p.raw }) }
{}

/// A body is read to one part: what is said of whole bytes is a function of them.
pub fn body_is_one()
    ensures { (rule : BodyRule) (bytes : List ℕ) (p q : Part) → Body rule bytes p → Body rule bytes q → p ≡ q }
{}

/// What a reader at the start of a body reads bytes to is what is said of them.
pub fn body_is_read()
    ensures { (rule : BodyRule) (bytes : List ℕ) → Body rule bytes (goes_on (first rule) bytes) }
{}

/// What a reader that was fed bytes has put out, and how it stands, is what is said of them.
pub fn read_is_said()
    ensures { (rule : BodyRule) (bytes raw plain : List ℕ) (count : ℕ) (r : Reading) → ReaderAfter rule bytes raw plain count r → IsSettled r
        → Body rule bytes (record { raw = raw; plain = plain; used = count; state = stage_state r.stage }) }
{}
