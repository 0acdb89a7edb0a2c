// Laws of heads, and what their constants are.
ghost use Rattle.std.specs.Prelude.{◌≡◌, ℕ, List, All, Some};
ghost use Rattle.px_head.specs.Faults.{too_long_number, too_long_name};
ghost use Rattle.px_fields.specs.FieldLines.{read_field};
ghost use Rattle.px_head.specs.Heads.{IsRequest, IsResponse};
ghost use Rattle.px_head.specs.ReadBack.{ReadsBack};
ghost use Rattle.px_fields.specs.declared.fields.Field.{Field};
ghost use Rattle.px_head.specs.declared.requests.RequestHead.{RequestHead};
ghost use Rattle.px_head.specs.declared.responses.ResponseHead.{ResponseHead};

use crate::{FIELD_LIMIT, HEAD_LIMIT, TOO_LONG_NAME, TOO_LONG_NUMBER};

/// The limits of a head, and the refusal of one over them.
pub fn constants()
    ensures head_limit { HEAD_LIMIT ≡ 131072 }
    ensures field_limit { FIELD_LIMIT ≡ 256 }
    ensures too_long_number { TOO_LONG_NUMBER ≡ too_long_number }
    ensures too_long_name { TOO_LONG_NAME.now ≡ too_long_name }
{}

/// A block reads as one head at most, so that what is said of a reading is a function of the bytes.
pub fn readings_are_one()
    ensures request { (block : List ℕ) (head other : RequestHead) → IsRequest block head → IsRequest block other → head ≡ other }
    ensures response { (block : List ℕ) (head other : ResponseHead) → IsResponse block head → IsResponse block other → head ≡ other }
{}

/// Each field of a head that was read prints a line that reads back as that field, and so does each field that a line gave
/// (RFC 9112, section 5).
pub fn fields_read_back()
    ensures request { (block : List ℕ) (head : RequestHead) → IsRequest block head → All ReadsBack head.fields }
    ensures response { (block : List ℕ) (head : ResponseHead) → IsResponse block head → All ReadsBack head.fields }
    ensures line { (text : List ℕ) (field : Field) → read_field text ≡ Some field → ReadsBack field }
{}
