//! Fields of HTTP/1.x heads (RFC 9110, section 5): their lines, their names, and those that a proxy doesn't pass on.
#![tactic(auto)]

mod field_lines;
mod fields;
mod names;

pub use field_lines::{FieldLine, is_token, read_field_line};
pub use fields::{FIELD_SEPARATOR, Field, push_field};
pub use names::{
    first_field, has_field, has_name, is_connection_word, is_held_back_of_request,
    is_held_back_of_response, lists_word,
};
