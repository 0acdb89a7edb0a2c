//! Heads of messages (RFC 9110 and RFC 9112).
#![tactic(auto, unfolding(core::specs::Fmt::digits, px_base::specs::Blanks::trimmed, px_head::specs::Blocks::block_len, px_head::specs::Blocks::block_of, px_head::specs::Blocks::head_end, px_head::specs::Blocks::whole_lines, px_head::specs::Blocks::up_to_empty, px_fields::specs::Names::is_held_back_of_request, px_fields::specs::Names::is_held_back_of_response, px_fields::specs::Names::lists_word, px_head::specs::Prints::field_lines, px_head::specs::Prints::printed_head, px_head::specs::Prints::request_line, px_head::specs::Prints::status_line, px_head::specs::Prints::status_text))]

ghost use Rattle.std.specs.Prelude.{◌≡◌, ◌∷◌, [], Some, None, true, false, codes};
ghost use Rattle.px_head.specs.Blocks.{block_len, head_end};
ghost use Rattle.px_head.specs.Faults.{head_fault_name, head_fault_number, too_long_name, too_long_number};
ghost use Rattle.px_fields.specs.Names.{has_field, is_connection_word, is_held_back_of_request, is_held_back_of_response, lists_word};
ghost use Rattle.px_head.specs.Prints.{printed_head, request_line, status_line, status_text};
ghost use Rattle.px_head.specs.declared.blocks.HeadEnd.TheVariants.{At, NotYet, Over};
ghost use Rattle.px_head.specs.declared.faults.HeadFault.TheVariants.{Malformed, TooManyFields};
ghost use Rattle.px_rows.specs.Rows.{answer, field, request_head};

/// The names that are held back, without case (RFC 9110, section 7.6.1).
fn names_that_are_held_back()
    ensures connection { is_held_back_of_request (codes "CONNECTION") ≡ true }
    ensures proxy_connection { is_held_back_of_request (codes "Proxy-Connection") ≡ true }
    ensures keep_alive { is_held_back_of_response (codes "keep-alive") ≡ true }
    ensures te { is_held_back_of_request (codes "TE") ≡ true }
    ensures trailer { is_held_back_of_response (codes "Trailer") ≡ true }
    ensures coding { is_held_back_of_response (codes "Transfer-Encoding") ≡ true }
    ensures upgrade { is_held_back_of_response (codes "Upgrade") ≡ true }
    ensures length { is_held_back_of_response (codes "Content-Length") ≡ true }
    ensures host { is_held_back_of_request (codes "host") ≡ true }
    ensures host_of_a_response { is_held_back_of_response (codes "Host") ≡ false }
    ensures expect { is_held_back_of_request (codes "Expect") ≡ true }
    ensures authorization { is_held_back_of_request (codes "Proxy-Authorization") ≡ true }
    ensures accept { is_held_back_of_request (codes "Accept") ≡ false }
    ensures longer { is_held_back_of_request (codes "Hosts") ≡ false }
{}

/// A Connection field lists words between commas, without the white space around them and without case.
fn words_of_a_connection_field()
    ensures second { lists_word (codes "close") (codes "keep-alive , Close") ≡ true }
    ensures part { lists_word (codes "close") (codes "closed") ≡ false }
    ensures fields { is_connection_word (codes "x-a") (field (codes "CONNECTION") (codes "X-A") ∷ []) ≡ true }
    ensures other_field { is_connection_word (codes "x-a") (field (codes "Upgrade") (codes "X-A") ∷ []) ≡ false }
    ensures stands { has_field (codes "host") (field (codes "Host") (codes "a") ∷ []) ≡ true }
{}

/// A head ends with the first empty line behind a line that isn't empty, and within its limit (RFC 9112, section 2).
fn ends_of_heads()
    ensures block { block_len (codes "A B\r\n\r\nmore") ≡ Some 7 }
    ensures line_feeds { block_len (codes "A B\n\nmore") ≡ Some 5 }
    ensures empty_front { block_len (codes "\r\n\nA\r\n\r\n") ≡ Some 8 }
    ensures empty_lines { block_len (codes "\r\n\r\n") ≡ None }
    ensures no_end { block_len (codes "A\r\nB\r\n") ≡ None }
    ensures return_alone { block_len (codes "A\r\r\n") ≡ None }
    ensures at { head_end 7 (codes "A B\r\n\r\nmore") ≡ At 7 }
    ensures over { head_end 6 (codes "A B\r\n\r\nmore") ≡ Over }
    ensures not_yet { head_end 7 (codes "A B\r\n\r") ≡ NotYet }
{}

/// How heads are printed.
fn printed_heads()
    ensures request { request_line (request_head (codes "GET") (codes "/x") 1 []) ≡ codes "GET /x HTTP/1.1" }
    ensures old { request_line (request_head (codes "GET") (codes "/x") 0 []) ≡ codes "GET /x HTTP/1.0" }
    ensures answer { status_line (answer 1 404 (codes "Not Found") []) ≡ codes "HTTP/1.1 404 Not Found" }
    ensures no_reason { status_line (answer 1 200 [] []) ≡ codes "HTTP/1.1 200" }
    ensures three_digits { status_text 7 ≡ codes "007" }
    ensures fields { printed_head (codes "A") (field (codes "X") (codes "1") ∷ field (codes "Y") [] ∷ [])
        ≡ codes "A\r\nX: 1\r\nY: \r\n\r\n" }
{
    // Nothing runs: the prover computes the rows.
}

/// The refusals of heads.
fn refusals_of_heads()
    ensures malformed { head_fault_number Malformed ≡ 34 }
    ensures malformed_name { head_fault_name Malformed ≡ codes "Malformed" }
    ensures many { head_fault_number TooManyFields ≡ 35 }
    ensures many_name { head_fault_name TooManyFields ≡ codes "TooManyFields" }
    ensures long { too_long_number ≡ 36 }
    ensures long_name { too_long_name ≡ codes "TooLong" }
{}
