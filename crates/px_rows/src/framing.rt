//! How bodies are framed (RFC 9112, sections 6 and 7).
#![tactic(auto, unfolding(px_base::specs::Blanks::trimmed, px_base::specs::Numbers::decimal, px_framing::specs::Lines::place_after_line, px_framing::specs::Lines::may_stand, px_framing::specs::Lines::size_of, px_framing::specs::Rules::request_rule, px_framing::specs::Rules::response_rule))]

ghost use Rattle.std.specs.Prelude.{◌≡◌, ◌∷◌, ◌^◌, ◌-◌, [], Some, None, Ok, Err, true, false, codes};
ghost use Rattle.px_framing.specs.Body.{at_end, first_bytes};
ghost use Rattle.px_framing.specs.Lines.{place_after_line, may_stand, size_of};
ghost use Rattle.px_framing.specs.Rules.{codings_of, body_fault_name, body_fault_number, request_rule, response_rule};
ghost use Rattle.px_framing.specs.declared.places.ChunkPlace.TheVariants.{Data, Done, Gap, Size, Trailers};
ghost use Rattle.px_framing.specs.declared.places.State.TheVariants as state;
ghost use Rattle.px_framing.specs.declared.rules.BodyFault.TheVariants.{BadLength, LengthAndChunks, TwoLengths, UnknownCoding};
ghost use Rattle.px_framing.specs.declared.rules.BodyRule.TheVariants.{Absent, Chunked, Length, ToClose};
ghost use Rattle.px_rows.specs.Rows.{answer, field};

/// A size line has hexadecimal digits, white space, and an extension or none (RFC 9112, section 7.1).
fn sizes_of_chunks()
    ensures small { size_of (codes "1f4") ≡ Some 500 }
    ensures great { size_of (codes "3F4") ≡ Some 1012 }
    ensures zeros { size_of (codes "0005 ;a=b") ≡ Some 5 }
    ensures zero { size_of (codes "0") ≡ Some 0 }
    ensures sign { size_of (codes "+5") ≡ None }
    ensures minus { size_of (codes "-5") ≡ None }
    ensures prefix { size_of (codes "0x5") ≡ None }
    ensures empty { size_of [] ≡ None }
    ensures space { size_of (codes " 5") ≡ None }
    ensures behind { size_of (codes "5 a") ≡ None }
    ensures most { size_of (codes "7fffffffffffffff") ≡ Some 9223372036854775807 }
    ensures above { size_of (codes "8000000000000000") ≡ None }
{}

/// What comes behind the lines of a chunked body.
fn places_of_lines()
    ensures data { place_after_line Size (codes "2") ≡ Data 2 }
    ensures last_chunk { place_after_line Size (codes "0") ≡ Trailers 0 }
    ensures gap { place_after_line Gap [] ≡ Size }
    ensures trailer { place_after_line (Trailers 0) (codes "T: 1") ≡ Trailers 6 }
    ensures end { place_after_line (Trailers 6) [] ≡ Done }
    ensures no_gap { may_stand Gap (codes "x") ≡ false }
    ensures trailers { may_stand (Trailers 65530) (codes "T: 1") ≡ true }
    ensures many_trailers { may_stand (Trailers 65531) (codes "T: 1") ≡ false }
{}

/// By which rule the body of a request is read (RFC 9112, section 6.3).
fn bodies_of_requests()
    ensures none { request_rule [] ≡ Ok Absent }
    ensures stated { request_rule (field (codes "content-length") (codes "12") ∷ []) ≡ Ok (Length 12) }
    ensures equal { request_rule (field (codes "Content-Length") (codes "3") ∷ field (codes "Content-Length") (codes "03") ∷ [])
        ≡ Ok (Length 3) }
    ensures two { request_rule (field (codes "Content-Length") (codes "3") ∷ field (codes "Content-Length") (codes "4") ∷ [])
        ≡ Err TwoLengths }
    ensures bad { request_rule (field (codes "Content-Length") (codes "x") ∷ []) ≡ Err BadLength }
    ensures list { request_rule (field (codes "Content-Length") (codes "3, 3") ∷ []) ≡ Err BadLength }
    ensures above { request_rule (field (codes "Content-Length") (codes "9223372036854775808") ∷ []) ≡ Err BadLength }
    ensures chunks { request_rule (field (codes "Transfer-Encoding") (codes "Chunked") ∷ []) ≡ Ok Chunked }
    ensures empty_items { request_rule (field (codes "Transfer-Encoding") (codes ", chunked ,") ∷ []) ≡ Ok Chunked }
    ensures other { request_rule (field (codes "Transfer-Encoding") (codes "gzip") ∷ []) ≡ Err UnknownCoding }
    ensures twice { request_rule (field (codes "Transfer-Encoding") (codes "chunked, chunked") ∷ []) ≡ Err UnknownCoding }
    ensures both { request_rule (field (codes "Transfer-Encoding") (codes "chunked") ∷ field (codes "Content-Length") (codes "3") ∷ [])
        ≡ Err LengthAndChunks }
{
    // Nothing runs: the prover computes the rows.
}

/// By which rule the body of an answer is read.
fn bodies_of_answers()
    ensures close { response_rule (answer 1 200 [] []) (codes "GET") ≡ Ok ToClose }
    ensures to_head { response_rule (answer 1 200 [] (field (codes "Content-Length") (codes "x") ∷ [])) (codes "HEAD") ≡ Ok Absent }
    ensures no_content { response_rule (answer 1 204 [] []) (codes "GET") ≡ Ok Absent }
    ensures not_modified { response_rule (answer 1 304 [] []) (codes "GET") ≡ Ok Absent }
    ensures interim { response_rule (answer 1 103 [] []) (codes "GET") ≡ Ok Absent }
    ensures last_coding { response_rule (answer 1 200 [] (field (codes "Transfer-Encoding") (codes "gzip, chunked") ∷ [])) (codes "GET")
        ≡ Ok Chunked }
    ensures other_coding { response_rule (answer 1 200 [] (field (codes "Transfer-Encoding") (codes "chunked, gzip") ∷ [])) (codes "GET")
        ≡ Ok ToClose }
    ensures both { response_rule (answer 1 200 [] (field (codes "Transfer-Encoding") (codes "chunked") ∷ field (codes "Content-Length") (codes "3") ∷ [])) (codes "GET")
        ≡ Err LengthAndChunks }
    ensures bad { response_rule (answer 1 200 [] (field (codes "Content-Length") (codes "-1") ∷ [])) (codes "GET") ≡ Err BadLength }
{}

/// How a body stands where its bytes end.
fn ends_of_bodies()
    ensures close { at_end ToClose state.More ≡ state.Whole }
    ensures stated { at_end (Length 3) state.More ≡ state.Cut }
    ensures chunks { at_end Chunked state.More ≡ state.Cut }
    ensures whole { at_end Chunked state.Whole ≡ state.Whole }
    ensures misframed { at_end Chunked state.Misframed ≡ state.Misframed }
    ensures behind { first_bytes 2 state.Whole (codes "hi!")
        ≡ record { raw = codes "hi"; plain = codes "hi"; used = 2; state = state.Whole } }
    ensures short { first_bytes 3 state.Whole (codes "hi") ≡ record { raw = codes "hi"; plain = codes "hi"; used = 2; state = state.More } }
{}

/// The refusals of framings.
fn refusals_of_framings()
    ensures two { body_fault_number TwoLengths ≡ 37 }
    ensures two_name { body_fault_name TwoLengths ≡ codes "TwoLengths" }
    ensures bad { body_fault_number BadLength ≡ 38 }
    ensures bad_name { body_fault_name BadLength ≡ codes "BadLength" }
    ensures both { body_fault_number LengthAndChunks ≡ 39 }
    ensures both_name { body_fault_name LengthAndChunks ≡ codes "LengthAndChunks" }
    ensures coding { body_fault_number UnknownCoding ≡ 40 }
    ensures coding_name { body_fault_name UnknownCoding ≡ codes "UnknownCoding" }
{}
