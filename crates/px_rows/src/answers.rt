//! How answers are returned, and requests sent on (RFC 9112, sections 3.2, 6 and 9.6; RFC 9110, sections 10.1.1 and 15.2).
#![tactic(auto, unfolding(core::specs::Fmt::digits, px_answers::specs::Framings::is_length, px_base::specs::Blanks::trimmed, px_base::specs::Numbers::decimal, px_head::specs::Prints::field_lines, px_head::specs::Prints::printed_head, px_head::specs::Prints::request_line, px_sending::specs::Heads::next_head))]

ghost use Rattle.std.specs.Prelude.{◌≡◌, ◌∷◌, [], Some, None, true, false, codes};
ghost use Rattle.px_answers.specs.Forms.{ends_by, state_at_end};
ghost use Rattle.px_answers.specs.Framings.{form_by, framing_of, answer_has_body, is_identity, is_plainly_coded, stated_length};
ghost use Rattle.px_answers.specs.declared.forms.Form.TheVariants as form;
ghost use Rattle.px_framing.specs.declared.places.State.TheVariants as state;
ghost use Rattle.px_framing.specs.declared.rules.BodyRule.TheVariants as rule;
ghost use Rattle.px_head.specs.Heads.{is_interim};
ghost use Rattle.px_pumps.specs.Answering.{most_heads};
ghost use Rattle.px_sending.specs.Heads.{expects_continue, next_head, next_minor};
ghost use Rattle.px_rows.specs.Rows.{field};

/// Heads of 100 to 199 are interim ones but that of 101, and up to nine heads are read of an answer.
fn interim_heads()
    ensures first { is_interim 100 ≡ true }
    ensures early { is_interim 103 ≡ true }
    ensures last { is_interim 199 ≡ true }
    ensures switching { is_interim 101 ≡ false }
    ensures answer { is_interim 200 ≡ false }
    ensures most { most_heads ≡ 9 }
{}

/// What frames an answer, and in which form its body is returned.
fn framings_of_answers()
    ensures length { framing_of form.Raw (rule.Length 2) [] ≡ field (codes "Content-Length") (codes "2") ∷ [] }
    ensures codings { framing_of form.Raw rule.Chunked (field (codes "transfer-encoding") (codes "gzip,chunked") ∷ [])
        ≡ field (codes "Transfer-Encoding") (codes "gzip, chunked") ∷ [] }
    ensures close { framing_of form.Raw rule.ToClose [] ≡ [] }
    ensures no_body { framing_of form.Raw rule.Absent (field (codes "Content-Length") (codes "007") ∷ [])
        ≡ field (codes "Content-Length") (codes "7") ∷ [] }
    ensures two_lengths { stated_length (field (codes "Content-Length") (codes "1") ∷ field (codes "Content-Length") (codes "1") ∷ [])
        ≡ None }
    ensures old { form_by true rule.Chunked (field (codes "Transfer-Encoding") (codes "chunked") ∷ []) ≡ form.Plain }
    ensures old_coded { form_by true rule.Chunked (field (codes "Transfer-Encoding") (codes "gzip, chunked") ∷ []) ≡ form.Raw }
    ensures new { form_by false rule.Chunked (field (codes "Transfer-Encoding") (codes "chunked") ∷ []) ≡ form.Raw }
    ensures end { ends_by form.Raw rule.Chunked ≡ true }
    ensures no_end { ends_by form.Raw rule.ToClose ≡ false }
    ensures no_end_of_data { ends_by form.Plain rule.Chunked ≡ false }
{}

/// Which bodies may be filtered, as far as their head says.
fn filterable_heads()
    ensures none { answer_has_body rule.Absent ≡ false }
    ensures plain { is_plainly_coded [] ≡ true }
    ensures chunks { is_plainly_coded (codes "chunked" ∷ []) ≡ true }
    ensures coded { is_plainly_coded (codes "gzip" ∷ codes "chunked" ∷ []) ≡ false }
    ensures identity { is_identity (field (codes "Content-Encoding") (codes "Identity")) ≡ true }
    ensures gzip { is_identity (field (codes "content-encoding") (codes "gzip")) ≡ false }
    ensures other { is_identity (field (codes "X-A") (codes "gzip")) ≡ true }
{}

/// How a body stands where its bytes end or their reading fails.
fn ends_of_answers()
    ensures failed { state_at_end rule.ToClose true state.More ≡ state.Cut }
    ensures ended { state_at_end rule.ToClose false state.More ≡ state.Whole }
    ensures short { state_at_end (rule.Length 3) false state.More ≡ state.Cut }
    ensures whole { state_at_end rule.Chunked true state.Whole ≡ state.Whole }
{
    // Nothing runs: the prover computes the rows.
}

/// The head that goes to the next server.
fn heads_sent_on()
    ensures get { next_head (record { method = codes "GET"; target = codes "/x"; host = codes "a.test"; downgrade = false; fields = []; rule = rule.Absent })
        ≡ codes "GET /x HTTP/1.1\r\nHost: a.test\r\nConnection: close\r\n\r\n" }
    ensures post { next_head (record { method = codes "POST"; target = codes "/x"; host = codes "a.test"; downgrade = false; fields = field (codes "A") (codes "1") ∷ []; rule = rule.Length 2 })
        ≡ codes "POST /x HTTP/1.1\r\nHost: a.test\r\nA: 1\r\nContent-Length: 2\r\nConnection: close\r\n\r\n" }
    ensures parent { next_head (record { method = codes "GET"; target = codes "http://b.test/"; host = codes "b.test"; downgrade = true; fields = []; rule = rule.Absent })
        ≡ codes "GET http://b.test/ HTTP/1.0\r\nHost: b.test\r\nConnection: close\r\n\r\n" }
    ensures chunks { next_minor true rule.Chunked ≡ 1 }
    ensures lower { next_minor true (rule.Length 2) ≡ 0 }
{}

/// A client that waits for 100 Continue.
fn waiting_clients()
    ensures waits { expects_continue 1 (field (codes "expect") (codes "100-Continue") ∷ []) (rule.Length 0) ≡ true }
    ensures old { expects_continue 0 (field (codes "Expect") (codes "100-continue") ∷ []) (rule.Length 2) ≡ false }
    ensures no_body { expects_continue 1 (field (codes "Expect") (codes "100-continue") ∷ []) rule.Absent ≡ false }
    ensures other { expects_continue 1 (field (codes "Expect") (codes "x") ∷ []) (rule.Length 2) ≡ false }
{}
