//! Requests and how sessions end (RFC 9112, sections 3.2 and 9.3; RFC 9110, section 9.3.6).
#![tactic(auto, unfolding(core::specs::Fmt::digits, core::specs::Str::chars, core::specs::Str::is_utf8, px_base::specs::Blanks::trimmed, px_base::specs::Numbers::decimal, px_base::specs::Ports::port, px_framing::specs::Rules::request_rule, px_fields::specs::Names::lists_word, px_judging::specs::Replies::url_symbols, px_judging::specs::Requests::keeps_behind_request, px_patterns::specs::Urls::authority_of, px_patterns::specs::Urls::host_of, px_patterns::specs::Urls::port_of, px_patterns::specs::Urls::shown_url, px_patterns::specs::Urls::url_of))]

ghost use Rattle.std.specs.Prelude.{◌≡◌, ◌∷◌, [], Some, None, Ok, Err, true, false, codes};
ghost use Rattle.px_framing.specs.declared.rules.BodyRule.TheVariants as rule;
ghost use Rattle.px_notes.specs.declared.endings.After.TheVariants as after;
ghost use Rattle.px_notes.specs.declared.sessions.SessionEnd.TheVariants as end;
ghost use Rattle.px_judging.specs.Replies.{url_symbols};
ghost use Rattle.px_judging.specs.Requests.{body_read, is_connect, is_head, keeps_behind_request, target_read};
ghost use Rattle.px_patterns.specs.declared.faults.UrlFault.TheVariants as url;
ghost use Rattle.px_serve.specs.Ends.{end_by, end_of_bytes, only_empty};
ghost use Rattle.px_templates.specs.declared.pages.Page.TheVariants as page;
ghost use Rattle.px_exchange.specs.Replies.{error_of, parent_value};
ghost use Rattle.px_rows.specs.Rows.{field, request_head, symbols, url_at};

/// What is asked for, by method and target.
fn targets_of_requests()
    ensures url { target_read (request_head (codes "GET") (codes "http://a.test/x") 1 []) ≡ Ok (url_at (codes "a.test") 80 (codes "/x")) }
    ensures path { target_read (request_head (codes "GET") (codes "/x") 1 []) ≡ Err url.NotHttp }
    ensures tunnel { target_read (request_head (codes "CONNECT") (codes "a.test:443") 1 []) ≡ Ok (url_at (codes "a.test") 443 (codes "/")) }
    ensures tunnel_to_a_url { target_read (request_head (codes "CONNECT") (codes "http://a.test/") 1 []) ≡ Err url.BadPort }
    ensures case { is_connect (request_head (codes "connect") (codes "a.test:443") 1 []) ≡ false }
    ensures head { is_head (request_head (codes "HEAD") (codes "/") 1 []) ≡ true }
    ensures no_body { body_read (request_head (codes "CONNECT") (codes "a.test:443") 1 (field (codes "Content-Length") (codes "x") ∷ []))
        ≡ Ok rule.Absent }
{}

/// Which requests let the connection be kept.
fn kept_connections()
    ensures new { keeps_behind_request false (request_head (codes "GET") (codes "/") 1 []) ≡ true }
    ensures old { keeps_behind_request false (request_head (codes "GET") (codes "/") 0 []) ≡ false }
    ensures close { keeps_behind_request false (request_head (codes "GET") (codes "/") 1 (field (codes "connection") (codes "Close") ∷ [])) ≡ false }
    ensures last { keeps_behind_request true (request_head (codes "GET") (codes "/") 1 []) ≡ false }
{}

/// The values of a page's symbols.
fn symbols_of_pages()
    ensures of_url { url_symbols (url_at (codes "a.test") 81 (codes "/x")) (codes "no") [] []
        ≡ symbols (codes "a.test") (codes "81") (codes "/x") (codes "http://a.test:81/x") (codes "no") [] [] }
    ensures misframed { error_of page.InvalidRequest ≡ codes "Misframed" }
    ensures parent { parent_value (record { host = codes "p.test"; port = 8080; parent = true }) page.ForwardingFailed ≡ codes "p.test:8080" }
    ensures no_parent { parent_value (record { host = codes "p.test"; port = 8080; parent = true }) page.SendFailed ≡ [] }
{}

/// How a session ends, by the bytes behind its last request and by what came of that.
fn ends_of_sessions()
    ensures nothing { end_of_bytes [] ≡ end.Ended }
    ensures empty_lines { end_of_bytes (codes "\r\n\n") ≡ end.Ended }
    ensures begun { end_of_bytes (codes "GET") ≡ end.Cut }
    ensures return_alone { only_empty (codes "\r") ≡ false }
    ensures goes_on { end_by false false after.Keep ≡ None }
    ensures closed { end_by false false after.Close ≡ Some end.Closed }
    ensures hundredth { end_by true false after.Close ≡ Some end.Spent }
    ensures hundredth_tunnel { end_by true true after.Close ≡ Some end.Closed }
    ensures cut { end_by false false after.Cut ≡ Some end.Cut }
    ensures no_memory { end_by true false after.NoMemory ≡ Some end.NoMemory }
{}
