//! Header actions (Privoxy's manual, "Actions Files"; RFC 9110; RFC 6265).
#![tactic(auto, unfolding(core::specs::Fmt::digits, core::specs::Str::chars, core::specs::Str::is_utf8, memchr::specs::Find::first_of, memchr::specs::Find::matches_from, px_base::specs::Blanks::trimmed, px_base::specs::Numbers::decimal, px_base::specs::Ports::port, px_headers::specs::ClientRows::blocked_fields, px_headers::specs::ClientRows::blocked_or_set, px_headers::specs::Cookies::is_expires, px_headers::specs::Cookies::is_max_age, px_headers::specs::Cookies::piece_name, px_headers::specs::Cookies::piece_value, px_headers::specs::Cookies::session_cookie, px_headers::specs::Kinds::holds_without_case, px_headers::specs::Kinds::is_text_type, px_headers::specs::Referrers::is_foreign, px_headers::specs::Referrers::root_of, px_headers::specs::Referrers::with_hidden_referrer, px_headers::specs::Referrers::without_brackets, px_headers::specs::Rewrites::before_version, px_headers::specs::Rewrites::behind_prefix, px_headers::specs::Rewrites::behind_version, px_headers::specs::Rewrites::is_status_part, px_headers::specs::Rewrites::rewritten, px_headers::specs::Rewrites::target_in, px_headers::specs::Rows::with_more, px_headers::specs::Rows::with_value, px_headers::specs::Rows::without_field, px_headers::specs::Rows::without_holding, px_patterns::specs::Urls::host_of, px_patterns::specs::Urls::port_of, px_patterns::specs::Urls::shown_host_port, px_patterns::specs::Urls::url_of))]

ghost use Rattle.std.specs.Prelude.{◌≡◌, ◌∷◌, [], Some, None, true, false, codes, option_map};
ghost use Rattle.px_headers.specs.ClientRows.{blocked_fields, blocked_or_set};
ghost use Rattle.px_headers.specs.Cookies.{are_some_digits, is_expires, is_max_age, is_negative, piece_name, piece_value, session_cookie};
ghost use Rattle.px_headers.specs.HeldBack.{connection_words, words_in};
ghost use Rattle.px_headers.specs.Kinds.{is_text_type};
ghost use Rattle.px_headers.specs.Referrers.{host_behind, is_foreign, with_hidden_referrer};
ghost use Rattle.px_headers.specs.Rewrites.{is_status_line, kept_status_line, rewritten};
ghost use Rattle.px_headers.specs.Rows.{with_more, with_value, without_field, without_holding};
ghost use Rattle.px_rows.specs.Rows.{field, url_at};

/// The host of a referrer is what stands behind `://` up to a slash, a question mark or a hash mark, without a port and without
/// brackets; a colon with other bytes than digits behind it is no port (Privoxy's manual, "hide-referrer").
fn hosts_of_referrers()
    ensures path { host_behind (codes "a.test/y") ≡ codes "a.test" }
    ensures query { host_behind (codes "a.test?y") ≡ codes "a.test" }
    ensures port { host_behind (codes "a.test:81/x") ≡ codes "a.test" }
    ensures address { host_behind (codes "[::1]:81/") ≡ codes "::1" }
    ensures user { host_behind (codes "u:p@b.test/") ≡ codes "u:p@b.test" }
    ensures same { is_foreign (codes "a.test") (codes "https://A.test/y") ≡ false }
    ensures other { is_foreign (codes "a.test") (codes "http://b.test/") ≡ true }
    ensures no_url { is_foreign (codes "a.test") (codes "about") ≡ true }
{}

/// What hide-referrer makes of a Referer field.
fn referrers()
    ensures own { with_hidden_referrer (url_at (codes "a.test") 81 (codes "/x")) (codes "conditional-forge") (field (codes "Referer") (codes "https://A.test/y") ∷ [])
        ≡ field (codes "Referer") (codes "https://A.test/y") ∷ [] }
    ensures foreign { with_hidden_referrer (url_at (codes "a.test") 81 (codes "/x")) (codes "conditional-forge") (field (codes "Referer") (codes "http://b.test/") ∷ [])
        ≡ field (codes "Referer") (codes "http://a.test:81/") ∷ [] }
    ensures no_url { with_hidden_referrer (url_at (codes "a.test") 81 (codes "/x")) (codes "conditional-forge") (field (codes "Referer") (codes "about") ∷ [])
        ≡ field (codes "Referer") (codes "http://a.test:81/") ∷ [] }
    ensures conditional { with_hidden_referrer (url_at (codes "a.test") 81 (codes "/x")) (codes "conditional-block") (field (codes "Referer") (codes "http://b.test/") ∷ [])
        ≡ [] }
    ensures block { with_hidden_referrer (url_at (codes "a.test") 81 (codes "/x")) (codes "block") (field (codes "Referer") (codes "http://a.test/") ∷ [])
        ≡ [] }
    ensures text { with_hidden_referrer (url_at (codes "a.test") 81 (codes "/x")) (codes "r") (field (codes "referer") (codes "x") ∷ [])
        ≡ field (codes "referer") (codes "r") ∷ [] }
{}

/// A cookie of a session has no attribute that says how long it lives (Privoxy's manual, "session-cookies-only").
fn cookies_of_a_session()
    ensures expires { session_cookie (codes "a=b; Expires=x; Path=/") ≡ codes "a=b; Path=/" }
    ensures max_age { session_cookie (codes "a=b; max-age=5") ≡ codes "a=b" }
    ensures own_name { session_cookie (codes "expires=b") ≡ codes "expires=b" }
    ensures whole { session_cookie (codes "s=9; expires=Mon, 10 Sep 2001 00:00:00 GMT; path=/") ≡ codes "s=9; path=/" }
{}

/// The pieces of a cookie have names and values, without white space at their ends (RFC 6265, section 4.1).
fn pieces_of_cookies()
    ensures name { piece_name (codes " Max-Age = 5") ≡ codes "Max-Age" }
    ensures value { piece_value (codes " Max-Age = 5 ") ≡ codes "5" }
    ensures no_value { piece_name (codes " secure ") ≡ codes "secure" }
    ensures expires { is_expires (codes " EXPIRES=x") ≡ true }
    ensures max_age { is_max_age (codes "max-age") ≡ true }
    ensures other { is_expires (codes "expires2=x") ≡ false }
    ensures past { is_negative (codes "-1") ≡ true }
    ensures minus { is_negative (codes "-") ≡ false }
    ensures digits { are_some_digits (codes "60s") ≡ false }
{
    // Nothing runs: the prover computes the rows.
}

/// Which content types are those of a text.
fn types_of_a_text()
    ensures html { is_text_type (codes "text/html") ≡ true }
    ensures plain { is_text_type (codes "Text/Plain") ≡ false }
    ensures image { is_text_type (codes "image/png") ≡ false }
    ensures script { is_text_type (codes "application/javascript") ≡ true }
    ensures xml { is_text_type (codes "application/XHTML+XML") ≡ true }
{}

/// The words of a Connection field name fields that aren't passed on (RFC 9110, section 7.6.1); Keep-Alive never is.
fn words_of_connection_fields()
    ensures words { words_in (codes "X-A ,close, Keep-Alive") ≡ codes "X-A" ∷ codes "close" ∷ [] }
    ensures fields { connection_words (field (codes "connection") (codes "X-A") ∷ field (codes "Upgrade") (codes "X-B") ∷ []) ≡ codes "X-A" ∷ [] }
{}

/// What actions do to fields: setting changes those that are there, and removing removes each.
fn changed_fields()
    ensures set { with_value (codes "User-Agent") (codes "x") (field (codes "user-agent") (codes "y") ∷ field (codes "A") (codes "1") ∷ [])
        ≡ field (codes "user-agent") (codes "x") ∷ field (codes "A") (codes "1") ∷ [] }
    ensures not_added { with_value (codes "User-Agent") (codes "x") [] ≡ [] }
    ensures each { without_field (codes "A") (field (codes "a") (codes "1") ∷ field (codes "B") (codes "2") ∷ field (codes "A") (codes "3") ∷ [])
        ≡ field (codes "B") (codes "2") ∷ [] }
    ensures block { blocked_or_set (codes "From") (codes "block") (field (codes "From") (codes "u") ∷ []) ≡ [] }
    ensures other { blocked_or_set (codes "From") (codes "v") (field (codes "From") (codes "u") ∷ [])
        ≡ field (codes "From") (codes "v") ∷ [] }
    ensures no_effect { blocked_fields (codes "If-Modified-Since") (codes "1") (field (codes "If-Modified-Since") (codes "u") ∷ [])
        ≡ field (codes "If-Modified-Since") (codes "u") ∷ [] }
    ensures more { with_more (codes "X-Forwarded-For") (codes ", ") (codes "127.0.0.1") (field (codes "X-Forwarded-For") (codes "10.0.0.1") ∷ [])
        ≡ field (codes "X-Forwarded-For") (codes "10.0.0.1, 127.0.0.1") ∷ [] }
    ensures new { with_more (codes "X-Forwarded-For") (codes ", ") (codes "127.0.0.1") []
        ≡ field (codes "X-Forwarded-For") (codes "127.0.0.1") ∷ [] }
    ensures crunched { without_holding (codes "A: 1") (field (codes "X-A") (codes "12") ∷ field (codes "a") (codes "1") ∷ [])
        ≡ field (codes "a") (codes "1") ∷ [] }
{}

/// A rewritten request line is one of the same method; a rewritten status line is one of the same status.
fn rewritten_lines()
    ensures elsewhere { rewritten (codes "GET") (codes "GET http://b.test:81/x HTTP/1.1") ≡ Some (url_at (codes "b.test") 81 (codes "/x")) }
    ensures other_method { rewritten (codes "GET") (codes "POST http://b.test/ HTTP/1.1") ≡ None }
    ensures no_line { rewritten (codes "GET") (codes "x") ≡ None }
    ensures no_url { rewritten (codes "GET") (codes "GET /x HTTP/1.1") ≡ None }
    ensures other_version { rewritten (codes "GET") (codes "GET http://b.test/ HTTP/1.2") ≡ None }
    ensures reason { kept_status_line 200 (codes "HTTP/1.1 200 OK") (Some (codes "HTTP/1.0 200 Fine")) ≡ codes "HTTP/1.0 200 Fine" }
    ensures other_status { kept_status_line 200 (codes "HTTP/1.1 200 OK") (Some (codes "HTTP/1.1 404 x")) ≡ codes "HTTP/1.1 200 OK" }
    ensures bare { is_status_line 200 (codes "HTTP/1.1 200") ≡ true }
    ensures two_lines { is_status_line 200 (codes "HTTP/1.1 200 OK\r\nX: 1") ≡ false }
{}
