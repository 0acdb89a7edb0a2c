//! URLs, and patterns of hosts (RFC 9112, section 3.2; Privoxy's manual, "Patterns").
#![tactic(auto, unfolding(core::specs::Fmt::digits, core::specs::Str::chars, core::specs::Str::is_utf8, px_base::specs::Blanks::trimmed, px_base::specs::Numbers::decimal, px_base::specs::Ports::item, px_base::specs::Ports::port, px_base::specs::Ports::port_list, px_patterns::specs::Expressions::pattern_expression, px_patterns::specs::Globs::glob_matches, px_patterns::specs::Globs::items_from, px_patterns::specs::Globs::label_of, px_patterns::specs::Globs::class_ranges, px_patterns::specs::Hosts::host_matches, px_patterns::specs::Hosts::host_pattern, px_patterns::specs::Hosts::labels_match, px_patterns::specs::Patterns::path_expression, px_patterns::specs::Patterns::ports_of, px_patterns::specs::Patterns::url_pattern, px_patterns::specs::Urls::authority_of, px_patterns::specs::Urls::host_of, px_patterns::specs::Urls::port_of, px_patterns::specs::Urls::shown_host_port, px_patterns::specs::Urls::shown_url, px_patterns::specs::Urls::url_of))]

ghost use Rattle.std.specs.Prelude.{◌≡◌, ◌∷◌, [], Some, None, Ok, Err, true, false, codes};
ghost use Rattle.px_patterns.specs.Faults.{pattern_fault_name, pattern_fault_number, url_fault_name, url_fault_number};
ghost use Rattle.px_patterns.specs.Globs.{label_of, class_ranges};
ghost use Rattle.px_patterns.specs.Hosts.{host_labels, host_matches, host_pattern, is_candidate, labels_within, last_plain};
ghost use Rattle.px_patterns.specs.Patterns.{url_pattern};
ghost use Rattle.px_patterns.specs.Urls.{authority_of, shown_host_port, shown_url, url_of};
ghost use Rattle.px_patterns.specs.declared.faults.PatternFault.TheVariants as pattern;
ghost use Rattle.px_patterns.specs.declared.faults.UrlFault.TheVariants as url;
ghost use Rattle.px_rows.specs.Rows.{url_at};
ghost use Rattle.px_base.specs.Results.{result_map};

/// URLs as a request names them.
fn urls()
    ensures bare { url_of (codes "http://A.test") ≡ Ok (url_at (codes "A.test") 80 (codes "/")) }
    ensures query { url_of (codes "HTTP://a.test:/?q") ≡ Ok (url_at (codes "a.test") 80 (codes "/?q")) }
    ensures address { url_of (codes "http://[::1]:81/x") ≡ Ok (url_at (codes "::1") 81 (codes "/x")) }
    ensures user { url_of (codes "http://u@a.test/") ≡ Err url.HasUser }
    ensures no_host { url_of (codes "http:///x") ≡ Err url.NoHost }
    ensures port { url_of (codes "http://a.test:70000/") ≡ Err url.BadPort }
    ensures space { url_of (codes "http://a.test/a b") ≡ Err url.BadByte }
    ensures other { url_of (codes "ftp://a.test/") ≡ Err url.NotHttp }
    ensures secure { url_of (codes "https://a.test/") ≡ Err url.NotHttp }
    ensures path_alone { url_of (codes "/x") ≡ Err url.NotHttp }
    ensures open_bracket { url_of (codes "http://[::1/") ≡ Err url.NoHost }
{}

/// A tunnel's target has a host and a port, and nothing behind them (RFC 9112, section 3.2.3).
fn authorities()
    ensures both { authority_of (codes "a.test:443") ≡ Ok (url_at (codes "a.test") 443 (codes "/")) }
    ensures no_port { authority_of (codes "a.test") ≡ Err url.BadPort }
    ensures behind { authority_of (codes "a.test:443/") ≡ Err url.BadPort }
    ensures address { authority_of (codes "[::1]:443") ≡ Ok (url_at (codes "::1") 443 (codes "/")) }
{}

/// A URL is printed with its port unless that is 80, and an address in brackets.
fn printed_urls()
    ensures port { shown_host_port (url_at (codes "::1") 81 (codes "/x")) ≡ codes "[::1]:81" }
    ensures default_port { shown_url (url_at (codes "a.test") 80 (codes "/?q")) ≡ codes "http://a.test/?q" }
{}

/// Labels match one by one, without case; a dot at the front or the end of the pattern opens it there.
fn hosts_of_patterns()
    ensures itself { result_map (λ p. host_matches p (codes "example.com")) (host_pattern (codes ".example.com")) ≡ Ok true }
    ensures deeper { result_map (λ p. host_matches p (codes "a.b.example.com.")) (host_pattern (codes ".example.com")) ≡ Ok true }
    ensures case { result_map (λ p. host_matches p (codes "EXAMPLE.com")) (host_pattern (codes ".example.com")) ≡ Ok true }
    ensures suffix { result_map (λ p. host_matches p (codes "another-example.com")) (host_pattern (codes ".example.com")) ≡ Ok false }
    ensures front { result_map (λ p. host_matches p (codes "www.a.test")) (host_pattern (codes "www.")) ≡ Ok true }
    ensures longer_front { result_map (λ p. host_matches p (codes "wwwx.a.test")) (host_pattern (codes "www.")) ≡ Ok false }
    ensures between { result_map (λ p. host_matches p (codes "a.example.org")) (host_pattern (codes ".example.")) ≡ Ok true }
    ensures longer { result_map (λ p. host_matches p (codes "examples.org")) (host_pattern (codes ".example.")) ≡ Ok false }
    ensures class { result_map (λ p. host_matches p (codes "ad7x.test")) (host_pattern (codes "ad[0-9]*.test")) ≡ Ok true }
    ensures no_digit { result_map (λ p. host_matches p (codes "adx.test")) (host_pattern (codes "ad[0-9]*.test")) ≡ Ok false }
    ensures one_label { result_map (λ p. host_matches p (codes "ad7.b.test")) (host_pattern (codes "ad[0-9]*.test")) ≡ Ok false }
    ensures every { result_map (λ p. host_matches p (codes "a.test")) (host_pattern []) ≡ Ok true }
    ensures dot { result_map (λ p. host_matches p (codes "a.test")) (host_pattern (codes ".")) ≡ Ok true }
{
    // Nothing runs: the prover computes the rows.
}

/// An index keeps a pattern under its last label without `*`, `?` and `[`.
fn kept_patterns()
    ensures label { result_map (λ p. last_plain (labels_within p)) (host_pattern (codes ".a*.b.test")) ≡ Ok (Some (codes "test")) }
    ensures none { result_map (λ p. last_plain (labels_within p)) (host_pattern (codes "a*.b?")) ≡ Ok None }
    ensures every { result_map (λ p. last_plain (labels_within p)) (host_pattern []) ≡ Ok None }
    ensures candidate { result_map (λ p. is_candidate p (codes "x.TEST")) (host_pattern (codes "a.test")) ≡ Ok true }
    ensures no_candidate { result_map (λ p. is_candidate p (codes "a.org")) (host_pattern (codes "a.test")) ≡ Ok false }
    ensures labels { host_labels (codes "a.test.") ≡ codes "a" ∷ codes "test" ∷ [] }
{}

/// What no pattern is, and the order in which that is looked for.
fn refused_patterns()
    ensures protocol { url_pattern (codes "http://a.test") ≡ Err pattern.HasProtocol }
    ensures port { url_pattern (codes "a.test:0") ≡ Err pattern.BadPort }
    ensures no_port { url_pattern (codes "a.test:") ≡ Err pattern.BadPort }
    ensures address { url_pattern (codes "<x>") ≡ Err pattern.BadAddress }
    ensures label { host_pattern (codes "a..b") ≡ Err pattern.EmptyLabel }
    ensures class { host_pattern (codes "[z-a].test") ≡ Err pattern.BadClass }
    ensures open_class { label_of (codes "a[b") ≡ None }
    ensures no_class { class_ranges (codes "z-a") ≡ None }
    ensures port_before_label { url_pattern (codes "a..b:0") ≡ Err pattern.BadPort }
{}

/// The numbers and names of the refusals.
fn refusals_of_patterns_and_urls()
    ensures protocol { pattern_fault_number pattern.HasProtocol ≡ 3 }
    ensures port { pattern_fault_number pattern.BadPort ≡ 4 }
    ensures class { pattern_fault_number pattern.BadClass ≡ 5 }
    ensures expression { pattern_fault_number pattern.BadRegex ≡ 6 }
    ensures label { pattern_fault_number pattern.EmptyLabel ≡ 7 }
    ensures address { pattern_fault_number pattern.BadAddress ≡ 42 }
    ensures address_name { pattern_fault_name pattern.BadAddress ≡ codes "BadAddress" }
    ensures other { url_fault_number url.NotHttp ≡ 8 }
    ensures no_host { url_fault_number url.NoHost ≡ 9 }
    ensures user { url_fault_number url.HasUser ≡ 10 }
    ensures url_port { url_fault_number url.BadPort ≡ 11 }
    ensures byte { url_fault_number url.BadByte ≡ 43 }
    ensures byte_name { url_fault_name url.BadByte ≡ codes "BadByte" }
{}
