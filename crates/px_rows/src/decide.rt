//! Decisions, redirects and routes (Privoxy's manual, "Actions Files" and "The Main Configuration File").
#![tactic(auto, unfolding(core::specs::Str::chars, percent_encoding::specs::Percent::percent_decode, percent_encoding::specs::Percent::percent_encode_byte, px_actions::specs::Hops::is_hop_address_byte, px_actions::specs::Hops::is_host_byte, px_actions::specs::Hops::next_hop, px_actions::specs::Kinds::entry_of, px_actions::specs::Rules::override_hop, px_actions::specs::Sets::empty_set, px_actions::specs::Sets::is_on, px_actions::specs::Sets::updated, px_actions::specs::Sets::value, px_actions::specs::Sets::set_values, px_base::specs::Blanks::trimmed, px_base::specs::Numbers::decimal, px_base::specs::Ports::item, px_base::specs::Ports::port, px_base::specs::Ports::port_list, px_decide::specs::Decisions::block_decision, px_decide::specs::Decisions::tunnel_decision, px_decide::specs::Forwards::first_word, px_decide::specs::Forwards::two_words, px_decide::specs::Routes::last_line, px_decide::specs::Routes::route_of, px_decide::specs::Targets::begins_url, px_decide::specs::Targets::last_url, px_decide::specs::Targets::target_text, px_patterns::specs::Expressions::pattern_expression, px_patterns::specs::Expressions::finds, px_patterns::specs::Globs::glob_matches, px_patterns::specs::Hosts::host_matches, px_patterns::specs::Hosts::labels_match, px_patterns::specs::Patterns::url_matches))]

ghost use Rattle.std.specs.Prelude.{◌≡◌, ◌∷◌, [], Some, None, Ok, Err, true, false, codes};
ghost use Rattle.px_actions.specs.Hops.{direct, parent};
ghost use Rattle.px_actions.specs.Sets.{empty_set, updated};
ghost use Rattle.px_actions.specs.declared.changes.Change.TheVariants as change;
ghost use Rattle.px_actions.specs.declared.kinds.Kind.TheVariants as kind;
ghost use Rattle.px_decide.specs.Decisions.{block_decision, image_decision, may_connect, tunnel_decision};
ghost use Rattle.px_decide.specs.Forwards.{two_words};
ghost use Rattle.px_decide.specs.Routes.{route_by, route_of};
ghost use Rattle.px_decide.specs.Targets.{is_job_value, last_url, leading_away, searched_path, target_text};
ghost use Rattle.px_decide.specs.declared.decisions.Decision.TheVariants as decision;
ghost use Rattle.px_rows.specs.Rows.{url_at};

/// A fast redirect leads to the last URL in a text (Privoxy's manual, "fast-redirects").
fn last_urls()
    ensures behind { last_url (codes "/r?u=http://b.test/") ≡ Some (codes "http://b.test/") }
    ensures two { last_url (codes "http://a.test/http://b.test") ≡ Some (codes "http://b.test") }
    ensures secure { last_url (codes "/r?u=https://b.test/") ≡ Some (codes "https://b.test/") }
    ensures nothing_behind { last_url (codes "/r?u=http://") ≡ None }
    ensures case { last_url (codes "/r?u=HTTP://b.test/") ≡ None }
    ensures decoded { searched_path (codes "check-decoded-url") (codes "/c?u=http%3a//b.test/") ≡ codes "/c?u=http://b.test/" }
    ensures simple { searched_path (codes "simple-check") (codes "/c?u=http%3a//b.test/") ≡ codes "/c?u=http%3a//b.test/" }
{}

/// How a target is written, and that none leads to the URL itself.
fn targets()
    ensures control { target_text (codes "http://b.test/\r") ≡ codes "http://b.test/%0D" }
    ensures space { target_text (codes "a b") ≡ codes "a%20b" }
    ensures past_ascii { target_text (195 ∷ 164 ∷ []) ≡ codes "%C3%A4" }
    ensures away { leading_away (codes "http://a.test/") (codes "http://b.test/") ≡ Some (codes "http://b.test/") }
    ensures itself { leading_away (codes "http://a.test/") (codes "http://a.test/") ≡ None }
    ensures nowhere { leading_away (codes "http://a.test/") [] ≡ None }
    ensures job { is_job_value (codes "s@a@b@") ≡ true }
    ensures url { is_job_value (codes "http://r.test/") ≡ false }
    ensures word { is_job_value (codes "sa") ≡ false }
{}

/// A blocked request gets a page, an empty document or an image.
fn blocked_requests()
    ensures page { block_decision empty_set (codes "ad") ≡ decision.Blocked (codes "ad") }
    ensures empty { block_decision (updated empty_set kind.HandleAsEmptyDocument change.On) (codes "ad") ≡ decision.Empty }
    ensures no_blocker { block_decision (updated empty_set kind.HandleAsImage change.On) (codes "ad") ≡ decision.Blocked (codes "ad") }
    ensures image { block_decision (updated (updated empty_set kind.HandleAsImage change.On) kind.SetImageBlocker (change.Set (codes "blank"))) (codes "ad")
        ≡ decision.ImageBlank }
    ensures pattern { image_decision (codes "pattern") ≡ decision.ImagePattern }
    ensures elsewhere { image_decision (codes "http://r.test/a b") ≡ decision.Redirect (codes "http://r.test/a%20b") }
{}

/// A tunnel passes where its port is allowed.
fn tunnels()
    ensures every { tunnel_decision empty_set 80 ≡ decision.Pass }
    ensures denied { tunnel_decision (updated empty_set kind.LimitConnect (change.Set (codes "443"))) 80 ≡ decision.ConnectDenied }
    ensures allowed { tunnel_decision (updated empty_set kind.LimitConnect (change.Set (codes "443"))) 443 ≡ decision.Pass }
{
    // Nothing runs: the prover computes the rows.
}

/// A forward line has two words, and `forward-override` wins over every line.
fn routes()
    ensures two { two_words (codes "/ \tp.test:8080") ≡ Some (codes "/", codes "p.test:8080") }
    ensures one { two_words (codes "/") ≡ None }
    ensures three { two_words (codes "/ p.test q") ≡ None }
    ensures origin { route_by (url_at (codes "a.test") 80 (codes "/")) direct
        ≡ record { host = codes "a.test"; port = 80; parent = false } }
    ensures by_parent { route_by (url_at (codes "a.test") 80 (codes "/")) (parent (codes "p.test") 8000)
        ≡ record { host = codes "p.test"; port = 8000; parent = true } }
    ensures by_override { route_of (url_at (codes "a.test") 80 (codes "/")) (updated empty_set kind.ForwardOverride (change.Set (codes "forward p.test:8080"))) []
        ≡ record { host = codes "p.test"; port = 8080; parent = true } }
{}
