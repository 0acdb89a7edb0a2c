//! The pages of the proxy's own.
#![tactic(auto, unfolding(core::specs::Fmt::digits, core::specs::Str::chars, core::specs::Str::is_utf8, percent_encoding::specs::Percent::percent_decode, px_base::specs::Ports::port, px_pages::specs::Pages::inside_page, px_pages::specs::Statuses::filter_count_lines, px_pages::specs::Statuses::listen_line, px_pages::specs::Statuses::number_line, px_pages::specs::Statuses::section_count_lines, px_pages::specs::Statuses::settings_lines, px_pages::specs::Statuses::status_lines, px_patterns::specs::Urls::host_of, px_patterns::specs::Urls::port_of, px_patterns::specs::Urls::url_of))]

ghost use Rattle.std.specs.Prelude.{◌≡◌, ℕ, false, true, List, [], ◌∷◌, Some, None, codes, length};
ghost use Rattle.px_config.specs.declared.configs.Config.{Config};
ghost use Rattle.px_config.specs.Insides.{asked};
ghost use Rattle.px_pages.specs.Boards.{board_page, full_page};
ghost use Rattle.px_pages.specs.Pages.{found_page, inside_page, missing_page};
ghost use Rattle.px_pages.specs.Statuses.{listen_line, status_lines};
ghost use Rattle.px_pages.specs.Wishes.{wanted_change};
ghost use Rattle.px_rows.specs.Rows.{empty_config, own_request, settings_at, url_at, with_ads};
ghost use Rattle.px_show.specs.Showing.{shown};
ghost use Rattle.px_tag_board.specs.declared.changes.TagChange.TheVariants.{Shed, Wear};
ghost use Rattle.px_templates.specs.Pieces.{Piece};

/// Whose the pages are: those of two hosts, without case, at the port of HTTP.
fn hosts_of_pages()
    ensures short { (c : Config) (n : ℕ) (tags : List (List ℕ)) → inside_page c n (url_at (codes "P.p") 80 (codes "/x")) tags ≡ Some (missing_page (codes "no such page\n")) }
    ensures long { (c : Config) (n : ℕ) (tags : List (List ℕ)) → inside_page c n (url_at (codes "Config.Privoxy.org") 80 (codes "/x")) tags ≡ Some (missing_page (codes "no such page\n")) }
    ensures port { (c : Config) (n : ℕ) (tags : List (List ℕ)) → inside_page c n (url_at (codes "p.p") 8118 (codes "/")) tags ≡ None }
    ensures other { (c : Config) (n : ℕ) (tags : List (List ℕ)) → inside_page c n (url_at (codes "privoxy.org") 80 (codes "/")) tags ≡ None }
    ensures last_dot { (c : Config) (n : ℕ) (tags : List (List ℕ)) → inside_page c n (url_at (codes "p.p.") 80 (codes "/")) tags ≡ None }
{}

/// What the paths give.
fn paths_of_pages()
    ensures index { (c : Config) (n : ℕ) (tags : List (List ℕ)) → inside_page c n (url_at (codes "p.p") 80 (codes "/")) tags ≡ Some (found_page (codes "pages:\n/show-status\n/show-url-info?url=\n")) }
    ensures status { (c : Config) (n : ℕ) (tags : List (List ℕ)) → inside_page c n (url_at (codes "p.p") 80 (codes "/show-status")) tags ≡ Some (found_page (status_lines c n)) }
    ensures query { (c : Config) (n : ℕ) (tags : List (List ℕ)) → inside_page c n (url_at (codes "p.p") 80 (codes "/show-status?")) tags ≡ Some (missing_page (codes "no such page\n")) }
    ensures case { (c : Config) (n : ℕ) (tags : List (List ℕ)) → inside_page c n (url_at (codes "p.p") 80 (codes "/Show-status")) tags ≡ Some (missing_page (codes "no such page\n")) }
    ensures url { (c : Config) (n : ℕ) (tags : List (List ℕ)) → inside_page c n (url_at (codes "p.p") 80 (codes "/show-url-info?url=http%3a//a.test/")) tags
        ≡ Some (found_page (shown c (url_at (codes "a.test") 80 (codes "/")) tags)) }
    ensures plain_url { (c : Config) (n : ℕ) (tags : List (List ℕ)) → inside_page c n (url_at (codes "p.p") 80 (codes "/show-url-info?url=http://a.test/%20")) tags
        ≡ Some (found_page (shown c (url_at (codes "a.test") 80 (codes "/%20")) tags)) }
    ensures no_url { (c : Config) (n : ℕ) (tags : List (List ℕ)) → inside_page c n (url_at (codes "p.p") 80 (codes "/show-url-info?url=")) tags ≡ Some (missing_page (codes "8 NotHttp\n")) }
    ensures no_text { (c : Config) (n : ℕ) (tags : List (List ℕ)) → inside_page c n (url_at (codes "p.p") 80 (codes "/show-url-info")) tags ≡ Some (missing_page (codes "no such page\n")) }
    ensures length { length (codes "no such page\n") ≡ 13 }
{}

/// What the page of the status says.
fn statuses_of_configurations()
    ensures empty { (pages : List (List Piece)) (all : length pages ≡ 11) → status_lines (empty_config pages all) 0
        ≡ codes "configuration 0\nlisten 127.0.0.1:8118\ntoggle 1\naction files 0\nsections 0\npatterns 0\nfilter files 0\nfilters 0\nnotes 0\n" }
    ensures length { (pages : List (List Piece)) (all : length pages ≡ 11) → length (status_lines (empty_config pages all) 0) ≡ 117 }
    ensures brackets { listen_line (settings_at (codes "::1") 81) ≡ codes "listen [::1]:81\n" }
{}

/// Which change of the client's tags a request asks for.
#[tactic(auto, unfolding(percent_encoding::specs::Percent::percent_decode, px_pages::specs::Wishes::wish_at))]
fn changes_of_paths()
    ensures on { (c : Config) → wanted_change (own_request c (codes "/client-tags/on?ads")) ≡ Some (Wear (codes "ads")) }
    ensures off { (c : Config) → wanted_change (own_request c (codes "/client-tags/off?ads")) ≡ Some (Shed (codes "ads")) }
    ensures escaped { (c : Config) → wanted_change (own_request c (codes "/client-tags/on?a%64s")) ≡ Some (Wear (codes "ads")) }
    ensures show { (c : Config) → wanted_change (own_request c (codes "/client-tags")) ≡ None }
    ensures undeclared { (c : Config) → wanted_change (own_request c (codes "/client-tags/on?fun")) ≡ None }
    ensures case { (c : Config) → wanted_change (own_request c (codes "/client-tags/on?ADS")) ≡ None }
    ensures other_host { (c : Config) → wanted_change (asked (with_ads c) 0 (url_at (codes "a.test") 80 (codes "/client-tags/on?ads")) true (codes "127.0.0.1")) ≡ None }
    ensures other_port { (c : Config) → wanted_change (asked (with_ads c) 0 (url_at (codes "p.p") 8118 (codes "/client-tags/on?ads")) true (codes "127.0.0.1")) ≡ None }
    ensures no_page { (c : Config) → wanted_change (asked (with_ads c) 0 (url_at (codes "p.p") 80 (codes "/client-tags/on?ads")) false (codes "127.0.0.1")) ≡ None }
{}

/// What the pages of a board say, to a client with `ads` and to one without tags.
#[tactic(auto, unfolding(core::specs::Fmt::digits, percent_encoding::specs::Percent::percent_decode, px_pages::specs::Boards::full_page, px_pages::specs::Boards::tag_lines, px_pages::specs::Pages::inside_page, px_pages::specs::Wishes::wish_at))]
fn pages_of_boards()
    ensures on { (c : Config) → board_page (own_request c (codes "/client-tags/on?ads")) (codes "ads" ∷ []) ≡ Some (found_page (codes "tags:\nads\n")) }
    ensures off { (c : Config) → board_page (own_request c (codes "/client-tags/off?ads")) [] ≡ Some (found_page (codes "tags:\n")) }
    ensures show { (c : Config) → board_page (own_request c (codes "/client-tags")) (codes "ads" ∷ []) ≡ Some (found_page (codes "tags:\nads\n")) }
    ensures undeclared { (c : Config) (tags : List (List ℕ)) → board_page (own_request c (codes "/client-tags/on?fun")) tags ≡ Some (missing_page (codes "no such page\n")) }
    ensures no_name { (c : Config) (tags : List (List ℕ)) → board_page (own_request c (codes "/client-tags/on")) tags ≡ Some (missing_page (codes "no such page\n")) }
    ensures index { (c : Config) (tags : List (List ℕ)) → board_page (own_request c (codes "/")) tags
        ≡ Some (found_page (codes "pages:\n/show-status\n/show-url-info?url=\n/client-tags\n")) }
    ensures other { (c : Config) (tags : List (List ℕ)) → board_page (asked (with_ads c) 0 (url_at (codes "a.test") 80 (codes "/client-tags")) true (codes "127.0.0.1")) tags ≡ None }
    ensures unasked { (c : Config) (tags : List (List ℕ)) → board_page (asked (with_ads c) 0 (url_at (codes "p.p") 80 (codes "/client-tags")) false (codes "127.0.0.1")) tags ≡ None }
    ensures full { full_page ≡ missing_page (codes "full\n10000 changes were made, and no more are taken until the proxy is started again\n") }
    ensures ten { length (codes "tags:\nads\n") ≡ 10 }
    ensures six { length (codes "tags:\n") ≡ 6 }
{}
