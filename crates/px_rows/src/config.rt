//! The lines of the main file (Privoxy's manual, "The Main Configuration File").
#![tactic(auto, unfolding(core::specs::Fmt::digits, core::specs::Str::chars, core::specs::Str::is_utf8, px_action_files::specs::Faults::refusal_name, px_actions::specs::Hops::is_hop_address_byte, px_actions::specs::Hops::is_host_byte, px_actions::specs::Hops::next_hop, px_base::specs::Blanks::trimmed, px_base::specs::Numbers::decimal, px_base::specs::Ports::item, px_base::specs::Ports::port, px_base::specs::Ports::port_list, px_config::specs::Addresses::address_of, px_config::specs::Directives::list_files_of, px_config::specs::Directives::values_of, px_config::specs::FaultLines::load_name, px_config::specs::Mains::directive_of, px_config::specs::Mains::with_line, px_config::specs::Mains::with_lines, px_config::specs::Mains::row_of, px_config::specs::Names::action_names, px_config::specs::Names::confdir, px_config::specs::Names::folder_of, px_config::specs::Names::list_file_names, px_config::specs::Names::templdir, px_decide::specs::Forwards::first_word, px_decide::specs::Forwards::forward_line, px_decide::specs::Forwards::two_words, px_patterns::specs::Expressions::pattern_expression, px_patterns::specs::Globs::items_from, px_patterns::specs::Globs::label_of, px_patterns::specs::Globs::class_ranges, px_patterns::specs::Hosts::host_pattern, px_patterns::specs::Patterns::path_expression, px_patterns::specs::Patterns::ports_of, px_patterns::specs::Patterns::url_pattern))]

ghost use Rattle.std.specs.Prelude.{◌≡◌, ◌∷◌, ◌*◌, [], Some, None, Ok, Err, true, false, codes};
ghost use Rattle.px_action_files.specs.Faults.{refused};
ghost use Rattle.px_config.specs.Addresses.{address_of};
ghost use Rattle.px_config.specs.Directives.{last_value, name_in, value_in, values_of};
ghost use Rattle.px_config.specs.FaultLines.{fault_line, load_name};
ghost use Rattle.px_config.specs.Mains.{directive_of, is_other, main_of, nothing_set, with_line};
ghost use Rattle.px_config.specs.Names.{action_names, confdir, folder_of, full_name, list_file_names, templdir};
ghost use Rattle.px_rows.specs.Rows.{file_line};

/// Connections are taken on this machine alone.
fn addresses()
    ensures usual { address_of (codes "127.0.0.1:8118") ≡ Ok (record { host = codes "127.0.0.1"; port_number = 8118 }) }
    ensures no_port { address_of (codes "localhost") ≡ Ok (record { host = codes "localhost"; port_number = 8118 }) }
    ensures brackets { address_of (codes "[::1]:81") ≡ Ok (record { host = codes "::1"; port_number = 81 }) }
    ensures other_numbers { address_of (codes "127.1.2.255:81") ≡ Ok (record { host = codes "127.1.2.255"; port_number = 81 }) }
    ensures every { address_of (codes "0.0.0.0:8118") ≡ Err 30 }
    ensures no_host { address_of (codes ":8118") ≡ Err 30 }
    ensures case { address_of (codes "LOCALHOST") ≡ Err 30 }
    ensures three_numbers { address_of (codes "127.0.0") ≡ Err 30 }
    ensures great_number { address_of (codes "127.0.0.256") ≡ Err 30 }
    ensures zero { address_of (codes "127.0.0.1:0") ≡ Err 29 }
    ensures bad_port_first { address_of (codes "0.0.0.0:x") ≡ Err 29 }
    ensures open { address_of (codes "[::1") ≡ Err 29 }
{}

/// A line has a name and a value; names are compared without case.
fn directives()
    ensures name { name_in (codes "Toggle \t1") ≡ codes "Toggle" }
    ensures value { value_in (codes "actionsfile  my file.action ") ≡ codes "my file.action" }
    ensures files { is_other (directive_of (codes "ActionsFile")) ≡ false }
    ensures folder { is_other (directive_of (codes "templdir")) ≡ false }
    ensures socks { is_other (directive_of (codes "forward-socks5t")) ≡ false }
    ensures other { is_other (directive_of (codes "logfile")) ≡ true }
    ensures all { values_of (codes "actionsfile") (file_line 1 (codes "actionsfile a") ∷ file_line 2 (codes "toggle 1") ∷ file_line 3 (codes "ACTIONSFILE b") ∷ [])
        ≡ codes "a" ∷ codes "b" ∷ [] }
    ensures last { last_value (codes "confdir") (file_line 1 (codes "confdir a") ∷ file_line 2 (codes "confdir b") ∷ []) ≡ Some (codes "b") }
{}

/// What a line changes, and which are refused.
fn lines_of_main_files()
    ensures limit { with_line (codes "c") nothing_set (file_line 1 (codes "buffer-limit 1")) ≡ Ok (record nothing_set { buffer_limit = 1024 }) }
    ensures great_limit { with_line (codes "c") nothing_set (file_line 1 (codes "buffer-limit 16385")) ≡ refused 1 29 }
    ensures off { with_line (codes "c") nothing_set (file_line 1 (codes "toggle 0")) ≡ Ok (record nothing_set { toggle = false }) }
    ensures no_switch { with_line (codes "c") nothing_set (file_line 2 (codes "toggle 2")) ≡ refused 2 29 }
    ensures empty_ok { with_line (codes "c") nothing_set (file_line 1 (codes "handle-as-empty-doc-returns-ok 1"))
        ≡ Ok (record nothing_set { empty_returns_ok = true }) }
    ensures no_value { with_line (codes "c") nothing_set (file_line 2 (codes "actionsfile")) ≡ refused 2 29 }
    ensures not_here { with_line (codes "c") nothing_set (file_line 1 (codes "listen-address 0.0.0.0:8118")) ≡ refused 1 30 }
    ensures socks { with_line (codes "c") nothing_set (file_line 3 (codes "forward-socks4 / a.test .")) ≡ refused 3 29 }
    ensures tag { with_line (codes "c") nothing_set (file_line 3 (codes "client-specific-tag t what it is"))
        ≡ Ok (record nothing_set { tags = codes "t" ∷ [] }) }
    ensures no_description { with_line (codes "c") nothing_set (file_line 3 (codes "client-specific-tag t")) ≡ refused 3 29 }
    ensures tag_twice { with_line (codes "c") (record nothing_set { tags = codes "t" ∷ [] }) (file_line 4 (codes "client-specific-tag t again"))
        ≡ refused 4 29 }
    ensures list { with_line (codes "c") nothing_set (file_line 3 (codes "host-list my.hosts it shows ads"))
        ≡ Ok (record nothing_set { lists = record { number = 3; name = codes "my.hosts"; reason = codes "it shows ads" } ∷ [] }) }
    ensures no_reason { with_line (codes "c") nothing_set (file_line 3 (codes "host-list my.hosts")) ≡ refused 3 29 }
    ensures ignored { with_line (codes "c") nothing_set (file_line 4 (codes "logfile logfile"))
        ≡ Ok (record nothing_set { notes = record { file = codes "c"; line = 4; text = codes "directive ignored: logfile" } ∷ [] }) }
    ensures sixteen { with_line (codes "c") (record nothing_set { action_files = 15 }) (file_line 16 (codes "actionsfile a"))
        ≡ Ok (record nothing_set { action_files = 16 }) }
    ensures seventeen { with_line (codes "c") (record nothing_set { action_files = 16 }) (file_line 17 (codes "actionsfile a")) ≡ refused 17 31 }
    ensures bad_hop { with_line (codes "c") nothing_set (file_line 5 (codes "forward / p.test:0")) ≡ refused 5 29 }
    ensures bad_pattern { with_line (codes "c") nothing_set (file_line 5 (codes "forward a..b p.test")) ≡ refused 5 7 }
    ensures address_later { main_of (codes "c") (file_line 1 (codes "listen-address 127.0.0.1:81") ∷ file_line 2 (codes "listen-address 127.0.0.1:82") ∷ [])
        ≡ Ok (record nothing_set { listen = Some (record { host = codes "127.0.0.1"; port = 81 }); notes = record { file = codes "c"; line = 2; text = codes "listen-address ignored" } ∷ [] }) }
{
    // Nothing runs: the prover computes the rows.
}

/// Where the files of a configuration stand.
fn names_of_files()
    ensures folder { folder_of (codes "/etc/p/c") ≡ Some (codes "/etc/p") }
    ensures root { folder_of (codes "/c") ≡ Some [] }
    ensures none { folder_of (codes "c") ≡ None }
    ensures joined { full_name (Some (codes "/etc/p")) (codes "u.action") ≡ codes "/etc/p/u.action" }
    ensures rooted { full_name (Some (codes "/etc/p")) (codes "/u.action") ≡ codes "/u.action" }
    ensures alone { full_name None (codes "u.action") ≡ codes "u.action" }
    ensures by_main { confdir (codes "/etc/p/c") [] ≡ Some (codes "/etc/p") }
    ensures by_line { confdir (codes "/etc/p/c") (file_line 1 (codes "confdir /q") ∷ []) ≡ Some (codes "/q") }
    ensures templates { templdir (codes "/etc/p/c") [] ≡ codes "/etc/p/templates" }
    ensures templates_alone { templdir (codes "c") [] ≡ codes "templates" }
    ensures action_files { action_names (file_line 1 (codes "actionsfile u.action") ∷ []) ≡ codes "u.action" ∷ [] }
    ensures lists { list_file_names (file_line 1 (codes "host-list a.hosts ads") ∷ file_line 2 (codes "Host-List b.hosts") ∷ []) ≡ codes "a.hosts" ∷ codes "b.hosts" ∷ [] }
{}

/// How a fault is printed.
fn printed_faults()
    ensures word { load_name 12 ≡ codes "UnknownAction" }
    ensures value { load_name 29 ≡ codes "BadValue" }
    ensures address { load_name 30 ≡ codes "NotLoopback" }
    ensures too_large { load_name 31 ≡ codes "TooLarge" }
    ensures missing { load_name 32 ≡ codes "Missing" }
    ensures template { load_name 28 ≡ codes "OpenCondition" }
    ensures line { fault_line (codes "u.action") 1 12 (load_name 12) ≡ codes "u.action:1: 12 UnknownAction\n" }
    ensures main { fault_line (codes "c") 0 32 (load_name 32) ≡ codes "c:0: 32 Missing\n" }
{}
