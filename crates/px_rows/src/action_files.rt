//! Actions files: sections, aliases and what is refused (Privoxy's manual, "Actions Files").
#![tactic(auto, unfolding(core::specs::Str::chars, core::specs::Str::is_utf8, httparse::specs::Grammar::is_token_byte, px_action_files::specs::Aliases::alias_of, px_action_files::specs::Aliases::aliases_of, px_action_files::specs::Aliases::is_alias_name, px_action_files::specs::Aliases::name_and_words, px_action_files::specs::Aliases::words_updates, px_action_files::specs::Faults::refusal_name, px_action_files::specs::Files::after_block, px_action_files::specs::Files::after_blocks, px_action_files::specs::Files::alias_block_of, px_action_files::specs::Files::file_sections, px_action_files::specs::Files::heading_of, px_action_files::specs::Files::section_of, px_action_files::specs::Patterns::line_pattern, px_action_files::specs::Patterns::patterns_of, px_action_files::specs::Patterns::spoken_tags, px_actions::specs::Braces::balances, px_actions::specs::Braces::is_closed, px_actions::specs::Braces::words, px_actions::specs::Hops::is_hop_address_byte, px_actions::specs::Hops::is_host_byte, px_actions::specs::Hops::next_hop, px_actions::specs::Kinds::entry_of, px_actions::specs::Kinds::kind_named, px_actions::specs::Rules::is_plain_text, px_actions::specs::Rules::keeps_rule, px_actions::specs::Rules::meets, px_actions::specs::Rules::override_hop, px_actions::specs::Updates::has_parameter, px_actions::specs::Updates::word_update, px_base::specs::Blanks::trimmed, px_base::specs::Numbers::decimal, px_base::specs::Ports::item, px_base::specs::Ports::port, px_base::specs::Ports::port_list, px_fields::specs::FieldLines::read_field, px_fields::specs::Names::is_held_back_of_request, px_patterns::specs::Expressions::pattern_expression, px_patterns::specs::Globs::items_from, px_patterns::specs::Globs::label_of, px_patterns::specs::Globs::class_ranges, px_patterns::specs::Hosts::host_pattern, px_patterns::specs::Patterns::path_expression, px_patterns::specs::Patterns::ports_of, px_patterns::specs::Patterns::tag_pattern, px_patterns::specs::Patterns::url_pattern))]

ghost use Rattle.std.specs.Prelude.{◌≡◌, ◌∷◌, [], Some, None, Ok, Err, true, false, codes};
ghost use Rattle.px_action_files.specs.Aliases.{is_alias_name, name_and_words};
ghost use Rattle.px_action_files.specs.Faults.{refusal_name, refused};
ghost use Rattle.px_action_files.specs.Files.{alias_block, file_sections, heading_of, ignored_block, section_of_words};
ghost use Rattle.px_action_files.specs.Patterns.{spoken_tags};
ghost use Rattle.px_action_files.specs.declared.patterns.SpokenTags.TheVariants as tags;
ghost use Rattle.px_actions.specs.declared.changes.Change.TheVariants as change;
ghost use Rattle.px_actions.specs.declared.kinds.Kind.TheVariants as kind;
ghost use Rattle.px_rows.specs.Rows.{file_line};

/// The words with which patterns of tags begin, with case.
fn patterns_of_tags()
    ensures any { spoken_tags (codes "TAG:^a") ≡ Some tags.Any }
    ensures no_request { spoken_tags (codes "NO-REQUEST-TAG:a") ≡ Some tags.NoneOfRequest }
    ensures no_response { spoken_tags (codes "NO-RESPONSE-TAG:a") ≡ Some tags.NoneOfResponse }
    ensures client { spoken_tags (codes "CLIENT-TAG:a") ≡ Some tags.OfClient }
    ensures case { spoken_tags (codes "tag:a") ≡ None }
    ensures url { spoken_tags (codes "a.test/TAG:") ≡ None }
{}

/// A heading ends with the brace that balances its first; a name in braces of its own begins a block.
fn headings()
    ensures section { heading_of (codes "{+block{a}}") ≡ Ok (section_of_words (codes "+block{a}")) }
    ensures open { heading_of (codes "{+block{a}") ≡ Err 16 }
    ensures behind { heading_of (codes "{+block{a}} x") ≡ Err 16 }
    ensures alias { heading_of (codes "{{ Alias }}") ≡ Ok alias_block }
    ensures settings { heading_of (codes "{{settings}}") ≡ Ok ignored_block }
    ensures description { heading_of (codes "{{description}}") ≡ Ok ignored_block }
    ensures other { heading_of (codes "{{other}}") ≡ Err 44 }
{}

/// An alias has a name without white space and braces, up to the first `=`.
fn aliases()
    ensures cut { name_and_words (codes " shrink-it = +filter{a=b}") ≡ Some (codes "shrink-it", codes " +filter{a=b}") }
    ensures no_sign { name_and_words (codes "shrink-it") ≡ None }
    ensures name { is_alias_name (codes "shrink-it") ≡ true }
    ensures space { is_alias_name (codes "shrink it") ≡ false }
    ensures brace { is_alias_name (codes "shrink{") ≡ false }
    ensures empty { is_alias_name [] ≡ false }
{}

/// The first refusal of a file has its line and its number.
fn refused_files()
    ensures pattern_first { file_sections (file_line 1 (codes "/") ∷ []) ≡ refused 1 17 }
    ensures open { file_sections (file_line 3 (codes "{+block{a}") ∷ []) ≡ refused 3 16 }
    ensures twice { file_sections (file_line 1 (codes "{{alias}}") ∷ file_line 2 (codes "{{alias}}") ∷ []) ≡ refused 2 18 }
    ensures late { file_sections (file_line 1 (codes "{-block}") ∷ file_line 4 (codes "{{alias}}") ∷ []) ≡ refused 4 19 }
    ensures same_alias { file_sections (file_line 1 (codes "{{alias}}") ∷ file_line 2 (codes "x = -block") ∷ file_line 3 (codes "X = -block") ∷ [])
        ≡ refused 3 20 }
    ensures other_block { file_sections (file_line 2 (codes "{{other}}") ∷ []) ≡ refused 2 44 }
    ensures word { file_sections (file_line 1 (codes "{+blok{x}}") ∷ []) ≡ refused 1 12 }
{}

/// An alias stands for its words, and a section has the line of its heading.
fn sections()
    ensures by_alias { file_sections (file_line 1 (codes "{{alias}}") ∷ file_line 2 (codes "x = -block") ∷ file_line 5 (codes "{X}") ∷ [])
        ≡ Ok (record { line = 5; updates = (kind.Block, change.Off) ∷ []; patterns = [] } ∷ []) }
{
    // Nothing runs: the prover computes the rows.
}

/// The names of the refusals.
fn refusals_of_files()
    ensures open { refusal_name 16 ≡ codes "OpenBrace" }
    ensures pattern { refusal_name 17 ≡ codes "PatternBeforeSection" }
    ensures second { refusal_name 18 ≡ codes "SecondAliasBlock" }
    ensures late { refusal_name 19 ≡ codes "LateAliasBlock" }
    ensures twice { refusal_name 20 ≡ codes "AliasTwice" }
    ensures block { refusal_name 44 ≡ codes "BadBlock" }
{}
