//! Words of actions, their parameters, and next hops (Privoxy's manual, "Actions Files").
#![tactic(auto, unfolding(core::specs::Str::chars, core::specs::Str::is_utf8, httparse::specs::Grammar::is_token_byte, px_actions::specs::Braces::balances, px_actions::specs::Braces::is_closed, px_actions::specs::Braces::words, px_actions::specs::Hops::is_hop_address_byte, px_actions::specs::Hops::is_host_byte, px_actions::specs::Hops::next_hop, px_actions::specs::Kinds::entry_of, px_actions::specs::Kinds::kind_named, px_actions::specs::Rules::is_plain_text, px_actions::specs::Rules::keeps_rule, px_actions::specs::Rules::meets, px_actions::specs::Rules::override_hop, px_actions::specs::Sets::empty_set, px_actions::specs::Sets::set_lines, px_actions::specs::Sets::updated, px_actions::specs::Sets::value, px_actions::specs::Sets::set_values, px_actions::specs::Updates::has_parameter, px_actions::specs::Updates::word_update, px_base::specs::Blanks::trimmed, px_base::specs::Numbers::decimal, px_base::specs::Ports::item, px_base::specs::Ports::port, px_base::specs::Ports::port_list, px_fields::specs::FieldLines::read_field, px_fields::specs::Names::is_held_back_of_request))]

ghost use Rattle.std.specs.Prelude.{◌≡◌, ◌∷◌, [], Some, None, Ok, Err, true, false, codes};
ghost use Rattle.px_actions.specs.Braces.{balances, is_closed, words};
ghost use Rattle.px_actions.specs.Faults.{refusal};
ghost use Rattle.px_actions.specs.Hops.{direct, next_hop, parent};
ghost use Rattle.px_actions.specs.Kinds.{entry_of, kind_named};
ghost use Rattle.px_actions.specs.Rules.{keeps_rule, meets};
ghost use Rattle.px_actions.specs.Sets.{empty_set, set_lines, updated};
ghost use Rattle.px_actions.specs.Updates.{word_update};
ghost use Rattle.px_actions.specs.declared.changes.Change.TheVariants as change;
ghost use Rattle.px_actions.specs.declared.faults.ActionFault.TheVariants as fault;
ghost use Rattle.px_actions.specs.declared.kinds.Kind.TheVariants as kind;
ghost use Rattle.px_actions.specs.declared.kinds.Rule.TheVariants as rule;

/// What words change, and which are refused.
fn words_of_actions()
    ensures wanted { word_update (codes "+block") ≡ Err fault.ParameterWanted }
    ensures unwanted { word_update (codes "+handle-as-image{x}") ≡ Err fault.ParameterUnwanted }
    ensures unwanted_off { word_update (codes "-block{x}") ≡ Err fault.ParameterUnwanted }
    ensures other_value { word_update (codes "+fast-redirects{x}") ≡ Err fault.BadParameter }
    ensures held_back { word_update (codes "+add-header{Host: a}") ≡ Err fault.BadParameter }
    ensures no_sign { word_update (codes "block{x}") ≡ Err fault.UnknownAction }
    ensures no_name { word_update (codes "+blok{x}") ≡ Err fault.UnknownAction }
    ensures open { word_update (codes "+block{x") ≡ Err fault.BadParameter }
    ensures clear { word_update (codes "-filter") ≡ Ok (kind.Filter, change.Clear) }
    ensures add { word_update (codes "+filter{ a }") ≡ Ok (kind.Filter, change.Add (codes "a")) }
    ensures remove { word_update (codes "-filter{a}") ≡ Ok (kind.Filter, change.Remove (codes "a")) }
    ensures empty_reason { word_update (codes "+block{}") ≡ Ok (kind.Block, change.Set []) }
    ensures on { word_update (codes "+Handle-As-Image") ≡ Ok (kind.HandleAsImage, change.On) }
    ensures off { word_update (codes "-handle-as-image") ≡ Ok (kind.HandleAsImage, change.Off) }
    ensures inner_braces { word_update (codes "+redirect{s@a{2}@b@}") ≡ Ok (kind.Redirect, change.Set (codes "s@a{2}@b@")) }
{}

/// Names are compared without case; the number of a kind is its place in byte order of the names.
fn names_of_kinds()
    ensures first { (entry_of kind.AddHeader).place ≡ 0 }
    ensures last { (entry_of kind.SuppressTag).place ≡ 40 }
    ensures case { kind_named (codes "BLOCK") ≡ Some kind.Block }
    ensures spelling { kind_named (codes "hide-referer") ≡ Some kind.HideReferrer }
    ensures shown { (entry_of kind.HideReferrer).name ≡ codes "hide-referrer" }
    ensures other { kind_named (codes "blok") ≡ None }
{}

/// The rules of parameters.
fn parameters()
    ensures most { meets rule.Minutes (codes "100000000") ≡ true }
    ensures above { meets rule.Minutes (codes "100000001") ≡ false }
    ensures long { meets rule.Minutes (codes "0000000001") ≡ false }
    ensures none { meets rule.Minutes [] ≡ false }
    ensures forwarded_for { meets rule.BlockOrAdd (codes "add") ≡ true }
    ensures forwarded_for_case { meets rule.BlockOrAdd (codes "Add") ≡ false }
    ensures redirects { meets rule.RedirectCheck (codes "simple-check") ≡ true }
    ensures decoded { meets rule.RedirectCheck (codes "check-decoded-url") ≡ true }
    ensures modified { meets rule.ModifiedDate (codes "reset-to-request-time") ≡ true }
    ensures randomized { meets rule.ModifiedDate (codes "randomize") ≡ true }
    ensures other_date { meets rule.ModifiedDate (codes "now") ≡ false }
    ensures ports { meets rule.Ports (codes "443,80") ≡ true }
    ensures no_ports { meets rule.Ports [] ≡ false }
    ensures hop { meets rule.Parent (codes "forward p.test:8080") ≡ true }
    ensures socks { meets rule.Parent (codes "forward-socks5 p.test:1080 .") ≡ false }
    ensures field { meets rule.AddedField (codes "X-A: 1") ≡ true }
    ensures no_field { meets rule.AddedField (codes "X-A") ≡ false }
    ensures tab { keeps_rule rule.Text (codes "a\tb") ≡ true }
    ensures control { keeps_rule rule.Text (97 ∷ 1 ∷ []) ≡ false }
    ensures no_text { keeps_rule rule.Text (255 ∷ []) ≡ false }
    ensures empty { keeps_rule rule.Text [] ≡ false }
    ensures empty_reason { keeps_rule rule.TextOrEmpty [] ≡ true }
{
    // Nothing runs: the prover computes the rows.
}

/// Braces balance from left to right, and a backslash takes the byte behind it along; white space where no brace is open
/// parts words.
fn braces_and_words()
    ensures cut { words (codes "+a{b c}\t -d") ≡ codes "+a{b c}" ∷ codes "-d" ∷ [] }
    ensures none { words (codes " \t") ≡ [] }
    ensures escaped { balances (codes "{a\\}b}") ≡ true }
    ensures open { balances (codes "{a") ≡ false }
    ensures closed_first { balances (codes "}{") ≡ false }
    ensures at_end { is_closed (codes "a{2}}") ≡ true }
    ensures before_end { is_closed (codes "a}b}") ≡ false }
{}

/// A next hop is a dot, or a host and a port, 8000 where none is written.
fn next_hops()
    ensures origin { next_hop (codes ".") ≡ Some direct }
    ensures default_port { next_hop (codes "p.test") ≡ Some (parent (codes "p.test") 8000) }
    ensures port { next_hop (codes "p.test:8080") ≡ Some (parent (codes "p.test") 8080) }
    ensures address { next_hop (codes "[::1]:81") ≡ Some (parent (codes "::1") 81) }
    ensures zero { next_hop (codes "p.test:0") ≡ None }
    ensures open { next_hop (codes "[::1") ≡ None }
    ensures slash { next_hop (codes "p/test") ≡ None }
    ensures empty { next_hop [] ≡ None }
{}

/// The refusals by number and name.
fn refusals_of_words()
    ensures unknown { refusal fault.UnknownAction ≡ record { number = 12; name = codes "UnknownAction" } }
    ensures wanted { refusal fault.ParameterWanted ≡ record { number = 13; name = codes "ParameterWanted" } }
    ensures unwanted { refusal fault.ParameterUnwanted ≡ record { number = 14; name = codes "ParameterUnwanted" } }
    ensures bad { refusal fault.BadParameter ≡ record { number = 15; name = codes "BadParameter" } }
{}
