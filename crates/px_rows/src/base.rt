//! White space, decimal numbers and lists of ports.
#![tactic(auto, unfolding(px_base::specs::Blanks::trimmed, px_base::specs::Numbers::decimal, px_base::specs::Ports::item, px_base::specs::Ports::port, px_base::specs::Ports::port_list))]

ghost use Rattle.std.specs.Prelude.{◌≡◌, ◌∷◌, [], Some, None, true, false, codes, option_map};
ghost use Rattle.px_base.specs.Blanks.{trimmed};
ghost use Rattle.px_base.specs.Numbers.{decimal};
ghost use Rattle.px_base.specs.Ports.{allows, port_list};

/// Spaces and tabs around a text go, those in it stay.
fn white_space_around_a_text()
    ensures around { trimmed (codes " \ta b\t") ≡ codes "a b" }
    ensures alone { trimmed (codes "  ") ≡ [] }
    ensures line_end { trimmed (codes "a\r ") ≡ codes "a\r" }
{}

/// A decimal number has digits alone, and at most that value; zeros may stand before it.
fn decimal_numbers()
    ensures most { decimal 65535 (codes "65535") ≡ Some 65535 }
    ensures above { decimal 65535 (codes "65536") ≡ None }
    ensures zeros { decimal 65535 (codes "0080") ≡ Some 80 }
    ensures sign { decimal 65535 (codes "+80") ≡ None }
    ensures space { decimal 65535 (codes "80 ") ≡ None }
    ensures empty { decimal 65535 [] ≡ None }
{}

/// The ports of a list between commas: single ones, and ranges that may be open at either side (Privoxy's manual,
/// "limit-connect").
fn port_lists()
    ensures one { option_map (λ ranges. allows ranges 443) (port_list (codes "443")) ≡ Some true }
    ensures another { option_map (λ ranges. allows ranges 444) (port_list (codes "443")) ≡ Some false }
    ensures least { option_map (λ ranges. allows ranges 1) (port_list (codes "-3, 7, 20-100, 500-")) ≡ Some true }
    ensures single { option_map (λ ranges. allows ranges 7) (port_list (codes "-3, 7, 20-100, 500-")) ≡ Some true }
    ensures first { option_map (λ ranges. allows ranges 20) (port_list (codes "-3, 7, 20-100, 500-")) ≡ Some true }
    ensures last { option_map (λ ranges. allows ranges 100) (port_list (codes "-3, 7, 20-100, 500-")) ≡ Some true }
    ensures open { option_map (λ ranges. allows ranges 65535) (port_list (codes "-3, 7, 20-100, 500-")) ≡ Some true }
    ensures behind { option_map (λ ranges. allows ranges 4) (port_list (codes "-3, 7, 20-100, 500-")) ≡ Some false }
    ensures between { option_map (λ ranges. allows ranges 19) (port_list (codes "-3, 7, 20-100, 500-")) ≡ Some false }
    ensures above { option_map (λ ranges. allows ranges 101) (port_list (codes "-3, 7, 20-100, 500-")) ≡ Some false }
    ensures every { option_map (λ ranges. allows ranges 80) (port_list (codes "-")) ≡ Some true }
    ensures none { option_map (λ ranges. allows ranges 80) (port_list (codes ",")) ≡ Some false }
    ensures backwards { port_list (codes "9-8") ≡ None }
    ensures zero { port_list (codes "0") ≡ None }
    ensures too_great { port_list (codes "70000") ≡ None }
    ensures word { port_list (codes "x") ≡ None }
    ensures two_dashes { port_list (codes "1-2-3") ≡ None }
{}
