//! The lines of a file (Privoxy's manual, "The Main Configuration File").
#![tactic(auto, unfolding(core::specs::Str::chars, core::specs::Str::is_utf8, px_base::specs::Blanks::trimmed, px_text::specs::Faults::first_line_fault, px_text::specs::Faults::first_not_text, px_text::specs::Faults::first_too_long, px_text::specs::Lines::joined_lines, px_text::specs::Lines::joined_to, px_text::specs::Lines::kept_lines, px_text::specs::Lines::logical, px_text::specs::Lines::part, px_text::specs::Lines::uncommented, px_text::specs::Lines::unescaped_line))]

ghost use Rattle.std.specs.Prelude.{◌≡◌, ◌∷◌, ◌++◌, [], Some, None, true, false, codes};
ghost use Rattle.px_text.specs.Faults.{first_text_fault, text_fault_name, text_fault_number};
ghost use Rattle.px_text.specs.Lines.{is_continued, logical, part};
ghost use Rattle.px_text.specs.declared.faults.TextFault.TheVariants.{NotText, TooLong};
ghost use Rattle.px_rows.specs.Rows.{file_line};

/// A `#` begins a comment unless a backslash stands directly before it.
fn comments()
    ensures behind { part (codes "a # b") ≡ codes "a " }
    ensures whole { part (codes "# b") ≡ [] }
    ensures escaped { part (codes "c\\#d # e") ≡ codes "c#d " }
    ensures second_backslash { part (codes "a\\\\#b") ≡ codes "a\\#b" }
    ensures other_backslash { part (codes "a\\b") ≡ codes "a\\b" }
{}

/// A line whose last byte is a backslash goes on in the next one, which is joined to it with nothing between them; this is
/// looked at before comments. A line has the number of its first physical line.
fn lines_of_files()
    ensures joined { logical (codes "a \\\n# b \\\nc\\#d # e\nf") ≡ file_line 1 (codes "a c#d") ∷ file_line 4 (codes "f") ∷ [] }
    ensures comment_goes_on { logical (codes "# a\\\nb\nc") ≡ file_line 1 (codes "b") ∷ file_line 3 (codes "c") ∷ [] }
    ensures empty_ones { logical (codes " a \n\n\t\n b") ≡ file_line 1 (codes "a") ∷ file_line 4 (codes "b") ∷ [] }
    ensures line_ends { logical (codes "a\r\nb\n") ≡ file_line 1 (codes "a") ∷ file_line 2 (codes "b") ∷ [] }
    ensures return_inside { logical (codes "a\rb\n") ≡ file_line 1 (codes "a\rb") ∷ [] }
    ensures mark { logical (239 ∷ 187 ∷ 191 ∷ codes "a") ≡ file_line 1 (codes "a") ∷ [] }
    ensures nothing { logical [] ≡ [] }
    ensures continued { is_continued (codes "a\\") ≡ true }
    ensures space_behind { is_continued (codes "a\\ ") ≡ false }
{}

/// A physical line that isn't UTF-8 is refused by its own number.
fn refused_texts()
    ensures no_text { first_text_fault (codes "a\n" ++ 255 ∷ []) ≡ Some (NotText 2) }
    ensures in_a_joined_line { first_text_fault (codes "a\\\n" ++ 255 ∷ []) ≡ Some (NotText 2) }
    ensures number { text_fault_number (NotText 7) ≡ 1 }
    ensures name { text_fault_name (NotText 7) ≡ codes "NotText" }
    ensures long_number { text_fault_number (TooLong 7) ≡ 2 }
    ensures long_name { text_fault_name (TooLong 7) ≡ codes "TooLong" }
{}
