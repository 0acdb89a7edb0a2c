//! Jobs: their fields, flags, items and words (Privoxy's manual, "Filter Files").
#![tactic(auto, unfolding(core::specs::Str::chars, core::specs::Str::is_utf8, px_subst::specs::Expressions::job_expression, px_subst::specs::Jobs::job_of))]

ghost use Rattle.std.specs.Prelude.{◌≡◌, ◌∷◌, [], Some, None, Ok, Err, true, false, codes, option_map};
ghost use Rattle.px_subst.specs.Fields.{field_end, is_delimiter, unescaped_field};
ghost use Rattle.px_subst.specs.JobFlags.{flags_of};
ghost use Rattle.px_subst.specs.Jobs.{job_of, Worded};
ghost use Rattle.px_subst.specs.Substitutes.{items_by_flag, substitute_items};
ghost use Rattle.px_subst.specs.Words.{filled};
ghost use Rattle.px_subst.specs.declared.faults.JobFault.TheVariants.{BadFlag, NoDelimiter, Unfinished};
ghost use Rattle.px_subst.specs.declared.items.SubstituteItem.TheVariants.{Byte, Group};

/// A delimiter is an ASCII byte that is no letter, digit, white space or backslash; a backslash takes the next byte along.
fn fields_of_jobs()
    ensures slash { is_delimiter 47 ≡ true }
    ensures letter { is_delimiter 97 ≡ false }
    ensures digit { is_delimiter 48 ≡ false }
    ensures space { is_delimiter 32 ≡ false }
    ensures backslash { is_delimiter 92 ≡ false }
    ensures past_ascii { is_delimiter 128 ≡ false }
    ensures end { field_end 47 false (codes "a\\/b/c") ≡ Some 4 }
    ensures no_end { field_end 47 false (codes "ab") ≡ None }
    ensures dropped { unescaped_field 47 false (codes "a\\/b") ≡ codes "a/b" }
    ensures kept { unescaped_field 47 false (codes "a\\.b") ≡ codes "a\\.b" }
{}

/// What isn't a job.
fn refused_jobs()
    ensures no_front { job_of (codes "a/b/c/") ≡ Err NoDelimiter }
    ensures letter { job_of (codes "sabac") ≡ Err NoDelimiter }
    ensures unfinished { job_of (codes "s/a/b") ≡ Err Unfinished }
    ensures flag { job_of (codes "s/a/b/q") ≡ Err BadFlag }
{}

/// A job with `D` keeps its texts until it is run.
fn jobs_with_words()
    ensures host { job_of (codes "s@$host@H@D")
        ≡ Ok (Worded (codes "$host") (codes "H") (record { every = false; any_case = false; multi_line = false; dot_all = false; spaced = false; ungreedy = false; plain = false; dynamic = true })) }
{}

/// Each flag may stand any number of times; `o` asks for nothing.
fn flags_of_jobs()
    ensures every { option_map (λ flags. flags.every) (flags_of (codes "gog")) ≡ Some true }
    ensures first { option_map (λ flags. flags.every) (flags_of (codes "i")) ≡ Some false }
    ensures case { option_map (λ flags. flags.any_case) (flags_of (codes "gi")) ≡ Some true }
    ensures lazy { option_map (λ flags. flags.ungreedy) (flags_of (codes "U")) ≡ Some true }
    ensures plain { option_map (λ flags. flags.plain) (flags_of (codes "T")) ≡ Some true }
    ensures other { flags_of (codes "gq") ≡ None }
    ensures case_of_flags { flags_of (codes "G") ≡ None }
{}

/// What a substitute is read to.
fn items_of_substitutes()
    ensures group { substitute_items (codes "$1") ≡ Group 1 ∷ [] }
    ensures backslash_group { substitute_items (codes "\\2") ≡ Group 2 ∷ [] }
    ensures whole { substitute_items (codes "$&") ≡ Group 0 ∷ [] }
    ensures two_digits { substitute_items (codes "$10") ≡ Group 1 ∷ Byte 48 ∷ [] }
    ensures zero { substitute_items (codes "\\0") ≡ Byte 48 ∷ [] }
    ensures control { substitute_items (codes "\\n\\r\\t\\f") ≡ Byte 10 ∷ Byte 13 ∷ Byte 9 ∷ Byte 12 ∷ [] }
    ensures escaped { substitute_items (codes "\\$1") ≡ Byte 36 ∷ Byte 49 ∷ [] }
    ensures dollar { substitute_items (codes "$a") ≡ Byte 36 ∷ Byte 97 ∷ [] }
    ensures end { substitute_items (codes "a\\") ≡ Byte 97 ∷ Byte 92 ∷ [] }
    ensures plain { items_by_flag true (codes "$1\\n") ≡ Byte 36 ∷ Byte 49 ∷ Byte 92 ∷ Byte 110 ∷ [] }
{
    // Nothing runs: the prover computes the rows.
}

/// The four words stand for a run's values, and a value isn't searched again.
fn words_of_jobs()
    ensures each { filled (record { host = codes "a.test"; origin = codes "127.0.0.1"; path = codes "/x"; url = codes "http://a.test/x" }) (codes "$host $origin $path $url")
        ≡ codes "a.test 127.0.0.1 /x http://a.test/x" }
    ensures once { filled (record { host = codes "$path"; origin = []; path = codes "/x"; url = [] }) (codes "<$host>") ≡ codes "<$path>" }
    ensures other { filled (record { host = codes "a"; origin = []; path = []; url = [] }) (codes "$hos $hostx") ≡ codes "$hos ax" }
{}
