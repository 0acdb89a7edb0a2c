//! Filter files (Privoxy's manual, "Filter Files").
#![tactic(auto, unfolding(core::specs::Str::chars, core::specs::Str::is_utf8, px_filter_files::specs::FilterFiles::all_skipped, px_filter_files::specs::FilterFiles::first_filter_fault, px_subst::specs::Expressions::job_expression, px_subst::specs::Jobs::job_of))]

ghost use Rattle.std.specs.Prelude.{◌≡◌, ◌∷◌, [], Some, None, true, false, codes};
ghost use Rattle.px_filter_files.specs.FilterFiles.{all_skipped, first_filter_fault};
ghost use Rattle.px_filter_files.specs.Headings.{heading_at};
ghost use Rattle.px_filter_files.specs.declared.faults.FilterFault.TheVariants.{At};
ghost use Rattle.px_filter_files.specs.declared.kinds.FilterKind.TheVariants.{Content, ClientHeader, ClientTagger, ServerHeader, ServerTagger};
ghost use Rattle.px_rows.specs.Rows.{file_line};

/// Keywords, with case, and the name behind each.
fn headings_of_filters()
    ensures content { heading_at (codes "FILTER: f less blinking") ≡ Some (record { kind = Some Content; name = codes "f" }) }
    ensures no_space { heading_at (codes "FILTER:f") ≡ Some (record { kind = Some Content; name = codes "f" }) }
    ensures client { heading_at (codes "CLIENT-HEADER-FILTER: h") ≡ Some (record { kind = Some ClientHeader; name = codes "h" }) }
    ensures server { heading_at (codes "SERVER-HEADER-FILTER:\th x") ≡ Some (record { kind = Some ServerHeader; name = codes "h" }) }
    ensures client_tagger { heading_at (codes "CLIENT-HEADER-TAGGER: t") ≡ Some (record { kind = Some ClientTagger; name = codes "t" }) }
    ensures server_tagger { heading_at (codes "SERVER-HEADER-TAGGER: t") ≡ Some (record { kind = Some ServerTagger; name = codes "t" }) }
    ensures outside { heading_at (codes "EXTERNAL-FILTER: e") ≡ Some (record { kind = None; name = codes "e" }) }
    ensures no_name { heading_at (codes "FILTER: ") ≡ Some (record { kind = Some Content; name = [] }) }
    ensures case { heading_at (codes "filter: f") ≡ None }
    ensures job { heading_at (codes "s/a/b/") ≡ None }
{}

/// The first refusal of a file.
fn refused_filters()
    ensures job_first { first_filter_fault [] (file_line 1 (codes "s/a/b/") ∷ []) ≡ Some (At 1 25) }
    ensures no_name { first_filter_fault [] (file_line 2 (codes "FILTER:") ∷ []) ≡ Some (At 2 26) }
    ensures no_name_outside { first_filter_fault [] (file_line 2 (codes "EXTERNAL-FILTER:") ∷ []) ≡ Some (At 2 26) }
    ensures twice { first_filter_fault [] (file_line 1 (codes "FILTER: f a") ∷ file_line 4 (codes "FILTER: f b") ∷ []) ≡ Some (At 4 27) }
    ensures two_kinds { first_filter_fault [] (file_line 1 (codes "FILTER: f a") ∷ file_line 2 (codes "SERVER-HEADER-FILTER: f a") ∷ []) ≡ None }
    ensures outside { first_filter_fault [] (file_line 1 (codes "EXTERNAL-FILTER: f") ∷ file_line 2 (codes "not a job") ∷ file_line 3 (codes "EXTERNAL-FILTER: f") ∷ [])
        ≡ None }
{}

/// A job that isn't read is left out by its line.
fn skipped_jobs()
    ensures one { all_skipped (file_line 1 (codes "FILTER: f") ∷ file_line 2 (codes "s/a/b") ∷ []) ≡ 2 ∷ [] }
    ensures outside { all_skipped (file_line 1 (codes "EXTERNAL-FILTER: f") ∷ file_line 2 (codes "s/a/b") ∷ []) ≡ [] }
{}
