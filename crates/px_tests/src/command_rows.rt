//! Words, files and printed lines of the commands, and the generated job.
#![tactic(auto, unfolding(core::specs::Fmt::digits, px_base::specs::Numbers::decimal, px_commands::specs::Entries::first_counted_entry, px_generated::specs::Draws::after_draws, px_generated::specs::Files::filter_text, px_generated::specs::Files::host_and_path, px_generated::specs::Files::section, px_generated::specs::Files::section_from, px_generated::specs::Files::update_of, px_generated::specs::Sessions::answer_bytes, px_generated::specs::Sessions::answer_front, px_generated::specs::Sessions::generated_request, px_generated::specs::Sessions::request_from, px_show::specs::Showing::shown_count, px_show::specs::Showing::file_counts, px_show::specs::Showing::filter_counts, px_show::specs::Showing::note_lines, px_show::specs::Showing::pattern_counts, px_show::specs::Showing::ref_lines))]

ghost use Rattle.std.specs.Prelude.{◌≡◌, ◌∷◌, ◌^◌, ◌-◌, [], Some, None, true, false, codes};
ghost use Rattle.px_commands.specs.Entries.{first_counted_entry};
ghost use Rattle.px_commands.specs.Sents.{sent_text};
ghost use Rattle.px_commands.specs.Statuses.{code_of};
ghost use Rattle.px_commands.specs.Words.{count_in_word, most_of, no_flags, number_in_word};
ghost use Rattle.px_commands.specs.declared.statuses.Status.TheVariants as status;
ghost use Rattle.px_generated.specs.Draws.{after_draws, first_draw, second_draw, third_draw};
ghost use Rattle.px_generated.specs.Files.{filter_text, section_from, update_of};
ghost use Rattle.px_generated.specs.Sessions.{answer_bytes, request_from};
ghost use Rattle.px_show.specs.Showing.{file_counts, filter_counts, note_lines, pattern_counts, ref_lines};

/// WORKERS is a number from 1 to 64, and CONNECTIONS one from 1 to 4,294,967,295.
fn numbers_of_workers()
    ensures least { count_in_word 64 (codes "1") ≡ Some 1 }
    ensures most { count_in_word 64 (codes "64") ≡ Some 64 }
    ensures zero { count_in_word 64 (codes "0") ≡ None }
    ensures above { count_in_word 64 (codes "65") ≡ None }
    ensures long { number_in_word 2147483647 (codes "00000000001") ≡ None }
    ensures no_number { most_of [] ≡ Some (2 ^ 64 - 1) }
    ensures connections { most_of (codes "2" ∷ codes "3" ∷ []) ≡ Some 3 }
    ensures three_numbers { most_of (codes "2" ∷ codes "3" ∷ codes "4" ∷ []) ≡ None }
    ensures great_number { most_of (codes "2" ∷ codes "4294967296" ∷ []) ≡ None }
    ensures flag { no_flags (codes "c" ∷ codes "-h" ∷ []) ≡ false }
    ensures seed { number_in_word 2147483647 (codes "2147483647") ≡ Some 2147483647 }
    ensures great_seed { number_in_word 2147483647 (codes "2147483648") ≡ None }
{}

/// An entry of ORIGIN is a line with a number and so many bytes; what is behind it is left.
fn entries_of_origin()
    ensures entry { first_counted_entry (codes "2\nhi1") ≡ Some (codes "hi", codes "1") }
    ensures nothing { first_counted_entry (codes "0\n") ≡ Some ([], []) }
    ensures short { first_counted_entry (codes "3\nhi") ≡ None }
    ensures no_line { first_counted_entry (codes "2hi") ≡ None }
    ensures nine_digits { first_counted_entry (codes "000000002\nhi") ≡ None }
    ensures carriage_return { first_counted_entry (codes "2\r\nhi") ≡ None }
{}

/// An entry of SENT for each link.
fn entries_of_sent()
    ensures one { sent_text (record { host = codes "a.test"; port = 443; heard = codes "xyz"; sent = codes "abc" } ∷ [])
        ≡ codes "a.test:443 3\nabc" }
    ensures none { sent_text [] ≡ [] }
{}

/// The statuses.
fn statuses()
    ensures done { code_of status.Done ≡ 0 }
    ensures not_loaded { code_of status.NotLoaded ≡ 1 }
    ensures usage { code_of status.Usage ≡ 2 }
    ensures read { code_of status.ReadFailed ≡ 3 }
    ensures write { code_of status.WriteFailed ≡ 4 }
    ensures memory { code_of status.NoMemory ≡ 5 }
    ensures url { code_of status.NoUrl ≡ 6 }
    ensures doors { code_of status.DoorsFailed ≡ 7 }
    ensures origin { code_of status.NoOrigin ≡ 8 }
{
    // Nothing runs: the prover computes the rows.
}

/// What `check` and `show` print.
fn printed_lines()
    ensures note { note_lines (record { file = codes "config"; line = 4; text = codes "directive ignored: logfile" } ∷ [])
        ≡ codes "config:4: note: directive ignored: logfile\n" }
    ensures files { file_counts 2 ≡ codes "ok: 2 action files, " }
    ensures patterns { pattern_counts 30 30 ≡ codes "30 sections, 30 patterns, " }
    ensures filters { filter_counts 1 1 ≡ codes "1 filter files, 1 filters\n" }
    ensures sections { ref_lines (codes "u.action" ∷ []) (record { file = 0; line = 1 } ∷ record { file = 0; line = 3 } ∷ [])
        ≡ codes "u.action:1\nu.action:3\n" }
{}

/// The generated job's numbers are those of the example of `rand` in the C standard (ISO C17, 7.22.2.2), with 31 bits kept.
fn generated_jobs()
    ensures number { after_draws 1 7 ≡ 1282168116 }
    ensures third_number { after_draws 3 7 ≡ 712265938 }
    ensures host { first_draw 100 7 ≡ 64 }
    ensures path { second_draw 50 7 ≡ 6 }
    ensures kind { third_draw 5 7 ≡ 3 }
    ensures section { section_from 7 ≡ codes "{+crunch-incoming-cookies}\n.h64.test/p6\n" }
    ensures request { request_from 7 ≡ codes "GET http://h64.test/p6 HTTP/1.1\r\n\r\n" }
    ensures length { third_draw 2000 7 ≡ 868 }
    ensures block { update_of 0 ≡ codes "+block{b}" }
    ensures filter { update_of 1 ≡ codes "+filter{f}" }
    ensures no_filter { update_of 2 ≡ codes "-filter{f}" }
    ensures cookies { update_of 3 ≡ codes "+crunch-incoming-cookies" }
    ensures no_block { update_of 4 ≡ codes "-block" }
    ensures jobs { filter_text ≡ codes "FILTER: f gen\ns/a/b/g\n" }
    ensures answer { answer_bytes 2 ≡ codes "HTTP/1.1 200 OK\r\nContent-Type: text/html\r\nSet-Cookie: s=1\r\nContent-Length: 2\r\n\r\naa" }
{}
