// How an exchange ended, in a word.
ghost use Rattle.std.specs.Prelude.{◌≡◌};
ghost use Rattle.px_log_lines.specs.Lines.{ending_name};

use px_notes::Ending;

/// The word for an ending: for a page the name of its template.
pub(crate) fn ending_name(ending: Ending) -> &'static str
    ensures { result.now ≡ ending_name ending }
{
    match ending {
        Ending::Page(page) => page.name(),
        Ending::Image => "image",
        Ending::Empty => "empty",
        Ending::Redirect => "redirect",
        Ending::Inside => "inside",
        Ending::Passed => "passed",
        Ending::Filtered => "filtered",
        Ending::Bodiless => "bodiless",
        Ending::CutFront => "cut",
        Ending::Tunnel => "tunnel",
        Ending::Broken => "broken",
    }
}
