//! The kinds of leaf rows: each is a function from a row to a text. A file of rows is named for its kind.
mod actions;
mod answers;
mod bodies;
mod files;
mod heads;
mod made;
mod pages;
mod patterns;
mod requests;
mod sections;

use crate::faults::Fault;
use crate::leaves::Row;
use px_base::Text;

/// What a row of a kind gives.
pub(crate) fn gives(kind: &str, row: &Row<'_>) -> Result<Text, Fault> {
    match kind {
        "ports" => patterns::ports(row),
        "urls" => patterns::urls(row),
        "hosts" | "paths" => patterns::matches(row),
        "expressions" => patterns::expressions(row),
        "tags" => patterns::tags(row),
        "words" => actions::words(row),
        "sets" => actions::sets(row),
        "lines" => files::lines(row),
        "lists" => files::lists(row),
        "actions" => files::actions(row),
        "refusals" => files::refusals(row),
        "jobs" => files::jobs(row),
        "filters" => files::filters(row),
        "templates" => pages::templates(row),
        "replies" => pages::replies(row),
        "sections" => sections::sections(row),
        "tagged" => sections::tagged(row),
        "absent" => sections::absent(row),
        "redirects" | "decisions" => sections::decisions(row),
        "routes" => sections::routes(row),
        "blocks" => heads::blocks(row),
        "heads" => heads::heads(row),
        "fields" => heads::fields(row),
        "rules" => bodies::rules(row),
        "chunks" | "bodies" => bodies::bodies(row),
        "referrers" | "requests" => requests::requests(row),
        "taggers" => requests::taggers(row),
        "cookies" | "responses" => answers::responses(row),
        "texts" => answers::texts(row),
        "answers" => answers::answers(row),
        _ => Err(Fault::Form("no kind of rows has the file's name")),
    }
}
