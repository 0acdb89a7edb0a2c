// By what headers change.
use px_actions::ActionSet;
use px_filter_files::Filters;
use px_subst::Vars;

/// By what the headers of a message change: the actions that are set, the filters that they name, and the values of a job's
/// words.
#[derive(Drop)]
pub struct HeaderRules<'r> {
    pub set: &'r ActionSet,
    pub filters: &'r Filters,
    pub vars: &'r Vars,
}
