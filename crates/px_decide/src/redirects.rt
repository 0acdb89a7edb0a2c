// Redirects.
ghost use Rattle.std.specs.Prelude.{◌≡◌, ◌≢◌, IfOk, IsTrue, None, Ok, OnOk, option_and_then};
ghost use Rattle.std.specs.Result.{result_ok};
ghost use Rattle.px_actions.specs.Kinds.{entry_of};
ghost use Rattle.px_actions.specs.Rules.{keeps_rule};
ghost use Rattle.px_decide.specs.Targets.{fast_target, is_job_value, job_target, last_url, leading_away, redirect_target, searched_path, target_of_redirects, value_target};
ghost use Rattle.px_subst.specs.Jobs.{job_of};

use crate::targets::{decoded, last_url};
use px_actions::{ActionSet, Kind, value_text};
use px_base::{Mem, Text};
use px_patterns::Url;
use px_subst::{Job, JobFault, Vars};
use std::alloc::Global;

/// Where a request is redirected to, if it is.
#[tactic(auto, unfolding(crate::specs::Targets::target_of_redirects))]
pub(crate) fn target(
    alloc: Global,
    url: &Url,
    set: &ActionSet,
    vars: &Vars,
) -> Result<Option<Text>, Mem>
    ensures { IfOk result (λ target. target ≡ target_of_redirects url.now set.now vars.now) }
{
    if set.value(Kind::Redirect).is_none() && set.value(Kind::FastRedirects).is_none() {
        return Ok(None);
    }
    let printed = url.print(alloc)?;
    match redirect(alloc, printed.as_bytes(), set, vars)? {
        Some(target) => Ok(Some(target)),
        None => fast_redirect(alloc, printed.as_bytes(), url.path.as_bytes(), set),
    }
}

/// The target of `redirect`.
fn redirect(
    alloc: Global,
    printed: &[u8],
    set: &ActionSet,
    vars: &Vars,
) -> Result<Option<Text>, Mem>
    ensures { IfOk result (λ target. target ≡ redirect_target printed.now set.now vars.now) }
{
    match set.value(Kind::Redirect) {
        Some(value) => {
            let target = value_target(alloc, printed, value, vars)?;
            Ok(leading_away(printed, target))
        }
        None => Ok(None),
    }
}

/// The target of `fast-redirects`.
fn fast_redirect(
    alloc: Global,
    printed: &[u8],
    path: &[u8],
    set: &ActionSet,
) -> Result<Option<Text>, Mem>
    ensures { IfOk result (λ target. target ≡ fast_target printed.now path.now set.now) }
{
    match set.value(Kind::FastRedirects) {
        Some(mode) => {
            let target = path_target(alloc, mode, path)?;
            Ok(leading_away(printed, target))
        }
        None => Ok(None),
    }
}

/// A target, unless it is empty or the URL itself.
fn leading_away(printed: &[u8], target: Option<Text>) -> Option<Text>
    ensures { result ≡ option_and_then (leading_away printed.now) target }
{
    match target {
        Some(target) => {
            if target.is_empty() || target.as_bytes() == printed {
                None
            } else {
                Some(target)
            }
        }
        None => None,
    }
}

/// The last URL in a path, which is decoded where the mode asks for that.
fn path_target(alloc: Global, mode: &[u8], path: &[u8]) -> Result<Option<Text>, Mem>
    ensures { IfOk result (λ target. target ≡ last_url (searched_path mode.now path.now)) }
{
    if mode == b"check-decoded-url".as_slice() {
        let path = decoded(alloc, path)?;
        last_url_in(alloc, path.as_bytes())
    } else {
        last_url_in(alloc, path)
    }
}

fn last_url_in(alloc: Global, text: &[u8]) -> Result<Option<Text>, Mem>
    ensures { IfOk result (λ target. target ≡ last_url text.now) }
{
    match last_url(text) {
        Some(url) => Ok(Some(Text::from_bytes(alloc, url)?)),
        None => Ok(None),
    }
}

/// The target that a value of `redirect` gives: what it makes of the printed URL where it is a job, else itself.
#[tactic(auto, unfolding(crate::specs::Targets::value_target))]
fn value_target(
    alloc: Global,
    printed: &[u8],
    value: &[u8],
    vars: &Vars,
) -> Result<Option<Text>, Mem>
    requires { IsTrue (keeps_rule (entry_of Kind.Redirect).rule value.now) }
    ensures { IfOk result (λ target. target ≡ value_target vars.now printed.now value.now) }
{
    if is_job(value) {
        job_target(alloc, printed, value_text(Kind::Redirect, value), vars)
    } else {
        Ok(Some(Text::from_bytes(alloc, value)?))
    }
}

/// Whether a value of `redirect` is a job: `s` and a byte that isn't a letter or a digit.
fn is_job(value: &[u8]) -> bool
    ensures { result ≡ is_job_value value.now }
{
    value.len() > 1 && value[0] == b's' && !value[1].is_ascii_alphanumeric()
}

/// What a job makes of the printed URL. One that isn't read, or that hits nothing, gives nothing.
fn job_target(alloc: Global, printed: &[u8], job: &str, vars: &Vars) -> Result<Option<Text>, Mem>
    ensures { IfOk result (λ target. target ≡ job_target vars.now printed.now (job_of job.now)) }
{
    match read_job(alloc, job)? {
        Some(job) => run_job(alloc, &job, printed, vars),
        None => Ok(None),
    }
}

fn run_job(alloc: Global, job: &Job, printed: &[u8], vars: &Vars) -> Result<Option<Text>, Mem>
    ensures { IfOk result (λ target. target ≡ job_target vars.now printed.now (Ok job.now)) }
{
    let outcome = job.run(alloc, printed, vars)?;
    if outcome.hits == 0 {
        Ok(None)
    } else {
        Ok(Some(outcome.text))
    }
}

/// The job of a text, if it is one.
fn read_job(alloc: Global, text: &str) -> Result<Option<Job>, Mem>
    ensures { IfOk result (λ job. job ≡ result_ok (job_of text.now)) }
{
    match Job::read(alloc, text) {
        Ok(job) => Ok(Some(job)),
        Err(fault) => without_job(fault),
    }
}

/// What a refused job counts as: no job, or want of memory.
fn without_job(fault: JobFault) -> Result<Option<Job>, Mem>
    ensures none { IfOk result (λ job. job ≡ None) }
    ensures refused { OnOk result (fault ≢ JobFault.Mem) }
{
    match fault {
        JobFault::NoDelimiter => Ok(None),
        JobFault::Unfinished => Ok(None),
        JobFault::BadFlag => Ok(None),
        JobFault::BadRegex => Ok(None),
        JobFault::Mem => Err(Mem),
    }
}
