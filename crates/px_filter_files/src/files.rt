// What a filter file stands for.
ghost use Rattle.std.specs.Prelude.{◌≡◌, ◌≢◌, ◌||◌, ◌++◌, ◌∷◌, [], not, Err, None, IfOk, IfErr, IfSome, OnOk, is_some, option_to_list, if◌then◌else◌, ◌≤◌, option_map};
ghost use Rattle.std.specs.Result.{result_ok};
ghost use Rattle.px_subst.specs.Jobs.{job_of};
ghost use Rattle.std.specs.Option.{option_and_then};
ghost use Rattle.px_filter_files.specs.Headings.{Key, is_job_line, key_in};
ghost use Rattle.px_filter_files.specs.FilterFiles.{job_in_text, jobs_in, skipped_in, own_lines, filter_of, refusal_by, heading_refusal};

use crate::faults::{FilterFault, JOB_BEFORE_FILTER, NAME_MISSING, NAME_TWICE};
use crate::kinds::{FilterHeading, FilterKind};
use px_base::{List, Mem, Text, as_text};
use px_subst::{Filter, Job, JobFault};
use px_text::Line;
use std::alloc::Global;
use std::collections::BTreeSet;

/// A filter of a filter file.
#[derive(Drop)]
pub struct NamedFilter {
    pub kind: FilterKind,
    pub name: Text,
    /// The number of the line that begins it.
    pub line: u32,
    pub filter: Filter,
}

/// What a filter file stands for.
#[derive(Drop)]
pub struct FilterFile {
    /// The filters in order.
    pub filters: List<NamedFilter>,
    /// The numbers of the lines of filters that are no job. They are left out.
    pub skipped: List<u32>,
}

ghost use Rattle.px_filter_files.specs.Seen.{begins_filter, has_seen, heading_seen, parts_seen};

/// What a refused job counts as: no job, or want of memory.
fn without_job(fault: JobFault) -> Result<Option<Job>, Mem>
    ensures none { IfOk result (λ job. job ≡ None) }
    ensures refused { OnOk result (fault ≢ JobFault.Mem) }
{
    match fault {
        JobFault::NoDelimiter => Ok(None),
        JobFault::Unfinished => Ok(None),
        JobFault::BadFlag => Ok(None),
        JobFault::BadRegex => Ok(None),
        JobFault::Mem => Err(Mem),
    }
}

fn read_text(alloc: Global, text: &str) -> Result<Option<Job>, Mem>
    ensures { IfOk result (λ job. job ≡ result_ok (job_of text.now)) }
{
    match Job::read(alloc, text) {
        Ok(job) => Ok(Some(job)),
        Err(fault) => without_job(fault),
    }
}

/// The job of a line, or None where it isn't read.
fn read_job(alloc: Global, text: &[u8]) -> Result<Option<Job>, Mem>
    ensures { IfOk result (λ job. job ≡ job_in_text text.now) }
{
    match as_text(text) {
        Some(text) => read_text(alloc, text),
        None => Ok(None),
    }
}

/// Adds the job of a line, or the line's number where it isn't read.
fn add_job(
    alloc: Global,
    line: &Line,
    jobs: &mut Vec<Job>,
    skipped: &mut List<u32>,
) -> Result<(), Mem>
    ensures jobs { OnOk result (jobs.new.items ≡ jobs.old.items ++ jobs_in (line.now ∷ [])) }
    ensures skipped { OnOk result (skipped.new ≡ skipped.old ++ skipped_in (line.now ∷ [])) }
{
    match read_job(alloc, line.text.as_bytes())? {
        Some(job) => {
            jobs.push(job)?;
            Ok(())
        }
        None => skipped.add(line.number),
    }
}

fn is_job(line: &Line) -> bool
    ensures { result ≡ is_job_line line.now }
{
    FilterHeading::at(line.text.as_bytes()).is_none()
}

/// The filter of the lines up to the next that begins a part.
fn read_filter(alloc: Global, below: &[Line], skipped: &mut List<u32>) -> Result<Filter, Mem>
    ensures filter { IfOk result (λ filter. filter ≡ jobs_in (own_lines below.now)) }
    ensures skipped { OnOk result (skipped.new ≡ skipped.old ++ skipped_in (own_lines below.now)) }
{
    let mut jobs = Vec::new(alloc);
    for line in below {
        if !is_job(line) {
            return Ok(Filter::new(List::from_vec(jobs)));
        }
        add_job(alloc, line, &mut jobs, skipped)?;
    }
    Ok(Filter::new(List::from_vec(jobs)))
}

/// Whether a filter of this kind and name was seen.
fn is_taken<'l>(seen: &BTreeSet<(u8, &'l [u8])>, kind: FilterKind, name: &'l [u8]) -> bool
    ensures { result ≡ has_seen seen.now (record { kind = kind; name = name.now }) }
{
    seen.contains(&(kind.rank(), name))
}

/// The number of the refusal at a heading, if it is refused.
fn heading_refusal<'l>(heading: &FilterHeading<'l>, seen: &BTreeSet<(u8, &'l [u8])>) -> Option<u8>
    ensures number { result ≡ heading_refusal (has_seen seen.now) (parts_seen heading.now) }
    ensures known { IfSome result (λ number. (25 ≤ number) × (number ≤ 27)) }
{
    if heading.name.is_empty() {
        return Some(NAME_MISSING);
    }
    match heading.kind {
        Some(kind) => {
            if is_taken(seen, kind, heading.name) {
                Some(NAME_TWICE)
            } else {
                None
            }
        }
        None => None,
    }
}

/// The number of the refusal at a line, by its heading. `begun` says whether a part begins before it.
fn refusal<'l>(
    heading: &Option<FilterHeading<'l>>,
    seen: &BTreeSet<(u8, &'l [u8])>,
    begun: bool,
) -> Option<u8>
    ensures number { result ≡ refusal_by (has_seen seen.now) begun (heading_seen heading.now) }
    ensures known { IfSome result (λ number. (25 ≤ number) × (number ≤ 27)) }
{
    match heading {
        Some(heading) => heading_refusal(heading, seen),
        None => { if begun { None } else { Some(JOB_BEFORE_FILTER) } }
    }
}

/// The kind and the name of the filter that a line begins, by its heading.
fn key_in<'l>(heading: &Option<FilterHeading<'l>>) -> Option<(FilterKind, &'l [u8])>
    ensures { option_map (λ key. record { kind = key.0; name = key.1.now }) result
        ≡ option_and_then key_in (heading_seen heading.now) }
{
    match heading {
        Some(heading) => match heading.kind {
            Some(kind) => Some((kind, heading.name)),
            None => None,
        },
        None => None,
    }
}

/// Notes the kind and the name of the filter that a line begins, if it begins one.
fn add_key<'l>(
    heading: &Option<FilterHeading<'l>>,
    seen: &mut BTreeSet<(u8, &'l [u8])>,
) -> Result<(), Mem>
    ensures { OnOk result ((key : Key) → has_seen seen.new key
        ≡ (has_seen seen.old key || begins_filter (heading_seen heading.now) key)) }
{
    match key_in(heading) {
        Some((kind, name)) => {
            seen.insert((kind.rank(), name))?;
            Ok(())
        }
        None => Ok(()),
    }
}

/// Adds the filter that a line begins, if it begins one, with the jobs of the lines below.
fn add_filter(
    alloc: Global,
    heading: &Option<FilterHeading<'_>>,
    line: u32,
    below: &[Line],
    filters: &mut List<NamedFilter>,
    skipped: &mut List<u32>,
) -> Result<(), Mem>
    ensures filters { OnOk result (filters.new
        ≡ filters.old ++ option_to_list (filter_of (heading_seen heading.now) line below.now)) }
    ensures skipped { OnOk result (skipped.new ≡ skipped.old
        ++ (if is_some (option_and_then key_in (heading_seen heading.now)) then skipped_in (own_lines below.now) else [])) }
{
    match key_in(heading) {
        Some((kind, name)) => filters.add(NamedFilter {
            kind,
            name: Text::from_bytes(alloc, name)?,
            line,
            filter: read_filter(alloc, below, skipped)?,
        }),
        None => Ok(()),
    }
}

impl FilterFile {
    ghost use Rattle.px_filter_files.specs.FilterFiles.{file_of};
    ghost use Rattle.px_filter_files.specs.Faults.{HasKnownNumber};

    /// Reads the lines of a filter file (Privoxy's manual, "Filter Files"). A keyword begins a filter, or a part whose
    /// lines aren't read; a name and a description follow it. Every other line is a job of the filter above it, and one
    /// that isn't read is left out. The first line that is refused is answered.
    pub fn read(alloc: Global, lines: &[Line]) -> Result<FilterFile, FilterFault>
        ensures value { result ≢ Err FilterFault.Mem → result ≡ file_of lines.now }
        ensures known { IfErr result HasKnownNumber }
    {
        let mut filters = List::new(alloc);
        let mut skipped = List::new(alloc);
        let mut seen = BTreeSet::new(alloc);
        let mut begun = false;
        for (at, line) in lines.iter().enumerate() {
            let heading = FilterHeading::at(line.text.as_bytes());
            if let Some(number) = refusal(&heading, &seen, begun) {
                return Err(FilterFault::At {
                    line: line.number,
                    number,
                });
            }
            add_key(&heading, &mut seen)?;
            let below = &lines[at + 1..];
            add_filter(
                alloc,
                &heading,
                line.number,
                below,
                &mut filters,
                &mut skipped,
            )?;
            begun = true;
        }
        Ok(FilterFile { filters, skipped })
    }
}
