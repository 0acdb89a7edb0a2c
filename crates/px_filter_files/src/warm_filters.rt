// The filters of all files, with what each keeps from run to run.
ghost use Rattle.std.specs.Prelude.{◌≡◌, ◌<◌, false, true, length, unwrap_or, IfOk, IfSome};
ghost use Rattle.px_subst.specs.Jobs.{run_filter, unchanged};
ghost use Rattle.px_filter_files.specs.FilterFiles.{has_key, jobs_of};
ghost use Rattle.px_filter_files.specs.Places.{AreKeptOf, first_place, jobs_at, jobs_at_place};

use crate::files::NamedFilter;
use crate::filters::Filters;
use crate::kinds::FilterKind;
use px_base::Mem;
use px_subst::{Filter, JobOutcome, KeptFilter, Vars};
use std::alloc::Global;
use std::marker::Model;

/// Filters that are lent, seen as those filters. What a filter keeps from run to run is made at its first run.
#[derive(Drop)]
pub struct WarmFilters<'f> {
    filters: &'f Filters,
    /// At each filter's place, what it keeps.
    kept: Vec<Option<KeptFilter<'f>>>,
}

impl<'f> Model for WarmFilters<'f> {
    ghost use Rattle.std.specs.Prelude.{◌≡◌, length};
    ghost use Rattle.px_filter_files.specs.FilterFiles.{FiltersOfFiles};
    ghost use Rattle.px_filter_files.specs.Places.{AreKeptOf};

    ghost Value = { FiltersOfFiles };

    ghost view = { λ w. w.filters.now };

    ghost invariant = { λ w. (length w.kept.items ≡ length w.filters.now.filters)
        × AreKeptOf w.filters.now.filters w.kept.items };
}

/// Room for what each filter keeps.
fn none_kept<'f>(alloc: Global, filters: &[NamedFilter]) -> Result<Vec<Option<KeptFilter<'f>>>, Mem>
    ensures len { IfOk result (λ kept. length kept.items ≡ length filters.now) }
    ensures none { IfOk result (λ kept. AreKeptOf filters.now kept.items) }
{
    let mut kept = Vec::with_capacity(alloc, filters.len())?;
    'filters: for _filter in filters {
        kept.push(None)?;
    }
    Ok(kept)
}

/// What a filter makes of a text, or None where it hits nothing. What it keeps is made if it isn't there.
fn run_kept<'f>(
    alloc: Global,
    filter: &'f Filter,
    kept: &mut Option<KeptFilter<'f>>,
    text: &[u8],
    vars: &Vars,
) -> Result<Option<JobOutcome>, Mem>
    requires { IfSome kept.old (λ jobs. jobs ≡ filter.now) }
    ensures value { IfOk result (λ found. unwrap_or found (unchanged text.now) ≡ run_filter filter.now vars.now text.now) }
    ensures hit { IfOk result (λ found. IfSome found (λ outcome. 0 < outcome.hits)) }
    ensures kept { IfSome kept.new (λ jobs. jobs ≡ filter.now) }
{
    if let Some(kept) = kept {
        return kept.try_run(alloc, text, vars);
    }
    let mut made = filter.keep(alloc)?;
    let found = made.try_run(alloc, text, vars)?;
    *kept = Some(made);
    Ok(found)
}

/// Whether a filter hits something in a text. What it keeps is made if it isn't there.
fn finds_kept<'f>(
    alloc: Global,
    filter: &'f Filter,
    kept: &mut Option<KeptFilter<'f>>,
    text: &[u8],
    vars: &Vars,
) -> Result<bool, Mem>
    requires { IfSome kept.old (λ jobs. jobs ≡ filter.now) }
    ensures miss { IfOk result (λ yes. yes ≡ false → run_filter filter.now vars.now text.now ≡ unchanged text.now) }
    ensures hit { IfOk result (λ yes. yes ≡ true → 0 < (run_filter filter.now vars.now text.now).hits) }
    ensures kept { IfSome kept.new (λ jobs. jobs ≡ filter.now) }
{
    if let Some(kept) = kept {
        return kept.finds(alloc, text, vars);
    }
    let mut made = filter.keep(alloc)?;
    let found = made.finds(alloc, text, vars)?;
    *kept = Some(made);
    Ok(found)
}

impl<'f> WarmFilters<'f> {
    pub(crate) fn new(alloc: Global, filters: &'f Filters) -> Result<WarmFilters<'f>, Mem>
        ensures { IfOk result (λ warm. warm ≡ filters.now) }
    {
        let kept = none_kept(alloc, filters.as_slice())?;
        Ok(WarmFilters { filters, kept })
    }

    /// The place of the first filter of this kind and name, which is the same as long as these filters are lent: it may be
    /// kept and given to `try_run_at` again and again. It takes no memory, and looks at few filters.
    pub fn place(&self, kind: FilterKind, name: &[u8]) -> Option<usize>
        ensures place { result ≡ first_place (has_key (record { kind = kind; name = name.now })) self.now.filters }
        ensures within { IfSome result (λ at. at < length self.now.filters) }
        ensures jobs { jobs_at_place self.now result ≡ jobs_of self.now (record { kind = kind; name = name.now }) }
    {
        self.filters.place(kind, name)
    }

    /// Whether the filter at a place of these filters hits something in a text, which costs less than `try_run_at` where it
    /// doesn't. After want of memory it may be asked again.
    pub fn finds_at(
        &mut self,
        alloc: Global,
        at: usize,
        text: &[u8],
        vars: &Vars,
    ) -> Result<bool, Mem>
        requires { at < length self.old.filters }
        ensures miss { IfOk result (λ yes. yes ≡ false → run_filter (jobs_at self.old at) vars.now text.now ≡ unchanged text.now) }
        ensures hit { IfOk result (λ yes. yes ≡ true → 0 < (run_filter (jobs_at self.old at) vars.now text.now).hits) }
        ensures same { self.new ≡ self.old }
    {
        let all = self.filters;
        let filter = &all.as_slice()[at].filter;
        finds_kept(alloc, filter, &mut self.kept[at], text, vars)
    }

    /// What the filter at a place of these filters makes of a text, or None where it hits nothing. After want of memory it
    /// may be run again.
    pub fn try_run_at(
        &mut self,
        alloc: Global,
        at: usize,
        text: &[u8],
        vars: &Vars,
    ) -> Result<Option<JobOutcome>, Mem>
        requires { at < length self.old.filters }
        ensures value { IfOk result (λ found. unwrap_or found (unchanged text.now)
            ≡ run_filter (jobs_at self.old at) vars.now text.now) }
        ensures hit { IfOk result (λ found. IfSome found (λ outcome. 0 < outcome.hits)) }
        ensures same { self.new ≡ self.old }
    {
        let filters = self.filters;
        let filter = &filters.as_slice()[at].filter;
        run_kept(alloc, filter, &mut self.kept[at], text, vars)
    }

    /// What the first filter of this kind and name makes of a text, or None where it hits nothing. Where there is no such
    /// filter nothing is hit. After want of memory it may be run again.
    pub fn try_run(
        &mut self,
        alloc: Global,
        kind: FilterKind,
        name: &[u8],
        text: &[u8],
        vars: &Vars,
    ) -> Result<Option<JobOutcome>, Mem>
        ensures value { IfOk result (λ found. unwrap_or found (unchanged text.now)
            ≡ run_filter (jobs_of self.old (record { kind = kind; name = name.now })) vars.now text.now) }
        ensures hit { IfOk result (λ found. IfSome found (λ outcome. 0 < outcome.hits)) }
        ensures same { self.new ≡ self.old }
    {
        match self.place(kind, name) {
            Some(at) => self.try_run_at(alloc, at, text, vars),
            None => Ok(None),
        }
    }
}
