// The page of what the configuration holds.
ghost use Rattle.std.specs.Prelude.{◌≡◌, ◌++◌, IfOk, OnOk};
ghost use Rattle.px_patterns.specs.Urls.{shown_host};
ghost use Rattle.px_pages.specs.Pages.{found_page};
ghost use Rattle.px_pages.specs.Statuses.{filter_count_lines, listen_line, number_line, section_count_lines, settings_lines, status_lines};

use itoa::Buffer;
use px_base::{Mem, Text};
use px_config::{Config, InsidePage, Settings};
use px_filter_files::FilterCounts;
use px_merge::SectionCounts;
use std::alloc::Global;

/// `/show-status`: the number of the configuration, where it says to listen, whether actions have effect, and how many files,
/// sections, patterns, filters and notes it has, a line each.
pub(crate) fn show_status(alloc: Global, config: &Config, number: u64) -> Result<InsidePage, Mem>
    ensures { IfOk result (λ page. page ≡ found_page (status_lines config.now number)) }
{
    let body = status_lines(alloc, config, number)?;
    Ok(InsidePage { found: true, body })
}

#[tactic(auto, unfolding(crate::specs::Statuses::status_lines))]
fn status_lines(alloc: Global, config: &Config, number: u64) -> Result<Text, Mem>
    ensures { IfOk result (λ text. text ≡ status_lines config.now number) }
{
    let mut out = Text::new(alloc);
    push_number(b"configuration ", number, &mut out)?;
    push_settings(&config.settings, &mut out)?;
    push_sections(config.sections.counts(), &mut out)?;
    push_filters(config.filters.counts(), &mut out)?;
    push_number(b"notes ", config.notes.len() as u64, &mut out)?;
    Ok(out)
}

/// Adds a name and a number, as a line.
#[tactic(auto, unfolding(crate::specs::Statuses::number_line))]
fn push_number(name: &[u8], number: u64, out: &mut Text) -> Result<(), Mem>
    ensures { OnOk result (out.new ≡ out.old ++ number_line name.now number) }
{
    out.push_all(name)?;
    out.push_all(Buffer::new().format(number).as_bytes())?;
    out.push(b'\n')
}

/// Adds what is counted and how many there are, as a line.
fn push_count(what: &[u8], count: u32, out: &mut Text) -> Result<(), Mem>
    ensures { OnOk result (out.new ≡ out.old ++ number_line what.now count) }
{
    push_number(what, u64::from(count), out)
}

/// Adds where the configuration says to listen, and whether actions have effect.
#[tactic(auto, unfolding(crate::specs::Statuses::settings_lines))]
fn push_settings(settings: &Settings, out: &mut Text) -> Result<(), Mem>
    ensures { OnOk result (out.new ≡ out.old ++ settings_lines settings.now) }
{
    push_listen(settings, out)?;
    push_number(b"toggle ", u64::from(settings.toggle), out)
}

/// Adds where the configuration says to listen.
#[tactic(auto, unfolding(crate::specs::Statuses::listen_line, crate::specs::Statuses::number_line))]
fn push_listen(settings: &Settings, out: &mut Text) -> Result<(), Mem>
    ensures { OnOk result (out.new ≡ out.old ++ listen_line settings.now) }
{
    out.push_all(b"listen ")?;
    push_host(settings.listen_host.as_bytes(), out)?;
    push_number(b":", u64::from(settings.listen_port), out)
}

/// Adds a host, in brackets where it holds a colon.
fn push_host(host: &[u8], out: &mut Text) -> Result<(), Mem>
    ensures { OnOk result (out.new ≡ out.old ++ shown_host host.now) }
{
    if host.contains(&b':') {
        out.push(b'[')?;
        out.push_all(host)?;
        out.push(b']')
    } else {
        out.push_all(host)
    }
}

/// Adds how many files of actions, sections and patterns there are.
#[tactic(auto, unfolding(crate::specs::Statuses::section_count_lines))]
fn push_sections(counts: SectionCounts, out: &mut Text) -> Result<(), Mem>
    ensures { OnOk result (out.new ≡ out.old ++ section_count_lines counts.files counts.sections counts.patterns) }
{
    push_count(b"action files ", counts.files, out)?;
    push_count(b"sections ", counts.sections, out)?;
    push_count(b"patterns ", counts.patterns, out)
}

/// Adds how many files of filters and filters there are.
#[tactic(auto, unfolding(crate::specs::Statuses::filter_count_lines))]
fn push_filters(counts: FilterCounts, out: &mut Text) -> Result<(), Mem>
    ensures { OnOk result (out.new ≡ out.old ++ filter_count_lines counts.files counts.filters) }
{
    push_count(b"filter files ", counts.files, out)?;
    push_count(b"filters ", counts.filters, out)
}
