// The templates and the images of a configuration.
ghost use Rattle.std.specs.Prelude.{◌≡◌, [], Ok, Some, IfErr, IfOk, OnOk, length, option_copied};
ghost use Rattle.px_action_files.specs.Faults.{IsReported};
ghost use Rattle.px_config.specs.Faults.{IsFault};
ghost use Rattle.px_config.specs.Pages.{all_fit, found_text, include_of, includes_of, is_over, page_of, template_text, pages_of, seen_template_fault, template_of, text_in};
ghost use Rattle.px_config.specs.Names.{full_name};
ghost use Rattle.px_config.specs.Sets.{content_in};

use crate::contents::fault_in;
use crate::faults::{LoadFault, TOO_LARGE};
use crate::indexes::Index;
use crate::names::full_name;
use crate::sets::may_include;
use px_action_files::FileFault;
use px_base::{Content, List, Mem, Text};
use px_templates::{PAGES, Page, Template, TemplateFault, built_in, included_names};
use std::alloc::Global;

/// Whether a set has a file over the limit by this name.
fn is_over(alloc: Global, items: &Index<'_>, folder: &[u8], name: &[u8]) -> Result<bool, Mem>
    ensures { IfOk result (λ over. over ≡ is_over (content_in items.now (full_name (Some folder.now) name.now))) }
{
    let full = full_name(alloc, Some(folder), name)?;
    match items.find(full.as_bytes()) {
        Some(content) => Ok(is_over_limit(content)),
        None => Ok(false),
    }
}

fn is_over_limit(content: &Content) -> bool
    ensures { result ≡ is_over content.now }
{
    match content {
        Content::Missing => false,
        Content::Over => true,
        Content::Found(_) => false,
    }
}

/// Refuses the first of these files that is over the limit.
#[tactic(auto, unfolding(crate::specs::Pages::all_fit))]
pub(crate) fn check_sizes(
    alloc: Global,
    items: &Index<'_>,
    folder: &[u8],
    names: &[Text],
) -> Result<(), LoadFault>
    ensures fit { OnOk result (all_fit items.now folder.now names.now ≡ Ok tt) }
    ensures refused { IfErr result (IsFault (all_fit items.now folder.now names.now)) }
{
    let mut rest = names;
    'names: while let Some((name, others)) = rest.split_first() {
        if is_over(alloc, items, folder, name.as_bytes())? {
            return Err(fault_in(
                alloc,
                name.as_bytes(),
                FileFault::At {
                    line: 0,
                    number: TOO_LARGE,
                },
            ));
        }
        rest = others;
    }
    Ok(())
}

/// The text that a set has of a name in a folder.
pub(crate) fn text_in<'s>(
    alloc: Global,
    items: &Index<'s>,
    folder: &[u8],
    name: &[u8],
) -> Result<Option<&'s [u8]>, Mem>
    ensures { IfOk result (λ text. option_copied text ≡ text_in items.now folder.now name.now) }
{
    let full = full_name(alloc, Some(folder), name)?;
    match items.find(full.as_bytes()) {
        Some(content) => Ok(found_text(content)),
        None => Ok(None),
    }
}

fn found_text(content: &Content) -> Option<&[u8]>
    ensures { option_copied result ≡ found_text content.now }
{
    match content {
        Content::Missing => None,
        Content::Over => None,
        Content::Found(text) => Some(text.as_bytes()),
    }
}

/// An image of a set.
pub(crate) fn image_in(
    alloc: Global,
    items: &Index<'_>,
    folder: &[u8],
    name: &[u8],
) -> Result<Option<Text>, Mem>
    ensures { IfOk result (λ image. image ≡ text_in items.now folder.now name.now) }
{
    match text_in(alloc, items, folder, name)? {
        Some(bytes) => Ok(Some(Text::from_bytes(alloc, bytes)?)),
        None => Ok(None),
    }
}

/// The texts that a template includes, by their names.
#[tactic(auto, unfolding(crate::specs::Pages::includes_of))]
fn includes_of(
    alloc: Global,
    items: &Index<'_>,
    folder: &[u8],
    names: &[Text],
) -> Result<Vec<(Text, Text)>, Mem>
    ensures { IfOk result (λ includes. includes.items ≡ includes_of items.now folder.now names.now) }
{
    let mut includes = Vec::new(alloc);
    let mut rest = names;
    'names: while let Some((name, others)) = rest.split_first() {
        if let Some(include) = include_of(alloc, items, folder, name.as_bytes())? {
            includes.push(include)?;
        }
        rest = others;
    }
    Ok(includes)
}

/// The text that a name includes, with the name.
fn include_of(
    alloc: Global,
    items: &Index<'_>,
    folder: &[u8],
    name: &[u8],
) -> Result<Option<(Text, Text)>, Mem>
    ensures { IfOk result (λ include. include ≡ include_of items.now folder.now name.now) }
{
    if !may_include(name) {
        return Ok(None);
    }
    match text_in(alloc, items, folder, name)? {
        Some(bytes) => Ok(Some((
            Text::from_bytes(alloc, name)?,
            Text::from_bytes(alloc, bytes)?,
        ))),
        None => Ok(None),
    }
}

/// The refusal of a template as that of a file.
fn template_fault(fault: TemplateFault) -> FileFault
    ensures { result ≡ seen_template_fault fault }
{
    match fault {
        TemplateFault::OpenCondition { line } => FileFault::At { line, number: 28 },
        TemplateFault::Mem => FileFault::Mem,
    }
}

/// The template of a text.
#[tactic(auto, unfolding(crate::specs::Pages::template_of), using(crate::proofs::FaultLemmas::template_rules))]
fn read_template(
    alloc: Global,
    items: &Index<'_>,
    folder: &[u8],
    text: &[u8],
) -> Result<Template, FileFault>
    ensures template { IfOk result (λ template. template_of items.now folder.now text.now ≡ Ok template) }
    ensures refused { IfErr result (IsReported (template_of items.now folder.now text.now)) }
{
    let names = included_names(alloc, text)?;
    let includes = includes_of(alloc, items, folder, names.as_slice())?;
    match Template::read(alloc, text, includes.as_slice()) {
        Ok(template) => Ok(template),
        Err(fault) => Err(template_fault(fault)),
    }
}

/// The template of a page: of its file, or the built-in one.
#[tactic(auto, using(crate::proofs::FaultLemmas::fault_of))]
fn read_page(
    alloc: Global,
    items: &Index<'_>,
    folder: &[u8],
    page: Page,
) -> Result<Template, LoadFault>
    ensures template { IfOk result (λ template. page_of items.now folder.now page ≡ Ok template) }
    ensures refused { IfErr result (IsFault (page_of items.now folder.now page)) }
{
    let text = page_text(alloc, items, folder, page)?;
    match read_template(alloc, items, folder, text) {
        Ok(template) => Ok(template),
        Err(fault) => Err(fault_in(alloc, page.name().as_bytes(), fault)),
    }
}

/// The text of a page's template.
fn page_text<'s>(
    alloc: Global,
    items: &Index<'s>,
    folder: &[u8],
    page: Page,
) -> Result<&'s [u8], Mem>
    ensures { IfOk result (λ text. text.now ≡ template_text items.now folder.now page) }
{
    match text_in(alloc, items, folder, page.name().as_bytes())? {
        Some(text) => Ok(text),
        None => Ok(built_in(page)),
    }
}

/// The templates of all pages, in their order.
pub(crate) fn read_pages(
    alloc: Global,
    items: &Index<'_>,
    folder: &[u8],
) -> Result<List<Template>, LoadFault>
    ensures templates { IfOk result (λ templates. pages_of items.now folder.now [] PAGES ≡ Ok templates) }
    ensures all { IfOk result (λ templates. length templates ≡ 11) }
    ensures refused { IfErr result (IsFault (pages_of items.now folder.now [] PAGES)) }
{
    read_some(alloc, items, folder, &PAGES)
}

/// The templates of some pages.
#[tactic(auto, unfolding(crate::specs::Pages::pages_of))]
fn read_some(
    alloc: Global,
    items: &Index<'_>,
    folder: &[u8],
    pages: &[Page],
) -> Result<List<Template>, LoadFault>
    ensures templates { IfOk result (λ templates. pages_of items.now folder.now [] pages.now ≡ Ok templates) }
    ensures all { IfOk result (λ templates. length templates ≡ length pages.now) }
    ensures refused { IfErr result (IsFault (pages_of items.now folder.now [] pages.now)) }
{
    let mut templates = List::new(alloc);
    let mut rest = pages;
    'pages: while let Some((page, others)) = rest.split_first() {
        match read_page(alloc, items, folder, *page) {
            Ok(template) => templates.add(template)?,
            Err(fault) => return Err(fault),
        }
        rest = others;
    }
    Ok(templates)
}
