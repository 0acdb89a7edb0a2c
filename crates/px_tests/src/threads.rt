//! What may go to other threads, and what they may share.
use px_base::{List, Mem, MemFiles, Text};
use px_config::{Config, load};
use px_patterns::{TagPattern, Url, UrlPattern};
use std::alloc::Global;
use std::test::Fail;

/// Takes what threads may share.
fn shared<T: Send + Sync>(_value: &T) {}

/// Takes what may go to another thread.
fn sent<T: Send>(_value: &T) {}

#[test]
fn threads_may_share_patterns(rt: HostRuntime) -> Result<(), Fail> {
    let alloc = rt.alloc();
    let Ok(url) = UrlPattern::read(alloc, "a.test/x") else {
        panic!(rt; "no URL pattern");
    };
    shared(&url);
    let Some(host) = url.host() else {
        panic!(rt; "no host pattern");
    };
    shared(host);
    let Ok(tag) = TagPattern::read(alloc, "x") else {
        panic!(rt; "no tag pattern");
    };
    shared(&tag);
    shared(&tag.expression);
    let Ok(url) = Url::read(alloc, b"http://a.test/x") else {
        panic!(rt; "no URL");
    };
    shared(&url);
    Ok(())
}

/// Files of a configuration with a section and a filter.
fn some_files(alloc: Global) -> Result<MemFiles, Mem> {
    let mut state = List::new(alloc);
    for (name, bytes) in [
        ("c", "actionsfile u.action\nfilterfile f.filter\n"),
        ("u.action", "{+filter{f}}\n/x\nTAG:^a\n"),
        ("f.filter", "FILTER: f x\ns/a/b/\n"),
    ] {
        state.add((
            Text::from_bytes(alloc, name.as_bytes())?,
            Text::from_bytes(alloc, bytes.as_bytes())?,
        ))?;
    }
    let mut states = List::new(alloc);
    states.add(state)?;
    MemFiles::new(alloc, states, &[])
}

/// The configuration of those files.
fn config(alloc: Global) -> Result<Config, Fail> {
    let mut files = some_files(alloc)?;
    match load(alloc, &mut files, "c") {
        Ok(config) => Ok(config),
        Err(_) => Err(Fail::from("the files spell nothing")),
    }
}

#[test]
fn threads_may_share_configurations(rt: HostRuntime) -> Result<(), Fail> {
    let config = config(rt.alloc())?;
    shared(&config);
    Ok(())
}

#[test]
fn threads_may_share_sections_and_take_what_is_kept_of_them(rt: HostRuntime) -> Result<(), Fail> {
    let config = config(rt.alloc())?;
    shared(&config.sections);
    match config.sections.warm(rt.alloc()) {
        Ok(warm) => sent(&warm),
        Err(_) => panic!(rt; "no store"),
    }
    Ok(())
}

#[test]
fn threads_may_share_filters(rt: HostRuntime) -> Result<(), Fail> {
    let config = config(rt.alloc())?;
    shared(&config.filters);
    Ok(())
}
