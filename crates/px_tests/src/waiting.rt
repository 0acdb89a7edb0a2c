//! A tunnel whose sides wait for each other: only both directions at once carry it.
use crate::sides::{LOOKS, Told, Waiting};
use px_base::{Mem, TapeIn, TapeOut, Text};
use px_ways::{Carried, Way, carry};
use std::alloc::Global;
use std::sync::atomic::AtomicU64;
use std::test::Fail;
use std::thread::Threads;

/// A sink that adds to that count.
fn told_sink<'c>(alloc: Global, taken: &'c AtomicU64) -> Result<Told<'c>, Mem> {
    Ok(Told {
        tape: TapeOut::new(alloc, &[], &[])?,
        taken,
    })
}

/// A source of those bytes that waits for that count.
fn waiting_source<'c>(
    alloc: Global,
    bytes: &[u8],
    until: &'c AtomicU64,
    looks: u64,
) -> Result<Waiting<'c>, Mem> {
    Ok(Waiting {
        tape: TapeIn::new(alloc, bytes, &[], &[])?,
        until,
        looks,
        faults: 0,
    })
}

/// Carries a tunnel whose link answers `x` once it has taken bytes, and whose client says `b`, behind `a`, once it has taken some.
/// Says what came of it, what the client took and what the link took.
fn carried_waiting<R: Threads + Sync>(
    alloc: Global,
    way: &Way<'_, R>,
    looks: u64,
) -> Result<(Carried, Text, Text), Mem> {
    let taken_by_link = AtomicU64::new(0);
    let taken_by_client = AtomicU64::new(0);
    let mut client_in = waiting_source(alloc, b"b", &taken_by_client, looks)?;
    let mut client_out = told_sink(alloc, &taken_by_client)?;
    let mut link_in = waiting_source(alloc, b"x", &taken_by_link, looks)?;
    let mut link_out = told_sink(alloc, &taken_by_link)?;
    let carried = carry(
        way,
        b"a",
        &mut client_in,
        &mut client_out,
        &mut link_in,
        &mut link_out,
    );
    Ok((
        carried,
        client_out.tape.into_taken(),
        link_out.tape.into_taken(),
    ))
}

#[test]
fn sides_that_wait_for_each_other_are_carried_at_once(rt: HostRuntime) -> Result<(), Fail> {
    let (carried, by_client, by_link) = carried_waiting(rt.alloc(), &Way::AtOnce(&rt), LOOKS)?;
    let calm = Carried {
        client_read: false,
        client_write: false,
        no_memory: false,
    };
    assert_eq!(rt; carried, calm);
    assert_eq!(rt; by_client.as_bytes(), b"x" as &[u8]);
    assert_eq!(rt; by_link.as_bytes(), b"ab" as &[u8]);
    Ok(())
}

#[test]
fn in_turn_a_client_that_waits_for_the_link_fails(rt: HostRuntime) -> Result<(), Fail> {
    let way: Way<'_, HostRuntime> = Way::InTurn;
    let (carried, by_client, by_link) = carried_waiting(rt.alloc(), &way, 100)?;
    assert!(rt; carried.client_read && !carried.client_write);
    assert_eq!(rt; by_client.as_bytes(), b"x" as &[u8]);
    assert_eq!(rt; by_link.as_bytes(), b"a" as &[u8]);
    Ok(())
}
