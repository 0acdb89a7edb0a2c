//! Tunnels over objects in memory.
use crate::common::{holds, same, same_text};
use px_base::{TapeIn, TapeOut, Text};
use px_ways::{Carried, Way, carry};
use std::alloc::Global;
use std::process::Abort;
use std::thread::Threads;

/// The calls of the four ends that fail: the client's source and sink, and the link's.
#[derive(Clone, Copy)]
struct Fails<'a> {
    client_in: &'a [u64],
    client_out: &'a [u64],
    link_in: &'a [u64],
    link_out: &'a [u64],
}

const NONE: Fails<'static> = Fails {
    client_in: &[],
    client_out: &[],
    link_in: &[],
    link_out: &[],
};

/// What came of a tunnel, what the link's sink and the client's sink took, and whether both were finished.
#[derive(Drop)]
struct Outcome {
    carried: Carried,
    there: Text,
    back: Text,
    finished: bool,
}

/// Carries `bc` behind `a` to the link and `xyz` to the client, a byte at a time.
fn carried<R: Threads + Sync>(
    rt: &impl Abort,
    alloc: Global,
    way: &Way<'_, R>,
    fails: Fails<'_>,
) -> Outcome {
    let mut client_in = TapeIn::new(alloc, b"bc", &[1, 1], fails.client_in).expect(rt, "memory");
    let mut client_out = TapeOut::new(alloc, &[], fails.client_out).expect(rt, "memory");
    let mut link_in = TapeIn::new(alloc, b"xyz", &[1, 1, 1], fails.link_in).expect(rt, "memory");
    let mut link_out = TapeOut::new(alloc, &[], fails.link_out).expect(rt, "memory");
    let carried = carry(
        way,
        b"a",
        &mut client_in,
        &mut client_out,
        &mut link_in,
        &mut link_out,
    );
    Outcome {
        carried,
        there: Text::from_bytes(alloc, link_out.taken()).expect(rt, "memory"),
        back: Text::from_bytes(alloc, client_out.taken()).expect(rt, "memory"),
        finished: client_out.finished() && link_out.finished(),
    }
}

const CALM: Carried = Carried {
    client_read: false,
    client_write: false,
    no_memory: false,
};

/// Asserts what came of a tunnel.
fn came(rt: &impl Abort, outcome: &Outcome, carried: Carried, there: &str, back: &str) {
    same(rt, outcome.carried, carried);
    same_text(rt, &outcome.there, there);
    same_text(rt, &outcome.back, back);
}

#[test]
fn both_ways_carry_both_directions(rt: HostRuntime) {
    for way in [Way::InTurn, Way::AtOnce(&rt)] {
        let outcome = carried(&rt, rt.alloc(), &way, NONE);
        came(&rt, &outcome, CALM, "abc", "xyz");
        holds(&rt, outcome.finished, "both are finished");
    }
}

#[test]
fn a_fault_of_the_clients_source_ends_its_own_direction(rt: HostRuntime) {
    let fails = Fails {
        client_in: &[1],
        ..NONE
    };
    let carried_so = Carried {
        client_read: true,
        ..CALM
    };
    for way in [Way::InTurn, Way::AtOnce(&rt)] {
        let outcome = carried(&rt, rt.alloc(), &way, fails);
        came(&rt, &outcome, carried_so, "ab", "xyz");
        holds(&rt, outcome.finished, "both are finished");
    }
}

#[test]
fn a_fault_of_the_clients_sink_ends_its_own_direction(rt: HostRuntime) {
    let fails = Fails {
        client_out: &[1],
        ..NONE
    };
    let carried_so = Carried {
        client_write: true,
        ..CALM
    };
    for way in [Way::InTurn, Way::AtOnce(&rt)] {
        let outcome = carried(&rt, rt.alloc(), &way, fails);
        came(&rt, &outcome, carried_so, "abc", "x");
    }
}

#[test]
fn a_fault_of_the_link_is_not_the_clients(rt: HostRuntime) {
    let fails = Fails {
        link_in: &[2],
        link_out: &[0],
        ..NONE
    };
    let outcome = carried(&rt, rt.alloc(), &Way::AtOnce(&rt), fails);
    came(&rt, &outcome, CALM, "", "xy");
}
