ghost use Rattle.std.specs.Prelude.{◌≡◌, ◌+◌, ◌<◌, ◌≤◌, ◌^◌, ◌++◌, ◌∷◌, [], length, vec_len, All, IfSome};
ghost use Rattle.px_publish.specs.Published.{published, pair_of, told_by, receipt_pair, reader_pair};
ghost use Rattle.px_publish.specs.Views.{Pair};

use crate::common::{holds, same};
use px_base::List;
use px_publish::*;
use std::alloc::Global;
use std::process::Abort;
use std::sync::{Arc, Wait};
use std::thread::{Threads, join};

/// The number and the configuration of the entry that a source holds.
fn entry<K: Configs<Held = u64>>(configs: &K) -> (u64, u64) {
    let snapshot = configs.current();
    (snapshot.number, *snapshot.config)
}

/// The number and the configuration of a receipt's entry.
fn receipt_entry(receipt: &Receipt<u64>) -> (u64, u64) {
    let snapshot = receipt.snapshot();
    (snapshot.number, *snapshot.config)
}

fn config(rt: &impl Abort, alloc: Global, number: u64) -> Arc<u64> {
    match Arc::new(alloc, number) {
        Ok(config) => config,
        Err(_) => panic!(rt; "no memory"),
    }
}

/// A pair whose first configuration is 70.
fn pair<R: Abort + Wait>(
    rt: &R,
    alloc: Global,
    readers: u32,
) -> (Publisher<u64>, Vec<ConfigReader<u64>>)
    requires some { 0 < readers }
    requires places { readers ≤ 64 }
    ensures list { length (published result.0) ≡ 1 }
    ensures readers { vec_len result.1 ≡ readers }
    ensures pair { All (λ r. reader_pair r ≡ pair_of result.0) result.1.items }
{
    match publish_pair(rt, alloc, config(rt, alloc, 70), readers) {
        Ok(pair) => pair,
        Err(_) => panic!(rt; "no pair"),
    }
}

fn first_of(mut readers: Vec<ConfigReader<u64>>) -> ConfigReader<u64>
    requires { 0 < vec_len readers }
    ensures { (pair : Pair) → All (λ r. reader_pair r ≡ pair) readers.items → reader_pair result ≡ pair }
{
    readers.remove(0)
}

/// A pair with one reader.
fn pair_of_one<R: Abort + Wait>(rt: &R, alloc: Global) -> (Publisher<u64>, ConfigReader<u64>)
    ensures list { length (published result.0) ≡ 1 }
    ensures pair { reader_pair result.1 ≡ pair_of result.0 }
{
    let (publisher, readers) = pair(rt, alloc, 1);
    let reader = first_of(readers);
    (publisher, reader)
}

fn publish<R: Abort + Wait>(
    rt: &R,
    alloc: Global,
    publisher: &mut Publisher<u64>,
    number: u64,
) -> Receipt<u64>
    requires { length (published publisher.old) < 2 ^ 64 }
    ensures pair { pair_of publisher.new ≡ pair_of publisher.old }
    ensures list { length (published publisher.new) ≡ length (published publisher.old) + 1 }
    ensures receipt { receipt_pair result ≡ pair_of publisher.new }
{
    match publisher.publish(rt, config(rt, alloc, number)) {
        Ok(receipt) => receipt,
        Err(_) => panic!(rt; "not published"),
    }
}

#[test]
fn a_reader_that_looks_after_each_publish_sees_it(rt: HostRuntime) {
    let alloc = rt.alloc();
    let (mut publisher, mut reader) = pair_of_one(&rt, alloc);
    same(&rt, entry(&reader), (0, 70));
    let first = publish(&rt, alloc, &mut publisher, 80);
    same(&rt, receipt_entry(&first), (1, 80));
    same(&rt, entry(&reader), (0, 70));
    reader.look();
    same(&rt, entry(&reader), (1, 80));
    let second = publish(&rt, alloc, &mut publisher, 90);
    same(&rt, receipt_entry(&second), (2, 90));
    reader.look();
    same(&rt, entry(&reader), (2, 90));
    reader.look();
    same(&rt, entry(&reader), (2, 90));
    let last = publisher.end(&rt);
    same(&rt, receipt_entry(&last), (2, 90));
    reader.look();
    same(&rt, entry(&reader), (2, 90));
}

#[test]
fn a_reader_learns_receipts(rt: HostRuntime) {
    let alloc = rt.alloc();
    let (mut publisher, mut reader) = pair_of_one(&rt, alloc);
    let first = publish(&rt, alloc, &mut publisher, 80);
    let second = publish(&rt, alloc, &mut publisher, 90);
    assert!(rt; publisher.covers(&reader));
    reader.learn(second);
    same(&rt, entry(&reader), (2, 90));
    reader.learn(first);
    same(&rt, entry(&reader), (2, 90));
    reader.look();
    same(&rt, entry(&reader), (2, 90));
    assert!(rt; publisher.covers(&reader));
    match publisher.receipt() {
        Ok(newest) => same(&rt, receipt_entry(&newest), (2, 90)),
        Err(_) => panic!(rt; "no receipt"),
    }
    match reader.owner() {
        Ok(owner) => same(&rt, *owner, 90),
        Err(_) => panic!(rt; "no owner"),
    }
    publisher.end(&rt);
}

#[test]
fn a_reader_that_learns_each_receipt_sees_each_entry(rt: HostRuntime) {
    let alloc = rt.alloc();
    let (mut publisher, mut reader) = pair_of_one(&rt, alloc);
    same(&rt, entry(&reader), (0, 70));
    reader.learn(publish(&rt, alloc, &mut publisher, 80));
    same(&rt, entry(&reader), (1, 80));
    reader.look();
    same(&rt, entry(&reader), (1, 80));
    reader.learn(publish(&rt, alloc, &mut publisher, 90));
    same(&rt, entry(&reader), (2, 90));
    reader.look();
    same(&rt, entry(&reader), (2, 90));
    publisher.end(&rt);
}

#[test]
fn sixty_four_readers_look(rt: HostRuntime) {
    let alloc = rt.alloc();
    let (mut publisher, mut readers) = pair(&rt, alloc, 64);
    same(&rt, readers.len(), 64);
    let receipt = publish(&rt, alloc, &mut publisher, 80);
    same(&rt, receipt_entry(&receipt), (1, 80));
    for reader in &mut readers {
        same(&rt, entry(reader), (0, 70));
        reader.look();
        same(&rt, entry(reader), (1, 80));
    }
    publisher.end(&rt);
}

#[test]
fn configurations_are_taken_in_turn(rt: HostRuntime) {
    let alloc = rt.alloc();
    let mut configs = List::new(alloc);
    assert!(rt; configs.push(config(&rt, alloc, 70)).is_ok());
    assert!(rt; configs.push(config(&rt, alloc, 80)).is_ok());
    if configs.is_empty() {
        panic!(rt; "nothing to take");
    }
    let mut source = StepConfig::new(configs);
    same(&rt, entry(&source), (0, 70));
    for expected in [(0, 70), (1, 80), (1, 80)] {
        source.look();
        same(&rt, entry(&source), expected);
    }
    assert!(rt; source.owner().is_ok());
}

#[test]
fn one_configuration_stays(rt: HostRuntime) {
    let mut source = FixedConfig::new(config(&rt, rt.alloc(), 70));
    source.look();
    same(&rt, entry(&source), (0, 70));
    match source.owner() {
        Ok(owner) => same(&rt, *owner, 70),
        Err(_) => panic!(rt; "no owner"),
    }
}

/// Publishes 1,000 configurations, and says whether all were published.
fn publish_all<R: Wait>(rt: &R, alloc: Global, publisher: &mut Publisher<u64>) -> bool {
    let Ok(newest) = publisher.receipt() else {
        return false;
    };
    if newest.snapshot().number > 0 {
        return false;
    }
    for number in 0..1000u64 {
        let Ok(config) = Arc::new(alloc, number) else {
            return false;
        };
        if publisher.publish(rt, config).is_err() {
            return false;
        }
    }
    true
}

/// Looks 10,000 times. It says whether no number fell, and that of the last entry.
fn look_often(mut reader: ConfigReader<u64>) -> (bool, u64) {
    let mut last = reader.current().number;
    for _ in 0..10_000u32 {
        reader.look();
        let number = reader.current().number;
        if number < last {
            return (false, number);
        }
        last = number;
    }
    (true, last)
}

fn side_by_side<R: Threads + Wait + Sync>(
    rt: &R,
    alloc: Global,
    publisher: &mut Publisher<u64>,
    reader: ConfigReader<u64>,
) -> (bool, (bool, u64)) {
    join(
        rt,
        || publish_all(rt, alloc, publisher),
        move || look_often(reader),
    )
}

#[test]
fn no_number_falls_beside_a_publisher(rt: HostRuntime) {
    let alloc = rt.alloc();
    let (mut publisher, reader) = pair_of_one(&rt, alloc);
    let (published, (rose, last)) = side_by_side(&rt, alloc, &mut publisher, reader);
    publisher.end(&rt);
    holds(
        &rt,
        published && rose,
        "all were published, and no number fell",
    );
    holds(&rt, last <= 1000, "no number is greater");
}
