//! The generated job.
use crate::common::same;
use px_base::Text;
use px_exercise::{ExerciseFault, exercise};
use px_ways::Way;
use std::alloc::Global;
use std::str;
use std::test::Fail;
use std::thread::Threads;

/// The lines of the job of 7.
fn lines_of_seven<R: Threads + Sync>(alloc: Global, way: &Way<'_, R>) -> Result<Text, Fail> {
    match exercise(alloc, way, 7) {
        Ok(text) => Ok(text),
        Err(ExerciseFault::NotLoaded(_)) => Err(Fail::new("the files of the job don't load")),
        Err(ExerciseFault::Mem) => Err(Fail::new("memory was wanting")),
    }
}

/// The number in the first line of a text, behind that name, and the lines behind it.
fn number_behind<'a>(text: &'a str, name: &str) -> Option<(u64, &'a str)> {
    let (line, rest) = text.split_once('\n')?;
    let number = line.strip_prefix(name)?.strip_prefix(' ')?.parse().ok()?;
    Some((number, rest))
}

/// The numbers of five lines.
#[derive(Clone, Copy)]
struct Numbers {
    requests: u64,
    blocked: u64,
    filtered: u64,
    passed: u64,
}

fn read_numbers(text: &str) -> Option<Numbers> {
    let (requests, text) = number_behind(text, "requests")?;
    let (blocked, text) = number_behind(text, "blocked")?;
    let (filtered, text) = number_behind(text, "filtered")?;
    let (passed, text) = number_behind(text, "passed")?;
    let (_, text) = number_behind(text, "returned")?;
    if text.is_empty() {
        Some(Numbers {
            requests,
            blocked,
            filtered,
            passed,
        })
    } else {
        None
    }
}

/// The numbers of the five lines of the job of 7.
fn numbers_of_seven<R: Threads + Sync>(alloc: Global, way: &Way<'_, R>) -> Result<Numbers, Fail> {
    let text = lines_of_seven(alloc, way)?;
    match str::from_utf8(text.as_bytes()) {
        Ok(lines) => match read_numbers(lines) {
            Some(numbers) => Ok(numbers),
            None => Err(Fail::new("five lines are wanted")),
        },
        Err(_) => Err(Fail::new("the lines aren't text")),
    }
}

#[test]
fn each_request_of_seven_is_blocked_filtered_or_passed(rt: HostRuntime) -> Result<(), Fail> {
    let way: Way<'_, HostRuntime> = Way::InTurn;
    let numbers = numbers_of_seven(rt.alloc(), &way)?;
    let sum = u128::from(numbers.blocked)
        + u128::from(numbers.filtered)
        + u128::from(numbers.passed);
    same(&rt, numbers.requests, 1_000);
    same(&rt, sum, 1_000);
    Ok(())
}

#[test]
fn seven_gives_the_same_lines_again(rt: HostRuntime) -> Result<(), Fail> {
    let alloc = rt.alloc();
    let way: Way<'_, HostRuntime> = Way::InTurn;
    let first = lines_of_seven(alloc, &way)?;
    let again = lines_of_seven(alloc, &way)?;
    same(&rt, again.as_bytes(), first.as_bytes());
    let at_once = lines_of_seven(alloc, &Way::AtOnce(&rt))?;
    same(&rt, at_once.as_bytes(), first.as_bytes());
    Ok(())
}
