//! Boards of client tags: changes by several seats, a full board, and the length of the history at the end.
ghost use Rattle.std.specs.Prelude.{◌≡◌};

use px_base::{Mem, Text};
use px_tag_board::*;
use std::alloc::Global;
use std::marker::Brand;
use std::sync::Wait;
use std::thread::{self, Threads};

/// What is asked of a seat, and what it answers.
#[derive(Clone, Copy)]
struct Turn {
    seat: usize,
    address: &'static str,
    change: Wanted,
    place: u64,
    tags: &'static [&'static str],
}

#[derive(Clone, Copy)]
enum Wanted {
    Nothing,
    On(&'static str),
    Off(&'static str),
}

fn change_of(alloc: Global, wanted: Wanted) -> Result<Option<TagChange>, Mem> {
    match wanted {
        Wanted::Nothing => Ok(None),
        Wanted::On(tag) => Ok(Some(TagChange::Wear(Text::from_bytes(alloc, tag.as_bytes())?))),
        Wanted::Off(tag) => Ok(Some(TagChange::Shed(Text::from_bytes(alloc, tag.as_bytes())?))),
    }
}

/// Whether these tags are worn there.
fn are_worn(worn: &Worn, place: u64, tags: &[&str]) -> bool {
    let seen = worn.tags.as_slice();
    worn.place == place
        && seen.len() == tags.len()
        && seen
            .iter()
            .zip(tags)
            .all(|(tag, expected)| tag.as_bytes() == expected.as_bytes())
}

/// Whether the seats answer each turn so.
fn plays<N: BoardName, R: Wait>(
    rt: &R,
    alloc: Global,
    seats: &mut [Seat<N>],
    turns: &[Turn],
) -> Result<bool, Mem> {
    for turn in turns {
        let change = change_of(alloc, turn.change)?;
        let Some(seat) = seats.get_mut(turn.seat) else {
            return Ok(false);
        };
        match seat.take(rt, turn.address.as_bytes(), change.as_ref()) {
            Ok(worn) => {
                if !are_worn(&worn, turn.place, turn.tags) || seat.place() != turn.place {
                    return Ok(false);
                }
            }
            Err(WearFault::Full(_)) => return Ok(false),
            Err(WearFault::Mem) => return Err(Mem),
        }
    }
    Ok(true)
}

/// Two seats that change what two addresses wear, in turn.
fn two_seats_in_turn() -> [Turn; 10] {
    [
        asks(0, "127.0.0.1", Wanted::Nothing, 0, &[]),
        asks(0, "127.0.0.1", Wanted::On("ads"), 1, &["ads"]),
        asks(1, "127.0.0.1", Wanted::Nothing, 1, &["ads"]),
        asks(1, "127.0.0.1", Wanted::On("news"), 2, &["ads", "news"]),
        asks(0, "127.0.0.1", Wanted::On("ads"), 2, &["ads", "news"]),
        asks(0, "127.0.0.2", Wanted::Off("ads"), 2, &[]),
        asks(0, "127.0.0.2", Wanted::On("ads"), 3, &["ads"]),
        asks(1, "127.0.0.1", Wanted::Off("ads"), 4, &["news"]),
        asks(1, "127.0.0.1", Wanted::On("ads"), 5, &["news", "ads"]),
        asks(0, "127.0.0.2", Wanted::Nothing, 5, &["ads"]),
    ]
}

fn asks(
    seat: usize,
    address: &'static str,
    change: Wanted,
    place: u64,
    tags: &'static [&'static str],
) -> Turn {
    Turn {
        seat,
        address,
        change,
        place,
        tags,
    }
}

/// Plays the turns, and tells what each seat has counted and what the board is closed with.
fn by_turns<N: BoardName, R: Wait>(
    rt: &R,
    alloc: Global,
    blank: BlankBoard,
) -> Result<(bool, u64), Mem>
    requires name { blank ≡ record { name = N.name; seats = N.parts; pair = N.pair } }
{
    let mut seats = board::<N, R>(rt, blank)?;
    let played = plays(rt, alloc, seats.as_mut_slice(), &two_seats_in_turn());
    let closed = close(rt, seats);
    Ok((played?, closed))
}

fn turns<R: Wait>(rt: &R, alloc: Global) -> Result<(bool, u64), Mem> {
    let blank = blank_board(rt, alloc, 2)?;
    by_turns::<Brand, R>(rt, alloc, blank)
}

#[test]
fn addresses_wear_what_was_put_on_them(rt: HostRuntime) {
    let Ok((played, closed)) = turns(&rt, rt.alloc()) else {
        panic!(rt; "no memory");
    };
    assert!(rt; played);
    assert_eq!(rt; closed, 5);
}

/// Puts a tag on an address and takes it off again, so many times.
fn work<N: BoardName, R: Wait>(rt: &R, alloc: Global, seat: &mut Seat<N>, address: u8, times: u32) {
    let (Ok(on), Ok(off)) = (
        Text::from_bytes(alloc, b"ads"),
        Text::from_bytes(alloc, b"ads"),
    ) else {
        return;
    };
    let wear = TagChange::Wear(on);
    let shed = TagChange::Shed(off);
    for _ in 0..times {
        let _ = seat.take(rt, &[address], Some(&wear));
        let _ = seat.take(rt, &[address], Some(&shed));
    }
}

/// How many changes the seats have counted together.
fn counted<N: BoardName>(seats: &[Seat<N>]) -> u64 {
    let mut sum = 0u64;
    for seat in seats {
        sum = sum.saturating_add(seat.made());
    }
    sum
}

/// Two seats in two threads, each with an address of its own: what they counted, and what the board is closed with.
fn by_two<N: BoardName + Send + Sync, R: Threads + Wait + Sync>(
    rt: &R,
    alloc: Global,
    blank: BlankBoard,
) -> Result<(u64, u64), Mem>
    requires name { blank ≡ record { name = N.name; seats = N.parts; pair = N.pair } }
{
    let mut seats = board::<N, R>(rt, blank)?;
    thread::for_each_mut(
        rt,
        seats.as_mut_slice(),
        2,
        &|i, seat: &mut Seat<N>| work(rt, alloc, seat, (i % 200) as u8, 50),
    );
    let counted = counted(seats.as_slice());
    Ok((counted, close(rt, seats)))
}

fn two_seats<R: Threads + Wait + Sync>(rt: &R, alloc: Global) -> Result<(u64, u64), Mem> {
    let blank = blank_board(rt, alloc, 2)?;
    by_two::<Brand, R>(rt, alloc, blank)
}

#[test]
fn two_seats_make_a_hundred_changes_each(rt: HostRuntime) {
    let Ok(both) = two_seats(&rt, rt.alloc()) else {
        panic!(rt; "no memory");
    };
    assert_eq!(rt; both, (200, 200));
}

/// Whether the board was full, and nothing is worn in its last state.
fn is_full(answer: Result<Worn, WearFault>) -> bool {
    match answer {
        Ok(_worn) => false,
        Err(WearFault::Full(worn)) => are_worn(&worn, 10_000, &[]),
        Err(WearFault::Mem) => false,
    }
}

/// Whether nothing is worn in the last state.
fn is_bare(answer: Result<Worn, WearFault>) -> bool {
    match answer {
        Ok(worn) => are_worn(&worn, 10_000, &[]),
        Err(WearFault::Full(_worn)) => false,
        Err(WearFault::Mem) => false,
    }
}

/// Fills a board, and tells whether a change that would alter something is refused then, while other answers go on.
fn fills<N: BoardName, R: Wait>(rt: &R, alloc: Global, seat: &mut Seat<N>) -> Result<bool, Mem> {
    work(rt, alloc, seat, 7, 5000);
    let wear = TagChange::Wear(Text::from_bytes(alloc, b"ads")?);
    let shed = TagChange::Shed(Text::from_bytes(alloc, b"ads")?);
    let refused = is_full(seat.take(rt, &[8], Some(&wear)));
    let settled = is_bare(seat.take(rt, &[8], Some(&shed)));
    let asked = is_bare(seat.take(rt, &[7], None));
    Ok(refused && settled && asked && seat.made() == 10_000)
}

fn by_one<N: BoardName, R: Wait>(
    rt: &R,
    alloc: Global,
    blank: BlankBoard,
) -> Result<(bool, u64), Mem>
    requires name { blank ≡ record { name = N.name; seats = N.parts; pair = N.pair } }
{
    let mut seats = board::<N, R>(rt, blank)?;
    let filled = match seats.first_mut() {
        Some(seat) => fills(rt, alloc, seat),
        None => Ok(false),
    };
    let closed = close(rt, seats);
    Ok((filled?, closed))
}

fn one_seat<R: Wait>(rt: &R, alloc: Global) -> Result<(bool, u64), Mem> {
    let blank = blank_board(rt, alloc, 1)?;
    by_one::<Brand, R>(rt, alloc, blank)
}

#[test]
fn a_board_holds_ten_thousand_changes(rt: HostRuntime) {
    let Ok((filled, closed)) = one_seat(&rt, rt.alloc()) else {
        panic!(rt; "no memory");
    };
    assert!(rt; filled);
    assert_eq!(rt; closed, 10_000);
}
