// Boards: how their seats are made, and how they end.
ghost use Rattle.std.specs.Prelude.{◌≡◌, ◌+◌, ◌<◌, ◌≤◌, ◌∷◌, [], IfOk, All, length, sum_by, vec_len};
ghost use Rattle.px_publish.specs.Published.{reader_pair, seen_by};
ghost use Rattle.px_tag_board.specs.Readers.{AreFreshReaders};

use crate::blanks::BlankBoard;
use crate::entries::PublishedState;
use crate::names::BoardName;
use crate::seats::Seat;
use crate::tag_boards::TagBoard;
use px_base::Mem;
use px_publish::{ConfigReader, Configs};
use std::alloc::Global;
use std::sync::ledger::Share;
use std::sync::{Arc, Mutex, MutexGuard, Wait};

/// One owner less. The last one ends the board.
fn let_go<N: BoardName, R: Wait>(rt: &R, shared: Arc<Mutex<TagBoard<N>>>) {
    if let Some(board) = Arc::into_inner(shared) {
        board.into_inner().end(rt);
    }
}

/// Gives up seats that nobody has taken.
fn put_away<N: BoardName, R: Wait>(rt: &R, mut seats: Vec<Seat<N>>) {
    'each: while let Some(seat) = seats.pop() {
        let (shared, _reader, _share) = seat.into_parts();
        let_go(rt, shared);
    }
    seats.destroy_empty();
}

/// A seat for each reader.
fn seated<N: BoardName, R: Wait>(
    rt: &R,
    alloc: Global,
    shared: &Arc<Mutex<TagBoard<N>>>,
    all: &mut Share<N>,
    mut readers: Vec<ConfigReader<PublishedState>>,
) -> Result<Vec<Seat<N>>, Mem>
    requires fresh { AreFreshReaders N.pair readers.items }
    requires parts { all.old.parts ≡ vec_len readers }
    requires amount { all.old.amount ≡ 0 }
    ensures count { IfOk result (λ v. vec_len v ≡ vec_len readers) }
    ensures fresh { IfOk result (λ v. All (λ s. s ≡ record { seen = [] ∷ []; made = 0 }) v.items) }
{
    let mut seats = Vec::with_capacity(alloc, readers.len())?;
    'each: while let Some(reader) = readers.pop() {
        let Ok(shared) = Arc::try_clone(shared) else {
            put_away(rt, seats);
            return Err(Mem);
        };
        seats.push_reserved(Seat::over(alloc, shared, reader, all.split_off(1, 0)));
    }
    Ok(seats)
}

/// The seats of the board that N names, as many as the blank board was made for. No change was made yet. It may wait, in
/// giving up what was begun.
pub fn board<N: BoardName, R: Wait>(rt: &R, blank: BlankBoard) -> Result<Vec<Seat<N>>, Mem>
    requires name { blank ≡ record { name = N.name; seats = N.parts; pair = N.pair } }
    ensures count { IfOk result (λ v. vec_len v ≡ N.parts) }
    ensures fresh { IfOk result (λ v. All (λ s. s ≡ record { seen = [] ∷ []; made = 0 }) v.items) }
{
    let (alloc, ledger, chain, readers) = blank.into_parts();
    let (book, mut all) = ledger.open::<N>();
    match Arc::new(alloc, Mutex::new(TagBoard::over(alloc, chain, book))) {
        Ok(shared) => {
            let seats = seated(rt, alloc, &shared, &mut all, readers);
            let_go(rt, shared);
            seats
        }
        Err(refused) => {
            refused.value.into_inner().end(rt);
            Err(Mem)
        }
    }
}

/// Of two readers the one that has seen more.
fn furthest(
    one: ConfigReader<PublishedState>,
    other: ConfigReader<PublishedState>,
) -> ConfigReader<PublishedState>
    requires pair { reader_pair one ≡ reader_pair other }
    ensures pair { reader_pair result ≡ reader_pair one }
    ensures one { length (seen_by one) ≤ length (seen_by result) }
    ensures other { length (seen_by other) ≤ length (seen_by result) }
{
    if one.current().number < other.current().number {
        other
    } else {
        one
    }
}

/// Ends a board with all its seats, and gives the length of its history: how many changes the seats made together, and no fewer
/// than any of them has seen. It takes no memory, and may wait for the board.
pub fn close<N: BoardName, R: Wait>(rt: &R, mut seats: Vec<Seat<N>>) -> u64
    requires { vec_len seats ≡ N.parts }
    ensures made { result ≡ sum_by (λ s. s.made) seats.items }
    ensures seen { All (λ s. length s.seen ≤ result + 1) seats.items }
{
    let Some(last) = seats.pop() else {
        seats.destroy_empty();
        return 0;
    };
    let (shared, mut reader, mut all) = last.into_parts();
    'each: while let Some(seat) = seats.pop() {
        let (other, seen, share) = seat.into_parts();
        reader = furthest(reader, seen);
        all.merge(share);
        let_go(rt, other);
    }
    seats.destroy_empty();
    let length = history_length(rt, &shared, &reader, &mut all);
    let_go(rt, shared);
    length
}

/// The length of the history, of which the share counts each change, once the board has all that the reader has seen.
fn history_length<N: BoardName, R: Wait>(
    rt: &R,
    shared: &Mutex<TagBoard<N>>,
    reader: &ConfigReader<PublishedState>,
    all: &mut Share<N>,
) -> u64
    requires parts { all.old.parts ≡ N.parts }
    requires pair { reader_pair reader.now ≡ N.pair }
    ensures made { result ≡ all.old.amount }
    ensures seen { length (seen_by reader.now) ≤ result + 1 }
{
    'again: for _ in rt.forever() {
        let mut board = shared.lock(rt);
        if board.covers(reader) {
            let length = board.history_length(all);
            MutexGuard::unlock(board);
            return length;
        }
        MutexGuard::unlock(board);
    }
    unreachable!()
}
