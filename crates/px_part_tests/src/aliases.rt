//! How many updates the aliases of a file may stand for.
use crate::common::same;
use px_action_files::{ActionFile, FileFault};
use px_text::logical_lines;
use std::alloc::Global;

/// A chain of aliases, each of which stands for twice as many updates as the one before: 2,048 at the twelfth line.
const READ: &[u8] =
    b"{{alias}}\na = -block\nb = a a\nc = b b\nd = c c\ne = d d\nf = e e\ng = f f\nh = g g\n\
i = h h\nj = i i\nk = j j\nl = k k\n";

/// The same chain up to 524,288 updates, which are more than 262,144.
const WANTING: &[u8] =
    b"{{alias}}\na = -block\nb = a a\nc = b b\nd = c c\ne = d d\nf = e e\ng = f f\nh = g g\n\
i = h h\nj = i i\nk = j j\nl = k k\nm = l l\nn = m m\no = n n\np = o o\nq = p p\nr = q q\ns = r r\nt = s s\n";

/// The refusal of a short file.
fn refusal(alloc: Global, bytes: &[u8]) -> Option<FileFault> {
    if bytes.len() > 1_000 {
        return Some(FileFault::At { line: 0, number: 2 });
    }
    match logical_lines(alloc, bytes) {
        Ok(lines) => ActionFile::read(alloc, lines.as_slice()).err(),
        Err(_) => Some(FileFault::At { line: 0, number: 1 }),
    }
}

#[test]
fn a_chain_of_aliases_takes_bounded_memory(rt: HostRuntime) {
    same(&rt, refusal(rt.alloc(), READ), None);
    same(&rt, refusal(rt.alloc(), WANTING), Some(FileFault::Mem));
}
