//! What the tests share. Each is a function of its own, since an assertion is dear to prove in the body of a long test.
use px_base::{Sink, SinkFault, Text};
use px_serve::Logs;
use std::alloc::Global;
use std::fmt::Debug;
use std::process::Abort;

/// Asserts that two values are equal.
pub(crate) fn same<T: Copy + PartialEq + Debug>(rt: &impl Abort, seen: T, expected: T) {
    assert_eq!(rt; seen, expected);
}

/// Asserts that two values are equal, in the row of a table that begins so.
pub(crate) fn same_at<L: Copy + Debug, T: Copy + PartialEq + Debug>(
    rt: &impl Abort,
    row: L,
    seen: T,
    expected: T,
) {
    assert_eq!(rt; seen, expected, "at {row:?}");
}

/// Asserts that a text is those bytes.
pub(crate) fn same_text(rt: &impl Abort, seen: &Text, expected: &str) {
    assert_eq!(rt; seen.as_bytes(), expected.as_bytes());
}

/// A text of those bytes.
pub(crate) fn text(rt: &impl Abort, alloc: Global, bytes: &str) -> Text {
    Text::from_bytes(alloc, bytes.as_bytes()).expect(rt, "memory")
}

/// Makes logs that keep nothing.
#[derive(Clone, Copy)]
pub(crate) struct NoLogs;

/// A log that keeps nothing.
#[derive(Drop)]
pub(crate) struct NoLog;

impl Sink for NoLog {
    ghost use Rattle.px_base.specs.Sinks.{untold_sink};

    ghost state = { λ _. untold_sink 0 0 };

    fn write(&mut self, bytes: &[u8]) -> Result<usize, SinkFault> {
        Ok(bytes.len())
    }

    fn finish(&mut self) {}
}

impl Logs for NoLogs {
    type Log = NoLog;

    fn log(&self) -> NoLog {
        NoLog
    }
}
