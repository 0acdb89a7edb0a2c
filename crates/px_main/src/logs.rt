// The logs of workers: lines on standard output.
use px_base::WriterSink;
use px_serve::Logs;
use std::rt::Stdout;

/// Makes logs that write to standard output, each line by a call of its own.
#[derive(Drop)]
pub struct StdoutLogs {
    out: Stdout,
}

impl StdoutLogs {
    /// Logs on that output.
    pub fn new(out: Stdout) -> StdoutLogs {
        StdoutLogs { out }
    }
}

impl Logs for StdoutLogs {
    type Log = WriterSink<Stdout>;

    fn log(&self) -> WriterSink<Stdout> {
        WriterSink::new(self.out, 0)
    }
}
