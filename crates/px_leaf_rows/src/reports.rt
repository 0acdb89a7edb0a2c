//! What the rows of a file come to.
ghost use Rattle.std.specs.Prelude.{◌≡◌, ◌≤◌};

use crate::escapes::encoded;
use crate::faults::Fault;
use std::alloc::Global;

/// A row that gave something else than it wants.
#[derive(Drop)]
pub struct Difference {
    pub line: usize,
    pub want: String,
    pub got: String,
}

/// The rows of a file that were run, and those among them that gave something else than they want.
#[derive(Drop)]
pub struct Report {
    alloc: Global,
    pub rows: usize,
    pub differences: Vec<Difference>,
}

impl Report {
    /// The report of no row.
    pub fn new(alloc: Global) -> Report
        ensures { result.rows ≡ 0 }
    {
        Report {
            alloc,
            rows: 0,
            differences: Vec::new(alloc),
        }
    }

    /// Counts a row, and keeps it where it gave something else than it wants.
    pub(crate) fn add(&mut self, line: usize, want: &[u8], got: &[u8]) -> Result<(), Fault>
        ensures { self.old.rows ≤ self.new.rows }
    {
        self.count();
        if want != got {
            self.differ(line, want, got, "")?;
        }
        Ok(())
    }

    /// Counts a row.
    pub fn count(&mut self)
        ensures { self.old.rows ≤ self.new.rows }
    {
        self.rows = self.rows.saturating_add(1);
    }

    /// Keeps that a row gave something else than the line wants, and of which run of it that is.
    pub fn differ(&mut self, line: usize, want: &[u8], got: &[u8], run: &str) -> Result<(), Fault>
        ensures { self.new.rows ≡ self.old.rows }
    {
        let want = encoded(self.alloc, want)?;
        let mut got = encoded(self.alloc, got)?;
        got.push_str(run)?;
        self.differences.push(Difference { line, want, got })?;
        Ok(())
    }
}
