//! Files of leaf rows: a heading that names the columns, and a row a line, whose columns are parted by tabs.
ghost use Rattle.std.specs.Prelude.{◌≤◌};

use crate::escapes::decoded;
use crate::faults::{Fault, Misread};
use crate::kinds::gives;
use crate::reports::Report;
use px_base::{List, Text};
use std::alloc::Global;
use std::str::FromStr;

/// What parts the items of a value.
pub const ITEMS: &str = " | ";

/// The values of a row, by the names of their columns.
#[derive(Drop)]
pub struct Row<'a> {
    pub alloc: Global,
    names: &'a [&'a str],
    cells: Vec<&'a str>,
}

impl<'a> Row<'a> {
    fn new(alloc: Global, names: &'a [&'a str], line: &'a str) -> Result<Row<'a>, Fault> {
        let cells = columns(alloc, line)?;
        if cells.len() == names.len() {
            Ok(Row {
                alloc,
                names,
                cells,
            })
        } else {
            Err(Fault::Form("the row hasn't a cell for each column"))
        }
    }

    /// A value as it stands.
    pub(crate) fn word(&self, name: &str) -> Result<&'a str, Fault> {
        for (column, cell) in self.names.iter().zip(&self.cells) {
            if *column == name {
                return Ok(*cell);
            }
        }
        Err(Fault::Form("the heading lacks a column of its kind"))
    }

    /// Whether a value is `yes`, and not `no`.
    pub(crate) fn is(&self, name: &str) -> Result<bool, Fault> {
        match self.word(name)? {
            "yes" => Ok(true),
            "no" => Ok(false),
            _ => Err(Fault::Form("yes or no is wanted")),
        }
    }

    /// A value that is a number.
    pub(crate) fn number<N: FromStr>(&self, name: &str) -> Result<N, Fault>
    where
        N::Err: Drop,
    {
        number_in(self.word(name)?)
    }

    /// A value that is numbers between spaces.
    pub(crate) fn numbers<N: FromStr + Drop>(&self, name: &str) -> Result<Vec<N>, Fault>
    where
        N::Err: Drop,
    {
        let mut numbers = Vec::new(self.alloc);
        for word in self.word(name)?.split_whitespace() {
            numbers.push(number_in(word)?)?;
        }
        Ok(numbers)
    }

    /// A value that is text.
    pub(crate) fn string(&self, name: &str) -> Result<String, Fault> {
        String::from_utf8(self.bytes(name)?).map_err(|_| Fault::Form("UTF-8 is wanted"))
    }

    /// A value's bytes.
    pub(crate) fn bytes(&self, name: &str) -> Result<Vec<u8>, Fault> {
        decoded(self.alloc, self.word(name)?)
    }

    /// A value's bytes.
    pub(crate) fn text(&self, name: &str) -> Result<Text, Fault> {
        Ok(Text::from_vec(self.bytes(name)?))
    }

    /// A file's bytes by a value that has its lines between ` | `.
    pub(crate) fn file(&self, name: &str) -> Result<Text, Fault> {
        let mut file = Text::new(self.alloc);
        for line in self.items(name)?.as_slice() {
            file.push_all(line.as_bytes())?;
            file.push(b'\n')?;
        }
        Ok(file)
    }

    /// The items of a value that has some between ` | `. An empty value has none.
    pub(crate) fn items(&self, name: &str) -> Result<List<Text>, Fault> {
        let mut items = List::new(self.alloc);
        let word = self.word(name)?;
        if !word.is_empty() {
            for item in word.split(ITEMS) {
                items.add(Text::from_vec(decoded(self.alloc, item)?))?;
            }
        }
        Ok(items)
    }
}

fn number_in<N: FromStr>(word: &str) -> Result<N, Fault>
where
    N::Err: Drop,
{
    word.parse::<N>()
        .map_err(|_| Fault::Form("a number is wanted"))
}

fn columns<'a>(alloc: Global, line: &'a str) -> Result<Vec<&'a str>, Fault> {
    let mut columns = Vec::new(alloc);
    for column in line.split('\t') {
        columns.push(column)?;
    }
    Ok(columns)
}

/// Runs a row of a kind.
fn run_row(kind: &str, row: &Row<'_>, line: usize, report: &mut Report) -> Result<(), Fault>
    ensures { report.old.rows ≤ report.new.rows }
{
    let want = row.bytes("gives")?;
    match gives(kind, row) {
        Ok(got) => report.add(line, want.as_slice(), got.as_bytes()),
        Err(fault) => report.add(line, want.as_slice(), fault.refusal(row.alloc)?.as_bytes()),
    }
}

/// Runs the rows of a file that is named for a kind. A line that begins with `#` is a remark. The report counts them behind those
/// that it has counted before.
pub fn run(alloc: Global, kind: &str, text: &str, report: &mut Report) -> Result<(), Misread>
    ensures { report.old.rows ≤ report.new.rows }
{
    let mut names = Vec::new(alloc);
    for (place, line) in text.lines().enumerate() {
        let number = place.saturating_add(1);
        if line.starts_with('#') {
            continue;
        }
        if names.is_empty() {
            names = columns(alloc, line).map_err(|fault| fault.at(number))?;
            continue;
        }
        let row = Row::new(alloc, names.as_slice(), line).map_err(|fault| fault.at(number))?;
        run_row(kind, &row, number, report).map_err(|fault| fault.at(number))?;
    }
    Ok(())
}
