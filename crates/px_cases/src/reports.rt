//! How it is told what the rows of a file come to.
use px_leaf_rows::{Difference, Fault, Misread, Report};
use std::io;

/// Prints the differences, then the fault that ended the run or the number of rows. Whether all is as it should be.
pub(crate) fn print_report(
    rt: &impl Print,
    name: &str,
    report: &Report,
    ran: Result<(), Misread>,
) -> io::Result<bool> {
    for difference in &report.differences {
        let Difference { line, want, got } = difference;
        println!(rt; "{name}:{line}: want {want} got {got}")?;
    }
    match ran {
        Ok(()) if report.rows == 0 => println!(rt; "{name}:0: the file has no row")?,
        Ok(()) => {
            let rows = report.rows;
            println!(rt; "{name} {rows}")?;
            return Ok(report.differences.is_empty());
        }
        Err(Misread { line, fault }) => match fault {
            Fault::Mem => println!(rt; "{name}:{line}: memory was wanting")?,
            Fault::Form(what) => println!(rt; "{name}:{line}: {what}")?,
            Fault::Refused {
                number,
                name: what,
                ..
            } => { println!(rt; "{name}:{line}: {number} {what}")? }
        },
    }
    Ok(false)
}
