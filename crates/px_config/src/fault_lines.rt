// Faults as they are printed.
ghost use Rattle.std.specs.Prelude.{◌≡◌, ◌≢◌, IfOk};
ghost use Rattle.px_config.specs.FaultLines.{fault_line, fault_text, load_name, name_of_file};

use crate::faults::LoadFault;
use itoa::Buffer;
use px_action_files::refusal_name;
use px_base::{Mem, Text};
use std::alloc::Global;

/// The number of a read that failed.
const READ_FAULT: u8 = 33;

impl LoadFault {
    /// The line FILE:LINE: NUMBER NAME, ended by LF. A file that couldn't be read has the line 0.
    pub fn print(&self, alloc: Global) -> Result<Text, Mem>
        requires { self.now ≢ LoadFault.Mem }
        ensures { IfOk result (λ text. text ≡ fault_text self.now) }
    {
        match self {
            LoadFault::Spelled { file, line, number } => {
                print_line(alloc, file.as_bytes(), *line, *number, load_name(*number))
            }
            LoadFault::Read { file } => {
                print_line(alloc, file.as_bytes(), 0, READ_FAULT, "ReadFault")
            }
            LoadFault::Mem => Ok(Text::new(alloc)),
        }
    }
}

fn print_line(alloc: Global, file: &[u8], line: u32, number: u8, name: &str) -> Result<Text, Mem>
    ensures { IfOk result (λ text. text ≡ fault_line file.now line number name.now) }
{
    let mut text = Text::from_bytes(alloc, file)?;
    text.push(b':')?;
    text.push_all(Buffer::new().format(line).as_bytes())?;
    text.push_all(b": ")?;
    text.push_all(Buffer::new().format(number).as_bytes())?;
    text.push(b' ')?;
    text.push_all(name.as_bytes())?;
    text.push(b'\n')?;
    Ok(text)
}

/// The name of a refusal by its number. A number that no refusal has gives the empty name.
#[tactic(auto, unfolding(crate::specs::FaultLines::load_name))]
fn load_name(number: u8) -> &'static str
    ensures { result.now ≡ load_name number }
{
    match number {
        1 => "NotText",
        2 => "TooLong",
        _ => name_of_file(number),
    }
}

/// The name of a refusal of a filter file, a template, a value or a whole file, or of an actions file.
fn name_of_file(number: u8) -> &'static str
    ensures { result.now ≡ name_of_file number }
{
    match number {
        25 => "JobBeforeFilter",
        26 => "NameMissing",
        27 => "NameTwice",
        28 => "OpenCondition",
        29 => "BadValue",
        30 => "NotLoopback",
        31 => "TooLarge",
        32 => "Missing",
        _ => refusal_name(number),
    }
}
