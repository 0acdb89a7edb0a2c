// What the writer of a pair does with the library.
ghost use Rattle.std.specs.Prelude.{◌≡◌, ◌≤◌, Some, IsTrue, IsFalse, IfOk, All, vec_len};
ghost use Rattle.left_right.specs.Sides.{view};
ghost use Rattle.px_publish.specs.Rules.{BeginsSameList};

use crate::readers::ConfigReader;
use crate::rules::{ListWriter, Seeing, Taken, Whole};
use crate::shared::{Held, SharedList};
use px_base::Mem;
use std::alloc::Global;
use std::sync::Wait;

/// Shows readers the entry, and says whether it did. It didn't where memory was wanting.
pub fn show<C: Drop, R: Wait>(
    rt: &R,
    mut writer: ListWriter<C>,
    entry: SharedList<C>,
) -> (ListWriter<C>, bool)
    requires { BeginsSameList writer.desk.shown.value.front.seen entry.front.seen }
    ensures shown { BeginsSameList result.0.desk.shown.value.front.seen entry.front.seen }
    ensures told { IsTrue result.1 → view result.0.desk.place ≡ Some entry.front.seen }
{
    match writer.append(entry) {
        Ok(()) => return (writer.publish_as::<Seeing, R>(rt).0, true),
        Err(_) => return (writer, false),
    }
}

/// A reader that holds the entry, of which the writer knows the list.
fn reader<C: Drop>(writer: &mut ListWriter<C>, entry: &Held<C>) -> Result<ConfigReader<C>, Mem>
    requires { view writer.old.desk.place ≡ Some entry.now.front.seen }
    ensures told { view writer.new.desk.place ≡ view writer.old.desk.place }
    ensures shown { writer.new.desk.shown ≡ writer.old.desk.shown }
    ensures entry { IfOk result (λ r. r.held.front ≡ entry.now.front) }
{
    let Ok(held) = entry.again() else {
        return Err(Mem);
    };
    let mut reader = writer.factory().reader()?;
    reader.learn::<Taken>(writer.tell::<Whole>());
    Ok(ConfigReader::over(reader, held))
}

/// So many readers that hold the entry.
#[tactic(auto, using(crate::proofs::ViewLemmas::all_snoc))]
pub fn readers<C: Drop>(
    alloc: Global,
    writer: &mut ListWriter<C>,
    entry: &Held<C>,
    count: u32,
) -> Result<Vec<ConfigReader<C>>, Mem>
    requires { view writer.old.desk.place ≡ Some entry.now.front.seen }
    ensures shown { writer.new.desk.shown ≡ writer.old.desk.shown }
    ensures count { IfOk result (λ rs. vec_len rs ≡ count) }
    ensures entries { IfOk result (λ rs. All (λ r. r.held.front ≡ entry.now.front) rs.items) }
{
    let mut readers = Vec::new(alloc);
    for _ in 0..count {
        readers.push(reader(writer, entry)?)?;
    }
    Ok(readers)
}
