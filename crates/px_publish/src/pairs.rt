// A publisher and its readers.
ghost use Rattle.std.specs.Prelude.{◌≡◌, ◌<◌, ◌≤◌, ◌∷◌, [], IfOk, All, vec_len};
ghost use Rattle.std.specs.Arc.{arc_value};
ghost use Rattle.px_publish.specs.Published.{published, pair_of, seen_by, reader_pair};

use crate::fronts::open;
use crate::publishers::Publisher;
use crate::readers::ConfigReader;
use crate::shared::{Held, SharedList};
use crate::writers::{readers, show};
use left_right::writer::Writer;
use px_base::Mem;
use std::alloc::Global;
use std::sync::{Arc, Wait};

/// A publisher whose list has one entry, and its readers, each of which holds that entry. A place for a reader that the
/// library refuses counts as want of memory. It may wait, in giving up what was begun.
pub fn publish_pair<C: Drop, R: Wait>(
    rt: &R,
    alloc: Global,
    first: Arc<C>,
    count: u32,
) -> Result<(Publisher<C>, Vec<ConfigReader<C>>), Mem>
    requires readers { 0 < count }
    requires places { count ≤ 64 }
    ensures list { IfOk result (λ p. published p.0 ≡ arc_value first ∷ []) }
    ensures count { IfOk result (λ p. vec_len p.1 ≡ count) }
    ensures entries { IfOk result (λ p. All (λ r. seen_by r ≡ arc_value first ∷ []) p.1.items) }
    ensures pair { IfOk result (λ p. All (λ r. reader_pair r ≡ pair_of p.0) p.1.items) }
{
    let (head, front) = open(&*first);
    let newest = Held {
        config: first,
        front,
    };
    let writer = Writer::new(
        alloc,
        SharedList::of(&newest),
        SharedList::of(&newest),
        count as usize,
    )?;
    let (mut writer, told) = show(rt, writer, SharedList::of(&newest));
    if !told {
        drop(Publisher::over(writer, head, newest).end(rt));
        return Err(Mem);
    }
    match readers(alloc, &mut writer, &newest, count) {
        Ok(readers) => Ok((Publisher::over(writer, head, newest), readers)),
        Err(Mem) => {
            drop(Publisher::over(writer, head, newest).end(rt));
            Err(Mem)
        }
    }
}
