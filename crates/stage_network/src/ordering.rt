// Nodes of a stage in ascending order of their keys.
ghost use Rattle.std.specs.Prelude.{◌≡◌, length, map, IfOk, IsPermutation};
ghost use Rattle.std.specs.List.{AllByRecursion};
ghost use Rattle.std.specs.List.Sorted.{IsSortedBy};
ghost use Rattle.std.specs.Ordering.{is_lt};
ghost use Rattle.stage_network.specs.declared.ordering.Entry.{Entry};
ghost use Rattle.stage_network.specs.Ordering.{entry_cmp, entry_node};

use crate::nodes::StageNodes;
use std::alloc::Global;
use std::cmp::Ordering;
use weights::{Count, NoMemory};

/// A node, by the room and the partial of its key where they lie.
#[derive(Clone, Copy)]
pub struct Entry<'a> {
    pub room: &'a [i128],
    pub partial: &'a [i128],
    pub weight: u128,
}

/// The nodes of a stage, one after another.
pub fn entries_of<'a, C: Count>(
    alloc: Global,
    nodes: &'a StageNodes<C>,
) -> Result<Vec<Entry<'a>>, NoMemory>
    ensures nodes { IfOk result (λ entries. map entry_node entries.items ≡ nodes.now.nodes) }
    ensures rooms { IfOk result (λ entries.
        AllByRecursion (λ (e : Entry). length e.room.now ≡ nodes.now.room_width) entries.items) }
{
    let mut entries = Vec::new(alloc);
    for i in 0..nodes.len() {
        entries.push(Entry {
            room: nodes.room(i),
            partial: nodes.partial(i),
            weight: nodes.weight(i).value(),
        })?;
    }
    Ok(entries)
}

/// Sorts nodes by their keys.
pub fn sort_entries(entries: &mut [Entry<'_>])
    ensures permutation { IsPermutation entries.old entries.new }
    ensures sorted { IsSortedBy (λ a b. is_lt (entry_cmp a b)) entries.new }
{
    entries.sort_unstable_by(
        |a: &Entry<'_>, b: &Entry<'_>| -> Ordering
            ensures { result ≡ entry_cmp a.now b.now }
        { a.room.cmp(b.room).then(a.partial.cmp(b.partial)) },
    );
}
