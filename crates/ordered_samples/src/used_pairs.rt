// The pairs of groups that a test of ordered groups compares.
ghost use Rattle.std.specs.Prelude.{◌≡◌, ◌<◌, ◌++◌, IfOk};
ghost use Rattle.std.specs.List.{flat_map};
ghost use Rattle.weights.specs.Labellings.{labels};
ghost use Rattle.ordered_samples.specs.Umbrella.{pair_of, used_pairs};

use std::alloc::Global;
use weights::NoMemory;

/// Two groups, counted from 0. A subject of each adds 2 where that of the lesser group has the
/// lesser value, 1 where the values are equal, and nothing else.
#[derive(Clone, Copy, Debug, PartialEq, Eq)]
pub struct UsedPair {
    pub lesser: usize,
    pub greater: usize,
}

// Adds the pair of the groups u < v, where it is used.
fn push_pair(pairs: &mut Vec<UsedPair>, peak: u64, u: usize, v: usize) -> Result<(), NoMemory>
    requires { u < v }
    ensures { IfOk result (λ _. pairs.new.items ≡ pairs.old.items ++ pair_of peak u v) }
{
    if (v as u64) < peak {
        pairs.push(UsedPair {
            lesser: u,
            greater: v,
        })?;
    } else if peak <= u as u64 + 1 {
        pairs.push(UsedPair {
            lesser: v,
            greater: u,
        })?;
    }
    Ok(())
}

// Adds those of v and the groups before it.
fn push_pairs(pairs: &mut Vec<UsedPair>, peak: u64, v: usize) -> Result<(), NoMemory>
    ensures { let added = flat_map (λ u. pair_of peak u v) (labels v) in
        IfOk result (λ _. pairs.new.items ≡ pairs.old.items ++ added) }
{
    for u in 0..v {
        push_pair(pairs, peak, u, v)?;
    }
    Ok(())
}

/// The used pairs of so many groups that rise up to the peak, counted from 1, and fall from there
/// on.
pub(crate) fn used_pairs(alloc: Global, peak: u64, groups: usize) -> Result<Vec<UsedPair>, NoMemory>
    ensures { IfOk result (λ pairs. pairs.items ≡ used_pairs peak groups) }
{
    let mut pairs = Vec::new(alloc);
    for v in 0..groups {
        push_pairs(&mut pairs, peak, v)?;
    }
    Ok(pairs)
}
