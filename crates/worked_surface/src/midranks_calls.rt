// The public calls of `midranks`.
ghost use Rattle.std.specs.Prelude.{◌≡◌, ◌≤◌, IfOk, length};
ghost use Rattle.midranks.specs.Midranks.{doubled_midranks};
ghost use Rattle.midranks.specs.Ties.{AreCounted, IsAscending};

use midranks::{Tie, Ties};
use std::alloc::Global;
use weights::{NoMemory, Nums};

/// The doubled midranks.
pub fn doubled(alloc: Global, values: &[i128]) -> Result<Nums, NoMemory>
    requires { length values.now ≤ 10000 }
    ensures { IfOk result (λ ranks. ranks ≡ doubled_midranks values.now) }
{
    midranks::doubled(alloc, values)
}

/// A tie group, of its two parts.
pub fn tie(value: i128, count: u64) -> Tie
    ensures { result ≡ record { value = value; count = count } }
{
    Tie { value, count }
}

/// The tie groups of a list.
pub fn ties_slice(ties: &Ties) -> &[Tie]
    ensures { result.now ≡ ties.now }
{
    ties.as_slice()
}

/// The distinct values, ascending, with their counts.
pub fn tie_groups(alloc: Global, values: &[i128]) -> Result<Ties, NoMemory>
    ensures ascending { IfOk result (λ ties. IsAscending ties) }
    ensures counted { IfOk result (λ ties. AreCounted values.now ties) }
{
    midranks::tie_groups(alloc, values)
}
