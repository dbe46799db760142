// The distinct values of a list, each with how often it occurs.
ghost use Rattle.std.specs.Prelude.{◌≡◌, ◌<◌, length, IfOk};
ghost use Rattle.std.specs.List.{Any, HoldsAt};
ghost use Rattle.std.specs.List.Sorted.{IsSorted};
ghost use Rattle.std.specs.Ordering.{int_cmp};
ghost use Rattle.midranks.specs.Ties.{AreCounted, IsAscending, tie_groups};

use std::alloc::Global;
use weights::{List, NoMemory};

/// A tie group: a value, in the unit of its list, and how often it occurs there.
#[derive(Clone, Copy, Debug, PartialEq, Eq)]
pub struct Tie {
    /// The value that the group shares.
    pub value: i128,
    /// How many values there are in the group, 1 or more where it is one of a list.
    pub count: u64,
}

/// A list of tie groups. Those of a list of values ascend by value.
pub type Ties = List<Tie>;

// The runs of equal values of an ascending list.
fn runs(alloc: Global, sorted: &[i128]) -> Result<Ties, NoMemory>
    requires { IsSorted int_cmp sorted.now }
    ensures { IfOk result (λ ties. ties ≡ tie_groups sorted.now) }
{
    let mut ties = Ties::empty(alloc);
    let mut count = 0;
    for i in 0..sorted.len() {
        count += 1;
        if i + 1 == sorted.len() || sorted[i] != sorted[i + 1] {
            let value = sorted[i];
            ties.push(Tie { value, count })?;
            count = 0;
        }
    }
    Ok(ties)
}

/// The distinct values in ascending order, each with how often it occurs: one sort of a copy of the
/// values, and one pass.
pub fn tie_groups(alloc: Global, values: &[i128]) -> Result<Ties, NoMemory>
    ensures ascending { IfOk result (λ ties. IsAscending ties) }
    ensures counted { IfOk result (λ ties. AreCounted values.now ties) }
    ensures groups { IfOk result (λ ties. ties ≡ tie_groups values.now) }
{
    let mut sorted = Vec::from_slice(alloc, values)?;
    sorted.sort_unstable();
    runs(alloc, sorted.as_slice())
}

/// The index of the group of a value among groups that ascend, found by halving.
pub fn group_of(ties: &[Tie], value: i128) -> usize
    requires ascending { IsAscending ties.now }
    requires member { Any (λ tie. tie.value ≡ value) ties.now }
    ensures within { result < length ties.now }
    ensures found { HoldsAt (λ tie. tie.value ≡ value) ties.now result }
{
    ties.partition_point(|tie| tie.value < value)
}
